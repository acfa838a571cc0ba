// Patterns of parameters, and the types of functions of them.
ghost use Rattle.std.specs.Prelude.{◌≡◌, ◌≤◌, ◌<◌, ◌+◌, ◌++◌, ℕ, map, OnOk, IfOk, IfErr};
ghost use Rattle.fut_flat.specs.Numbers.{all_pattern_numbers, pattern_numbers};
ghost use Rattle.fut_flat.specs.Erased.{pattern_of, patterns, texts, type_of};
ghost use Rattle.fut_flat.specs.Terms.{Record_pattern, Tuple_pattern, Typed_pattern};
ghost use Rattle.fut_types.specs.Types.{Made};
ghost use Rattle.fut_types.specs.declared.Head.TheVariants as head;
ghost use Rattle.fut_types.specs.declared.Kind.{Kind as AnyKind};
ghost use Rattle.fut_typing.specs.Homes.{At_home, env_pattern, env_patterns, env_sizes};
ghost use Rattle.fut_typing.specs.Patterns.{arrows};
ghost use Rattle.type_graph.specs.Graph.{Each, Tells};
ghost use Rattle.type_graph.specs.Claims.{types_of};
ghost use Rattle.type_scopes.specs.Scopes.{Binds, Claimed, Opened, Refused, Safe, field_pattern};
ghost use Rattle.type_constraints.specs.Parts.{Parameters_claim, Pattern_claim, Patterns_claim, pattern_name, pattern_starts};

use crate::setting::Setting;
use fut_flat::{Pat, PatField, PatForm, TypeExp};
use fut_scalar::{BindId, List};
use std::alloc::Global;
use type_graph::UnifyErr;
use type_patterns::{constrain_fields, constrain_type};
use type_rules::{function, tuple};
use type_scopes::{Inference, enter_pattern, enter_sizes};

/// Asks that the numbers of a pattern, which begin at `lo`, have types of its form.
#[cycle(pattern)]
pub fn constrain_pattern<'a>(
    setting: Setting,
    pat: &Pat<'a>,
    lo: u32,
    inference: &mut Inference<'a>,
) -> Result<u32, UnifyErr>
    requires safe { Safe setting.base inference.old }
    requires room { lo + pattern_numbers (pattern_of pat.now) ≤ setting.base }
    ensures next { IfOk result (λ next. next ≡ lo + pattern_numbers (pattern_of pat.now)) }
    ensures ok { OnOk result ((d : ℕ) → Claimed setting.places setting.base d lo (Pattern_claim setting.places (pattern_of pat.now) lo) (λ home. At_home home d lo (pattern_numbers (pattern_of pat.now))) inference.old inference.new) }
    ensures err { IfErr result (Tells ((d : ℕ) → Refused setting.places setting.base d lo (Pattern_claim setting.places (pattern_of pat.now) lo) (λ home. At_home home d lo (pattern_numbers (pattern_of pat.now))) inference.old inference.new)) }
{
    match pat.form {
        PatForm::Bound(_) => Ok(1 + lo),
        PatForm::Wild => Ok(1 + lo),
        PatForm::Tuple(parts) => constrain_tuple(setting, parts, lo, inference),
        PatForm::Record(fields) => constrain_record(setting, fields, lo, inference),
        PatForm::Typed(inner, ty) => { constrain_typed(setting, inner, ty, lo, inference) }
    }
}

// A tuple's pattern: its type is made of those of its parts.
#[cycle(pattern)]
fn constrain_tuple<'a>(
    setting: Setting,
    parts: &[Pat<'a>],
    lo: u32,
    inference: &mut Inference<'a>,
) -> Result<u32, UnifyErr>
    requires safe { Safe setting.base inference.old }
    requires room { lo + pattern_numbers (Tuple_pattern (patterns (map pattern_of parts.now))) ≤ setting.base }
    ensures next { IfOk result (λ next. next ≡ lo + pattern_numbers (Tuple_pattern (patterns (map pattern_of parts.now)))) }
    ensures ok { OnOk result ((d : ℕ) → Claimed setting.places setting.base d lo (Pattern_claim setting.places (Tuple_pattern (patterns (map pattern_of parts.now))) lo) (λ home. At_home home d lo (pattern_numbers (Tuple_pattern (patterns (map pattern_of parts.now))))) inference.old inference.new) }
    ensures err { IfErr result (Tells ((d : ℕ) → Refused setting.places setting.base d lo (Pattern_claim setting.places (Tuple_pattern (patterns (map pattern_of parts.now))) lo) (λ home. At_home home d lo (pattern_numbers (Tuple_pattern (patterns (map pattern_of parts.now))))) inference.old inference.new)) }
{
    let mut begins = List::new(setting.alloc);
    let next = match constrain_patterns(setting, parts, 1 + lo, &mut begins, inference) {
        Ok(next) => next,
        Err(error) => return Err(error),
    };
    constrain_made(
        setting.alloc,
        setting.base,
        lo,
        begins.as_slice(),
        inference,
    )
    .and(Ok(next))
}

// Patterns in a row. Where the numbers of each begin is noted.
#[cycle(pattern)]
fn constrain_patterns<'a>(
    setting: Setting,
    parts: &[Pat<'a>],
    lo: u32,
    begins: &mut List<u32>,
    inference: &mut Inference<'a>,
) -> Result<u32, UnifyErr>
    requires safe { Safe setting.base inference.old }
    requires room { lo + all_pattern_numbers (patterns (map pattern_of parts.now)) ≤ setting.base }
    ensures next { IfOk result (λ next. next ≡ lo + all_pattern_numbers (patterns (map pattern_of parts.now))) }
    ensures begins { OnOk result (begins.new ≡ begins.old ++ pattern_starts (patterns (map pattern_of parts.now)) lo) }
    ensures ok { OnOk result ((d : ℕ) → Claimed setting.places setting.base d lo (Patterns_claim setting.places (patterns (map pattern_of parts.now)) lo) (λ home. At_home home d lo (all_pattern_numbers (patterns (map pattern_of parts.now)))) inference.old inference.new) }
    ensures err { IfErr result (Tells ((d : ℕ) → Refused setting.places setting.base d lo (Patterns_claim setting.places (patterns (map pattern_of parts.now)) lo) (λ home. At_home home d lo (all_pattern_numbers (patterns (map pattern_of parts.now)))) inference.old inference.new)) }
{
    let mut at = lo;
    for part in parts {
        match begins.push(at) {
            Ok(()) => {}
            Err(_) => return Err(UnifyErr::Memory),
        }
        at = match constrain_pattern(setting, part, at, inference) {
            Ok(next) => next,
            Err(error) => return Err(error),
        };
    }
    Ok(at)
}

// A record's pattern: its type is that of the fields with these names, which have the types of its parts.
#[cycle(pattern)]
fn constrain_record<'a>(
    setting: Setting,
    fields: &[PatField<'a>],
    lo: u32,
    inference: &mut Inference<'a>,
) -> Result<u32, UnifyErr>
    requires safe { Safe setting.base inference.old }
    requires room { lo + pattern_numbers (Record_pattern (map pattern_name fields.now) (patterns (map field_pattern fields.now))) ≤ setting.base }
    ensures next { IfOk result (λ next. next ≡ lo + pattern_numbers (Record_pattern (map pattern_name fields.now) (patterns (map field_pattern fields.now)))) }
    ensures ok { OnOk result ((d : ℕ) → Claimed setting.places setting.base d lo (Pattern_claim setting.places (Record_pattern (map pattern_name fields.now) (patterns (map field_pattern fields.now))) lo) (λ home. At_home home d lo (pattern_numbers (Record_pattern (map pattern_name fields.now) (patterns (map field_pattern fields.now))))) inference.old inference.new) }
    ensures err { IfErr result (Tells ((d : ℕ) → Refused setting.places setting.base d lo (Pattern_claim setting.places (Record_pattern (map pattern_name fields.now) (patterns (map field_pattern fields.now))) lo) (λ home. At_home home d lo (pattern_numbers (Record_pattern (map pattern_name fields.now) (patterns (map field_pattern fields.now))))) inference.old inference.new)) }
{
    let mut begins = List::new(setting.alloc);
    let mut names = List::new(setting.alloc);
    let next = match constrain_field_patterns(
        setting,
        fields,
        1 + lo,
        &mut begins,
        &mut names,
        inference,
    ) {
        Ok(next) => next,
        Err(error) => return Err(error),
    };
    constrain_fields(
        setting.alloc,
        setting.base,
        lo,
        names.as_slice(),
        begins.as_slice(),
        inference,
    )
    .and(Ok(next))
}

// Patterns of fields in a row. Where the numbers of each begin is noted, and its name.
#[cycle(pattern)]
fn constrain_field_patterns<'a>(
    setting: Setting,
    fields: &[PatField<'a>],
    lo: u32,
    begins: &mut List<u32>,
    names: &mut List<&'a str>,
    inference: &mut Inference<'a>,
) -> Result<u32, UnifyErr>
    requires safe { Safe setting.base inference.old }
    requires room { lo + all_pattern_numbers (patterns (map field_pattern fields.now)) ≤ setting.base }
    ensures next { IfOk result (λ next. next ≡ lo + all_pattern_numbers (patterns (map field_pattern fields.now))) }
    ensures begins { OnOk result (begins.new ≡ begins.old ++ pattern_starts (patterns (map field_pattern fields.now)) lo) }
    ensures names { OnOk result (texts names.new ≡ texts names.old ++ map pattern_name fields.now) }
    ensures ok { OnOk result ((d : ℕ) → Claimed setting.places setting.base d lo (Patterns_claim setting.places (patterns (map field_pattern fields.now)) lo) (λ home. At_home home d lo (all_pattern_numbers (patterns (map field_pattern fields.now)))) inference.old inference.new) }
    ensures err { IfErr result (Tells ((d : ℕ) → Refused setting.places setting.base d lo (Patterns_claim setting.places (patterns (map field_pattern fields.now)) lo) (λ home. At_home home d lo (all_pattern_numbers (patterns (map field_pattern fields.now)))) inference.old inference.new)) }
{
    let mut at = lo;
    for field in fields {
        match begins.push(at) {
            Ok(()) => {}
            Err(_) => return Err(UnifyErr::Memory),
        }
        match names.push(field.name) {
            Ok(()) => {}
            Err(_) => return Err(UnifyErr::Memory),
        }
        at = match constrain_pattern(setting, &field.pat, at, inference) {
            Ok(next) => next,
            Err(error) => return Err(error),
        };
    }
    Ok(at)
}

// A pattern with a written type.
#[cycle(pattern)]
fn constrain_typed<'a>(
    setting: Setting,
    inner: &Pat<'a>,
    ty: &TypeExp<'a>,
    lo: u32,
    inference: &mut Inference<'a>,
) -> Result<u32, UnifyErr>
    requires safe { Safe setting.base inference.old }
    requires room { lo + pattern_numbers (Typed_pattern (pattern_of inner.now) (type_of ty.now)) ≤ setting.base }
    ensures next { IfOk result (λ next. next ≡ lo + pattern_numbers (Typed_pattern (pattern_of inner.now) (type_of ty.now))) }
    ensures ok { OnOk result ((d : ℕ) → Claimed setting.places setting.base d lo (Pattern_claim setting.places (Typed_pattern (pattern_of inner.now) (type_of ty.now)) lo) (λ home. At_home home d lo (pattern_numbers (Typed_pattern (pattern_of inner.now) (type_of ty.now)))) inference.old inference.new) }
    ensures err { IfErr result (Tells ((d : ℕ) → Refused setting.places setting.base d lo (Pattern_claim setting.places (Typed_pattern (pattern_of inner.now) (type_of ty.now)) lo) (λ home. At_home home d lo (pattern_numbers (Typed_pattern (pattern_of inner.now) (type_of ty.now)))) inference.old inference.new)) }
{
    let next = match constrain_pattern(setting, inner, lo, inference) {
        Ok(next) => next,
        Err(error) => return Err(error),
    };
    constrain_type(
        setting.alloc,
        setting.places,
        setting.base,
        ty,
        lo,
        inference,
    )
    .and(Ok(next))
}

// A number has the type of tuples of parts of these numbers.
fn constrain_made(
    alloc: Global,
    base: u32,
    number: u32,
    parts: &[u32],
    inference: &mut Inference,
) -> Result<(), UnifyErr>
    requires safe { Safe base inference.old }
    requires number { number < base }
    requires parts { Each (λ part. part < base) parts.now }
    ensures ok { OnOk result ((places : AnyKind) (d lo : ℕ) → Claimed places base d lo (λ N scope K a. a number ≡ Made head.Tuple (types_of a parts.now)) (λ home. Unit {0}) inference.old inference.new) }
    ensures err { IfErr result (Tells ((places : AnyKind) (d lo : ℕ) → Refused places base d lo (λ N scope K a. a number ≡ Made head.Tuple (types_of a parts.now)) (λ home. Unit {0}) inference.old inference.new)) }
{
    tuple(
        alloc,
        &inference.table,
        base,
        &mut inference.nodes,
        &mut inference.entries,
        number,
        parts,
    )
}

/// Asks the same of parameters in a row, and lets their names stand for values of the types of their numbers. Where the
/// numbers of each begin is noted.
pub fn constrain_parameters<'a>(
    setting: Setting,
    params: &[Pat<'a>],
    lo: u32,
    begins: &mut List<u32>,
    inference: &mut Inference<'a>,
) -> Result<u32, UnifyErr>
    requires safe { Safe setting.base inference.old }
    requires room { lo + all_pattern_numbers (patterns (map pattern_of params.now)) ≤ setting.base }
    ensures next { IfOk result (λ next. next ≡ lo + all_pattern_numbers (patterns (map pattern_of params.now))) }
    ensures begins { OnOk result (begins.new ≡ begins.old ++ pattern_starts (patterns (map pattern_of params.now)) lo) }
    ensures ok { OnOk result (Opened setting.places setting.base setting.depth lo (lo + all_pattern_numbers (patterns (map pattern_of params.now))) (Parameters_claim setting.places (patterns (map pattern_of params.now)) lo) (λ home. At_home home setting.depth lo (all_pattern_numbers (patterns (map pattern_of params.now)))) (env_patterns (patterns (map pattern_of params.now)) lo) inference.old inference.new) }
    ensures err { IfErr result (Tells (Refused setting.places setting.base setting.depth lo (Parameters_claim setting.places (patterns (map pattern_of params.now)) lo) (λ home. At_home home setting.depth lo (all_pattern_numbers (patterns (map pattern_of params.now)))) inference.old inference.new)) }
{
    let mut at = lo;
    for param in params {
        match begins.push(at) {
            Ok(()) => {}
            Err(_) => return Err(UnifyErr::Memory),
        }
        match constrain_pattern(setting, param, at, inference) {
            Ok(_) => {}
            Err(error) => return Err(error),
        }
        at = match enter_pattern(setting.base, param, at, inference) {
            Ok(next) => next,
            Err(_) => return Err(UnifyErr::Memory),
        };
    }
    Ok(at)
}

/// Asks that a number has the type of functions of parameters of these numbers.
pub fn constrain_arrows(
    alloc: Global,
    base: u32,
    number: u32,
    params: &[u32],
    body: u32,
    inference: &mut Inference,
) -> Result<(), UnifyErr>
    requires safe { Safe base inference.old }
    requires number { number < base }
    requires params { Each (λ param. param < base) params.now }
    requires body { body < base }
    ensures ok { OnOk result ((places : AnyKind) (d lo : ℕ) → Claimed places base d lo (λ N scope K a. a number ≡ arrows (types_of a params.now) (a body)) (λ home. Unit {0}) inference.old inference.new) }
    ensures err { IfErr result (Tells ((places : AnyKind) (d lo : ℕ) → Refused places base d lo (λ N scope K a. a number ≡ arrows (types_of a params.now) (a body)) (λ home. Unit {0}) inference.old inference.new)) }
{
    function(
        alloc,
        &inference.table,
        base,
        &mut inference.nodes,
        &mut inference.entries,
        number,
        params,
        body,
    )
}

/// Lets size names stand for sizes, and the names of a pattern, which sees them, for values of the types of its numbers.
pub fn enter_bound(
    base: u32,
    sizes: &[BindId],
    pat: &Pat<'_>,
    lo: u32,
    inference: &mut Inference,
) -> Result<(), UnifyErr>
    requires safe { Safe base inference.old }
    requires room { lo + pattern_numbers (pattern_of pat.now) ≤ base }
    ensures safe { OnOk result (Safe base inference.new) }
    ensures ok { OnOk result (Binds base lo (pattern_numbers (pattern_of pat.now)) (λ E. env_pattern (pattern_of pat.now) lo (env_sizes sizes.now E)) inference.old inference.new) }
    ensures err { IfErr result (Tells ⊥) }
{
    match enter_sizes(base, sizes, inference) {
        Ok(()) => {}
        Err(_) => return Err(UnifyErr::Memory),
    }
    enter_pattern(base, pat, lo, inference).and(Ok(()))
}
