// The names that patterns bind.
ghost use Rattle.std.specs.Prelude.{◌≡◌, ◌≤◌, ◌+◌, ℕ, map, OnOk, IfOk, IfErr};
ghost use Rattle.fut_flat.specs.Numbers.{all_pattern_numbers, pattern_numbers};
ghost use Rattle.fut_flat.specs.Erased.{pattern_of, patterns};
ghost use Rattle.fut_typing.specs.Homes.{env_pattern, env_patterns, env_sizes};
ghost use Rattle.type_graph.specs.Graph.{Tells};
ghost use Rattle.type_scopes.specs.Scopes.{Binds, Safe, field_pattern};

use crate::Inference;
use crate::names::{Known, enter};
use fut_flat::{Pat, PatField, PatForm};
use fut_scalar::BindId;
use type_graph::UnifyErr;

/// Lets the names of a pattern stand for values of the types of its numbers, which begin at `lo`. The answer is where they
/// end.
#[cycle(pattern)]
pub fn enter_pattern(
    base: u32,
    pat: &Pat<'_>,
    lo: u32,
    inference: &mut Inference,
) -> Result<u32, UnifyErr>
    requires safe { Safe base inference.old }
    requires room { lo + pattern_numbers (pattern_of pat.now) ≤ base }
    ensures next { IfOk result (λ next. next ≡ lo + pattern_numbers (pattern_of pat.now)) }
    ensures safe { OnOk result (Safe base inference.new) }
    ensures ok { OnOk result (Binds base lo (pattern_numbers (pattern_of pat.now)) (env_pattern (pattern_of pat.now) lo) inference.old inference.new) }
    ensures err { IfErr result (Tells ⊥) }
{
    match pat.form {
        PatForm::Bound(bind) => match enter(inference, bind.0, Known::Number(lo)) {
            Ok(()) => Ok(lo + 1),
            Err(error) => Err(error),
        },
        PatForm::Wild => Ok(lo + 1),
        PatForm::Tuple(parts) => enter_patterns(base, parts, 1 + lo, inference),
        PatForm::Record(fields) => enter_fields(base, fields, 1 + lo, inference),
        PatForm::Typed(inner, _) => enter_pattern(base, inner, lo, inference),
    }
}

/// The same of patterns in a row.
#[cycle(pattern)]
pub fn enter_patterns(
    base: u32,
    parts: &[Pat<'_>],
    lo: u32,
    inference: &mut Inference,
) -> Result<u32, UnifyErr>
    requires safe { Safe base inference.old }
    requires room { lo + all_pattern_numbers (patterns (map pattern_of parts.now)) ≤ base }
    ensures next { IfOk result (λ next. next ≡ lo + all_pattern_numbers (patterns (map pattern_of parts.now))) }
    ensures safe { OnOk result (Safe base inference.new) }
    ensures ok { OnOk result (Binds base lo (all_pattern_numbers (patterns (map pattern_of parts.now))) (env_patterns (patterns (map pattern_of parts.now)) lo) inference.old inference.new) }
    ensures err { IfErr result (Tells ⊥) }
{
    let mut at = lo;
    for part in parts {
        at = match enter_pattern(base, part, at, inference) {
            Ok(next) => next,
            Err(error) => return Err(error),
        };
    }
    Ok(at)
}

#[cycle(pattern)]
fn enter_fields(
    base: u32,
    fields: &[PatField<'_>],
    lo: u32,
    inference: &mut Inference,
) -> Result<u32, UnifyErr>
    requires safe { Safe base inference.old }
    requires room { lo + all_pattern_numbers (patterns (map field_pattern fields.now)) ≤ base }
    ensures next { IfOk result (λ next. next ≡ lo + all_pattern_numbers (patterns (map field_pattern fields.now))) }
    ensures safe { OnOk result (Safe base inference.new) }
    ensures ok { OnOk result (Binds base lo (all_pattern_numbers (patterns (map field_pattern fields.now))) (env_patterns (patterns (map field_pattern fields.now)) lo) inference.old inference.new) }
    ensures err { IfErr result (Tells ⊥) }
{
    let mut at = lo;
    for field in fields {
        at = match enter_pattern(base, &field.pat, at, inference) {
            Ok(next) => next,
            Err(error) => return Err(error),
        };
    }
    Ok(at)
}

/// Lets names stand for sizes.
pub fn enter_sizes(base: u32, sizes: &[BindId], inference: &mut Inference) -> Result<(), UnifyErr>
    requires safe { Safe base inference.old }
    ensures safe { OnOk result (Safe base inference.new) }
    ensures ok { OnOk result ((lo : ℕ) → Binds base lo 0 (env_sizes sizes.now) inference.old inference.new) }
    ensures err { IfErr result (Tells ⊥) }
{
    let _base = base;
    for size in sizes {
        match enter(inference, size.0, Known::Size) {
            Ok(()) => {}
            Err(error) => return Err(error),
        }
    }
    Ok(())
}
