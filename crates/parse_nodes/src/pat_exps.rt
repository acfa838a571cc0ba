// The expression of a loop's pattern, which is its first value where none is written.
ghost use Rattle.std.specs.Prelude.{◌≡◌, IfOk, map};
ghost use Rattle.fut_ast.specs.Nodes.{any_wild, exp_at, exp_of_pat, has_wild};
ghost use Rattle.fut_ast.specs.declared.exp.Form.TheVariants as form;
ghost use Rattle.fut_tree.specs.Names.{all};
ghost use Rattle.fut_tree.specs.Pats.{pat_fields};

use crate::exp_nodes::{held, name_used, record, unit};
use bumpalo::Bump;
use bumpalo::collections::into_bump_slice;
use fut_scalar::{NoMemory, Place};
use fut_tree::{Exp, ExpField, Form, Held, Pat, PatField, PatForm};

/// Whether a `_` stands in the pattern.
#[cycle(wildcards)]
#[tactic(auto, using(crate::proofs::PatLaws::wild_held))]
pub fn has_wildcard<'a>(pattern: &'a Pat<'a>) -> bool
    ensures { result ≡ has_wild pattern.now }
{
    match pattern.form {
        PatForm::Var(_) => false,
        PatForm::Unit => false,
        PatForm::Wild => true,
        PatForm::Tuple(parts) => any_wildcard(parts),
        PatForm::Record(fields) => any_field_wildcard(fields),
        PatForm::Ascribe(inside, _) => has_wildcard(inside),
    }
}

#[cycle(wildcards)]
fn any_wildcard<'a>(parts: &'a [Held<'a, Pat<'a>>]) -> bool
    ensures { result ≡ any_wild (map has_wild (all parts.now)) }
{
    'parts: for part in parts {
        if has_wildcard(part.at) {
            return true;
        }
    }
    false
}

#[cycle(wildcards)]
fn any_field_wildcard<'a>(fields: &'a [PatField<'a>]) -> bool
    ensures { result ≡ any_wild (map (λ f. has_wild f.1) (pat_fields fields.now)) }
{
    'fields: for field in fields {
        if has_wildcard(field.pat) {
            return true;
        }
    }
    false
}

/// The pattern as an expression, its names in its places.
#[cycle(patexps)]
#[tactic(auto, using(crate::proofs::PatLaws::exp_held))]
pub fn exp_of_pattern<'a>(bump: &'a Bump, pattern: &'a Pat<'a>) -> Result<&'a Exp<'a>, NoMemory>
    ensures { IfOk result (λ e. e.now ≡ exp_of_pat pattern.now) }
{
    match pattern.form {
        PatForm::Var(name) => name_used(bump, pattern.place, name),
        PatForm::Wild | PatForm::Unit => unit(bump, pattern.place),
        PatForm::Tuple(parts) => tuple_of(bump, pattern.place, parts),
        PatForm::Record(fields) => record_of(bump, pattern.place, fields),
        PatForm::Ascribe(inside, _) => exp_of_pattern(bump, inside),
    }
}

#[cycle(patexps)]
fn tuple_of<'a>(
    bump: &'a Bump,
    place: Place,
    parts: &'a [Held<'a, Pat<'a>>],
) -> Result<&'a Exp<'a>, NoMemory>
    ensures { IfOk result (λ e. e.now ≡ exp_at place (form.Tuple (map exp_of_pat (all parts.now)))) }
{
    let mut made = Vec::new(bump);
    'parts: for part in parts {
        match exp_of_pattern(bump, part.at) {
            Ok(at) => match made.push(Held { at }) {
                Ok(()) => (),
                Err(_) => return Err(NoMemory),
            },
            Err(none) => return Err(none),
        }
    }
    held(
        bump,
        Exp {
            place,
            mark: place,
            form: Form::Tuple(into_bump_slice(made)),
        },
    )
}

#[cycle(patexps)]
fn record_of<'a>(
    bump: &'a Bump,
    place: Place,
    fields: &'a [PatField<'a>],
) -> Result<&'a Exp<'a>, NoMemory>
    ensures { IfOk result (λ e. e.now ≡ exp_at place (form.Record (map (λ f. (f.0, exp_of_pat f.1)) (pat_fields fields.now)))) }
{
    let mut made = Vec::new(bump);
    'fields: for field in fields {
        let name = field.name;
        match exp_of_pattern(bump, field.pat) {
            Ok(exp) => match made.push(ExpField { name, exp }) {
                Ok(()) => (),
                Err(_) => return Err(NoMemory),
            },
            Err(none) => return Err(none),
        }
    }
    record(bump, place, into_bump_slice(made))
}
