// Patterns.
ghost use Rattle.std.specs.Prelude.{map};
ghost use Rattle.fut_flat.specs.Erased.{pattern_of};
ghost use Rattle.fut_flat.specs.Sources.{source_pattern};
ghost use Rattle.fut_flat.proofs.ErasedPatterns.{pattern_field};
ghost use Rattle.elab_scopes.specs.Answers.{Bound_by, Went};
ghost use Rattle.elab_scopes.specs.Resolve.{name_pattern, resolve_pattern};
ghost use Rattle.elab_scopes.specs.Walks.{each};
ghost use Rattle.elab_types.specs.Elements.{field_pattern, pattern_part};
ghost use Rattle.elab_types.specs.Numbering.{Named};
ghost use Rattle.elab_types.specs.Bindings.{bound_pattern_of};

use crate::lists::put;
use crate::numbers::numbered;
use crate::types::resolved_type;
use bumpalo::Bump;
use bumpalo::collections::into_bump_slice;
use elab_nodes::pats as nodes;
use elab_scopes::{Entry, Names, Refusal, Stop};
use fut_flat as flat;
use fut_scalar::{BindId, Place};
use fut_tree::{Held, Pat, PatField, PatForm};

/// A name that a pattern binds, once.
#[tactic(auto, using(crate::proofs::PatLaws::naming_rules))]
fn named<'a>(name: &'a str, at: Place, names: &mut Names<'a>) -> Result<BindId, Stop<'a>>
    ensures { Named name.now at names.old names.new result }
{
    if names.is_bound(name) {
        return Err(Stop::Refused(Refusal::Twice { name, at }));
    }
    match numbered(name, names) {
        Ok(bind) => match names.bind(Entry {
            name,
            bind,
            is_type: false,
        }) {
            Ok(()) => Ok(bind),
            Err(_) => Err(Stop::Memory),
        },
        Err(stop) => Err(stop),
    }
}

/// A pattern with its names numbered and those of its types resolved.
#[cycle(pats)]
#[tactic(auto)]
fn named_pattern<'a>(
    pat: &'a Pat<'a>,
    bump: &'a Bump,
    names: &mut Names<'a>,
) -> Result<flat::Pat<'a>, Stop<'a>>
    ensures { Bound_by pattern_of (name_pattern (source_pattern pat.now)) names.old names.new result }
{
    match pat.form {
        PatForm::Var(name) => nodes::bound(pat.place, named(name, pat.place, names)),
        PatForm::Wild => Ok(flat::Pat {
            place: pat.place,
            form: flat::PatForm::Wild,
        }),
        PatForm::Unit => nodes::tuple(pat.place, Ok(&[])),
        PatForm::Tuple(parts) => nodes::tuple(pat.place, named_parts(parts, bump, names)),
        PatForm::Record(fields) => nodes::record(pat.place, named_fields(fields, bump, names)),
        PatForm::Ascribe(inside, ty) => {
            nodes::typed(
                bump,
                pat.place,
                named_pattern(inside, bump, names),
                resolved_type(ty, bump, names),
            )
        }
    }
}

#[cycle(pats)]
#[tactic(auto)]
fn named_parts<'a>(
    parts: &'a [Held<'a, Pat<'a>>],
    bump: &'a Bump,
    names: &mut Names<'a>,
) -> Result<&'a [flat::Pat<'a>], Stop<'a>>
    ensures { Bound_by (λ made. map pattern_of made.now) (each pattern_part parts.now) names.old names.new result }
{
    let mut made = Vec::new(bump);
    for part in parts {
        match put(named_pattern(part.at, bump, names), &mut made) {
            Ok(()) => (),
            Err(stop) => return Err(stop),
        }
    }
    Ok(into_bump_slice(made))
}

#[cycle(pats)]
#[tactic(auto)]
fn named_fields<'a>(
    fields: &'a [PatField<'a>],
    bump: &'a Bump,
    names: &mut Names<'a>,
) -> Result<&'a [flat::PatField<'a>], Stop<'a>>
    ensures { Bound_by (λ made. map pattern_field made.now) (each field_pattern fields.now) names.old names.new result }
{
    let mut made = Vec::new(bump);
    for field in fields {
        match named_pattern(field.pat, bump, names) {
            Ok(pat) => match made.push(flat::PatField {
                name: field.name,
                pat,
            }) {
                Ok(()) => (),
                Err(_) => return Err(Stop::Memory),
            },
            Err(stop) => return Err(stop),
        }
    }
    Ok(into_bump_slice(made))
}

/// A pattern and the names that it binds, which come in scope behind it.
#[derive(Clone, Copy)]
pub struct Bound<'a> {
    pub pat: flat::Pat<'a>,
    pub names: &'a [Entry<'a>],
}

/// A whole pattern.
#[tactic(auto, using(crate::proofs::PatLaws::whole_rules))]
pub fn resolved_pattern<'a>(
    pat: &'a Pat<'a>,
    bump: &'a Bump,
    names: &mut Names<'a>,
) -> Result<Bound<'a>, Stop<'a>>
    ensures { Went bound_pattern_of (resolve_pattern (source_pattern pat.now)) names.old names.new result }
{
    names.begin_pattern();
    match named_pattern(pat, bump, names) {
        Ok(pat) => match names.pattern_names(bump) {
            Ok(bound) => Ok(Bound { pat, names: bound }),
            Err(_) => Err(Stop::Memory),
        },
        Err(stop) => Err(stop),
    }
}
