// The names of patterns.
ghost use Rattle.std.specs.Prelude.{◌≡◌, IfErr, IfOk, length, map};
ghost use Rattle.fut_flat.specs.Erased.{pattern_of, patterns, texts};
ghost use Rattle.fut_flat.specs.Terms.{Record_pattern, Tuple_pattern};
ghost use Rattle.unfold.specs.Held.{field_of, fields_known, known_of, scope_of};
ghost use Rattle.unfold_parts.specs.Answers.{All_bound_from, Bound_from, Bound_inside, Bound_to, Fields_given, Fields_read, Given_to, Is_entered, Is_named};
ghost use Rattle.unfold_parts.specs.Parts.{Fields_to};
ghost use Rattle.unfold_parts.specs.Patterns.{field_names, field_patterns};
ghost use Rattle.unfold_parts.specs.declared.refusal.Refusal.TheVariants as refusal;
ghost use Rattle.unfold_parts.specs.States.{steps_of};

use crate::packing::NOWHERE;
use crate::records::field_known;
use crate::refusal::Refusal;
use crate::scope::bound;
use crate::steps::Unfolding;
use bumpalo::Bump;
use bumpalo::collections::into_bump_slice;
use flat_numbers::after;
use fut_blocks::{Act, Atom, Making, Operation};
use fut_flat::{Pat, PatField, PatForm};
use fut_scalar::BindId;
use told_rows::{Sizes, enter};
use unfold::{Field, Known, KnownForm, Scope};

/// The names so far, and the number of the next pattern's node.
#[derive(Clone, Copy)]
pub struct Bound<'a> {
    pub scope: Scope<'a>,
    pub at: u32,
}

/// The patterns of a record's fields, and what is known of the parts that they are given.
#[derive(Clone, Copy)]
pub struct Given<'a> {
    pub pats: &'a [Pat<'a>],
    pub knowns: &'a [Known<'a>],
}

/// The names with those of a pattern, whose node has the number `at`, and what is known of the parts of the value. What is one
/// component is taken apart by steps.
pub fn bind<'a>(
    work: &mut Unfolding<'a>,
    sizes: Option<&'a Sizes<'a>>,
    at: u32,
    pat: &'a Pat<'a>,
    known: Known<'a>,
    scope: Scope<'a>,
) -> Result<Scope<'a>, Refusal>
    ensures { Bound_to sizes.entry at (pattern_of pat.now) (known_of known.entry) (scope_of scope.entry) work.old.next (steps_of work.old) (steps_of work.new) work.new.next result }
{
    match bind_known(work, sizes, pat, &known, Bound { scope, at }) {
        Ok(names) => Ok(names.scope),
        Err(refusal) => Err(refusal),
    }
}

#[cycle(bind)]
fn bind_known<'a>(
    work: &mut Unfolding<'a>,
    sizes: Option<&'a Sizes<'a>>,
    pat: &'a Pat<'a>,
    known: &Known<'a>,
    names: Bound<'a>,
) -> Result<Bound<'a>, Refusal>
    ensures { Bound_from sizes.entry names.entry (pattern_of pat.now) (known_of known.now) work.old.next (steps_of work.old) (steps_of work.new) work.new.next result }
{
    match pat.form {
        PatForm::Bound(number) => named(work.bump, sizes, number, known, names),
        PatForm::Wild => entered(work.bump, sizes, known, names),
        PatForm::Tuple(parts) => match tuple_given(work, parts, known) {
            Ok(given) => bind_inside(work, sizes, parts, given, known, names),
            Err(refusal) => Err(refusal),
        },
        PatForm::Record(fields) => match record_given(work, fields, known) {
            Ok(given) => bind_inside(work, sizes, given.pats, given.knowns, known, names),
            Err(refusal) => Err(refusal),
        },
        PatForm::Typed(inner, _) => bind_known(work, sizes, inner, known, names),
    }
}

// The patterns inside one that is entered with what is known.
#[cycle(bind)]
fn bind_inside<'a>(
    work: &mut Unfolding<'a>,
    sizes: Option<&'a Sizes<'a>>,
    parts: &'a [Pat<'a>],
    given: &'a [Known<'a>],
    known: &Known<'a>,
    names: Bound<'a>,
) -> Result<Bound<'a>, Refusal>
    ensures { Bound_inside sizes.entry names.entry (known_of known.now) (patterns (map pattern_of parts.now)) (map known_of given.now) work.old.next (steps_of work.old) (steps_of work.new) work.new.next result }
{
    match entered(work.bump, sizes, known, names) {
        Ok(inside) => bind_all(work, sizes, parts, given, inside),
        Err(refusal) => Err(refusal),
    }
}

#[cycle(bind)]
fn bind_all<'a>(
    work: &mut Unfolding<'a>,
    sizes: Option<&'a Sizes<'a>>,
    parts: &'a [Pat<'a>],
    given: &'a [Known<'a>],
    names: Bound<'a>,
) -> Result<Bound<'a>, Refusal>
    ensures { All_bound_from sizes.entry names.entry (patterns (map pattern_of parts.now)) (map known_of given.now) work.old.next (steps_of work.old) (steps_of work.new) work.new.next result }
{
    if parts.len() != given.len() {
        return Err(Refusal::Lost);
    }
    let mut behind = names;
    let mut at = 0;
    for part in parts {
        behind = match bind_known(work, sizes, part, &given[at], behind) {
            Ok(behind) => behind,
            Err(refusal) => return Err(refusal),
        };
        at += 1;
    }
    Ok(behind)
}

// The names where a pattern is entered with what is known.
fn entered<'a>(
    bump: &'a Bump,
    sizes: Option<&'a Sizes<'a>>,
    known: &Known<'a>,
    names: Bound<'a>,
) -> Result<Bound<'a>, Refusal>
    ensures ok { IfOk result (Is_entered sizes.entry names.entry (known_of known.now)) }
    ensures err { IfErr result (λ r. r ≡ refusal.Memory) }
{
    let scope = match enter(sizes, names.at, known, names.scope, bump) {
        Ok(scope) => scope,
        Err(_) => return Err(Refusal::Memory),
    };
    match after(names.at, 1) {
        Ok(at) => Ok(Bound { scope, at }),
        Err(_) => Err(Refusal::Memory),
    }
}

// The same with the name that the pattern binds.
fn named<'a>(
    bump: &'a Bump,
    sizes: Option<&'a Sizes<'a>>,
    number: BindId,
    known: &Known<'a>,
    names: Bound<'a>,
) -> Result<Bound<'a>, Refusal>
    ensures ok { IfOk result (Is_named sizes.entry names.entry number (known_of known.now)) }
    ensures err { IfErr result (λ r. r ≡ refusal.Memory) }
{
    let inside = match entered(bump, sizes, known, names) {
        Ok(inside) => inside,
        Err(refusal) => return Err(refusal),
    };
    match bound(bump, number, *known, inside.scope) {
        Ok(scope) => Ok(Bound {
            scope,
            at: inside.at,
        }),
        Err(refusal) => Err(refusal),
    }
}

// The parts of a tuple, or as many of a component as there are patterns, by a step.
fn tuple_given<'a>(
    work: &mut Unfolding<'a>,
    parts: &'a [Pat<'a>],
    known: &Known<'a>,
) -> Result<&'a [Known<'a>], Refusal>
    ensures { Given_to (Tuple_pattern (patterns (map pattern_of parts.now))) (patterns (map pattern_of parts.now)) (known_of known.now) work.old.next (steps_of work.old) (steps_of work.new) work.new.next result }
{
    match known.form {
        KnownForm::Tuple(given) => Ok(given),
        KnownForm::Scalar(atom) => work.opened(Act::Operate(Operation::Parts(atom)), parts.len()),
        _ => Err(Refusal::Lost),
    }
}

// The same for a record: those of its parts that have patterns.
fn record_given<'a>(
    work: &mut Unfolding<'a>,
    fields: &'a [PatField<'a>],
    known: &Known<'a>,
) -> Result<Given<'a>, Refusal>
    ensures { Fields_given (field_names fields.now) (field_patterns fields.now) (known_of known.now) work.old.next (steps_of work.old) (steps_of work.new) work.new.next result }
{
    let pats = match patterns_of(work.bump, fields) {
        Ok(pats) => pats,
        Err(refusal) => return Err(refusal),
    };
    match fields_given(work, fields, known) {
        Ok(knowns) => Ok(Given { pats, knowns }),
        Err(refusal) => Err(refusal),
    }
}

fn fields_given<'a>(
    work: &mut Unfolding<'a>,
    fields: &'a [PatField<'a>],
    known: &Known<'a>,
) -> Result<&'a [Known<'a>], Refusal>
    ensures { Given_to (Record_pattern (field_names fields.now) (field_patterns fields.now)) (field_patterns fields.now) (known_of known.now) work.old.next (steps_of work.old) (steps_of work.new) work.new.next result }
{
    match known.form {
        KnownForm::Record(given) => fields_known(work.bump, fields, given),
        KnownForm::Scalar(atom) => fields_read(work, fields, atom),
        _ => Err(Refusal::Lost),
    }
}

// The fields of a component, by a step.
fn fields_read<'a>(
    work: &mut Unfolding<'a>,
    fields: &'a [PatField<'a>],
    atom: Atom,
) -> Result<&'a [Known<'a>], Refusal>
    ensures { Fields_read (field_names fields.now) atom work.old.next (steps_of work.old) (steps_of work.new) work.new.next result }
{
    let names = match names_of(work.bump, fields) {
        Ok(names) => names,
        Err(refusal) => return Err(refusal),
    };
    match work.bump.try_alloc_slice_copy(&[atom]) {
        Ok(whole) => work.opened(
            Act::Make(Making::Fields(names), NOWHERE, whole),
            fields.len(),
        ),
        Err(_) => Err(Refusal::Memory),
    }
}

// What is known of the fields that have patterns.
fn fields_known<'a>(
    bump: &'a Bump,
    fields: &'a [PatField<'a>],
    given: &'a [Field<'a>],
) -> Result<&'a [Known<'a>], Refusal>
    ensures { Fields_to (field_names fields.now) (fields_known (map field_of given.now)) result }
{
    let mut knowns = Vec::new(bump);
    for field in fields {
        let known = match field_known(given, field.name) {
            Some(known) => known,
            None => return Err(Refusal::Lost),
        };
        match knowns.push(*known) {
            Ok(()) => {}
            Err(_) => return Err(Refusal::Memory),
        }
    }
    Ok(into_bump_slice(knowns))
}

fn patterns_of<'a>(bump: &'a Bump, fields: &'a [PatField<'a>]) -> Result<&'a [Pat<'a>], Refusal>
    ensures ok { IfOk result (λ pats. patterns (map pattern_of pats.now) ≡ field_patterns fields.now) }
    ensures err { IfErr result (λ r. r ≡ refusal.Memory) }
{
    let mut pats = Vec::new(bump);
    for field in fields {
        match pats.push(field.pat) {
            Ok(()) => {}
            Err(_) => return Err(Refusal::Memory),
        }
    }
    Ok(into_bump_slice(pats))
}

fn names_of<'a>(bump: &'a Bump, fields: &'a [PatField<'a>]) -> Result<&'a [&'a str], Refusal>
    ensures ok { IfOk result (λ names. texts names.now ≡ field_names fields.now) }
    ensures err { IfErr result (λ r. r ≡ refusal.Memory) }
{
    let mut names = Vec::new(bump);
    for field in fields {
        match names.push(field.name) {
            Ok(()) => {}
            Err(_) => return Err(Refusal::Memory),
        }
    }
    Ok(into_bump_slice(names))
}
