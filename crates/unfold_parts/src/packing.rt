// Data as one component.
ghost use Rattle.std.specs.Prelude.{◌≡◌, IfErr, IfOk, length, map};
ghost use Rattle.fut_flat.specs.Erased.{texts};
ghost use Rattle.unfold.specs.Held.{field_of, fields_known, known_of};
ghost use Rattle.unfold.specs.Unfolding.{field_knowns, field_names};
ghost use Rattle.unfold_parts.specs.Answers.{All_packed_to, Packed_to, Record_packed_to};
ghost use Rattle.unfold_parts.specs.declared.refusal.Refusal.TheVariants as refusal;
ghost use Rattle.unfold_parts.specs.States.{steps_of};

use crate::laying::{MOST_DEEP, MOST_PARTS};
use crate::refusal::Refusal;
use crate::steps::Unfolding;
use bumpalo::Bump;
use bumpalo::collections::into_bump_slice;
use fut_blocks::{Act, Atom, Making};
use fut_scalar::Place;
use unfold::{Field, Known, KnownForm};

/// The place of a step that reports nothing.
pub const NOWHERE: Place = Place {
    file: 0,
    line: 0,
    column: 0,
};

/// Data as one component: where it is a tuple or a record, steps make it of its parts.
pub fn pack<'a>(work: &mut Unfolding<'a>, known: &Known<'a>) -> Result<Atom, Refusal>
    ensures { Packed_to (known_of known.now) work.old.next (steps_of work.old) (steps_of work.new) work.new.next result }
{
    let mut room = MOST_PARTS;
    pack_inside(work, &mut room, 0, known)
}

/// Each of several data as one component.
pub fn pack_all<'a>(work: &mut Unfolding<'a>, parts: &'a [Known<'a>]) -> Result<&'a [Atom], Refusal>
    ensures { All_packed_to (map known_of parts.now) work.old.next (steps_of work.old) (steps_of work.new) work.new.next result }
{
    let mut room = MOST_PARTS;
    pack_parts(work, &mut room, 0, parts)
}

// The same for data inside `deep` others, with room for so many parts.
#[cycle(pack)]
fn pack_inside<'a>(
    work: &mut Unfolding<'a>,
    room: &mut u32,
    deep: u32,
    known: &Known<'a>,
) -> Result<Atom, Refusal>
    ensures { Packed_to (known_of known.now) work.old.next (steps_of work.old) (steps_of work.new) work.new.next result }
{
    if deep >= MOST_DEEP {
        return Err(Refusal::Memory);
    }
    if *room == 0 {
        return Err(Refusal::Memory);
    }
    *room -= 1;
    match known.form {
        KnownForm::Scalar(atom) => Ok(atom),
        KnownForm::Tuple(parts) => match pack_parts(work, room, deep + 1, parts) {
            Ok(atoms) => work.made(Act::Make(Making::Tuple, NOWHERE, atoms)),
            Err(refusal) => Err(refusal),
        },
        KnownForm::Record(fields) => pack_record(work, room, deep + 1, fields),
        _ => Err(Refusal::Lost),
    }
}

#[cycle(pack)]
fn pack_record<'a>(
    work: &mut Unfolding<'a>,
    room: &mut u32,
    deep: u32,
    fields: &'a [Field<'a>],
) -> Result<Atom, Refusal>
    ensures { Record_packed_to (fields_known (map field_of fields.now)) work.old.next (steps_of work.old) (steps_of work.new) work.new.next result }
{
    let names = match names_of(work.bump, fields) {
        Ok(names) => names,
        Err(refusal) => return Err(refusal),
    };
    let parts = match parts_of(work.bump, fields) {
        Ok(parts) => parts,
        Err(refusal) => return Err(refusal),
    };
    match pack_parts(work, room, deep, parts) {
        Ok(atoms) => work.made(Act::Make(Making::Record(names), NOWHERE, atoms)),
        Err(refusal) => Err(refusal),
    }
}

#[cycle(pack)]
fn pack_parts<'a>(
    work: &mut Unfolding<'a>,
    room: &mut u32,
    deep: u32,
    parts: &'a [Known<'a>],
) -> Result<&'a [Atom], Refusal>
    ensures { All_packed_to (map known_of parts.now) work.old.next (steps_of work.old) (steps_of work.new) work.new.next result }
{
    let mut atoms = Vec::new(work.bump);
    for part in parts {
        let atom = match pack_inside(work, room, deep, part) {
            Ok(atom) => atom,
            Err(refusal) => return Err(refusal),
        };
        match atoms.push(atom) {
            Ok(()) => {}
            Err(_) => return Err(Refusal::Memory),
        }
    }
    Ok(into_bump_slice(atoms))
}

// The names of fields.
fn names_of<'a>(bump: &'a Bump, fields: &'a [Field<'a>]) -> Result<&'a [&'a str], Refusal>
    ensures ok { IfOk result (λ names. texts names.now ≡ field_names (fields_known (map field_of fields.now))) }
    ensures err { IfErr result (λ r. r ≡ refusal.Memory) }
{
    let mut names = Vec::new(bump);
    for field in fields {
        match names.push(field.name) {
            Ok(()) => {}
            Err(_) => return Err(Refusal::Memory),
        }
    }
    Ok(into_bump_slice(names))
}

/// What is known of the values of fields.
pub fn parts_of<'a>(bump: &'a Bump, fields: &'a [Field<'a>]) -> Result<&'a [Known<'a>], Refusal>
    ensures ok { IfOk result (λ parts. map known_of parts.now ≡ field_knowns (fields_known (map field_of fields.now))) }
    ensures err { IfErr result (λ r. r ≡ refusal.Memory) }
{
    let mut parts = Vec::new(bump);
    for field in fields {
        match parts.push(field.known) {
            Ok(()) => {}
            Err(_) => return Err(Refusal::Memory),
        }
    }
    Ok(into_bump_slice(parts))
}
