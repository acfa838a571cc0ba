// Records of parts, their fields, and the parts of tuples by the names of their positions.
ghost use Rattle.std.specs.Prelude.{◌≡◌, ◌+◌, ◌<◌, ◌≤◌, IfOk, IfSome, length, slice_set, true};
ghost use Rattle.std.specs.Str.{bytes_eq};
ghost use Rattle.fut_flat.specs.Erased.{texts};
ghost use Rattle.fut_value.specs.Data.{Record_datum, datums};
ghost use Rattle.fut_meaning.specs.Accessors.{or_wrong};
ghost use Rattle.fut_blocks.specs.Records.{datum_field, datum_part, datum_part_from, datum_parts, named_data};
ghost use Rattle.array_data.specs.Depths.{deepest, depth_told, most_deep, parts_in};
ghost use Rattle.array_data.specs.Held.{as_held, held, held_all, named_parts};
ghost use Rattle.array_data.specs.Records.{All_put, Comes_to, Is_first, fields_of, replaced_of};

use crate::arrays::deeper;
use crate::data::{Data, copy};
use crate::stop::Stop;
use crate::tuples::push_parts;
use fut_positions::position;
use fut_scalar::{List, Name, NoMemory, Shared};
use std::alloc::Global;

/// The names of fields, copied.
#[tactic(auto, using(crate::proofs::Recording::naming))]
pub fn names_of(alloc: Global, names: &[&str]) -> Result<List<Name>, NoMemory>
    ensures { IfOk result (λ all. all ≡ texts names.now) }
{
    let mut all = List::new(alloc);
    for name in names {
        all.push(Name::new(alloc, name)?)?;
    }
    Ok(all)
}

/// Whether a name is this text.
fn is_named(name: &Name, text: &str) -> bool
    ensures { result ≡ bytes_eq name.now text.now }
{
    name.as_str() == text
}

/// Whether names are these.
#[tactic(auto, using(crate::proofs::Recording::comparing))]
fn are_names(names: &[&str], others: &[Name]) -> bool
    ensures { result ≡ true → texts names.now ≡ others.now }
{
    if names.len() != others.len() {
        return false;
    }
    for i in 0..names.len() {
        if !is_named(&others[i], names[i]) {
            return false;
        }
    }
    true
}

/// The names of another record, where they are these.
#[tactic(auto, using(crate::proofs::Recording::sharing))]
fn shared_names(names: &[&str], like: Option<&Data>) -> Option<Shared<List<Name>>>
    ensures { IfSome result (λ all. all ≡ texts names.now) }
{
    let Some(Data::Record(_, others, _)) = like else {
        return None;
    };
    if !are_names(names, others.get().as_slice()) {
        return None;
    }
    match others.share() {
        Ok(shared) => Some(shared),
        Err(_) => None,
    }
}

/// A record of parts, with the names of its fields in their order. It shares the names of another record that has the same.
#[tactic(auto, using(crate::proofs::Recording::recorded, crate::proofs::Depths::depths_made, crate::proofs::Depths::not_too_deep))]
pub fn record(
    alloc: Global,
    names: &[&str],
    parts: List<Data>,
    like: Option<&Data>,
) -> Result<Data, NoMemory>
    ensures value { IfOk result (λ whole. held whole ≡ Record_datum (named_data (texts names.now) (held_all parts))) }
    ensures deep { IfOk result (λ whole. depth_told whole ≡ deepest 0 parts + 1) }
    ensures most { IfOk result (λ whole. depth_told whole ≤ most_deep) }
{
    if names.len() != parts.len() {
        return Err(NoMemory);
    }
    let deep = deeper(0, parts.as_slice())?;
    let names = match shared_names(names, like) {
        Some(shared) => shared,
        None => Shared::new(alloc, names_of(alloc, names)?)?,
    };
    Ok(Data::Record(deep, names, Shared::new(alloc, parts)?))
}

/// Where the first field of a name stands.
#[tactic(auto, using(crate::proofs::Recording::placing))]
fn field_place(name: &str, names: &[Name]) -> Option<usize>
    ensures { IfSome result (λ at. Is_first name.now names.now at) }
{
    for i in 0..names.len() {
        if is_named(&names[i], name) {
            return Some(i);
        }
    }
    None
}

/// The field of a name.
#[tactic(auto, using(crate::proofs::Recording::reading))]
fn field(name: &str, names: &[Name], parts: &[Data]) -> Result<Data, Stop>
    ensures { Comes_to (or_wrong (datum_field name.now (named_parts names.now (held_all parts.now)))) (as_held result) }
{
    let Some(at) = field_place(name, names) else {
        return Err(Stop::Memory);
    };
    if at < parts.len() {
        copy(&parts[at])
    } else {
        Err(Stop::Memory)
    }
}

/// The part of a tuple at the position that a name spells.
#[tactic(auto, using(crate::proofs::Recording::spelling))]
fn part_spelled(name: &str, parts: &[Data]) -> Result<Data, Stop>
    ensures { Comes_to (or_wrong (datum_part_from 0 name.now (datums (held_all parts.now)))) (as_held result) }
{
    match position(name, parts.len()) {
        Some(at) => copy(&parts[at]),
        None => Err(Stop::Memory),
    }
}

/// The part of a name: of a tuple by its position, of a record by its field.
#[tactic(auto, using(crate::proofs::Recording::parting))]
pub fn named_part(name: &str, whole: &Data) -> Result<Data, Stop>
    ensures { Comes_to (datum_part name.now (held whole.now)) (as_held result) }
{
    match whole {
        Data::Tuple(_, parts) => part_spelled(name, parts.get().as_slice()),
        Data::Record(_, names, parts) => {
            field(name, names.get().as_slice(), parts.get().as_slice())
        }
        Data::Scalar(_) => Err(Stop::Memory),
        Data::Words(_, _) => Err(Stop::Memory),
        Data::Rows(_, _, _) => Err(Stop::Memory),
    }
}

/// The parts with another in the place of one.
#[tactic(auto, using(crate::proofs::Recording::setting))]
fn parts_with(alloc: Global, parts: &[Data], at: usize, value: &Data) -> Result<List<Data>, Stop>
    requires { at < length parts.now }
    ensures { IfOk result (λ all. held_all all ≡ slice_set (held_all parts.now) at (held value.now)) }
{
    let mut all = Vec::new(alloc);
    push_parts(parts, &mut all)?;
    all[at] = copy(value)?;
    Ok(List::from_vec(all))
}

/// A record with another value for the field of a name.
#[tactic(auto, using(crate::proofs::Recording::replacing, crate::proofs::Depths::replaced_made, crate::proofs::Depths::not_too_deep))]
pub fn replaced(alloc: Global, name: &str, whole: &Data, value: &Data) -> Result<Data, Stop>
    ensures value { Comes_to (replaced_of name.now (held whole.now) (held value.now)) (as_held result) }
    ensures deep { IfOk result (λ other. depth_told other ≡ deepest 0 (parts_in other) + 1) }
    ensures most { IfOk result (λ other. depth_told other ≤ most_deep) }
{
    let Data::Record(_, names, parts) = whole else {
        return Err(Stop::Memory);
    };
    let Some(at) = field_place(name, names.get().as_slice()) else {
        return Err(Stop::Memory);
    };
    if at >= parts.get().len() {
        return Err(Stop::Memory);
    }
    let Ok(parts) = parts_with(alloc, parts.get().as_slice(), at, value) else {
        return Err(Stop::Memory);
    };
    let deep = deeper(0, parts.as_slice())?;
    Ok(Data::Record(deep, names.share()?, Shared::new(alloc, parts)?))
}

/// Puts fields on a stack, one for each name.
#[tactic(auto, using(crate::proofs::Recording::fielding))]
fn push_fields(
    names: &[&str],
    fields: &[Name],
    parts: &[Data],
    stack: &mut Vec<Data>,
) -> Result<(), Stop>
    ensures { All_put (datum_parts (texts names.now) (named_parts fields.now (held_all parts.now))) (held_all stack.old.items) (held_all stack.new.items) result }
{
    for name in names {
        let Ok(part) = field(name, fields, parts) else {
            return Err(Stop::Memory);
        };
        let Ok(()) = stack.push(part) else {
            return Err(Stop::Memory);
        };
    }
    Ok(())
}

/// Puts fields of a record on a stack, one for each name.
#[tactic(auto, using(crate::proofs::Recording::fields_put))]
pub fn put_fields(names: &[&str], whole: &Data, stack: &mut Vec<Data>) -> Result<(), Stop>
    ensures { All_put (fields_of (texts names.now) (held whole.now)) (held_all stack.old.items) (held_all stack.new.items) result }
{
    match whole {
        Data::Record(_, fields, parts) => push_fields(
            names,
            fields.get().as_slice(),
            parts.get().as_slice(),
            stack,
        ),
        Data::Scalar(_) => Err(Stop::Memory),
        Data::Words(_, _) => Err(Stop::Memory),
        Data::Rows(_, _, _) => Err(Stop::Memory),
        Data::Tuple(_, _) => Err(Stop::Memory),
    }
}
