// Records and parts that are made of the values of names.
ghost use Rattle.fut_flat.specs.Erased.{texts};
ghost use Rattle.fut_blocks.specs.Plain.{Fields_at, Part_at, Read, Record_with, Replace_at};
ghost use Rattle.array_data.specs.Held.{as_held, held_all};
ghost use Rattle.fut_eval.specs.Answers.{Reads_data, as_only};
ghost use Rattle.fut_eval.specs.Runs.{Made_runs};

use crate::names::{push, read, read_data};
use crate::slots::Slot;
use array_data::{Data, Stop, named_part, put_fields, record, replaced};
use fut_blocks::Atom;
use std::alloc::Global;

/// The value of the only atom.
#[tactic(auto, using(crate::proofs::Recording::only_reading))]
fn read_only(atoms: &[Atom], table: &[Slot]) -> Result<Data, Stop>
    ensures { Reads_data (held_all table.now) atoms.now (as_only (as_held result)) }
{
    if atoms.len() != 1 {
        return Err(Stop::Memory);
    }
    read(table, atoms[0])
}

/// The value that the first of names had last.
fn last_value<'a>(names: &[u32], table: &'a [Slot]) -> Option<&'a Data> {
    if names.len() == 0 {
        return None;
    }
    let at = names[0] as usize;
    if at < table.len() {
        table[at].get()
    } else {
        None
    }
}

/// Puts a record of the values of atoms on the stack. It shares the names of its fields with the record that its own name
/// had last, as it has in the turn before.
#[tactic(auto, using(crate::proofs::Recording::record_made))]
pub fn make_record(
    alloc: Global,
    names: &[&str],
    atoms: &[Atom],
    own: &[u32],
    table: &[Slot],
    stack: &mut Vec<Data>,
) -> Result<(), Stop>
    ensures { Made_runs (Read (Record_with (texts names.now)) atoms.now) (held_all table.now) (held_all stack.old.items) (held_all stack.new.items) result }
{
    let values = read_data(alloc, atoms, table)?;
    let whole = record(alloc, names, values, last_value(own, table))?;
    push(stack, whole)
}

/// Puts a part of the value of an atom on the stack.
#[tactic(auto, using(crate::proofs::Recording::part_made))]
pub fn make_part(
    name: &str,
    atoms: &[Atom],
    table: &[Slot],
    stack: &mut Vec<Data>,
) -> Result<(), Stop>
    ensures { Made_runs (Read (Part_at name.now) atoms.now) (held_all table.now) (held_all stack.old.items) (held_all stack.new.items) result }
{
    let whole = read_only(atoms, table)?;
    let part = named_part(name, &whole)?;
    push(stack, part)
}

/// Puts the record that one atom has, with the value of another for a field, on the stack.
#[tactic(auto, using(crate::proofs::Recording::replaced_made))]
pub fn make_replaced(
    alloc: Global,
    name: &str,
    atoms: &[Atom],
    table: &[Slot],
    stack: &mut Vec<Data>,
) -> Result<(), Stop>
    ensures { Made_runs (Read (Replace_at name.now) atoms.now) (held_all table.now) (held_all stack.old.items) (held_all stack.new.items) result }
{
    let values = read_data(alloc, atoms, table)?;
    if values.len() != 2 {
        return Err(Stop::Memory);
    }
    let values = values.as_slice();
    let whole = replaced(alloc, name, &values[0], &values[1])?;
    push(stack, whole)
}

/// Puts fields of the value of an atom on the stack.
#[tactic(auto, using(crate::proofs::Recording::fields_made))]
pub fn make_fields(
    names: &[&str],
    atoms: &[Atom],
    table: &[Slot],
    stack: &mut Vec<Data>,
) -> Result<(), Stop>
    ensures { Made_runs (Read (Fields_at (texts names.now)) atoms.now) (held_all table.now) (held_all stack.old.items) (held_all stack.new.items) result }
{
    let whole = read_only(atoms, table)?;
    put_fields(names, &whole, stack)
}
