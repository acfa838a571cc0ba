// What is made of the values of names: tuples, arrays, records and parts of them.
ghost use Rattle.std.specs.Prelude.{◌≡◌, [], ◌∷◌, true};
ghost use Rattle.fut_flat.specs.declared.act.Part.TheVariants as part;
ghost use Rattle.fut_meaning.specs.Arrays.{Make_array};
ghost use Rattle.fut_blocks.specs.Plain.{Make, making_form};
ghost use Rattle.fut_blocks.specs.Rows.{row_of};
ghost use Rattle.array_data.specs.Held.{held_all};
ghost use Rattle.fut_eval.specs.Runs.{Made_runs};

use crate::names::{push, read, read_data};
use crate::records::{make_fields, make_part, make_record, make_replaced};
use crate::shapes::missing_form;
use crate::slots::{Branch, Slot, give_up_moved};
use array_data::{Data, Stop, array_of_parts, tuple};
use array_primitives::{part_at, range, row_at, update};
use fut_blocks::{Atom, Making, RowShape};
use fut_flat::Part;
use fut_scalar::Place;
use std::alloc::Global;

/// Puts on the stack what is made of the values of atoms, for names of its own.
#[tactic(auto, using(crate::proofs::Makings::makings, crate::proofs::Recording::record_makings))]
pub fn make(
    alloc: Global,
    making: Making,
    place: Place,
    atoms: &[Atom],
    own: &[u32],
    table: &mut [Slot],
    stack: &mut Vec<Data>,
) -> Result<(), Stop>
    ensures made { Made_runs (making_form making.entry place atoms.now) (held_all table.old) (held_all stack.old.items) (held_all stack.new.items) result }
    ensures same { table.new ≡ table.old }
{
    match making {
        Making::Tuple => {
            let values = read_data(alloc, atoms, table)?;
            let whole = tuple(alloc, values)?;
            push(stack, whole)
        }
        Making::Array(row) => make_array(alloc, row, place, atoms, table, stack),
        Making::Index(parts) => {
            if !is_one_index(parts) || atoms.len() != 2 {
                let values = read_data(alloc, atoms, table)?;
                let found = part_at(alloc, place, parts, values.as_slice())?;
                return push(stack, found);
            }
            let whole = read(table, atoms[0])?;
            let index = read(table, atoms[1])?;
            let found = row_at(alloc, place, &whole, &index)?;
            push(stack, found)
        }
        Making::Update => {
            let values = read_data(alloc, atoms, table)?;
            give_up_moved(own, atoms, Branch::First, table);
            let whole = update(alloc, place, values)?;
            push(stack, whole)
        }
        Making::Range { stepped, end } => {
            let values = read_data(alloc, atoms, table)?;
            let whole = range(alloc, place, stepped, end, values.as_slice())?;
            push(stack, whole)
        }
        Making::Record(names) => make_record(alloc, names, atoms, own, table, stack),
        Making::Part(name) => make_part(name, atoms, table, stack),
        Making::Replace(name) => make_replaced(alloc, name, atoms, table, stack),
        Making::Fields(names) => make_fields(names, atoms, table, stack),
    }
}

/// Puts on the stack the array of the values of atoms; where there are none, of rows of the shape that is told.
#[tactic(auto, using(crate::proofs::Makings::array_makings))]
fn make_array(
    alloc: Global,
    row: &RowShape,
    place: Place,
    atoms: &[Atom],
    table: &[Slot],
    stack: &mut Vec<Data>,
) -> Result<(), Stop>
    ensures { Made_runs (Make (row_of row.now) Make_array place atoms.now) (held_all table.now) (held_all stack.old.items) (held_all stack.new.items) result }
{
    let values = read_data(alloc, atoms, table)?;
    let told = missing_form(alloc, row, values.len(), table)?;
    let whole = array_of_parts(alloc, told, place, values.as_slice())?;
    push(stack, whole)
}

/// Whether an index has one part, which is no slice.
#[tactic(auto, using(crate::proofs::Makings::one_index))]
fn is_one_index(parts: &[Part]) -> bool
    ensures { result ≡ true → parts.now ≡ part.At ∷ [] }
{
    if parts.len() != 1 {
        return false;
    }
    match parts[0] {
        Part::At => true,
        Part::Slice { .. } => false,
        Part::Backwards => false,
    }
}
