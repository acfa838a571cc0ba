// A row of arrays by its number.
ghost use Rattle.std.specs.Prelude.{◌≡◌, ℕ, true};
ghost use Rattle.fut_flat.specs.declared.act.Part.TheVariants.{At};
ghost use Rattle.fut_scalar.specs.declared.report.FailKind.TheVariants.{Bounds};
ghost use Rattle.fut_meaning.specs.Operations.{report};
ghost use Rattle.core_ir.specs.Plain.{bundle_form, view_form};
ghost use Rattle.core_code.specs.Answers.{OnlyMemory};
ghost use Rattle.core_code.specs.Registers.{state};
ghost use Rattle.core_code.specs.Runs.{Act_runs};
ghost use Rattle.core_code.specs.declared.stop.Stop.TheVariants.{Failed};
ghost use Rattle.core_steps.specs.Indexing.{Bundle_within, Index_read, Index_told};

use crate::bundles::{bundle_count, push_bundle};
use crate::gluing::within;
use crate::rows::length_at;
use core_arrays::Arrays;
use core_code::{Stop, asked, elem_of, fits, push_all, word_at};
use core_ir::{Atom, Rows, View};
use fut_flat::Part;
use fut_scalar::{FailKind, Place, Report, ScalarType};

/// The report that there is no row of a number.
fn out_of_bounds(place: Place) -> Stop
    ensures { result ≡ Failed (report Bounds place) }
{
    Stop::Failed(Report {
        kind: FailKind::Bounds,
        place,
    })
}

/// The number of a row that an operand names, where the first array has one of this number.
#[tactic(auto, using(crate::proofs::Indices::numbers))]
fn index_at(
    rows: Rows,
    number: Atom,
    place: Place,
    table: &[u64],
    arrays: &Arrays,
) -> Result<u64, Stop>
    ensures { Index_read table.now arrays.now.arrays (bundle_form rows.entry) number place result }
{
    let ScalarType::Int(ty) = elem_of(number) else {
        return Err(Stop::Memory);
    };
    let word = word_at(table, number)?;
    if !fits(ty, word) || rows.arrays.len() == 0 {
        return Err(Stop::Memory);
    }
    let count = length_at(rows.arrays[0], table, arrays)?;
    match asked(ty, word) {
        Some(i) => {
            if i >= count {
                return Err(out_of_bounds(place));
            }
            Ok(i)
        }
        None => Err(out_of_bounds(place)),
    }
}

/// Whether the arrays of a bundle are within the greatest weight, all together. The stack is left as it was.
#[tactic(auto, using(crate::proofs::Indices::weights))]
fn bundle_within(
    atoms: &[Atom],
    table: &[u64],
    stack: &mut Vec<u64>,
    arrays: &Arrays,
) -> Result<bool, Stop>
    ensures told { Bundle_within table.now arrays.now.arrays atoms.now stack.old.items stack.new.items result }
    ensures memory { OnlyMemory result }
{
    let mark = stack.len();
    push_all(atoms, table, stack)?;
    if mark > stack.len() {
        return Err(Stop::Memory);
    }
    let fits = within(atoms, 1, &stack[mark..], arrays)?;
    stack.truncate(mark);
    Ok(fits)
}

/// Puts the row of a number on the stack.
#[tactic(auto, using(crate::proofs::Indices::indices))]
fn run_index(
    rows: Rows,
    number: Atom,
    place: Place,
    table: &[u64],
    stack: &mut Vec<u64>,
    arrays: &mut Arrays,
) -> Result<(), Stop>
    ensures { Index_told (bundle_form rows.entry) number place (state arrays.old table.now stack.old.items) (state arrays.new table.now stack.new.items) result }
{
    let i = index_at(rows, number, place, table, arrays)?;
    let count = bundle_count(rows, place, table, arrays)?;
    if i >= count || !bundle_within(rows.arrays, table, stack, arrays)? {
        return Err(Stop::Memory);
    }
    push_bundle(rows, i, table, stack, arrays)
}

/// Whether a part of an index is the number of a row.
fn is_at(part: Part) -> bool
    ensures { result ≡ true → part ≡ At }
{
    match part {
        Part::At => true,
        _ => false,
    }
}

/// Runs a step that gives other arrays of the same words.
#[tactic(auto, using(crate::proofs::Indices::viewings))]
pub fn run_view(
    view: View,
    place: Place,
    table: &[u64],
    stack: &mut Vec<u64>,
    arrays: &mut Arrays,
) -> Result<(), Stop>
    ensures { (budget : ℕ) → Act_runs budget (view_form view.entry place) (state arrays.old table.now stack.old.items) (state arrays.new table.now stack.new.items) result }
{
    match view {
        View::Index {
            rows,
            parts,
            numbers,
        } => {
            if numbers.len() != 1 || parts.len() != 1 || !is_at(parts[0]) {
                return Err(Stop::Memory);
            }
            run_index(rows, numbers[0], place, table, stack, arrays)
        }
        _ => Err(Stop::Memory),
    }
}
