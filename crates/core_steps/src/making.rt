// Steps that make new arrays.
ghost use Rattle.std.specs.Prelude.{◌≡◌, ℕ, map, IfOk};
ghost use Rattle.fut_meaning.specs.Meaning.{counts};
ghost use Rattle.core_code.specs.Answers.{OnlyMemory};
ghost use Rattle.core_ir.specs.Plain.{group, making_form};
ghost use Rattle.core_code.specs.Registers.{state};
ghost use Rattle.core_code.specs.Runs.{Act_runs};
ghost use Rattle.core_steps.specs.Deeds.{Iota_told, Literal_told, Rows_read};
ghost use Rattle.core_steps.specs.Repeating.{Replicate_told};

use crate::arrange::{glue, too_large};
use crate::copies::glue_repeated;
use crate::empties::glue_none;
use crate::sources::size_at;
use core_arrays::Arrays;
use core_code::{Stop, push, push_all};
use core_ir::{Atom, Making};
use fut_scalar::{List, NoMemory, Place};
use fut_value::GREATEST_WEIGHT;
use std::alloc::Global;

/// The numbers below a count.
#[tactic(auto, using(crate::proofs::Makes::numbers))]
fn numbers_below(alloc: Global, count: u64) -> Result<List<u64>, NoMemory>
    ensures { IfOk result (λ numbers. numbers ≡ counts count 0) }
{
    let mut numbers = List::new(alloc);
    for i in 0..count {
        numbers.push(i)?;
    }
    Ok(numbers)
}

/// Makes an array of the numbers below what an operand asks for.
#[tactic(auto, using(crate::proofs::Makes::iotas))]
fn run_iota(
    atom: Atom,
    place: Place,
    table: &[u64],
    stack: &mut Vec<u64>,
    arrays: &mut Arrays,
) -> Result<(), Stop>
    ensures { Iota_told atom place (state arrays.old table.now stack.old.items) (state arrays.new table.now stack.new.items) result }
{
    let count = size_at(atom, place, table)?;
    if count > GREATEST_WEIGHT {
        return Err(too_large(place));
    }
    let alloc = arrays.alloc();
    let cells = numbers_below(alloc, count)?;
    let mut sizes = List::new(alloc);
    sizes.push(count)?;
    let number = arrays.put(sizes, cells)?;
    push(number, stack)
}

/// Puts the words of rows on the stack, one row after the other.
#[tactic(auto, using(crate::proofs::Literals::readings))]
fn push_rows(rows: &[&[Atom]], table: &[u64], stack: &mut Vec<u64>) -> Result<(), Stop>
    ensures told { Rows_read table.now (map group rows.now) stack.old.items stack.new.items result }
    ensures memory { OnlyMemory result }
{
    for i in 0..rows.len() {
        push_all(rows[i], table, stack)?;
    }
    Ok(())
}

/// Makes arrays of rows, of which there is one at least.
#[tactic(auto, using(crate::proofs::Literals::literals))]
fn run_literal(
    rows: &[&[Atom]],
    place: Place,
    table: &[u64],
    stack: &mut Vec<u64>,
    arrays: &mut Arrays,
) -> Result<(), Stop>
    ensures { Literal_told (map group rows.now) place (state arrays.old table.now stack.old.items) (state arrays.new table.now stack.new.items) result }
{
    if rows.len() == 0 {
        return Err(Stop::Memory);
    }
    let mark = stack.len();
    push_rows(rows, table, stack)?;
    glue(rows[0], rows.len() as u64, mark, place, stack, arrays)
}

/// Makes arrays of so many rows that are all the same.
#[tactic(auto, using(crate::proofs::Repeating::replicates))]
fn run_replicate(
    count: Atom,
    row: &[Atom],
    place: Place,
    table: &[u64],
    stack: &mut Vec<u64>,
    arrays: &mut Arrays,
) -> Result<(), Stop>
    ensures { Replicate_told count row.now place (state arrays.old table.now stack.old.items) (state arrays.new table.now stack.new.items) result }
{
    let many = size_at(count, place, table)?;
    let mark = stack.len();
    push_all(row, table, stack)?;
    glue_repeated(row, many, mark, place, stack, arrays)
}

/// Runs a step that makes new arrays, and puts their numbers on the stack.
#[tactic(auto, using(crate::proofs::Makes::makings))]
pub fn run_making(
    making: Making,
    place: Place,
    table: &[u64],
    stack: &mut Vec<u64>,
    arrays: &mut Arrays,
) -> Result<(), Stop>
    ensures { (budget : ℕ) → Act_runs budget (making_form making.entry place) (state arrays.old table.now stack.old.items) (state arrays.new table.now stack.new.items) result }
{
    match making {
        Making::Iota(atom) => run_iota(atom, place, table, stack, arrays),
        Making::Literal(rows) => run_literal(rows, place, table, stack, arrays),
        Making::Replicate { count, row } => run_replicate(count, row, place, table, stack, arrays),
        Making::Empty(sizes) => glue_none(sizes, place, table, stack, arrays),
        // No array is written yet, so a copy may be the same array.
        Making::Copy(atoms) => push_all(atoms, table, stack),
        _ => Err(Stop::Memory),
    }
}
