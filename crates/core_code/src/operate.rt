// Steps on scalars: from registers to a register.
ghost use Rattle.std.specs.Prelude.{◌≡◌, ℕ};
ghost use Rattle.core_ir.specs.Plain.{Operate};
ghost use Rattle.core_code.specs.Answers.{Check_told, Dimension_read, First_size, OnlyMemory, Operation_told, Sizes_told};
ghost use Rattle.core_code.specs.Registers.{state};
ghost use Rattle.core_code.specs.Runs.{Step_runs};

use crate::registers::{elem_of, only, set_word, truth_at, word_at};
use crate::scalars::{binary_word, convert_word, unary_word};
use crate::stop::Stop;
use core_arrays::Arrays;
use core_ir::{Atom, Operation, Var};
use fut_scalar::{BinOp, FailKind, Place, Report};

/// The word of an operation that gives a scalar.
#[tactic(auto, using(crate::proofs::Operations::operations))]
fn operated(operation: Operation, place: Place, table: &[u64], arrays: &Arrays) -> Result<u64, Stop>
    ensures { Operation_told arrays.now table.now operation place result }
{
    match operation {
        Operation::Binary(op, a, b) => {
            let left = word_at(table, a)?;
            let right = word_at(table, b)?;
            binary_word(op, place, elem_of(a), left, right)
        }
        Operation::Unary(op, a) => {
            let word = word_at(table, a)?;
            unary_word(op, elem_of(a), word)
        }
        Operation::Convert(to, a) => {
            let word = word_at(table, a)?;
            Ok(convert_word(to, elem_of(a), word))
        }
        Operation::Length(a) => {
            let at = word_at(table, a)?;
            length_of(at, arrays)
        }
        Operation::Assert(_) => Err(Stop::Memory),
        Operation::CheckSize(_, _) => Err(Stop::Memory),
        Operation::Dimension(a, dimension) => {
            let at = word_at(table, a)?;
            dimension_of(at, dimension, arrays)
        }
    }
}

/// The first size of an array.
#[tactic(auto, using(crate::proofs::Operations::first_sizes))]
pub fn length_of(at: u64, arrays: &Arrays) -> Result<u64, Stop>
    ensures told { First_size arrays.now.arrays at result }
    ensures memory { OnlyMemory result }
{
    match arrays.sizes(at) {
        Some(sizes) => {
            if sizes.len() == 0 {
                return Err(Stop::Memory);
            }
            Ok(sizes[0])
        }
        None => Err(Stop::Memory),
    }
}

/// How long an array is in one of its dimensions.
#[tactic(auto, using(crate::proofs::Operations::dimensions))]
fn dimension_of(at: u64, dimension: u32, arrays: &Arrays) -> Result<u64, Stop>
    ensures told { Dimension_read arrays.now.arrays at dimension result }
    ensures memory { OnlyMemory result }
{
    match arrays.sizes(at) {
        Some(sizes) => {
            if dimension as usize >= sizes.len() {
                return Err(Stop::Memory);
            }
            Ok(sizes[dimension as usize])
        }
        None => Err(Stop::Memory),
    }
}

/// Tests what an operation that gives nothing asks for.
#[tactic(auto, using(crate::proofs::Operations::checks))]
fn check(operation: Operation, place: Place, table: &[u64]) -> Result<(), Stop>
    ensures { Check_told table.now operation place result }
{
    match operation {
        Operation::Assert(a) => {
            if truth_at(table, a)? {
                Ok(())
            } else {
                Err(Stop::Failed(Report {
                    kind: FailKind::Assert,
                    place,
                }))
            }
        }
        Operation::CheckSize(a, b) => {
            if same_size(a, b, place, table)? {
                Ok(())
            } else {
                Err(Stop::Failed(Report {
                    kind: FailKind::Size,
                    place,
                }))
            }
        }
        _ => Err(Stop::Memory),
    }
}

/// Whether two sizes of one type are the same.
#[tactic(auto, using(crate::proofs::Operations::sizes))]
fn same_size(a: Atom, b: Atom, place: Place, table: &[u64]) -> Result<bool, Stop>
    ensures told { Sizes_told table.now a b result }
    ensures memory { OnlyMemory result }
{
    let ty = elem_of(a);
    if elem_of(b) != ty {
        return Err(Stop::Memory);
    }
    let left = word_at(table, a)?;
    let right = word_at(table, b)?;
    let Ok(below) = binary_word(BinOp::Le, place, ty, left, right) else {
        return Err(Stop::Memory);
    };
    let Ok(above) = binary_word(BinOp::Le, place, ty, right, left) else {
        return Err(Stop::Memory);
    };
    Ok(below != 0 && above != 0)
}

/// Runs a step on scalars.
#[tactic(auto, using(crate::proofs::Operations::steps))]
pub fn run_operation(
    operation: Operation,
    place: Place,
    out: &[Var],
    table: &mut [u64],
    arrays: &Arrays,
) -> Result<(), Stop>
    ensures { (budget : ℕ) (stack : _) → Step_runs budget (out.now, Operate operation place) (state arrays.now table.old stack) (state arrays.now table.new stack) result }
{
    match only(out) {
        Some(x) => {
            let word = operated(operation, place, table, arrays)?;
            set_word(x.number, word, table)
        }
        None => check_alone(operation, place, out, table),
    }
}

/// Runs a step that gives nothing.
#[tactic(auto, using(crate::proofs::Operations::steps))]
fn check_alone(operation: Operation, place: Place, out: &[Var], table: &[u64]) -> Result<(), Stop>
    ensures { (budget : ℕ) (arena : _) (stack : _) → Step_runs budget (out.now, Operate operation place) (state arena table.now stack) (state arena table.now stack) result }
{
    if out.len() != 0 {
        return Err(Stop::Memory);
    }
    check(operation, place, table)
}
