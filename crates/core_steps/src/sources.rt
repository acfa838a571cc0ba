// What a function is applied to: rows, or the numbers below a count.
ghost use Rattle.std.specs.Prelude.{◌≡◌};
ghost use Rattle.core_ir.specs.Plain.{source_form};
ghost use Rattle.core_code.specs.Answers.{OnlyMemory};
ghost use Rattle.core_code.specs.Registers.{state};
ghost use Rattle.core_steps.specs.Sources.{Size_asked, Source_counted, Source_pushed};

use crate::together::{bundles_count, push_bundles};
use core_arrays::Arrays;
use core_code::{Stop, asked, elem_of, fits, push, word_at};
use core_ir::{Atom, Over};
use fut_scalar::{FailKind, Place, Report, ScalarType};

/// The size that an operand asks for.
#[tactic(auto, using(crate::proofs::Sourcing::asking))]
pub fn size_at(atom: Atom, place: Place, table: &[u64]) -> Result<u64, Stop>
    ensures { Size_asked table.now atom place result }
{
    let ScalarType::Int(ty) = elem_of(atom) else {
        return Err(Stop::Memory);
    };
    let word = word_at(table, atom)?;
    if !fits(ty, word) {
        return Err(Stop::Memory);
    }
    match asked(ty, word) {
        Some(count) => Ok(count),
        None => Err(Stop::Failed(Report {
            kind: FailKind::Range,
            place,
        })),
    }
}

/// How often a function is applied.
#[tactic(auto, using(crate::proofs::Sourcing::source_counts))]
pub fn source_count(over: Over, place: Place, table: &[u64], arrays: &Arrays) -> Result<u64, Stop>
    ensures { Source_counted table.now arrays.now.arrays (source_form over.entry) place result }
{
    match over {
        Over::Rows(rows) => bundles_count(rows, place, table, arrays),
        Over::Count(atom) => size_at(atom, place, table),
    }
}

/// Puts what a function is applied to at one time on the stack.
#[tactic(auto, using(crate::proofs::Sourcing::pushes))]
pub fn push_source(
    over: Over,
    i: u64,
    table: &[u64],
    stack: &mut Vec<u64>,
    arrays: &mut Arrays,
) -> Result<(), Stop>
    ensures told { Source_pushed (source_form over.entry) i (state arrays.old table.now stack.old.items) (state arrays.new table.now stack.new.items) result }
    ensures memory { OnlyMemory result }
{
    match over {
        Over::Rows(rows) => push_bundles(rows, i, table, stack, arrays),
        Over::Count(_) => push(i, stack),
    }
}
