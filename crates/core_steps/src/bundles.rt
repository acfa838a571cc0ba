// Bundles: arrays of tuples, an array a component.
ghost use Rattle.core_ir.specs.Plain.{bundle_form};
ghost use Rattle.core_code.specs.Answers.{OnlyMemory};
ghost use Rattle.core_code.specs.Registers.{state};
ghost use Rattle.core_steps.specs.Rows.{Bundle_counted, Bundle_pushed};

use crate::rows::{push_row, rows_count};
use core_arrays::Arrays;
use core_code::Stop;
use core_ir::Rows;
use fut_scalar::Place;

/// How many rows a bundle has.
#[tactic(auto, using(crate::proofs::Bundling::counts))]
pub fn bundle_count(rows: Rows, place: Place, table: &[u64], arrays: &Arrays) -> Result<u64, Stop>
    ensures { Bundle_counted table.now arrays.now.arrays (bundle_form rows.entry) place result }
{
    rows_count(rows.arrays, place, table, arrays)
}

/// Puts a row of a bundle on the stack: nothing, where a row has no component.
#[tactic(auto, using(crate::proofs::Bundling::pushes))]
pub fn push_bundle(
    rows: Rows,
    i: u64,
    table: &[u64],
    stack: &mut Vec<u64>,
    arrays: &mut Arrays,
) -> Result<(), Stop>
    ensures told { Bundle_pushed (bundle_form rows.entry) i (state arrays.old table.now stack.old.items) (state arrays.new table.now stack.new.items) result }
    ensures memory { OnlyMemory result }
{
    if rows.width == 0 {
        return Ok(());
    }
    push_row(rows.arrays, i, table, stack, arrays)
}
