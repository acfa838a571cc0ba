// Bundles whose rows stand side by side.
ghost use Rattle.std.specs.Prelude.{map};
ghost use Rattle.core_ir.specs.Plain.{Of_rows, bundle_form};
ghost use Rattle.core_code.specs.Answers.{OnlyMemory};
ghost use Rattle.core_code.specs.Registers.{state};
ghost use Rattle.core_steps.specs.Sources.{Source_counted, Source_pushed};

use crate::arrange::misfit;
use crate::bundles::{bundle_count, push_bundle};
use core_arrays::Arrays;
use core_code::Stop;
use core_ir::Rows;
use fut_scalar::Place;

/// How many rows bundles have that are to have as many.
#[tactic(auto, using(crate::proofs::Besides::counting))]
pub fn bundles_count(
    rows: &[Rows],
    place: Place,
    table: &[u64],
    arrays: &Arrays,
) -> Result<u64, Stop>
    ensures { Source_counted table.now arrays.now.arrays (Of_rows (map bundle_form rows.now)) place result }
{
    if rows.len() == 0 {
        return Err(Stop::Memory);
    }
    let count = bundle_count(rows[0], place, table, arrays)?;
    let mut same = true;
    for k in 1..rows.len() {
        let other = bundle_count(rows[k], place, table, arrays)?;
        same = same && other == count;
    }
    if !same {
        return Err(misfit(place));
    }
    Ok(count)
}

/// Puts a row of each bundle on the stack, one behind the other.
#[tactic(auto, using(crate::proofs::Besides::pushing))]
pub fn push_bundles(
    rows: &[Rows],
    i: u64,
    table: &[u64],
    stack: &mut Vec<u64>,
    arrays: &mut Arrays,
) -> Result<(), Stop>
    ensures told { Source_pushed (Of_rows (map bundle_form rows.now)) i (state arrays.old table.now stack.old.items) (state arrays.new table.now stack.new.items) result }
    ensures memory { OnlyMemory result }
{
    for k in 0..rows.len() {
        push_bundle(rows[k], i, table, stack, arrays)?;
    }
    Ok(())
}
