// The run of a whole Core.
ghost use Rattle.core_code.specs.Registers.{state};
ghost use Rattle.exec.specs.Whole.{Core_runs};

use crate::blocks::run_block;
use core_arrays::Arrays;
use core_code::{Stop, take};
use core_ir::Core;

/// Runs a Core on the words of its arguments, which lie on the stack, and leaves those of its results there.
///
/// The table has a register for each name; with fewer the run answers want of memory. A `while` loop may take at most `turns`
/// turns. `Ok`: results that the meaning of the Core allows, as it counts at least as many new words as were handed out.
/// `Failed`: a report that it allows. `Memory`: memory ran out.
#[tactic(auto, using(crate::proofs::Programs::programs))]
pub fn run_core(
    core: &Core,
    turns: u64,
    table: &mut [u64],
    stack: &mut Vec<u64>,
    arrays: &mut Arrays,
) -> Result<(), Stop>
    ensures { Core_runs turns core.now (state arrays.old table.old stack.old.items) (state arrays.new table.new stack.new.items) result }
{
    take(core.params, 0, table, stack)?;
    run_block(&core.body, turns, table, stack, arrays)
}
