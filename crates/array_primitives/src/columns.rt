// Arrays of one size, side by side.
ghost use Rattle.std.specs.Prelude.{◌≡◌, ◌<◌, ◌++◌, length};
ghost use Rattle.array_data.specs.Answers.{Columned, Put};
ghost use Rattle.array_data.specs.Held.{held_all};

use array_data::{Data, Stop, count, failed, row};
use fut_scalar::{FailKind, Place};

/// How many rows arrays have, where all have so many.
#[tactic(auto, using(crate::proofs::Columning::sizes))]
pub fn same_counts(at: Place, arrays: &[Data]) -> Result<usize, Stop>
    ensures { Columned at (held_all arrays.now) result }
{
    if arrays.len() == 0 {
        return Err(Stop::Stuck);
    }
    let n = count(&arrays[0])?;
    if arrays.len() == 1 {
        return Ok(n);
    }
    let m = count(&arrays[1])?;
    if n != m {
        return Err(failed(FailKind::Size, at));
    }
    same_counts(at, &arrays[1..])
}

/// Puts the rows of arrays at an index on a stack.
#[tactic(auto, using(crate::proofs::Columning::putting))]
pub fn put_rows(arrays: &[Data], at: usize, stack: &mut Vec<Data>) -> Result<(), Stop>
    ensures { Put (held_all arrays.now) at (held_all stack.old.items) (held_all stack.new.items) result }
{
    for array in arrays {
        let Ok(next) = row(array, at) else {
            return Err(Stop::Memory);
        };
        let Ok(()) = stack.push(next) else {
            return Err(Stop::Memory);
        };
    }
    Ok(())
}
