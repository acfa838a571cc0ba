// Tuples and arrays of parts, and the parts of tuples.
ghost use Rattle.std.specs.Prelude.{◌≡◌, ◌+◌, ◌≤◌, false, IfOk};
ghost use Rattle.fut_value.specs.Data.{Tuple_datum, datums};
ghost use Rattle.fut_meaning.specs.Arrays.{array as array_made};
ghost use Rattle.array_data.specs.Answers.{All_added, Parted, Tells};
ghost use Rattle.array_data.specs.Depths.{deepest, depth_told, most_deep};
ghost use Rattle.array_data.specs.Held.{as_held, built_rows, held, held_all, shape_held};

use crate::arrays::{array, deeper};
use crate::built::Built;
use crate::data::{Data, copy};
use crate::form::Form;
use crate::stop::Stop;
use fut_scalar::{List, NoMemory, Place, Shared};
use std::alloc::Global;

/// A tuple of parts.
#[tactic(auto, using(crate::proofs::Tupling::tupled, crate::proofs::Depths::depths_made, crate::proofs::Depths::not_too_deep))]
pub fn tuple(alloc: Global, parts: List<Data>) -> Result<Data, NoMemory>
    ensures value { IfOk result (λ whole. held whole ≡ Tuple_datum (datums (held_all parts))) }
    ensures deep { IfOk result (λ whole. depth_told whole ≡ deepest 0 parts + 1) }
    ensures most { IfOk result (λ whole. depth_told whole ≤ most_deep) }
{
    let deep = deeper(0, parts.as_slice())?;
    Ok(Data::Tuple(deep, Shared::new(alloc, parts)?))
}

/// Puts all parts of a tuple on a stack.
#[tactic(auto, using(crate::proofs::Tupling::partings))]
pub fn put_parts(whole: &Data, stack: &mut Vec<Data>) -> Result<(), Stop>
    ensures { Parted (held whole.now) (held_all stack.old.items) (held_all stack.new.items) result }
{
    match whole {
        Data::Tuple(_, parts) => push_parts(parts.get().as_slice(), stack),
        Data::Scalar(_) => Err(Stop::Memory),
        Data::Words(_, _) => Err(Stop::Memory),
        Data::Rows(_, _, _) => Err(Stop::Memory),
        Data::Record(_, _, _) => Err(Stop::Memory),
    }
}

/// Puts data on a stack.
#[tactic(auto, using(crate::proofs::Tupling::pushing))]
pub fn push_parts(parts: &[Data], stack: &mut Vec<Data>) -> Result<(), Stop>
    ensures { All_added (held_all parts.now) (held_all stack.old.items) (held_all stack.new.items) result }
{
    for part in parts {
        let Ok(next) = copy(part) else {
            return Err(Stop::Memory);
        };
        let Ok(()) = stack.push(next) else {
            return Err(Stop::Memory);
        };
    }
    Ok(())
}

/// Puts rows behind others.
#[tactic(auto, using(crate::proofs::Tupling::building))]
fn push_all(parts: &[Data], built: &mut Built) -> Result<(), Stop>
    ensures { All_added (held_all parts.now) (built_rows built.old) (built_rows built.new) result }
{
    for part in parts {
        let Ok(next) = copy(part) else {
            return Err(Stop::Memory);
        };
        let Ok(()) = built.push(next) else {
            return Err(Stop::Memory);
        };
    }
    Ok(())
}

/// An array of parts; where there are none, of rows of the form that is told.
#[tactic(auto, using(crate::proofs::Tupling::literals))]
pub fn array_of_parts(alloc: Global, told: Form, at: Place, parts: &[Data]) -> Result<Data, Stop>
    ensures { Tells (array_made false at (shape_held told) (held_all parts.now)) (as_held result) }
{
    let told = Shared::new(alloc, told)?;
    let mut built = Built::new(alloc);
    push_all(parts, &mut built)?;
    array(alloc, at, &told, 0, built)
}
