// What the results of a function on rows come to.
ghost use Rattle.fut_blocks.specs.Rows.{row_of};
ghost use Rattle.array_data.specs.Held.{as_held, built_rows, held_all};
ghost use Rattle.fut_eval.specs.Primitives.{Finishes};

use crate::shapes::missing_form;
use crate::slots::Slot;
use array_data::{Built, Data, Stop};
use array_primitives::{Finish, finish_rows};
use fut_blocks::RowShape;
use fut_scalar::Place;
use std::alloc::Global;

/// Makes what the results come to; where there are none, of rows of the shape that is told.
#[tactic(auto, using(crate::proofs::Finishing::finishing))]
pub fn finish_each(
    alloc: Global,
    finish: Finish,
    missing: &RowShape,
    place: Place,
    args: &[Data],
    built: Built,
    table: &[Slot],
) -> Result<Data, Stop>
    ensures { Finishes (held_all table.now) (row_of missing.now) finish place (held_all args.now) (built_rows built) (as_held result) }
{
    let Some(many) = built.len() else {
        return Err(Stop::Memory);
    };
    let told = missing_form(alloc, missing, many, table)?;
    finish_rows(alloc, finish, told, place, args, built)
}
