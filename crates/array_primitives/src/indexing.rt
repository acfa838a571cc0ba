// Rows of arrays at indices.
ghost use Rattle.std.specs.Prelude.{[], ◌∷◌};
ghost use Rattle.fut_flat.specs.declared.act.Part.TheVariants as part;
ghost use Rattle.fut_meaning.specs.Arrays.{indexed};
ghost use Rattle.array_data.specs.Answers.{Tells};
ghost use Rattle.array_data.specs.Held.{as_held, held};

use array_data::{Data, Exact, Stop, count, failed, form_of, is_light, row, whole_number};
use fut_scalar::{FailKind, Place};
use std::alloc::Global;

/// The row of an array at an index.
#[tactic(auto, using(crate::proofs::Picking::picking))]
pub fn row_at(alloc: Global, at: Place, array: &Data, index: &Data) -> Result<Data, Stop>
    ensures { Tells (indexed at (part.At ∷ []) (held array.now) (held index.now ∷ [])) (as_held result) }
{
    let Ok(n) = count(array) else {
        return Err(Stop::Memory);
    };
    match whole_number(index)? {
        Exact::Below(_) => Err(failed(FailKind::Bounds, at)),
        Exact::Natural(i) => {
            if i >= n as u64 {
                return Err(failed(FailKind::Bounds, at));
            }
            let found = row(array, i as usize)?;
            if is_light(&form_of(alloc, &found)?) {
                Ok(found)
            } else {
                Err(failed(FailKind::TooLarge, at))
            }
        }
    }
}
