// Arrays of tuples, and the arrays of their parts.
ghost use Rattle.std.specs.Prelude.{◌≡◌, false, map, IfOk};
ghost use Rattle.fut_value.specs.Data.{Tuple_shape};
ghost use Rattle.fut_meaning.specs.Jobs.{zipped};
ghost use Rattle.array_data.specs.Answers.{Does, Tupled, Tuples_added};
ghost use Rattle.array_data.specs.Held.{as_held, built_rows, held, held_all, row_shape_in, shape_held, shapes};

use crate::columns::{put_rows, same_counts};
use array_data::{Built, Data, Form, Stop, array_of_form, copy_form, depth, row_form, tuple};
use fut_scalar::{List, NoMemory, Place, Shared};
use std::alloc::Global;

/// What the rows of each array look like.
#[tactic(auto, using(crate::proofs::Zipping::row_forms))]
fn row_forms(alloc: Global, arrays: &[Data]) -> Result<List<Form>, NoMemory>
    ensures { IfOk result (λ forms. map shape_held forms ≡ map row_shape_in (held_all arrays.now)) }
{
    let mut forms = List::new(alloc);
    for array in arrays {
        let form = row_form(alloc, array)?;
        forms.push(copy_form(alloc, form.get())?)?;
    }
    Ok(forms)
}

/// The tuple of the rows of arrays at an index.
#[tactic(auto, using(crate::proofs::Zipping::one_tuple))]
fn row_tuple(alloc: Global, arrays: &[Data], at: usize) -> Result<Data, Stop>
    ensures { Tupled (held_all arrays.now) at (as_held result) }
{
    let mut parts = Vec::new(alloc);
    let Ok(()) = put_rows(arrays, at, &mut parts) else {
        return Err(Stop::Memory);
    };
    Ok(tuple(alloc, List::from_vec(parts))?)
}

/// Puts tuples of so many rows behind others.
#[tactic(auto, using(crate::proofs::Zipping::all_tuples))]
fn push_tuples(alloc: Global, arrays: &[Data], n: usize, built: &mut Built) -> Result<(), Stop>
    ensures { Tuples_added (held_all arrays.now) n (built_rows built.old) (built_rows built.new) result }
{
    for i in 0..n {
        let Ok(next) = row_tuple(alloc, arrays, i) else {
            return Err(Stop::Memory);
        };
        let Ok(()) = built.push(next) else {
            return Err(Stop::Memory);
        };
    }
    Ok(())
}

/// How deep the deepest of arrays is.
fn deepest(arrays: &[Data]) -> u32 {
    let mut most = 0;
    for array in arrays {
        most = most.max(depth(array));
    }
    most
}

/// The rows of arrays of one size, side by side.
#[tactic(auto, using(crate::proofs::Zipping::zips))]
pub fn zip(alloc: Global, at: Place, arrays: &[Data]) -> Result<Data, Stop>
    ensures { Does (zipped false at (Tuple_shape (shapes (map row_shape_in (held_all arrays.now)))) (held_all arrays.now)) (as_held result) }
{
    let n = same_counts(at, arrays)?;
    let form = Shared::new(alloc, Form::Tuple(row_forms(alloc, arrays)?))?;
    let mut built = Built::new(alloc);
    push_tuples(alloc, arrays, n, &mut built)?;
    array_of_form(alloc, at, form, deepest(arrays), built)
}
