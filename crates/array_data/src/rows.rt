// Arrays as they are read: their rows one by one.
ghost use Rattle.std.specs.Prelude.{◌≡◌, ◌<◌, length, IfOk};
ghost use Rattle.array_data.specs.Answers.{Counts, Row_is};
ghost use Rattle.array_data.specs.Depths.{depth_told, row_depth_told};
ghost use Rattle.array_data.specs.Held.{as_held, held, row_shape_in, rows_in, shape_held};

use crate::data::{Data, copy};
use crate::form::Form;
use crate::stop::Stop;
use fut_arithmetic::decode_word;
use fut_scalar::{NoMemory, Shared};
use std::alloc::Global;

/// How many rows an array has.
#[tactic(auto, using(crate::proofs::RowsRead::counting, crate::proofs::RecordForms::no_rows_counted))]
pub fn count(array: &Data) -> Result<usize, Stop>
    ensures { Counts (held array.now) result }
{
    match array {
        Data::Words(_, words) => Ok(words.get().len()),
        Data::Rows(_, _, rows) => Ok(rows.get().len()),
        Data::Scalar(_) | Data::Tuple(_, _) | Data::Record(_, _, _) => Err(Stop::Stuck),
    }
}

/// The row of an array at an index, where there is one.
#[tactic(auto, using(crate::proofs::RowsRead::reading))]
pub fn row(array: &Data, at: usize) -> Result<Data, Stop>
    ensures { Row_is (held array.now) at (as_held result) }
{
    match array {
        Data::Words(ty, words) => {
            let words = words.get().as_slice();
            if at < words.len() {
                Ok(Data::Scalar(decode_word(*ty, words[at])))
            } else {
                Err(Stop::Memory)
            }
        }
        Data::Rows(_, _, rows) => {
            let rows = rows.get().as_slice();
            if at < rows.len() {
                copy(&rows[at])
            } else {
                Err(Stop::Memory)
            }
        }
        Data::Scalar(_) | Data::Tuple(_, _) | Data::Record(_, _, _) => Err(Stop::Memory),
    }
}

/// What the rows of an array look like.
#[tactic(auto, using(crate::proofs::RowsRead::shapes))]
pub fn row_form(alloc: Global, array: &Data) -> Result<Shared<Form>, NoMemory>
    ensures { IfOk result (λ form. shape_held form ≡ row_shape_in (held array.now)) }
{
    match array {
        Data::Words(ty, _) => Shared::new(alloc, Form::Scalar(*ty)),
        Data::Rows(_, form, _) => form.share(),
        Data::Scalar(_) | Data::Tuple(_, _) | Data::Record(_, _, _) => Err(NoMemory),
    }
}

/// How deep data is at most.
#[tactic(auto, using(crate::proofs::Depths::depths))]
pub fn depth(whole: &Data) -> u32
    ensures { result ≡ depth_told whole.now }
{
    match whole {
        Data::Scalar(_) => 0,
        Data::Words(_, _) => 1,
        Data::Rows(depth, _, _) => *depth,
        Data::Tuple(depth, _) => *depth,
        Data::Record(depth, _, _) => *depth,
    }
}

/// How deep the rows of an array are at most.
#[tactic(auto, using(crate::proofs::Depths::row_depths))]
pub fn row_depth(array: &Data) -> u32
    ensures { result ≡ row_depth_told array.now }
{
    match array {
        Data::Rows(depth, _, _) => depth.saturating_sub(1),
        Data::Scalar(_) => 0,
        Data::Words(_, _) => 0,
        Data::Tuple(_, _) => 0,
        Data::Record(_, _, _) => 0,
    }
}
