// Arrays that are made of rows.
ghost use Rattle.std.specs.Prelude.{◌≡◌, ◌+◌, ◌<◌, ◌≤◌, false, length, IfOk};
ghost use Rattle.fut_value.specs.Data.{Shape, Array_datum, datums};
ghost use Rattle.fut_meaning.specs.Arrays.{all_like, array as array_made, array_of, row_shape};
ghost use Rattle.array_data.specs.Answers.{Tells};
ghost use Rattle.array_data.specs.Changes.{Stands_in};
ghost use Rattle.array_data.specs.Depths.{built_depth, deepest, depth_of_rows, depth_told, most_deep};
ghost use Rattle.array_data.specs.Held.{as_held, built_rows, held, held_all, scalars, shape_held};

use crate::built::Built;
use crate::data::Data;
use crate::form::{Form, agrees, form_of, is_light};
use crate::handle::Handle;
use crate::rows::depth;
use crate::sizes::failed;
use crate::stop::Stop;
use fut_scalar::{FailKind, List, NoMemory, Place, ScalarType, Shared};
use std::alloc::Global;

/// Data is no deeper than this.
const MOST_DEEP: u32 = 1_000;

/// How deep an array of these rows is at most: one more than the deepest of them, and than a depth. `NoMemory` where that is
/// too deep.
#[tactic(auto, using(crate::proofs::Depths::deepest_rows))]
pub fn deeper(deep: u32, rows: &[Data]) -> Result<u32, NoMemory>
    ensures value { IfOk result (λ most. most ≡ deepest deep rows.now + 1) }
    ensures most { IfOk result (λ most. most ≤ most_deep) }
{
    let mut most = deep;
    for row in rows {
        most = most.max(depth(row));
    }
    if most < MOST_DEEP {
        Ok(most + 1)
    } else {
        Err(NoMemory)
    }
}

/// What rows look like, where there are some.
#[tactic(auto, using(crate::proofs::Making::rows_form))]
fn first_form(
    alloc: Global,
    otherwise: &Shared<Form>,
    rows: &[Data],
) -> Result<Shared<Form>, NoMemory>
    ensures { IfOk result (λ form. shape_held form ≡ row_shape (shape_held otherwise.now) (held_all rows.now)) }
{
    if rows.len() == 0 {
        return otherwise.share();
    }
    Shared::new(alloc, form_of(alloc, &rows[0])?)
}

/// Whether all rows have the sizes of a form.
#[tactic(auto, using(crate::proofs::Making::rows_like))]
fn are_like(alloc: Global, form: &Form, rows: &[Data]) -> Result<bool, NoMemory>
    ensures { IfOk result (λ like. like ≡ all_like (shape_held form.now) (held_all rows.now)) }
{
    for row in rows {
        let other = form_of(alloc, row)?;
        if !agrees(form, &other) {
            return Ok(false);
        }
    }
    Ok(true)
}

/// Whether all rows that were put together have the sizes of a form.
#[tactic(auto, using(crate::proofs::Making::all_rows_like))]
fn all_are_like(alloc: Global, form: &Form, built: &Built) -> Result<bool, NoMemory>
    ensures { IfOk result (λ like. like ≡ all_like (shape_held form.now) (built_rows built.now)) }
{
    if built.words.len() == 0 {
        return are_like(alloc, form, built.rows.as_slice());
    }
    if built.rows.len() > 0 {
        return Err(NoMemory);
    }
    match form {
        Form::Scalar(_) => Ok(true),
        Form::Unmet | Form::Tuple(_) | Form::Record(_, _) | Form::Array(_, _) => Err(NoMemory),
    }
}

/// An array with rows in the place of others of a form, which have to be like them.
#[tactic(auto, using(crate::proofs::Making::standing_in, crate::proofs::Depths::arrays_made))]
pub fn in_place(
    alloc: Global,
    at: Place,
    form: Shared<Form>,
    deep: u32,
    built: Built,
) -> Result<Data, Stop>
    ensures value { Stands_in at (shape_held form) (built_rows built) (as_held result) }
    ensures deep { IfOk result (λ array. depth_told array ≡ depth_of_rows deep built) }
    ensures most { IfOk result (λ array. depth_told array ≤ most_deep) }
{
    if !all_are_like(alloc, form.get(), &built)? {
        return Err(failed(FailKind::Size, at));
    }
    Ok(untested(alloc, form, deep, built)?)
}

/// The array of words.
#[tactic(auto, using(crate::proofs::Making::making, crate::proofs::Depths::arrays_made, crate::proofs::Depths::not_too_deep))]
fn array_of_words(alloc: Global, at: Place, ty: ScalarType, words: List<u64>) -> Result<Data, Stop>
    requires { 0 < length words }
    ensures value { (h : Shape) → Tells (array_made false at h (scalars ty words)) (as_held result) }
    ensures deep { IfOk result (λ array. depth_told array ≡ 1) }
    ensures most { IfOk result (λ array. depth_told array ≤ most_deep) }
{
    if words.len() > 33_554_432 {
        return Err(failed(FailKind::TooLarge, at));
    }
    Ok(Data::Words(ty, Handle::new(alloc, words)?))
}

/// The array of rows. Sizes are tested first, then the weight.
#[tactic(auto, using(crate::proofs::Making::making, crate::proofs::Depths::arrays_made, crate::proofs::Depths::not_too_deep))]
fn array_of_rows(
    alloc: Global,
    at: Place,
    otherwise: &Shared<Form>,
    deep: u32,
    rows: List<Data>,
) -> Result<Data, Stop>
    ensures value { Tells (array_made false at (shape_held otherwise.now) (held_all rows)) (as_held result) }
    ensures deep { IfOk result (λ array. depth_told array ≡ deepest deep rows + 1) }
    ensures most { IfOk result (λ array. depth_told array ≤ most_deep) }
{
    let form = first_form(alloc, otherwise, rows.as_slice())?;
    if !are_like(alloc, form.get(), rows.as_slice())? {
        return Err(failed(FailKind::Size, at));
    }
    let whole = Form::Array(rows.len() as u64, form.share()?);
    if !is_light(&whole) {
        return Err(failed(FailKind::TooLarge, at));
    }
    let deep = deeper(deep, rows.as_slice())?;
    Ok(Data::Rows(deep, form, Handle::new(alloc, rows)?))
}

/// The array of rows that were put together, which are of a form where there are none.
#[tactic(auto, using(crate::proofs::Making::making, crate::proofs::Depths::arrays_made, crate::proofs::Depths::not_too_deep))]
pub fn array(
    alloc: Global,
    at: Place,
    otherwise: &Shared<Form>,
    deep: u32,
    built: Built,
) -> Result<Data, Stop>
    ensures value { Tells (array_made false at (shape_held otherwise.now) (built_rows built)) (as_held result) }
    ensures deep { IfOk result (λ array. depth_told array ≡ depth_of_rows deep built) }
    ensures most { IfOk result (λ array. depth_told array ≤ most_deep) }
{
    let Built { ty, words, rows } = built;
    if words.len() == 0 {
        return array_of_rows(alloc, at, otherwise, deep, rows);
    }
    if rows.len() > 0 {
        return Err(Stop::Memory);
    }
    array_of_words(alloc, at, ty, words)
}

/// The array of rows that were put together and are known to be of a form. Its weight is tested.
#[tactic(auto, using(crate::proofs::Making::known_making, crate::proofs::Depths::arrays_made))]
pub fn array_of_form(
    alloc: Global,
    at: Place,
    form: Shared<Form>,
    deep: u32,
    built: Built,
) -> Result<Data, Stop>
    ensures value { Tells (array_of at (shape_held form) (built_rows built)) (as_held result) }
    ensures deep { IfOk result (λ array. depth_told array ≡ depth_of_rows deep built) }
    ensures most { IfOk result (λ array. depth_told array ≤ most_deep) }
{
    let Some(n) = built.len() else {
        return Err(Stop::Memory);
    };
    let whole = Form::Array(n as u64, form.share()?);
    if !is_light(&whole) {
        return Err(failed(FailKind::TooLarge, at));
    }
    Ok(untested(alloc, form, deep, built)?)
}

/// The array of rows that were put together, whose sizes and weight are known to be right.
#[tactic(auto, using(crate::proofs::Making::untested_making, crate::proofs::Depths::arrays_made))]
pub fn untested(
    alloc: Global,
    form: Shared<Form>,
    deep: u32,
    built: Built,
) -> Result<Data, NoMemory>
    ensures value { IfOk result (λ array. held array ≡ Array_datum (shape_held form) (datums (built_rows built))) }
    ensures deep { IfOk result (λ array. depth_told array ≡ depth_of_rows deep built) }
    ensures most { IfOk result (λ array. depth_told array ≤ most_deep) }
{
    let depth = deeper(deep, built.rows.as_slice())?;
    so_deep(alloc, form, depth, built)
}

/// The same of rows that an array so deep may have. It takes no look at them.
#[tactic(auto, using(crate::proofs::Making::untested_making, crate::proofs::Depths::rows_made, crate::proofs::Depths::not_too_deep))]
pub fn so_deep(
    alloc: Global,
    form: Shared<Form>,
    depth: u32,
    built: Built,
) -> Result<Data, NoMemory>
    ensures value { IfOk result (λ array. held array ≡ Array_datum (shape_held form) (datums (built_rows built))) }
    ensures deep { IfOk result (λ array. depth_told array ≡ built_depth depth built) }
    ensures most { IfOk result (λ array. depth_told array ≤ most_deep) }
{
    if depth > MOST_DEEP {
        return Err(NoMemory);
    }
    let Built { ty, words, rows } = built;
    if words.len() == 0 {
        return Ok(Data::Rows(depth, form, Handle::new(alloc, rows)?));
    }
    if rows.len() > 0 {
        return Err(NoMemory);
    }
    match form.get() {
        Form::Scalar(sort) => {
            if *sort == ty {
                Ok(Data::Words(ty, Handle::new(alloc, words)?))
            } else {
                Err(NoMemory)
            }
        }
        Form::Unmet | Form::Tuple(_) | Form::Record(_, _) | Form::Array(_, _) => Err(NoMemory),
    }
}
