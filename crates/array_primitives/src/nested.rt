// Arrays of arrays: flattened, in groups, and transposed.
ghost use Rattle.std.specs.Prelude.{◌≡◌, ◌≤◌, ◌+◌, ◌*◌, false, [], ◌∷◌, drop, length, map, nat_eq, nat_le, take, IfOk, Some};
ghost use Rattle.fut_flat.specs.declared.prim.Primitive.TheVariants as prim;
ghost use Rattle.fut_value.specs.Data.{Array_shape, Array_datum, Unmet_shape, datums, weight};
ghost use Rattle.fut_meaning.specs.Arrays.{most_words};
ghost use Rattle.fut_meaning.specs.Jobs.{crossed, grouped, inner_rows, job, joined, transposed, unflattened};
ghost use Rattle.fut_meaning.specs.Outcomes.{Val};
ghost use Rattle.array_data.specs.Answers.{Does, each_at};
ghost use Rattle.array_data.specs.Held.{as_held, built_rows, held, held_all, row_shape_in, rows_in, shape_held};
ghost use Rattle.array_primitives.specs.Nested.{Column_of};

use crate::parts::push_part;
use array_data::{
    Built, Data, Exact, Form, Stop, array_of_form, count, failed, inner_form, is_light, row,
    row_depth, row_form, size_of, untested, whole_number,
};
use fut_scalar::{FailKind, NoMemory, Place, Shared};
use std::alloc::Global;

/// Whether the weight of so many rows of a form is no greater than the greatest.
#[tactic(auto, using(crate::proofs::Nesting::light_arrays))]
fn are_light(many: u64, row: &Shared<Form>) -> Result<bool, NoMemory>
    ensures { IfOk result (λ light. light ≡ nat_le (weight (Array_shape many (shape_held row.now))) most_words) }
{
    let whole = Form::Array(many, row.share()?);
    Ok(is_light(&whole))
}

/// Tells arrays from other data: there is no memory for rows that are none.
#[tactic(auto, using(crate::proofs::Nesting::arrays))]
fn all_arrays(rows: &[Data]) -> Result<(), NoMemory>
    ensures { IfOk result (λ _. inner_rows (held_all rows.now) ≡ Val (map rows_in (held_all rows.now))) }
{
    for array in rows {
        let Ok(_) = count(array) else {
            return Err(NoMemory);
        };
    }
    Ok(())
}

/// The rows of rows, one after the other.
#[tactic(auto, using(crate::proofs::Nesting::joins))]
fn rows_of_rows(alloc: Global, rows: &[Data]) -> Result<Built, NoMemory>
    ensures { IfOk result (λ built. built_rows built ≡ joined (map rows_in (held_all rows.now))) }
{
    let mut built = Built::new(alloc);
    for array in rows {
        let Ok(many) = count(array) else {
            return Err(NoMemory);
        };
        let Ok(()) = push_part(array, 0, many, &mut built) else {
            return Err(NoMemory);
        };
    }
    Ok(built)
}

/// The rows of all rows, one after the other.
#[tactic(auto, using(crate::proofs::Nesting::flattenings))]
pub fn flatten(alloc: Global, at: Place, whole: &Data) -> Result<Data, Stop>
    ensures { Does (job false Unmet_shape prim.Flatten at (held whole.now ∷ [])) (as_held result) }
{
    let Data::Rows(deep, form, rows) = whole else {
        return Err(Stop::Memory);
    };
    let rows = rows.get().as_slice();
    all_arrays(rows)?;
    let row = inner_form(alloc, form.get())?;
    let built = rows_of_rows(alloc, rows)?;
    array_of_form(alloc, at, row, deep.saturating_sub(2), built)
}

/// The elements of rows at an index.
#[tactic(auto, using(crate::proofs::Nesting::elements))]
fn elements_at(alloc: Global, rows: &[Data], at: usize) -> Result<Built, NoMemory>
    ensures { IfOk result (λ built. each_at at (held_all rows.now) ≡ Some (built_rows built)) }
{
    let mut built = Built::new(alloc);
    for array in rows {
        let Ok(next) = row(array, at) else {
            return Err(NoMemory);
        };
        let Ok(()) = built.push(next) else {
            return Err(NoMemory);
        };
    }
    Ok(built)
}

/// The array of the elements of rows at an index.
#[tactic(auto, using(crate::proofs::Nesting::column_made))]
fn column(
    alloc: Global,
    form: &Shared<Form>,
    deep: u32,
    rows: &[Data],
    at: usize,
) -> Result<Data, NoMemory>
    ensures { IfOk result (λ array. Column_of (shape_held form.now) at (held_all rows.now) (held array)) }
{
    let elements = elements_at(alloc, rows, at)?;
    untested(alloc, form.share()?, deep, elements)
}

/// The arrays of the elements of rows at each index, so many.
#[tactic(auto, using(crate::proofs::Nesting::crossings))]
fn columns(
    alloc: Global,
    form: &Shared<Form>,
    deep: u32,
    rows: &[Data],
    many: usize,
) -> Result<Built, NoMemory>
    ensures { IfOk result (λ built. crossed (shape_held form.now) many 0 (map rows_in (held_all rows.now)) ≡ Val (built_rows built)) }
{
    let mut built = Built::new(alloc);
    for at in 0..many {
        let next = column(alloc, form, deep, rows, at)?;
        let Ok(()) = built.push(next) else {
            return Err(NoMemory);
        };
    }
    Ok(built)
}

/// The array of the columns of rows that are arrays of a form. Its weight is tested before columns are made.
#[tactic(auto, using(crate::proofs::Nesting::columns_done))]
fn transposed(alloc: Global, at: Place, form: &Form, deep: u32, rows: &[Data]) -> Result<Data, Stop>
    requires { inner_rows (held_all rows.now) ≡ Val (map rows_in (held_all rows.now)) }
    ensures { Does (transposed at (shape_held form.now, held_all rows.now)) (as_held result) }
{
    let many = size_of(form);
    let element = inner_form(alloc, form)?;
    let column = Shared::new(alloc, Form::Array(rows.len() as u64, element.share()?))?;
    if !are_light(many, &column)? {
        return Err(failed(FailKind::TooLarge, at));
    }
    let built = columns(alloc, &element, deep.saturating_sub(2), rows, many as usize)?;
    Ok(untested(alloc, column, deep.saturating_sub(1), built)?)
}

/// The array of the elements of all rows at each index.
#[tactic(auto, using(crate::proofs::Nesting::transposings))]
pub fn transpose(alloc: Global, at: Place, whole: &Data) -> Result<Data, Stop>
    ensures { Does (job false Unmet_shape prim.Transpose at (held whole.now ∷ [])) (as_held result) }
{
    let Data::Rows(deep, form, rows) = whole else {
        return Err(Stop::Memory);
    };
    let rows = rows.get().as_slice();
    all_arrays(rows)?;
    transposed(alloc, at, form.get(), *deep, rows)
}

/// The array of rows of an array, so many from a place on.
#[tactic(auto, using(crate::proofs::Nesting::group_made))]
fn group(
    alloc: Global,
    form: &Shared<Form>,
    whole: &Data,
    from: usize,
    many: usize,
) -> Result<Data, NoMemory>
    requires { from + many ≤ length (rows_in (held whole.now)) }
    ensures { IfOk result (λ array. held array ≡ Array_datum (shape_held form.now) (datums (take many (drop from (rows_in (held whole.now)))))) }
{
    let mut built = Built::new(alloc);
    let Ok(()) = push_part(whole, from, many, &mut built) else {
        return Err(NoMemory);
    };
    untested(alloc, form.share()?, row_depth(whole), built)
}

/// Groups of rows of an array, so many and each so long.
#[tactic(auto, using(crate::proofs::Nesting::groupings))]
fn groups(
    alloc: Global,
    form: &Shared<Form>,
    whole: &Data,
    many: usize,
    long: usize,
) -> Result<Built, NoMemory>
    requires { many * long ≤ length (rows_in (held whole.now)) }
    ensures { IfOk result (λ built. built_rows built ≡ grouped (shape_held form.now) many long (rows_in (held whole.now))) }
{
    let mut built = Built::new(alloc);
    for i in 0..many {
        let Some(from) = i.checked_mul(long) else {
            return Err(NoMemory);
        };
        let next = group(alloc, form, whole, from, long)?;
        let Ok(()) = built.push(next) else {
            return Err(NoMemory);
        };
    }
    Ok(built)
}

/// The array of all rows in groups. Its weight is tested before groups are made.
#[tactic(auto, using(crate::proofs::Nesting::groups_done))]
fn unflattened(alloc: Global, at: Place, whole: &Data, many: u64, long: u64) -> Result<Data, Stop>
    requires { many * long ≡ length (rows_in (held whole.now)) }
    ensures { Does (unflattened at many long (row_shape_in (held whole.now), rows_in (held whole.now))) (as_held result) }
{
    let element = row_form(alloc, whole)?;
    let row = Shared::new(alloc, Form::Array(long, element.share()?))?;
    if !are_light(many, &row)? {
        return Err(failed(FailKind::TooLarge, at));
    }
    let built = groups(alloc, &element, whole, many as usize, long as usize)?;
    Ok(untested(alloc, row, row_depth(whole).saturating_add(1), built)?)
}

/// Whether a product is a number.
#[tactic(auto, using(crate::proofs::Nesting::products))]
fn is_product(a: u64, b: u64, n: usize) -> bool
    ensures { result ≡ nat_eq (a * b) n }
{
    match a.checked_mul(b) {
        Some(product) => product == n as u64,
        None => false,
    }
}

/// The rows in groups, so many and each so long.
#[tactic(auto, using(crate::proofs::Nesting::unflattenings))]
pub fn unflatten(
    alloc: Global,
    at: Place,
    many: &Data,
    long: &Data,
    whole: &Data,
) -> Result<Data, Stop>
    ensures { Does (job false Unmet_shape prim.Unflatten at (held many.now ∷ held long.now ∷ held whole.now ∷ [])) (as_held result) }
{
    let many = whole_number(many)?;
    let long = whole_number(long)?;
    let n = count(whole)?;
    let (Exact::Natural(many), Exact::Natural(long)) = (many, long) else {
        return Err(failed(FailKind::Range, at));
    };
    if !is_product(many, long, n) {
        return Err(failed(FailKind::Size, at));
    }
    unflattened(alloc, at, whole, many, long)
}
