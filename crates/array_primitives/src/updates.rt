// Arrays with another row at an index.
ghost use Rattle.array_data.specs.Answers.{Tells};
ghost use Rattle.array_data.specs.Held.{as_held, held, held_all};
ghost use Rattle.array_primitives.specs.Updates.{Updated_inside, replaced_by, updated_at, updated_of};

use array_data::{
    Built, Data, Exact, Stop, agrees, copy, count, depth, failed, first_apart, form_of, row_form,
    so_deep, whole_number,
};
use fut_scalar::{FailKind, List, Place};
use std::alloc::Global;

/// Data in place of other data, which has its sizes.
#[tactic(auto, using(crate::proofs::Updating::replacing))]
fn replaced(alloc: Global, at: Place, old: &Data, value: &Data) -> Result<Data, Stop>
    ensures { Tells (replaced_by at (held old.now) (held value.now)) (as_held result) }
{
    let form = form_of(alloc, old)?;
    let other = form_of(alloc, value)?;
    if agrees(&form, &other) {
        copy(value)
    } else {
        Err(failed(FailKind::Size, at))
    }
}

/// An array with other data at an index inside one of its rows. The rows are taken apart and put together again.
#[tactic(auto, using(crate::proofs::Updating::inside))]
#[cycle(update)]
fn update_inside(
    alloc: Global,
    at: Place,
    whole: Data,
    row_at: u64,
    indices: &[Data],
    value: &Data,
) -> Result<Data, Stop>
    ensures { Updated_inside at (held whole) row_at (held_all indices.now) (held value.now) (as_held result) }
{
    let form = row_form(alloc, &whole)?;
    let deep = depth(&whole);
    let mut rows = Built::of(alloc, whole)?;
    let old = rows.take_row(alloc, row_at)?;
    let next = update_at(alloc, at, old, indices, value)?;
    let deep = deep.max(depth(&next).saturating_add(1));
    let Ok(()) = rows.set(row_at, next) else {
        return Err(Stop::Memory);
    };
    Ok(so_deep(alloc, form, deep, rows)?)
}

/// Data with other data at an index of several parts. It is written where it stands, as far as nobody else has it.
#[tactic(auto, using(crate::proofs::Updating::updating))]
#[cycle(update)]
fn update_at(
    alloc: Global,
    at: Place,
    whole: Data,
    indices: &[Data],
    value: &Data,
) -> Result<Data, Stop>
    ensures { Tells (updated_at at (held_all indices.now) (held value.now) (held whole)) (as_held result) }
{
    if indices.len() == 0 {
        return replaced(alloc, at, &whole, value);
    }
    let (Ok(n), Ok(index)) = (count(&whole), whole_number(&indices[0])) else {
        return Err(Stop::Memory);
    };
    match index {
        Exact::Below(_) => Err(failed(FailKind::Bounds, at)),
        Exact::Natural(i) => {
            if i >= n as u64 {
                return Err(failed(FailKind::Bounds, at));
            }
            update_inside(alloc, at, whole, i, &indices[1..], value)
        }
    }
}

/// The array with other data at an index: the array, the parts of the index and the data.
#[tactic(auto, using(crate::proofs::Updating::updates))]
pub fn update(alloc: Global, at: Place, values: List<Data>) -> Result<Data, Stop>
    ensures { Tells (updated_of at (held_all values)) (as_held result) }
{
    let Some((whole, rest)) = first_apart(values) else {
        return Err(Stop::Memory);
    };
    if rest.len() == 0 {
        return Err(Stop::Memory);
    }
    let rest = rest.as_slice();
    let last = rest.len() - 1;
    update_at(alloc, at, whole, &rest[..last], &rest[last])
}
