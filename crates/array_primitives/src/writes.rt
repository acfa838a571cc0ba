// Rows that are written at places of an array.
ghost use Rattle.std.specs.Prelude.{◌≡◌, false, length, IfOk};
ghost use Rattle.fut_meaning.specs.Jobs.{scattered};
ghost use Rattle.array_data.specs.Answers.{exact_held};
ghost use Rattle.array_data.specs.Held.{as_held, built_rows, held, rows_in};
ghost use Rattle.array_primitives.specs.Writes.{Index_at, Put_at, Rows_chosen, Scatters, Write_counts};

use crate::joins::do_fit;
use array_data::{
    Built, Data, Exact, Stop, count, depth, failed, row, row_form, so_deep, whole_number,
};
use fut_scalar::{FailKind, NoMemory, Place};
use std::alloc::Global;

/// The place at which a row is written.
#[tactic(auto, using(crate::proofs::Scattering::indexing))]
pub fn index_at(indices: &Data, at: usize) -> Result<Exact, NoMemory>
    ensures { IfOk result (Index_at (rows_in (held indices.now)) at) }
{
    let Ok(index) = row(indices, at) else {
        return Err(NoMemory);
    };
    let Ok(index) = whole_number(&index) else {
        return Err(NoMemory);
    };
    Ok(index)
}

/// How many places an array has, and how many rows are written: one for each index, like those of the array where both
/// have some.
#[tactic(auto, using(crate::proofs::Scattering::counting))]
pub fn write_counts(
    alloc: Global,
    at: Place,
    whole: &Data,
    indices: &Data,
    values: &Data,
) -> Result<(usize, usize), Stop>
    ensures { Write_counts at (held whole.now) (held indices.now) (held values.now) result }
{
    let (Ok(n), Ok(m), Ok(many)) = (count(whole), count(indices), count(values)) else {
        return Err(Stop::Memory);
    };
    if m != many {
        return Err(failed(FailKind::Size, at));
    }
    let form = row_form(alloc, whole)?;
    let other = row_form(alloc, values)?;
    if !do_fit(n, many, form.get(), other.get()) {
        return Err(failed(FailKind::Size, at));
    }
    Ok((n, m))
}

/// Puts a row in the place of the one at an index, where there is one of so many.
#[tactic(auto, using(crate::proofs::Scattering::putting))]
fn put_at(rows: &mut Built, n: usize, index: Exact, value: Data) -> Result<(), NoMemory>
    requires { n ≡ length (built_rows rows.old) }
    ensures { IfOk result (λ _. Put_at (exact_held index) (held value) (built_rows rows.old) (built_rows rows.new)) }
{
    match index {
        Exact::Below(_) => Ok(()),
        Exact::Natural(place) => {
            if place >= n as u64 {
                return Ok(());
            }
            let Ok(()) = rows.set(place, value) else {
                return Err(NoMemory);
            };
            Ok(())
        }
    }
}

/// Writes so many rows at places, one after the other, each at its index.
#[tactic(auto, using(crate::proofs::Scattering::choosing))]
fn write_rows(
    rows: &mut Built,
    n: usize,
    indices: &Data,
    values: &Data,
    m: usize,
) -> Result<(), NoMemory>
    requires { n ≡ length (built_rows rows.old) }
    ensures { IfOk result (λ _. Rows_chosen (built_rows rows.old) (rows_in (held indices.now)) (rows_in (held values.now)) m (built_rows rows.new)) }
{
    for i in 0..m {
        let index = index_at(indices, i)?;
        let Ok(value) = row(values, i) else {
            return Err(NoMemory);
        };
        put_at(rows, n, index, value)?;
    }
    Ok(())
}

/// An array with rows written at places: those of one array, each at the index that another has for it. An index outside
/// writes nothing, and of several rows that are written at one place the last one stays. The array is written where it
/// stands, where nobody else has it.
#[tactic(auto, using(crate::proofs::Scattering::scattering))]
pub fn scatter(
    alloc: Global,
    at: Place,
    whole: Data,
    indices: &Data,
    values: &Data,
) -> Result<Data, Stop>
    ensures { Scatters (scattered false at (held whole) (held indices.now) (held values.now)) (as_held result) }
{
    let (n, m) = write_counts(alloc, at, &whole, indices, values)?;
    let form = row_form(alloc, &whole)?;
    let deep = depth(&whole).max(depth(values));
    let mut rows = Built::of(alloc, whole)?;
    write_rows(&mut rows, n, indices, values, m)?;
    Ok(so_deep(alloc, form, deep, rows)?)
}
