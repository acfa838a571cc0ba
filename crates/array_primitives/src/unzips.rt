// The arrays of the parts of the tuples of an array.
ghost use Rattle.std.specs.Prelude.{◌≡◌, false, [], ◌∷◌, IfOk};
ghost use Rattle.fut_flat.specs.declared.prim.Primitive.TheVariants as prim;
ghost use Rattle.fut_value.specs.Data.{Unmet_shape};
ghost use Rattle.fut_meaning.specs.Arrays.{each_out};
ghost use Rattle.fut_meaning.specs.Jobs.{column, job, part_shape, tuple_part};
ghost use Rattle.fut_meaning.specs.Outcomes.{Val};
ghost use Rattle.array_data.specs.Answers.{Does};
ghost use Rattle.array_data.specs.Held.{as_held, built_rows, held, held_all, row_shape_in, rows_in, shape_held};

use array_data::{Built, Data, Form, Stop, copy, copy_form, count, tuple, untested};
use fut_scalar::{List, NoMemory, Place, Shared};
use std::alloc::Global;

/// What the parts at a position of tuples of a form look like.
#[tactic(auto, using(crate::proofs::Unzipping::part_forms))]
fn part_form(alloc: Global, form: &Form, at: usize) -> Result<Shared<Form>, NoMemory>
    ensures { IfOk result (λ part. shape_held part ≡ part_shape at (shape_held form.now)) }
{
    match form {
        Form::Tuple(parts) => {
            let parts = parts.as_slice();
            if at < parts.len() {
                Shared::new(alloc, copy_form(alloc, &parts[at])?)
            } else {
                Err(NoMemory)
            }
        }
        Form::Unmet => Shared::new(alloc, Form::Unmet),
        Form::Scalar(_) => Err(NoMemory),
        Form::Array(_, _) => Err(NoMemory),
        Form::Record(_, _) => Err(NoMemory),
    }
}

/// The part of a tuple at a position.
#[tactic(auto, using(crate::proofs::Unzipping::parts))]
fn part(whole: &Data, at: usize) -> Result<Data, NoMemory>
    ensures { IfOk result (λ part. tuple_part at (held whole.now) ≡ Val (held part)) }
{
    let Data::Tuple(_, parts) = whole else {
        return Err(NoMemory);
    };
    let parts = parts.get().as_slice();
    if at >= parts.len() {
        return Err(NoMemory);
    }
    let Ok(part) = copy(&parts[at]) else {
        return Err(NoMemory);
    };
    Ok(part)
}

/// The parts of tuples at a position.
#[tactic(auto, using(crate::proofs::Unzipping::all_parts))]
fn parts_at(alloc: Global, rows: &[Data], at: usize) -> Result<Built, NoMemory>
    ensures { IfOk result (λ built. each_out (tuple_part at) (held_all rows.now) ≡ Val (built_rows built)) }
{
    let mut built = Built::new(alloc);
    for whole in rows {
        let next = part(whole, at)?;
        let Ok(()) = built.push(next) else {
            return Err(NoMemory);
        };
    }
    Ok(built)
}

/// The array of the parts of all rows at a position.
#[tactic(auto, using(crate::proofs::Unzipping::columns))]
fn part_column(alloc: Global, whole: &Data, at: usize) -> Result<Data, NoMemory>
    ensures { IfOk result (λ array. column at (row_shape_in (held whole.now), rows_in (held whole.now)) ≡ Val (held array)) }
{
    let Data::Rows(deep, form, rows) = whole else {
        return Err(NoMemory);
    };
    let built = parts_at(alloc, rows.get().as_slice(), at)?;
    let form = part_form(alloc, form.get(), at)?;
    untested(alloc, form, deep.saturating_sub(2), built)
}

/// The arrays of the first and of the second parts of all rows.
#[tactic(auto, using(crate::proofs::Unzipping::unzips))]
pub fn unzip(alloc: Global, at: Place, whole: &Data) -> Result<Data, Stop>
    ensures { Does (job false Unmet_shape prim.Unzip at (held whole.now ∷ [])) (as_held result) }
{
    count(whole)?;
    let mut columns = List::new(alloc);
    columns.push(part_column(alloc, whole, 0)?)?;
    columns.push(part_column(alloc, whole, 1)?)?;
    Ok(tuple(alloc, columns)?)
}

/// The arrays of the first, second and third parts of all rows.
#[tactic(auto, using(crate::proofs::Unzipping::unzips))]
pub fn unzip3(alloc: Global, at: Place, whole: &Data) -> Result<Data, Stop>
    ensures { Does (job false Unmet_shape prim.Unzip3 at (held whole.now ∷ [])) (as_held result) }
{
    count(whole)?;
    let mut columns = List::new(alloc);
    columns.push(part_column(alloc, whole, 0)?)?;
    columns.push(part_column(alloc, whole, 1)?)?;
    columns.push(part_column(alloc, whole, 2)?)?;
    Ok(tuple(alloc, columns)?)
}
