// Rows and parts of forms. What has no rows, or no such part, tells nothing.
ghost use Rattle.std.specs.Prelude.{◌≡◌, IfOk, map};
ghost use Rattle.fut_meaning.specs.Outcomes.{Val};
ghost use Rattle.fut_meaning.specs.Places.{part_of, row_of, shape_at};
ghost use Rattle.fut_meaning.specs.Telling.{parts_of};
ghost use Rattle.fut_value.specs.Data.{Array_shape};
ghost use Rattle.array_data.specs.Answers.{Tells};
ghost use Rattle.array_data.specs.Held.{shape_held, shapes};
ghost use Rattle.form_parts.specs.Met.{as_shape};

use array_data::{Form, Stop, copy_form};
use fut_scalar::{List, NoMemory, Shared};
use std::alloc::Global;

/// The form of an array's rows.
#[tactic(auto, using(crate::proofs::PartForms::rows_read))]
pub fn rows_form(alloc: Global, whole: &Form) -> Result<Form, Stop>
    ensures { Tells (Val (row_of (shape_held whole.now))) (as_shape result) }
{
    match whole {
        Form::Array(_, row) => {
            let row = copy_form(alloc, row.get())?;
            Ok(row)
        }
        Form::Unmet | Form::Scalar(_) | Form::Tuple(_) | Form::Record(_, _) => Ok(Form::Unmet),
    }
}

/// The form of a tuple's part. The first has the number 0.
#[tactic(auto, using(crate::proofs::PartForms::parts_read))]
pub fn part_form(alloc: Global, at: u32, whole: &Form) -> Result<Form, Stop>
    ensures { Tells (Val (part_of at (shape_held whole.now))) (as_shape result) }
{
    match whole {
        Form::Tuple(forms) => form_at(alloc, at as usize, forms.as_slice()),
        Form::Unmet | Form::Scalar(_) | Form::Record(_, _) | Form::Array(_, _) => Ok(Form::Unmet),
    }
}

/// The form at an index.
#[tactic(auto, using(crate::proofs::PartForms::one_of_parts))]
fn form_at(alloc: Global, at: usize, forms: &[Form]) -> Result<Form, Stop>
    ensures { Tells (Val (shape_at at (shapes (map shape_held forms.now)))) (as_shape result) }
{
    if at >= forms.len() {
        return Ok(Form::Unmet);
    }
    let form = copy_form(alloc, &forms[at])?;
    Ok(form)
}

/// The form of an array of so many rows of a form.
#[tactic(auto, using(crate::proofs::PartForms::arrays_made))]
pub fn array_form(alloc: Global, many: u64, row: Form) -> Result<Form, Stop>
    ensures { Tells (Val (Array_shape many (shape_held row))) (as_shape result) }
{
    let row = Shared::new(alloc, row)?;
    Ok(Form::Array(many, row))
}

/// The form of a tuple of arrays, each of so many of one part of a tuple.
#[tactic(auto, using(crate::proofs::PartForms::unzipped))]
pub fn arrays_form(alloc: Global, many: u64, row: &Form) -> Result<Form, Stop>
    ensures { Tells (Val (parts_of many (shape_held row.now))) (as_shape result) }
{
    match row {
        Form::Tuple(forms) => {
            let arrays = arrays_of(alloc, many, forms.as_slice())?;
            Ok(Form::Tuple(arrays))
        }
        Form::Unmet | Form::Scalar(_) | Form::Record(_, _) | Form::Array(_, _) => Ok(Form::Unmet),
    }
}

/// The forms of arrays of so many of each.
#[tactic(auto, using(crate::proofs::PartForms::arrays))]
fn arrays_of(alloc: Global, many: u64, forms: &[Form]) -> Result<List<Form>, NoMemory>
    ensures { IfOk result (λ arrays. map shape_held arrays ≡ map (Array_shape many) (map shape_held forms.now)) }
{
    let mut arrays = List::new(alloc);
    for form in forms {
        let row = Shared::new(alloc, copy_form(alloc, form)?)?;
        arrays.push(Form::Array(many, row))?;
    }
    Ok(arrays)
}
