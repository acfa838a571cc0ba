// Fields of forms, by their names.
ghost use Rattle.std.specs.Prelude.{◌≡◌, IfOk, map};
ghost use Rattle.std.specs.Str.{bytes_eq};
ghost use Rattle.fut_meaning.specs.Outcomes.{Val};
ghost use Rattle.fut_meaning.specs.Places.{field_of, field_shape};
ghost use Rattle.fut_value.specs.Data.{Record_shape};
ghost use Rattle.array_data.specs.Answers.{Tells};
ghost use Rattle.array_data.specs.Held.{named_shapes, shape_held};
ghost use Rattle.form_parts.specs.Met.{as_found, as_shape, field_texts};

use array_data::{Form, Stop, copy_form};
use fut_blocks::FieldShape;
use fut_scalar::{List, Name, NoMemory, Shared};
use std::alloc::Global;

/// Whether a name is this text.
fn is_named(name: &Name, text: &str) -> bool
    ensures { result ≡ bytes_eq name.now text.now }
{
    name.as_str() == text
}

/// The first form of a name, where there is one. Each form has a name.
#[tactic(auto, using(crate::proofs::FieldForms::places))]
pub fn field_at<'a>(name: &str, names: &[Name], forms: &'a [Form]) -> Result<Option<&'a Form>, Stop>
    ensures { Tells (Val (field_shape name.now (named_shapes names.now (map shape_held forms.now)))) (as_found result) }
{
    for i in 0..forms.len() {
        if i >= names.len() {
            return Err(Stop::Memory);
        }
        if is_named(&names[i], name) {
            return Ok(Some(&forms[i]));
        }
    }
    Ok(None)
}

/// The form of a record's field. Where there is none, nothing is told.
#[tactic(auto, using(crate::proofs::FieldForms::fields))]
pub fn field_form(alloc: Global, name: &str, whole: &Form) -> Result<Form, Stop>
    ensures { Tells (Val (field_of name.now (shape_held whole.now))) (as_shape result) }
{
    match whole {
        Form::Record(names, forms) => {
            let Some(form) = field_at(name, names.get().as_slice(), forms.as_slice())? else {
                return Ok(Form::Unmet);
            };
            let form = copy_form(alloc, form)?;
            Ok(form)
        }
        Form::Unmet | Form::Scalar(_) | Form::Tuple(_) | Form::Array(_, _) => Ok(Form::Unmet),
    }
}

/// The form of a record of fields of these forms.
#[tactic(auto, using(crate::proofs::FieldForms::records))]
pub fn record_form(alloc: Global, fields: &[FieldShape], forms: List<Form>) -> Result<Form, Stop>
    ensures { Tells (Val (Record_shape (named_shapes (field_texts fields.now) (map shape_held forms)))) (as_shape result) }
{
    let names = Shared::new(alloc, field_names(alloc, fields)?)?;
    Ok(Form::Record(names, forms))
}

/// The names of fields, copied.
#[tactic(auto, using(crate::proofs::FieldForms::naming))]
fn field_names(alloc: Global, fields: &[FieldShape]) -> Result<List<Name>, NoMemory>
    ensures { IfOk result (λ all. all ≡ field_texts fields.now) }
{
    let mut all = List::new(alloc);
    for field in fields {
        all.push(Name::new(alloc, field.name)?)?;
    }
    Ok(all)
}
