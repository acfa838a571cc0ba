// What data looks like.
ghost use Rattle.std.specs.Prelude.{◌≡◌, ◌≤◌, IfOk, map, min, nat_le, length};
ghost use Rattle.fut_arithmetic.specs.Types.{type_of};
ghost use Rattle.fut_value.specs.Data.{heaviest, heaviest_of, is_unmet, all_unmet, same_sizes, all_same_sizes, shape_of, weight, words, all_words};
ghost use Rattle.fut_meaning.specs.Arrays.{inner, most_words, size};
ghost use Rattle.array_data.specs.Held.{held, held_shapes, shape_held, shapes_held};

use crate::data::Data;
use fut_scalar::{List, Name, NoMemory, Scalar, ScalarType, Shared};
use std::alloc::Global;

/// The form of data: the sizes of its arrays and the parts of its tuples and records.
#[derive(Drop)]
pub enum Form {
    /// Of rows that nothing has given.
    Unmet,
    Scalar(ScalarType),
    Tuple(List<Form>),
    /// The names of a record's fields, and the forms of its parts.
    Record(Shared<List<Name>>, List<Form>),
    /// So many rows of one form.
    Array(u64, Shared<Form>),
}

/// The greatest weight of an array, in words.
const MOST_WORDS: u64 = 33_554_432;

/// Whether so many words are no more than the greatest weight.
#[tactic(auto, using(crate::proofs::Weights::few))]
pub fn is_few(n: u64) -> bool
    ensures { result ≡ nat_le n most_words }
{
    if n > MOST_WORDS { false } else { true }
}

/// The type of a scalar.
pub fn sort_of(scalar: Scalar) -> ScalarType
    ensures { result ≡ type_of scalar }
{
    match scalar {
        Scalar::Int { ty, bits: _ } => ScalarType::Int(ty),
        Scalar::Bool(_) => ScalarType::Bool,
    }
}

/// The same form.
#[cycle(copies)]
pub fn copy_form(alloc: Global, form: &Form) -> Result<Form, NoMemory>
    ensures { IfOk result (λ same. same ≡ form.now) }
{
    match form {
        Form::Unmet => Ok(Form::Unmet),
        Form::Scalar(ty) => Ok(Form::Scalar(*ty)),
        Form::Tuple(parts) => Ok(Form::Tuple(copy_forms(alloc, parts.as_slice())?)),
        Form::Record(names, parts) => {
            let parts = copy_forms(alloc, parts.as_slice())?;
            Ok(Form::Record(names.share()?, parts))
        }
        Form::Array(size, row) => Ok(Form::Array(*size, row.share()?)),
    }
}

#[cycle(copies)]
fn copy_forms(alloc: Global, forms: &[Form]) -> Result<List<Form>, NoMemory>
    ensures { IfOk result (λ same. same ≡ forms.now) }
{
    let mut copies = List::new(alloc);
    for form in forms {
        copies.push(copy_form(alloc, form)?)?;
    }
    Ok(copies)
}

/// The form of data.
#[tactic(auto, using(crate::proofs::Forms::forms_made, crate::proofs::RecordForms::form_made))]
#[cycle(forms)]
pub fn form_of(alloc: Global, whole: &Data) -> Result<Form, NoMemory>
    ensures { IfOk result (λ form. shape_held form ≡ shape_of (held whole.now)) }
{
    match whole {
        Data::Scalar(scalar) => Ok(Form::Scalar(sort_of(*scalar))),
        Data::Words(ty, words) => {
            let row = Shared::new(alloc, Form::Scalar(*ty))?;
            Ok(Form::Array(words.get().len() as u64, row))
        }
        Data::Rows(_, form, rows) => Ok(Form::Array(rows.get().len() as u64, form.share()?)),
        Data::Tuple(_, parts) => Ok(Form::Tuple(forms_of(alloc, parts.get().as_slice())?)),
        Data::Record(_, names, parts) => {
            let forms = forms_of(alloc, parts.get().as_slice())?;
            Ok(Form::Record(names.share()?, forms))
        }
    }
}

/// The form of each.
#[tactic(auto, using(crate::proofs::Forms::all_forms_made))]
#[cycle(forms)]
fn forms_of(alloc: Global, parts: &[Data]) -> Result<List<Form>, NoMemory>
    ensures { IfOk result (λ forms. map shape_held forms ≡ held_shapes parts.now) }
{
    let mut forms = List::new(alloc);
    for part in parts {
        forms.push(form_of(alloc, part)?)?;
    }
    Ok(forms)
}

/// What the rows of arrays of a form look like.
#[tactic(auto, using(crate::proofs::InnerForms::inner_forms))]
pub fn inner_form(alloc: Global, form: &Form) -> Result<Shared<Form>, NoMemory>
    ensures { IfOk result (λ row. shape_held row ≡ inner (shape_held form.now)) }
{
    match form {
        Form::Array(_, row) => row.share(),
        Form::Unmet => Shared::new(alloc, Form::Unmet),
        Form::Scalar(_) => Shared::new(alloc, Form::Unmet),
        Form::Tuple(_) => Shared::new(alloc, Form::Unmet),
        Form::Record(_, _) => Shared::new(alloc, Form::Unmet),
    }
}

/// How many rows arrays of a form have.
#[tactic(auto, using(crate::proofs::InnerForms::form_sizes))]
pub fn size_of(form: &Form) -> u64
    ensures { result ≡ size (shape_held form.now) }
{
    match form {
        Form::Array(many, _) => *many,
        Form::Unmet => 0,
        Form::Scalar(_) => 0,
        Form::Tuple(_) => 0,
        Form::Record(_, _) => 0,
    }
}

/// Whether each size of a form is 0.
#[tactic(auto, using(crate::proofs::Forms::unmet, crate::proofs::RecordForms::unmet_records))]
#[cycle(unmet)]
fn form_unmet(form: &Form) -> bool
    ensures { result ≡ is_unmet (shape_held form.now) }
{
    match form {
        Form::Unmet | Form::Scalar(_) => true,
        Form::Tuple(parts) => forms_unmet(parts.as_slice()),
        Form::Record(_, parts) => forms_unmet(parts.as_slice()),
        Form::Array(size, row) => *size == 0 && form_unmet(row.get()),
    }
}

#[tactic(auto, using(crate::proofs::Forms::unmet))]
#[cycle(unmet)]
fn forms_unmet(forms: &[Form]) -> bool
    ensures { result ≡ all_unmet (shapes_held forms.now) }
{
    for form in forms {
        if !form_unmet(form) {
            return false;
        }
    }
    true
}

/// Whether two forms of one type have the same sizes.
#[tactic(auto, using(crate::proofs::Forms::agreeing, crate::proofs::RecordForms::agreeing_records))]
#[cycle(agree)]
pub fn agrees(a: &Form, b: &Form) -> bool
    ensures { result ≡ same_sizes (shape_held a.now) (shape_held b.now) }
{
    match a {
        Form::Unmet => form_unmet(b),
        Form::Scalar(_) => true,
        Form::Tuple(parts) => match b {
            Form::Unmet => form_unmet(a),
            Form::Tuple(others) => all_agree(parts.as_slice(), others.as_slice()),
            Form::Scalar(_) | Form::Record(_, _) | Form::Array(_, _) => true,
        },
        Form::Record(_, parts) => match b {
            Form::Unmet => form_unmet(a),
            Form::Record(_, others) => all_agree(parts.as_slice(), others.as_slice()),
            Form::Scalar(_) | Form::Tuple(_) | Form::Array(_, _) => true,
        },
        Form::Array(size, row) => match b {
            Form::Unmet => form_unmet(a),
            Form::Array(other, other_row) => *size == *other && agrees(row.get(), other_row.get()),
            Form::Scalar(_) | Form::Tuple(_) | Form::Record(_, _) => true,
        },
    }
}

#[tactic(auto, using(crate::proofs::Forms::agreeing))]
#[cycle(agree)]
fn all_agree(forms: &[Form], others: &[Form]) -> bool
    ensures { result ≡ all_same_sizes (shapes_held forms.now) (shapes_held others.now) }
{
    for i in 0..forms.len() {
        if i >= others.len() {
            return true;
        }
        if !agrees(&forms[i], &others[i]) {
            return false;
        }
    }
    true
}

/// Whether no product of sizes, from `count` on, is greater than the greatest weight.
#[tactic(auto, using(crate::proofs::Weights::light, crate::proofs::RecordForms::light_records))]
#[cycle(light)]
fn is_flat(count: u64, form: &Form) -> bool
    requires { count ≤ most_words }
    ensures { result ≡ nat_le (heaviest count (shape_held form.now)) most_words }
{
    match form {
        Form::Unmet | Form::Scalar(_) => true,
        Form::Tuple(parts) => are_flat(count, parts.as_slice()),
        Form::Record(_, parts) => are_flat(count, parts.as_slice()),
        Form::Array(size, row) => match count.checked_mul(*size) {
            Some(product) => product <= MOST_WORDS && is_flat(product, row.get()),
            None => false,
        },
    }
}

#[tactic(auto, using(crate::proofs::Weights::light))]
#[cycle(light)]
fn are_flat(count: u64, forms: &[Form]) -> bool
    requires { count ≤ most_words }
    ensures { result ≡ nat_le (heaviest_of count (shapes_held forms.now)) most_words }
{
    for form in forms {
        if !is_flat(count, form) {
            return false;
        }
    }
    true
}

/// How many words data of a form has, or one more than the greatest weight where there are more.
#[tactic(auto, using(crate::proofs::Weights::counted, crate::proofs::RecordForms::counted_records))]
#[cycle(words)]
fn words_of(form: &Form) -> u64
    ensures { result ≡ min (words (shape_held form.now)) 33554433 }
{
    match form {
        Form::Unmet => 0,
        Form::Scalar(_) => 1,
        Form::Tuple(parts) => all_words_of(parts.as_slice()),
        Form::Record(_, parts) => all_words_of(parts.as_slice()),
        Form::Array(size, row) => match size.checked_mul(words_of(row.get())) {
            Some(product) => product.min(MOST_WORDS + 1),
            None => MOST_WORDS + 1,
        },
    }
}

#[tactic(auto, using(crate::proofs::Weights::counted))]
#[cycle(words)]
fn all_words_of(forms: &[Form]) -> u64
    ensures { result ≡ min (all_words (shapes_held forms.now)) 33554433 }
{
    let mut sum = 0;
    for form in forms {
        sum = (sum + words_of(form)).min(MOST_WORDS + 1);
    }
    sum
}

/// Whether the weight of data of a form is no greater than the greatest.
#[tactic(auto, using(crate::proofs::Weights::weighed))]
pub fn is_light(form: &Form) -> bool
    ensures { result ≡ nat_le (weight (shape_held form.now)) most_words }
{
    is_flat(1, form) && words_of(form) <= MOST_WORDS
}
