// Values as data.
ghost use Rattle.std.specs.Prelude.{◌≡◌, ◌∷◌, ◌*◌, All, IfOk, IfSome, map};
ghost use Rattle.fut_value.specs.Values.{IsWellFormed, datum_of, datum_with, product, shape_with};
ghost use Rattle.array_data.specs.Held.{held, held_all, shape_held};

use array_data::{Built, Data, Form, Handle, untested};
use fut_arithmetic::decode_word;
use fut_scalar::{List, NoMemory, ScalarType, Shared};
use fut_value::{Shape, Value};
use std::alloc::Global;

/// How many scalars an array of these sizes has, where a machine counts them.
fn product(sizes: &[u64]) -> Option<usize>
    ensures { IfSome result (λ n. n ≡ product sizes.now) }
{
    match sizes {
        [] => Some(1),
        [size, rest @ ..] => {
            let size = usize::try_from(*size).ok()?;
            size.checked_mul(product(rest)?)
        }
    }
}

/// What data of these sizes looks like.
#[tactic(auto, using(crate::proofs::Shapes::shaping))]
fn form_with(alloc: Global, elem: ScalarType, sizes: &[u64]) -> Result<Form, NoMemory>
    ensures { IfOk result (λ form. shape_held form ≡ shape_with elem sizes.now) }
{
    match sizes {
        [] => Ok(Form::Scalar(elem)),
        [size, rest @ ..] => {
            let row = Shared::new(alloc, form_with(alloc, elem, rest)?)?;
            Ok(Form::Array(*size, row))
        }
    }
}

/// The data of these sizes and words. The words of a row of scalars are copied at once.
#[tactic(auto, using(crate::proofs::FromValues::parts_taken))]
#[cycle(parts)]
fn data_with(
    alloc: Global,
    elem: ScalarType,
    sizes: &[u64],
    words: &[u64],
) -> Result<Data, NoMemory>
    ensures { IfOk result (λ whole. held whole ≡ datum_with elem sizes.now words.now) }
{
    match sizes {
        [] => match words {
            [word, ..] => Ok(Data::Scalar(decode_word(elem, *word))),
            [] => Ok(Data::Scalar(decode_word(elem, 0))),
        },
        [count] if words.len() as u64 == *count => {
            let words = List::from_slice(alloc, words)?;
            Ok(Data::Words(elem, Handle::new(alloc, words)?))
        }
        [count, rest @ ..] => rows_with(alloc, elem, *count, rest, words),
    }
}

/// The array of so many rows of these sizes.
#[cycle(parts)]
fn rows_with(
    alloc: Global,
    elem: ScalarType,
    count: u64,
    sizes: &[u64],
    words: &[u64],
) -> Result<Data, NoMemory>
    ensures { IfOk result (λ whole. held whole ≡ datum_with elem (count ∷ sizes.now) words.now) }
{
    let form = Shared::new(alloc, form_with(alloc, elem, sizes)?)?;
    let Some(length) = product(sizes) else {
        return Err(NoMemory);
    };
    let mut built = Built::new(alloc);
    let mut rest = words;
    for _ in 0..count {
        let (row, after) = rest.split_at(length.min(rest.len()));
        let Ok(()) = built.push(data_with(alloc, elem, sizes, row)?) else {
            return Err(NoMemory);
        };
        rest = after;
    }
    untested(alloc, form, 0, built)
}

/// A value as data. The words of an array of one dimension are taken over.
#[tactic(auto, using(crate::proofs::FromValues::words_taken))]
pub fn data_of(alloc: Global, value: Value) -> Result<Data, NoMemory>
    requires { IsWellFormed value }
    ensures { IfOk result (λ whole. held whole ≡ datum_of value) }
{
    let Value { shape, words } = value;
    let Shape { elem, sizes } = shape;
    if sizes.len() == 1 {
        return Ok(Data::Words(elem, Handle::new(alloc, words)?));
    }
    data_with(alloc, elem, sizes.as_slice(), words.as_slice())
}

/// Values as data, in their order.
pub fn data_of_all(alloc: Global, values: List<Value>) -> Result<List<Data>, NoMemory>
    requires { All IsWellFormed values }
    ensures { IfOk result (λ all. held_all all ≡ map datum_of values) }
{
    let mut all = List::new(alloc);
    for value in values.into_vec() {
        all.push(data_of(alloc, value)?)?;
    }
    Ok(all)
}
