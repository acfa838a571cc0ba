// The text of arrays.
ghost use Rattle.std.specs.Prelude.{◌≡◌, ◌++◌, ◌<◌, ◌*◌, ◌/◌, All, false, codes, decimal, flat_map, length, map, IfOk, OnOk};
ghost use Rattle.fut_value.specs.Values.{IsWellFormed, cut, datum_of, datum_with, product, shape_in, shape_with};
ghost use Rattle.value_text.specs.Printing.{data_line, data_output, data_text, empty_text, sizes_text, type_text};
ghost use Rattle.value_text.specs.Written.{has_zero};
ghost use Rattle.value_text.specs.FlatText.{array_text, bracketed, joined, other_row};

use crate::printing::{put_decimal, put_scalar};
use crate::words::name_of;
use crate::written::has_zero;
use fut_arithmetic::decode_word;
use fut_scalar::{NoMemory, ScalarType};
use fut_value::{Shape, Value};
use std::alloc::Global;

/// Puts sizes in brackets behind a text.
fn put_sizes(text: &mut Vec<u8>, sizes: &[u64]) -> Result<(), NoMemory>
    ensures { OnOk result (text.new.items ≡ text.old.items ++ flat_map bracketed sizes.now) }
{
    for size in sizes {
        text.extend_from_slice(b"[")?;
        put_decimal(text, *size)?;
        text.extend_from_slice(b"]")?;
    }
    Ok(())
}

fn put_type(text: &mut Vec<u8>, ty: ScalarType) -> Result<(), NoMemory>
    ensures { OnOk result (text.new.items ≡ text.old.items ++ type_text ty) }
{
    match ty {
        ScalarType::Int(ty) => text.extend_from_slice(name_of(ty))?,
        ScalarType::Bool => text.extend_from_slice(b"bool")?,
    }
    Ok(())
}

/// Puts an array that has no scalar behind a text.
#[tactic(auto, using(crate::proofs::Printed::empties))]
fn put_empty(text: &mut Vec<u8>, shape: &Shape) -> Result<(), NoMemory>
    ensures { OnOk result (text.new.items ≡ text.old.items ++ empty_text (shape_in shape.now)) }
{
    text.extend_from_slice(b"empty(")?;
    put_sizes(text, shape.sizes.as_slice())?;
    put_type(text, shape.elem)?;
    text.extend_from_slice(b")")?;
    Ok(())
}

/// How many words a row has, of so many rows of these sizes.
#[tactic(auto, using(crate::proofs::Printed::row_words))]
fn row_words(count: u64, sizes: &[u64], words: &[u64]) -> usize
    requires some { 0 < count }
    requires long { length words.now ≡ count * product sizes.now }
    ensures { result ≡ product sizes.now }
{
    words.len() / (count as usize)
}

/// Puts rows of these sizes behind a text and another row, each with a comma before it.
#[cycle(rows)]
#[tactic(auto, using(crate::proofs::Printed::others_go))]
fn put_others(
    text: &mut Vec<u8>,
    ty: ScalarType,
    count: u64,
    row_words: usize,
    sizes: &[u64],
    words: &[u64],
) -> Result<(), NoMemory>
    requires some { has_zero sizes.now ≡ false }
    requires long { length words.now ≡ count * row_words }
    requires row { row_words ≡ product sizes.now }
    ensures { OnOk result (text.new.items ≡ text.old.items ++ flat_map (other_row (array_text ty sizes.now)) (cut count row_words words.now)) }
{
    let mut rest = words;
    for turn in 0..count {
        let (row, more) = rest.split_at(row_words);
        text.extend_from_slice(b", ")?;
        put_data(text, ty, sizes, row)?;
        rest = more;
    }
    Ok(())
}

/// Puts rows, at least one, of these sizes behind a text.
#[cycle(rows)]
#[tactic(auto, using(crate::proofs::Printed::rows_go))]
fn put_rows(
    text: &mut Vec<u8>,
    ty: ScalarType,
    count: u64,
    sizes: &[u64],
    words: &[u64],
) -> Result<(), NoMemory>
    requires rows { 0 < count }
    requires some { has_zero sizes.now ≡ false }
    requires long { length words.now ≡ count * product sizes.now }
    ensures { OnOk result (text.new.items ≡ text.old.items ++ joined (array_text ty sizes.now) (cut count (product sizes.now) words.now)) }
{
    let row_words = row_words(count, sizes, words);
    let (row, more) = words.split_at(row_words);
    put_data(text, ty, sizes, row)?;
    put_others(text, ty, count - 1, row_words, sizes, more)
}

/// Puts a value of these sizes, none of which is 0, behind a text.
#[cycle(rows)]
#[tactic(auto, using(crate::proofs::Printed::data_goes))]
fn put_data(
    text: &mut Vec<u8>,
    ty: ScalarType,
    sizes: &[u64],
    words: &[u64],
) -> Result<(), NoMemory>
    requires some { has_zero sizes.now ≡ false }
    requires long { length words.now ≡ product sizes.now }
    ensures { OnOk result (text.new.items ≡ text.old.items ++ array_text ty sizes.now words.now) }
{
    match sizes {
        [] => match words {
            [] => Ok(()),
            [word, ..] => put_scalar(text, decode_word(ty, *word)),
        },
        [count, row_sizes @ ..] => {
            text.extend_from_slice(b"[")?;
            put_rows(text, ty, *count, row_sizes, words)?;
            text.extend_from_slice(b"]")?;
            Ok(())
        }
    }
}

/// Puts the text of a value behind a text.
#[tactic(auto, using(crate::proofs::Printed::texts))]
fn put_value(text: &mut Vec<u8>, value: &Value) -> Result<(), NoMemory>
    requires { IsWellFormed value.now }
    ensures { OnOk result (text.new.items ≡ text.old.items ++ data_text (datum_of value.now)) }
{
    let sizes = value.shape.sizes.as_slice();
    if has_zero(sizes) {
        put_empty(text, &value.shape)
    } else {
        put_data(text, value.shape.elem, sizes, value.words.as_slice())
    }
}

/// The text of a value, without a newline: an integer in decimal with its type behind it, a truth value, an array as its rows
/// in brackets, or, where a size is 0, as `empty(..)` with its sizes.
pub fn print_value(alloc: Global, value: &Value) -> Result<Vec<u8>, NoMemory>
    requires { IsWellFormed value.now }
    ensures { IfOk result (λ text. text.items ≡ data_text (datum_of value.now)) }
{
    let mut text = Vec::new(alloc);
    put_value(&mut text, value)?;
    Ok(text)
}

/// A line for each value: the output of a run, for the components of its result.
pub fn print_values(alloc: Global, values: &[Value]) -> Result<Vec<u8>, NoMemory>
    requires { All IsWellFormed values.now }
    ensures { IfOk result (λ text. text.items ≡ data_output (map datum_of values.now)) }
{
    let mut text = Vec::new(alloc);
    for value in values {
        put_line(&mut text, value)?;
    }
    Ok(text)
}

/// Puts a line with the text of a value behind a text.
fn put_line(text: &mut Vec<u8>, value: &Value) -> Result<(), NoMemory>
    requires { IsWellFormed value.now }
    ensures { OnOk result (text.new.items ≡ text.old.items ++ data_line (datum_of value.now)) }
{
    put_value(text, value)?;
    text.extend_from_slice(b"\n")?;
    Ok(())
}
