// Data as values.
ghost use Rattle.std.specs.Prelude.{◌≡◌, ◌<◌, ◌^◌, ◌++◌, [], ◌∷◌, All, IfOk, OnOk, true, length, map};
ghost use Rattle.fut_arithmetic.specs.Types.{type_of};
ghost use Rattle.fut_value.specs.Values.{IsWellFormed, datum_of};
ghost use Rattle.array_data.specs.Held.{held, held_all, shape_held};
ghost use Rattle.array_data.specs.declared.data.Data.TheVariants as data_is;
ghost use Rattle.data_values.specs.Met.{IsLevel, each_met, met, sizes_in};
ghost use Rattle.data_values.specs.Put.{Rows_put, Words_put, row_datum};

use array_data::{Data, Form, fitted};
use fut_arithmetic::{decode_word, encode_word};
use fut_scalar::{DataType, List, NoMemory, Scalar, ScalarType};
use fut_value::{Shape, Value};
use std::alloc::Global;

/// The type of a scalar.
fn sort_of(scalar: Scalar) -> ScalarType
    ensures { result ≡ type_of scalar }
{
    match scalar {
        Scalar::Int { ty, bits: _ } => ScalarType::Int(ty),
        Scalar::Bool(_) => ScalarType::Bool,
    }
}

/// The size of a form's outermost level, and the form below it. A form that is no array's has rows that nothing has given.
#[tactic(auto, using(crate::proofs::FromData::levels))]
fn level(form: &Form) -> (u64, &Form)
    ensures { IsLevel (shape_held form.now) result.0 (shape_held result.1.now) }
{
    match form {
        Form::Array(size, row) => (*size, row.get()),
        Form::Unmet | Form::Scalar(_) | Form::Tuple(_) | Form::Record(_, _) => (0, form),
    }
}

/// Puts the sizes of so many levels of a form behind others.
fn put_sizes(form: &Form, rank: u32, sizes: &mut List<u64>) -> Result<(), NoMemory>
    ensures { OnOk result (sizes.new ≡ sizes.old ++ sizes_in rank (shape_held form.now)) }
{
    let mut rest = form;
    for _ in 0..rank {
        let (size, below) = level(rest);
        sizes.push(size)?;
        rest = below;
    }
    Ok(())
}

/// Whether these are the sizes of a form's levels.
fn has_sizes(form: &Form, sizes: &[u64]) -> bool
    ensures { result ≡ true → sizes_in (length sizes.now) (shape_held form.now) ≡ sizes.now }
{
    let mut rest = form;
    for size in sizes {
        let (own, below) = level(rest);
        if own != *size {
            return false;
        }
        rest = below;
    }
    true
}

/// Puts the word of a scalar behind others.
fn put_scalar(scalar: Scalar, elem: ScalarType, words: &mut List<u64>) -> Result<(), NoMemory>
    ensures { OnOk result (Words_put elem [] (held (data_is.Scalar scalar)) words.old words.new) }
{
    let scalar = fitted(scalar);
    if sort_of(scalar) != elem {
        return Err(NoMemory);
    }
    words.push(encode_word(scalar))
}

/// Puts the words of scalars of a type behind others, each as few bits as the type has.
fn put_row(elem: ScalarType, row: &[u64], words: &mut List<u64>) -> Result<(), NoMemory>
    ensures { OnOk result (Words_put elem (length row.now ∷ []) (row_datum elem row.now) words.old words.new) }
{
    for word in row {
        words.push(encode_word(decode_word(elem, *word)))?;
    }
    Ok(())
}

/// Puts the words of data of these sizes behind others. Data of other sizes has no value of its type: it is answered by want
/// of memory, and never comes.
#[cycle(giving)]
fn put_data(
    whole: &Data,
    elem: ScalarType,
    sizes: &[u64],
    words: &mut List<u64>,
) -> Result<(), NoMemory>
    ensures { OnOk result (Words_put elem sizes.now (held whole.now) words.old words.new) }
{
    match (whole, sizes) {
        (Data::Scalar(scalar), []) => put_scalar(*scalar, elem, words),
        (Data::Words(ty, row), [size]) => {
            let row = row.get().as_slice();
            if *ty != elem || row.len() as u64 != *size {
                return Err(NoMemory);
            }
            put_row(elem, row, words)
        }
        (Data::Rows(_, form, rows), [size, rest @ ..]) => {
            let rows = rows.get().as_slice();
            if rows.len() as u64 != *size || !has_sizes(form.get(), rest) {
                return Err(NoMemory);
            }
            put_rows(rows, elem, rest, words)
        }
        _ => Err(NoMemory),
    }
}

/// Puts the words of each row behind others.
#[cycle(giving)]
fn put_rows(
    rows: &[Data],
    elem: ScalarType,
    sizes: &[u64],
    words: &mut List<u64>,
) -> Result<(), NoMemory>
    ensures { OnOk result (Rows_put elem sizes.now (held_all rows.now) words.old words.new) }
{
    for row in rows {
        put_data(row, elem, sizes, words)?;
    }
    Ok(())
}

/// The sizes of data of so many levels.
fn sizes_of(alloc: Global, whole: &Data, rank: u32) -> Result<List<u64>, NoMemory>
    ensures { IfOk result (λ sizes. length sizes ≡ rank) }
{
    let mut sizes = List::new(alloc);
    match whole {
        Data::Scalar(_) if rank == 0 => Ok(sizes),
        Data::Words(_, words) if rank == 1 => {
            sizes.push(words.get().len() as u64)?;
            Ok(sizes)
        }
        Data::Rows(_, form, rows) if rank > 0 => {
            sizes.push(rows.get().len() as u64)?;
            put_sizes(form.get(), rank - 1, &mut sizes)?;
            Ok(sizes)
        }
        _ => Err(NoMemory),
    }
}

/// Whether each size is below 2^63.
fn are_low(sizes: &[u64]) -> bool
    ensures { result ≡ true → All (λ n. n < 2 ^ 63) sizes.now }
{
    sizes.iter().all(|size| *size < 0x8000_0000_0000_0000)
}

/// Data of a type as a value.
pub fn value_of(alloc: Global, whole: &Data, ty: DataType) -> Result<Value, NoMemory>
    ensures same { IfOk result (λ value. datum_of value ≡ met ty.elem ty.rank (held whole.now)) }
    ensures typed { IfOk result (λ value. (value.shape.elem ≡ ty.elem) × (length value.shape.sizes ≡ ty.rank)) }
    ensures formed { IfOk result IsWellFormed }
{
    let sizes = sizes_of(alloc, whole, ty.rank)?;
    if !are_low(sizes.as_slice()) {
        return Err(NoMemory);
    }
    let mut words = List::new(alloc);
    put_data(whole, ty.elem, sizes.as_slice(), &mut words)?;
    let shape = Shape {
        elem: ty.elem,
        sizes,
    };
    Ok(Value { shape, words })
}

/// Components of a result as values, each of its type.
pub fn values_of(
    alloc: Global,
    types: &[DataType],
    components: &[Data],
) -> Result<List<Value>, NoMemory>
    ensures same { IfOk result (λ values. map datum_of values ≡ each_met types.now (held_all components.now)) }
    ensures formed { IfOk result (All IsWellFormed) }
{
    let mut values = List::new(alloc);
    let mut rest = components;
    for ty in types {
        let [whole, others @ ..] = rest else {
            return Ok(values);
        };
        values.push(value_of(alloc, whole, *ty)?)?;
        rest = others;
    }
    Ok(values)
}
