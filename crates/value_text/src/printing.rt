// The text of values.
ghost use Rattle.std.specs.Prelude.{◌≡◌, ◌++◌, All, IfOk, OnOk};
ghost use Rattle.std.specs.Fmt.{signed_decimal};
ghost use Rattle.fut_scalar.specs.Integers.{FitsType, integer_of};
ghost use Rattle.fut_scalar.specs.declared.scalar.Scalar.TheVariants as scalar;
ghost use Rattle.value_text.specs.Printing.{line_of, output_of, text_of};

use crate::words::name_of;
use fut_scalar::{IntType, NoMemory, Scalar};
use itoa::{Buffer, Integer};
use std::alloc::Global;

/// Puts the decimal digits of an integer behind a text.
pub fn put_decimal<I: Integer>(text: &mut Vec<u8>, integer: I) -> Result<(), NoMemory>
    ensures { OnOk result (text.new.items ≡ text.old.items ++ I.text integer) }
{
    let mut buffer = Buffer::new();
    text.extend_from_slice(buffer.format(integer).as_bytes())?;
    Ok(())
}

/// Puts an integer in decimal behind a text.
fn put_integer(text: &mut Vec<u8>, ty: IntType, bits: u64) -> Result<(), NoMemory>
    requires { FitsType (scalar.Int ty bits) }
    ensures { OnOk result (text.new.items ≡ text.old.items ++ signed_decimal (integer_of ty bits)) }
{
    match ty {
        IntType::I8 => put_decimal(text, (bits as u8).cast_signed()),
        IntType::I16 => put_decimal(text, (bits as u16).cast_signed()),
        IntType::I32 => put_decimal(text, (bits as u32).cast_signed()),
        IntType::I64 => put_decimal(text, bits.cast_signed()),
        IntType::U8 | IntType::U16 | IntType::U32 | IntType::U64 => put_decimal(text, bits),
    }
}

/// Puts the text of a value behind a text.
pub fn put_scalar(text: &mut Vec<u8>, value: Scalar) -> Result<(), NoMemory>
    requires { FitsType value }
    ensures { OnOk result (text.new.items ≡ text.old.items ++ text_of value) }
{
    match value {
        Scalar::Int { ty, bits } => {
            put_integer(text, ty, bits)?;
            text.extend_from_slice(name_of(ty))?;
        }
        Scalar::Bool(true) => text.extend_from_slice(b"true")?,
        Scalar::Bool(false) => text.extend_from_slice(b"false")?,
    }
    Ok(())
}

/// Puts a line with the text of a value behind a text.
fn put_line(text: &mut Vec<u8>, value: Scalar) -> Result<(), NoMemory>
    requires { FitsType value }
    ensures { OnOk result (text.new.items ≡ text.old.items ++ line_of value) }
{
    put_scalar(text, value)?;
    text.extend_from_slice(b"\n")?;
    Ok(())
}

/// A line for each value: the output of a run, for the components of its result.
pub fn print_scalars(alloc: Global, values: &[Scalar]) -> Result<Vec<u8>, NoMemory>
    requires { All FitsType values.now }
    ensures { IfOk result (λ text. text.items ≡ output_of values.now) }
{
    let mut text = Vec::new(alloc);
    for value in values {
        put_line(&mut text, *value)?;
    }
    Ok(text)
}
