// Spelled values as values of a wanted type.
ghost use Rattle.std.specs.Prelude.{◌≡◌, ◌+◌, ◌<◌, ◌^◌, pos, neg_ℤ, IfOk, IfSome};
ghost use Rattle.fut_scalar.specs.Integers.{width_of};
ghost use Rattle.fut_scalar.specs.declared.scalar.ScalarType.TheVariants as sort;
ghost use Rattle.fut_arithmetic.specs.Types.{IsOf};
ghost use Rattle.fut_arithmetic.specs.Words.{below_zero_count};
ghost use Rattle.value_text.specs.Reading.{may_be, signed, type_number, value_as, value_in};

use crate::reading::TextErr;
use crate::spelled::Form;
use fut_scalar::{IntType, Scalar, ScalarType};

/// How many integers of a type are below zero.
fn below_zero_count(ty: IntType) -> u64
    ensures value { result ≡ below_zero_count ty }
    ensures half { result < 2 ^ width_of ty }
{
    match ty {
        IntType::I8 => 0x80,
        IntType::I16 => 0x8000,
        IntType::I32 => 0x8000_0000,
        IntType::I64 => 0x8000_0000_0000_0000,
        IntType::U8 | IntType::U16 | IntType::U32 | IntType::U64 => 0,
    }
}

/// The greatest bits of a type.
fn all_bits(ty: IntType) -> u64
    ensures { result + 1 ≡ 2 ^ width_of ty }
{
    match ty {
        IntType::I8 | IntType::U8 => 0xff,
        IntType::I16 | IntType::U16 => 0xffff,
        IntType::I32 | IntType::U32 => 0xffff_ffff,
        IntType::I64 | IntType::U64 => 0xffff_ffff_ffff_ffff,
    }
}

/// The value of a type that stands for this integer, where it has one.
#[tactic(auto, using(crate::proofs::Integers::from_zero))]
fn from_zero(ty: IntType, magnitude: u64) -> Option<Scalar>
    ensures value { result ≡ value_in ty (pos magnitude) }
    ensures typed { IfSome result (IsOf (sort.Int ty)) }
{
    let all = all_bits(ty);
    let below = below_zero_count(ty);
    if magnitude > all - below {
        None
    } else {
        Some(Scalar::Int {
            ty,
            bits: magnitude,
        })
    }
}

/// The value of a type that stands for this integer with a `-` before it, where it has one.
#[tactic(auto, using(crate::proofs::Integers::below_zero))]
fn below_zero(ty: IntType, magnitude: u64) -> Option<Scalar>
    ensures value { result ≡ value_in ty (neg_ℤ (pos magnitude)) }
    ensures typed { IfSome result (IsOf (sort.Int ty)) }
{
    if magnitude == 0 {
        return from_zero(ty, 0);
    }
    let turned = magnitude - 1;
    let all = all_bits(ty);
    if turned >= below_zero_count(ty) {
        None
    } else {
        Some(Scalar::Int {
            ty,
            bits: all - turned,
        })
    }
}

/// The value of a type that stands for the integer of this sign and size, where it has one.
fn value_in(ty: IntType, negative: bool, magnitude: u64) -> Option<Scalar>
    ensures value { result ≡ value_in ty (signed negative magnitude) }
    ensures typed { IfSome result (IsOf (sort.Int ty)) }
{
    if negative {
        below_zero(ty, magnitude)
    } else {
        from_zero(ty, magnitude)
    }
}

pub fn type_number(ty: IntType) -> u8
    ensures { result ≡ type_number ty }
{
    match ty {
        IntType::I8 => 0,
        IntType::I16 => 1,
        IntType::I32 => 2,
        IntType::I64 => 3,
        IntType::U8 => 4,
        IntType::U16 => 5,
        IntType::U32 => 6,
        IntType::U64 => 7,
    }
}

/// Whether an integer with this behind it may be of the type.
fn may_be(ty: IntType, suffix: Option<IntType>) -> bool
    ensures { result ≡ may_be ty suffix }
{
    match suffix {
        None => true,
        Some(named) => type_number(ty) == type_number(named),
    }
}

/// The value of the wanted type that a spelling at this position gives.
pub fn value_as(ty: ScalarType, position: u64, form: Form) -> Result<Scalar, TextErr>
    ensures value { result ≡ value_as ty position form }
    ensures typed { IfOk result (IsOf ty) }
{
    match (ty, form) {
        (
            ScalarType::Int(ty),
            Form::Integer {
                negative,
                magnitude,
                suffix,
            },
        ) => {
            if !may_be(ty, suffix) {
                return Err(TextErr::WrongType { at: position });
            }
            match value_in(ty, negative, magnitude) {
                Some(value) => Ok(value),
                None => Err(TextErr::OutOfRange { at: position }),
            }
        }
        (ScalarType::Bool, Form::Truth(b)) => Ok(Scalar::Bool(b)),
        _ => Err(TextErr::WrongType { at: position }),
    }
}
