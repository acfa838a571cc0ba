// Operations on scalars that are held as words.
ghost use Rattle.std.specs.Prelude.{◌≡◌, ◌<◌, ◌≤◌, ◌^◌, true, Some, None};
ghost use Rattle.fut_scalar.specs.Integers.{integer_of, width_of};
ghost use Rattle.fut_scalar.specs.Reports.{kind_of};
ghost use Rattle.fut_meaning.specs.Operations.{report};
ghost use Rattle.fut_arithmetic.specs.Types.{IsDefined, IsDefinedOfOne, type_of};
ghost use Rattle.fut_arithmetic.specs.Words.{scalar_of_word, word_of};
ghost use Rattle.fut_blocks.specs.Meaning.{fitted};
ghost use Rattle.fut_meaning.specs.Accessors.{count_of};
ghost use Rattle.core_code.specs.Answers.{Binary_told, Converts, Unary_told, asked};

use crate::stop::Stop;
use fut_arithmetic::{binop, convert, decode_word, encode_word, unop};
use fut_scalar::{BinOp, IntType, Place, Report, Scalar, ScalarFault, ScalarType, UnOp, fail_kind};

pub fn type_of(scalar: Scalar) -> ScalarType
    ensures { result ≡ type_of scalar }
{
    match scalar {
        Scalar::Int { ty, bits: _ } => ScalarType::Int(ty),
        Scalar::Bool(_) => ScalarType::Bool,
    }
}

/// The word of a constant, of whose bits the lowest count.
#[tactic(auto, using(crate::proofs::ScalarWords::constants))]
pub fn constant(scalar: Scalar) -> u64
    ensures { result ≡ word_of (fitted scalar) }
{
    encode_word(decode_word(type_of(scalar), encode_word(scalar)))
}

/// Whether an operation is defined on a type.
#[tactic(auto, using(crate::proofs::ScalarWords::definitions))]
fn is_defined(op: BinOp, ty: ScalarType) -> bool
    ensures { result ≡ true → IsDefined op ty }
{
    match ty {
        ScalarType::Int(_) => true,
        ScalarType::Bool => matches!(op, BinOp::Eq | BinOp::Ne),
    }
}

/// The operation on two words of a type.
#[tactic(auto, using(crate::proofs::ScalarWords::binaries))]
pub fn binary_word(
    op: BinOp,
    place: Place,
    ty: ScalarType,
    left: u64,
    right: u64,
) -> Result<u64, Stop>
    ensures { Binary_told op place ty left right result }
{
    if !is_defined(op, ty) {
        return Err(Stop::Memory);
    }
    match binop(op, decode_word(ty, left), decode_word(ty, right)) {
        Ok(value) => Ok(encode_word(value)),
        Err(fault) => Err(Stop::Failed(report_of(fault, place))),
    }
}

/// Whether an operation on one operand is defined on a type.
#[tactic(auto, using(crate::proofs::ScalarWords::definitions))]
fn is_defined_of_one(op: UnOp, ty: ScalarType) -> bool
    ensures { result ≡ true → IsDefinedOfOne op ty }
{
    match ty {
        ScalarType::Int(_) => true,
        ScalarType::Bool => matches!(op, UnOp::Not),
    }
}

/// The operation on a word of a type.
#[tactic(auto, using(crate::proofs::ScalarWords::unaries))]
pub fn unary_word(op: UnOp, ty: ScalarType, word: u64) -> Result<u64, Stop>
    ensures { Unary_told op ty word result }
{
    if !is_defined_of_one(op, ty) {
        return Err(Stop::Memory);
    }
    Ok(encode_word(unop(op, decode_word(ty, word))))
}

/// A word of one type as a word of another.
#[tactic(auto, using(crate::proofs::ScalarWords::conversions))]
pub fn convert_word(to: ScalarType, ty: ScalarType, word: u64) -> u64
    ensures { Converts to ty word result }
{
    encode_word(convert(to, decode_word(ty, word)))
}

/// Whether a word is below 2 to the width of a type.
pub fn fits(ty: IntType, word: u64) -> bool
    ensures { result ≡ true → word < 2 ^ width_of ty }
{
    match ty {
        IntType::I8 | IntType::U8 => word < 0x100,
        IntType::I16 | IntType::U16 => word < 0x1_0000,
        IntType::I32 | IntType::U32 => word < 0x1_0000_0000,
        IntType::I64 | IntType::U64 => true,
    }
}

/// The report of an operation that has no result.
fn report_of(fault: ScalarFault, place: Place) -> Report
    ensures { result ≡ report (kind_of fault) place }
{
    Report {
        kind: fail_kind(fault),
        place,
    }
}

/// The bits where they are below a limit, and else 0.
fn up_to(limit: u64, bits: u64) -> u64
    ensures low { bits < limit → result ≡ bits }
    ensures high { limit ≤ bits → result ≡ 0 }
{
    if bits < limit { bits } else { 0 }
}

/// As many as an integer says; one below 0 says none.
pub fn count_of(ty: IntType, bits: u64) -> u64
    requires { bits < 2 ^ width_of ty }
    ensures value { result ≡ count_of (integer_of ty bits) }
    ensures fits { result < 2 ^ width_of ty }
{
    match ty {
        IntType::I8 => up_to(0x80, bits),
        IntType::I16 => up_to(0x8000, bits),
        IntType::I32 => up_to(0x8000_0000, bits),
        IntType::I64 => up_to(0x8000_0000_0000_0000, bits),
        IntType::U8 | IntType::U16 | IntType::U32 | IntType::U64 => bits,
    }
}

/// The low bits of a word, as many as a type has.
pub fn low_bits(ty: ScalarType, word: u64) -> u64
    ensures { result ≡ word_of (scalar_of_word ty word) }
{
    encode_word(decode_word(ty, word))
}

/// The size that an integer asks for, and none where it is below 0.
pub fn asked(ty: IntType, bits: u64) -> Option<u64>
    requires { bits < 2 ^ width_of ty }
    ensures { result ≡ asked (integer_of ty bits) }
{
    match ty {
        IntType::I8 => below(0x80, bits),
        IntType::I16 => below(0x8000, bits),
        IntType::I32 => below(0x8000_0000, bits),
        IntType::I64 => below(0x8000_0000_0000_0000, bits),
        IntType::U8 | IntType::U16 | IntType::U32 | IntType::U64 => Some(bits),
    }
}

/// The bits where they are below a limit.
fn below(limit: u64, bits: u64) -> Option<u64>
    ensures low { bits < limit → result ≡ Some bits }
    ensures high { limit ≤ bits → result ≡ None }
{
    if bits < limit { Some(bits) } else { None }
}
