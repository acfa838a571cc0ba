// Operations on scalars by their bits: `i8 127 + 1` is 128, and `i16 - 1` the negation of 1.
ghost use Rattle.std.specs.Prelude.{◌≡◌, ◌^◌, ◌<◌, IfSome};
ghost use Rattle.fut_scalar.specs.Integers.{FitsType, width_of};
ghost use Rattle.fut_scalar.specs.declared.scalar.ScalarType.TheVariants as sort;
ghost use Rattle.fut_arithmetic.specs.Types.{IsOf, type_of};

use crate::parts::{cut, number_of, text_of};
use crate::rows::Answers;
use fut_arithmetic::{binop, convert, decode_order, decode_word, encode_order, encode_word, unop};
use fut_scalar::{BinOp, IntType, Scalar, ScalarFault, ScalarType, UnOp};
use test_shown::Shown;

/// Answers an operation with the bits of its result.
#[derive(Clone, Copy)]
pub struct Scalars;

impl Answers for Scalars {
    fn answer(&mut self, text: &[u8], shown: &mut Shown) -> (&'static [u8], &'static [u8]) {
        shown.begin(false);
        match result_of(text) {
            Some(Ok(Scalar::Int { ty: _, bits })) => shown.numbered("= ", bits),
            Some(Ok(Scalar::Bool(true))) => shown.push("= true"),
            Some(Ok(Scalar::Bool(false))) => shown.push("= false"),
            Some(Err(ScalarFault::Division)) => shown.push("! division by zero"),
            Some(Err(ScalarFault::Power)) => shown.push("! negative exponent"),
            None => shown.push("! no operation"),
        }
        (b"", b"")
    }
}

fn type_of(word: &[u8]) -> Option<ScalarType> {
    match text_of(word) {
        "i8" => Some(ScalarType::Int(IntType::I8)),
        "i16" => Some(ScalarType::Int(IntType::I16)),
        "i32" => Some(ScalarType::Int(IntType::I32)),
        "i64" => Some(ScalarType::Int(IntType::I64)),
        "u8" => Some(ScalarType::Int(IntType::U8)),
        "u16" => Some(ScalarType::Int(IntType::U16)),
        "u32" => Some(ScalarType::Int(IntType::U32)),
        "u64" => Some(ScalarType::Int(IntType::U64)),
        "bool" => Some(ScalarType::Bool),
        _ => None,
    }
}

/// The highest bits of a type.
fn highest(ty: IntType) -> u64
    ensures { result < 2 ^ width_of ty }
{
    match ty {
        IntType::I8 | IntType::U8 => 0xff,
        IntType::I16 | IntType::U16 => 0xffff,
        IntType::I32 | IntType::U32 => 0xffff_ffff,
        IntType::I64 | IntType::U64 => u64::MAX,
    }
}

/// The scalar that a word spells.
fn scalar_of(ty: ScalarType, word: &[u8]) -> Option<Scalar>
    ensures { IfSome result (IsOf ty) }
{
    match ty {
        ScalarType::Int(ty) => integer_of(ty, word),
        ScalarType::Bool => match text_of(word) {
            "true" => Some(Scalar::Bool(true)),
            "false" => Some(Scalar::Bool(false)),
            _ => None,
        },
    }
}

fn integer_of(ty: IntType, word: &[u8]) -> Option<Scalar>
    ensures { IfSome result (IsOf (sort.Int ty)) }
{
    let bits = number_of(word)?;
    if bits <= highest(ty) {
        Some(Scalar::Int { ty, bits })
    } else {
        None
    }
}

/// The result of an operation that a text spells.
fn result_of(text: &[u8]) -> Option<Result<Scalar, ScalarFault>> {
    let (ty, operation) = cut(text, b' ')?;
    let (first, rest) = cut(operation, b' ')?;
    let ty = type_of(ty)?;
    match unary_of(first) {
        Some(op) => result_of_one(ty, op, rest),
        None => result_of_other(ty, first, rest),
    }
}

fn unary_of(sign: &[u8]) -> Option<UnOp> {
    match text_of(sign) {
        "-" => Some(UnOp::Neg),
        "!" => Some(UnOp::Not),
        "abs" => Some(UnOp::Abs),
        "popc" => Some(UnOp::Popc),
        _ => None,
    }
}

/// The scalar of a word, or the result of what follows a value.
fn result_of_other(
    ty: ScalarType,
    first: &[u8],
    rest: &[u8],
) -> Option<Result<Scalar, ScalarFault>> {
    match text_of(first) {
        "word" => Some(Ok(decode_word(ty, number_of(rest)?))),
        "order" => Some(Ok(decode_order(ty, number_of(rest)?))),
        _ => result_of_value(scalar_of(ty, first)?, ty, rest),
    }
}

fn result_of_one(ty: ScalarType, op: UnOp, word: &[u8]) -> Option<Result<Scalar, ScalarFault>> {
    let value = scalar_of(ty, word)?;
    match (value, op) {
        (Scalar::Int { ty: _, bits: _ }, _) => Some(Ok(unop(op, value))),
        (Scalar::Bool(_), UnOp::Not) => Some(Ok(unop(op, value))),
        _ => None,
    }
}

/// The result of what follows a value.
fn result_of_value(
    value: Scalar,
    ty: ScalarType,
    rest: &[u8],
) -> Option<Result<Scalar, ScalarFault>>
    requires { IsOf ty value }
{
    match text_of(rest) {
        "word" => Some(Ok(number(encode_word(value)))),
        "order" => Some(Ok(number(encode_order(value)))),
        _ => result_of_longer(value, ty, rest),
    }
}

/// The result of a conversion, or of an operator and another value.
fn result_of_longer(
    value: Scalar,
    ty: ScalarType,
    rest: &[u8],
) -> Option<Result<Scalar, ScalarFault>>
    requires { IsOf ty value }
{
    let (sign, word) = cut(rest, b' ')?;
    match operator_of(sign) {
        Some(op) => result_of_two(op, value, scalar_of(ty, word)?),
        None if text_of(sign) == "to" => Some(Ok(convert(type_of(word)?, value))),
        None => None,
    }
}

/// A word as a scalar.
fn number(word: u64) -> Scalar {
    Scalar::Int {
        ty: IntType::U64,
        bits: word,
    }
}

fn result_of_two(op: BinOp, left: Scalar, right: Scalar) -> Option<Result<Scalar, ScalarFault>>
    requires one_type { type_of right ≡ type_of left }
    requires left_fits { FitsType left }
    requires right_fits { FitsType right }
{
    match (left, op) {
        (Scalar::Int { ty: _, bits: _ }, _) => Some(binop(op, left, right)),
        (Scalar::Bool(_), BinOp::Eq) => Some(binop(op, left, right)),
        (Scalar::Bool(_), BinOp::Ne) => Some(binop(op, left, right)),
        _ => None,
    }
}

fn operator_of(sign: &[u8]) -> Option<BinOp> {
    match sign {
        b"+" => Some(BinOp::Add),
        b"-" => Some(BinOp::Sub),
        b"*" => Some(BinOp::Mul),
        b"/" => Some(BinOp::Div),
        b"%" => Some(BinOp::Mod),
        b"//" => Some(BinOp::Quot),
        b"%%" => Some(BinOp::Rem),
        b"**" => Some(BinOp::Pow),
        b"&" => Some(BinOp::And),
        b"|" => Some(BinOp::Or),
        b"^" => Some(BinOp::Xor),
        b"<<" => Some(BinOp::Shl),
        b">>" => Some(BinOp::Shr),
        b"==" => Some(BinOp::Eq),
        b"!=" => Some(BinOp::Ne),
        b"<" => Some(BinOp::Lt),
        b"<=" => Some(BinOp::Le),
        b">" => Some(BinOp::Gt),
        b">=" => Some(BinOp::Ge),
        b"min" => Some(BinOp::Min),
        b"max" => Some(BinOp::Max),
        _ => None,
    }
}
