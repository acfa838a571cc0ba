// Integers without a sign.
ghost use Rattle.std.specs.Prelude.{◌≡◌, ◌≤◌, ◌+◌, ◌*◌, ◌^◌, length, IfOk, IfErr, IfSome, IfNone};
ghost use Rattle.value_text.specs.Numbers.{base_at, digit_of, ends_in_underscore, is_digit_of, is_in_number, number_at, number_len, number_on, prefix_of, radix, starts_digit};

use crate::words::is_digit;

/// What an integer's digits count in.
#[derive(Clone, Copy)]
pub enum Base {
    Decimal,
    Hexadecimal,
    Binary,
}

/// An integer, and how many bytes its digits take.
#[derive(Clone, Copy)]
pub struct Number {
    pub value: u64,
    pub length: usize,
}

fn radix(base: Base) -> u64
    ensures { result ≡ radix base }
{
    match base {
        Base::Decimal => 10,
        Base::Hexadecimal => 16,
        Base::Binary => 2,
    }
}

/// How many bytes stand before the digits.
pub fn prefix_of(base: Base) -> usize
    ensures { result ≡ prefix_of base }
{
    match base {
        Base::Decimal => 0,
        Base::Hexadecimal | Base::Binary => 2,
    }
}

/// The base of the integer at the front. What stands before its digits is there.
pub fn base_at(text: &[u8]) -> Base
    ensures value { result ≡ base_at text.now }
    ensures within { prefix_of result ≤ length text.now }
{
    match text {
        [zero, letter, ..] => {
            if *zero == b'0' && *letter == b'x' {
                Base::Hexadecimal
            } else if *zero == b'0' && *letter == b'b' {
                Base::Binary
            } else {
                Base::Decimal
            }
        }
        _ => Base::Decimal,
    }
}

fn is_digit_of(base: Base, byte: u8) -> bool
    ensures { result ≡ is_digit_of base byte }
{
    match base {
        Base::Decimal => is_digit(byte),
        Base::Hexadecimal => {
            is_digit(byte) || (b'a' <= byte && byte <= b'f') || (b'A' <= byte && byte <= b'F')
        }
        Base::Binary => byte == b'0' || byte == b'1',
    }
}

fn is_in_number(base: Base, byte: u8) -> bool
    ensures { result ≡ is_in_number base byte }
{
    is_digit_of(base, byte) || byte == b'_'
}

/// How many digits and underscores stand at the front.
#[tactic(auto, using(crate::proofs::Between::prefix_within), unfolding(crate::specs::Numbers::number_len))]
fn number_len(base: Base, text: &[u8]) -> usize
    ensures value { result ≡ number_len base text.now }
    ensures within { result ≤ length text.now }
{
    text.iter()
        .take_while(|byte| is_in_number(base, **byte))
        .count()
}

fn digit_of(byte: u8) -> u64
    ensures { result ≡ digit_of byte }
{
    let code = u64::from(byte);
    if code <= 57 {
        code.saturating_sub(48)
    } else if code <= 70 {
        code.saturating_sub(55)
    } else {
        code.saturating_sub(87)
    }
}

/// The value of a number with a digit behind it.
fn with_digit(base: Base, value: u64, byte: u8) -> Option<u64>
    ensures some { IfSome result (λ next. next ≡ radix base * value + digit_of byte) }
    ensures none { IfNone result (2 ^ 64 ≤ radix base * value + digit_of byte) }
{
    match radix(base).checked_mul(value) {
        Some(shifted) => shifted.checked_add(digit_of(byte)),
        None => None,
    }
}

/// The value of digits, or the position of the first digit with which it reaches 2^64.
#[tactic(auto)]
pub fn value_of(base: Base, digits: &[u8], position: usize) -> Result<u64, usize>
    requires { position ≤ 3 }
    ensures value { result ≡ number_on base 0 position digits.now }
    ensures place { IfErr result (λ at. at ≤ position + length digits.now) }
{
    let mut value = 0u64;
    let mut at = position;
    for digit in digits {
        if *digit != b'_' {
            match with_digit(base, value, *digit) {
                Some(next) => value = next,
                None => return Err(at),
            }
        }
        at += 1;
    }
    Ok(value)
}

fn starts_digit(base: Base, text: &[u8]) -> bool
    ensures { result ≡ starts_digit base text.now }
{
    match text {
        [] => false,
        [byte, ..] => is_digit_of(base, *byte),
    }
}

fn ends_in_underscore(digits: &[u8]) -> bool
    ensures { result ≡ ends_in_underscore digits.now }
{
    match digits {
        [] => false,
        [.., byte] => *byte == b'_',
    }
}

/// The number at the front of a text that begins at this position, or the position of the first byte that continues none.
#[tactic(auto, unfolding(crate::specs::Numbers::number_at))]
pub fn number_at(base: Base, position: usize, text: &[u8]) -> Result<Number, usize>
    requires { position ≤ 3 }
    ensures value { result ≡ number_at base position text.now }
    ensures within { IfOk result (λ number. number.length ≤ length text.now) }
    ensures place { IfErr result (λ at. at ≤ position + length text.now) }
{
    if !starts_digit(base, text) {
        return Err(position);
    }
    let run = number_len(base, text);
    let digits = &text[..run];
    match value_of(base, digits, position) {
        Ok(value) => {
            if ends_in_underscore(digits) {
                Err(position + run)
            } else {
                Ok(Number { value, length: run })
            }
        }
        Err(at) => Err(at),
    }
}
