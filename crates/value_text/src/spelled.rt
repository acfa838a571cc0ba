// How values are spelled.
ghost use Rattle.std.specs.Prelude.{◌≡◌, ◌≤◌, ◌+◌, length, drop, IfOk, IfErr};
ghost use Rattle.value_text.specs.Empties.{empty_len};
ghost use Rattle.value_text.specs.Spelled.{empty_array, integer_at, minus_at, spelled_at, unsigned_at, word_at, word_front};

use crate::empties::empty_len;
use crate::gaps::behind;
use crate::numbers::{base_at, number_at, prefix_of};
use crate::words::{common, greater, is_digit, is_word, suffix_at};
use fut_scalar::IntType;

/// A value as it is spelled.
#[derive(Clone, Copy)]
pub enum Form {
    Integer {
        negative: bool,
        magnitude: u64,
        suffix: Option<IntType>,
    },
    Truth(bool),
    /// An array: an empty one, or the `[` of another.
    Array,
}

/// A value as it is spelled, and how many bytes it takes.
#[derive(Clone, Copy)]
pub struct Spelled {
    pub form: Form,
    pub length: usize,
}

/// 1 where a `-` stands at the front.
fn minus_at(text: &[u8]) -> usize
    ensures value { result ≡ minus_at text.now }
    ensures within { result ≤ length text.now }
    ensures few { result ≤ 1 }
{
    match text {
        [b'-', ..] => 1,
        _ => 0,
    }
}

/// The integer whose sign, if it has one, stands before this text.
fn unsigned_at(minus: usize, text: &[u8]) -> Result<Spelled, usize>
    requires { minus ≤ 1 }
    ensures value { result ≡ unsigned_at minus text.now }
    ensures within { IfOk result (λ spelled. spelled.length ≤ minus + length text.now) }
    ensures place { IfErr result (λ offset. offset ≤ minus + length text.now) }
{
    let base = base_at(text);
    let skip = minus + prefix_of(base);
    let digits = behind(text, prefix_of(base));
    let number = match number_at(base, skip, digits) {
        Ok(number) => number,
        Err(at) => return Err(at),
    };
    let before = skip + number.length;
    match suffix_at(behind(digits, number.length)) {
        Ok(suffix) => Ok(Spelled {
            form: Form::Integer {
                negative: minus == 1,
                magnitude: number.value,
                suffix: suffix.ty,
            },
            length: before + suffix.length,
        }),
        Err(offset) => Err(before + offset),
    }
}

/// The integer at the front.
#[tactic(auto, unfolding(crate::specs::Spelled::integer_at))]
fn integer_at(text: &[u8]) -> Result<Spelled, usize>
    ensures value { result ≡ integer_at text.now }
    ensures within { IfOk result (λ spelled. spelled.length ≤ length text.now) }
    ensures place { IfErr result (λ offset. offset ≤ length text.now) }
{
    let minus = minus_at(text);
    unsigned_at(minus, behind(text, minus))
}

/// How many bytes at the front begin a word that begins a value.
#[tactic(auto, unfolding(crate::specs::Spelled::word_front))]
fn word_front(text: &[u8]) -> usize
    ensures value { result ≡ word_front text.now }
    ensures within { result ≤ length text.now }
{
    greater(
        common(text, b"true"),
        greater(common(text, b"false"), common(text, b"empty")),
    )
}

/// The empty array behind the word at the front.
fn empty_array(text: &[u8]) -> Result<Spelled, usize>
    requires { 5 ≤ length text.now }
    ensures value { result ≡ empty_array (empty_len (drop 5 text.now)) }
    ensures within { IfOk result (λ spelled. spelled.length ≤ length text.now) }
    ensures place { IfErr result (λ offset. offset ≤ length text.now) }
{
    match empty_len(behind(text, 5)) {
        Ok(length) => Ok(Spelled {
            form: Form::Array,
            length: 5 + length,
        }),
        Err(offset) => Err(5 + offset),
    }
}

/// The word at the front.
#[tactic(auto, unfolding(crate::specs::Spelled::word_at))]
fn word_at(text: &[u8]) -> Result<Spelled, usize>
    ensures value { result ≡ word_at text.now }
    ensures within { IfOk result (λ spelled. spelled.length ≤ length text.now) }
    ensures place { IfErr result (λ offset. offset ≤ length text.now) }
{
    if is_word(text, b"true") {
        Ok(Spelled {
            form: Form::Truth(true),
            length: 4,
        })
    } else if is_word(text, b"false") {
        Ok(Spelled {
            form: Form::Truth(false),
            length: 5,
        })
    } else if is_word(text, b"empty") {
        empty_array(text)
    } else {
        Err(word_front(text))
    }
}

/// The value at the front, or how many bytes at the front begin a value.
pub fn spelled_at(text: &[u8]) -> Result<Spelled, usize>
    ensures value { result ≡ spelled_at text.now }
    ensures within { IfOk result (λ spelled. spelled.length ≤ length text.now) }
    ensures place { IfErr result (λ offset. offset ≤ length text.now) }
{
    match text {
        [] => Err(0),
        [b'[', ..] => Ok(Spelled {
            form: Form::Array,
            length: 1,
        }),
        [byte, ..] => {
            if *byte == b'-' || is_digit(*byte) {
                integer_at(text)
            } else {
                word_at(text)
            }
        }
    }
}
