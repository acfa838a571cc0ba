// Words, and the names of types.
ghost use Rattle.std.specs.Prelude.{◌≡◌, ◌≤◌, length, max, true, IfOk, IfErr, IfSome};
ghost use Rattle.value_text.specs.Words.{common, is_digit, is_word, name_goes_on, name_of, signed_front, suffix_at, type_at, type_front, unsigned_front};

use crate::gaps::behind;
use bstr::decode_utf8;
use fut_scalar::IntType;
use name_characters::goes_on_name;

/// The type behind an integer, if one is there, and how many bytes it takes.
#[derive(Clone, Copy)]
pub struct Suffix {
    pub ty: Option<IntType>,
    pub length: usize,
}

pub fn is_digit(byte: u8) -> bool
    ensures { result ≡ is_digit byte }
{
    b'0' <= byte && byte <= b'9'
}

/// Whether a character at the front makes what stands before it part of a longer name.
#[tactic(auto, unfolding(crate::specs::Words::name_goes_on))]
fn name_goes_on(text: &[u8]) -> bool
    ensures { result ≡ name_goes_on text.now }
{
    match decode_utf8(text).0 {
        Some(c) => goes_on_name(c),
        None => false,
    }
}

/// How many bytes two texts have in common at their front.
pub fn common(text: &[u8], word: &[u8]) -> usize
    ensures value { result ≡ common text.now word.now }
    ensures within { result ≤ length text.now }
{
    match text {
        [] => 0,
        [first, rest @ ..] => match word {
            [] => 0,
            [letter, letters @ ..] => {
                if *first == *letter {
                    1 + common(rest, letters)
                } else {
                    0
                }
            }
        },
    }
}

/// Whether a word stands at the front and is no part of a longer name.
#[tactic(auto, unfolding(crate::specs::Words::is_word))]
pub fn is_word(text: &[u8], word: &[u8]) -> bool
    ensures value { result ≡ is_word text.now word.now }
    ensures within { result ≡ true → length word.now ≤ length text.now }
{
    common(text, word) == word.len() && !name_goes_on(behind(text, word.len()))
}

pub fn greater(a: usize, b: usize) -> usize
    ensures { result ≡ max a b }
{
    if a < b { b } else { a }
}

/// The name of an integer type.
pub fn name_of(ty: IntType) -> &'static [u8]
    ensures { result.now ≡ name_of ty }
{
    match ty {
        IntType::I8 => b"i8",
        IntType::I16 => b"i16",
        IntType::I32 => b"i32",
        IntType::I64 => b"i64",
        IntType::U8 => b"u8",
        IntType::U16 => b"u16",
        IntType::U32 => b"u32",
        IntType::U64 => b"u64",
    }
}

/// The integer type whose name is the word at the front.
#[tactic(auto, unfolding(crate::specs::Words::type_at))]
pub fn type_at(text: &[u8]) -> Option<IntType>
    ensures value { result ≡ type_at text.now }
    ensures within { IfSome result (λ ty. length (name_of ty) ≤ length text.now) }
{
    if is_word(text, b"i8") {
        Some(IntType::I8)
    } else if is_word(text, b"i16") {
        Some(IntType::I16)
    } else if is_word(text, b"i32") {
        Some(IntType::I32)
    } else if is_word(text, b"i64") {
        Some(IntType::I64)
    } else if is_word(text, b"u8") {
        Some(IntType::U8)
    } else if is_word(text, b"u16") {
        Some(IntType::U16)
    } else if is_word(text, b"u32") {
        Some(IntType::U32)
    } else if is_word(text, b"u64") {
        Some(IntType::U64)
    } else {
        None
    }
}

#[tactic(auto, unfolding(crate::specs::Words::signed_front))]
fn signed_front(text: &[u8]) -> usize
    ensures value { result ≡ signed_front text.now }
    ensures within { result ≤ length text.now }
{
    greater(
        greater(common(text, b"i8"), common(text, b"i16")),
        greater(common(text, b"i32"), common(text, b"i64")),
    )
}

#[tactic(auto, unfolding(crate::specs::Words::unsigned_front))]
fn unsigned_front(text: &[u8]) -> usize
    ensures value { result ≡ unsigned_front text.now }
    ensures within { result ≤ length text.now }
{
    greater(
        greater(common(text, b"u8"), common(text, b"u16")),
        greater(common(text, b"u32"), common(text, b"u64")),
    )
}

/// How many bytes at the front begin the name of an integer type.
#[tactic(auto, unfolding(crate::specs::Words::type_front))]
pub fn type_front(text: &[u8]) -> usize
    ensures value { result ≡ type_front text.now }
    ensures within { result ≤ length text.now }
{
    greater(signed_front(text), unsigned_front(text))
}

/// What stands behind the digits of an integer: the name of a type, or nothing that continues a name; or how many bytes begin such a name.
#[tactic(auto, unfolding(crate::specs::Words::suffix_at))]
pub fn suffix_at(text: &[u8]) -> Result<Suffix, usize>
    ensures value { result ≡ suffix_at text.now }
    ensures within { IfOk result (λ suffix. suffix.length ≤ length text.now) }
    ensures place { IfErr result (λ offset. offset ≤ length text.now) }
{
    match type_at(text) {
        Some(ty) => Ok(Suffix {
            ty: Some(ty),
            length: name_of(ty).len(),
        }),
        None => {
            if name_goes_on(text) {
                Err(type_front(text))
            } else {
                Ok(Suffix {
                    ty: None,
                    length: 0,
                })
            }
        }
    }
}
