// How an empty array is spelled behind the word `empty`.
ghost use Rattle.std.specs.Prelude.{◌≡◌, ◌≤◌, ◌<◌, ◌+◌, ◌^◌, length, MatchResult};
ghost use Rattle.value_text.specs.Empties.{digit_len, digits, dimension, dimensions, empty_len, ending, mark, scalar_at, scalar_name, shift, size, then_part};

use crate::gaps::{begins_with, behind, gap};
use crate::words::{common, greater, is_digit, is_word, name_of, type_at, type_front};

/// What a part behind so many bytes answers, from their front on.
fn shift(before: usize, part: Result<usize, usize>) -> Result<usize, usize>
    requires { MatchResult part (λ n. before + n < 2 ^ 64) (λ n. before + n < 2 ^ 64) }
    ensures { result ≡ shift before part }
{
    match part {
        Ok(length) => Ok(before + length),
        Err(offset) => Err(before + offset),
    }
}

/// A byte of its own.
#[tactic(auto, unfolding(crate::specs::Empties::mark))]
fn mark(byte: u8, text: &[u8]) -> Result<usize, usize>
    ensures value { result ≡ mark byte text.now }
    ensures within { MatchResult result (λ n. n ≤ length text.now) (λ n. n ≤ length text.now) }
{
    let blanks = gap(text);
    if begins_with(byte, behind(text, blanks)) {
        Ok(blanks + 1)
    } else {
        Err(blanks)
    }
}

#[tactic(auto, using(crate::proofs::Between::prefix_within), unfolding(crate::specs::Empties::digit_len))]
pub fn digit_len(text: &[u8]) -> usize
    ensures value { result ≡ digit_len text.now }
    ensures within { result ≤ length text.now }
{
    text.iter().take_while(|byte| is_digit(**byte)).count()
}

/// Digits, at least one.
#[tactic(auto, unfolding(crate::specs::Empties::digits))]
fn digits(text: &[u8]) -> Result<usize, usize>
    ensures value { result ≡ digits text.now }
    ensures within { MatchResult result (λ n. n ≤ length text.now) (λ n. n ≤ length text.now) }
{
    let blanks = gap(text);
    let run = digit_len(behind(text, blanks));
    if run == 0 {
        Err(blanks)
    } else {
        Ok(blanks + run)
    }
}

/// The name of a scalar type at the front.
#[tactic(auto, unfolding(crate::specs::Empties::scalar_at))]
fn scalar_at(text: &[u8]) -> Result<usize, usize>
    ensures value { result ≡ scalar_at text.now }
    ensures within { MatchResult result (λ n. n ≤ length text.now) (λ n. n ≤ length text.now) }
{
    match type_at(text) {
        Some(ty) => Ok(name_of(ty).len()),
        None => {
            if is_word(text, b"bool") {
                Ok(4)
            } else {
                Err(greater(type_front(text), common(text, b"bool")))
            }
        }
    }
}

/// The name of a scalar type.
#[tactic(auto, unfolding(crate::specs::Empties::scalar_name))]
fn scalar_name(text: &[u8]) -> Result<usize, usize>
    ensures value { result ≡ scalar_name text.now }
    ensures within { MatchResult result (λ n. n ≤ length text.now) (λ n. n ≤ length text.now) }
{
    let blanks = gap(text);
    shift(blanks, scalar_at(behind(text, blanks)))
}

/// What stands behind the `[` of a dimension.
fn size(text: &[u8]) -> Result<usize, usize>
    ensures value { result ≡ size text.now }
    ensures within { MatchResult result (λ n. n ≤ length text.now) (λ n. n ≤ length text.now) }
{
    let length = digits(text)?;
    shift(length, mark(b']', behind(text, length)))
}

/// A dimension in its brackets.
#[tactic(auto, unfolding(crate::specs::Empties::dimension))]
pub fn dimension(text: &[u8]) -> Result<usize, usize>
    ensures value { result ≡ dimension text.now }
    ensures within { MatchResult result (λ n. n ≤ length text.now) (λ n. n ≤ length text.now) }
{
    let length = mark(b'[', text)?;
    shift(length, size(behind(text, length)))
}

/// Dimensions up to what is none.
#[tactic(auto, using(crate::proofs::Dimensions::dimensions_go))]
fn dimensions(text: &[u8]) -> Result<usize, usize>
    ensures value { result ≡ dimensions text.now }
    ensures within { MatchResult result (λ n. n ≤ length text.now) (λ n. n ≤ length text.now) }
{
    let mut length = 0usize;
    let mut rest = text;
    for turn in 0..text.len() {
        if !begins_with(b'[', behind(rest, gap(rest))) {
            return Ok(length);
        }
        match dimension(rest) {
            Ok(more) => {
                length += more;
                rest = behind(rest, more);
            }
            Err(offset) => return Err(length + offset),
        }
    }
    Ok(length)
}

/// What stands behind the dimensions.
fn ending(text: &[u8]) -> Result<usize, usize>
    ensures value { result ≡ ending text.now }
    ensures within { MatchResult result (λ n. n ≤ length text.now) (λ n. n ≤ length text.now) }
{
    let length = scalar_name(text)?;
    shift(length, mark(b')', behind(text, length)))
}

/// What stands behind the first dimension.
fn after_first(text: &[u8]) -> Result<usize, usize>
    ensures value { result ≡ then_part dimensions ending text.now }
    ensures within { MatchResult result (λ n. n ≤ length text.now) (λ n. n ≤ length text.now) }
{
    let length = dimensions(text)?;
    shift(length, ending(behind(text, length)))
}

/// What stands behind the `(`.
fn after_open(text: &[u8]) -> Result<usize, usize>
    ensures value { result ≡ then_part dimension (then_part dimensions ending) text.now }
    ensures within { MatchResult result (λ n. n ≤ length text.now) (λ n. n ≤ length text.now) }
{
    let length = dimension(text)?;
    shift(length, after_first(behind(text, length)))
}

/// How many bytes an empty array takes behind the word `empty`, or how many bytes at the front begin one.
#[tactic(auto, unfolding(crate::specs::Empties::empty_len))]
pub fn empty_len(text: &[u8]) -> Result<usize, usize>
    ensures value { result ≡ empty_len text.now }
    ensures within { MatchResult result (λ n. n ≤ length text.now) (λ n. n ≤ length text.now) }
{
    let length = mark(b'(', text)?;
    shift(length, after_open(behind(text, length)))
}
