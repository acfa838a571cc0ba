// Classes of characters, and how long runs of them are.
ghost use Rattle.std.specs.Prelude.{◌≡◌, ◌≤◌, drop, length, take};
ghost use Rattle.std.specs.List.{prefix_len};
ghost use Rattle.fut_lexer.specs.Words.{is_blank, is_digit, same};
ghost use Rattle.fut_lexer.specs.Words.{begins_with, is_in_text};
ghost use Rattle.fut_lexer.specs.Private.FrontReading.{line_len, word_len};
ghost use Rattle.name_characters.specs.Names.{goes_on_name};

use name_characters::{goes_on_name, starts_name};

pub fn is_blank(c: char) -> bool
    ensures { result ≡ is_blank c }
{
    c == ' ' || c == '\t' || c == '\n' || c == '\r'
}

pub fn is_digit(c: char) -> bool
    ensures { result ≡ is_digit c }
{
    '0' <= c && c <= '9'
}

fn is_in_text(c: char) -> bool
    ensures { result ≡ is_in_text c }
{
    !(c == '"' || c == '\n')
}

#[tactic(auto, using(crate::proofs::Runs::prefix_within))]
pub fn blanks(text: &[char]) -> usize
    ensures value { result ≡ prefix_len is_blank text.now }
    ensures within { result ≤ length text.now }
{
    text.iter().take_while(|c| is_blank(**c)).count()
}

#[tactic(auto, using(crate::proofs::Runs::prefix_within))]
pub fn digits(text: &[char]) -> usize
    ensures value { result ≡ prefix_len is_digit text.now }
    ensures within { result ≤ length text.now }
{
    text.iter().take_while(|c| is_digit(**c)).count()
}

#[tactic(auto, using(crate::proofs::Runs::prefix_within))]
fn name_rest(text: &[char]) -> usize
    ensures value { result ≡ prefix_len goes_on_name text.now }
    ensures within { result ≤ length text.now }
{
    text.iter().take_while(|c| goes_on_name(**c)).count()
}

#[tactic(auto, using(crate::proofs::Runs::prefix_within))]
pub fn text_len(text: &[char]) -> usize
    ensures value { result ≡ prefix_len is_in_text text.now }
    ensures within { result ≤ length text.now }
{
    text.iter().take_while(|c| is_in_text(**c)).count()
}

#[tactic(auto, using(crate::proofs::Runs::prefix_within))]
pub fn line_len(text: &[char]) -> usize
    ensures { result ≡ line_len text.now }
{
    text.iter().take_while(|c| !(**c == '\n')).count()
}

/// The length of the name or keyword at the front, or 0.
pub fn word_len(text: &[char]) -> usize
    ensures value { result ≡ word_len text.now }
    ensures within { result ≤ length text.now }
{
    match text {
        [] => 0,
        [c, rest @ ..] => {
            if starts_name(*c) {
                1 + name_rest(rest)
            } else {
                0
            }
        }
    }
}

pub fn begins_with(c: char, text: &[char]) -> bool
    ensures { result ≡ begins_with c text.now }
{
    match text {
        [] => false,
        [d, ..] => *d == c,
    }
}

/// The first characters of a text, as many as there are.
pub fn front_part(text: &[char], n: usize) -> &[char]
    ensures { result.now ≡ take n text.now }
{
    if n < text.len() { &text[..n] } else { text }
}

/// What follows the first characters of a text.
pub fn behind(text: &[char], n: usize) -> &[char]
    ensures { result.now ≡ drop n text.now }
{
    if n < text.len() { &text[n..] } else { &[] }
}

/// Whether the characters spell the word.
pub fn is_same(text: &[char], word: &[u8]) -> bool
    ensures { result ≡ same text.now word.now }
{
    match text {
        [] => word.is_empty(),
        [a, x @ ..] => match word {
            [] => false,
            [b, y @ ..] => *a as u32 == *b as u32 && is_same(x, y),
        },
    }
}
