// Bytes and the parts between separators.
ghost use Rattle.std.specs.Prelude.{◌<◌, length, IfSome};
ghost use Rattle.std.specs.Iterator.{at_most};

use std::str;

/// How often a byte occurs.
pub fn count(bytes: &[u8], wanted: u8) -> u64 {
    let mut count = 0u64;
    for byte in bytes {
        if *byte == wanted {
            count = count.saturating_add(1);
        }
    }
    count
}

/// What stands before and behind the first separator.
pub fn cut(bytes: &[u8], separator: u8) -> Option<(&[u8], &[u8])>
    ensures { IfSome result (λ parts. length parts.1.now < length bytes.now) }
{
    for place in 0..bytes.len() {
        if bytes[place] == separator {
            return Some((&bytes[..place], &bytes[place + 1..]));
        }
    }
    None
}

/// The parts of bytes between separators. Behind a last separator there is none.
#[derive(Drop)]
pub struct Parts<'a> {
    rest: &'a [u8],
    separator: u8,
}

impl<'a> Parts<'a> {
    pub fn new(bytes: &'a [u8], separator: u8) -> Parts<'a> {
        Parts {
            rest: bytes,
            separator,
        }
    }
}

impl<'a> Iterator for Parts<'a> {
    type Item = &'a [u8];

    ghost remaining = { λ s. at_most (length s.rest.now) };

    fn next(&mut self) -> Option<&'a [u8]> {
        if self.rest.is_empty() {
            return None;
        }
        match cut(self.rest, self.separator) {
            Some((part, rest)) => {
                self.rest = rest;
                Some(part)
            }
            None => {
                let part = self.rest;
                self.rest = &[];
                Some(part)
            }
        }
    }
}

/// Bytes as text. What is no UTF-8 is no word that rows have, and is the text without one.
pub fn text_of(bytes: &[u8]) -> &str {
    str::from_utf8(bytes).unwrap_or("")
}

/// The number that digits spell.
pub fn number_of(digits: &[u8]) -> Option<u64> {
    text_of(digits).parse::<u64>().ok()
}

/// What stands behind a word and a blank, or behind the word alone nothing.
pub fn behind_word<'a>(line: &'a [u8], word: &[u8]) -> Option<&'a [u8]> {
    match line.strip_prefix(word) {
        Some([b' ', rest @ ..]) => Some(rest),
        Some([]) => Some(&[]),
        _ => None,
    }
}
