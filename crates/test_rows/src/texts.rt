// The texts of rows.
//
// `> abc` stands for the text `abc`, and `| abc` for the line `abc` with its end. Lines that follow each other are put
// together. In a text `@x41` is the byte 0x41, and `@200"ab"` is `ab` two hundred times.
ghost use Rattle.std.specs.Prelude.{◌<◌, IfSome};

use crate::parts::{Parts, cut, number_of};
use fut_scalar::List;
use std::alloc::Global;

/// Bytes that are put together. Once memory runs out they are spent.
#[derive(Drop)]
pub struct Text {
    pub bytes: Vec<u8>,
    pub is_spent: bool,
}

impl Text {
    /// No bytes. It takes no memory.
    pub fn new(alloc: Global) -> Text {
        Text {
            bytes: Vec::new(alloc),
            is_spent: false,
        }
    }

    pub fn add(&mut self, bytes: &[u8]) {
        if self.bytes.extend_from_slice(bytes).is_err() {
            self.is_spent = true;
        }
    }

    /// Puts bytes in the place of the others.
    pub fn set(&mut self, bytes: &[u8]) {
        self.bytes.clear();
        self.add(bytes);
    }

    pub fn push(&mut self, byte: u8) {
        if self.bytes.push(byte).is_err() {
            self.is_spent = true;
        }
    }

    /// The bytes that were put together.
    pub fn into_list(self) -> List<u8> {
        let Text { bytes, is_spent: _ } = self;
        List::from_vec(bytes)
    }
}

/// Whether a line says nothing.
pub fn is_comment(line: &[u8]) -> bool {
    matches!(line, [] | [b'#', ..])
}

/// What stands behind a mark and a blank, or behind the mark alone nothing.
fn behind_mark(line: &[u8], mark: u8) -> Option<&[u8]> {
    match line {
        [first] if *first == mark => Some(&[]),
        [first, b' ', rest @ ..] if *first == mark => Some(rest),
        _ => None,
    }
}

/// Whether a line is one of text.
pub fn is_text(line: &[u8]) -> bool {
    behind_mark(line, b'>').is_some() || behind_mark(line, b'|').is_some()
}

/// Whether a line is an answer.
pub fn is_answer(line: &[u8]) -> bool {
    behind_mark(line, b'=').is_some() || behind_mark(line, b'!').is_some()
}

/// Puts the text of a line behind the others, and says whether its escapes are well written.
pub fn add_text(into: &mut Text, line: &[u8]) -> bool {
    if let Some(text) = behind_mark(line, b'>') {
        return expand(into, text);
    }
    if let Some(text) = behind_mark(line, b'|') {
        let is_well = expand(into, text);
        into.push(b'\n');
        return is_well;
    }
    false
}

/// Puts a text with its escapes read behind the bytes, and says whether the escapes are well written.
pub fn expand(into: &mut Text, text: &[u8]) -> bool {
    let mut is_well = !matches!(text, [.., b'@']);
    let mut is_escape = false;
    for part in Parts::new(text, b'@') {
        if is_escape {
            is_well = escape(into, part) && is_well;
        } else {
            into.add(part);
            is_escape = true;
        }
    }
    is_well
}

/// Puts what follows an at sign behind the bytes.
fn escape(into: &mut Text, part: &[u8]) -> bool {
    match part {
        [b'x', high, low, rest @ ..] => {
            let (Some(high), Some(low)) = (digit(*high), digit(*low)) else {
                return false;
            };
            into.push(high * 16 + low);
            into.add(rest);
            true
        }
        _ => repeat(into, part),
    }
}

/// The value of a hexadecimal digit.
fn digit(byte: u8) -> Option<u8>
    ensures { IfSome result (λ value. value < 16) }
{
    match byte {
        b'0'..=b'9' => Some(byte - b'0'),
        b'a'..=b'f' => Some(byte - b'a' + 10),
        _ => None,
    }
}

/// A count and a text in quotes, which is repeated, and the text behind it.
fn repeat(into: &mut Text, part: &[u8]) -> bool {
    let Some((count, quoted)) = cut(part, b'"') else {
        return false;
    };
    let Some((text, rest)) = cut(quoted, b'"') else {
        return false;
    };
    let Some(count) = number_of(count) else {
        return false;
    };
    for _turn in 0..count {
        into.add(text);
    }
    into.add(rest);
    true
}
