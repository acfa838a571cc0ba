// Texts that are drawn by a fixed rule, or cut off: whatever they are, a check of them answers a status and its line.
use crate::parts::{Parts, behind_word, count, cut, number_of, text_of};
use crate::rows::Answers;
use crate::runs::play;
use crate::runs::row::Row;
use crate::stage::Came;
use crate::tally::Tally;
use crate::texts::Text;
use std::alloc::Global;
use test_shown::Shown;

/// How many texts are drawn, of how many pieces, and the state that the drawing begins with.
#[derive(Clone, Copy)]
struct Draw {
    texts: u64,
    pieces: u64,
    state: u64,
}

impl Draw {
    fn read(text: &[u8]) -> Option<Draw> {
        let (texts, rest) = cut(text, b' ')?;
        let (pieces, state) = cut(rest, b' ')?;
        match (number_of(texts), number_of(pieces), number_of(state)) {
            (Some(texts), Some(pieces), Some(state)) => Some(Draw {
                texts,
                pieces,
                state,
            }),
            _ => None,
        }
    }

    /// A number below a bound, or 0.
    fn next(&mut self, bound: u64) -> u64 {
        self.state = self
            .state
            .wrapping_mul(6_364_136_223_846_793_005)
            .wrapping_add(1);
        (self.state >> 33).checked_rem(bound).unwrap_or(0)
    }

    /// Draws a text: the first piece, and others that are drawn among the rest. Without pieces it is drawn of all bytes.
    fn text(&mut self, pieces: &[u8], text: &mut Text) {
        let others = count(pieces, b';');
        text.bytes.clear();
        text.add(piece(pieces, 0));
        for _ in 0..self.pieces {
            if pieces.is_empty() {
                text.push((self.next(256) % 256) as u8);
            } else {
                text.add(piece(pieces, self.next(others).saturating_add(1)));
            }
        }
    }
}

/// The piece at a place, from 0. The pieces stand between semicolons.
fn piece(pieces: &[u8], place: u64) -> &[u8] {
    let mut left = place;
    for piece in Parts::new(pieces, b';') {
        if left == 0 {
            return piece;
        }
        left -= 1;
    }
    &[]
}

/// Answers the text of a row with the number of texts that were checked, or with one that is not answered. They are drawn
/// of the pieces of the text, or they are what begins the text.
#[derive(Drop)]
pub struct Draws {
    alloc: Global,
    draw: Option<Draw>,
    text: Text,
    /// The check of a text as a row of a run, in which nothing is wrong.
    row: Text,
    came: Came,
    tally: Tally,
}

impl Draws {
    pub fn new(alloc: Global) -> Draws {
        Draws {
            alloc,
            draw: None,
            text: Text::new(alloc),
            row: Text::new(alloc),
            came: Came::new(alloc),
            tally: Tally::new(alloc),
        }
    }

    /// Checks a text, and says whether it is answered.
    fn is_answered(&mut self) -> bool {
        self.row.bytes.clear();
        self.row.add(b"run check t.fut\nfile t.fut\n> ");
        add_escaped(&mut self.row, self.text.bytes.as_slice());
        let row = Row {
            first: 1,
            text: self.row.bytes.as_slice(),
        };
        play(self.alloc, row, &mut self.came, &mut self.tally);
        is_told(&self.came) && self.is_whole()
    }

    /// Whether the text and its row are written as they should be.
    fn is_whole(&self) -> bool {
        !self.text.is_spent && !self.row.is_spent && self.tally.fault.is_none()
    }

    /// How many texts are answered before the first that is not.
    fn cut(&mut self, text: &[u8]) -> u64 {
        for length in 0..text.len() {
            self.text.bytes.clear();
            self.text.add(&text[..length]);
            if !self.is_answered() {
                return length as u64;
            }
        }
        text.len() as u64
    }

    /// The same of drawn texts.
    fn drawn(&mut self, pieces: &[u8], draw: Draw) -> u64 {
        let mut draw = draw;
        for count in 0..draw.texts {
            draw.text(pieces, &mut self.text);
            if !self.is_answered() {
                return count;
            }
        }
        draw.texts
    }
}

impl Answers for Draws {
    fn takes_heading(&mut self, line: &[u8]) -> bool {
        self.draw = match behind_word(line, b"draw") {
            Some(numbers) => Draw::read(numbers),
            None => None,
        };
        self.draw.is_some() || text_of(line) == "cut"
    }

    fn answer(&mut self, text: &[u8], shown: &mut Shown) -> (&'static [u8], &'static [u8]) {
        let count = match self.draw {
            None => self.cut(text),
            Some(draw) => self.drawn(text, draw),
        };
        shown.begin(false);
        shown.numbered("= ", count);
        shown.push(" texts are answered");
        (b"", b"")
    }
}

/// Puts bytes behind others, each as its escape.
fn add_escaped(into: &mut Text, bytes: &[u8]) {
    for byte in bytes {
        into.add(b"@x");
        into.push(digit_of(*byte / 16));
        into.push(digit_of(*byte % 16));
    }
}

/// A hexadecimal digit.
fn digit_of(value: u8) -> u8 {
    match value {
        0..=9 => b'0' + value,
        10..=15 => b'a' + (value - 10),
        _ => b'?',
    }
}

/// Whether a check told that a text is accepted, or a status with its line.
fn is_told(came: &Came) -> bool {
    match came.status {
        0 => came.err.bytes.is_empty() && came.out.bytes.as_slice() == b"accepted\n".as_slice(),
        3..=7 => is_line(came, b"futhark: t.fut:"),
        9 => is_line(came, b"futhark: limit: "),
        _ => false,
    }
}

/// Whether one line came on err, and it begins so, and nothing on out.
fn is_line(came: &Came, beginning: &[u8]) -> bool {
    let line = came.err.bytes.as_slice();
    came.out.bytes.is_empty()
        && line.starts_with(beginning)
        && line.ends_with(b"\n")
        && count(line, b'\n') == 1
}
