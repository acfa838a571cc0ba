// What a reader of texts answers, as one line.
use crate::texts::suffix_text;
use fut_scalar::{IntType, Place};
use std::alloc::Global;
use std::fmt::Write;
use std::str;

/// What stands before a part of a form. A form is shown by one call for each of its parts.
#[derive(Clone, Copy)]
pub enum Before {
    Nothing,
    Blank,
    Colon,
    Equals,
    Arrow,
    /// The end of another part.
    End,
    Less,
    In,
    For,
    While,
    Slice,
    Include,
}

impl Before {
    fn text(self) -> &'static str {
        match self {
            Before::Nothing => "",
            Before::Blank => " ",
            Before::Colon => " : ",
            Before::Equals => " = ",
            Before::Arrow => " -> ",
            Before::End => ") ",
            Before::Less => " < ",
            Before::In => " in ",
            Before::For => " (for ",
            Before::While => " (while ",
            Before::Slice => " (slice ",
            Before::Include => " (include ",
        }
    }
}

/// The line of an answer as it is made. Once memory runs out it is spent. No clause says what came: the rows compare it
/// with answers that were worked out by hand.
#[derive(Drop)]
pub struct Shown {
    pub text: String,
    with_places: bool,
    pub is_spent: bool,
}

impl Shown {
    /// An empty line. It takes no memory.
    pub fn new(alloc: Global) -> Shown {
        Shown {
            text: String::new(alloc),
            with_places: false,
            is_spent: false,
        }
    }

    /// Begins a new line, with the places of expressions and patterns or without them.
    pub fn begin(&mut self, with_places: bool) {
        self.text.clear();
        self.with_places = with_places;
    }

    pub fn push(&mut self, piece: &str) {
        if self.text.push_str(piece).is_err() {
            self.is_spent = true;
        }
    }

    /// A name behind a text.
    pub fn named(&mut self, before: &str, name: &str) {
        self.push(before);
        self.push(name);
    }

    pub fn before(&mut self, before: Before) {
        self.push(before.text());
    }

    /// The word that a form begins with.
    pub fn open(&mut self, before: Before, word: &str) {
        self.before(before);
        self.push(word);
    }

    /// The name of a part behind a blank. What it is and its end follow.
    pub fn field(&mut self, name: &str) {
        self.push(" (");
        self.push(name);
    }

    pub fn blank(&mut self) {
        self.push(" ");
    }

    /// The end of a form.
    pub fn close(&mut self) {
        self.push(")");
    }

    pub fn number(&mut self, value: u64) {
        if write!(self.text, "{value}").is_err() {
            self.is_spent = true;
        }
    }

    /// An integer and its suffix.
    pub fn integer(&mut self, value: u64, suffix: Option<IntType>) {
        self.number(value);
        self.push(suffix_text(suffix));
    }

    pub fn character(&mut self, value: char) {
        if self.text.push(value).is_err() {
            self.is_spent = true;
        }
    }

    /// Bytes that are text.
    pub fn bytes(&mut self, bytes: &[u8]) {
        match str::from_utf8(bytes) {
            Ok(text) => self.push(text),
            Err(_) => self.push("bytes that are no UTF-8"),
        }
    }

    /// The line and the column of a place.
    pub fn place(&mut self, place: Place) {
        self.number(u64::from(place.line));
        self.push(":");
        self.number(u64::from(place.column));
    }

    /// A number behind a text.
    pub fn numbered(&mut self, before: &str, value: u64) {
        self.push(before);
        self.number(value);
    }

    /// An integer and its suffix behind a text.
    pub fn written(&mut self, before: &str, value: u64, suffix: Option<IntType>) {
        self.push(before);
        self.integer(value, suffix);
    }

    /// A place behind a text.
    pub fn placed(&mut self, before: &str, place: Place) {
        self.push(before);
        self.place(place);
    }

    /// Bytes that are text, behind another.
    pub fn bytes_behind(&mut self, before: &str, bytes: &[u8]) {
        self.push(before);
        self.bytes(bytes);
    }

    /// Where a form stands, where this is wanted: the place, and the mark if it is another one.
    pub fn stands(&mut self, place: Place, mark: Place) {
        if !self.with_places {
            return;
        }
        self.push("{");
        self.place(place);
        if mark != place {
            self.blank();
            self.place(mark);
        }
        self.push("}");
    }

    /// The end of a form by the word that it begins with: what a parenthesis opens and does not close is closed.
    pub fn end(&mut self, word: &str) {
        match word.as_bytes() {
            [b'(', .., b')'] => {}
            [b'(', ..] => self.close(),
            _ => {}
        }
    }
}
