// A row of a run: its lines, and what stands in them.
use crate::fault::Wrong;
use crate::parts::{Parts, behind_word, number_of, text_of};
use crate::tally::Tally;
use crate::texts::{Text, add_text, is_comment, is_text};
use fut_scalar::List;
use std::alloc::Global;

/// The lines of a row.
#[derive(Clone, Copy)]
pub struct Row<'a> {
    /// The number of its first line.
    pub first: u64,
    pub text: &'a [u8],
}

/// The words that a line may begin with, each once in a row, and no text stands behind such a line.
const WORDS: [&[u8]; 9] = [
    b"run",
    b"status",
    b"fails load",
    b"fails input",
    b"fails out",
    b"fails err",
    b"gives input",
    b"room out",
    b"room err",
];

/// Whether a text stands behind a line.
fn is_heading(line: &[u8]) -> bool {
    match text_of(line) {
        "input" | "out" | "err" => true,
        _ => line.starts_with(b"file "),
    }
}

/// Whether a line begins with one of the words.
fn begins_with_word(line: &[u8]) -> bool {
    for word in WORDS {
        if behind_word(line, word).is_some() {
            return true;
        }
    }
    false
}

impl<'a> Row<'a> {
    /// Whether nothing but comments stands here.
    pub fn is_empty(&self) -> bool {
        for line in Parts::new(self.text, b'\n') {
            if !is_comment(line) {
                return false;
            }
        }
        true
    }

    /// Refuses a line that no run has, and a text that belongs to nothing.
    pub fn refuse_strangers(&self, tally: &mut Tally) {
        let mut may_be_text = false;
        let mut number = self.first;
        for line in Parts::new(self.text, b'\n') {
            if is_heading(line) {
                may_be_text = true;
            } else if begins_with_word(line) {
                may_be_text = false;
            } else if is_text(line) {
                if !may_be_text {
                    tally.refuse(number, Wrong::Text);
                }
            } else if !is_comment(line) {
                tally.refuse(number, Wrong::Line);
            }
            number = number.saturating_add(1);
        }
    }

    /// What stands behind a word at the beginning of a line. It begins no second one.
    pub fn behind(&self, word: &[u8], tally: &mut Tally) -> Option<&'a [u8]> {
        let mut found = None;
        let mut number = self.first;
        for line in Parts::new(self.text, b'\n') {
            if let Some(rest) = behind_word(line, word) {
                if found.is_some() {
                    tally.refuse(number, Wrong::Twice);
                }
                found = Some(rest);
            }
            number = number.saturating_add(1);
        }
        found
    }

    /// The number behind a word.
    pub fn number(&self, word: &[u8], tally: &mut Tally) -> Option<u64> {
        let digits = self.behind(word, tally)?;
        let number = number_of(digits);
        if number.is_none() {
            tally.refuse(self.first, Wrong::Number);
        }
        number
    }

    /// The calls that the numbers behind a word count from 1, counted from 0.
    pub fn calls(&self, alloc: Global, word: &[u8], tally: &mut Tally) -> List<u64> {
        let mut calls = List::new(alloc);
        let numbers = self.behind(word, tally).unwrap_or(b"");
        for digits in Parts::new(numbers, b' ') {
            let number = number_of(digits).unwrap_or(0);
            if number == 0 {
                tally.refuse(self.first, Wrong::Number);
            }
            if calls.push(number.saturating_sub(1)).is_err() {
                tally.spend();
            }
        }
        calls
    }

    /// The text behind a heading.
    pub fn text(&self, alloc: Global, heading: &[u8], tally: &mut Tally) -> List<u8> {
        let mut text = Text::new(alloc);
        let mut belongs = false;
        for line in Parts::new(self.text, b'\n') {
            if is_text(line) {
                if belongs && !add_text(&mut text, line) {
                    tally.refuse(self.first, Wrong::Escape);
                }
            } else if !is_comment(line) {
                belongs = line == heading;
            }
        }
        if text.is_spent {
            tally.spend();
        }
        text.into_list()
    }
}
