// Rows of a text and its answer.
use crate::fault::Wrong;
use crate::parts::Parts;
use crate::tally::Tally;
use crate::texts::{Text, add_text, expand, is_answer, is_comment, is_text};
use std::alloc::Global;
use test_shown::Shown;

/// What answers the texts of rows.
pub trait Answers {
    /// Takes a line that says how the texts behind it are read, and says whether it does.
    fn takes_heading(&mut self, _line: &[u8]) -> bool {
        false
    }

    /// Shows the answer for a text: `=` and what it is read as, or `!` and why it is refused. Gives what stands around
    /// each answer that is read.
    fn answer(&mut self, text: &[u8], shown: &mut Shown) -> (&'static [u8], &'static [u8]);
}

/// Rows as they are gone through.
#[derive(Drop)]
pub struct Rows {
    text: Text,
    has_text: bool,
    wanted: Text,
    shown: Shown,
}

impl Rows {
    pub fn new(alloc: Global) -> Rows {
        Rows {
            text: Text::new(alloc),
            has_text: false,
            wanted: Text::new(alloc),
            shown: Shown::new(alloc),
        }
    }

    /// Goes through the lines of a text, which begins in line 2 of its file.
    pub fn check<A: Answers>(&mut self, answers: &mut A, text: &[u8], tally: &mut Tally) {
        let mut number = 1u64;
        for line in Parts::new(text, b'\n') {
            number = number.saturating_add(1);
            if !is_comment(line) {
                self.take(answers, number, line, tally);
            }
        }
        if self.has_text {
            tally.refuse(number, Wrong::NoAnswer);
        }
    }

    fn take<A: Answers>(&mut self, answers: &mut A, number: u64, line: &[u8], tally: &mut Tally) {
        if is_answer(line) {
            self.expect(number, line, tally);
            let around = answers.answer(self.text.bytes.as_slice(), &mut self.shown);
            self.compare(number, around, tally);
        } else if self.is_of_text(line) {
            self.add_text(number, line, tally);
        } else if !answers.takes_heading(line) {
            tally.refuse(number, Wrong::Line);
        }
    }

    /// Whether a line belongs to a text: it is one of text, or it stands where an answer should.
    fn is_of_text(&self, line: &[u8]) -> bool {
        self.has_text || is_text(line)
    }

    fn add_text(&mut self, number: u64, line: &[u8], tally: &mut Tally) {
        self.has_text = true;
        if !is_text(line) {
            tally.refuse(number, Wrong::NoAnswer);
        } else if !add_text(&mut self.text, line) {
            tally.refuse(number, Wrong::Escape);
        }
    }

    /// Keeps the answer that is wanted for the text.
    fn expect(&mut self, number: u64, wanted: &[u8], tally: &mut Tally) {
        if !self.has_text {
            tally.refuse(number, Wrong::NoText);
        }
        self.wanted.bytes.clear();
        if !expand(&mut self.wanted, wanted) {
            tally.refuse(number, Wrong::Escape);
        }
    }

    /// Compares the answer that came for the text with the wanted one.
    fn compare(&mut self, number: u64, around: (&[u8], &[u8]), tally: &mut Tally) {
        if self.text.is_spent || self.wanted.is_spent || self.shown.is_spent {
            tally.spend();
        }
        let came = self.shown.text.as_str();
        let holds = is_wanted(came.as_bytes(), self.wanted.bytes.as_slice(), around);
        tally.add(number, holds, came);
        self.text.bytes.clear();
        self.has_text = false;
    }
}

/// Whether an answer is the wanted one, which leaves out what stands around it. One that ends in ` ...` says how the
/// answer begins.
fn is_wanted(came: &[u8], wanted: &[u8], around: (&[u8], &[u8])) -> bool {
    if came == wanted {
        return true;
    }
    let (before, behind) = around;
    let (Some(came), Some(wanted)) = (came.strip_prefix(b"= "), wanted.strip_prefix(b"= ")) else {
        return false;
    };
    let Some(came) = came.strip_prefix(before) else {
        return false;
    };
    match wanted.strip_suffix(b" ...") {
        Some(beginning) => came.starts_with(beginning),
        None => came.strip_suffix(behind) == Some(wanted),
    }
}
