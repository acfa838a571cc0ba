// Runs of whole programs over files, input and output in memory.
mod given;
pub mod row;

use crate::fault::Wrong;
use crate::parts::{Parts, count};
use crate::runs::given::{loader_of, sinks_of, source_of, words_of};
use crate::runs::row::Row;
use crate::stage::{Came, Stage};
use crate::tally::Tally;
use fut_scalar::NoMemory;
use std::alloc::Global;
use test_shown::Shown;

/// How many bytes the lines before the first blank one have, with their ends.
fn row_length(text: &[u8]) -> usize {
    let mut length = 0usize;
    for line in Parts::new(text, b'\n') {
        if line.is_empty() {
            return length;
        }
        length = length.saturating_add(line.len()).saturating_add(1);
    }
    length
}

/// Goes through the rows of a text, which stand between blank lines. The text begins in line 2 of its file.
pub fn check_runs(alloc: Global, text: &[u8], tally: &mut Tally) {
    let mut first = 2u64;
    let mut rest = text;
    for _ in 0..text.len() {
        let (text, behind) = rest
            .split_at_checked(row_length(rest))
            .unwrap_or((rest, b""));
        let row = Row { first, text };
        if !row.is_empty() {
            check_row(alloc, row, tally);
        }
        first = first.saturating_add(count(text, b'\n')).saturating_add(1);
        let [_, rows @ ..] = behind else {
            return;
        };
        rest = rows;
    }
}

/// What a row gives to a call.
fn stage_of(alloc: Global, row: Row<'_>, tally: &mut Tally) -> Result<Stage, NoMemory> {
    match sinks_of(alloc, row, tally) {
        Ok((out, err)) => Ok(Stage {
            words: words_of(alloc, row, tally),
            loader: loader_of(alloc, row, tally),
            input: source_of(alloc, row, tally),
            out,
            err,
        }),
        Err(error) => Err(error),
    }
}

/// Plays a row, and keeps what comes.
pub fn play(alloc: Global, row: Row<'_>, came: &mut Came, tally: &mut Tally) {
    match stage_of(alloc, row, tally) {
        Ok(mut stage) => stage.play(alloc, came),
        Err(_) => tally.spend(),
    }
}

/// Plays a row, and compares what comes with what is wanted.
fn check_row(alloc: Global, row: Row<'_>, tally: &mut Tally) {
    let mut came = Came::new(alloc);
    let mut shown = Shown::new(alloc);
    row.refuse_strangers(tally);
    play(alloc, row, &mut came, tally);
    came.show(&mut shown);
    let holds = is_wanted(alloc, row, &came, tally);
    tally.add(row.first, holds, shown.text.as_str());
}

/// Whether what came is what a row wants.
fn is_wanted(alloc: Global, row: Row<'_>, came: &Came, tally: &mut Tally) -> bool {
    wanted_status(row, tally) == u64::from(came.status)
        && is_text(alloc, row, b"out", came.out.bytes.as_slice(), tally)
        && is_text(alloc, row, b"err", came.err.bytes.as_slice(), tally)
}

/// The status that a row wants.
fn wanted_status(row: Row<'_>, tally: &mut Tally) -> u64 {
    match row.number(b"status", tally) {
        Some(number) => number,
        None => {
            tally.refuse(row.first, Wrong::NoAnswer);
            0
        }
    }
}

/// Whether bytes are the text behind a heading.
fn is_text(alloc: Global, row: Row<'_>, heading: &[u8], bytes: &[u8], tally: &mut Tally) -> bool {
    row.text(alloc, heading, tally).as_slice() == bytes
}
