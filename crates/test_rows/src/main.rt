//! Worked examples of the whole product as rows of data: runs, trees, flat programs, types, tokens, operations on scalars, and
//! texts that are drawn. The files are named as arguments; the head of each says what its rows are, and `README` how they are written.
//!
//! A line tells of each file how many rows hold, or how many differ and what came of the first of these.
#![tactic(auto)]

mod draws;
mod elaborated;
mod fault;
mod parts;
mod rows;
mod runs;
mod scalars;
mod stage;
mod tally;
mod texts;
mod tokens;
mod trees;

use crate::draws::Draws;
use crate::elaborated::Elaborated;
use crate::fault::{Fault, Wrong};
use crate::parts::{cut, text_of};
use crate::rows::{Answers, Rows};
use crate::runs::check_runs;
use crate::scalars::Scalars;
use crate::tally::Tally;
use crate::tokens::Tokens;
use crate::trees::Trees;
use std::alloc::Global;
use std::process::ExitCode;
use std::{env, fs, io};
use test_shown::Shown;

/// Goes through the rows of a text by what answers them.
fn check_by<A: Answers + Drop>(alloc: Global, answers: A, text: &[u8], tally: &mut Tally) {
    let mut answers = answers;
    Rows::new(alloc).check(&mut answers, text, tally);
}

/// Goes through the rows of a file's text. Its first line says what they are.
fn check_rows(alloc: Global, text: &[u8], tally: &mut Tally) {
    let (head, rest) = cut(text, b'\n').unwrap_or((text, b""));
    match text_of(head) {
        "rows of runs" => check_runs(alloc, rest, tally),
        "rows of trees" => check_by(alloc, Trees::new(alloc), rest, tally),
        "rows of names" => check_by(alloc, Elaborated::new(alloc, false), rest, tally),
        "rows of types" => check_by(alloc, Elaborated::new(alloc, true), rest, tally),
        "rows of tokens" => check_by(alloc, Tokens::new(alloc), rest, tally),
        "rows of scalars" => check_by(alloc, Scalars, rest, tally),
        "rows of draws" => check_by(alloc, Draws::new(alloc), rest, tally),
        _ => tally.refuse(1, Wrong::Kind),
    }
}

/// Tells of a file what came of its rows.
fn tell(tally: &Tally, shown: &mut Shown) {
    match tally.fault {
        Some(Fault::Memory) => shown.push(": memory ran out"),
        Some(Fault::Malformed { line, wrong }) => {
            shown.numbered(":", line);
            shown.named(": ", wrong.text());
        }
        None => tell_rows(tally, shown),
    }
}

fn tell_rows(tally: &Tally, shown: &mut Shown) {
    shown.numbered(": ", tally.rows);
    shown.push(" rows");
    if tally.differing > 0 {
        shown.numbered(", of which ", tally.differing);
        shown.numbered(" differ, the first in line ", tally.line);
        shown.named(", where came ", tally.came.as_str());
    } else if tally.rows > 0 {
        shown.push(" hold");
    }
}

/// Goes through a file, tells what came of it, and says whether all its rows hold.
fn check_file(rt: &HostRuntime, name: &str) -> bool {
    let mut shown = Shown::new(rt.alloc());
    let mut tally = Tally::new(rt.alloc());
    shown.push(name);
    match fs::read(rt, name) {
        Ok(text) => check_rows(rt.alloc(), text.as_slice(), &mut tally),
        Err(_) => shown.push(" cannot be read"),
    }
    tell(&tally, &mut shown);
    let is_told = rt.println(shown.text.as_str()).is_ok();
    is_told && tally.all_hold() && !shown.is_spent
}

fn main(rt: HostRuntime) -> io::Result<ExitCode> {
    let mut is_used = false;
    let mut all_hold = true;
    for name in env::args(&rt)?.skip(1) {
        is_used = true;
        all_hold = check_file(&rt, name.as_str()) && all_hold;
    }
    if !is_used {
        println!(rt; "usage: test_rows FILE.rows ..")?;
    }
    Ok(if is_used && all_hold {
        ExitCode::SUCCESS
    } else {
        ExitCode::FAILURE
    })
}
