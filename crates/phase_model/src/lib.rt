//! The machine behind the phases that run on workers: what the workers know taken together, and the rule that each of their
//! steps keeps.
//!
//! Workers draw chunks from one counter and do the pairs of their chunks, each by one atomic step on a word. Whatever the
//! order of the steps, each chunk is drawn once and each pair done once (`specs/Machine.antt`). The rule is stated over lists
//! of numbers and pairs alone (`specs/Kept.antt`), so the running tables of the crates above keep the same one.
#![tactic(auto)]

ghost use Rattle.phase_model.specs.Machine.{AlwaysKept, EndedRun, Job, Kind, WordsFollow};

use std::collections::LinkedList;

/// What a seat of a table knows: how many parts it has of the right to be the only one left, and the numbers or pairs of its
/// steps. It stands in proofs alone: no value of it is made.
pub struct View<X> {
    pub parts: u64,
    pub seen: LinkedList<X>,
}

/// A word for a place of the destination.
#[derive(Clone, Copy)]
pub struct Pair {
    pub place: u64,
    pub word: u64,
}

/// One atomic step of the worker with this number. A `Join` names the worker that is spent behind the one that goes on.
#[derive(Clone, Copy)]
pub enum Event {
    Fork(u64),
    Join(u64, u64),
    Draw(u64),
    Put(u64),
    Claim(u64),
    Combine(u64),
}

/// Whatever the events are and however they fall: each keeps the rule, the rule tells each word, and an ended run has drawn
/// each chunk once and done each pair of the job once.
pub fn ended_run_is_outcome()
    ensures kept { (job : Job) → AlwaysKept job }
    ensures words { (kind : Kind) → WordsFollow kind }
    ensures outcome { (job : Job) → EndedRun job }
{}
