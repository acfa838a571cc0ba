//! Runs a task for each chunk of a job on workers, which draw the chunks.
//!
//! Threads are started in two calls alone. [`in_chunks`] gives the outcomes of all chunks in the order of the chunks.
//! [`pairs_in_chunks`] puts the pairs of all chunks into a shared table besides, and gives what is kept of the outcomes.
//! What they promise holds for every number of workers, whichever chunks each of them draws and however their steps fall.
//! That more than one thread runs is no promise of theirs: the tests of `tried_phases` show it.
#![tactic(auto)]

ghost use Rattle.std.specs.Prelude.{◌≡◌, ℕ, ◌+◌, List, [], ◌∷◌, ◌++◌, ◌<◌, ◌≤◌, IfOk, length};
ghost use Rattle.phase_model.specs.declared.Pair.{Pair};
ghost use Rattle.phase_model.specs.Tables.{pair};

mod outcome;
mod pairs;
mod pairs_work;
mod runs;
mod tables;
mod work;
mod workers;

use fut_scalar::NoMemory;
pub use outcome::Done;
pub use pairs::pairs_in_chunks;
pub use runs::in_chunks;
use std::alloc::Global;
pub use workers::{MOST_WORKERS, workers_for};

/// Is told of each chunk by the worker that drew it, before the chunk is run. Tests hold chunks by it; it decides nothing.
pub trait Gate: Sync {
    fn at(&self, worker: u32, chunk: u64);
}

/// Lets each chunk pass.
pub struct OpenGate;

impl Gate for OpenGate {
    fn at(&self, _worker: u32, _chunk: u64) {}
}

/// What is to be done for each chunk, with an outcome of type `O`.
pub trait Task<O> {
    /// What may come of the chunk with this number.
    ghost ran: { Self → ℕ → O → Type 0 };

    /// How many chunks there are.
    ghost chunks: { Self → ℕ };

    fn run(&self, alloc: Global, chunk: u64) -> Result<O, NoMemory>
        requires { chunk < chunks self.now }
        ensures { IfOk result (λ o. ran self.now chunk o) };
}

/// A table into which workers put pairs of a place and a word. `S` is a seat at it: what one worker knows of it.
pub trait SharedTable<S> {
    /// The words that the table began with.
    ghost old: { Self → List ℕ };

    /// The seat is one at this table.
    ghost is_of: { Self → S → Type 0 };

    /// The seat's parts of the right to be the only one left.
    ghost parts: { S → ℕ };

    /// The pairs that the seat has put.
    ghost pairs: { S → List Pair };

    /// Puts one pair.
    fn step(&self, seat: &mut S, place: u64, word: u64)
        requires own { is_of self.now seat.old }
        requires place { place < length (old self.now) }
        ensures { is_of self.now seat.new × (parts seat.new ≡ parts seat.old) × (pairs seat.new ≡ pairs seat.old ++ pair place word ∷ []) };

    /// The new seat has one of the seat's parts, and no pair.
    fn split(&self, seat: &mut S) -> S
        requires own { is_of self.now seat.old }
        requires parts { 2 ≤ parts seat.old }
        ensures kept { is_of self.now seat.new × (parts seat.new + 1 ≡ parts seat.old) × (pairs seat.new ≡ pairs seat.old) }
        ensures given { is_of self.now result × (parts result ≡ 1) × (pairs result ≡ []) };

    /// The seat has the parts and the pairs of both.
    fn join(&self, seat: &mut S, other: S)
        requires { is_of self.now seat.old × is_of self.now other }
        ensures { is_of self.now seat.new × (parts seat.new ≡ parts seat.old + parts other) × (pairs seat.new ≡ pairs seat.old ++ pairs other) };
}

/// The outcome of a chunk that has pairs for a table, of which a `K` is kept once they are put.
pub trait Puts<K> {
    /// Its pairs in a table of so many places.
    ghost pairs_of: { ℕ → Self → List Pair };

    /// What may be kept of it.
    ghost keeps: { Self → K → Type 0 };

    fn put<S, P: SharedTable<S>>(self, alloc: Global, table: &P, seat: &mut S, places: u64) -> K
        requires own { P.is_of table.now seat.old }
        requires places { places ≡ length (P.old table.now) }
        ensures own { P.is_of table.now seat.new × (P.parts seat.new ≡ P.parts seat.old) }
        ensures pairs { P.pairs seat.new ≡ P.pairs seat.old ++ pairs_of places self }
        ensures kept { keeps self result };
}
