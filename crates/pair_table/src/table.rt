// The table and its seats.
ghost use Rattle.std.specs.Prelude.{◌≡◌, ℕ, ◌+◌, ◌<◌, ◌≤◌, ◌++◌, [], ◌∷◌, IfOk, length, min, take};
ghost use Rattle.std.specs.Slots.{slots_items, slots_len, IsFull};
ghost use Rattle.phase_model.specs.Kept.{DoneOnce};
ghost use Rattle.phase_model.specs.Tables.{pair, padded};
ghost use Rattle.pair_table.specs.Pairs.{op_of, Raced, Did, IsSeatOf};

use crate::operation::Operation;
use crate::rule::{Cut, Does, Glue, Keeps, Start};
use atomic_table::{Closed, Seat, Table};
use fut_scalar::{List, NoMemory};
use phase_model::{Pair, View};
use std::alloc::Global;
use std::marker::Model;

/// Words on which workers race to do pairs, all by the same operation. It is shared by reference.
#[derive(Drop)]
pub struct PairTable {
    table: Table<(), View<Pair>, Start, Keeps, Global>,
    operation: Operation,
    words: List<u64>,
}

impl Model for PairTable {
    ghost Value = { Raced };

    ghost view = { λ t. record { id = t.table.shared.table_id; operation = t.operation; old = t.words; parts = t.table.shared.key.parts } };

    ghost invariant = { λ t. (0 < t.table.shared.table_id.words) × (length t.words ≤ t.table.shared.table_id.words) × (t.table.shared.table_id.slots ≡ 0) × (t.table.shared.key.words ≡ t.words) × (t.table.shared.key.operation ≡ t.operation) };
}

/// The pairs that one worker did, and its parts of the right to be the only one left.
#[derive(Drop)]
pub struct PairSeat {
    seat: Seat<(), View<Pair>>,
    steps: u64,
}

impl Model for PairSeat {
    ghost Value = { Did };

    ghost view = { λ s. record { id = s.seat.table_id; parts = s.seat.me.0.parts; pairs = s.seat.me.0.seen } };

    ghost invariant = { λ s. (s.seat.me.1 ≡ []) × (0 < s.seat.me.0.parts) × (s.steps ≡ min (length s.seat.me.0.seen) 18446744073709551615) };
}

impl PairTable {
    /// A table of these words for as many seats as there are parts, and the first seat, which has all parts.
    pub fn open(
        alloc: Global,
        operation: Operation,
        words: List<u64>,
        parts: u64,
    ) -> Result<(PairTable, PairSeat), NoMemory>
        requires { (1 ≤ parts) × (parts ≤ 64) }
        ensures table { IfOk result (λ r. (r.0.operation ≡ operation) × (r.0.old ≡ words) × (r.0.parts ≡ parts)) }
        ensures seat { IfOk result (λ r. IsSeatOf r.0 r.1 × (r.1.parts ≡ parts) × (r.1.pairs ≡ [])) }
    {
        let start = Start {
            operation,
            words,
            parts,
        };
        let (table, seat) = laid_out(alloc, &start)?;
        let Start { words, .. } = start;
        let table = PairTable {
            table,
            operation,
            words,
        };
        Ok((table, PairSeat { seat, steps: 0 }))
    }

    /// Does one pair, by one atomic step. The pair joins the seat's.
    pub fn step(&self, seat: &mut PairSeat, place: u64, word: u64)
        requires own { IsSeatOf self.now seat.old }
        requires place { place < length self.now.old }
        ensures { IsSeatOf self.now seat.new × (seat.new.parts ≡ seat.old.parts) × (seat.new.pairs ≡ seat.old.pairs ++ pair place word ∷ []) }
    {
        let table = &self.table.shared;
        let at = place as usize;
        match self.operation {
            Operation::Store => {
                table.store::<Does>(&mut seat.seat, at, word);
            }
            Operation::Add => {
                table.fetch_add::<Does>(&mut seat.seat, at, word);
            }
            Operation::And => {
                table.fetch_and::<Does>(&mut seat.seat, at, word);
            }
            Operation::Or => {
                table.fetch_or::<Does>(&mut seat.seat, at, word);
            }
            Operation::Xor => {
                table.fetch_xor::<Does>(&mut seat.seat, at, word);
            }
            Operation::Max => {
                table.fetch_max::<Does>(&mut seat.seat, at, word);
            }
            Operation::Min => {
                table.fetch_min::<Does>(&mut seat.seat, at, word);
            }
        }
        seat.steps = seat.steps.saturating_add(1);
    }

    /// A seat for another worker, which has one part and has done nothing.
    pub fn split(&self, seat: &mut PairSeat) -> PairSeat
        requires own { IsSeatOf self.now seat.old }
        requires parts { 2 ≤ seat.old.parts }
        ensures kept { IsSeatOf self.now seat.new × (seat.new.parts + 1 ≡ seat.old.parts) × (seat.new.pairs ≡ seat.old.pairs) }
        ensures given { IsSeatOf self.now result × (result.parts ≡ 1) × (result.pairs ≡ []) }
    {
        let other = self.table.shared.split_seat::<Cut>(&mut seat.seat);
        PairSeat {
            seat: other,
            steps: 0,
        }
    }

    /// Takes in another worker's seat: the seat has the parts of both and what both did.
    pub fn join(&self, seat: &mut PairSeat, other: PairSeat)
        requires { IsSeatOf self.now seat.old × IsSeatOf self.now other }
        ensures { IsSeatOf self.now seat.new × (seat.new.parts ≡ seat.old.parts + other.parts) × (seat.new.pairs ≡ seat.old.pairs ++ other.pairs) }
    {
        let PairSeat {
            seat: theirs,
            steps,
        } = other;
        self.table.shared.join_seat::<Glue>(&mut seat.seat, theirs);
        seat.steps = seat.steps.saturating_add(steps);
    }

    /// The words, once the only seat that is left has done its pairs. They stand in the list that the table was opened with.
    pub fn close(self, seat: PairSeat) -> List<u64>
        requires own { IsSeatOf self seat }
        requires parts { seat.parts ≡ self.parts }
        ensures { DoneOnce (op_of self.operation) self.old result seat.pairs }
    {
        let PairTable {
            table,
            operation: _,
            words,
        } = self;
        let PairSeat {
            seat: last,
            steps: _,
        } = seat;
        read_back(words, table.close_with(last))
    }
}

impl PairSeat {
    /// How many pairs the seat did, or the greatest number where that is passed.
    pub fn steps(&self) -> u64
        ensures { result ≡ min (length self.now.pairs) 18446744073709551615 }
    {
        self.steps
    }
}

// The table with a word at least, and its first seat.
fn laid_out(
    alloc: Global,
    start: &Start,
) -> Result<
    (
        Table<(), View<Pair>, Start, Keeps, Global>,
        Seat<(), View<Pair>>,
    ),
    NoMemory,
>
    ensures table { IfOk result (λ r. (0 < r.0.shared.table_id.words) × (length start.now.words ≤ r.0.shared.table_id.words) × (r.0.shared.table_id.slots ≡ 0) × (r.0.shared.key ≡ start.now)) }
    ensures seat { IfOk result (λ r. (r.1.table_id ≡ r.0.shared.table_id) × (r.1.me.0.parts ≡ start.now.parts) × (r.1.me.0.seen ≡ []) × (r.1.me.1 ≡ [])) }
{
    let spare = [0];
    let words = if start.words.len() == 0 {
        &spare
    } else {
        start.words.as_slice()
    };
    Ok(Table::of_words(alloc, words, start)?)
}

// Fills a list again from the table that was made of it.
fn read_back(mut words: List<u64>, closed: Closed<(), Global>) -> List<u64>
    requires long { length words ≤ slots_len closed.words }
    requires full { IsFull closed.words × (slots_len closed.slots ≡ 0) }
    ensures { result ≡ take (length words) (slots_items closed.words) }
{
    for i in 0..words.len() {
        words.set(i, closed.word(i));
    }
    closed.free();
    words
}
