//! The destination of a histogram whose operator is known: workers combine words with those of the destination, each by one
//! atomic step, so no combination is lost. After it is opened nothing here takes memory or waits.
#![tactic(auto)]

ghost use Rattle.std.specs.Prelude.{◌≡◌, ℕ, ◌+◌, ◌<◌, ◌≤◌, ◌++◌, [], ◌∷◌, IfOk, length, min};
ghost use Rattle.phase_model.specs.Kept.{DoneOnce};
ghost use Rattle.phase_model.specs.Laws.{EachCombined};
ghost use Rattle.phase_model.specs.Tables.{pair};
ghost use Rattle.pair_table.specs.Pairs.{op_of, IsSeatOf, Raced};
ghost use Rattle.hist_table.specs.Operators.{operation_of};

use fut_scalar::{List, NoMemory};
pub use pair_table::PairSeat as HistSeat;
use pair_table::{Operation, PairTable};
use std::alloc::Global;
use std::marker::Model;

/// An operator that is one atomic step. A sum is taken modulo 2 to the 64.
#[derive(Clone, Copy)]
pub enum HistOp {
    Add,
    And,
    Or,
    Xor,
    Max,
    Min,
}

impl HistOp {
    fn operation(self) -> Operation
        ensures { result ≡ operation_of self }
    {
        match self {
            HistOp::Add => Operation::Add,
            HistOp::And => Operation::And,
            HistOp::Or => Operation::Or,
            HistOp::Xor => Operation::Xor,
            HistOp::Max => Operation::Max,
            HistOp::Min => Operation::Min,
        }
    }
}

/// The destination of a histogram. It is shared by reference.
#[derive(Drop)]
pub struct Hist {
    pairs: PairTable,
}

impl Model for Hist {
    ghost Value = { Raced };

    ghost view = { λ s. s.pairs };
}

impl Hist {
    /// A destination of these words for as many seats as there are parts, and the first seat, which has all parts.
    pub fn open(
        alloc: Global,
        op: HistOp,
        words: List<u64>,
        parts: u64,
    ) -> Result<(Hist, HistSeat), NoMemory>
        requires { (1 ≤ parts) × (parts ≤ 64) }
        ensures table { IfOk result (λ r. (r.0.operation ≡ operation_of op) × (r.0.old ≡ words) × (r.0.parts ≡ parts)) }
        ensures seat { IfOk result (λ r. IsSeatOf r.0 r.1 × (r.1.parts ≡ parts) × (r.1.pairs ≡ [])) }
    {
        let (pairs, seat) = PairTable::open(alloc, op.operation(), words, parts)?;
        Ok((Hist { pairs }, seat))
    }

    /// Combines the word of a pair with that of its place. The pair joins the seat's.
    pub fn combine(&self, seat: &mut HistSeat, place: u64, word: u64)
        requires own { IsSeatOf self.now seat.old }
        requires place { place < length self.now.old }
        ensures { IsSeatOf self.now seat.new × (seat.new.parts ≡ seat.old.parts) × (seat.new.pairs ≡ seat.old.pairs ++ pair place word ∷ []) }
    {
        self.pairs.step(seat, place, word);
    }

    /// A seat for another worker, which has one part and has combined nothing.
    pub fn split(&self, seat: &mut HistSeat) -> HistSeat
        requires own { IsSeatOf self.now seat.old }
        requires parts { 2 ≤ seat.old.parts }
        ensures kept { IsSeatOf self.now seat.new × (seat.new.parts + 1 ≡ seat.old.parts) × (seat.new.pairs ≡ seat.old.pairs) }
        ensures given { IsSeatOf self.now result × (result.parts ≡ 1) × (result.pairs ≡ []) }
    {
        self.pairs.split(seat)
    }

    /// Takes in another worker's seat: the seat has the parts and the pairs of both.
    pub fn join(&self, seat: &mut HistSeat, other: HistSeat)
        requires { IsSeatOf self.now seat.old × IsSeatOf self.now other }
        ensures { IsSeatOf self.now seat.new × (seat.new.parts ≡ seat.old.parts + other.parts) × (seat.new.pairs ≡ seat.old.pairs ++ other.pairs) }
    {
        self.pairs.join(seat, other);
    }

    /// How many pairs a seat combined, or the greatest number where that is passed.
    pub fn steps(seat: &HistSeat) -> u64
        ensures { result ≡ min (length seat.now.pairs) 18446744073709551615 }
    {
        seat.steps()
    }

    /// The words, once the only seat that is left has combined its pairs: each is the old one combined with the word of every
    /// pair for its place, each once, in some order.
    pub fn close(self, seat: HistSeat) -> List<u64>
        requires own { IsSeatOf self seat }
        requires parts { seat.parts ≡ self.parts }
        ensures order { DoneOnce (op_of self.operation) self.old result seat.pairs }
        ensures length { length result ≡ length self.old }
        ensures words { EachCombined (op_of self.operation) self.old result seat.pairs }
    {
        let Hist { pairs } = self;
        pairs.close(seat)
    }
}
