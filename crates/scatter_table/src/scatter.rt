// Stores.
ghost use Rattle.std.specs.Prelude.{◌≡◌, ℕ, ◌+◌, ◌<◌, ◌≤◌, ◌++◌, [], ◌∷◌, IfOk, length, min};
ghost use Rattle.phase_model.specs.Kept.{DoneOnce, stores};
ghost use Rattle.phase_model.specs.Laws.{OldOrStored};
ghost use Rattle.phase_model.specs.Tables.{pair};
ghost use Rattle.pair_table.specs.Pairs.{IsSeatOf, Raced};
ghost use Rattle.pair_table.specs.declared.operation.Operation.TheVariants.{Store};

use crate::ScatterSeat;
use fut_scalar::{List, NoMemory};
use pair_table::{Operation, PairTable};
use std::alloc::Global;
use std::marker::Model;

/// The destination of a scatter whose elements have one word. It is shared by reference.
#[derive(Drop)]
pub struct Scatter {
    pairs: PairTable,
}

impl Model for Scatter {
    ghost Value = { Raced };

    ghost view = { λ s. s.pairs };

    ghost invariant = { λ s. s.pairs.operation ≡ Store };
}

impl Scatter {
    /// A destination of these words for as many seats as there are parts, and the first seat, which has all parts.
    pub fn open(
        alloc: Global,
        words: List<u64>,
        parts: u64,
    ) -> Result<(Scatter, ScatterSeat), NoMemory>
        requires { (1 ≤ parts) × (parts ≤ 64) }
        ensures table { IfOk result (λ r. (r.0.old ≡ words) × (r.0.parts ≡ parts)) }
        ensures seat { IfOk result (λ r. IsSeatOf r.0 r.1 × (r.1.parts ≡ parts) × (r.1.pairs ≡ [])) }
    {
        let (pairs, seat) = PairTable::open(alloc, Operation::Store, words, parts)?;
        Ok((Scatter { pairs }, seat))
    }

    /// Stores the word of a pair at its place. The pair joins the seat's.
    pub fn put(&self, seat: &mut ScatterSeat, place: u64, word: u64)
        requires own { IsSeatOf self.now seat.old }
        requires place { place < length self.now.old }
        ensures { IsSeatOf self.now seat.new × (seat.new.parts ≡ seat.old.parts) × (seat.new.pairs ≡ seat.old.pairs ++ pair place word ∷ []) }
    {
        self.pairs.step(seat, place, word);
    }

    /// A seat for another worker, which has one part and has put nothing.
    pub fn split(&self, seat: &mut ScatterSeat) -> ScatterSeat
        requires own { IsSeatOf self.now seat.old }
        requires parts { 2 ≤ seat.old.parts }
        ensures kept { IsSeatOf self.now seat.new × (seat.new.parts + 1 ≡ seat.old.parts) × (seat.new.pairs ≡ seat.old.pairs) }
        ensures given { IsSeatOf self.now result × (result.parts ≡ 1) × (result.pairs ≡ []) }
    {
        self.pairs.split(seat)
    }

    /// Takes in another worker's seat: the seat has the parts and the pairs of both.
    pub fn join(&self, seat: &mut ScatterSeat, other: ScatterSeat)
        requires { IsSeatOf self.now seat.old × IsSeatOf self.now other }
        ensures { IsSeatOf self.now seat.new × (seat.new.parts ≡ seat.old.parts + other.parts) × (seat.new.pairs ≡ seat.old.pairs ++ other.pairs) }
    {
        self.pairs.join(seat, other);
    }

    /// How many pairs a seat put, or the greatest number where that is passed.
    pub fn steps(seat: &ScatterSeat) -> u64
        ensures { result ≡ min (length seat.now.pairs) 18446744073709551615 }
    {
        seat.steps()
    }

    /// The words, once the only seat that is left has put its pairs: each is the old one where no pair is for its place, else
    /// that of some pair there.
    pub fn close(self, seat: ScatterSeat) -> List<u64>
        requires own { IsSeatOf self seat }
        requires parts { seat.parts ≡ self.parts }
        ensures order { DoneOnce stores self.old result seat.pairs }
        ensures length { length result ≡ length self.old }
        ensures words { OldOrStored self.old result seat.pairs }
    {
        let Scatter { pairs } = self;
        pairs.close(seat)
    }
}
