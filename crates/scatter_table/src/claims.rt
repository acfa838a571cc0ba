// Claims.
ghost use Rattle.std.specs.Prelude.{◌≡◌, ℕ, ◌+◌, ◌<◌, ◌≤◌, ◌++◌, [], ◌∷◌, IfOk, length, min, replicate};
ghost use Rattle.phase_model.specs.Kept.{DoneOnce};
ghost use Rattle.phase_model.specs.Laws.{LeastClaimed};
ghost use Rattle.phase_model.specs.Tables.{pair as of};
ghost use Rattle.pair_table.specs.Pairs.{IsSeatOf, Raced};
ghost use Rattle.pair_table.specs.declared.operation.Operation.TheVariants.{Min};

use crate::ClaimSeat;
use fut_scalar::{List, NoMemory};
use pair_table::{Operation, PairTable};
use std::alloc::Global;
use std::marker::Model;

/// Places that pairs claim by their numbers. It is shared by reference.
#[derive(Drop)]
pub struct Claims {
    pairs: PairTable,
}

impl Model for Claims {
    ghost Value = { Raced };

    ghost view = { λ s. s.pairs };

    ghost invariant = { λ s. s.pairs.operation ≡ Min };
}

impl Claims {
    /// Places that nothing claims, all with the greatest number, for as many seats as there are parts, and the first seat,
    /// which has all parts.
    pub fn open(alloc: Global, places: u64, parts: u64) -> Result<(Claims, ClaimSeat), NoMemory>
        requires { (1 ≤ parts) × (parts ≤ 64) }
        ensures table { IfOk result (λ r. (r.0.old ≡ replicate places 18446744073709551615) × (r.0.parts ≡ parts)) }
        ensures seat { IfOk result (λ r. IsSeatOf r.0 r.1 × (r.1.parts ≡ parts) × (r.1.pairs ≡ [])) }
    {
        let words = vec![in alloc; u64::MAX; places as usize]?;
        let (pairs, seat) = PairTable::open(alloc, Operation::Min, List::from_vec(words), parts)?;
        Ok((Claims { pairs }, seat))
    }

    /// Claims a place for the pair with this number, which joins the seat's pairs as the word of that place.
    pub fn claim(&self, seat: &mut ClaimSeat, place: u64, pair: u64)
        requires own { IsSeatOf self.now seat.old }
        requires place { place < length self.now.old }
        ensures { IsSeatOf self.now seat.new × (seat.new.parts ≡ seat.old.parts) × (seat.new.pairs ≡ seat.old.pairs ++ of place pair ∷ []) }
    {
        self.pairs.step(seat, place, pair);
    }

    /// A seat for another worker, which has one part and has claimed nothing.
    pub fn split(&self, seat: &mut ClaimSeat) -> ClaimSeat
        requires own { IsSeatOf self.now seat.old }
        requires parts { 2 ≤ seat.old.parts }
        ensures kept { IsSeatOf self.now seat.new × (seat.new.parts + 1 ≡ seat.old.parts) × (seat.new.pairs ≡ seat.old.pairs) }
        ensures given { IsSeatOf self.now result × (result.parts ≡ 1) × (result.pairs ≡ []) }
    {
        self.pairs.split(seat)
    }

    /// Takes in another worker's seat: the seat has the parts and the pairs of both.
    pub fn join(&self, seat: &mut ClaimSeat, other: ClaimSeat)
        requires { IsSeatOf self.now seat.old × IsSeatOf self.now other }
        ensures { IsSeatOf self.now seat.new × (seat.new.parts ≡ seat.old.parts + other.parts) × (seat.new.pairs ≡ seat.old.pairs ++ other.pairs) }
    {
        self.pairs.join(seat, other);
    }

    /// How many claims a seat made, or the greatest number where that is passed.
    pub fn steps(seat: &ClaimSeat) -> u64
        ensures { result ≡ min (length seat.now.pairs) 18446744073709551615 }
    {
        seat.steps()
    }

    /// For each place the least number that claimed it, once the only seat that is left has made its claims, and the greatest
    /// number where none did.
    pub fn close(self, seat: ClaimSeat) -> List<u64>
        requires own { IsSeatOf self seat }
        requires parts { seat.parts ≡ self.parts }
        ensures order { DoneOnce min self.old result seat.pairs }
        ensures length { length result ≡ length self.old }
        ensures words { LeastClaimed self.old result seat.pairs }
    {
        let Claims { pairs } = self;
        pairs.close(seat)
    }
}
