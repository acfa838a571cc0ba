//! The table of `pair_table` is one that workers share.
ghost use Rattle.std.specs.Prelude.{◌≡◌};

use crate::SharedTable;
use pair_table::{PairSeat, PairTable};

impl SharedTable<PairSeat> for PairTable {
    ghost old = { λ t. t.old };

    ghost is_of = { λ t s. s.id ≡ t.id };

    ghost parts = { λ s. s.parts };

    ghost pairs = { λ s. s.pairs };

    fn step(&self, seat: &mut PairSeat, place: u64, word: u64) {
        PairTable::step(self, seat, place, word);
    }

    fn split(&self, seat: &mut PairSeat) -> PairSeat {
        PairTable::split(self, seat)
    }

    fn join(&self, seat: &mut PairSeat, other: PairSeat) {
        PairTable::join(self, seat, other);
    }
}
