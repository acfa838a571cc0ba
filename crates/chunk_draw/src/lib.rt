//! The numbers of chunks, which workers draw from one counter.
//!
//! Each worker has a seat. Once one seat is left and has been told that no chunk is left, it has drawn each chunk exactly
//! once, whichever threads drew it and however their steps fell. After it is opened nothing here takes memory or waits.
#![tactic(auto)]

ghost use Rattle.std.specs.Prelude.{◌≡◌, ℕ, ◌+◌, ◌<◌, ◌≤◌, ◌++◌, [], ◌∷◌, true, false, All, IfOk, IfSome, IfNone, List};
ghost use Rattle.phase_model.specs.Kept.{EachChunkOnce};
ghost use Rattle.chunk_draw.specs.Drawing.{ends};
ghost use Rattle.chunk_draw.specs.Seats.{DrawTable, Drawn, DrawsOne, IsSeatOf, has_ended};

mod rule;

use atomic_table::{Seat, Table};
use fut_scalar::NoMemory;
use phase_model::View;
use rule::{Cut, Draws, Glue, Keeps, Plan};
use std::alloc::Global;
use std::marker::Model;

/// The chunks that are to be drawn. It is shared by reference.
#[derive(Drop)]
pub struct Draw {
    table: Table<(), View<u64>, Plan, Keeps, Global>,
    chunks: u64,
}

impl Model for Draw {
    ghost Value = { DrawTable };

    ghost view = { λ d. record { id = d.table.shared.table_id; chunks = d.chunks; parts = d.table.shared.key.parts } };

    ghost invariant = { λ d. (d.table.shared.table_id.words ≡ 1) × (d.table.shared.table_id.slots ≡ 0) × (d.table.shared.key.chunks ≡ d.chunks) };
}

/// What one worker has drawn, and its parts of the right to be the only one left.
#[derive(Drop)]
pub struct DrawSeat {
    seat: Seat<(), View<u64>>,
    chunks: u64,
    ended: bool,
}

impl Model for DrawSeat {
    ghost Value = { Drawn };

    ghost view = { λ s. record { id = s.seat.table_id; chunks = s.chunks; parts = s.seat.me.0.parts; numbers = s.seat.me.0.seen } };

    ghost invariant = { λ s. (s.seat.me.1 ≡ []) × (0 < s.seat.me.0.parts) × (s.ended ≡ ends s.chunks s.seat.me.0.seen) };
}

impl Draw {
    /// Chunks for as many seats as there are parts, and the first seat, which has all parts.
    pub fn open(alloc: Global, chunks: u64, parts: u64) -> Result<(Draw, DrawSeat), NoMemory>
        requires chunks { chunks ≤ 33554432 }
        requires parts { (1 ≤ parts) × (parts ≤ 64) }
        ensures table { IfOk result (λ r. (r.0.chunks ≡ chunks) × (r.0.parts ≡ parts)) }
        ensures seat { IfOk result (λ r. IsSeatOf r.0 r.1 × (r.1.parts ≡ parts) × (r.1.numbers ≡ [])) }
    {
        let (table, seat) = Table::of_words(alloc, &[0], &Plan { chunks, parts })?;
        let draw = Draw { table, chunks };
        let seat = DrawSeat {
            seat,
            chunks,
            ended: false,
        };
        Ok((draw, seat))
    }

    /// A chunk that no seat drew before, or none where all are drawn. A seat that was told so once is told so again, and draws
    /// no more.
    pub fn next(&self, seat: &mut DrawSeat) -> Option<u64>
        requires { IsSeatOf self.now seat.old }
        ensures own { IsSeatOf self.now seat.new × (seat.new.parts ≡ seat.old.parts) }
        ensures step { DrawsOne seat.old seat.new }
        ensures some { IfSome result (λ c. (c < self.now.chunks) × (seat.new.numbers ≡ seat.old.numbers ++ c ∷ []) × All (λ x. x < c) seat.old.numbers × (has_ended seat.new ≡ false)) }
        ensures none { IfNone result ((has_ended seat.new ≡ true) × (more : List ℕ) × All (λ n. self.now.chunks ≤ n) more × (seat.new.numbers ≡ seat.old.numbers ++ more)) }
    {
        if seat.ended {
            return None;
        }
        let drawn = self.table.shared.fetch_add::<Draws>(&mut seat.seat, 0, 1);
        if drawn < self.chunks {
            return Some(drawn);
        }
        seat.ended = true;
        None
    }

    /// A seat for another worker, which has one part and has drawn nothing.
    pub fn split(&self, seat: &mut DrawSeat) -> DrawSeat
        requires own { IsSeatOf self.now seat.old }
        requires parts { 2 ≤ seat.old.parts }
        requires open { has_ended seat.old ≡ false }
        ensures kept { IsSeatOf self.now seat.new × (seat.new.parts + 1 ≡ seat.old.parts) × (seat.new.numbers ≡ seat.old.numbers) }
        ensures given { IsSeatOf self.now result × (result.parts ≡ 1) × (result.numbers ≡ []) }
    {
        let other = self.table.shared.split_seat::<Cut>(&mut seat.seat);
        DrawSeat {
            seat: other,
            chunks: self.chunks,
            ended: false,
        }
    }

    /// Takes in another worker's seat: the seat has the parts of both and what both drew.
    pub fn join(&self, seat: &mut DrawSeat, other: DrawSeat)
        requires own { IsSeatOf self.now seat.old × IsSeatOf self.now other }
        ensures { IsSeatOf self.now seat.new × (seat.new.parts ≡ seat.old.parts + other.parts) × (seat.new.numbers ≡ seat.old.numbers ++ other.numbers) }
    {
        let DrawSeat {
            seat: theirs,
            chunks: _,
            ended,
        } = other;
        self.table.shared.join_seat::<Glue>(&mut seat.seat, theirs);
        seat.ended = seat.ended || ended;
    }

    /// Ends the drawing. The only seat that is left has drawn each chunk once, if it was told that none is left.
    pub fn finish(self, seat: DrawSeat)
        requires own { IsSeatOf self seat }
        requires parts { seat.parts ≡ self.parts }
        ensures { has_ended seat ≡ true → EachChunkOnce self.chunks seat.numbers }
    {
        let DrawSeat {
            seat: last,
            chunks: _,
            ended: _,
        } = seat;
        let Draw { table, chunks: _ } = self;
        table.close_with(last).free();
    }
}
