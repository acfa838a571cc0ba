//! Workers that draw chunks, run them and put their pairs.
ghost use Rattle.std.specs.Prelude.{◌≡◌, ℕ, ◌+◌, ◌-◌, ◌*◌, ◌<◌, ◌≤◌, ◌++◌, [], true, false, IfOk, All, length};
ghost use Rattle.std.specs.Thread.{IsSync, IsSend};
ghost use Rattle.chunk_draw.specs.Seats.{IsSeatOf, has_ended};
ghost use Rattle.chunk_work.specs.Runs.{Accounts};
ghost use Rattle.chunk_work.specs.Puts.{EachPut};

use crate::{Done, Gate, Puts, SharedTable, Task};
use chunk_draw::{Draw, DrawSeat};
use fut_scalar::NoMemory;
use std::alloc::Global;
use std::thread::{Threads, join};

/// One worker runs the chunks that it draws and puts their pairs, until none is left.
pub fn pairs_alone<S: Drop, P: SharedTable<S>, K: Drop, O: Puts<K>, T: Task<O>, G: Gate>(
    alloc: Global,
    draw: &Draw,
    mut seat: DrawSeat,
    table: &P,
    mut mine: S,
    places: u64,
    task: &T,
    worker: u32,
    gate: &G,
) -> Result<(DrawSeat, S, Vec<Done<K>>), NoMemory>
    requires own { IsSeatOf draw.now seat × (seat.numbers ≡ []) × P.is_of table.now mine × (P.pairs mine ≡ []) }
    requires chunks { (draw.now.chunks ≤ T.chunks task.now) × (places ≡ length (P.old table.now)) }
    ensures seat { IfOk result (λ r. IsSeatOf draw.now r.0 × (r.0.parts ≡ seat.parts) × (has_ended r.0 ≡ true) × P.is_of table.now r.1 × (P.parts r.1 ≡ P.parts mine)) }
    ensures ran { IfOk result (λ r. EachPut (T.ran task.now) O.keeps (O.pairs_of places) draw.now.chunks r.2.items (P.pairs r.1) × Accounts draw.now.chunks r.2.items r.0.numbers) }
{
    let mut dones = Vec::new(alloc);
    while let Some(c) = draw.next(&mut seat) {
        gate.at(worker, c);
        let whole = task.run(alloc, c)?;
        let kept = whole.put(alloc, table, &mut mine, places);
        dones.push(Done {
            chunk: c,
            outcome: kept,
        })?;
    }
    Ok((seat, mine, dones))
}

/// As many workers as the seats have parts, each in a thread of its own where one can be made.
pub fn pairs_all<
    R: Threads + Sync,
    S: Send + Drop,
    P: SharedTable<S> + Sync,
    K: Send + Drop,
    O: Puts<K> + Send,
    T: Task<O> + Sync,
    G: Gate,
>(
    rt: &R,
    alloc: Global,
    draw: &Draw,
    mut seat: DrawSeat,
    table: &P,
    mut mine: S,
    places: u64,
    task: &T,
    workers: u32,
    gate: &G,
) -> Result<(DrawSeat, S, Vec<Done<K>>), NoMemory>
    requires own { IsSeatOf draw.now seat × (seat.numbers ≡ []) × P.is_of table.now mine × (P.pairs mine ≡ []) }
    requires workers { (0 < workers) × (seat.parts ≡ workers) × (P.parts mine ≡ workers) }
    requires chunks { (draw.now.chunks ≤ T.chunks task.now) × (places ≡ length (P.old table.now)) }
    ensures seat { IfOk result (λ r. IsSeatOf draw.now r.0 × (r.0.parts ≡ workers) × (has_ended r.0 ≡ true) × P.is_of table.now r.1 × (P.parts r.1 ≡ workers)) }
    ensures ran { IfOk result (λ r. EachPut (T.ran task.now) O.keeps (O.pairs_of places) draw.now.chunks r.2.items (P.pairs r.1) × Accounts draw.now.chunks r.2.items r.0.numbers) }
{
    let others = workers - 1;
    if others == 0 {
        return pairs_alone(alloc, draw, seat, table, mine, places, task, 0, gate);
    }
    let here = draw.split(&mut seat);
    let there = table.split(&mut mine);
    let one = move || -> Result<(DrawSeat, S, Vec<Done<K>>), NoMemory>
        requires own { IsSeatOf draw.now here × (here.numbers ≡ []) × (here.parts ≡ 1) × P.is_of table.now there × (P.pairs there ≡ []) × (P.parts there ≡ 1) }
        requires chunks { (draw.now.chunks ≤ T.chunks task.now) × (places ≡ length (P.old table.now)) }
        ensures seat { IfOk result (λ r. IsSeatOf draw.entry.now r.0 × (r.0.parts ≡ 1) × (has_ended r.0 ≡ true) × P.is_of table.entry.now r.1 × (P.parts r.1 ≡ 1)) }
        ensures ran { IfOk result (λ r. EachPut (T.ran task.entry.now) O.keeps (O.pairs_of places) draw.entry.now.chunks r.2.items (P.pairs r.1) × Accounts draw.entry.now.chunks r.2.items r.0.numbers) }
    { pairs_alone(alloc, draw, here, table, there, places, task, others, gate) };
    let rest = move || -> Result<(DrawSeat, S, Vec<Done<K>>), NoMemory>
        requires bounds { IsSync R.row × IsSync P.row × IsSync T.row × IsSync G.row × IsSend S.row × IsSend K.row × IsSend O.row }
        requires own { IsSeatOf draw.now seat × (seat.numbers ≡ []) × (0 < others) × (seat.parts ≡ others) × P.is_of table.now mine × (P.pairs mine ≡ []) × (P.parts mine ≡ others) }
        requires chunks { (draw.now.chunks ≤ T.chunks task.now) × (places ≡ length (P.old table.now)) }
        ensures seat { IfOk result (λ r. IsSeatOf draw.entry.now r.0 × (r.0.parts ≡ others) × (has_ended r.0 ≡ true) × P.is_of table.entry.now r.1 × (P.parts r.1 ≡ others)) }
        ensures ran { IfOk result (λ r. EachPut (T.ran task.entry.now) O.keeps (O.pairs_of places) draw.entry.now.chunks r.2.items (P.pairs r.1) × Accounts draw.entry.now.chunks r.2.items r.0.numbers) }
    {
        pairs_all(
            rt, alloc, draw, seat, table, mine, places, task, others, gate,
        )
    };
    let (first, second) = join(rt, one, rest);
    let (mut seat, mut mine, dones) = first?;
    let (theirs, more, added) = second?;
    draw.join(&mut seat, theirs);
    table.join(&mut mine, more);
    let all = joined(dones, added)?;
    Ok((seat, mine, all))
}

// Both lists, one behind the other.
fn joined<T: Drop>(mut first: Vec<T>, mut second: Vec<T>) -> Result<Vec<T>, NoMemory>
    ensures { IfOk result (λ v. v.items ≡ first.items ++ second.items) }
{
    first.append(&mut second)?;
    Ok(first)
}
