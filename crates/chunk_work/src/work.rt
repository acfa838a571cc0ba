//! Workers that draw chunks and run them.
ghost use Rattle.std.specs.Prelude.{◌≡◌, ℕ, ◌+◌, ◌-◌, ◌*◌, ◌<◌, ◌≤◌, ◌++◌, [], true, false, IfOk, All};
ghost use Rattle.std.specs.Thread.{IsSend, IsSync};
ghost use Rattle.chunk_draw.specs.Seats.{IsSeatOf, has_ended};
ghost use Rattle.chunk_work.specs.Runs.{EachRan, Accounts};

use crate::{Done, Gate, Task};
use chunk_draw::{Draw, DrawSeat};
use fut_scalar::NoMemory;
use std::alloc::Global;
use std::thread::{Threads, join};

/// One worker runs the chunks that it draws, until none is left.
pub fn work_alone<O: Drop, T: Task<O>, G: Gate>(
    alloc: Global,
    draw: &Draw,
    mut seat: DrawSeat,
    task: &T,
    worker: u32,
    gate: &G,
) -> Result<(DrawSeat, Vec<Done<O>>), NoMemory>
    requires own { IsSeatOf draw.now seat × (seat.numbers ≡ []) }
    requires chunks { draw.now.chunks ≤ T.chunks task.now }
    ensures seat { IfOk result (λ r. IsSeatOf draw.now r.0 × (r.0.parts ≡ seat.parts) × (has_ended r.0 ≡ true)) }
    ensures ran { IfOk result (λ r. EachRan (T.ran task.now) draw.now.chunks r.1.items × Accounts draw.now.chunks r.1.items r.0.numbers) }
{
    let mut dones = Vec::new(alloc);
    while let Some(c) = draw.next(&mut seat) {
        gate.at(worker, c);
        let outcome = task.run(alloc, c)?;
        dones.push(Done { chunk: c, outcome })?;
    }
    Ok((seat, dones))
}

/// As many workers as the seat has parts, each in a thread of its own where one can be made.
pub fn work_all<R: Threads + Sync, O: Send + Drop, T: Task<O> + Sync, G: Gate>(
    rt: &R,
    alloc: Global,
    draw: &Draw,
    mut seat: DrawSeat,
    task: &T,
    workers: u32,
    gate: &G,
) -> Result<(DrawSeat, Vec<Done<O>>), NoMemory>
    requires own { IsSeatOf draw.now seat × (seat.numbers ≡ []) }
    requires workers { (0 < workers) × (seat.parts ≡ workers) }
    requires chunks { draw.now.chunks ≤ T.chunks task.now }
    ensures seat { IfOk result (λ r. IsSeatOf draw.now r.0 × (r.0.parts ≡ workers) × (has_ended r.0 ≡ true)) }
    ensures ran { IfOk result (λ r. EachRan (T.ran task.now) draw.now.chunks r.1.items × Accounts draw.now.chunks r.1.items r.0.numbers) }
{
    let others = workers - 1;
    if others == 0 {
        return work_alone(alloc, draw, seat, task, 0, gate);
    }
    let mine = draw.split(&mut seat);
    let one = move || -> Result<(DrawSeat, Vec<Done<O>>), NoMemory>
        requires own { IsSeatOf draw.now mine × (mine.numbers ≡ []) × (mine.parts ≡ 1) }
        requires chunks { draw.now.chunks ≤ T.chunks task.now }
        ensures seat { IfOk result (λ r. IsSeatOf draw.entry.now r.0 × (r.0.parts ≡ 1) × (has_ended r.0 ≡ true)) }
        ensures ran { IfOk result (λ r. EachRan (T.ran task.entry.now) draw.entry.now.chunks r.1.items × Accounts draw.entry.now.chunks r.1.items r.0.numbers) }
    { work_alone(alloc, draw, mine, task, others, gate) };
    let rest = move || -> Result<(DrawSeat, Vec<Done<O>>), NoMemory>
        requires bounds { IsSync R.row × IsSync T.row × IsSync G.row × IsSend O.row }
        requires own { IsSeatOf draw.now seat × (seat.numbers ≡ []) × (0 < others) × (seat.parts ≡ others) }
        requires chunks { draw.now.chunks ≤ T.chunks task.now }
        ensures seat { IfOk result (λ r. IsSeatOf draw.entry.now r.0 × (r.0.parts ≡ others) × (has_ended r.0 ≡ true)) }
        ensures ran { IfOk result (λ r. EachRan (T.ran task.entry.now) draw.entry.now.chunks r.1.items × Accounts draw.entry.now.chunks r.1.items r.0.numbers) }
    { work_all(rt, alloc, draw, seat, task, others, gate) };
    let (first, second) = join(rt, one, rest);
    let (mut seat, mut dones) = first?;
    let (theirs, mut more) = second?;
    draw.join(&mut seat, theirs);
    dones.append(&mut more)?;
    Ok((seat, dones))
}
