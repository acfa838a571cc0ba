//! The outcomes of all chunks, in order.
ghost use Rattle.std.specs.Prelude.{◌≡◌, ℕ, ◌+◌, ◌-◌, ◌*◌, ◌<◌, ◌≤◌, ◌++◌, [], true, false, IfOk, All, None, Some, replicate, fold, flat_map, vec_len};
ghost use Rattle.chunk_work.specs.Runs.{placed, outcome_at, EachRan, AllDone, AllRan};

use crate::work::work_all;
use crate::{Done, Gate, Task};
use chunk_draw::Draw;
use fut_scalar::NoMemory;
use std::alloc::Global;
use std::thread::Threads;

// Each chunk's outcome, at its number.
fn by_chunk<O: Drop>(
    alloc: Global,
    dones: Vec<Done<O>>,
    chunks: usize,
) -> Result<Vec<Option<O>>, NoMemory>
    requires { All (λ d. d.chunk < chunks) dones.items }
    ensures { IfOk result (λ v. v.items ≡ fold placed (replicate chunks None) dones.items) }
{
    let mut places = nothing(alloc, chunks)?;
    for done in dones {
        let Done { chunk, outcome } = done;
        places[chunk as usize] = Some(outcome);
    }
    Ok(places)
}

fn nothing<O: Drop>(alloc: Global, count: usize) -> Result<Vec<Option<O>>, NoMemory>
    ensures { IfOk result (λ v. v.items ≡ replicate count None) }
{
    let mut places = Vec::with_capacity(alloc, count)?;
    for _i in 0..count {
        places.push(None)?;
    }
    Ok(places)
}

fn in_order<O: Drop>(alloc: Global, places: Vec<Option<O>>) -> Result<Vec<O>, NoMemory>
    ensures { IfOk result (λ v. v.items ≡ flat_map outcome_at places.items) }
{
    let mut all = Vec::new(alloc);
    for place in places {
        if let Some(outcome) = place {
            all.push(outcome)?;
        }
    }
    Ok(all)
}

/// The outcomes of these chunks, in the order of their numbers.
pub fn sorted<O: Drop>(alloc: Global, dones: Vec<Done<O>>, chunks: u64) -> Result<Vec<O>, NoMemory>
    requires { All (λ d. d.chunk < chunks) dones.items }
    ensures { IfOk result (λ v. v.items ≡ flat_map outcome_at (fold placed (replicate chunks None) dones.items)) }
{
    in_order(alloc, by_chunk(alloc, dones, chunks as usize)?)
}

fn put_together<O: Drop, T: Task<O>>(
    alloc: Global,
    task: &T,
    dones: Vec<Done<O>>,
    chunks: u64,
) -> Result<Vec<O>, NoMemory>
    requires each { EachRan (T.ran task.now) chunks dones.items }
    requires all { AllDone chunks dones.items }
    ensures { IfOk result (λ v. AllRan (T.ran task.now) chunks v.items) }
{
    let _ = task;
    in_order(alloc, by_chunk(alloc, dones, chunks as usize)?)
}

/// The outcome of each chunk, in order, however many workers run them and whichever chunks each of them draws.
pub fn in_chunks<R: Threads + Sync, O: Send + Drop, T: Task<O> + Sync, G: Gate>(
    rt: &R,
    alloc: Global,
    task: &T,
    chunks: u64,
    workers: u32,
    gate: &G,
) -> Result<Vec<O>, NoMemory>
    requires count { (chunks ≤ 33554432) × (chunks ≤ T.chunks task.now) }
    requires workers { (0 < workers) × (workers ≤ 64) }
    ensures { IfOk result (λ v. AllRan (T.ran task.now) chunks v.items) }
{
    let (draw, seat) = Draw::open(alloc, chunks, u64::from(workers))?;
    let (seat, dones) = work_all(rt, alloc, &draw, seat, task, workers, gate)?;
    draw.finish(seat);
    put_together(alloc, task, dones, chunks)
}
