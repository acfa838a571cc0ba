//! The pairs of all chunks, put by workers.
ghost use Rattle.std.specs.Prelude.{◌≡◌, ℕ, ◌+◌, ◌-◌, ◌*◌, ◌<◌, ◌≤◌, ◌++◌, [], true, false, IfOk, All, length};
ghost use Rattle.chunk_work.specs.Puts.{AllPut, EachPut};

use crate::pairs_work::pairs_all;
use crate::runs::sorted;
use crate::{Gate, Puts, SharedTable, Task};
use chunk_draw::Draw;
use fut_scalar::NoMemory;
use std::alloc::Global;
use std::thread::Threads;

/// Puts the pairs of all chunks into the table, each once, by at most `workers` workers: a worker runs a chunk and puts its
/// pairs before it draws the next one. The seat that comes back has them all. What was kept of each outcome stands beside it,
/// in the order of the chunks. The only error is want of memory.
pub fn pairs_in_chunks<
    R: Threads + Sync,
    S: Send + Drop,
    P: SharedTable<S> + Sync,
    K: Send + Drop,
    O: Puts<K> + Send,
    T: Task<O> + Sync,
    G: Gate,
>(
    rt: &R,
    alloc: Global,
    table: &P,
    mine: S,
    places: u64,
    task: &T,
    chunks: u64,
    workers: u32,
    gate: &G,
) -> Result<(S, Vec<K>), NoMemory>
    requires own { P.is_of table.now mine × (P.pairs mine ≡ []) × (P.parts mine ≡ workers) }
    requires count { (chunks ≤ 33554432) × (chunks ≤ T.chunks task.now) × (places ≡ length (P.old table.now)) }
    requires workers { (0 < workers) × (workers ≤ 64) }
    ensures seat { IfOk result (λ r. P.is_of table.now r.0 × (P.parts r.0 ≡ workers)) }
    ensures put { IfOk result (λ r. AllPut (T.ran task.now) O.keeps (O.pairs_of places) chunks r.1.items (P.pairs r.0)) }
{
    let (draw, seat) = Draw::open(alloc, chunks, u64::from(workers))?;
    let (seat, mine, dones) = pairs_all(
        rt, alloc, &draw, seat, table, mine, places, task, workers, gate,
    )?;
    draw.finish(seat);
    let kept = sorted(alloc, dones, chunks)?;
    Ok((mine, kept))
}
