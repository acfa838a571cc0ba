//! Scanning: for each element the row that the operator makes of those up to it.
ghost use Rattle.std.specs.Prelude.{◌≡◌, ℕ, List, ◌+◌, ◌*◌, ◌<◌, ◌≤◌, IfOk, length};
ghost use Rattle.outcomes.proofs.Trees.{scan_fails_before, scan_fails_behind};
ghost use Rattle.phase_code.specs.Ranges.{Scanned_to, Beginning_fails};
ghost use Rattle.worker_runtime.specs.Phases.{Is_scan};

use crate::carry::{Carries, carries_of, with_carries};
use crate::ranges::{AllChunks, Phase, all_chunks};
use crate::{
    Applied, Chunk, Gate, Made, OpenGate, OperatorCode, Options, RangeCode, Rows, StageFault,
};
use chunk_work::{in_chunks, workers_for};
use fut_scalar::NoMemory;
use phase_code::CarryTask;
use std::alloc::Global;
use std::marker::PhantomData;
use std::thread::Threads;

/// A function, and a scan of what it gives.
#[derive(Drop)]
pub struct Scanning<'a, C, O> {
    pub code: &'a C,
    pub op: &'a O,
}

impl<'a, A, W: Rows<A> + Drop, C: RangeCode<A, W>, O: OperatorCode<A, W>> Phase<A, W>
    for Scanning<'a, C, O> {
    ghost function = { λ p. C.function p.code.now };

    ghost made = { λ p. Scanned_to (O.monoid p.op.now) };

    ghost fails = { λ p. Beginning_fails (O.monoid p.op.now) };

    fn run(&self, alloc: Global, lo: u64, hi: u64) -> Result<Chunk<W>, NoMemory> {
        match self.code.run_range(alloc, lo, hi)? {
            Chunk::Failed(fault) => Ok(Chunk::Failed(fault)),
            Chunk::Came(kept) => match self.op.scan(alloc, &kept.words)? {
                Applied::Gave(made) => {
                    let handed = kept.handed.saturating_add(made.handed);
                    let Made { words, .. } = made;
                    Ok(Chunk::Came(Made { words, handed }))
                }
                Applied::Broke(report) => Ok(Chunk::Failed(StageFault {
                    stage: self.code.stage_count(),
                    element: lo,
                    report,
                })),
            },
        }
    }

    ghost behind = { λ p xs zs r f. scan_fails_behind (O.monoid p.op.now).op (O.monoid p.op.now).neutral xs zs r f };

    ghost before = { λ p xs zs r f. scan_fails_before (O.monoid p.op.now).op (O.monoid p.op.now).neutral xs zs r f };
}

/// For each element below `count` the row that the operator makes of those up to it, or a failure. Chunks are scanned by
/// themselves; what is carried into each is made of their last rows, one after the other; and then all chunks get it at once.
pub fn scan_phase<
    R: Threads + Sync,
    A: Sync,
    W: Rows<A> + Send + Sync + Drop,
    C: RangeCode<A, W> + Sync,
    O: OperatorCode<A, W> + Sync,
    G: Gate,
>(
    rt: &R,
    alloc: Global,
    code: &C,
    op: &O,
    count: u64,
    options: &Options,
    gate: &G,
) -> Result<Chunk<W>, NoMemory>
    requires { (count ≤ 33554432) × (count ≤ (C.function code.now).count) }
    ensures { IfOk result (λ o. Is_scan W.rows (C.function code.now) (O.monoid op.now) count o) }
{
    let phase = Scanning { code, op };
    let sifted = all_chunks(rt, alloc, &phase, count, options, gate)?;
    let parts = match sifted {
        AllChunks::Fault(fault) => return Ok(Chunk::Failed(fault)),
        AllChunks::Parts(parts) => parts,
    };
    if parts.is_empty() {
        let words = code.none(alloc, 0)?;
        return Ok(Chunk::Came(Made { words, handed: 0 }));
    }
    let whole = parts.as_slice();
    let behind = carries_of(alloc, code, op, whole, options.chunk, count)?;
    let carries = match behind {
        Carries::Broke(fault) => return Ok(Chunk::Failed(fault)),
        Carries::All(carries) => carries,
    };
    let into = carries.as_slice();
    let chunks = carries.len() as u64;
    let workers = workers_for(options.workers, options.chunk, chunks, count);
    let task = CarryTask {
        op,
        parts: whole,
        carries: into,
        of: PhantomData,
    };
    let carried = in_chunks(rt, alloc, &task, chunks, workers, &OpenGate)?;
    let with = carried.as_slice();
    with_carries(alloc, code, op, whole, into, with, options.chunk, count)
}
