//! Reducing: one row, made by the operator of those of all elements.
ghost use Rattle.std.specs.Prelude.{◌≡◌, ℕ, List, ◌+◌, ◌*◌, ◌<◌, ◌≤◌, IfOk, length};
ghost use Rattle.outcomes.proofs.Trees.{fails_before, fails_behind};
ghost use Rattle.phase_code.specs.Ranges.{Went, Folded, Fold_fails};
ghost use Rattle.worker_runtime.specs.Sifting.{Parts_came, Tiled};
ghost use Rattle.worker_runtime.specs.Phases.{Is_reduce};

use crate::ranges::{AllChunks, Phase, all_chunks};
use crate::{Applied, Chunk, Gate, Made, OperatorCode, Options, RangeCode, Rows, StageFault};
use fut_scalar::NoMemory;
use std::alloc::Global;
use std::thread::Threads;

/// A function, and an operator over what it gives.
#[derive(Drop)]
pub struct Reducing<'a, C, O> {
    pub code: &'a C,
    pub op: &'a O,
}

impl<'a, A, W: Rows<A> + Drop, C: RangeCode<A, W>, O: OperatorCode<A, W>> Phase<A, W>
    for Reducing<'a, C, O> {
    ghost function = { λ p. C.function p.code.now };

    ghost made = { λ p. Folded (O.monoid p.op.now) };

    ghost fails = { λ p. Fold_fails (O.monoid p.op.now) };

    fn run(&self, alloc: Global, lo: u64, hi: u64) -> Result<Chunk<W>, NoMemory> {
        match self.code.run_range(alloc, lo, hi)? {
            Chunk::Failed(fault) => Ok(Chunk::Failed(fault)),
            Chunk::Came(kept) => match self.op.fold(alloc, &kept.words)? {
                Applied::Gave(made) => {
                    let handed = kept.handed.saturating_add(made.handed);
                    let Made { words, .. } = made;
                    Ok(Chunk::Came(Made { words, handed }))
                }
                Applied::Broke(report) => Ok(Chunk::Failed(StageFault {
                    stage: self.code.stage_count(),
                    element: lo,
                    report,
                })),
            },
        }
    }

    ghost behind = { λ p xs zs r f. (f.0, fails_before (O.monoid p.op.now).op (O.monoid p.op.now).neutral xs zs r f.0 f.1) };

    ghost before = { λ p xs zs r f. (f.0, fails_behind (O.monoid p.op.now).op (O.monoid p.op.now).neutral xs zs r f.0 f.1) };
}

// The operator over the rows of all chunks, of which there is at least one.
fn together<A, W: Rows<A> + Drop, C: RangeCode<A, W>, O: OperatorCode<A, W>>(
    alloc: Global,
    code: &C,
    op: &O,
    parts: &[Made<W>],
    size: u64,
    count: u64,
) -> Result<Chunk<W>, NoMemory>
    requires some { 0 < length parts.now }
    requires sizes { (count ≤ 33554432) × (size ≤ 1048576) }
    requires tiled { Tiled size count (length parts.now) }
    requires came { Parts_came W.rows (C.function code.now) (Folded (O.monoid op.now)) size count parts.now }
    ensures { IfOk result (λ o. Went W.rows (C.function code.now) (Folded (O.monoid op.now)) (Fold_fails (O.monoid op.now)) 0 count o) }
{
    let first = &parts[0];
    let mut words = first.words.last(alloc)?;
    let mut handed = first.handed;
    for k in 1..parts.len() {
        let next = &parts[k];
        match op.apply(alloc, &words, &next.words)? {
            Applied::Gave(made) => {
                handed = handed
                    .saturating_add(next.handed)
                    .saturating_add(made.handed);
                words = made.words;
            }
            Applied::Broke(report) => {
                return Ok(Chunk::Failed(StageFault {
                    stage: code.stage_count(),
                    element: k as u64 * size,
                    report,
                }));
            }
        }
    }
    Ok(Chunk::Came(Made { words, handed }))
}

/// One row, which the operator makes of those of the elements below `count`, the neutral row where there is none, or a failure.
pub fn reduce_phase<
    R: Threads + Sync,
    A: Sync,
    W: Rows<A> + Send + Sync + Drop,
    C: RangeCode<A, W> + Sync,
    O: OperatorCode<A, W> + Sync,
    G: Gate,
>(
    rt: &R,
    alloc: Global,
    code: &C,
    op: &O,
    count: u64,
    options: &Options,
    gate: &G,
) -> Result<Chunk<W>, NoMemory>
    requires { (count ≤ 33554432) × (count ≤ (C.function code.now).count) }
    ensures { IfOk result (λ o. Is_reduce W.rows (C.function code.now) (O.monoid op.now) count o) }
{
    let phase = Reducing { code, op };
    let sifted = all_chunks(rt, alloc, &phase, count, options, gate)?;
    let parts = match sifted {
        AllChunks::Fault(fault) => return Ok(Chunk::Failed(fault)),
        AllChunks::Parts(parts) => parts,
    };
    if parts.is_empty() {
        let words = op.neutral(alloc)?;
        return Ok(Chunk::Came(Made { words, handed: 0 }));
    }
    together(alloc, code, op, parts.as_slice(), options.chunk, count)
}
