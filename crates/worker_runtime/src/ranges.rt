//! One function over the elements of each chunk, what a phase makes of its rows, and the failure that counts.
ghost use Rattle.std.specs.Prelude.{◌≡◌, ℕ, List, ◌++◌, ◌+◌, ◌*◌, ◌<◌, ◌≤◌, IfOk, length};
ghost use Rattle.fut_scalar.specs.declared.report.Report.{Report};
ghost use Rattle.chunk_work.specs.Runs.{InOrder, AllRan};
ghost use Rattle.phase_code.specs.Ranges.{Function, Went, Came_to, Kept, Never, chunk_end};
ghost use Rattle.worker_runtime.specs.Sifting.{Fault_with, Sifted_as, Takes_in, Tiled};

use crate::{Chunk, Gate, Made, Options, Rows, StageFault};
use chunk_work::{Task, in_chunks, workers_for};
use fut_scalar::NoMemory;
use std::alloc::Global;
use std::marker::PhantomData;
use std::thread::Threads;

/// What a phase does for a range of elements.
pub trait Phase<A, W: Rows<A>> {
    ghost function: { Self → Function A };

    /// What words are of the values of all stages, with a count.
    ghost made: { Self → List A → List A → ℕ → Type 0 };

    /// How what is made of the values fails.
    ghost fails: { Self → List A → Report → Type 0 };

    fn run(&self, alloc: Global, lo: u64, hi: u64) -> Result<Chunk<W>, NoMemory>
        requires { (lo < hi) × (hi ≤ (function self.now).count) }
        ensures { IfOk result (λ o. Went W.rows (function self.now) (made self.now) (fails self.now) lo hi o) };

    /// What fails does so with more values behind.
    ghost behind: { (p : Self) (xs zs : List A) (r : Report) → fails p xs r → fails p (xs ++ zs) r };

    /// And with more before.
    ghost before: { (p : Self) (xs zs : List A) (r : Report) → fails p zs r → fails p (xs ++ zs) r };
}

/// How many chunks there are.
pub fn chunk_count(count: u64, size: u64) -> u64
    requires { 0 < size }
    ensures within { (c : ℕ) → c < result → c * size < count }
    ensures cover { count ≤ result * size }
    ensures most { result ≤ count }
{
    count.div_ceil(size)
}

/// A phase over each chunk of its elements.
#[derive(Drop)]
pub struct RangeTask<'a, A, W: Rows<A>, P: Phase<A, W>> {
    pub phase: &'a P,
    pub count: u64,
    pub size: u64,
    pub chunks: u64,
    pub of: PhantomData<(A, W)>,
    pub ghost sizes: { (count ≤ 33554432) × (0 < size) × (size ≤ 1048576) },
    pub ghost within: { (c : ℕ) → c < chunks → c * size < count },
    pub ghost enough: { count ≤ (P.function phase.now).count },
}

impl<'a, A, W: Rows<A>, P: Phase<A, W>> Task<Chunk<W>> for RangeTask<'a, A, W, P> {
    ghost ran = { λ t c o. Went W.rows (P.function t.phase.now) (P.made t.phase.now) (P.fails t.phase.now) (c * t.size) (chunk_end t.size t.count c) o };

    ghost chunks = { λ t. t.chunks };

    fn run(&self, alloc: Global, chunk: u64) -> Result<Chunk<W>, NoMemory> {
        let lo = chunk * self.size;
        let hi = self.count.min(lo + self.size);
        self.phase.run(alloc, lo, hi)
    }
}

/// What was made of all chunks, in order, or the failure that counts.
#[derive(Drop)]
pub enum AllChunks<W> {
    Parts(Vec<Made<W>>),
    Fault(StageFault),
}

// The failure of the lesser stage, or the first.
fn worse(first: Option<StageFault>, second: StageFault) -> StageFault
    ensures { Fault_with first second result }
{
    match first {
        Some(fault) if fault.stage <= second.stage => fault,
        _ => second,
    }
}

// One outcome more: what was made joins the parts, and of failures the one that counts is kept.
fn take_in<W: Drop>(
    parts: &mut Vec<Made<W>>,
    fault: Option<StageFault>,
    outcome: Chunk<W>,
) -> Result<Option<StageFault>, NoMemory>
    ensures { IfOk result (λ f. Takes_in parts.old.items fault outcome parts.new.items f) }
{
    match outcome {
        Chunk::Came(made) => {
            parts.push(made)?;
            Ok(fault)
        }
        Chunk::Failed(next) => Ok(Some(worse(fault, next))),
    }
}

/// What was made of each chunk, or the failure that counts among all.
pub fn sift<A, W: Rows<A> + Drop, P: Phase<A, W>>(
    alloc: Global,
    phase: &P,
    outcomes: Vec<Chunk<W>>,
    size: u64,
    count: u64,
) -> Result<AllChunks<W>, NoMemory>
    requires tiled { Tiled size count (length outcomes.items) }
    requires ran { InOrder (λ c o. Went W.rows (P.function phase.now) (P.made phase.now) (P.fails phase.now) (c * size) (chunk_end size count c) o) 0 outcomes.items }
    ensures { IfOk result (λ s. Sifted_as W.rows (P.function phase.now) (P.made phase.now) (P.fails phase.now) size count s) }
{
    let _ = phase;
    let mut parts = Vec::with_capacity(alloc, outcomes.len())?;
    let mut fault = None;
    for outcome in outcomes {
        fault = take_in(&mut parts, fault, outcome)?;
    }
    match fault {
        None => Ok(AllChunks::Parts(parts)),
        Some(fault) => Ok(AllChunks::Fault(fault)),
    }
}

/// A phase over the elements below `count`, in chunks that workers draw.
pub fn all_chunks<
    R: Threads + Sync,
    A: Sync,
    W: Rows<A> + Send + Sync + Drop,
    P: Phase<A, W> + Sync,
    G: Gate,
>(
    rt: &R,
    alloc: Global,
    phase: &P,
    count: u64,
    options: &Options,
    gate: &G,
) -> Result<AllChunks<W>, NoMemory>
    requires { (count ≤ 33554432) × (count ≤ (P.function phase.now).count) }
    ensures { IfOk result (λ s. Sifted_as W.rows (P.function phase.now) (P.made phase.now) (P.fails phase.now) options.now.chunk count s) }
{
    let Options { workers, chunk, .. } = *options;
    let chunks = chunk_count(count, chunk);
    let workers = workers_for(workers, chunk, chunks, count);
    let task = RangeTask {
        phase,
        count,
        size: chunk,
        chunks,
        of: PhantomData,
    };
    let outcomes = in_chunks(rt, alloc, &task, chunks, workers, gate)?;
    sift(alloc, phase, outcomes, chunk, count)
}
