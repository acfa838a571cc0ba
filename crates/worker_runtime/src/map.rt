//! Mapping: the rows of all elements, in order.
ghost use Rattle.std.specs.Prelude.{◌≡◌, ℕ, List, ◌+◌, ◌*◌, ◌<◌, ◌≤◌, IfOk, length};
ghost use Rattle.phase_code.specs.Ranges.{Came_to, Kept, Never};
ghost use Rattle.worker_runtime.specs.Sifting.{Parts_came, Tiled};
ghost use Rattle.worker_runtime.specs.Phases.{Is_map};

use crate::ranges::{AllChunks, Phase, all_chunks};
use crate::{Chunk, Gate, Made, Options, RangeCode, Rows};
use fut_scalar::NoMemory;
use std::alloc::Global;
use std::thread::Threads;

/// A function alone.
#[derive(Drop)]
pub struct Mapping<'a, C> {
    pub code: &'a C,
}

impl<'a, A, W: Rows<A>, C: RangeCode<A, W>> Phase<A, W> for Mapping<'a, C> {
    ghost function = { λ p. C.function p.code.now };

    ghost made = { λ _. Kept };

    ghost fails = { λ _. Never };

    fn run(&self, alloc: Global, lo: u64, hi: u64) -> Result<Chunk<W>, NoMemory> {
        self.code.run_range(alloc, lo, hi)
    }

    ghost behind = { λ _ xs zs r f. f };

    ghost before = { λ _ xs zs r f. f };
}

/// The rows of all chunks, one behind the other.
pub fn all_rows<A, W: Rows<A> + Drop, C: RangeCode<A, W>>(
    alloc: Global,
    code: &C,
    parts: &[Made<W>],
    size: u64,
    count: u64,
) -> Result<Made<W>, NoMemory>
    requires tiled { Tiled size count (length parts.now) }
    requires came { Parts_came W.rows (C.function code.now) Kept size count parts.now }
    ensures { IfOk result (λ m. Came_to W.rows (C.function code.now) Kept 0 count m) }
{
    let mut words = code.none(alloc, count)?;
    let mut handed: u64 = 0;
    for part in parts {
        words.append(&part.words)?;
        handed = handed.saturating_add(part.handed);
    }
    Ok(Made { words, handed })
}

/// The rows of the elements below `count`, in order, or the least failing element of the least failing stage.
pub fn map_phase<
    R: Threads + Sync,
    A: Sync,
    W: Rows<A> + Send + Sync + Drop,
    C: RangeCode<A, W> + Sync,
    G: Gate,
>(
    rt: &R,
    alloc: Global,
    code: &C,
    count: u64,
    options: &Options,
    gate: &G,
) -> Result<Chunk<W>, NoMemory>
    requires { (count ≤ 33554432) × (count ≤ (C.function code.now).count) }
    ensures { IfOk result (λ o. Is_map W.rows (C.function code.now) count o) }
{
    let phase = Mapping { code };
    let sifted = all_chunks(rt, alloc, &phase, count, options, gate)?;
    match sifted {
        AllChunks::Fault(fault) => Ok(Chunk::Failed(fault)),
        AllChunks::Parts(parts) => {
            let made = all_rows(alloc, code, parts.as_slice(), options.chunk, count)?;
            Ok(Chunk::Came(made))
        }
    }
}
