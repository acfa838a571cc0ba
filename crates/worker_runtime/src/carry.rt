//! What is carried from chunk to chunk of a scan, and all chunks with it.
ghost use Rattle.std.specs.Prelude.{◌≡◌, ℕ, List, ◌+◌, ◌*◌, ◌<◌, ◌≤◌, IfOk, length};
ghost use Rattle.chunk_work.specs.Runs.{InOrder};
ghost use Rattle.phase_code.specs.Ranges.{Went, Scanned_to, Beginning_fails, Carry_gives};
ghost use Rattle.worker_runtime.specs.Sifting.{Parts_came, Tiled};
ghost use Rattle.phase_code.specs.Carries.{Links, rows_at};
ghost use Rattle.worker_runtime.specs.Carrying.{Carries_as};

use crate::{Applied, Chunk, Made, OperatorCode, RangeCode, Rows, StageFault};
use fut_scalar::NoMemory;
use std::alloc::Global;

/// What is carried behind each chunk but the last, or the failure of an application.
#[derive(Drop)]
pub enum Carries<W> {
    All(Vec<Made<W>>),
    Broke(StageFault),
}

/// One application for each chunk but the first and the last, in order.
pub fn carries_of<A, W: Rows<A> + Drop, C: RangeCode<A, W>, O: OperatorCode<A, W>>(
    alloc: Global,
    code: &C,
    op: &O,
    parts: &[Made<W>],
    size: u64,
    count: u64,
) -> Result<Carries<W>, NoMemory>
    requires sizes { (count ≤ 33554432) × (size ≤ 1048576) }
    requires some { 0 < length parts.now }
    requires tiled { Tiled size count (length parts.now) }
    requires came { Parts_came W.rows (C.function code.now) (Scanned_to (O.monoid op.now)) size count parts.now }
    ensures { IfOk result (λ r. Carries_as W.rows (C.function code.now) (O.monoid op.now) count parts.now r) }
{
    let mut carries = Vec::new(alloc);
    if parts.len() < 2 {
        return Ok(Carries::All(carries));
    }
    let first = &parts[0];
    let words = first.words.last(alloc)?;
    carries.push(Made { words, handed: 0 })?;
    for k in 1..parts.len() - 1 {
        let part = &parts[k];
        let carry = &carries[k - 1];
        let last = part.words.last(alloc)?;
        match op.apply(alloc, &carry.words, &last)? {
            Applied::Gave(made) => carries.push(made)?,
            Applied::Broke(report) => {
                return Ok(Carries::Broke(StageFault {
                    stage: code.stage_count(),
                    element: k as u64 * size,
                    report,
                }));
            }
        }
    }
    Ok(Carries::All(carries))
}

/// The rows of all chunks, one behind the other, each with what was carried into it. Where an application failed, its report
/// is the answer.
pub fn with_carries<A, W: Rows<A> + Drop, C: RangeCode<A, W>, O: OperatorCode<A, W>>(
    alloc: Global,
    code: &C,
    op: &O,
    parts: &[Made<W>],
    carries: &[Made<W>],
    carried: &[Applied<W>],
    size: u64,
    count: u64,
) -> Result<Chunk<W>, NoMemory>
    requires sizes { (count ≤ 33554432) × (size ≤ 1048576) × (0 < size) }
    requires long { (length carries.now + 1 ≡ length parts.now) × (length carried.now ≡ length carries.now) }
    requires tiled { Tiled size count (length parts.now) }
    requires came { Parts_came W.rows (C.function code.now) (Scanned_to (O.monoid op.now)) size count parts.now }
    requires links { Links W.rows (O.monoid op.now).op parts.now carries.now }
    requires carried { InOrder (λ c o. Carry_gives W.rows (O.monoid op.now) (rows_at W.rows carries.now c) (rows_at W.rows parts.now (c + 1)) o) 0 carried.now }
    ensures { IfOk result (λ o. Went W.rows (C.function code.now) (Scanned_to (O.monoid op.now)) (Beginning_fails (O.monoid op.now)) 0 count o) }
{
    let _ = op;
    let first = &parts[0];
    let mut words = code.none(alloc, count)?;
    words.append(&first.words)?;
    let mut handed = first.handed;
    for j in 0..carried.len() {
        let whole = &parts[j + 1];
        let carry = &carries[j];
        match &carried[j] {
            Applied::Gave(more) => {
                words.append(&more.words)?;
                handed = handed
                    .saturating_add(whole.handed)
                    .saturating_add(more.handed)
                    .saturating_add(carry.handed);
            }
            Applied::Broke(report) => {
                return Ok(Chunk::Failed(StageFault {
                    stage: code.stage_count(),
                    element: (j as u64 + 1) * size,
                    report: *report,
                }));
            }
        }
    }
    Ok(Chunk::Came(Made { words, handed }))
}
