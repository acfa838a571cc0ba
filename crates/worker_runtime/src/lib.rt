//! Phases over large arrays on workers: map, reduce and scan in chunks that workers draw.
//!
//! A phase knows its function and its operator by their contracts alone ([`RangeCode`], [`OperatorCode`]), and their rows in
//! words of whatever layout ([`Rows`]). What it gives is what the copying meaning allows for the function over the whole
//! list, for every number of workers, chunk length and schedule: of failures the least stage counts, and of that the least
//! element; and the words handed out are no more than one derivation counts.
#![tactic(auto)]

ghost use Rattle.std.specs.Prelude.{◌<◌, ◌≤◌};

mod carry;
mod map;
mod ranges;
mod reduce;
mod scan;

pub use chunk_work::{Gate, OpenGate};
pub use map::map_phase;
pub use phase_code::{Applied, Chunk, Made, OperatorCode, RangeCode, Rows, StageFault};
pub use reduce::reduce_phase;
pub use scan::scan_phase;

/// How many workers may run, 1 to 64, and how many elements a chunk has, 1 to 1,048,576.
#[derive(Clone, Copy)]
pub struct Options {
    pub workers: u32,
    pub chunk: u64,
    pub ghost some_worker: { 0 < workers },
    pub ghost most_workers: { workers ≤ 64 },
    pub ghost some_element: { 0 < chunk },
    pub ghost most_elements: { chunk ≤ 1048576 },
}
