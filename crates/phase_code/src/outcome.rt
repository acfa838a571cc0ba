//! What comes of a range of elements.
use fut_scalar::Report;

/// Words, and how many words were handed out for them; the count holds at its greatest value.
#[derive(Drop)]
pub struct Made<W> {
    pub words: W,
    pub handed: u64,
}

/// The stage that fails, its least failing element, and the report. What is made of the values behind the last stage counts as
/// a stage; of its failures the element tells nothing.
#[derive(Clone, Copy, Drop)]
pub struct StageFault {
    pub stage: u32,
    pub element: u64,
    pub report: Report,
}

/// What came of a range, or the failure.
#[derive(Drop)]
pub enum Chunk<W> {
    Came(Made<W>),
    Failed(StageFault),
}

/// What an operator gave, or the report.
#[derive(Drop)]
pub enum Applied<W> {
    Gave(Made<W>),
    Broke(Report),
}
