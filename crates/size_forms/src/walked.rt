// What the walk answers for terms.
use size_applying::{Argument, Part};
use size_arena::SizeTree;

/// A term that may be applied, and the number behind it.
#[derive(Clone, Copy)]
pub struct Walked<'a> {
    pub part: Part<'a>,
    pub next: u32,
}

/// The sized type of a term by itself, and the number behind it.
#[derive(Clone, Copy)]
pub struct Whole<'a> {
    pub size: &'a SizeTree<'a>,
    pub next: u32,
}

/// A term as an argument, and the number behind it.
#[derive(Clone, Copy)]
pub struct Given<'a> {
    pub argument: Argument<'a>,
    pub next: u32,
}

/// The sized types of terms in a row, and the number behind them.
#[derive(Clone, Copy)]
pub struct Row<'a> {
    pub sizes: &'a [SizeTree<'a>],
    pub next: u32,
}
