// What waits for other parts, where a term stands, and why there is no result.
use alias_values::ValueTree;
use fut_aliases::{Alias, Broken, Named};

/// A part that was evaluated, whose value waits for the other parts.
#[derive(Clone, Copy)]
pub struct Held<'a> {
    /// Where it begins.
    pub node: u32,
    /// What it is called if it is a function.
    pub called: Named,
    /// The first name in it.
    pub first_name: Named,
    pub value: &'a ValueTree<'a>,
    /// How much was consumed then.
    pub losses: usize,
}

/// Where a term stands.
#[derive(Clone, Copy)]
pub struct Here<'a> {
    /// Parameters without a star.
    pub fixed: &'a [Alias],
    /// The node where the innermost loop or definition begins.
    pub loop_from: u32,
    /// The node where the innermost function begins.
    pub function_from: u32,
    /// Whether rules are asked for, or only where values flow.
    pub asked: bool,
}

/// Why a step has no result.
#[derive(Clone, Copy)]
pub enum Stop {
    /// A rule is broken.
    Refused(Broken),
    Memory,
}
