// What the walk through a part of a program gives.
use crate::known::{Known, Scope};

/// The most visits that a walk has.
pub const MOST_NODES: u32 = 1_048_576;

/// The most visits that lie inside each other.
pub const MOST_DEPTH: u32 = 1_000;

/// How many primitives that wait for data may be given to each other: the walk goes through them without a visit.
pub const MOST_NESTED: u32 = 1_000;

/// What the walk has used of its limits where it stands.
#[derive(Clone, Copy)]
pub struct Used {
    /// Primitives that wait for data, given to each other.
    pub nested: u32,
    /// Visits that lie around this one.
    pub level: u32,
    /// Visits before this one.
    pub spent: u32,
}

/// What is known of a value, and the visits that it takes.
#[derive(Clone, Copy)]
pub struct Walked<'a> {
    pub known: Known<'a>,
    pub nodes: u32,
    pub depth: u32,
}

/// The visits of what gives data.
#[derive(Clone, Copy)]
pub struct Count {
    pub nodes: u32,
    pub depth: u32,
}

/// What is known of several values, and the visits that they take.
#[derive(Clone, Copy)]
pub struct Parts<'a> {
    pub knowns: &'a [Known<'a>],
    pub nodes: u32,
    pub depth: u32,
}

/// How far the walk has come in a row of `let`s: the names and the visits so far.
#[derive(Clone, Copy)]
pub struct Row<'a> {
    pub scope: &'a Scope<'a>,
    pub nodes: u32,
    pub depth: u32,
}
