// What unfolding a part of a program gives.
use fut_blocks::{Atom, Block};
use unfold::{Known, Scope};
use unfold_parts::{Told, Tops};

/// The most applications, operations, blocks and functions of primitives that lie inside each other. A measured program has no
/// more: 1,000 of its visits, and as many primitives.
pub const MOST_DEPTH: u32 = 2_000;

/// The most components that a branch or a turn gives. Data of more is packed.
pub const MOST_GIVEN: usize = 64;

/// What is known of the definitions, and what is told of the program.
#[derive(Drop)]
pub struct Context<'a> {
    pub tops: Tops<'a>,
    pub told: Told<'a>,
}

/// What is known of a term's value, and the number of the node behind the term.
#[derive(Clone, Copy)]
pub struct Walked<'a> {
    pub known: Known<'a>,
    pub at: u32,
}

/// Whether the branches of a condition, or a turn and what its loop begins with, give data of one shape. Where they do, what is
/// known of the value has been written; else the form is unfolded once more and packed.
#[derive(Clone, Copy)]
pub enum Shapes {
    Agree,
    Differ,
}

/// What is known of several values, and the number of the node behind them.
#[derive(Clone, Copy)]
pub struct Parts<'a> {
    pub knowns: &'a [Known<'a>],
    pub at: u32,
}

/// The atom of a scalar, and the number of the node behind its term.
#[derive(Clone, Copy)]
pub struct WalkedScalar {
    pub atom: Atom,
    pub at: u32,
}

/// A term as a block of its own, and the number of the node behind it.
#[derive(Clone, Copy)]
pub struct Branch<'a> {
    pub block: &'a Block<'a>,
    pub at: u32,
}

/// How far a row of `let`s has come: the names so far, and the number of the next node.
#[derive(Clone, Copy)]
pub struct Row<'a> {
    pub scope: Scope<'a>,
    pub at: u32,
}

/// What a loop begins with: the components of its first value, the names of its parameters, and what is known of the value
/// that has them.
#[derive(Clone, Copy)]
pub struct Entered<'a> {
    pub first: &'a [Atom],
    pub params: &'a [u32],
    pub known: Known<'a>,
}
