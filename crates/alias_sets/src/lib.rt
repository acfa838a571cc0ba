//! Sets of alias roots: short lists of numbers that rise, in an arena. A set that holds the other is answered itself, so
//! that names which share memory share their sets too.
//!
//! `specs/Sets.antt` says what a set is, its members and what the operations make of them.
#![tactic(auto)]

mod sets;

pub use sets::{contains, rename, union};
