//! The sizing of a program that has a typing, or why it has none.
//!
//! [`sized_program`] reads the types of all nodes off the graph that inference leaves, as trees of the pass over sizes, and asks
//! that pass (`size_check`). It answers the sized type of each node (`specs/Sizings.antt`), or the first refusal, with sizes as
//! they stand in the source and its place (`specs/Misfits.antt`). [`size_at`] is the sized type of a node, and [`SizedProgram`] a
//! typed program with its sizing.
#![tactic(auto)]

mod checking;
mod misfit;
mod telling;
mod trees;

pub use checking::{SizedProgram, Sizing, size_at, sized_program};
pub use misfit::{Misfit, Shown};
