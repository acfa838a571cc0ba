//! Functions removed from a program: from an entry on it becomes blocks of steps.
//!
//! What a program unfolds to is said by `unfold`. The walk here goes through the terms once for each time that they are
//! applied, as the walk that `measure` counts.
#![tactic(auto)]

mod enter;
mod function;
mod give;
mod peel;
mod program;
mod walk;
mod walked;

pub use program::unfold;
pub use unfold_parts::{Refusal, Told};
