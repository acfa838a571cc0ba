//! Runs Core on registers and the arrays of a run.
//!
//! The theorem of this crate is the contract of [`run_core`]: its answer is an outcome that the meaning of Core allows, which
//! counts at least the words that were handed out, or that memory ran out.
#![tactic(auto)]

mod blocks;
mod program;

pub use program::run_core;
