//! The pass over sizes over a whole program.
//!
//! [`check`] answers the sized types of a program's nodes, or the first refusal in the order of evaluation (`fut_sizes`,
//! `specs/Programs.antt`).
#![tactic(auto)]

mod definitions;

pub use definitions::check;
