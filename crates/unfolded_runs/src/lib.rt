//! A program as its blocks run it: from an accepted program with its sizing to its blocks, and the law that what they allow is
//! what the files allow by their names where that sizing is told, which is some outcome.
//!
//! [`prepare`] makes the tables of the program's sizing (`sizing_tables`), measures the program and unfolds it. That there is such a sizing,
//! and that it tells names of sizes from all others, comes of each number being bound once, as elaboration gives them.
#![tactic(auto)]

mod laws;
mod preparing;

pub use laws::{blocks_mean_the_source, files_allow_some_outcome};
pub use preparing::{PrepareErr, prepare};
