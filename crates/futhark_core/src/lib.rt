//! The run of a program, from its words, its files and its input to its result and its line.
//!
//! The theorem of the project is the contract of [`run_futhark`].
#![tactic(auto)]

mod entries;
mod program;
mod run;
mod statuses;
mod values;

pub use run::run_futhark;
