//! Sizes and the rows of arrays, told before a program runs.
//!
//! `unfold/specs/Telling.antt` says what is found of sizes in the known values that patterns were entered with, and what functions
//! tell of their results. The calls of this crate answer that for code that unfolds, where there is a sizing ([`Sizes`]) and
//! where there is none. A size or a type variable is looked for when it is asked for, among what was entered from the newest on,
//! and the search ends at the first that names it: it costs the sized types that it passes. What a function tells of its results
//! is told once, when it is entered ([`enter`]).
#![tactic(auto)]

mod arguments;
mod calls;
mod findings;
mod knowns;
mod places;
mod rules;
mod searching;
mod shapes;
mod standing;
mod tables;
mod taken;
mod telling;
mod testing;
mod told;

pub use calls::{enter, row_of_function, row_of_literal, size_used, test_at};
pub use knowns::known_row;
pub use tables::Sizes;
