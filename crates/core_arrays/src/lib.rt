//! The arrays of a running program, each with words of its own.
//!
//! An array is named by its number. Those that a part of the program made stand behind all others, so what it leaves behind
//! is given back at once ([`Arrays::cut`]). Words that new arrays take are counted.
#![tactic(auto)]

mod arrays;

pub use arrays::{Arrays, Cells, Whole};
