//! The sized types of operations, and what a size may name.
//!
//! The definition is `fut_sizes` (`specs/Operations.antt`; Futhark Language Reference, "Expressions", "Size Types"). Each public
//! call is one of its functions, on flat expressions and on sized types in the arena of `size_arena`.
#![tactic(auto)]

mod answers;
mod arrays;
mod elements;
mod indices;
mod operations;
mod ranges;
mod records;
mod single;
mod updates;
mod values;

pub use operations::{note_second, operation};
pub use values::{is_literal, is_use, named_value, value_of};
