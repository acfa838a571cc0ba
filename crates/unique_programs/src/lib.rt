//! Whether a program that has a typing overwrites only what it may.
//!
//! [`unique_program`] reads the types of all nodes off the graph that inference leaves, as trees that share their parts, and
//! asks the checker of aliases and consumption (`alias_check`). It answers that no rule is broken (`specs/Rules.antt`), or the
//! first that is, with its names as they stand in the source and its places (`specs/Misuses.antt`). Other passes take the types
//! of nodes as it does ([`type_trees`], [`count_numbers`], [`is_given`]).
#![tactic(auto)]

mod checking;
mod given;
mod laws;
mod misuse;
mod numbers;
mod sizes;
mod telling;
mod trees;

pub use checking::unique_program;
pub use given::is_given;
pub use laws::variables_may_be_arrays;
pub use misuse::Misuse;
pub use numbers::count_numbers;
pub use trees::type_trees;
