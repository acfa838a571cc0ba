//! What names stand for, on the way through a program.
//!
//! A scope is a tree in an arena that is handed on by copying a reference. One with one more name shares all but a path with the one
//! before, which stays as it was: what stands behind a branch or a function is looked at in the scope from before it, and nothing is
//! undone. Looking up a name and adding one cost the logarithm of its number.
#![tactic(auto)]

mod scopes;
mod trees;

pub use scopes::{no_names, value_at, with_value};
pub use trees::ScopeTree;
