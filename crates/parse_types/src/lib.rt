//! Tokens, types, patterns and heads of definitions, read from left to right.
//!
//! The calls here are those that the readers of expressions and declarations stand on. Each gives what the reading of
//! `fut_grammar` gives there, as a tree in the arena, and the tokens behind it.
#![tactic(auto)]

pub mod found;
pub mod heads;
pub mod lists;
pub mod params;
pub mod pat_nodes;
pub mod patterns;
pub mod tokens;
mod type_nodes;
pub mod types;
