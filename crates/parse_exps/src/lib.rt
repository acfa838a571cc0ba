//! Expressions, read as `fut_grammar` says.
//!
//! `whole_expression` is the one call: the tree of an expression, its height, and the tokens behind it.
#![tactic(auto)]

mod arguments;
mod expressions;
mod insides;
mod operators;
mod ranges;
mod typed;
mod updates;
mod wholes;

pub use expressions::whole_expression;
