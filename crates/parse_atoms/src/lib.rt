//! Atoms, and the forms that begin with a keyword or a backslash and reach far: if, functions, loops and rows of lets.
//!
//! Each call reads one of them as `fut_grammar` says, over what reads the expressions inside: the tie, through which a
//! production reaches them.
#![tactic(auto)]

pub mod atoms;
mod brackets;
mod fields;
pub mod forms;
mod indices;
mod items;
mod leaves;
pub mod lets;
pub mod made;
mod parens;
pub mod suffixes;
pub mod tie;
pub mod written;
