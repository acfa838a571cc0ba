//! The nodes of flat trees. Each builder takes a part as the answer of the walk that made it, so that a walk over many
//! forms has no early exits.
#![tactic(auto)]

pub mod both;
pub mod exps;
pub mod pats;
pub mod rows;
pub mod typed;
pub mod types;
pub mod uses;
