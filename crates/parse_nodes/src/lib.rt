//! The nodes of expressions that the parser makes, with what is written short, and what stands next where one does.
//!
//! The calls here are those that `parse_atoms` and `parse_exps` stand on: each makes just the node that the grammar of
//! `fut_ast` gives its production, or tells what the next tokens are.
#![tactic(auto)]

pub mod binds;
pub mod exp_nodes;
pub mod exp_tokens;
pub mod index_nodes;
pub mod joins;
pub mod lists;
pub mod loops;
mod new_names;
pub mod pat_exps;
pub mod replacing;
pub mod sections;
