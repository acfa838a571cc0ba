//! The parser, proved equal to the grammar of `fut_ast`.
#![tactic(auto)]

mod declarations;
mod definitions;
mod items;
mod mod_nodes;
mod mod_tokens;
mod module_cycle;
mod module_tie;
mod modules;
mod programs;

pub use programs::{ParseErr, parse};
