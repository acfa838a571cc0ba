//! The checker of uniqueness: what is consumed, and the first rule that a program breaks.
//!
//! It stands on `alias_values` and `alias_losses`, and each public function is a step of `fut_aliases`: from what was consumed
//! before it answers what was consumed then, or the first rule that is broken, or that memory ran out (`specs/Answers.antt`). So
//! far there are the steps that ask something of names and of parts that were evaluated, [`use_name`], [`settle`] and [`update`],
//! and those that put back what a part of a term consumed, [`end_body`], [`end_branch`] and [`join_branches`].
#![tactic(auto)]

mod held;
mod rules;
mod steps;

pub use held::{Held, Here, Stop};
pub use rules::{aliases, captured, not_consumable};
pub use steps::{end_body, end_branch, join_branches, settle, update, use_name};
