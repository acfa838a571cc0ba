//! The walk of the checker of uniqueness over a term, in the order of evaluation.
//!
//! [`looked`] answers what a term gives where it stands, as a step of `fut_aliases` (`specs/Looking.antt` there) on the trees of
//! `alias_values`: from what was consumed before it comes to what was consumed then, or to the first rule that is broken, or
//! memory ran out (`uniqueness`, `specs/Answers.antt`). [`value_looked`] answers the value of a term by itself. Rows of `let`s and
//! of parts are loops, so the walk goes no deeper than terms are nested.
#![tactic(auto)]

mod walk;

pub use walk::{looked, value_looked};
