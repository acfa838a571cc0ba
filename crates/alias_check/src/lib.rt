//! The checker of uniqueness over a whole program.
//!
//! [`check`] answers the first rule of aliases and consumption that a program breaks, in the order of evaluation
//! (`fut_aliases`, `specs/Programs.antt`), or that it breaks none.
#![tactic(auto)]

mod definitions;

pub use definitions::check;
