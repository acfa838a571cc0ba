//! The numbers of a flat program's nodes, told by walks over it: how many a tree has, and the home and the place of each.
//!
//! Nodes are numbered in the order in which they are read (`fut_flat`, `specs/Numbers.antt`). Each call here is linear in what
//! it passes, answers just what that numbering says, and `NoMemory` where a number does not fit.
//!
//! [`after_exp`] and its like give the number behind a tree from the number of the tree, for code that passes a tree over.
//! [`homes`] tells how deep in generalised definitions each number of a program stands, and 0 for what never differs from one
//! use of a definition to the next; the record and the part of a field access are at home in the innermost definition that has
//! written type parameters. [`places`] tells where each number stands in the text, so that what is said of a number can be
//! told of a place.
#![tactic(auto)]

mod home_noting;
mod home_table;
mod home_terms;
mod patterns;
mod place_noting;
mod place_table;
mod place_terms;
mod terms;

pub use home_table::homes;
pub use patterns::{after, after_pattern, after_patterns};
pub use place_table::places;
pub use terms::{after_exp, after_turns, own_numbers_of};
