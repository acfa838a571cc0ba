//! What the checker of uniqueness knows of a program: the kinds of type variables, the type of each node, the names of parts;
//! and what a term is before it is known whether arguments follow.
#![tactic(auto)]

mod parts;
mod program;

pub use parts::Part;
pub use program::{Program, after, no_alias, type_at};
