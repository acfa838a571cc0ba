//! The types of primitives, put into a graph of types where a primitive is used.
//!
//! The table of primitives writes them (`fut_primitives`). Each part of a written type that is no variable has a node of
//! its own, whose type is demanded of it; the node of the whole is that of the use.
#![tactic(auto)]

mod asked;
mod uses;

pub use uses::primitive;
