//! Written types, put into a graph of types.
//!
//! A written type that stands at a node asks that the node has the type that it denotes. Nodes of its own, behind all that
//! are there, stand for its parts; sizes ask only that what is named in them has the type i64. It costs the length of the
//! type.
#![tactic(auto)]

mod fields;
mod named;
mod sizes;
mod steps;
mod written;

pub use fields::constrain_fields;
pub use named::constrain_name;
pub use written::{constrain_ascription, constrain_type};
