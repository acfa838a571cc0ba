//! Sizes that a program writes: what an ascription, a coercion, a parameter and a declared result make of a sized type (Futhark
//! Language Reference, "Size Types", "Size Coercion").
//!
//! Each public call is a function of `fut_sizes`, on written types and trees in the arena of `size_arena`. Names of parts are known
//! as far as `alias_parts` knows them; what is asked of a name that is not known is answered as want of memory.
#![tactic(auto)]

mod agreeing;
mod blanks;
mod filling;
mod heads;
mod parts;
mod written;

pub use agreeing::has_sizes;
pub use parts::{changed_part, part_of};
pub use written::{ascribed, coerced, coercion, declared, parameter_size};
