//! Parts of tuples and records, by their places and by their names.
//!
//! Values and stars are the trees of `alias_values`. The names of a program's parts are known as far as its types ask for them
//! (`specs/Known.antt`); what is asked of a name that is not known is answered as want of memory.
#![tactic(auto)]

mod named;
mod names;
mod parts;

pub use named::{part_named, with_part_named};
pub use names::{PartNames, place_named};
pub use parts::{part, star_at, with_part};
