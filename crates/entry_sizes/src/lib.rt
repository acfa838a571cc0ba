//! The sizes that an entry wants of its arguments, read off its sized type.
//!
//! [`wanted_arguments`] gives for each parameter the size of each of its levels: a number, or a name that stands for a size
//! parameter or for the value of an earlier parameter (`specs/Wanted.antt`). An entry whose parameters have other sizes, as that
//! of a definition, is outside the profile.
#![tactic(auto)]

mod heads;
mod wanted;

pub use wanted::{WantedErr, wanted_arguments};
