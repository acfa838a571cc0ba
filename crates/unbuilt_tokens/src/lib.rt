//! The tokens of forms that are not built yet.
//!
//! [`first_unbuilt`] finds the first of them: the word `type` of declared types (`specs/Unbuilt.antt`). Directly
//! behind `module` it begins a module type.
#![tactic(auto)]

mod words;

pub use words::first_unbuilt;
