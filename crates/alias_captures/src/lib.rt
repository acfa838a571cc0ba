//! What a term names from outside: what a function shares memory with, beside the arguments that it was given.
//!
//! [`captured`] is a function of `fut_aliases` on the trees of the checker (`specs/Capturing.antt` there).
#![tactic(auto)]

mod captures;
mod capturing;

pub use captures::Capture;
pub use capturing::captured;
