//! The sized types of functions.
//!
//! Each size of a parameter that nothing around has is chosen by the caller, a parameter's name is the argument's value, and what
//! the body's nodes meet is met when the function runs ([`function_size`]). A size name that no parameter chooses is
//! [`unchosen`].
#![tactic(auto)]

mod arrows;
mod choosing;
mod functions;
mod takings;

pub use choosing::unchosen;
pub use functions::function_size;
pub use takings::{Taking, value_name};
