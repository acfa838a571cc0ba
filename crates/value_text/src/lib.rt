//! Values as text: arguments are read, and results are printed.
//!
//! The text of a program's input is one value for each parameter: an integer with an optional `-`, in decimal, hexadecimal
//! or binary, with an optional type behind it, `true` or `false`, or an array as its rows in brackets or as `empty(..)` with
//! its sizes. Blanks and comments may stand between. The theorem of this crate is the contract of [`read_args`]: the values
//! are those that the text reads as, and their sizes agree (`specs/Arguments.antt`), or the refusal is the first that there
//! is. [`arguments_are_read`] says that what is read is exactly the grammar of `specs/Values.antt`, and [`values_read_back`]
//! that printing and reading belong together. Reading is one pass and printing another, both linear, and neither recurses
//! deeper than the rank. [`read_scalars`] and [`print_scalars`] are the same of scalars alone.
#![tactic(auto)]

mod arguments;
mod array_texts;
mod arrays;
mod empties;
mod gaps;
mod laws;
mod numbers;
mod printing;
mod reading;
mod sizes;
mod spelled;
mod wanted;
mod words;
mod written;

pub use arguments::read_args;
pub use array_texts::{print_value, print_values};
pub use laws::{
    arguments_are_read, arguments_fit, integers_are_kept, names_go_on, printed_values_read_back,
    texts_are_read, values_read_back,
};
pub use printing::print_scalars;
pub use reading::{TextErr, read_scalars};
