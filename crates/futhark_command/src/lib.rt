//! A call of the program, from the words that it is given to its exit: `--help` and `--version`, or a run.
//!
//! The contract of [`run_command_line`] is that of the product. It speaks of the words as they are given, of files, input, out
//! and err; the program's `main` makes the real ones and nothing else.
#![tactic(auto)]

mod call;
mod gather;
mod told;

pub use call::run_command_line;
