//! What the words of the command line ask for, or the first word that breaks a rule (`specs/CommandLine.antt`).
#![tactic(auto)]

mod command;
mod said;
mod words;

pub use command::{Command, read_words};
pub use words::Action;
