//! How many visits the walk through a program takes, and how many of them lie inside each other, before anything is unfolded.
//!
//! The walk is that of `fut_meaning` (`specs/Walk.antt`): it stops at the first visit past a limit, so it is linear in the
//! visits up to the limits however often the program's functions run into each other.
#![tactic(auto)]

mod known;
mod lets;
mod lists;
mod operations;
mod patterns;
mod peel;
mod primitives;
mod program;
mod records;
mod scope;
mod steps;
mod stop;
mod tops;
mod walk;
mod walked;

pub use program::{measure, measure_or_lost};
pub use stop::Stop;
