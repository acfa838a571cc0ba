//! Applications in the checker of uniqueness: what a function with its arguments gives and consumes, and the end of a function's
//! body.
//!
//! Each public function is a step of `fut_aliases` (`uniqueness`, `specs/Answers.antt`). A row of applications is looked at with
//! its arguments in one `Vec`, which stands for those of the part ([`ready`], [`wanted_parameter`], [`with_argument`]); at its end
//! the arena holds them ([`gathered`]).
#![tactic(auto)]

mod bodies;
mod calls;
mod given;
mod parts;
mod rows;
mod rules;
mod sides;

pub use bodies::{ascribe, give_back};
pub use calls::finished;
pub use parts::{Told, hold, whole};
pub use rows::{by_itself, gathered, ready, wanted_parameter, with_argument};
