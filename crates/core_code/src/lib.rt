//! Registers for the names of Core, and steps on scalars from registers to a register.
//!
//! Each name has a register, a word in one flat table: the bits of a scalar, or the number of an array among those of the run.
//! A step on scalars takes no memory ([`run_operation`]); what a block gives lies on a stack of words until names are bound to it
//! ([`push_all`], [`take`]). Contracts say for whatever names stand (`specs/Registers.antt`) that an answer is what the
//! meaning of Core has, or that memory ran out (`specs/Answers.antt`).
#![tactic(auto)]

mod operate;
mod registers;
mod scalars;
mod stop;

pub use operate::{length_of, run_operation};
pub use registers::{
    bind, elem_of, pop_truth, push, push_all, rank_of, set_word, take, truth_at, turns_at, word_at,
};
pub use scalars::{asked, fits, low_bits};
pub use stop::Stop;
