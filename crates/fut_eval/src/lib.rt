//! Runs unfolded programs, by the copying meaning of blocks.
//!
//! The values of names stand in a table by their numbers, so that a name is read at once; the values that an act gives lie
//! on a stack until names are bound to them. Neither grows with the turns of a loop. Where nothing names an array later, the
//! table gives it up, so that an update of it writes it where it stands: a walk over the program, before it runs, tells where.
//! Contracts see nothing of that; to read an array that was given up would answer want of memory. How long it was and how its
//! rows looked stays known, so a row or a size that looks at an array is no use of it. The theorem of this crate is the contract
//! of [`eval`]: its answer is an outcome that the meaning allows, or that memory ran out.
#![tactic(auto)]

mod blocks;
mod equality;
mod finish;
mod last_uses;
mod make;
mod names;
mod operate;
mod program;
mod records;
mod shapes;
mod size_tests;
mod slots;

pub use array_data::Data;
pub use program::{EvalErr, eval, run, table_of};
pub use slots::{Content, Moves, Slot};
