//! A table of words on which workers race: each step of a worker does one pair, a word for a place, by one operation.
//!
//! Each worker has a seat, which knows the pairs that it did. The table keeps the rule of `phase_model`: its words are the old
//! ones after the pairs of all seats, each done once, in some order. So once one seat is left, the words are what its pairs
//! make of the old ones. After the table is opened nothing here takes memory or waits.
#![tactic(auto)]

mod operation;
mod rule;
mod table;

pub use operation::Operation;
pub use table::{PairSeat, PairTable};
