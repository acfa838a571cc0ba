//! Values of an input as data of a run, and the data of a result as values.
//!
//! A value is flat, one list of words; data of a run is an array of words, or of rows that are shared. `specs/Met.antt` says
//! which value stands for data that lacks sizes, as `[]` does.
#![tactic(auto)]

mod giving;
mod taking;

pub use giving::{value_of, values_of};
pub use taking::{data_of, data_of_all};
