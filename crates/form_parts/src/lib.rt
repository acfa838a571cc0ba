//! What stands in forms of data: rows of arrays, parts, fields, and lengths as sizes.
//!
//! Nothing is told of a part that is not there, as in the definition (`fut_meaning`, `specs/Places.antt`).
#![tactic(auto)]

mod fields;
mod parts;
mod sizes;

pub use fields::{field_at, field_form, record_form};
pub use parts::{array_form, arrays_form, part_form, rows_form};
pub use sizes::{agrees, counted, data_length, data_worth, length_of};
