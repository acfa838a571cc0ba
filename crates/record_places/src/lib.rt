//! Where the parts of a record are written, in the order of the record's labels.
//!
//! A record's parts are written in any order, and its values and sized types have them in the order of its labels. The place of a
//! label costs the logarithm of the number of labels, so a record costs little more than its text.
#![tactic(auto)]

mod places;

pub use places::written_places;
