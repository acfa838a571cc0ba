//! Data as components of Core: a tuple has those of its parts, and an array of tuples is a bundle of flat arrays.
//!
//! `specs/Components.antt` says which components data has, and which data is regular: each row of an array has the shape that
//! the array tells. The calls carry what follows (`specs/Claims.antt`): what the steps of Core give for the components of
//! regular data are the components of what the copying meaning gives for the data, with the same failures and counts.
#![tactic(auto)]

mod laws;

pub use laws::{
    arrays_are_made, components_are_sized, counts_agree, cuts_agree, rows_are_joined,
    rows_are_taken, rows_come_out, updates_agree, zips_agree,
};
