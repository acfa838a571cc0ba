//! From blocks to Core: which Core a program of blocks becomes, as a definition, and its laws.
//!
//! Each name of blocks stands for data, and in Core for the atoms of its components (`specs/Knowns.antt`), so tuples and records
//! need no step. `specs/Lowering.antt` says which steps an act becomes, with the types of its results; acts for which it has no
//! rule are not lowered yet. The calls carry the laws (`specs/Claims.antt`).
#![tactic(auto)]

mod laws;

pub use laws::{lowering_adds_no_outcome, lowering_gives_well_formed};
