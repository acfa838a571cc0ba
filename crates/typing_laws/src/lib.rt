//! Laws of typing, each carried by a call that does nothing.
//!
//! Generalisation is exact, also for definitions and local functions with written type parameters: the uses are the instances
//! of the principal type ([`written_generalisation_is_exact`], [`uses_are_exact`]; `specs/Claims.antt`). What is put for their
//! parameters stands in `specs/Parameters.antt`, and where in a term a local function stands in `specs/Ways.antt`.
//!
//! No answer to the question for a program's types hangs on how names and records are numbered
//! ([`typings_hang_on_no_numbering`], [`refusals_hang_on_no_numbering`]; `specs/NumberingClaims.antt`). Types under two
//! numberings are alike (`specs/Alike.antt`): the number of a record and the order of its parts may differ.
#![tactic(auto)]

mod laws;
mod numbering_laws;

pub use laws::{uses_are_exact, written_generalisation_is_exact};
pub use numbering_laws::{refusals_hang_on_no_numbering, typings_hang_on_no_numbering};
