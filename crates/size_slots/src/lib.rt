//! What an application has found: the sizes and the sized types that its slots and open variables took.
//!
//! The definition has a substitution ([`Found`] is what code has of it, `specs/Held.antt` says how). A slot that took another is a
//! link to one of a smaller number, so that a size is found by following links, and nothing is written anew where a slot takes a
//! size. An open variable's sized type is filled in where others have taken the variable, so that it is found in one step. Each
//! number was made at a node ([`maker_of`]).
#![tactic(auto)]

mod choices;
mod makers;
mod meeting;
mod reading;
mod slots;
mod taking;

pub use makers::{made_at, maker_of};
pub use meeting::{Way, meet_dims, read_free};
pub use reading::{read, with_sizes};
pub use slots::{Chosen, Found, Maker, Slot, nothing_found};
pub use taking::{open_takes, take_type};
