//! From a flat program to its types, and to all that the laws of its meaning and of its walk ask for.
//!
//! [`typed_program`] answers the types of a program that has a typing to go on with, and what is known of it then
//! (`specs/Known.antt`); of another it tells why it has none, and where that shows (`specs/Mistyped.antt`). [`is_built`] asks
//! whether a program has only forms that are built; it stands behind a check of the tokens, which refuses each text of a form
//! that is not built yet, and goes once all are.
//!
//! [`integer_types`] gives the type of each integer without a suffix, read off the graph that inference leaves. The program is
//! then one of which the laws of its meaning speak, where its sizes are told: it never goes wrong, and its walk
//! is never lost (`specs/Typed.antt`).
//! [`entry_type`] tells the type of a definition from which a run may begin, exactly (`specs/Entries.antt`,
//! `EntryTypes.antt`).
#![tactic(auto)]

mod built;
mod built_terms;
mod definitions;
mod entries;
mod forms;
mod integers;
mod operations;
mod ordered;
mod positions;
mod typed;

pub use built::is_built;
pub use entries::{EntryType, EntryTypeErr, entry_type, number_of_name};
pub use integers::{IntegersErr, integer_types};
pub use typed::{Accepted, TypeErr, typed_program};
