//! How a run ends: its status with its number, and its line on err (`specs/Status.antt`).
#![tactic(auto)]

mod line;
mod pieces;
mod status;

pub use front::{Misfit, Misuse, NameErr, Shown, TypeErr};
pub use line::report;
pub use status::{EntryErr, LimitKind, Refused, Status, Why, code};
pub use value_text::TextErr;
