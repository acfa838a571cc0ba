//! Steps of Core over arrays that run no block, and the rows of arrays for those that do.
//!
//! Rows are taken out of arrays as words on the stack ([`push_row`]), where a row that is an array itself is a part of the words
//! of its array; and words on the stack are put into arrays. Contracts say for whatever names stand that an answer is what the
//! meaning of Core has, or that memory ran out.
#![tactic(auto)]

mod arrange;
mod bundles;
mod columns;
mod copies;
mod empties;
mod gluing;
mod making;
mod rows;
mod selected;
mod sources;
mod together;
mod views;

pub use arrange::{glue, push_last};
pub use bundles::{bundle_count, push_bundle};
pub use empties::glue_none;
pub use making::run_making;
pub use rows::{push_row, rows_count};
pub use selected::{keep_none, keep_passing, part_passing};
pub use sources::{push_source, size_at, source_count};
pub use views::run_view;
