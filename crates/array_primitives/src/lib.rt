//! The primitives of the language on data as a run holds it.
//!
//! Each operation gives what the copying meaning says of the data that its arguments stand for. What a primitive does with its
//! function is a plan, which the evaluator follows.
#![tactic(auto)]

mod columns;
mod counting;
mod cuts;
mod indexing;
mod jobs;
mod joins;
mod nested;
mod parts;
mod ranges;
mod sieve;
mod summaries;
mod unzips;
mod updates;
mod writes;
mod zips;

pub use columns::{put_rows, same_counts};
pub use counting::{copied, indices, iota, length, null, number, numbers, replicate};
pub use cuts::part_at;
pub use indexing::row_at;
pub use jobs::{Finish, Plan, finish_rows, plan_of, put_row};
pub use nested::{flatten, transpose, unflatten};
pub use parts::{drop_rows, head, init, last, push_part, reverse, rotate, tail, take};
pub use ranges::range;
pub use summaries::{fold, operation};
pub use unzips::{unzip, unzip3};
pub use updates::update;
pub use writes::{index_at, scatter};
pub use zips::zip;
