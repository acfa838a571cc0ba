//! How an application matches what it finds with what is wanted.
//!
//! [`meet`] goes through two sized types together: slots take the sizes that they meet, open variables the sized types, and
//! function types are opened as they are met. The tables of `size_slots` hold what is found.
#![tactic(auto)]

mod comparing;
mod matching;
mod opening;

pub use comparing::{compared, meet_variable};
pub use matching::meet;
pub use opening::past_frame;
