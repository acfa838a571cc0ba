//! The parts of unfolding that do not walk over terms: names and patterns, operations, data laid out in components or packed
//! as one, and new names for it, with the steps so far.
//!
//! What is unfolded is said by the definitions of `unfold`; `specs/Answers.antt` says what the calls answer. `Lost` is answered
//! only where what is given has no way on, and each contract says what lacks. Where there is a sizing, its tables (`told_rows`) tell
//! rows that are missing and what sizes are worth; contracts speak of whichever sizing they tell (`specs/Told.antt`).
#![tactic(auto)]

mod equality;
mod fresh;
mod jobs;
mod laying;
mod new_names;
mod operations;
mod packing;
mod parts;
mod patterns;
mod primitives;
mod records;
mod refusal;
mod scope;
mod stepped;
mod steps;
mod tested;
mod told;
mod tops;
mod uses;

pub use fresh::Fresh;
pub use jobs::{Job, begin_job, end_job};
pub use laying::lay;
pub use new_names::Named;
pub use operations::operate;
pub use packing::pack;
pub use patterns::bind;
pub use primitives::{Applied, apply_primitive, arity};
pub use refusal::Refusal;
pub use scope::{bound, nothing};
pub use steps::Unfolding;
pub use told::Told;
pub use tops::Tops;
pub use uses::used;
