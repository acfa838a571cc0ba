//! The pass over sizes over a term, in the order of evaluation.
//!
//! [`size_whole`] answers the sized type of a term by itself as `fut_sizes` has it (`specs/Sizing.antt` there): a step from the
//! tables before it to the tables behind it, or the first refusal. Rows of `let`s, arguments, parts and turns are loops, so the
//! walk goes no deeper than terms are nested. A lambda waits for what an application wants of it, and is sized then.
#![tactic(auto)]

mod lambdas;
mod parts;
mod sites;
mod spines;
mod walk;

pub use lambdas::Lambda;
pub use sites::Site;
pub use spines::Spine;
pub use walk::size_whole;
