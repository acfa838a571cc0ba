//! What a program consumed so far, and where each alias was consumed first.
//!
//! Contracts see the list that `fut_aliases` speaks of: each alias once, in the order in which it was consumed. An alias is
//! found through the chain of those that were consumed at its node, so a look-up does not cost what was consumed elsewhere.
#![tactic(auto)]

mod chains;
mod losses;

pub use losses::{Losses, Telling};
