//! What a loop carries: the sized type that each turn begins with, and the levels in which what a turn gives differs from it.
//!
//! Both are calls of the definition (`fut_sizes`) on trees in an arena. A loop drops the levels in which a turn differs; those are
//! unknown in the next turn, and all others keep the sizes that the loop began with.
#![tactic(auto)]

mod loops;

pub use loops::{differing, lacking};
