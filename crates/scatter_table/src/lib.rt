//! Destinations of a scatter, on which workers race.
//!
//! With elements of one word the workers store their pairs (`Scatter`), and each place keeps the word of some pair. With
//! elements of several words all pairs first claim their places by number (`Claims`), the least number wins a place, and only
//! its pair stores words there, so that no row is mixed of two. After it is opened nothing here takes memory or waits.
#![tactic(auto)]

mod claims;
mod scatter;

pub use claims::Claims;
pub use pair_table::{PairSeat as ClaimSeat, PairSeat as ScatterSeat};
pub use scatter::Scatter;
