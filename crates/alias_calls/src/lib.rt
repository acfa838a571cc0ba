//! What a call consumes and what it gives: components that clash, and components without a star.
//!
//! Each public function is a function of `fut_aliases` on the trees of `alias_values`.
#![tactic(auto)]

mod counting;
mod results;
mod sides;

pub use counting::unstarred;
pub use results::call_value;
pub use sides::{Side, clash, clashes};
