//! What two give together: values by component, declared stars, and the stars of primitives off the one table.
//!
//! Each public function is a function of `fut_aliases` on the trees of `alias_values`.
#![tactic(auto)]

mod declared;
mod uniting;

pub use declared::{either, primitive_stars};
pub use uniting::{components, having, unite, united};
