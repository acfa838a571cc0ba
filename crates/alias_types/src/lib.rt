//! Values and stars of a type: what the checker of uniqueness makes of types, stars and values as trees in an arena.
//!
//! Each public function is a function of `fut_aliases` on the trees of `alias_values`.
#![tactic(auto)]

mod making;
mod picking;
mod reshaping;

pub use making::{of_type, spread, with_stars};
pub use picking::{left, taken};
pub use reshaping::{ascribed, at_type, functions};
