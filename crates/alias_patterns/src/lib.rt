//! Patterns and written types in the checker of uniqueness: the stars that are written, what patterns bind, which components of a
//! parameter have no star, and whether a value fits the functions that a pattern takes.
//!
//! Each public function is a function of `fut_aliases` on the types and patterns of `fut_flat` by reference, and on the trees of
//! `alias_values`. A pattern is given with the number of its first node; the number behind it is told by `flat_numbers`.
#![tactic(auto)]

mod binding;
mod fitting;
mod forms;
mod keeping;
mod own;
mod placing;
mod stars;
mod written;

pub use binding::{bound, with_parameters};
pub use fitting::let_fits;
pub use keeping::{all_kept, kept};
pub use own::own_names;
pub use stars::{function_stars, pattern_stars, result_stars};
pub use written::{declared_stars, stars_at, written_stars};
