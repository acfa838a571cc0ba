//! What patterns do to sizes: the names that they bind, the sized types that these have, and the parameters of functions (Futhark
//! Language Reference, "Patterns", "Size Types").
//!
//! Each public call is a function of `fut_sizes`, on the patterns of `fut_flat` by reference and on the trees of `size_arena`. What
//! is known of names is a map that is handed on (`size_program`), so that nothing is put back where a scope ends.
#![tactic(auto)]

mod binding;
mod changing;
mod entering;
mod heads;
mod names;
mod noting;
mod opening;
mod parameters;
mod rows;
mod taking;

pub use binding::{Bindings, Unmet, bind, bind_at, let_scope, rename_taken};
pub use entering::{Entered, enter_all};
pub use heads::{has_parameters, with_head};
pub use names::{bound_names, head_names, part_names, pattern_names};
pub use noting::{note_parameters, note_pattern};
pub use opening::is_open;
