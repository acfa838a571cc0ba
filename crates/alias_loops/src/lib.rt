//! Loops in the checker of uniqueness: what a loop carries, what its parameters share memory with over all turns, and what is asked
//! before the first turn and behind each.
//!
//! Each public function is a function of `fut_aliases` (`specs/Loops.antt` and the loops of `specs/Looking.antt` there) on the trees
//! of the checker, or a step of it.
#![tactic(auto)]

mod carried;
mod labels;
mod lowest;
mod sharing;
mod starting;
mod steps;
mod turns;
mod values;
mod written;

pub use carried::{Carried, carried_by};
pub use starting::starts;
pub use steps::{enter, leave, lose_flow};
pub use turns::over_all_turns;
pub use values::{loop_value, parameter_value};
