//! The forms of the checker of uniqueness: what is done with the parts of a term once they were looked at.
//!
//! Each public function is a step of `fut_aliases` (`specs/Looking.antt` there) or a part of one, on the trees of `alias_values`:
//! given what the walk answers for parts, it answers for the whole (`uniqueness`, `specs/Answers.antt`). The walk itself is
//! `alias_walk`. Proofs have the definition's equations form by form.
#![tactic(auto)]

mod branches;
mod functions;
mod loops;
mod names;
mod rows;
mod seen;

pub use branches::join;
pub use functions::{Entered, declared_or_wanted, end_function, enter_body};
pub use loops::{GoneOver, LoopFlow, Passed, Turn, end_flow, of_node, turn_scope};
pub use names::name_looked;
pub use rows::{bind_let, end_lets, value_node};
pub use seen::{
    Found, FoundParts, Inside, Seen, Site, is_plain, no_held, or_function, or_name, whole_seen,
};
