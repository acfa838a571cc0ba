//! What the pass over sizes stands on: a program's types and names of parts, what is known of names in scope, and the sized types
//! of nodes that are known so far.
//!
//! The definition is `fut_sizes`: its steps go from a state to a state. Here a state is two tables (`specs/Tables.antt`), a scope
//! is a map that is handed on, so that nothing is put back where it ends, and what a call gives is said by `specs/Answers.antt`.
#![tactic(auto)]

mod maps;
mod program;
mod scopes;
mod tables;

pub use maps::{Known, NumberMap, empty, find};
pub use program::{Program, own_size, plain_size, type_at};
pub use scopes::{with_general_name, with_name};
pub use tables::{Tables, drop_levels, dropped_by, node_size, note};
