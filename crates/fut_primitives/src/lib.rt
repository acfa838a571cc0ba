//! The primitives of the language in one table: the name of each, and its type with sizes and stars.
//!
//! What other crates know of primitives in general is read off it: their types, how many arguments they take and which
//! are functions, and which name is a primitive's. `specs/Table.antt` is the table that contracts speak of; `src/table.rt`
//! has the same lines, and its contract says so.
#![tactic(auto)]

mod names;
mod table;
mod written;

pub use names::{member_of, primitive_of, scalar_of};
pub use table::{Line, Scalars, line_of, scalars_of};
pub use written::{Letter, Size, Written};
