//! The tables of a program's sizing, as unfolding asks for them.
//!
//! [`sizing_tables`] makes them of a flat program, the numbers of its names of fields, and the sized types of its nodes, by one
//! walk over the program. They tell the sizing of which `specs/Told.antt` says what it is: the meaning's view of a program whose
//! nodes have sized types.
//!
//! What is bound where is in `specs/Bound.antt`. A program that elaboration makes binds each number once, and so has such a
//! sizing, in which names of sizes are told from the others ([`sizing_is_told`]; `specs/Claims.antt`).
#![tactic(auto)]

mod laws;
mod marks;
mod noting;
mod records;
mod tables;
mod terms;

pub use laws::sizing_is_told;
pub use tables::sizing_tables;
