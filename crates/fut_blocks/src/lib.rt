//! Unfolded programs: blocks of steps in A-normal form, with no functions left but the blocks of primitives on arrays.
//!
//! Each name stands for one component: a scalar, an array, or a tuple or record of such data that stands in an array or came
//! out of one. All other tuples and records are gone. Steps stand in the order of evaluation. Code handles blocks by
//! reference in an arena; definitions speak of what they stand for (`specs/Plain.antt`). `specs/Meaning.antt` says what a block
//! means, `specs/Numbered.antt` that its names rise, and `specs/Programs.antt` the same of programs. The call of this crate
//! carries the law that a program has some outcome (`specs/Claims.antt`).
#![tactic(auto)]

mod block;
mod laws;
mod row;

pub use block::{Act, Atom, Block, Making, Operation, Program, Step};
pub use laws::programs_have_some_outcome;
pub use row::{Extent, FieldShape, FieldTest, RowShape, SizeTest};
