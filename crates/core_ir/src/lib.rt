//! Core: blocks of steps in A-normal form over scalars and flat arrays, without tuples.
//!
//! Each variable stands for a scalar or for an array by the sizes of its dimensions and its cells in row-major order. An array
//! of tuples is a bundle of arrays, one for each component of a row; rows are taken out of a bundle and put into one in two
//! definitions alone (`specs/Bundles.antt`), and each step over arrays is said by rows (`specs/Arrays.antt`). Code handles
//! blocks by reference in an arena; definitions speak of what they stand for (`specs/Plain.antt`). `specs/Meaning.antt` says what a
//! block means, by the combinators that say what programs mean, with one count of fresh words; `specs/Typed.antt` and
//! `specs/Numbered.antt` when it is well formed. The calls of this crate carry its laws (`specs/Claims.antt`).
#![tactic(auto)]

mod block;
mod laws;

pub use block::{
    Atom, Block, Core, Making, Op, Operation, Operator, Over, Rows, Step, Var, View, Write,
};
pub use laws::{
    core_has_some_outcome, tight_adds_nothing, well_formed_never_goes_wrong,
    what_fits_means_the_same,
};
