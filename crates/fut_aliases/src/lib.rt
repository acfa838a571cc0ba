//! Aliases and consumption: which values may share memory, and which arrays a program may overwrite (Henriksen et al.,
//! "Futhark: Purely Functional GPU-Programming with Nested Parallelism and In-Place Array Updates", PLDI 2017, section 3;
//! Futhark Language Reference, "In-place Updates").
//!
//! The definitions (`specs/`) speak of terms and their types and know no code. `specs/Aliases.antt` has the names with which a
//! value may share memory and sets of them, `specs/Stars.antt` which components of parameters and results have a star, and
//! `specs/Values.antt` values by component. `specs/Looking.antt` has one clause a form: by structure, in the order of
//! evaluation, the aliases of a term's value or the first rule that is broken. It is told in words of `specs/Steps.antt` (what
//! was consumed, and what is refused), `specs/Patterns.antt`, `specs/Capturing.antt` (functions), `specs/Calls.antt`,
//! `specs/Operations.antt` and `specs/Loops.antt`. `proofs/Programs.antt` has programs with what they are answered.
#![tactic(auto)]

mod aliases;
mod laws;
mod refusals;

pub use aliases::Alias;
pub use laws::stars_and_sets;
pub use refusals::{Broken, Loss, Named, Spot};
