//! The checker's sets of aliases answer as whole sets do.
//!
//! By the rules each name stands in its own set. A set may leave a name out where an earlier one is in it: each set that has the
//! later name has the earlier one too, and of two names the earlier one is told, so that all that is asked of a set has the same
//! answer. The law is told of every program, with no premise.
//!
//! The proof walks both ways side by side. `proofs/Worlds.antt`: a world says which name stands for which, and relates a set of
//! the checker to a whole one; the files above it do so for values, losses, steps, calls, operations, patterns and forms. A loop
//! is looked at twice, in two worlds: in the first each name of its pattern stands for itself, in the second a name from outside
//! may stand for it (`proofs/Turns.antt`).
#![tactic(auto)]

mod laws;

pub use laws::kept_names_answer_the_same;
