//! What typing promises of meaning: a typed program has an outcome, and never goes wrong.
//!
//! `specs/Fits.antt` says which values are of a type: a function is where it takes each value of its parameter's type to
//! outcomes of its result's type, and an array where each row is of the type of its elements and looks as the array says
//! (`specs/Likeness.antt`). `specs/Programs.antt` says what is asked of a program, and the law. `specs/Meant.antt` tells which
//! terms without sizes the meaning and the walk know, and `specs/Formed.antt` which they know where names of sizes may be bound:
//! a sizing tells these from all other names, and as an expression each is an i64. `specs/Knows.antt` says what is known of
//! values of a type before a program runs, and `specs/Walks.antt` is the law that the walk through a typed program is never lost.
//!
//! A primitive on arrays is one lemma in `proofs/DataPrimitives.antt` or `proofs/FunctionPrimitives.antt`, on what it does with
//! data of its types however its function is applied (`proofs/Application.antt`), and one line in `proofs/ArrayPrimitives.antt`.
#![tactic(auto)]

ghost use Rattle.type_soundness.specs.Programs.{Has_outcome, Never_wrong};
ghost use Rattle.type_soundness.specs.Walks.{Walks_never_lost};

/// The law that each outcome of a typed program is a report or a value of its entry's result type, for all arguments of the
/// types of its parameters.
#[tactic(auto, using(crate::proofs::Programs::sized_never_wrong))]
pub fn typed_programs_never_go_wrong()
    ensures { Never_wrong }
{}

/// The law that a typed program has some outcome, for all arguments of the types of its parameters and any budget of turns.
#[tactic(auto, using(crate::proofs::Programs::sized_has_outcome))]
pub fn typed_programs_have_some_outcome()
    ensures { Has_outcome }
{}

/// The law that the walk of a typed program is never lost, from each entry that takes data and gives data.
pub fn walks_of_typed_programs_are_never_lost()
    ensures { Walks_never_lost }
{}
