//! What is answered of a program's sizes and aliases does not hang on how names and records are numbered, where records have
//! their parts in one order.
//!
//! The parts of a record's type stand in the order of its labels, and sizes are matched part by part, so the order tells which
//! refusal comes first ([`order_counts`]). Nothing else of a numbering does: where each record of one numbering is one of another
//! with the same names in the same places (`specs/Renumbering.antt`), the answers are the same
//! ([`sizes_hang_on_no_numbering`], [`aliases_hang_on_no_numbering`]; `specs/Claims.antt`).
//!
//! A numbering is in order where the labels of each record rise by their names (`specs/Order.antt`). Each can be put in order, and
//! records have their parts in one order in any two that are ([`names_have_one_order`]).
//!
//! Two typings of a program under one numbering are one, with other names for the variables that stay open ([`typings_are_one`];
//! `specs/Renaming.antt`). The first broken rule on aliases hangs on no such name, so it is the same by all numberings in order
//! and all typings ([`first_broken_is_one`]; `specs/Sources.antt`). So is what is answered of sizes where no variable stays open
//! ([`closed_sizings_are_one`]).
//!
//! The proof walks by both numberings side by side. Sized types and values by the one are those by the other with renumbered
//! records (`proofs/Agreeing.antt`, `proofs/Written.antt`, `proofs/Stars.antt`); what an application finds is related
//! (`proofs/Matching.antt`, `proofs/Applying.antt`); and each step refuses the same, or gives what is alike
//! (`proofs/Steps.antt` to `proofs/Walk.antt`, `proofs/AliasSteps.antt` to `proofs/AliasWalk.antt`).
#![tactic(auto)]

mod laws;

pub use laws::{
    aliases_hang_on_no_numbering, closed_sizings_are_one, first_broken_is_one,
    names_have_one_order, order_counts, sizes_hang_on_no_numbering, typings_are_one,
};
