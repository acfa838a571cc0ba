//! Lemmas on outcomes that a step from one language to another needs: relations that allow the same (`proofs/Alike.antt`), and
//! relations that cover one another, with a count that is at least as large (`specs/Covers.antt`, `proofs/Covers.antt`).
//!
//! They are over any data and any meaning, so they speak of no language, and the crate has no calls. `unfold` has `Alike` of
//! its own still, and is to go over to this one.
#![tactic(auto)]
