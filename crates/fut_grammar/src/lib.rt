//! The reading of phrases as a definition, proved equal to the grammar of `fut_ast`, and why reading stops.
//!
//! `specs/Reading.antt` and `specs/Phrases.antt` say what is read where; `proofs/SoundPhrases.antt` and
//! `proofs/CompletePhrases.antt`, that it is just what the grammar derives, for all productions. The code that reads
//! stands in the crates above. The laws of the grammar by itself are those of `laws.rt`.
#![tactic(auto)]

pub mod fault;
mod laws;

pub use fault::{Fault, Stop};
pub use laws::{sugar_captures_no_name, tokens_are_one_program};
