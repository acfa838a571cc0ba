//! Sizing: which size each level of an array has in the types of a program.
//!
//! The definitions (`specs/`) speak of terms and know no code. Sized types stand in `sized_types`; `specs/Primitives.antt` has those
//! of the primitives, read off the language's table. `specs/Sizing.antt` has one clause a form: by structure, in the
//! order of evaluation, the sized type of each node or the first refusal. It is told in words of `specs/Agreeing.antt` (what is
//! refused, and what becomes of sizes), `specs/WrittenSizes.antt`, `specs/Operations.antt`, `specs/Scopes.antt` (names and
//! patterns), `specs/Functions.antt` (the sizes that a function type binds), `specs/Matching.antt` and
//! `specs/Applications.antt`. `specs/Suiting.antt` says when a value of one sized type may stand where another is wanted. `specs/Rules.antt` and
//! `specs/ProgramRules.antt` have one rule a form, which a sizing of a term and of a program is judged by.
//! `proofs/Programs.antt` has programs with what they are answered.
#![tactic(auto)]

mod laws;

pub use laws::primitives_have_their_types;
