//! What parallel steps come to, told of parts: of a list that workers go over in chunks, and of words that race.
//!
//! `specs/Stages.antt` says which failure counts among those of several stages over a list and what the values are;
//! `specs/Trees.antt` says what an operator may make of values. The lemmas in `proofs/` put two parts in a row together; the
//! phases of `worker_runtime` cite them. The calls of this crate carry the laws of races.
#![tactic(auto)]

ghost use Rattle.outcomes.specs.Combined.{CombinedIsAReduction};
ghost use Rattle.outcomes.specs.Wide.{WholeRows};

/// The law that a scatter by claims leaves at each place its old row or one whole row of those that name it.
pub fn rows_stay_whole()
    ensures { WholeRows }
{}

/// The law that combining steps leave at each place a reduction of the old word and the words combined there.
#[tactic(auto, using(crate::proofs::Combined::combined_is_a_reduction))]
pub fn combined_is_a_reduction()
    ensures { CombinedIsAReduction }
{}
