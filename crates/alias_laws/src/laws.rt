// The law of the checker's sets.
ghost use Rattle.alias_laws.specs.Claims.{KeptNamesAnswerTheSame};

/// The first rule that a program breaks is the same where a set leaves out each name behind an earlier one.
#[tactic(auto, using(crate::proofs::Law::kept_names_answer_the_same))]
pub fn kept_names_answer_the_same()
    ensures { KeptNamesAnswerTheSame }
{}
