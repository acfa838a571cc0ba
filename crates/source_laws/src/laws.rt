// The laws of sources, each carried by a call.
ghost use Rattle.source_laws.specs.Claims.{NotBrokenToo, NotRefusedToo, RuleIsOne, SizingIsOne};

/// The law that the first rule on aliases and consumption that a source breaks is one, by all numberings in order and all typings;
/// so one that breaks none is none that breaks one.
pub fn sources_break_one_rule()
    ensures one { RuleIsOne }
    ensures broken { NotBrokenToo }
{}

/// The law that the sizing of a source is one, or its first refusal, by all numberings in order and all typings, where one typing
/// leaves no variable open; so one that has a sizing is then none whose sizes are refused.
pub fn sources_have_one_sizing()
    ensures one { SizingIsOne }
    ensures refused { NotRefusedToo }
{}
