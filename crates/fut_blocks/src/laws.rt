// Laws of blocks, each carried by a call.
ghost use Rattle.fut_blocks.specs.Claims.{SomeOutcome};

/// The law that a program has some outcome for any arguments, be it that it goes wrong. It may have several, since a
/// reduction and a scatter may choose.
pub fn programs_have_some_outcome()
    ensures { SomeOutcome }
{}
