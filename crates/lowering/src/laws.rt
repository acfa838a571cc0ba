// The law of lowering, carried by a call.
ghost use Rattle.lowering.specs.Claims.{AddsNoOutcome, FittedAddsNoOutcome, GivesWellFormed};

/// The law that what a Core allows for the components of arguments the blocks from which it comes allow for the arguments,
/// with a count at least as large; and where what does not fit is wrong, each outcome but to go wrong.
pub fn lowering_adds_no_outcome()
    ensures adds_nothing { AddsNoOutcome }
    ensures fitted { FittedAddsNoOutcome }
{}

/// The law that the Core is well formed.
pub fn lowering_gives_well_formed()
    ensures { GivesWellFormed }
{}
