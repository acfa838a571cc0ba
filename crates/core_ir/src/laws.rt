// Laws of Core, each carried by a call.
ghost use Rattle.core_ir.specs.Claims.{NeverWrong, SomeOutcome, TightAddsNothing, FittedAddsNothing, FittedLosesNothing};

/// The law that a well-formed Core never goes wrong on arguments of its parameters' types: each outcome is a report, or
/// results of the types that its body gives.
#[tactic(auto, using(crate::proofs::NeverWrong::never_wrong))]
pub fn well_formed_never_goes_wrong()
    ensures { NeverWrong }
{}

/// The law that it has some outcome for any arguments.
#[tactic(auto, using(crate::proofs::SomeOutcome::some_outcome))]
pub fn core_has_some_outcome()
    ensures { SomeOutcome }
{}

/// The law that with fewer trees for a reduction no outcome is added.
#[tactic(auto, using(crate::proofs::Tight::tight_adds_nothing))]
pub fn tight_adds_nothing()
    ensures { TightAddsNothing }
{}

/// The law that where what does not fit is taken for wrong no outcome is added, and where all fits none is lost.
#[tactic(auto, using(crate::proofs::Fitted::fitted_adds_nothing, crate::proofs::Fitted::fitted_loses_nothing))]
pub fn what_fits_means_the_same()
    ensures adds_nothing { FittedAddsNothing }
    ensures loses_nothing { FittedLosesNothing }
{}
