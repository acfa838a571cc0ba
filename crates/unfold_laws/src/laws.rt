// Laws of typed programs' blocks, each carried by a call.
ghost use Rattle.unfold_laws.specs.Claims.{BlocksNeverWrong, ResultsAreOf, UnfoldedClosed, UnfoldedWellTyped, UnfoldingNeverStuck};
ghost use Rattle.unfold_laws.specs.Closed.{TypesMayBeClosed};
ghost use Rattle.unfold_laws.specs.Safety.{ProgramsNeverStuck};

/// The law that the blocks of a typed program give a value of its entry's result type or a report, and never go wrong.
pub fn typed_blocks_never_go_wrong()
    ensures { BlocksNeverWrong }
{}

/// The law that the components of a value of the result's type are of the types of that type's components, once tuples that
/// are one component are taken apart.
pub fn results_are_of_their_types()
    ensures { ResultsAreOf }
{}

/// The law that unfolding a typed program comes to no place from which there is no way on.
pub fn unfolding_of_typed_programs_is_never_stuck()
    ensures { UnfoldingNeverStuck }
{}

/// The law that the blocks to which a typed program unfolds are well typed, arrays included, and that their results have the
/// types of the components of the result.
pub fn unfolded_programs_are_well_typed()
    ensures { UnfoldedWellTyped }
{}

/// The law that a well typed program of blocks never goes wrong, and gives results of its types or a report, whatever it comes of.
pub fn programs_are_never_stuck()
    ensures { ProgramsNeverStuck }
{}

/// The law that where the types of its parameters and results have no variables, a program of blocks is well typed exactly if it
/// is by types without variables alone: a name has each of them that its step may have, and each use takes one.
pub fn types_may_be_closed()
    ensures { TypesMayBeClosed }
{}

/// The law that the blocks to which a typed program unfolds are well typed by types without variables alone, where the type of
/// its entry has none.
pub fn types_of_unfolded_programs_may_be_closed()
    ensures { UnfoldedClosed }
{}
