// The laws of values and their sized types.
ghost use Rattle.sized_meaning.specs.Claims.{SuitingValuesFit};
ghost use Rattle.sized_meaning.specs.Entered.{CoercedHasItsSizes, FoundUnderNamesIsRight, LiteralRowsAreRight, ValuesRead};
ghost use Rattle.sized_meaning.specs.Finding.{FoundIsRight, StandingIsFound, ToldIsRight};
ghost use Rattle.sized_meaning.specs.Law.{ValuesHaveTheirSizes};
ghost use Rattle.sized_meaning.specs.Misfits.{DataIsOfItsShape, NoOperationMisfits, NoPrimitiveMisfits};
ghost use Rattle.sized_meaning.specs.Reports.{OperationsReportNoSizes, OtherSizesMisfit, PrimitivesReportNoSizes, SizesAreReportedThere};
ghost use Rattle.sized_meaning.specs.Programs.{DefinitionsAreEntered, ProgramsGiveTheirShapes, ProgramsHaveTheirSizes, SizedProgramsReportNoOtherSizes};

/// Where a sized type suits another, each value of the one is of the other.
#[tactic(auto, using(crate::proofs::Suiting::suiting_values_fit))]
pub fn suiting_values_fit()
    ensures { SuitingValuesFit }
{}

/// Each value that a sized term may give is of its sized type, for terms of names and names of sizes, scalars, array literals,
/// ranges, elements, slices and updates of arrays, records, tuples, their parts and changes of fields, coercions,
/// functions and what they declare, applications, lets, also of functions of one type, branches, loops and all primitives, `map2`
/// to `map5` where results hold no arrays; patterns may take the parts of tuples and records, and name sizes. And where it reports a
/// size, that is at one of its `:>` or `unflatten`.
#[tactic(auto, using(crate::proofs::Law::values_have_their_sizes))]
pub fn values_have_their_sizes()
    ensures { ValuesHaveTheirSizes }
{}

/// On arguments of its entry's sized type each value that a program gives is of the sized type of its results, with the sizes that
/// these arguments have, where its definitions have one type each and are made of such terms. The name of a definition that is a
/// number is a size of that value, which other definitions find as the program runs: what is coerced to it has it.
#[tactic(auto, using(crate::proofs::Programs::programs_have_their_sizes))]
pub fn programs_have_their_sizes()
    ensures { ProgramsHaveTheirSizes }
{}

/// So on data of its entry's sized type each value that a program gives has the shape that the sized type of its results says.
#[tactic(auto, using(crate::proofs::Given::programs_give_their_shapes))]
pub fn programs_give_their_shapes()
    ensures { ProgramsGiveTheirShapes }
{}

/// Where a sized program reports a size on data of its entry's sized type, that is at one of its `:>` or `unflatten`.
#[tactic(auto)]
pub fn sized_programs_report_no_other_sizes()
    ensures { SizedProgramsReportNoOtherSizes }
{}

/// Each definition begins with the data of those before it, entered right: what is found there of sizes is what they are worth.
#[tactic(auto)]
pub fn definitions_are_entered()
    ensures { DefinitionsAreEntered }
{}

/// At the place of a size in a sized type the shape of a value says what the size is worth there, and at that of a type variable
/// what it stands for.
#[tactic(auto, using(crate::proofs::Finding::found_is_right))]
pub fn found_is_right()
    ensures { FoundIsRight }
{}

/// Each size and each type variable that stands in the sized type of data has a place there.
#[tactic(auto, using(crate::proofs::Finding::standing_is_found))]
pub fn standing_is_found()
    ensures { StandingIsFound }
{}

/// Where the numbers of sizes and the shapes of type variables are right, data of a sized type has the shape that the meaning
/// tells of it.
#[tactic(auto, using(crate::proofs::Finding::told_is_right))]
pub fn told_is_right()
    ensures { ToldIsRight }
{}

/// A value of a sized type has the shape that the type says, where it is no function.
#[tactic(auto, using(crate::proofs::Entered::values_read))]
pub fn values_read()
    ensures { ValuesRead }
{}

/// Where each value that was entered has the shape of its node's sized type, and functions tell right, each size that the
/// meaning finds under names is what it is worth, and each type variable's shape what that stands for.
#[tactic(auto, using(crate::proofs::Entered::found_under_names_is_right))]
pub fn found_under_names_is_right()
    ensures { FoundUnderNamesIsRight }
{}

/// An array literal without elements has rows of its element's sized type there, where what stands in that is found.
#[tactic(auto, using(crate::proofs::Entered::literal_rows_are_right))]
pub fn literal_rows_are_right()
    ensures { LiteralRowsAreRight }
{}

/// Data for which `:>` does not report has the sizes of the type, where they are found.
#[tactic(auto, using(crate::proofs::Entered::coerced_has_its_sizes))]
pub fn coerced_has_its_sizes()
    ensures { CoercedHasItsSizes }
{}

/// Each operation on arrays does the same for elements of one shape, and for what updates an array, whether a misfit of sizes is
/// reported or goes wrong: so none is.
#[tactic(auto, using(crate::proofs::Misfits::no_operation_misfits))]
pub fn no_operation_misfits()
    ensures { NoOperationMisfits }
{}

/// Data of a sized type is whole and of the shape that is told of the type.
#[tactic(auto)]
pub fn data_is_of_its_shape()
    ensures { DataIsOfItsShape }
{}

/// Each primitive does the same for data of the shapes that it takes, where its function gives data of its shape, whether a misfit of
/// sizes is reported or goes wrong: so none is.
#[tactic(auto, using(crate::proofs::Primitive_misfits::no_primitive_misfits))]
pub fn no_primitive_misfits()
    ensures { NoPrimitiveMisfits }
{}

/// Where all else that does not fit goes wrong, a program reports sizes at its `:>` and `unflatten` alone.
#[tactic(auto, using(crate::proofs::Size_reports::sizes_are_reported_there))]
pub fn sizes_are_reported_there()
    ensures { SizesAreReportedThere }
{}

/// So a report of a size from elsewhere tells that something does not fit: the program may go wrong there.
#[tactic(auto, using(crate::proofs::Size_reports::other_sizes_misfit))]
pub fn other_sizes_misfit()
    ensures { OtherSizesMisfit }
{}

/// Where what does not fit is reported, a primitive other than `unflatten` reports no size by itself on data of the shapes that it
/// takes.
#[tactic(auto, using(crate::proofs::Plain_reports::primitives_report_no_sizes))]
pub fn primitives_report_no_sizes()
    ensures { PrimitivesReportNoSizes }
{}

/// Nor does an operation on arrays, of elements of one shape or of what updates an array.
#[tactic(auto, using(crate::proofs::Plain_reports::operations_report_no_sizes))]
pub fn operations_report_no_sizes()
    ensures { OperationsReportNoSizes }
{}
