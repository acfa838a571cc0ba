// The laws of what elaboration binds, each carried by a call.
ghost use Rattle.elab_laws.specs.OnceClaims.{EachIsBoundOnce, ElaboratedIsExact, ElaboratedLocalIsExact, LocalParametersAreAlone, ParametersAreAlone, ParametersDiffer};

/// The law that a program which elaboration makes binds each number once: what its definitions bind, taken together, are the
/// numbers below the count of its names, in some order.
pub fn each_number_is_bound_once()
    ensures { EachIsBoundOnce }
{}

/// The law that the type parameters of such a program differ, those of local definitions too; so no other definition and no
/// local one has a type parameter of a definition, and nothing else in the program has one of a local function.
pub fn type_parameters_are_apart()
    ensures differ { ParametersDiffer }
    ensures alone { ParametersAreAlone }
    ensures within { LocalParametersAreAlone }
{}

/// The law that generalisation is exact for the functions of such a program: the uses of a definition, and those of a local
/// function, are exactly the instances of its principal type, with types chosen for its parameters.
pub fn elaborated_generalisation_is_exact()
    ensures definition { ElaboratedIsExact }
    ensures local { ElaboratedLocalIsExact }
{}
