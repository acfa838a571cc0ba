// The laws of programs under two numberings, each carried by a call.
ghost use Rattle.typing_laws.specs.NumberingClaims.{AmbiguousIsOne, FunctionPlaceIsOne, NoTypeIsOne, OneTypeIsOne, PrincipalIsOne, SettledIsOne, TypableIsOne, TypingIsOne};

/// The law that a program that has a typing, a principal one, or one to go on with under one numbering of names and records
/// has such a one under each; types of the last two without records are the same, and settled types of any two to go on with.
pub fn typings_hang_on_no_numbering()
    ensures typable { TypableIsOne }
    ensures principal { PrincipalIsOne }
    ensures typing { TypingIsOne }
    ensures settled { SettledIsOne }
    ensures one { OneTypeIsOne }
{}

/// The law that a program that lacks a typing to go on with under one numbering lacks it in the same way under each.
pub fn refusals_hang_on_no_numbering()
    ensures no_type { NoTypeIsOne }
    ensures function_place { FunctionPlaceIsOne }
    ensures ambiguous { AmbiguousIsOne }
{}
