// The laws of what the pass over sizes gives.
ghost use Rattle.sizes_meet_rules.specs.Claims.{SizingMeetsRules, ProgramSizingMeetsRules};

/// The sized types that the pass gives to the nodes of a term meet the rules of a sizing, and without its sizes that of the term
/// is its type: for terms of names, operations, functions of data, lets of data, local functions without type variables,
/// branches, loops and applications of names and of primitives to all of their arguments, which are data, or of a primitive one
/// function whose parameters have no arrays, and which gives data, or first a lambda, a name or an
/// application whose function takes and gives data, and of a name to fewer, or of a reduction to all but its array.
pub fn sizing_meets_rules()
    ensures { SizingMeetsRules }
{}

/// So do those that it gives to the nodes of a program, whose definitions are functions of such terms without type parameters, or such
/// terms that are numbers of type i64 or other data that has one type in all uses, without arrays or written with all
/// sizes; and without its sizes that of each definition is its type.
pub fn program_sizing_meets_rules()
    ensures { ProgramSizingMeetsRules }
{}
