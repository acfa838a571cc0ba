// The law of variables that a typing leaves.
ghost use Rattle.unique_programs.specs.Variables.{Variables_may_be_arrays};

/// A type variable that stands in a typing of a program is of a kind that has arrays, so the checker takes each for one that
/// may be an array.
pub fn variables_may_be_arrays()
    ensures { Variables_may_be_arrays }
{}
