// What typing says of a definition that has been put into a graph whole, and of its uses.
//
// Where a definition ends, its typing has been asked for, however the type parameters that it writes are read. Then it is
// generalised where none of their types is fixed by what stands around it, and it is not where one is; and where its type has
// been copied, its uses are the instances of the copy (`specs/Uses.antt`).
ghost use Rattle.type_schemes.specs.Uses.{Law};

/// What is told of a definition where it ends: its uses, and whether it is generalised.
pub fn definitions_are_generalised()
    ensures { Law }
{}
