// The laws of definitions with written type parameters, each carried by a call.
ghost use Rattle.typing_laws.specs.Claims.{LocalUsesAreExact, LocalWrittenIsExact, UsesAreExact, WrittenIsExact};

/// The law that generalisation is exact for functions with written type parameters: the uses of a definition, and those of a
/// local function, are exactly the instances of its principal type, with types chosen for its parameters.
pub fn written_generalisation_is_exact()
    ensures definition { WrittenIsExact }
    ensures local { LocalWrittenIsExact }
{}

/// The law that the uses of a function, which is a definition or a `let` in one, whatever parameters it has, are exactly the
/// instances of the principal type of another name for it.
pub fn uses_are_exact()
    ensures definition { UsesAreExact }
    ensures local { LocalUsesAreExact }
{}
