// Definitions in a row.
ghost use Rattle.std.specs.Prelude.{◌≡◌, true, false};
ghost use Rattle.std.specs.List.{All};
ghost use Rattle.typed_programs.specs.Trees.{Definition_built};
ghost use Rattle.typed_programs.specs.Built.{Numbers_rise};

use crate::built_terms::exp_is_built;
use fut_flat::Definition;

/// Whether all definitions have only forms that are built.
pub(crate) fn are_built(definitions: &[Definition<'_>]) -> bool
    ensures built { result ≡ true → All Definition_built definitions.now }
    ensures unbuilt { result ≡ false → All Definition_built definitions.now → ⊥ }
{
    for definition in definitions {
        if !definition_is_built(definition) {
            return false;
        }
    }
    true
}

#[tactic(auto, unfolding(crate::specs::Trees::Definition_built))]
fn definition_is_built(definition: &Definition<'_>) -> bool
    ensures built { result ≡ true → Definition_built definition.now }
    ensures unbuilt { result ≡ false → Definition_built definition.now → ⊥ }
{
    exp_is_built(definition.value)
}

/// Whether the numbers of definitions rise, as elaboration gives them.
pub(crate) fn numbers_rise(definitions: &[Definition<'_>]) -> bool
    ensures built { result ≡ true → Numbers_rise definitions.now }
    ensures unbuilt { result ≡ false → Numbers_rise definitions.now → ⊥ }
{
    for at in 1..definitions.len() {
        if definitions[at].bind.0 <= definitions[at - 1].bind.0 {
            return false;
        }
    }
    true
}
