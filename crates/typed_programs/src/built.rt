// Whether a program has only forms that are built.
//
// It stands behind a check of the tokens, which refuses each text of a form that is not built yet, and goes once all are.
ghost use Rattle.std.specs.Prelude.{◌≡◌, true, false};
ghost use Rattle.typed_programs.specs.Built.{Is_built};

use crate::definitions::{are_built, numbers_rise};
use fut_flat::Flat;

/// Whether a program has only forms that are built, and numbers of its definitions that rise. The cost is linear.
pub fn is_built(flat: &Flat<'_>) -> bool
    ensures built { result ≡ true → Is_built flat.now }
    ensures unbuilt { result ≡ false → Is_built flat.now → ⊥ }
{
    are_built(flat.definitions) && numbers_rise(flat.definitions)
}
