// Operations.
ghost use Rattle.std.specs.Prelude.{◌≡◌, true, false};
ghost use Rattle.typed_programs.specs.Trees.{Act_built};

use crate::positions::is_position;
use fut_flat::Act;

/// Whether an operation on so many parts has those that its grammar gives it: an index, a place and a value, or the name of a
/// field.
#[tactic(auto, unfolding(crate::specs::Trees::Act_built))]
pub(crate) fn act_is_built(act: Act<'_>, parts: usize) -> bool
    ensures built { result ≡ true → Act_built act.entry parts }
    ensures unbuilt { result ≡ false → Act_built act.entry parts → ⊥ }
{
    match act {
        Act::Index(at) => at.len() > 0,
        Act::Update => parts > 2,
        Act::Replace(name) => !is_position(name),
        _ => true,
    }
}
