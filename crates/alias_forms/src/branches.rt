// Both branches of an `if`.
ghost use Rattle.std.specs.Prelude.{◌≡◌, Ok, length, take};
ghost use Rattle.fut_aliases.specs.Calls.{Held as DefinedHeld};
ghost use Rattle.fut_aliases.specs.Steps.{Losses as HeldLosses, Step, behind, either_of};
ghost use Rattle.fut_aliases.specs.Values.{unite};
ghost use Rattle.alias_applications.specs.Shown.{shown_value};
ghost use Rattle.uniqueness.specs.Answers.{Stepped};
ghost use Rattle.alias_forms.specs.Seen.{held_found};

use crate::seen::Found;
use alias_joins::unite;
use alias_losses::Losses;
use alias_values::ValueTree;
use bumpalo::Bump;
use fut_aliases::Loss;
use uniqueness::{Stop, end_branch, join_branches};

/// Behind the second branch: all that either consumed is consumed, and the value may share memory with what either's does. The
/// first consumed these.
#[tactic(auto, using(crate::proofs::Binding::nothing))]
pub fn join<'a>(
    bump: &'a Bump,
    losses: &mut Losses,
    before: usize,
    consumed: &[Loss],
    one: &Found<'a>,
    other: &Found<'a>,
) -> Result<&'a ValueTree<'a>, Stop>
    ensures { (m n : Step DefinedHeld) (ls mid end : HeldLosses) → before ≡ length ls → mid ≡ take before end → consumed.now ≡ behind before end → Stepped held_found m ls end (Ok one.now) → Stepped held_found n mid losses.old (Ok other.now) → Stepped shown_value (either_of (λ a b. unite a.value b.value) m n) ls losses.new result }
{
    let Ok(also_consumed) = end_branch(bump, losses, before) else {
        return Err(Stop::Memory);
    };
    let Ok(()) = join_branches(losses, consumed, also_consumed) else {
        return Err(Stop::Memory);
    };
    match unite(bump, one.held.value, other.held.value) {
        Ok(value) => Ok(value),
        Err(_) => Err(Stop::Memory),
    }
}
