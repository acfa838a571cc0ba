// What is known of a use.
ghost use Rattle.fut_flat.specs.declared.prim.Ref.TheVariants as ref;
ghost use Rattle.fut_scalar.specs.declared.place.Place.{Place as Spot};
ghost use Rattle.unfold.specs.Held.{known_of, scope_of};
ghost use Rattle.unfold_parts.specs.Answers.{Name_known, Used_to};
ghost use Rattle.unfold_parts.specs.States.{steps_of};
ghost use Rattle.unfold_parts.specs.Tables.{Kept, tops_of};

use crate::primitives::use_of_primitive;
use crate::refusal::Refusal;
use crate::scope::find;
use crate::stepped::made;
use crate::steps::Unfolding;
use crate::tops::Tops;
use fut_blocks::Act;
use fut_flat::Ref;
use fut_scalar::{BindId, Place};
use told_rows::{Sizes, size_used};
use unfold::{Known, Scope};

/// What is known of a use, at its place: of a local name or a definition, or a primitive. What a size is worth is a step.
pub fn used<'a>(
    work: &mut Unfolding<'a>,
    sizes: Option<&'a Sizes<'a>>,
    tops: &Tops<'a>,
    scope: Scope<'a>,
    reference: Ref,
    place: Place,
) -> Result<Known<'a>, Refusal>
    requires kept { Kept tops.now }
    ensures { Used_to sizes.entry (tops_of tops.now) (scope_of scope.entry) reference place work.old.next (steps_of work.old) (steps_of work.new) work.new.next result }
{
    match reference {
        Ref::Bound(number) => name_used(work, sizes, tops, scope, number),
        Ref::Prim(primitive) => Ok(use_of_primitive(primitive, place)),
        Ref::Scalar(_) => Err(Refusal::Lost),
    }
}

fn name_used<'a>(
    work: &mut Unfolding<'a>,
    sizes: Option<&'a Sizes<'a>>,
    tops: &Tops<'a>,
    scope: Scope<'a>,
    number: BindId,
) -> Result<Known<'a>, Refusal>
    requires kept { Kept tops.now }
    ensures { (at : Spot) → Used_to sizes.entry (tops_of tops.now) (scope_of scope.entry) (ref.Bound number) at work.old.next (steps_of work.old) (steps_of work.new) work.new.next result }
{
    match size_used(sizes, scope, number.0, work.bump) {
        Ok(Some(worth)) => made(work, Act::Size(worth)),
        Ok(None) => name_known(tops, scope, number),
        Err(_) => Err(Refusal::Memory),
    }
}

// What is known of a local name, or of a definition.
#[tactic(auto, using(crate::proofs::Using::known_names))]
fn name_known<'a>(tops: &Tops<'a>, scope: Scope<'a>, number: BindId) -> Result<Known<'a>, Refusal>
    requires kept { Kept tops.now }
    ensures { Name_known (tops_of tops.now) (scope_of scope.entry) number.0 result }
{
    match find(scope, number) {
        Some(known) => Ok(*known),
        None => match tops.of(number) {
            Some(known) => Ok(known),
            None => Err(Refusal::Lost),
        },
    }
}
