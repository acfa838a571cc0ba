// What is known of the definitions.
ghost use Rattle.fut_meaning.specs.Knowns.{known_use};
ghost use Rattle.unfold_measure.specs.Answers.{Known_to};
ghost use Rattle.unfold_measure.specs.Held.{scope_of};

use crate::known::{Known, Scope, known_data};
use crate::primitives::known_primitive;
use crate::scope::find;
use crate::stop::Stop;
use bumpalo::Bump;
use fut_flat::Ref;

/// The arena, and what is known of the definitions that were visited.
#[derive(Clone, Copy)]
pub struct Tops<'a> {
    pub bump: &'a Bump,
    pub known: &'a Scope<'a>,
}

/// What is known of a use: of a local name, or else of a definition. What nothing binds is the name of a size, which is data.
pub fn known_use<'a>(
    tops: &Tops<'a>,
    scope: &'a Scope<'a>,
    reference: Ref,
) -> Result<Known<'a>, Stop>
    ensures { Known_to (known_use (scope_of tops.now.known.now) (scope_of scope.now) reference) result }
{
    match reference {
        Ref::Bound(number) => match find(scope, number) {
            Some(known) => Ok(known),
            None => match find(tops.known, number) {
                Some(known) => Ok(known),
                None => Ok(known_data()),
            },
        },
        Ref::Prim(primitive) => known_primitive(tops.bump, primitive),
        Ref::Scalar(_) => Err(Stop::Lost),
    }
}
