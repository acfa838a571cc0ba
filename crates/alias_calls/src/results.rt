// What a call gives.
ghost use Rattle.std.specs.Prelude.{◌≡◌, IfOk};
ghost use Rattle.fut_aliases.specs.Calls.{call_value};
ghost use Rattle.alias_types.specs.Kinds.{kinds_of};
ghost use Rattle.alias_values.specs.Trees.{stars_of, type_of, value_of};

use crate::counting::unstarred;
use alias_types::with_stars;
use alias_values::{StarTree, TypeTree, ValueTree, with_alias};
use bumpalo::Bump;
use fut_aliases::Alias;
use fut_scalar::NoMemory;
use fut_types::Kind;

/// The value that a call at a node gives: its components without a star share with this set, and where there are two or more of
/// them with each other.
#[tactic(auto, using(crate::proofs::ResultForms::result_forms))]
pub fn call_value<'a>(
    bump: &'a Bump,
    kinds: &[Kind],
    node: u32,
    set: &'a [Alias],
    stars: &'a StarTree<'a>,
    ty: &TypeTree<'_>,
) -> Result<&'a ValueTree<'a>, NoMemory>
    ensures { IfOk result (λ made. value_of made.now ≡ call_value (kinds_of kinds.now) node set.now (stars_of stars.now) (type_of ty.now)) }
{
    let alone = with_stars(bump, kinds, set, stars, ty)?;
    let count = unstarred(stars, alone)?;
    if count < 2 {
        return Ok(alone);
    }
    let all = with_alias(bump, Alias::Own(node), set)?;
    let made = with_stars(bump, kinds, all, stars, ty)?;
    Ok(made)
}
