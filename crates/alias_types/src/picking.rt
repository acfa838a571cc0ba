// The components with a star, and those without one.
ghost use Rattle.std.specs.Prelude.{◌≡◌, IfOk, [], true};
ghost use Rattle.fut_aliases.specs.Values.{all_starred, all_starring, components, left, starring, taken};
ghost use Rattle.alias_types.specs.Picked.{is_same, those_onto};
ghost use Rattle.alias_values.specs.Trees.{row_of, stars_of, value_of, values_of};

use alias_values::{StarTree, ValueTree, add_aliases};
use bumpalo::Bump;
use bumpalo::collections::into_bump_slice;
use fut_aliases::Alias;
use fut_scalar::NoMemory;

fn no_alias<'a>(bump: &'a Bump) -> &'a [Alias]
    ensures { result.now ≡ [] }
{
    into_bump_slice(Vec::new(bump))
}

/// What a parameter with these stars consumes of an argument.
#[tactic(auto, using(crate::proofs::PickForms::picked_all))]
pub fn taken<'a>(
    bump: &'a Bump,
    stars: &StarTree<'_>,
    value: &ValueTree<'_>,
) -> Result<&'a [Alias], NoMemory>
    ensures { IfOk result (λ all. all.now ≡ taken (stars_of stars.now) (value_of value.now)) }
{
    let none = no_alias(bump);
    let all = add_picked(bump, true, stars, value, none)?;
    Ok(all)
}

/// What such a parameter leaves of an argument.
#[tactic(auto, using(crate::proofs::PickForms::picked_all))]
pub fn left<'a>(
    bump: &'a Bump,
    stars: &StarTree<'_>,
    value: &ValueTree<'_>,
) -> Result<&'a [Alias], NoMemory>
    ensures { IfOk result (λ all. all.now ≡ left (stars_of stars.now) (value_of value.now)) }
{
    let none = no_alias(bump);
    let all = add_picked(bump, false, stars, value, none)?;
    Ok(all)
}

fn is_same(one: bool, other: bool) -> bool
    ensures { result ≡ is_same one other }
{
    if one { other } else { !other }
}

// All components before a set, or none of them, as they have a star or not.
#[tactic(auto, using(crate::proofs::PickForms::whole_forms))]
fn add_whole<'a>(
    bump: &'a Bump,
    starred: bool,
    has: bool,
    value: &ValueTree<'_>,
    set: &'a [Alias],
) -> Result<&'a [Alias], NoMemory>
    ensures { IfOk result (λ all. all.now ≡ those_onto starred (all_starred has (components (value_of value.now))) set.now) }
{
    if !is_same(starred, has) {
        return Ok(set);
    }
    let all = add_aliases(bump, value, set)?;
    Ok(all)
}

// The components with a star, or those without one, before a set.
#[cycle(add_picked)]
#[tactic(auto, using(crate::proofs::PickForms::pick_forms))]
fn add_picked<'a>(
    bump: &'a Bump,
    starred: bool,
    stars: &StarTree<'_>,
    value: &ValueTree<'_>,
    set: &'a [Alias],
) -> Result<&'a [Alias], NoMemory>
    ensures { IfOk result (λ all. all.now ≡ those_onto starred (starring (stars_of stars.now) (value_of value.now)) set.now) }
{
    match stars {
        StarTree::Leaf(has) | StarTree::Arrow(has, _, _) => {
            let all = add_whole(bump, starred, *has, value, set)?;
            Ok(all)
        }
        StarTree::Row(row) => match value {
            ValueTree::Parts(_, values) => {
                let all = add_all_picked(bump, starred, row, values, set)?;
                Ok(all)
            }
            ValueTree::Scalar | ValueTree::Array(_) | ValueTree::Function(_, _) => {
                let all = add_whole(bump, starred, false, value, set)?;
                Ok(all)
            }
        },
    }
}

#[cycle(add_picked)]
#[tactic(auto, using(crate::proofs::PickForms::all_pick_forms))]
fn add_all_picked<'a>(
    bump: &'a Bump,
    starred: bool,
    row: &[StarTree<'_>],
    values: &[ValueTree<'_>],
    set: &'a [Alias],
) -> Result<&'a [Alias], NoMemory>
    ensures { IfOk result (λ all. all.now ≡ those_onto starred (all_starring (row_of row.now) (values_of values.now)) set.now) }
{
    let mut all = set;
    let mut i = row.len().min(values.len());
    'parts: while i > 0 {
        i -= 1;
        all = add_picked(bump, starred, &row[i], &values[i], all)?;
    }
    Ok(all)
}
