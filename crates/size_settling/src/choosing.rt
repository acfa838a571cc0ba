// What an application gives, with what is still open in it chosen again or unknown.
ghost use Rattle.std.specs.Prelude.{◌≡◌, IfOk};
ghost use Rattle.sized_types.specs.Sizes.{renamed, replaced};
ghost use Rattle.fut_sizes.specs.Functions.{chosen_in, closed, is_slot, quantified, sizes_in, unknown_slot};
ghost use Rattle.size_arena.specs.Trees.{size_of};
ghost use Rattle.size_making.specs.Placing.{frees_of};
ghost use Rattle.size_settling.specs.Choosing.{choices_of};
ghost use Rattle.size_slots.specs.Held.{maker_of};

use crate::renewing::{Choices, Renewal, behind_all, plus, renewed};
use bumpalo::Bump;
use fut_scalar::NoMemory;
use size_arena::{Free, SizeTree, function};
use size_making::{Sought, sizes_in};
use size_slots::Maker;
use std::alloc::Global;

/// A sized type with its slots unknown at the nodes that made them.
fn unknown_slots<'a>(
    makers: &[Maker],
    tree: &'a SizeTree<'a>,
    bump: &'a Bump,
) -> Result<&'a SizeTree<'a>, NoMemory>
    ensures { IfOk result (λ made. size_of made.now ≡ renamed (unknown_slot (maker_of makers.now)) (size_of tree.now)) }
{
    renewed(tree, &Renewal::Unknown(makers), 0, bump)
}

/// A sized type that is no function type, inside so many.
#[tactic(auto, using(crate::proofs::ChoosingForms::ends))]
fn chosen_end<'a>(
    makers: &[Maker],
    choices: &Choices<'_>,
    around: u32,
    tree: &'a SizeTree<'a>,
    bump: &'a Bump,
) -> Result<&'a SizeTree<'a>, NoMemory>
    ensures { IfOk result (λ made. size_of made.now ≡ renamed (unknown_slot (maker_of makers.now)) (replaced (choices_of choices.now) around (size_of tree.now))) }
{
    match choices {
        Choices::Nothing => unknown_slots(makers, tree, bump),
        Choices::Behind { .. } => {
            let chosen = renewed(tree, &Renewal::Chosen(choices), around, bump)?;
            unknown_slots(makers, chosen, bump)
        }
    }
}

/// The slots that stand in what a function takes, once the function types around have chosen.
#[tactic(auto, using(crate::proofs::ChoosingForms::opens))]
fn open_slots<'a>(
    choices: &Choices<'_>,
    inside: u32,
    from: &'a SizeTree<'a>,
    bump: &'a Bump,
    alloc: Global,
) -> Result<&'a [Free], NoMemory>
    ensures { IfOk result (λ slots. frees_of slots.now ≡ sizes_in is_slot (replaced (choices_of choices.now) inside (size_of from.now))) }
{
    let taken = renewed(from, &Renewal::Chosen(choices), inside, bump)?;
    let slots = sizes_in(taken, &Sought::Slots, alloc)?;
    match bump.try_alloc_slice_copy(slots.as_slice()) {
        Ok(kept) => Ok(kept),
        Err(_) => Err(NoMemory),
    }
}

/// A sized type inside so many function types.
fn chosen_in<'a>(
    tree: &'a SizeTree<'a>,
    makers: &[Maker],
    choices: &Choices<'_>,
    around: u32,
    bump: &'a Bump,
    alloc: Global,
) -> Result<&'a SizeTree<'a>, NoMemory>
    ensures { IfOk result (λ made. size_of made.now ≡ chosen_in (maker_of makers.now) (choices_of choices.now) around (size_of tree.now)) }
{
    match tree {
        SizeTree::Fun {
            chosen,
            from,
            to,
            ..
        } => {
            let inside = plus(around, 1)?;
            let slots = open_slots(choices, inside, from, bump, alloc)?;
            let behind = Choices::Behind {
                around,
                chosen: *chosen,
                slots,
                outer: &*choices,
            };
            let count = behind_all(slots, *chosen)?;
            let taken = renewed(from, &Renewal::Chosen(&behind), inside, bump)?;
            let given = chosen_in(to, makers, &behind, inside, bump, alloc)?;
            function(bump, count, taken, given)
        }
        SizeTree::Hole(_) => chosen_end(makers, choices, around, tree, bump),
        SizeTree::Open { .. } => chosen_end(makers, choices, around, tree, bump),
        SizeTree::Level { .. } => chosen_end(makers, choices, around, tree, bump),
        SizeTree::Built { .. } => chosen_end(makers, choices, around, tree, bump),
    }
}

/// What an application gives: a slot that stands in what a function takes is chosen by that function's caller, and any other is
/// unknown at the node that made it.
#[tactic(auto, using(crate::proofs::ChoosingForms::none_chosen, crate::proofs::OpenLaws::settled))]
pub fn quantified<'a>(
    makers: &[Maker],
    tree: &'a SizeTree<'a>,
    bump: &'a Bump,
    alloc: Global,
) -> Result<&'a SizeTree<'a>, NoMemory>
    ensures { IfOk result (λ made. size_of made.now ≡ quantified (maker_of makers.now) (size_of tree.now)) }
{
    let slots = sizes_in(tree, &Sought::Slots, alloc)?;
    if slots.len() == 0 {
        return Ok(tree);
    }
    chosen_in(tree, makers, &Choices::Nothing, 0, bump, alloc)
}

/// The same where the function goes on, for after its last arrow nothing is chosen again.
#[tactic(auto, using(crate::proofs::ChoosingForms::closes, crate::proofs::OpenLaws::settled))]
pub fn closed<'a>(
    goes_on: bool,
    makers: &[Maker],
    tree: &'a SizeTree<'a>,
    bump: &'a Bump,
    alloc: Global,
) -> Result<&'a SizeTree<'a>, NoMemory>
    ensures { IfOk result (λ made. size_of made.now ≡ closed goes_on (maker_of makers.now) (size_of tree.now)) }
{
    if goes_on {
        return quantified(makers, tree, bump, alloc);
    }
    let slots = sizes_in(tree, &Sought::Slots, alloc)?;
    if slots.len() == 0 {
        return Ok(tree);
    }
    unknown_slots(makers, tree, bump)
}
