// Sizes that are still open are chosen again, or are unknown.
ghost use Rattle.std.specs.Prelude.{◌≡◌, ◌+◌, ◌-◌, IfOk, length, suc};
ghost use Rattle.sized_types.specs.Sizes.{all_replaced, replaced};
ghost use Rattle.fut_sizes.specs.Functions.{chosen_again, position_from};
ghost use Rattle.size_arena.specs.Trees.{dim_of, free_of, size_of, sizes_of};
ghost use Rattle.size_making.specs.Placing.{frees_of};
ghost use Rattle.size_settling.specs.Choosing.{choices_of, renewal_of};

use bumpalo::Bump;
use bumpalo::collections::into_bump_slice;
use fut_scalar::NoMemory;
use size_arena::{Dim, Free, SizeTree, built, function, level, same_free};
use size_slots::{Maker, maker_of};

/// The sizes that the function types around choose again.
#[derive(Clone, Copy)]
pub(crate) enum Choices<'a> {
    Nothing,
    /// Of the function type inside so many others, whose caller chooses so many sizes already: these slots, once the others have
    /// chosen.
    Behind {
        around: u32,
        chosen: u32,
        slots: &'a [Free],
        outer: &'a Choices<'a>,
    },
}

/// What becomes of slots.
#[derive(Clone, Copy)]
pub(crate) enum Renewal<'a> {
    /// They are unknown at the nodes that made them.
    Unknown(&'a [Maker]),
    /// They are chosen again, those of them that function types around choose.
    Chosen(&'a Choices<'a>),
}

pub(crate) fn plus(first: u32, second: u32) -> Result<u32, NoMemory>
    ensures { IfOk result (λ sum. sum ≡ first + second) }
{
    match first.checked_add(second) {
        Some(sum) => Ok(sum),
        None => Err(NoMemory),
    }
}

/// How many sizes a caller chooses, that chose so many before these.
#[tactic(auto, using(crate::proofs::ChoosingForms::counting))]
pub(crate) fn behind_all(slots: &[Free], before: u32) -> Result<u32, NoMemory>
    ensures { IfOk result (λ count. count ≡ length (frees_of slots.now) + before) }
{
    match u32::try_from(slots.len()) {
        Ok(count) => plus(count, before),
        Err(_) => Err(NoMemory),
    }
}

/// The position of a size among these, of which the first has this one.
#[tactic(auto, using(size_making::proofs::PlacingForms::positions))]
fn position_from(frees: &[Free], first: u32, free: Free) -> Result<Option<u32>, NoMemory>
    ensures { IfOk result (λ position. position ≡ position_from first (frees_of frees.now) (free_of free)) }
{
    let mut number = first;
    for one in frees {
        if same_free(*one, free) {
            return Ok(Some(number));
        }
        number = plus(number, 1)?;
    }
    Ok(None)
}

/// A size inside so many function types of the one that chooses these slots, behind what its caller chooses already.
#[tactic(auto, using(crate::proofs::ChoosingForms::again))]
fn chosen_again(chosen: u32, slots: &[Free], around: u32, dim: Dim) -> Result<Dim, NoMemory>
    ensures { IfOk result (λ made. dim_of made ≡ chosen_again chosen (frees_of slots.now) around (dim_of dim)) }
{
    match dim {
        Dim::At(free) => {
            let place = position_from(slots, 0, free)?;
            match place {
                Some(place) => {
                    let position = plus(chosen, place)?;
                    Ok(Dim::Bound(around, position))
                }
                None => Ok(dim),
            }
        }
        Dim::Bound(between, position) => {
            if between != around {
                return Ok(dim);
            }
            if position < chosen {
                return Ok(dim);
            }
            let behind = behind_all(slots, position)?;
            Ok(Dim::Bound(between, behind))
        }
    }
}

/// How many function types stand between a place and the one that stands inside so many.
fn between(place: u32, around: u32) -> u32
    ensures { result ≡ place - suc around }
{
    if place > around {
        place - around - 1
    } else {
        0
    }
}

/// A size inside so many function types, chosen again.
#[tactic(auto, using(crate::proofs::ChoosingForms::choices_made))]
fn chosen_dim(choices: &Choices<'_>, place: u32, dim: Dim) -> Result<Dim, NoMemory>
    ensures { IfOk result (λ made. dim_of made ≡ choices_of choices.now place (dim_of dim)) }
{
    match choices {
        Choices::Nothing => Ok(dim),
        Choices::Behind {
            around,
            chosen,
            slots,
            outer,
        } => {
            let before = chosen_dim(outer, place, dim)?;
            chosen_again(*chosen, slots, between(place, *around), before)
        }
    }
}

/// A size inside so many function types.
fn renewed_dim(renewal: &Renewal<'_>, place: u32, dim: Dim) -> Result<Dim, NoMemory>
    ensures { IfOk result (λ made. dim_of made ≡ renewal_of renewal.now place (dim_of dim)) }
{
    match renewal {
        Renewal::Chosen(choices) => chosen_dim(choices, place, dim),
        Renewal::Unknown(makers) => match dim {
            Dim::At(Free::Slot(number)) => {
                Ok(Dim::At(Free::Unknown(maker_of(makers, number), number)))
            }
            Dim::At(Free::Const(_)) => Ok(dim),
            Dim::At(Free::Name(_)) => Ok(dim),
            Dim::At(Free::Own(_, _)) => Ok(dim),
            Dim::At(Free::Unknown(_, _)) => Ok(dim),
            Dim::Bound(_, _) => Ok(dim),
        },
    }
}

/// A sized type inside so many function types, with its slots renewed.
#[cycle(renewed)]
#[tactic(auto, using(size_arena::proofs::ScopeForms::changes))]
pub(crate) fn renewed<'a>(
    tree: &'a SizeTree<'a>,
    renewal: &Renewal<'_>,
    place: u32,
    bump: &'a Bump,
) -> Result<&'a SizeTree<'a>, NoMemory>
    ensures { IfOk result (λ made. size_of made.now ≡ replaced (renewal_of renewal.now) place (size_of tree.now)) }
{
    match tree {
        SizeTree::Hole(_) => Ok(tree),
        SizeTree::Open { .. } => Ok(tree),
        SizeTree::Level { size, row, .. } => {
            let after = renewed_dim(renewal, place, *size)?;
            let under = renewed(row, renewal, place, bump)?;
            level(bump, after, under)
        }
        SizeTree::Built { head, parts, .. } => {
            let made = all_renewed(parts, renewal, place, bump)?;
            built(bump, *head, made)
        }
        SizeTree::Fun {
            chosen,
            from,
            to,
            ..
        } => {
            let inside = plus(place, 1)?;
            let taken = renewed(from, renewal, inside, bump)?;
            let given = renewed(to, renewal, inside, bump)?;
            function(bump, *chosen, taken, given)
        }
    }
}

#[cycle(renewed)]
#[tactic(auto, using(size_arena::proofs::ScopeForms::all_changes))]
fn all_renewed<'a>(
    parts: &'a [SizeTree<'a>],
    renewal: &Renewal<'_>,
    place: u32,
    bump: &'a Bump,
) -> Result<&'a [SizeTree<'a>], NoMemory>
    ensures { IfOk result (λ made. sizes_of made.now ≡ all_replaced (renewal_of renewal.now) place (sizes_of parts.now)) }
{
    let mut made = Vec::new(bump);
    for part in parts {
        let after = renewed(part, renewal, place, bump)?;
        made.push(*after)?;
    }
    Ok(into_bump_slice(made))
}
