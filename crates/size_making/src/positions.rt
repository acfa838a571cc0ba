// Sizes are bound in the frame of a function type.
ghost use Rattle.std.specs.Prelude.{◌≡◌, ◌+◌, IfOk};
ghost use Rattle.sized_types.specs.Sizes.{all_replaced, binding, bound, replaced};
ghost use Rattle.fut_sizes.specs.Functions.{position_from, value_position};
ghost use Rattle.fut_sizes.specs.WrittenSizes.{argument_place};
ghost use Rattle.size_arena.specs.Trees.{dim_of, free_of, size_of, sizes_of};
ghost use Rattle.size_making.specs.Placing.{arrow_position, frees_of, position_in};

use bumpalo::Bump;
use bumpalo::collections::into_bump_slice;
use fut_scalar::{BindId, NoMemory};
use size_arena::{Dim, Free, SizeTree, built, function, level, same_free};

/// Which sizes have a position in the frame of a function type.
#[derive(Clone, Copy)]
pub enum Positions<'a> {
    /// The name of the parameter, if it has one: the argument's value, which stands behind the sizes that the caller chooses.
    Argument {
        chosen: u32,
        name: Option<BindId>,
    },
    /// Of a parameter at a node, whose value may have a name: the sizes that it chooses, its value, and the sizes that are met.
    Arrow {
        chosen: &'a [Free],
        node: u32,
        name: Option<u32>,
        met: &'a [Free],
    },
}

pub(crate) fn next_of(number: u32) -> Result<u32, NoMemory>
    ensures { IfOk result (λ next. next ≡ number + 1) }
{
    match number.checked_add(1) {
        Some(next) => Ok(next),
        None => Err(NoMemory),
    }
}

/// The position of a size among these, of which the first has this one.
#[tactic(auto, using(crate::proofs::PlacingForms::positions))]
fn position_from(frees: &[Free], first: u32, free: Free) -> Result<Option<u32>, NoMemory>
    ensures { IfOk result (λ position. position ≡ position_from first (frees_of frees.now) (free_of free)) }
{
    let mut number = first;
    for one in frees {
        if same_free(*one, free) {
            return Ok(Some(number));
        }
        number = next_of(number)?;
    }
    Ok(None)
}

/// The position of a parameter's value, behind so many: where it has no name, it is a size of its node's own.
fn value_position(count: u32, node: u32, name: Option<u32>, free: Free) -> Option<u32>
    ensures { result ≡ value_position count node name (free_of free) }
{
    match free {
        Free::Name(other) => match name {
            Some(bind) => { if bind == other { Some(count) } else { None } }
            None => None,
        },
        Free::Own(other, _) => match name {
            Some(_) => None,
            None => { if other == node { Some(count) } else { None } }
        },
        Free::Const(_) => None,
        Free::Unknown(_, _) => None,
        Free::Slot(_) => None,
    }
}

fn argument_position(chosen: u32, name: Option<BindId>, free: Free) -> Option<u32>
    ensures { result ≡ argument_place chosen name (free_of free) }
{
    match name {
        Some(bind) => match free {
            Free::Name(other) => { if bind.0 == other { Some(chosen) } else { None } }
            Free::Const(_) => None,
            Free::Own(_, _) => None,
            Free::Unknown(_, _) => None,
            Free::Slot(_) => None,
        },
        None => None,
    }
}

#[tactic(auto, using(crate::proofs::PlacingForms::arrows))]
fn arrow_position(
    chosen: &[Free],
    node: u32,
    name: Option<u32>,
    met: &[Free],
    free: Free,
) -> Result<Option<u32>, NoMemory>
    ensures { IfOk result (λ position. position ≡ arrow_position (frees_of chosen.now) node name (frees_of met.now) (free_of free)) }
{
    let among = position_from(chosen, 0, free)?;
    if let Some(position) = among {
        return Ok(Some(position));
    }
    let count = match u32::try_from(chosen.len()) {
        Ok(count) => count,
        Err(_) => return Err(NoMemory),
    };
    if let Some(position) = value_position(count, node, name, free) {
        return Ok(Some(position));
    }
    let first = next_of(count)?;
    position_from(met, first, free)
}

fn position_of(positions: &Positions<'_>, free: Free) -> Result<Option<u32>, NoMemory>
    ensures { IfOk result (λ position. position ≡ position_in positions.now (free_of free)) }
{
    match positions {
        Positions::Argument { chosen, name } => Ok(argument_position(*chosen, *name, free)),
        Positions::Arrow {
            chosen,
            node,
            name,
            met,
        } => arrow_position(chosen, *node, *name, met, free),
    }
}

/// A size inside so many function types of the frame in which sizes are bound.
#[tactic(auto, using(crate::proofs::PlacingForms::dims))]
fn bound_dim(positions: &Positions<'_>, around: u32, dim: Dim) -> Result<Dim, NoMemory>
    ensures { IfOk result (λ made. dim_of made ≡ binding (position_in positions.now) around (dim_of dim)) }
{
    match dim {
        Dim::At(free) => {
            let position = position_of(positions, free)?;
            match position {
                Some(position) => Ok(Dim::Bound(around, position)),
                None => Ok(dim),
            }
        }
        Dim::Bound(_, _) => Ok(dim),
    }
}

#[cycle(binding)]
#[tactic(auto, using(size_arena::proofs::ScopeForms::changes))]
fn bound_in<'a>(
    tree: &'a SizeTree<'a>,
    positions: &Positions<'_>,
    around: u32,
    bump: &'a Bump,
) -> Result<&'a SizeTree<'a>, NoMemory>
    ensures { IfOk result (λ made. size_of made.now ≡ replaced (binding (position_in positions.now)) around (size_of tree.now)) }
{
    match tree {
        SizeTree::Hole(_) => Ok(tree),
        SizeTree::Open { .. } => Ok(tree),
        SizeTree::Level { size, row, .. } => {
            let after = bound_dim(positions, around, *size)?;
            let under = bound_in(row, positions, around, bump)?;
            level(bump, after, under)
        }
        SizeTree::Built { head, parts, .. } => {
            let made = all_bound_in(parts, positions, around, bump)?;
            built(bump, *head, made)
        }
        SizeTree::Fun {
            chosen,
            from,
            to,
            ..
        } => {
            let inside = next_of(around)?;
            let taken = bound_in(from, positions, inside, bump)?;
            let given = bound_in(to, positions, inside, bump)?;
            function(bump, *chosen, taken, given)
        }
    }
}

#[cycle(binding)]
#[tactic(auto, using(size_arena::proofs::ScopeForms::all_changes))]
fn all_bound_in<'a>(
    parts: &'a [SizeTree<'a>],
    positions: &Positions<'_>,
    around: u32,
    bump: &'a Bump,
) -> Result<&'a [SizeTree<'a>], NoMemory>
    ensures { IfOk result (λ made. sizes_of made.now ≡ all_replaced (binding (position_in positions.now)) around (sizes_of parts.now)) }
{
    let mut made = Vec::new(bump);
    for part in parts {
        let after = bound_in(part, positions, around, bump)?;
        made.push(*after)?;
    }
    Ok(into_bump_slice(made))
}

/// What is to be the parameter or the result of a function type, with the sizes bound that have a position in its frame.
pub fn bound<'a>(
    tree: &'a SizeTree<'a>,
    positions: &Positions<'_>,
    bump: &'a Bump,
) -> Result<&'a SizeTree<'a>, NoMemory>
    ensures { IfOk result (λ made. size_of made.now ≡ bound (position_in positions.now) (size_of tree.now)) }
{
    bound_in(tree, positions, 0, bump)
}
