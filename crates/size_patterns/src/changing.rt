// How the sizes of a pattern's type are changed.
ghost use Rattle.std.specs.Prelude.{◌≡◌, IfOk};
ghost use Rattle.sized_types.specs.Sizes.{At, all_replaced, replaced};
ghost use Rattle.fut_sizes.specs.Scopes.{as_slot, number_in};
ghost use Rattle.size_arena.specs.Trees.{dim_of, free_of, size_of, sizes_of};
ghost use Rattle.size_patterns.specs.Changes.{change_of, entry_frame};

use bumpalo::Bump;
use bumpalo::collections::into_bump_slice;
use fut_scalar::{BindId, NoMemory};
use size_arena::{Dim, Free, SizeTree, built, function, level};

/// How each size is changed.
#[derive(Clone, Copy)]
pub(crate) enum Change<'a> {
    /// Size names become slots, numbered by their places.
    Slots(&'a [BindId]),
    /// The function type around is opened for the parameter at a node, which may have a name: its caller chooses so many sizes.
    Enter {
        node: u32,
        chosen: u32,
        name: Option<u32>,
        stays_open: bool,
    },
}

/// The slot of a size name; another name stays as it is.
fn number_in(sizes: &[BindId], name: u32) -> Result<Free, NoMemory>
    ensures { IfOk result (λ free. free_of free ≡ number_in 0 sizes.now name) }
{
    let mut number: u32 = 0;
    for one in sizes {
        if one.0 == name {
            return Ok(Free::Slot(number));
        }
        match number.checked_add(1) {
            Some(next) => number = next,
            None => return Err(NoMemory),
        }
    }
    Ok(Free::Name(name))
}

/// A size by itself, where size names are slots.
fn as_slot(sizes: &[BindId], free: Free) -> Result<Free, NoMemory>
    ensures { IfOk result (λ made. free_of made ≡ as_slot sizes.now (free_of free)) }
{
    match free {
        Free::Name(name) => number_in(sizes, name),
        Free::Const(_) => Ok(free),
        Free::Own(_, _) => Ok(free),
        Free::Unknown(_, _) => Ok(free),
        Free::Slot(_) => Ok(free),
    }
}

/// What a position of the function type around stands for inside a lambda.
#[tactic(auto, using(crate::proofs::ChangeForms::entries))]
fn entered(node: u32, chosen: u32, name: Option<u32>, stays_open: bool, position: u32) -> Free
    ensures { At (free_of result) ≡ entry_frame stays_open name node chosen position }
{
    if position == chosen {
        return match name {
            Some(name) => Free::Name(name),
            None => Free::Own(node, chosen),
        };
    }
    if position < chosen {
        if stays_open {
            return Free::Slot(position);
        }
        return Free::Own(node, position);
    }
    Free::Own(node, position)
}

/// A size changed, around which so many function types stand.
#[tactic(auto, using(crate::proofs::ChangeForms::changed_dims))]
fn changed_dim(change: &Change<'_>, around: u32, dim: Dim) -> Result<Dim, NoMemory>
    ensures { IfOk result (λ made. dim_of made ≡ change_of change.now around (dim_of dim)) }
{
    match change {
        Change::Slots(sizes) => match dim {
            Dim::At(free) => {
                let made = as_slot(sizes, free)?;
                Ok(Dim::At(made))
            }
            Dim::Bound(_, _) => Ok(dim),
        },
        Change::Enter {
            node,
            chosen,
            name,
            stays_open,
        } => match dim {
            Dim::At(_) => Ok(dim),
            Dim::Bound(between, position) => {
                if between < around {
                    return Ok(dim);
                }
                if between == around {
                    let free = entered(*node, *chosen, *name, *stays_open, position);
                    return Ok(Dim::At(free));
                }
                Ok(Dim::Bound(between - 1, position))
            }
        },
    }
}

/// A sized type whose sizes are changed, inside so many function types.
#[cycle(changed)]
#[tactic(auto, using(size_arena::proofs::ScopeForms::changes))]
pub(crate) fn changed<'a>(
    tree: &'a SizeTree<'a>,
    change: &Change<'_>,
    around: u32,
    bump: &'a Bump,
) -> Result<&'a SizeTree<'a>, NoMemory>
    ensures { IfOk result (λ made. size_of made.now ≡ replaced (change_of change.now) around (size_of tree.now)) }
{
    match tree {
        SizeTree::Hole(_) => Ok(tree),
        SizeTree::Open { .. } => Ok(tree),
        SizeTree::Level { size, row, .. } => {
            let after = changed_dim(change, around, *size)?;
            let under = changed(row, change, around, bump)?;
            level(bump, after, under)
        }
        SizeTree::Built { head, parts, .. } => {
            let made = all_changed(parts, change, around, bump)?;
            built(bump, *head, made)
        }
        SizeTree::Fun {
            chosen,
            from,
            to,
            ..
        } => match around.checked_add(1) {
            Some(inside) => {
                let taken = changed(from, change, inside, bump)?;
                let given = changed(to, change, inside, bump)?;
                function(bump, *chosen, taken, given)
            }
            None => Err(NoMemory),
        },
    }
}

#[cycle(changed)]
#[tactic(auto, using(size_arena::proofs::ScopeForms::all_changes))]
fn all_changed<'a>(
    parts: &'a [SizeTree<'a>],
    change: &Change<'_>,
    around: u32,
    bump: &'a Bump,
) -> Result<&'a [SizeTree<'a>], NoMemory>
    ensures { IfOk result (λ made. sizes_of made.now ≡ all_replaced (change_of change.now) around (sizes_of parts.now)) }
{
    let mut made = Vec::new(bump);
    for part in parts {
        let after = changed(part, change, around, bump)?;
        made.push(*after)?;
    }
    Ok(into_bump_slice(made))
}
