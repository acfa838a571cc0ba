// What becomes of sizes where branches meet.
ghost use Rattle.std.specs.Prelude.{◌≡◌, IfOk};
ghost use Rattle.fut_sizes.specs.Agreeing.{all_kept, kept, kept_dim};
ghost use Rattle.size_arena.specs.Trees.{dim_of, size_of, sizes_of};

use crate::dims::{Dim, Free, same_dim};
use crate::levels::past;
use crate::trees::{SizeTree, built, level};
use bumpalo::Bump;
use bumpalo::collections::into_bump_slice;
use fut_scalar::NoMemory;

#[tactic(auto, using(crate::proofs::KeptForms::dims))]
fn kept_dim(node: u32, number: u32, left: Dim, right: Dim) -> Dim
    ensures { dim_of result ≡ kept_dim node number (dim_of left) (dim_of right) }
{
    if same_dim(left, right) {
        left
    } else {
        Dim::At(Free::Unknown(node, number))
    }
}

/// What a node keeps whose branches gave these: the sizes that both have. Every other is unknown, numbered by its level from
/// `first` on.
#[cycle(kept)]
#[tactic(auto, using(crate::proofs::KeptForms::keeps))]
pub fn kept<'a>(
    one: &'a SizeTree<'a>,
    other: &'a SizeTree<'a>,
    node: u32,
    first: u32,
    bump: &'a Bump,
) -> Result<&'a SizeTree<'a>, NoMemory>
    ensures { IfOk result (λ made. size_of made.now ≡ kept node first (size_of one.now) (size_of other.now)) }
{
    match one {
        SizeTree::Hole(_) => Ok(one),
        SizeTree::Open { .. } => Ok(one),
        SizeTree::Level { size, row, .. } => match other {
            SizeTree::Hole(_) => Ok(one),
            SizeTree::Open { .. } => Ok(one),
            SizeTree::Level {
                size: found,
                row: rest,
                ..
            } => match first.checked_add(1) {
                Some(next) => {
                    let under = kept(row, rest, node, next, bump)?;
                    level(bump, kept_dim(node, first, *size, *found), under)
                }
                None => Err(NoMemory),
            },
            SizeTree::Built { .. } => Ok(one),
            SizeTree::Fun { .. } => Ok(one),
        },
        SizeTree::Built { head, parts, .. } => match other {
            SizeTree::Hole(_) => Ok(one),
            SizeTree::Open { .. } => Ok(one),
            SizeTree::Level { .. } => Ok(one),
            SizeTree::Built { parts: others, .. } => {
                let made = all_kept(parts, others, node, first, bump)?;
                built(bump, *head, made)
            }
            SizeTree::Fun { .. } => Ok(one),
        },
        SizeTree::Fun { .. } => Ok(one),
    }
}

#[cycle(kept)]
#[tactic(auto, using(crate::proofs::KeptForms::all_keeps))]
fn all_kept<'a>(
    ones: &'a [SizeTree<'a>],
    others: &'a [SizeTree<'a>],
    node: u32,
    first: u32,
    bump: &'a Bump,
) -> Result<&'a [SizeTree<'a>], NoMemory>
    ensures { IfOk result (λ made. sizes_of made.now ≡ all_kept node first (sizes_of ones.now) (sizes_of others.now)) }
{
    // Branches have one type, so this is never met.
    if ones.len() != others.len() {
        return Err(NoMemory);
    }
    let mut made = Vec::new(bump);
    let mut number = first;
    for i in 0..ones.len() {
        let part = kept(&ones[i], &others[i], node, number, bump)?;
        made.push(*part)?;
        number = past(&ones[i], number)?;
    }
    Ok(into_bump_slice(made))
}
