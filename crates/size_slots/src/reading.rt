// Sized types are read: slots stand for what they took, and so do open variables.
ghost use Rattle.std.specs.Prelude.{◌≡◌, ℕ, IfOk};
ghost use Rattle.sized_types.specs.Sizes.{all_replaced, renaming, replaced};
ghost use Rattle.fut_sizes.specs.Matching.{Found as Finding, all_read, found_size, read};
ghost use Rattle.size_arena.specs.Trees.{dim_of, size_of, sizes_of};
ghost use Rattle.size_slots.specs.Held.{Fall, Holds};

use crate::choices::chosen_of;
use crate::meeting::read_free;
use crate::slots::Found;
use bumpalo::Bump;
use bumpalo::collections::into_bump_slice;
use fut_scalar::NoMemory;
use size_arena::{Dim, SizeTree, built, function, level};

/// The size of a level, read.
#[tactic(auto, using(crate::proofs::ReadLaws::dims_read))]
fn read_dim(table: &Found<'_>, dim: Dim) -> Dim
    requires { Fall table.now.slots }
    ensures { (σ : Finding) → Holds table.now σ → (j : ℕ) → dim_of result ≡ renaming (found_size σ) j (dim_of dim) }
{
    match dim {
        Dim::At(free) => Dim::At(read_free(table, free)),
        Dim::Bound(_, _) => dim,
    }
}

/// A sized type with its sizes read. Its open variables stay.
#[cycle(with_sizes)]
pub fn with_sizes<'a>(
    tree: &'a SizeTree<'a>,
    table: &Found<'_>,
    bump: &'a Bump,
) -> Result<&'a SizeTree<'a>, NoMemory>
    requires { Fall table.now.slots }
    ensures { (σ : Finding) → Holds table.now σ → (j : ℕ) → IfOk result (λ made. size_of made.now ≡ replaced (renaming (found_size σ)) j (size_of tree.now)) }
{
    match tree {
        SizeTree::Hole(_) => Ok(tree),
        SizeTree::Open { .. } => Ok(tree),
        SizeTree::Level { size, row, .. } => {
            let under = with_sizes(row, table, bump)?;
            level(bump, read_dim(table, *size), under)
        }
        SizeTree::Built { head, parts, .. } => {
            let made = all_with_sizes(parts, table, bump)?;
            built(bump, *head, made)
        }
        SizeTree::Fun {
            chosen,
            from,
            to,
            ..
        } => {
            let taken = with_sizes(from, table, bump)?;
            let given = with_sizes(to, table, bump)?;
            function(bump, *chosen, taken, given)
        }
    }
}

#[cycle(with_sizes)]
fn all_with_sizes<'a>(
    parts: &'a [SizeTree<'a>],
    table: &Found<'_>,
    bump: &'a Bump,
) -> Result<&'a [SizeTree<'a>], NoMemory>
    requires { Fall table.now.slots }
    ensures { (σ : Finding) → Holds table.now σ → (j : ℕ) → IfOk result (λ made. sizes_of made.now ≡ all_replaced (renaming (found_size σ)) j (sizes_of parts.now)) }
{
    let mut made = Vec::new(bump);
    for part in parts {
        let after = with_sizes(part, table, bump)?;
        made.push(*after)?;
    }
    Ok(into_bump_slice(made))
}

/// A sized type in which slots and open variables stand for what they took.
#[cycle(read)]
pub fn read<'a>(
    tree: &'a SizeTree<'a>,
    table: &Found<'a>,
    bump: &'a Bump,
) -> Result<&'a SizeTree<'a>, NoMemory>
    requires { Fall table.now.slots }
    ensures { (σ : Finding) → Holds table.now σ → IfOk result (λ made. size_of made.now ≡ read σ (size_of tree.now)) }
{
    match tree {
        SizeTree::Hole(_) => Ok(tree),
        SizeTree::Open { node, variable, .. } => {
            match chosen_of(table.chosen.as_slice(), *node, *variable) {
                Some(size) => with_sizes(size, table, bump),
                None => Ok(tree),
            }
        }
        SizeTree::Level { size, row, .. } => {
            let under = read(row, table, bump)?;
            level(bump, read_dim(table, *size), under)
        }
        SizeTree::Built { head, parts, .. } => {
            let made = all_read(parts, table, bump)?;
            built(bump, *head, made)
        }
        SizeTree::Fun {
            chosen,
            from,
            to,
            ..
        } => {
            let taken = read(from, table, bump)?;
            let given = read(to, table, bump)?;
            function(bump, *chosen, taken, given)
        }
    }
}

#[cycle(read)]
fn all_read<'a>(
    parts: &'a [SizeTree<'a>],
    table: &Found<'a>,
    bump: &'a Bump,
) -> Result<&'a [SizeTree<'a>], NoMemory>
    requires { Fall table.now.slots }
    ensures { (σ : Finding) → Holds table.now σ → IfOk result (λ made. sizes_of made.now ≡ all_read σ (sizes_of parts.now)) }
{
    let mut made = Vec::new(bump);
    for part in parts {
        let after = read(part, table, bump)?;
        made.push(*after)?;
    }
    Ok(into_bump_slice(made))
}
