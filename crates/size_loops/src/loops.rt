// The levels that a loop drops.
ghost use Rattle.std.specs.Prelude.{◌≡◌, ◌+◌, ◌++◌, ◌||◌, cond, [], ◌∷◌, IfOk};
ghost use Rattle.fut_sizes.specs.Agreeing.{is_among};
ghost use Rattle.fut_sizes.specs.Sizing.{all_differing, all_lacking, differing, lacking};
ghost use Rattle.fut_types.specs.Types.{Sub};
ghost use Rattle.fut_typing.specs.Names.{Names};
ghost use Rattle.sized_types.specs.Sizes.{At, Unknown, is_dim};
ghost use Rattle.size_arena.specs.Trees.{dim_of, size_of, sizes_of};

use bumpalo::Bump;
use bumpalo::collections::into_bump_slice;
use fut_scalar::{List, NoMemory};
use size_arena::{Dim, Free, SizeTree, built, level, past, same_dim};
use std::alloc::Global;

#[tactic(auto, using(size_arena::proofs::ScopeForms::among))]
fn is_among(levels: &[u32], number: u32) -> bool
    ensures { result ≡ is_among levels.now number }
{
    for one in levels {
        if number == *one {
            return true;
        }
    }
    false
}

fn next_of(number: u32) -> Result<u32, NoMemory>
    ensures { IfOk result (λ next. next ≡ number + 1) }
{
    match number.checked_add(1) {
        Some(next) => Ok(next),
        None => Err(NoMemory),
    }
}

// ---- what a turn begins with

#[tactic(auto, using(crate::proofs::LackForms::dims_lack))]
fn lacking_dim(node: u32, dropped: &[u32], number: u32, dim: Dim) -> Dim
    ensures { dim_of result ≡ cond (is_among dropped.now number) (At (Unknown node number)) (dim_of dim) }
{
    if is_among(dropped, number) {
        Dim::At(Free::Unknown(node, number))
    } else {
        dim
    }
}

/// A sized type whose first level has this number, with the dropped levels unknown.
#[cycle(lacking)]
fn lacking_from<'a>(
    tree: &'a SizeTree<'a>,
    node: u32,
    dropped: &[u32],
    first: u32,
    bump: &'a Bump,
) -> Result<&'a SizeTree<'a>, NoMemory>
    ensures { (N : Names) (types : Sub) → IfOk result (λ made. size_of made.now ≡ lacking N types node dropped.now first (size_of tree.now)) }
{
    match tree {
        SizeTree::Hole(_) => Ok(tree),
        SizeTree::Open { .. } => Ok(tree),
        SizeTree::Level { size, row, .. } => {
            let next = next_of(first)?;
            let under = lacking_from(row, node, dropped, next, bump)?;
            level(bump, lacking_dim(node, dropped, first, *size), under)
        }
        SizeTree::Built { head, parts, .. } => {
            let made = all_lacking(parts, node, dropped, first, bump)?;
            built(bump, *head, made)
        }
        SizeTree::Fun { .. } => Ok(tree),
    }
}

#[cycle(lacking)]
fn all_lacking<'a>(
    parts: &'a [SizeTree<'a>],
    node: u32,
    dropped: &[u32],
    first: u32,
    bump: &'a Bump,
) -> Result<&'a [SizeTree<'a>], NoMemory>
    ensures { (N : Names) (types : Sub) → IfOk result (λ made. sizes_of made.now ≡ all_lacking N types node dropped.now first (sizes_of parts.now)) }
{
    let mut made = Vec::new(bump);
    let mut number = first;
    for part in parts {
        let after = lacking_from(part, node, dropped, number, bump)?;
        made.push(*after)?;
        number = past(part, number)?;
    }
    Ok(into_bump_slice(made))
}

/// What a turn of the loop at a node begins with: the sized type that the loop began with, in which each level that it has dropped
/// is an unknown of the loop's own, numbered by the level.
pub fn lacking<'a>(
    tree: &'a SizeTree<'a>,
    node: u32,
    dropped: &[u32],
    bump: &'a Bump,
) -> Result<&'a SizeTree<'a>, NoMemory>
    ensures { (N : Names) (types : Sub) → IfOk result (λ made. size_of made.now ≡ lacking N types node dropped.now 0 (size_of tree.now)) }
{
    if dropped.len() == 0 {
        return Ok(tree);
    }
    lacking_from(tree, node, dropped, 0, bump)
}

// ---- what a turn gives

/// Notes a level that is kept so far, if its size differs.
#[tactic(auto, using(crate::proofs::DifferForms::levels_noted))]
fn note_level(
    dropped: &[u32],
    number: u32,
    began: Dim,
    ended: Dim,
    found: &mut List<u32>,
) -> Result<(), NoMemory>
    ensures { IfOk result (λ u. found.new ≡ found.old ++ cond (is_among dropped.now number || is_dim (dim_of began) (dim_of ended)) [] (number ∷ [])) }
{
    if is_among(dropped, number) {
        return Ok(());
    }
    if same_dim(began, ended) {
        return Ok(());
    }
    found.push(number)
}

/// Notes the levels that differ, of which the first has this number.
#[cycle(differing)]
fn note_differing(
    began: &SizeTree<'_>,
    ended: &SizeTree<'_>,
    dropped: &[u32],
    first: u32,
    found: &mut List<u32>,
) -> Result<(), NoMemory>
    ensures { (N : Names) (types : Sub) → IfOk result (λ u. found.new ≡ found.old ++ differing N types dropped.now first (size_of began.now) (size_of ended.now)) }
{
    match began {
        SizeTree::Hole(_) => Ok(()),
        SizeTree::Open { .. } => Ok(()),
        SizeTree::Level { size, row, .. } => match ended {
            SizeTree::Hole(_) => Ok(()),
            SizeTree::Open { .. } => Ok(()),
            SizeTree::Level {
                size: other,
                row: rest,
                ..
            } => {
                note_level(dropped, first, *size, *other, found)?;
                let next = next_of(first)?;
                note_differing(row, rest, dropped, next, found)
            }
            SizeTree::Built { .. } => Ok(()),
            SizeTree::Fun { .. } => Ok(()),
        },
        SizeTree::Built { parts, .. } => match ended {
            SizeTree::Hole(_) => Ok(()),
            SizeTree::Open { .. } => Ok(()),
            SizeTree::Level { .. } => Ok(()),
            SizeTree::Built { parts: others, .. } => note_all(parts, others, dropped, first, found),
            SizeTree::Fun { .. } => Ok(()),
        },
        SizeTree::Fun { .. } => Ok(()),
    }
}

#[cycle(differing)]
fn note_all(
    began: &[SizeTree<'_>],
    ended: &[SizeTree<'_>],
    dropped: &[u32],
    first: u32,
    found: &mut List<u32>,
) -> Result<(), NoMemory>
    ensures { (N : Names) (types : Sub) → IfOk result (λ u. found.new ≡ found.old ++ all_differing N types dropped.now first (sizes_of began.now) (sizes_of ended.now)) }
{
    let mut number = first;
    for i in 0..began.len() {
        if i >= ended.len() {
            return Ok(());
        }
        let part = &began[i];
        note_differing(part, &ended[i], dropped, number, found)?;
        number = past(part, number)?;
    }
    Ok(())
}

/// The levels, of those that a loop has kept so far, in which what a turn gives differs from what it began with, as they are
/// read.
pub fn differing(
    began: &SizeTree<'_>,
    ended: &SizeTree<'_>,
    dropped: &[u32],
    alloc: Global,
) -> Result<List<u32>, NoMemory>
    ensures { (N : Names) (types : Sub) → IfOk result (λ found. found ≡ differing N types dropped.now 0 (size_of began.now) (size_of ended.now)) }
{
    let mut found = List::new(alloc);
    note_differing(began, ended, dropped, 0, &mut found)?;
    Ok(found)
}
