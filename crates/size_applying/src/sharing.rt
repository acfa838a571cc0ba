// How many function types in a row give what names none of their positions.
ghost use Rattle.std.specs.Prelude.{◌≡◌, ℕ, ◌≤◌, IfOk, suc};
ghost use Rattle.sized_types.specs.Sizes.{Size, Fun};
ghost use Rattle.fut_sizes.specs.Suiting.{Each_all, Scoped};
ghost use Rattle.size_arena.specs.Trees.{dim_of, size_of, sizes_of};
ghost use Rattle.size_applying.specs.Sharing.{Apart, Within_frames};

use fut_scalar::NoMemory;
use size_arena::{Dim, SizeTree};

fn greater(left: u32, right: u32) -> u32
    ensures left { left ≤ result }
    ensures right { right ≤ result }
{
    if left < right { right } else { left }
}

/// One less, but not below 0.
fn less_one(count: u32) -> u32
    ensures { count ≤ suc result }
{
    if count > 0 { count - 1 } else { 0 }
}

fn more_by_one(count: u32) -> Result<u32, NoMemory>
    ensures { IfOk result (λ next. next ≡ suc count) }
{
    match count.checked_add(1) {
        Some(next) => Ok(next),
        None => Err(NoMemory),
    }
}

/// How many function types around a level there are at least, for its size to be bound by one of them.
fn frames_of_dim(dim: Dim) -> Result<u32, NoMemory>
    ensures { IfOk result (λ count. Scoped (λ d. Unit {0}) count (dim_of dim)) }
{
    match dim {
        Dim::At(_) => Ok(0),
        Dim::Bound(between, _) => more_by_one(between),
    }
}

/// How many function types around a sized type there are at least, for its sizes to be bound by them.
#[cycle(frames)]
fn frames_around(tree: &SizeTree<'_>) -> Result<u32, NoMemory>
    ensures { IfOk result (λ count. Within_frames count (size_of tree.now)) }
{
    match tree {
        SizeTree::Hole(_) => Ok(0),
        SizeTree::Open { .. } => Ok(0),
        SizeTree::Level { size, row, .. } => {
            let own = frames_of_dim(*size)?;
            let under = frames_around(row)?;
            Ok(greater(own, under))
        }
        SizeTree::Built { parts, .. } => frames_around_all(parts),
        SizeTree::Fun { from, to, .. } => {
            let taken = frames_around(from)?;
            let given = frames_around(to)?;
            Ok(less_one(greater(taken, given)))
        }
    }
}

#[cycle(frames)]
fn frames_around_all(parts: &[SizeTree<'_>]) -> Result<u32, NoMemory>
    ensures { IfOk result (λ count. Each_all (Scoped (λ d. Unit {0})) count (sizes_of parts.now)) }
{
    let mut most = 0;
    for part in parts {
        let count = frames_around(part)?;
        most = greater(most, count);
    }
    Ok(most)
}

/// Of a sized type: how many function types in a row give what names none of their positions, and how many there are at least
/// around it, for its sizes to be bound by them.
#[derive(Clone, Copy)]
pub(crate) struct Arrows {
    pub(crate) apart: u32,
    frames: u32,
}

/// One arrow more, before these.
fn apart_before(behind: Arrows) -> Result<u32, NoMemory>
    ensures { (k : ℕ) (p r : Size) → Within_frames behind.frames r → Apart behind.apart r → IfOk result (λ apart. Apart apart (Fun k p r)) }
{
    if behind.frames == 0 {
        more_by_one(behind.apart)
    } else {
        Ok(0)
    }
}

/// A sized type that is no function type.
fn no_arrows(tree: &SizeTree<'_>) -> Result<Arrows, NoMemory>
    ensures apart { IfOk result (λ arrows. Apart arrows.apart (size_of tree.now)) }
    ensures frames { IfOk result (λ arrows. Within_frames arrows.frames (size_of tree.now)) }
{
    let frames = frames_around(tree)?;
    Ok(Arrows { apart: 0, frames })
}

/// The cost is linear in the tree.
pub(crate) fn arrows_of(tree: &SizeTree<'_>) -> Result<Arrows, NoMemory>
    ensures apart { IfOk result (λ arrows. Apart arrows.apart (size_of tree.now)) }
    ensures frames { IfOk result (λ arrows. Within_frames arrows.frames (size_of tree.now)) }
{
    match tree {
        SizeTree::Fun { from, to, .. } => {
            let behind = arrows_of(to)?;
            let taken = frames_around(from)?;
            let apart = apart_before(behind)?;
            Ok(Arrows {
                apart,
                frames: less_one(greater(taken, behind.frames)),
            })
        }
        SizeTree::Hole(_) => no_arrows(tree),
        SizeTree::Open { .. } => no_arrows(tree),
        SizeTree::Level { .. } => no_arrows(tree),
        SizeTree::Built { .. } => no_arrows(tree),
    }
}
