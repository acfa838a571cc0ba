// How many levels a sized type has outside of functions.
ghost use Rattle.std.specs.Prelude.{◌≡◌, ◌+◌, IfOk};
ghost use Rattle.sized_types.specs.Sizes.{all_levels, levels};
ghost use Rattle.fut_sizes.specs.Levels.{all_levels_within, levels_within};
ghost use Rattle.size_arena.specs.Trees.{size_of, sizes_of};

use crate::trees::SizeTree;
use fut_scalar::NoMemory;

/// The number behind those of a sized type's levels, the first of which has this number.
#[cycle(levels)]
pub fn past(tree: &SizeTree<'_>, first: u32) -> Result<u32, NoMemory>
    ensures { IfOk result (λ next. next ≡ first + levels (size_of tree.now)) }
{
    match tree {
        SizeTree::Hole(_) => Ok(first),
        SizeTree::Open { .. } => Ok(first),
        SizeTree::Level { row, .. } => match first.checked_add(1) {
            Some(next) => past(row, next),
            None => Err(NoMemory),
        },
        SizeTree::Built { parts, .. } => past_all(parts, first),
        SizeTree::Fun { .. } => Ok(first),
    }
}

#[cycle(levels)]
pub fn past_all(parts: &[SizeTree<'_>], first: u32) -> Result<u32, NoMemory>
    ensures { IfOk result (λ next. next ≡ first + all_levels (sizes_of parts.now)) }
{
    let mut next = first;
    for part in parts {
        next = past(part, next)?;
    }
    Ok(next)
}

/// The number behind those of all levels of a sized type, also inside of functions.
#[cycle(within)]
pub fn past_within(tree: &SizeTree<'_>, first: u32) -> Result<u32, NoMemory>
    ensures { IfOk result (λ next. next ≡ first + levels_within (size_of tree.now)) }
{
    match tree {
        SizeTree::Hole(_) => Ok(first),
        SizeTree::Open { .. } => Ok(first),
        SizeTree::Level { row, .. } => match first.checked_add(1) {
            Some(next) => past_within(row, next),
            None => Err(NoMemory),
        },
        SizeTree::Built { parts, .. } => past_all_within(parts, first),
        SizeTree::Fun { from, to, .. } => {
            let next = past_within(from, first)?;
            past_within(to, next)
        }
    }
}

#[cycle(within)]
fn past_all_within(parts: &[SizeTree<'_>], first: u32) -> Result<u32, NoMemory>
    ensures { IfOk result (λ next. next ≡ first + all_levels_within (sizes_of parts.now)) }
{
    let mut next = first;
    for part in parts {
        next = past_within(part, next)?;
    }
    Ok(next)
}
