// Arrays with a new element.
ghost use Rattle.std.specs.Prelude.{◌≡◌, length, map};
ghost use Rattle.fut_flat.specs.Erased.{term_of, terms};
ghost use Rattle.fut_flat.specs.Terms.{Update};
ghost use Rattle.fut_sizes.specs.Operations.{operation, updated};
ghost use Rattle.fut_types.specs.Types.{Sub};
ghost use Rattle.fut_typing.specs.Names.{Names};
ghost use Rattle.size_arena.specs.Trees.{size_of, sizes_of};
ghost use Rattle.size_operations.specs.Answers.{Agrees, Sized};

use crate::answers::agrees;
use flat_numbers::after_exp;
use fut_flat::Exp;
use size_arena::{SizeErr, SizeTree};

/// Whether the new element, behind indices whose nodes begin at a number, agrees with the row that it replaces.
///
/// It goes as deep as the type has levels.
fn updated(
    tree: &SizeTree<'_>,
    parts: &[Exp<'_>],
    at: u32,
    sizes: &[SizeTree<'_>],
) -> Result<(), SizeErr>
    requires same { length parts.now ≡ length sizes.now }
    ensures { Agrees (updated (terms (map term_of parts.now)) at (sizes_of sizes.now) (size_of tree.now)) result }
{
    if sizes.len() == 0 {
        return Ok(());
    }
    if sizes.len() == 1 {
        return agrees(tree, &sizes[0], at);
    }
    match tree {
        SizeTree::Level { row, .. } => {
            let next = after_exp(at, &parts[0])?;
            updated(row, &parts[1..], next, &sizes[1..])
        }
        SizeTree::Hole(_) => Ok(()),
        SizeTree::Open { .. } => Ok(()),
        SizeTree::Built { .. } => Ok(()),
        SizeTree::Fun { .. } => Ok(()),
    }
}

/// The first of these, in which a row is replaced.
///
/// `Err`: the new element does not agree with the row, or memory ran out.
pub(crate) fn update<'a>(
    node: u32,
    first: u32,
    parts: &[Exp<'_>],
    sizes: &'a [SizeTree<'a>],
) -> Result<&'a SizeTree<'a>, SizeErr>
    requires same { length parts.now ≡ length sizes.now }
    ensures { (N : Names) (types : Sub) → Sized (operation N types Update node first (terms (map term_of parts.now)) (sizes_of sizes.now)) result }
{
    // An array stands first.
    if sizes.len() == 0 {
        return Err(SizeErr::Memory);
    }
    let array = &sizes[0];
    let next = after_exp(first, &parts[0])?;
    updated(array, &parts[1..], next, &sizes[1..])?;
    Ok(array)
}
