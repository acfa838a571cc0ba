// What ascriptions, coercions, parameters and declared results make of sized types.
ghost use Rattle.std.specs.Prelude.{◌≡◌, IfOk};
ghost use Rattle.fut_flat.specs.Erased.{type_of};
ghost use Rattle.fut_sizes.specs.WrittenSizes.{ascribed, coerced, coercion, declared, parameter_size, same_dim};
ghost use Rattle.fut_types.specs.Shapes.{IsTable};
ghost use Rattle.fut_typing.specs.Names.{Names};
ghost use Rattle.alias_parts.specs.Known.{Knows};
ghost use Rattle.size_arena.specs.Answers.{Gives};
ghost use Rattle.size_arena.specs.Trees.{size_of};

use crate::agreeing::has_sizes;
use crate::blanks::Purpose;
use crate::filling::with_sizes;
use alias_parts::PartNames;
use bumpalo::Bump;
use fut_flat::TypeExp;
use fut_scalar::NoMemory;
use size_arena::{SizeErr, SizeTree};

/// What is ascribed a type keeps its sizes.
///
/// `Err`: the first two sizes that differ, or memory ran out.
pub fn ascribed<'a>(
    bump: &'a Bump,
    names: &PartNames<'_>,
    at: u32,
    written: &TypeExp<'_>,
    tree: &'a SizeTree<'a>,
) -> Result<&'a SizeTree<'a>, SizeErr>
    requires table { IsTable names.now.table.now }
    ensures { (N : Names) → Knows names.now N → Gives (ascribed N at (type_of written.now) (size_of tree.now)) result }
{
    has_sizes(bump, names, true, at, written, tree)?;
    Ok(tree)
}

/// A sized type with the sizes that are written outside of function types.
pub fn coerced<'a>(
    bump: &'a Bump,
    names: &PartNames<'_>,
    written: &TypeExp<'_>,
    tree: &'a SizeTree<'a>,
) -> Result<&'a SizeTree<'a>, NoMemory>
    requires table { IsTable names.now.table.now }
    ensures { (N : Names) → Knows names.now N → IfOk result (λ made. size_of made.now ≡ coerced N (type_of written.now) (size_of tree.now)) }
{
    let made = with_sizes(bump, names, Purpose::Coercion, 0, written, tree)?;
    Ok(made)
}

/// What is coerced to a type has the sizes that are written; inside of function types they must agree, since no run can tell
/// those.
///
/// `Err`: the first two sizes that differ there, or memory ran out.
pub fn coercion<'a>(
    bump: &'a Bump,
    names: &PartNames<'_>,
    at: u32,
    written: &TypeExp<'_>,
    tree: &'a SizeTree<'a>,
) -> Result<&'a SizeTree<'a>, SizeErr>
    requires table { IsTable names.now.table.now }
    ensures { (N : Names) → Knows names.now N → Gives (coercion N at (type_of written.now) (size_of tree.now)) result }
{
    has_sizes(bump, names, false, at, written, tree)?;
    let made = coerced(bump, names, written, tree)?;
    Ok(made)
}

/// A parameter has the sizes that are written, and its own where none is.
pub fn parameter_size<'a>(
    bump: &'a Bump,
    names: &PartNames<'_>,
    written: &TypeExp<'_>,
    tree: &'a SizeTree<'a>,
) -> Result<&'a SizeTree<'a>, NoMemory>
    requires table { IsTable names.now.table.now }
    ensures { (N : Names) → Knows names.now N → IfOk result (λ made. size_of made.now ≡ parameter_size N same_dim (type_of written.now) (size_of tree.now)) }
{
    let made = with_sizes(bump, names, Purpose::Parameter, 0, written, tree)?;
    Ok(made)
}

/// What the result at a node is declared to be: callers know the sizes that are written, and those alone.
///
/// `Err`: the first two sizes that differ, or memory ran out.
pub fn declared<'a>(
    bump: &'a Bump,
    names: &PartNames<'_>,
    node: u32,
    at: u32,
    written: &TypeExp<'_>,
    tree: &'a SizeTree<'a>,
) -> Result<&'a SizeTree<'a>, SizeErr>
    requires table { IsTable names.now.table.now }
    ensures { (N : Names) → Knows names.now N → Gives (declared N node at (type_of written.now) (size_of tree.now)) result }
{
    has_sizes(bump, names, true, at, written, tree)?;
    let made = with_sizes(bump, names, Purpose::Result(node), 0, written, tree)?;
    Ok(made)
}
