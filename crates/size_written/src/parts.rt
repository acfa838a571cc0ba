// Parts of tuples and records.
ghost use Rattle.std.specs.Prelude.{◌≡◌, ◌<◌, ◌^◌, ℕ, Option, IfOk, OnOk};
ghost use Rattle.fut_sizes.specs.WrittenSizes.{changed_part, part, part_of, with_part};
ghost use Rattle.fut_types.specs.Shapes.{IsTable, Tells_position};
ghost use Rattle.fut_typing.specs.Names.{Names};
ghost use Rattle.alias_parts.specs.Known.{Knows};
ghost use Rattle.size_arena.specs.Trees.{size_of, sizes_of};
ghost use Rattle.size_written.specs.Answers.{held};

use crate::heads::row_of;
use alias_parts::{PartNames, place_named};
use bumpalo::Bump;
use bumpalo::collections::into_bump_slice;
use fut_scalar::NoMemory;
use size_arena::{SizeTree, built};

/// No row of a type in hand is so long.
fn short(count: usize) -> Result<(), NoMemory>
    ensures { OnOk result (count < 2 ^ 32) }
{
    if count >= 4294967296 {
        return Err(NoMemory);
    }
    Ok(())
}

/// The part at a place of a row, if it has one there.
pub(crate) fn part_in<'t, 'a>(
    place: Option<u32>,
    row: &'t [SizeTree<'a>],
) -> Result<Option<&'t SizeTree<'a>>, NoMemory>
    ensures { (p : Option ℕ) → Tells_position place p → IfOk result (λ found. held found ≡ part p (sizes_of row.now)) }
{
    short(row.len())?;
    match place {
        Some(at) => {
            let at = at as usize;
            if at < row.len() {
                return Ok(Some(&row[at]));
            }
            Ok(None)
        }
        None => Ok(None),
    }
}

/// The same, copied into the arena, of a row that is still to be changed.
pub(crate) fn part_copy<'a>(
    bump: &'a Bump,
    place: Option<u32>,
    row: &[SizeTree<'a>],
) -> Result<Option<&'a SizeTree<'a>>, NoMemory>
    ensures { (p : Option ℕ) → Tells_position place p → IfOk result (λ found. held found ≡ part p (sizes_of row.now)) }
{
    match part_in(place, row)? {
        Some(found) => match bump.try_alloc(*found) {
            Ok(copy) => Ok(Some(copy)),
            Err(_) => Err(NoMemory),
        },
        None => Ok(None),
    }
}

/// A row that is to be changed.
pub(crate) fn row_copy<'a>(
    bump: &'a Bump,
    row: &[SizeTree<'a>],
) -> Result<Vec<SizeTree<'a>, &'a Bump>, NoMemory>
    ensures { IfOk result (λ copy. copy.items ≡ row.now) }
{
    let mut copy = Vec::new(bump);
    copy.extend_from_slice(row)?;
    Ok(copy)
}

/// Puts another part at a place of a row; a row that ends before it stays as it is.
pub(crate) fn put_part<'a>(
    place: Option<u32>,
    new: &SizeTree<'a>,
    row: &mut Vec<SizeTree<'a>, &'a Bump>,
) -> Result<(), NoMemory>
    ensures { (p : Option ℕ) → Tells_position place p → OnOk result (sizes_of row.new.items ≡ with_part p (λ old. size_of new.now) (sizes_of row.old.items)) }
{
    short(row.len())?;
    match place {
        Some(at) => {
            let at = at as usize;
            if at >= row.len() {
                return Ok(());
            }
            row[at] = *new;
            Ok(())
        }
        None => Ok(()),
    }
}

/// The part of a tuple or a record that a name names, if it has one.
pub fn part_of<'a>(
    names: &PartNames<'_>,
    name: &str,
    tree: &SizeTree<'a>,
) -> Result<Option<&'a SizeTree<'a>>, NoMemory>
    requires table { IsTable names.now.table.now }
    ensures { (N : Names) → Knows names.now N → IfOk result (λ found. held found ≡ part_of N name.now (size_of tree.now)) }
{
    match row_of(tree) {
        Some(row) => {
            let place = place_named(names, row.head, name)?;
            let found = part_in(place, row.parts)?;
            Ok(found)
        }
        None => Ok(None),
    }
}

/// A tuple or a record with another part under a name; the same where it has none there.
pub fn changed_part<'a>(
    bump: &'a Bump,
    names: &PartNames<'_>,
    name: &str,
    new: &SizeTree<'a>,
    tree: &'a SizeTree<'a>,
) -> Result<&'a SizeTree<'a>, NoMemory>
    requires table { IsTable names.now.table.now }
    ensures { (N : Names) → Knows names.now N → IfOk result (λ made. size_of made.now ≡ changed_part N name.now (λ old. size_of new.now) (size_of tree.now)) }
{
    match row_of(tree) {
        Some(row) => {
            let place = place_named(names, row.head, name)?;
            let mut parts = row_copy(bump, row.parts)?;
            put_part(place, new, &mut parts)?;
            let made = built(bump, row.head, into_bump_slice(parts))?;
            Ok(made)
        }
        None => Ok(tree),
    }
}
