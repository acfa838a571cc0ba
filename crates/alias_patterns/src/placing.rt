// Rows of stars.
ghost use Rattle.std.specs.Prelude.{◌≡◌, [], ◌<◌, ◌^◌, ℕ, Option, OnOk, IfOk};
ghost use Rattle.fut_aliases.specs.Stars.{all_spread, row_of as row_in, with_star};
ghost use Rattle.fut_types.specs.Shapes.{IsTable, Tells_position, part_at};
ghost use Rattle.fut_typing.specs.Names.{Names};
ghost use Rattle.alias_parts.specs.Known.{Knows};
ghost use Rattle.alias_values.specs.Trees.{row_of, stars_of, type_of, types_of};
ghost use Rattle.alias_patterns.specs.Fields.{field_names};
ghost use Rattle.alias_patterns.specs.Placing.{placed, record_placed, type_held};

use alias_parts::{PartNames, place_named};
use alias_types::spread;
use alias_values::{StarTree, TypeTree, star_row};
use bumpalo::Bump;
use bumpalo::collections::into_bump_slice;
use fut_flat::PatField;
use fut_scalar::NoMemory;
use fut_types::Head;

/// No row of a type in hand is so long.
pub(crate) fn short(count: usize) -> Result<(), NoMemory>
    ensures { OnOk result (count < 2 ^ 32) }
{
    if count >= 4294967296 {
        return Err(NoMemory);
    }
    Ok(())
}

/// One star, or none, over the types of a row, to be changed one by one.
pub(crate) fn spread_row<'a>(
    bump: &'a Bump,
    starred: bool,
    types: &[TypeTree<'_>],
    row: &mut Vec<StarTree<'a>, &'a Bump>,
) -> Result<(), NoMemory>
    requires empty { row.old.items ≡ [] }
    ensures { OnOk result (row_of row.new.items ≡ all_spread starred (types_of types.now)) }
{
    for ty in types {
        let stars = spread(bump, starred, ty)?;
        row.push(*stars)?;
    }
    Ok(())
}

/// The parts of stars, to be changed one by one; none where the stars have no parts.
fn row_stars<'a>(
    bump: &'a Bump,
    stars: &StarTree<'a>,
) -> Result<Vec<StarTree<'a>, &'a Bump>, NoMemory>
    ensures { IfOk result (λ row. row_of row.items ≡ row_in (stars_of stars.now)) }
{
    let mut row = Vec::new(bump);
    match stars {
        StarTree::Row(parts) => {
            row.extend_from_slice(parts)?;
            Ok(row)
        }
        StarTree::Leaf(_) => Ok(row),
        StarTree::Arrow(_, _, _) => Ok(row),
    }
}

/// Puts stars at a place of a row; a row that ends before it stays as it is.
pub(crate) fn put_star<'a>(
    place: Option<u32>,
    stars: &StarTree<'a>,
    row: &mut Vec<StarTree<'a>, &'a Bump>,
) -> Result<(), NoMemory>
    ensures { (p : Option ℕ) → Tells_position place p → OnOk result (row_of row.new.items ≡ with_star p (stars_of stars.now) (row_of row.old.items)) }
{
    short(row.len())?;
    match place {
        Some(at) => {
            let at = at as usize;
            if at >= row.len() {
                return Ok(());
            }
            row[at] = *stars;
            Ok(())
        }
        None => Ok(()),
    }
}

/// The type at a place of a row, if it has one there.
pub(crate) fn type_in<'t, 'a>(
    place: Option<u32>,
    types: &'t [TypeTree<'a>],
) -> Result<Option<&'t TypeTree<'a>>, NoMemory>
    ensures { (p : Option ℕ) → Tells_position place p → IfOk result (λ found. type_held found ≡ part_at p (types_of types.now)) }
{
    short(types.len())?;
    match place {
        Some(at) => {
            let at = at as usize;
            if at < types.len() {
                return Ok(Some(&types[at]));
            }
            Ok(None)
        }
        None => Ok(None),
    }
}

/// Puts the stars of a pattern's fields into a row; of two fields with one name the first counts.
fn put_fields<'a>(
    names: &PartNames<'_>,
    head: Head,
    fields: &[PatField<'_>],
    stars: &[StarTree<'a>],
    row: &mut Vec<StarTree<'a>, &'a Bump>,
) -> Result<(), NoMemory>
    requires table { IsTable names.now.table.now }
    ensures { (N : Names) → Knows names.now N → OnOk result (row_of row.new.items ≡ placed N head (field_names fields.now) (row_of stars.now) (row_of row.old.items)) }
{
    let mut i = fields.len();
    if i != stars.len() {
        return Err(NoMemory);
    }
    'fields: while i > 0 {
        i -= 1;
        let place = place_named(names, head, fields[i].name)?;
        put_star(place, &stars[i], row)?;
    }
    Ok(())
}

/// The stars of a record of this type, whose pattern has these fields with these stars.
pub(crate) fn record_stars<'a>(
    bump: &'a Bump,
    names: &PartNames<'_>,
    fields: &[PatField<'_>],
    stars: &[StarTree<'a>],
    ty: &TypeTree<'_>,
) -> Result<&'a StarTree<'a>, NoMemory>
    requires table { IsTable names.now.table.now }
    ensures { (N : Names) → Knows names.now N → IfOk result (λ made. stars_of made.now ≡ record_placed N (field_names fields.now) (row_of stars.now) (type_of ty.now)) }
{
    let plain = spread(bump, false, ty)?;
    if fields.is_empty() {
        return Ok(plain);
    }
    match ty {
        TypeTree::Made(head, _) => {
            let mut row = row_stars(bump, plain)?;
            put_fields(names, *head, fields, stars, &mut row)?;
            let made = star_row(bump, into_bump_slice(row))?;
            Ok(made)
        }
        TypeTree::Var(_) => Ok(plain),
    }
}
