// Sized types with the sizes that are written.
ghost use Rattle.std.specs.Prelude.{◌≡◌, ◌+◌, ℕ, map, Option, IfOk, OnOk};
ghost use Rattle.sized_types.specs.Sizes.{Built, Fun, Level, bound};
ghost use Rattle.fut_flat.specs.Erased.{size_of as size_written, type_of, types};
ghost use Rattle.fut_sizes.specs.WrittenSizes.{all_with_sizes, argument_place, dim_or, fields_with_sizes, levels_there, part, with_part, with_sizes, written_dim};
ghost use Rattle.fut_types.specs.Shapes.{IsTable, Tells_position};
ghost use Rattle.fut_typing.specs.Names.{Names};
ghost use Rattle.alias_parts.specs.Known.{Knows};
ghost use Rattle.size_arena.specs.Trees.{dim_of, size_of, sizes_of};
ghost use Rattle.size_written.specs.Fields.{field_types, type_names};
ghost use Rattle.size_written.specs.Blanks.{blank_of, results_of};

use crate::blanks::{Purpose, next_of, purposes_inside, size_or_blank};
use crate::heads::{array_parts, function_parts, row_of};
use crate::parts::{part_copy, put_part, row_copy};
use alias_parts::{PartNames, place_named};
use bumpalo::Bump;
use bumpalo::collections::into_bump_slice;
use fut_flat::{Size, TypeExp, TypeField, TypeForm};
use fut_scalar::{BindId, NoMemory};
use fut_types::Head;
use size_arena::{Dim, SizeTree, built, function, level, past};
use size_making::{Positions, bound};

/// A level with this number, of the size that is written, if one is.
fn level_with<'a>(
    bump: &'a Bump,
    purpose: Purpose,
    number: u32,
    size: Size,
    found: Dim,
    row: &'a SizeTree<'a>,
) -> Result<&'a SizeTree<'a>, NoMemory>
    ensures { IfOk result (λ made. size_of made.now ≡ Level (dim_or (written_dim (size_written size)) (blank_of purpose number (dim_of found))) (size_of row.now)) }
{
    let dim = size_or_blank(purpose, number, size, found)?;
    let made = level(bump, dim, row)?;
    Ok(made)
}

/// A function type of a parameter and a result, in which the parameter's name is bound.
fn closed_function<'a>(
    bump: &'a Bump,
    chosen: u32,
    name: Option<BindId>,
    from: &'a SizeTree<'a>,
    to: &'a SizeTree<'a>,
) -> Result<&'a SizeTree<'a>, NoMemory>
    ensures { IfOk result (λ made. size_of made.now ≡ Fun chosen (size_of from.now) (bound (argument_place chosen name) (size_of to.now))) }
{
    let given = bound(to, &Positions::Argument { chosen, name }, bump)?;
    let made = function(bump, chosen, from, given)?;
    Ok(made)
}

/// A sized type with the sizes that are written for a purpose, whose first level has this number.
#[cycle(with_sizes)]
pub(crate) fn with_sizes<'a>(
    bump: &'a Bump,
    names: &PartNames<'_>,
    purpose: Purpose,
    number: u32,
    written: &TypeExp<'_>,
    tree: &'a SizeTree<'a>,
) -> Result<&'a SizeTree<'a>, NoMemory>
    requires table { IsTable names.now.table.now }
    ensures { (N : Names) → Knows names.now N → IfOk result (λ made. size_of made.now ≡ with_sizes N (results_of purpose) (blank_of purpose) number (type_of written.now) (size_of tree.now)) }
{
    match written.form {
        TypeForm::Use(_, _) => Ok(tree),
        TypeForm::Array(size, element) => match array_parts(tree) {
            Some(array) => {
                let next = next_of(number)?;
                let row = with_sizes(bump, names, purpose, next, element, array.row)?;
                level_with(bump, purpose, number, size, array.size, row)
            }
            None => Ok(tree),
        },
        TypeForm::Unique(inner) => with_sizes(bump, names, purpose, number, inner, tree),
        TypeForm::Arrow(name, from, to) => match function_parts(tree) {
            Some(parts) => match purposes_inside(purpose, parts.chosen) {
                Some(inside) => {
                    let taken = with_sizes(bump, names, inside.taken, 0, from, parts.from)?;
                    let open = with_sizes(bump, names, inside.given, 0, to, parts.to)?;
                    closed_function(bump, parts.chosen, name, taken, open)
                }
                None => Ok(tree),
            },
            None => Ok(tree),
        },
        TypeForm::Tuple(parts) => match row_of(tree) {
            Some(row) => {
                let all = all_with_sizes(bump, names, purpose, number, parts, row.parts)?;
                built(bump, row.head, all)
            }
            None => Ok(tree),
        },
        TypeForm::Record(fields) => record_with_sizes(bump, names, purpose, number, fields, tree),
    }
}

#[cycle(with_sizes)]
fn all_with_sizes<'a>(
    bump: &'a Bump,
    names: &PartNames<'_>,
    purpose: Purpose,
    first: u32,
    parts: &[TypeExp<'_>],
    row: &'a [SizeTree<'a>],
) -> Result<&'a [SizeTree<'a>], NoMemory>
    requires table { IsTable names.now.table.now }
    ensures { (N : Names) → Knows names.now N → IfOk result (λ made. sizes_of made.now ≡ all_with_sizes N (results_of purpose) (blank_of purpose) first (types (map type_of parts.now)) (sizes_of row.now)) }
{
    // A program that is typed has as many, so this is never met.
    if parts.len() != row.len() {
        return Err(NoMemory);
    }
    let mut made = Vec::new(bump);
    let mut number = first;
    for i in 0..parts.len() {
        let tree = &row[i];
        let part = with_sizes(bump, names, purpose, number, &parts[i], tree)?;
        made.push(*part)?;
        number = past(tree, number)?;
    }
    Ok(into_bump_slice(made))
}

#[cycle(with_sizes)]
fn record_with_sizes<'a>(
    bump: &'a Bump,
    names: &PartNames<'_>,
    purpose: Purpose,
    first: u32,
    fields: &[TypeField<'_>],
    tree: &'a SizeTree<'a>,
) -> Result<&'a SizeTree<'a>, NoMemory>
    requires table { IsTable names.now.table.now }
    ensures { (N : Names) → Knows names.now N → IfOk result (λ made. size_of made.now ≡ fields_with_sizes N (results_of purpose) (blank_of purpose) first (type_names fields.now) (field_types fields.now) (size_of tree.now)) }
{
    match row_of(tree) {
        Some(row) => {
            let mut all = row_copy(bump, row.parts)?;
            fields_with_sizes(bump, names, purpose, first, fields, row.head, &mut all)?;
            built(bump, row.head, into_bump_slice(all))
        }
        None => Ok(tree),
    }
}

// The parts of a record, each with the sizes of its field; each field begins behind the levels of those before it.
#[cycle(with_sizes)]
fn fields_with_sizes<'a>(
    bump: &'a Bump,
    names: &PartNames<'_>,
    purpose: Purpose,
    first: u32,
    fields: &[TypeField<'_>],
    head: Head,
    row: &mut Vec<SizeTree<'a>, &'a Bump>,
) -> Result<(), NoMemory>
    requires table { IsTable names.now.table.now }
    ensures { (N : Names) → Knows names.now N → OnOk result (Built head (sizes_of row.new.items) ≡ fields_with_sizes N (results_of purpose) (blank_of purpose) first (type_names fields.now) (field_types fields.now) (Built head (sizes_of row.old.items))) }
{
    let mut number = first;
    for field in fields {
        let place = place_named(names, head, field.name)?;
        number = field_with_sizes(bump, names, purpose, number, field, place, row)?;
    }
    Ok(())
}

// The part of a field at a place, if it has one there. `Ok`: the number behind its levels.
#[cycle(with_sizes)]
fn field_with_sizes<'a>(
    bump: &'a Bump,
    names: &PartNames<'_>,
    purpose: Purpose,
    number: u32,
    field: &TypeField<'_>,
    place: Option<u32>,
    row: &mut Vec<SizeTree<'a>, &'a Bump>,
) -> Result<u32, NoMemory>
    requires table { IsTable names.now.table.now }
    ensures made { (N : Names) → Knows names.now N → (p : Option ℕ) → Tells_position place p → OnOk result (sizes_of row.new.items ≡ with_part p (with_sizes N (results_of purpose) (blank_of purpose) number (type_of field.now.ty)) (sizes_of row.old.items)) }
    ensures next { (p : Option ℕ) → Tells_position place p → IfOk result (λ next. next ≡ number + levels_there (part p (sizes_of row.old.items))) }
{
    match part_copy(bump, place, row)? {
        Some(part) => {
            let made = with_sizes(bump, names, purpose, number, &field.ty, part)?;
            put_part(place, made, row)?;
            let next = past(part, number)?;
            Ok(next)
        }
        None => Ok(number),
    }
}
