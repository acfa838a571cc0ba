// Whether what is found has the sizes that are written.
ghost use Rattle.std.specs.Prelude.{◌≡◌, Ok, cond, map, IfOk};
ghost use Rattle.sized_types.specs.Sizes.{opened};
ghost use Rattle.fut_flat.specs.Erased.{size_of as size_written, type_of, types};
ghost use Rattle.fut_sizes.specs.WrittenSizes.{all_have_sizes, argument_value, fields_have_sizes, has_sizes, has_written, if_there, inside, written_dim};
ghost use Rattle.fut_types.specs.Shapes.{IsTable};
ghost use Rattle.fut_typing.specs.Names.{Names};
ghost use Rattle.alias_parts.specs.Known.{Knows};
ghost use Rattle.size_arena.specs.Trees.{dim_of, free_of, size_of, sizes_of};
ghost use Rattle.size_written.specs.Fields.{field_types, type_names};
ghost use Rattle.size_written.specs.Answers.{Tested, held};

use crate::blanks::dim_written;
use crate::heads::{array_parts, function_parts, row_of};
use crate::parts::part_of;
use alias_parts::PartNames;
use bumpalo::Bump;
use fut_flat::{Size, TypeExp, TypeField, TypeForm};
use fut_scalar::{BindId, NoMemory};
use size_arena::{Change, Dim, Free, Refusal, SizeErr, SizeTree, changed, same_dim};

/// Whether a level has the size that is written, where that is asked.
fn level_agrees(asked: bool, at: u32, size: Size, found: Dim) -> Result<(), SizeErr>
    ensures { Tested (cond asked (has_written at (written_dim (size_written size)) (dim_of found)) (Ok tt)) result }
{
    if !asked {
        return Ok(());
    }
    match dim_written(size) {
        Some(wanted) => {
            if same_dim(wanted, found) {
                return Ok(());
            }
            Err(SizeErr::Refused(Refusal::Mismatch(at, wanted, found)))
        }
        None => Ok(()),
    }
}

fn argument_value(at: u32, chosen: u32, name: Option<BindId>) -> Free
    ensures { free_of result ≡ argument_value at chosen name }
{
    match name {
        Some(bind) => Free::Name(bind.0),
        None => Free::Own(at, chosen),
    }
}

/// The parameter or the result of a function type, whose sizes are given at a node.
fn given_inside<'a>(
    bump: &'a Bump,
    at: u32,
    chosen: u32,
    name: Option<BindId>,
    tree: &'a SizeTree<'a>,
) -> Result<&'a SizeTree<'a>, NoMemory>
    ensures { IfOk result (λ made. size_of made.now ≡ opened (inside at chosen name) (size_of tree.now)) }
{
    let value = argument_value(at, chosen, name);
    let made = changed(
        tree,
        &Change::Give {
            node: at,
            chosen,
            value,
        },
        1,
        bump,
    )?;
    Ok(made)
}

/// Whether what is found at a node has the sizes that are written, everywhere or inside function types alone.
///
/// `Err`: the first two sizes that differ, or memory ran out.
#[cycle(has_sizes)]
pub fn has_sizes<'a>(
    bump: &'a Bump,
    names: &PartNames<'_>,
    everywhere: bool,
    at: u32,
    written: &TypeExp<'_>,
    tree: &'a SizeTree<'a>,
) -> Result<(), SizeErr>
    requires table { IsTable names.now.table.now }
    ensures { (N : Names) → Knows names.now N → Tested (has_sizes N everywhere at (type_of written.now) (size_of tree.now)) result }
{
    match written.form {
        TypeForm::Use(_, _) => Ok(()),
        TypeForm::Array(size, element) => match array_parts(tree) {
            Some(array) => {
                level_agrees(everywhere, at, size, array.size)?;
                has_sizes(bump, names, everywhere, at, element, array.row)
            }
            None => Ok(()),
        },
        TypeForm::Unique(inner) => has_sizes(bump, names, everywhere, at, inner, tree),
        TypeForm::Arrow(name, from, to) => match function_parts(tree) {
            Some(function) => {
                let taken = given_inside(bump, at, function.chosen, name, function.from)?;
                has_sizes(bump, names, true, at, from, taken)?;
                let given = given_inside(bump, at, function.chosen, name, function.to)?;
                has_sizes(bump, names, true, at, to, given)
            }
            None => Ok(()),
        },
        TypeForm::Tuple(parts) => match row_of(tree) {
            Some(row) => all_have_sizes(bump, names, everywhere, at, parts, row.parts),
            None => Ok(()),
        },
        TypeForm::Record(fields) => fields_have_sizes(bump, names, everywhere, at, fields, tree),
    }
}

#[cycle(has_sizes)]
fn all_have_sizes<'a>(
    bump: &'a Bump,
    names: &PartNames<'_>,
    everywhere: bool,
    at: u32,
    parts: &[TypeExp<'_>],
    row: &'a [SizeTree<'a>],
) -> Result<(), SizeErr>
    requires table { IsTable names.now.table.now }
    ensures { (N : Names) → Knows names.now N → Tested (all_have_sizes N everywhere at (types (map type_of parts.now)) (sizes_of row.now)) result }
{
    for i in 0..parts.len() {
        if i >= row.len() {
            return Ok(());
        }
        has_sizes(bump, names, everywhere, at, &parts[i], &row[i])?;
    }
    Ok(())
}

#[cycle(has_sizes)]
fn fields_have_sizes<'a>(
    bump: &'a Bump,
    names: &PartNames<'_>,
    everywhere: bool,
    at: u32,
    fields: &[TypeField<'_>],
    tree: &'a SizeTree<'a>,
) -> Result<(), SizeErr>
    requires table { IsTable names.now.table.now }
    ensures { (N : Names) → Knows names.now N → Tested (fields_have_sizes N everywhere at (type_names fields.now) (field_types fields.now) (size_of tree.now)) result }
{
    for field in fields {
        let part = part_of(names, field.name, tree)?;
        field_has_sizes(bump, names, everywhere, at, field, part)?;
    }
    Ok(())
}

// Whether the part of a field has its sizes, if there is one.
#[cycle(has_sizes)]
fn field_has_sizes<'a>(
    bump: &'a Bump,
    names: &PartNames<'_>,
    everywhere: bool,
    at: u32,
    field: &TypeField<'_>,
    part: Option<&'a SizeTree<'a>>,
) -> Result<(), SizeErr>
    requires table { IsTable names.now.table.now }
    ensures { (N : Names) → Knows names.now N → Tested (if_there (held part.entry) (λ found. has_sizes N everywhere at (type_of field.now.ty) found)) result }
{
    match part {
        Some(found) => has_sizes(bump, names, everywhere, at, &field.ty, found),
        None => Ok(()),
    }
}
