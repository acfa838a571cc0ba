// The stars of written types.
ghost use Rattle.std.specs.Prelude.{◌≡◌, ℕ, false, map, OnOk, IfOk, Option};
ghost use Rattle.fut_aliases.specs.Aliases.{first_name_alone};
ghost use Rattle.fut_aliases.specs.Looking.{declared_stars};
ghost use Rattle.fut_aliases.specs.Stars.{of_part, record_stars, tuple_stars, written_stars};
ghost use Rattle.fut_flat.specs.Erased.{operation_of, term_of, type_of as written_type, types as written_types};
ghost use Rattle.fut_types.specs.Shapes.{IsTable, Tells_position, part_at};
ghost use Rattle.fut_typing.specs.Names.{Names};
ghost use Rattle.alias_parts.specs.Known.{Knows};
ghost use Rattle.alias_program.specs.Program.{sub_of};
ghost use Rattle.alias_types.specs.Kinds.{kinds_of};
ghost use Rattle.alias_values.specs.Trees.{row_of, stars_of, type_of, types_of};
ghost use Rattle.alias_patterns.specs.Fields.{field_types, type_names};
ghost use Rattle.alias_patterns.specs.Wanted.{type_declared, type_held, wanted_of};

use crate::forms::{function_types, record_types, tuple_types};
use crate::placing::{put_star, spread_row, type_in};
use alias_parts::place_named;
use alias_program::{Program, type_at};
use alias_types::spread;
use alias_values::{StarTree, TypeTree, arrow, leaf, star_row};
use bumpalo::Bump;
use bumpalo::collections::into_bump_slice;
use fut_flat::{Act, Exp, Form, TypeExp, TypeField, TypeForm};
use fut_scalar::NoMemory;
use fut_types::Head;

/// The stars of a written type where it stands for a type; `starred` says whether a star stands before the whole.
#[cycle(written)]
pub fn written_stars<'a>(
    bump: &'a Bump,
    program: &Program<'_>,
    starred: bool,
    written: &TypeExp<'_>,
    ty: &TypeTree<'_>,
) -> Result<&'a StarTree<'a>, NoMemory>
    requires table { IsTable program.now.names.table.now }
    ensures { (N : Names) → Knows program.now.names N → IfOk result (λ made. stars_of made.now ≡ written_stars N starred (written_type written.now) (type_of ty.now)) }
{
    match written.form {
        TypeForm::Use(_, _) => {
            let made = spread(bump, starred, ty)?;
            Ok(made)
        }
        TypeForm::Array(_, _) => {
            let made = spread(bump, starred, ty)?;
            Ok(made)
        }
        TypeForm::Unique(inner) => {
            let made = written_stars(bump, program, true, inner, ty)?;
            Ok(made)
        }
        TypeForm::Arrow(_, from, to) => match function_types(ty) {
            Some(types) => {
                let taken = written_stars(bump, program, false, from, &types[0])?;
                let given = written_stars(bump, program, false, to, &types[1])?;
                let made = arrow(bump, starred, taken, given)?;
                Ok(made)
            }
            None => {
                let made = spread(bump, starred, ty)?;
                Ok(made)
            }
        },
        TypeForm::Tuple(parts) => match tuple_types(ty) {
            Some(types) => {
                let row = part_stars(bump, program, starred, parts, types)?;
                let made = star_row(bump, row)?;
                Ok(made)
            }
            None => {
                let made = spread(bump, starred, ty)?;
                Ok(made)
            }
        },
        TypeForm::Record(fields) => match record_types(ty) {
            Some(record) => {
                let mut row = Vec::new(bump);
                spread_row(bump, starred, record.types, &mut row)?;
                field_stars(
                    bump,
                    program,
                    starred,
                    fields,
                    record.head,
                    record.types,
                    &mut row,
                )?;
                let made = star_row(bump, into_bump_slice(row))?;
                Ok(made)
            }
            None => {
                let made = spread(bump, starred, ty)?;
                Ok(made)
            }
        },
    }
}

#[cycle(written)]
fn part_stars<'a>(
    bump: &'a Bump,
    program: &Program<'_>,
    starred: bool,
    parts: &[TypeExp<'_>],
    types: &[TypeTree<'_>],
) -> Result<&'a [StarTree<'a>], NoMemory>
    requires table { IsTable program.now.names.table.now }
    ensures { (N : Names) → Knows program.now.names N → IfOk result (λ made. row_of made.now ≡ tuple_stars N starred (written_types (map written_type parts.now)) (types_of types.now)) }
{
    let mut made = Vec::new(bump);
    for i in 0..parts.len() {
        if i >= types.len() {
            return Ok(into_bump_slice(made));
        }
        let stars = written_stars(bump, program, starred, &parts[i], &types[i])?;
        made.push(*stars)?;
    }
    Ok(into_bump_slice(made))
}

// The stars of fields, each at its place in a row.
#[cycle(written)]
fn field_stars<'a>(
    bump: &'a Bump,
    program: &Program<'_>,
    starred: bool,
    fields: &[TypeField<'_>],
    head: Head,
    types: &[TypeTree<'_>],
    row: &mut Vec<StarTree<'a>, &'a Bump>,
) -> Result<(), NoMemory>
    requires table { IsTable program.now.names.table.now }
    ensures { (N : Names) → Knows program.now.names N → OnOk result (row_of row.new.items ≡ record_stars N starred (type_names fields.now) (field_types fields.now) head (types_of types.now) (row_of row.old.items)) }
{
    for field in fields {
        let place = place_named(&program.names, head, field.name)?;
        let stars = field_star(bump, program, starred, field, place, types)?;
        put_star(place, stars, row)?;
    }
    Ok(())
}

// The stars of a field where its type stands at a place of a row; none where the row has none there.
#[cycle(written)]
fn field_star<'a>(
    bump: &'a Bump,
    program: &Program<'_>,
    starred: bool,
    field: &TypeField<'_>,
    place: Option<u32>,
    types: &[TypeTree<'_>],
) -> Result<&'a StarTree<'a>, NoMemory>
    requires table { IsTable program.now.names.table.now }
    ensures { (N : Names) → Knows program.now.names N → (p : Option ℕ) → Tells_position place p → IfOk result (λ made. stars_of made.now ≡ of_part (part_at p (types_of types.now)) (λ t. written_stars N starred (written_type field.now.ty) t)) }
{
    match type_in(place, types)? {
        Some(ty) => {
            let made = written_stars(bump, program, starred, &field.ty, ty)?;
            Ok(made)
        }
        None => {
            let none = leaf(bump, false)?;
            Ok(none)
        }
    }
}

/// The stars of a written type at a node, without a star before the whole.
pub fn stars_at<'a>(
    bump: &'a Bump,
    program: &Program<'_>,
    written: &TypeExp<'_>,
    node: u32,
) -> Result<&'a StarTree<'a>, NoMemory>
    requires table { IsTable program.now.names.table.now }
    ensures { (N : Names) → Knows program.now.names N → IfOk result (λ made. stars_of made.now ≡ written_stars N false (written_type written.now) (sub_of program.now.types.now node)) }
{
    let ty = type_at(program, node)?;
    let made = written_stars(bump, program, false, written, ty)?;
    Ok(made)
}

/// The stars that the body of a function at a node declares for its result, if it declares a type.
pub fn declared_stars<'a>(
    bump: &'a Bump,
    program: &Program<'_>,
    exp: &Exp<'_>,
    node: u32,
) -> Result<Option<&'a StarTree<'a>>, NoMemory>
    requires table { IsTable program.now.names.table.now }
    ensures { (N : Names) → Knows program.now.names N → IfOk result (λ found. wanted_of found ≡ declared_stars first_name_alone N (kinds_of program.now.kinds.now) (sub_of program.now.types.now) (term_of exp.now) node) }
{
    match exp.form {
        Form::Strict { act, .. } => match type_declared(&act) {
            Some(written) => {
                let made = stars_at(bump, program, written, node)?;
                Ok(Some(made))
            }
            None => Ok(None),
        },
        Form::Lets(lets, body) => {
            if !lets.is_empty() {
                return Ok(None);
            }
            let found = declared_stars(bump, program, body, node)?;
            Ok(found)
        }
        Form::Use(_, _) => Ok(None),
        Form::Lambda(_, _) => Ok(None),
        Form::Apply(_, _) => Ok(None),
        Form::If(_, _, _) => Ok(None),
        Form::Loop(_) => Ok(None),
    }
}

// The type that an operation declares, if it does.
fn type_declared<'a>(act: &Act<'a>) -> Option<&'a TypeExp<'a>>
    ensures { type_held result ≡ type_declared (operation_of act.now) }
{
    match *act {
        Act::Declared(written) => Some(written),
        Act::Int { .. }
        | Act::Truth(_)
        | Act::Tuple
        | Act::Record(_)
        | Act::Array
        | Act::Binary(_)
        | Act::Negate
        | Act::Complement
        | Act::Index(_)
        | Act::Project(_)
        | Act::Update
        | Act::Replace(_)
        | Act::Ascribe(_)
        | Act::Coerce(_)
        | Act::Assert
        | Act::Range { .. } => None,
    }
}
