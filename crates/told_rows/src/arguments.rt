// What primitives tell of their results, by the data that they have and that is to come.
ghost use Rattle.std.specs.Prelude.{◌≡◌, ◌∷◌, ◌++◌, [], IfOk, OnOk, map};
ghost use Rattle.fut_blocks.specs.Rows.{Array_row, Unzipped_row, extent_of, row_of};
ghost use Rattle.told_rows.specs.Arguments.{argument_of, arguments_of, rows_of, tells_by, told_of};
ghost use Rattle.unfold.specs.Held.{known_of};
ghost use Rattle.unfold.specs.Knowns.{known_and, knowns, no_known};
ghost use Rattle.unfold.specs.Telling.{Of_row, Of_rows, argument_row, data_told, first_row, i64_row, is_function, last_row, length_of, mapped_rows, primitive_tells, replicated, rows_in, to_come, unflattened, zipped_row};

use crate::knowns::{known_row, known_worth};
use crate::rules::{Rule, rule_of};
use crate::shapes::{length_of, rows_in, shape, unknown};
use bumpalo::Bump;
use bumpalo::collections::into_bump_slice;
use fut_blocks::{Extent, RowShape};
use fut_flat::Primitive;
use fut_scalar::{IntType, NoMemory, ScalarType};
use std::slice;
use unfold::{Known, KnownForm};

/// Data that a primitive has as an argument: its shape, and what it is worth as a size.
#[derive(Clone, Copy)]
pub struct Argument<'a> {
    pub row: &'a RowShape<'a>,
    pub worth: Extent<'a>,
}

/// What a primitive tells of its result.
#[derive(Clone, Copy)]
pub enum Told<'a> {
    Row(&'a RowShape<'a>),
    /// So many rows of what its function gives for arguments of these shapes.
    Rows(Extent<'a>, &'a [RowShape<'a>]),
}

/// Whether a value is a function.
pub fn is_function(known: &Known<'_>) -> bool
    ensures { result ≡ is_function (known_of known.now) }
{
    match known.form {
        KnownForm::Scalar(_) => false,
        KnownForm::Tuple(_) => false,
        KnownForm::Record(_) => false,
        KnownForm::Function(_) => true,
        KnownForm::Primitive(_, _, _) => true,
    }
}

// An argument, where it is data, behind others.
fn add_part<'a>(
    part: &Known<'a>,
    made: &mut Vec<Argument<'a>, &'a Bump>,
    bump: &'a Bump,
) -> Result<(), NoMemory>
    ensures { OnOk result (arguments_of made.new.items ≡ arguments_of made.old.items ++ data_told (known_and (known_of part.now) no_known) []) }
{
    if is_function(part) {
        return Ok(());
    }
    let row = known_row(part, bump)?;
    let worth = known_worth(part);
    made.push(Argument { row, worth })?;
    Ok(())
}

// The arguments that are data, behind others.
fn add_data<'a>(
    parts: &[Known<'a>],
    made: &mut Vec<Argument<'a>, &'a Bump>,
    bump: &'a Bump,
) -> Result<(), NoMemory>
    ensures { OnOk result (arguments_of made.new.items ≡ arguments_of made.old.items ++ data_told (knowns (map known_of parts.now)) []) }
{
    for part in parts {
        add_part(part, made, bump)?;
    }
    Ok(())
}

// Those that are still to come, behind others.
fn add_rows<'a>(
    rows: &'a [RowShape<'a>],
    made: &mut Vec<Argument<'a>, &'a Bump>,
) -> Result<(), NoMemory>
    ensures { OnOk result (arguments_of made.new.items ≡ arguments_of made.old.items ++ to_come (rows_of rows.now)) }
{
    for row in rows {
        made.push(Argument {
            row,
            worth: Extent::Nowhere,
        })?;
    }
    Ok(())
}

// All data of a primitive that has these arguments, where data of these shapes is to come.
fn arguments_in<'a>(
    parts: &[Known<'a>],
    rows: &'a [RowShape<'a>],
    bump: &'a Bump,
) -> Result<&'a [Argument<'a>], NoMemory>
    ensures { IfOk result (λ made. arguments_of made.now ≡ data_told (knowns (map known_of parts.now)) (to_come (rows_of rows.now))) }
{
    let mut made = Vec::new(bump);
    add_data(parts, &mut made, bump)?;
    add_rows(rows, &mut made)?;
    Ok(into_bump_slice(made))
}

// The rows of arguments.
fn argument_rows<'a>(
    arguments: &[Argument<'a>],
    bump: &'a Bump,
) -> Result<&'a [RowShape<'a>], NoMemory>
    ensures { IfOk result (λ made. rows_of made.now ≡ map argument_row (arguments_of arguments.now)) }
{
    let mut made = Vec::new(bump);
    for argument in arguments {
        let row = rows_in(argument.row, bump)?;
        made.push(*row)?;
    }
    Ok(into_bump_slice(made))
}

// An array of so many rows.
#[tactic(auto, using(fut_blocks::proofs::Layers::row_forms))]
fn array_told<'a>(
    many: Extent<'a>,
    row: &'a RowShape<'a>,
    bump: &'a Bump,
) -> Result<Told<'a>, NoMemory>
    ensures { IfOk result (λ told. told_of told ≡ Of_row (Array_row (extent_of many.entry) (row_of row.now))) }
{
    let made = shape(bump, RowShape::Array(many, row))?;
    Ok(Told::Row(made))
}

// Integers.
#[tactic(auto, using(fut_blocks::proofs::Layers::row_forms))]
fn i64_row<'a>(bump: &'a Bump) -> Result<&'a RowShape<'a>, NoMemory>
    ensures { IfOk result (λ row. row_of row.now ≡ i64_row) }
{
    shape(bump, RowShape::Scalar(ScalarType::Int(IntType::I64)))
}

fn mapped_rows<'a>(arguments: &[Argument<'a>], bump: &'a Bump) -> Result<Told<'a>, NoMemory>
    ensures { IfOk result (λ told. told_of told ≡ mapped_rows (arguments_of arguments.now)) }
{
    if arguments.len() == 0 {
        return Ok(Told::Row(unknown()));
    }
    let many = length_of(arguments[0].row, bump)?;
    let rows = argument_rows(arguments, bump)?;
    Ok(Told::Rows(many, rows))
}

fn zipped_row<'a>(arguments: &[Argument<'a>], bump: &'a Bump) -> Result<Told<'a>, NoMemory>
    ensures { IfOk result (λ told. told_of told ≡ zipped_row (arguments_of arguments.now)) }
{
    if arguments.len() == 0 {
        return Ok(Told::Row(unknown()));
    }
    let many = length_of(arguments[0].row, bump)?;
    let rows = argument_rows(arguments, bump)?;
    let tuple = shape(bump, RowShape::Tuple(rows))?;
    array_told(many, tuple, bump)
}

fn first_row<'a>(arguments: &[Argument<'a>]) -> Told<'a>
    ensures { told_of result ≡ first_row (arguments_of arguments.now) }
{
    if arguments.len() == 0 {
        return Told::Row(unknown());
    }
    Told::Row(arguments[0].row)
}

fn last_row<'a>(arguments: &[Argument<'a>]) -> Told<'a>
    ensures { told_of result ≡ last_row (arguments_of arguments.now) }
{
    if arguments.len() == 0 {
        return Told::Row(unknown());
    }
    Told::Row(arguments[arguments.len() - 1].row)
}

#[tactic(auto, using(fut_blocks::proofs::Layers::row_forms))]
fn replicated<'a>(arguments: &[Argument<'a>], bump: &'a Bump) -> Result<Told<'a>, NoMemory>
    ensures { IfOk result (λ told. told_of told ≡ replicated (arguments_of arguments.now)) }
{
    if arguments.len() != 2 {
        return Ok(Told::Row(unknown()));
    }
    array_told(arguments[0].worth, arguments[1].row, bump)
}

#[tactic(auto, using(fut_blocks::proofs::Layers::row_forms))]
fn unflattened<'a>(arguments: &[Argument<'a>], bump: &'a Bump) -> Result<Told<'a>, NoMemory>
    ensures { IfOk result (λ told. told_of told ≡ unflattened (arguments_of arguments.now)) }
{
    if arguments.len() != 3 {
        return Ok(Told::Row(unknown()));
    }
    let rows = rows_in(arguments[2].row, bump)?;
    let inner = shape(bump, RowShape::Array(arguments[1].worth, rows))?;
    array_told(arguments[0].worth, inner, bump)
}

// So many rows of what the function gives for integers.
#[tactic(auto, using(fut_blocks::proofs::Layers::row_forms))]
fn tabulated<'a>(many: Extent<'a>, bump: &'a Bump) -> Result<Told<'a>, NoMemory>
    ensures { IfOk result (λ told. told_of told ≡ Of_rows (extent_of many.entry) (i64_row ∷ [])) }
{
    let row = i64_row(bump)?;
    Ok(Told::Rows(many, slice::from_ref(row)))
}

#[tactic(auto, using(fut_blocks::proofs::Layers::row_forms))]
fn transposed<'a>(row: &'a RowShape<'a>, bump: &'a Bump) -> Result<Told<'a>, NoMemory>
    ensures { IfOk result (λ told. told_of told ≡ Of_row (Array_row (length_of (rows_in (row_of row.now))) (Array_row (length_of (row_of row.now)) (rows_in (rows_in (row_of row.now)))))) }
{
    let rows = rows_in(row, bump)?;
    let outer = length_of(rows, bump)?;
    let many = length_of(row, bump)?;
    let elements = rows_in(rows, bump)?;
    let inner = shape(bump, RowShape::Array(many, elements))?;
    array_told(outer, inner, bump)
}

#[tactic(auto, using(fut_blocks::proofs::Layers::row_forms))]
fn unzipped_row<'a>(row: &'a RowShape<'a>, bump: &'a Bump) -> Result<Told<'a>, NoMemory>
    ensures { IfOk result (λ told. told_of told ≡ Of_row (Unzipped_row (length_of (row_of row.now)) (rows_in (row_of row.now)))) }
{
    let many = length_of(row, bump)?;
    let rows = rows_in(row, bump)?;
    let made = shape(bump, RowShape::Unzipped(many, rows))?;
    Ok(Told::Row(made))
}

#[tactic(auto, using(fut_blocks::proofs::Layers::row_forms))]
fn element_row<'a>(row: &'a RowShape<'a>, bump: &'a Bump) -> Result<Told<'a>, NoMemory>
    ensures { IfOk result (λ told. told_of told ≡ Of_row (rows_in (row_of row.now))) }
{
    let made = rows_in(row, bump)?;
    Ok(Told::Row(made))
}

#[tactic(auto, using(fut_blocks::proofs::Layers::row_forms))]
fn indices_row<'a>(row: &'a RowShape<'a>, bump: &'a Bump) -> Result<Told<'a>, NoMemory>
    ensures { IfOk result (λ told. told_of told ≡ Of_row (Array_row (length_of (row_of row.now)) i64_row)) }
{
    let many = length_of(row, bump)?;
    let element = i64_row(bump)?;
    array_told(many, element, bump)
}

#[tactic(auto, using(fut_blocks::proofs::Layers::row_forms))]
fn counted<'a>(many: Extent<'a>, bump: &'a Bump) -> Result<Told<'a>, NoMemory>
    ensures { IfOk result (λ told. told_of told ≡ Of_row (Array_row (extent_of many.entry) i64_row)) }
{
    let element = i64_row(bump)?;
    array_told(many, element, bump)
}

// By a rule for one argument.
fn told_by_one<'a>(rule: Rule, argument: Argument<'a>, bump: &'a Bump) -> Result<Told<'a>, NoMemory>
    ensures { IfOk result (λ told. told_of told ≡ tells_by rule (argument_of argument.entry ∷ [])) }
{
    match rule {
        Rule::Same => Ok(Told::Row(argument.row)),
        Rule::Element => element_row(argument.row, bump),
        Rule::Unzipped => unzipped_row(argument.row, bump),
        Rule::Counted => counted(argument.worth, bump),
        Rule::Tabulated => tabulated(argument.worth, bump),
        Rule::Indices => indices_row(argument.row, bump),
        Rule::Transposed => transposed(argument.row, bump),
        _ => Err(NoMemory),
    }
}

// By a rule.
#[tactic(auto, using(fut_blocks::proofs::Layers::row_forms))]
fn told_by<'a>(
    rule: Rule,
    arguments: &'a [Argument<'a>],
    bump: &'a Bump,
) -> Result<Told<'a>, NoMemory>
    ensures { IfOk result (λ told. told_of told ≡ tells_by rule (arguments_of arguments.now)) }
{
    match rule {
        Rule::Mapped => mapped_rows(arguments, bump),
        Rule::First => Ok(first_row(arguments)),
        Rule::Last => Ok(last_row(arguments)),
        Rule::Zipped => zipped_row(arguments, bump),
        Rule::Replicated => replicated(arguments, bump),
        Rule::Unflattened => unflattened(arguments, bump),
        Rule::Scalar(ty) => {
            let row = shape(bump, RowShape::Scalar(ty))?;
            Ok(Told::Row(row))
        }
        Rule::Unknown => Ok(Told::Row(unknown())),
        _ => {
            if arguments.len() == 1 {
                told_by_one(rule, arguments[0], bump)
            } else {
                Ok(Told::Row(unknown()))
            }
        }
    }
}

/// What a primitive that has these arguments tells of its result, where data of these shapes is to come.
pub fn primitive_told<'a>(
    primitive: Primitive,
    parts: &[Known<'a>],
    rows: &'a [RowShape<'a>],
    bump: &'a Bump,
) -> Result<Told<'a>, NoMemory>
    ensures { IfOk result (λ told. told_of told ≡ primitive_tells primitive (data_told (knowns (map known_of parts.now)) (to_come (rows_of rows.now)))) }
{
    let arguments = arguments_in(parts, rows, bump)?;
    told_by(rule_of(primitive), arguments, bump)
}
