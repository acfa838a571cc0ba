// Shapes that are made, and parts of shapes: of what is made of parts, the part itself.
ghost use Rattle.std.specs.Prelude.{◌≡◌, IfOk, map};
ghost use Rattle.fut_blocks.specs.Rows.{Field_of, Length_of, Part_of, Rows_of, Unknown_row, extent_of, named_row_of, named_rows, row_of, rows};
ghost use Rattle.told_rows.specs.Shapes.{length_or, row_or};
ghost use Rattle.unfold.specs.Telling.{as_many, field_at, field_in, length_of, part_at, part_in, rows_in};

use bumpalo::Bump;
use fut_blocks::{Extent, FieldShape, RowShape};
use fut_scalar::NoMemory;

static UNKNOWN: RowShape<'static> = RowShape::Unknown;

/// Nothing tells it.
#[tactic(auto, using(fut_blocks::proofs::Layers::row_forms))]
pub fn unknown<'a>() -> &'a RowShape<'a>
    ensures { row_of result.now ≡ Unknown_row }
{
    &UNKNOWN
}

/// This shape in the arena.
pub fn shape<'a>(bump: &'a Bump, row: RowShape<'a>) -> Result<&'a RowShape<'a>, NoMemory>
    ensures { IfOk result (λ made. made.now ≡ row.entry) }
{
    match bump.try_alloc(row) {
        Ok(made) => Ok(made),
        Err(_) => Err(NoMemory),
    }
}

// The rows of what is told as an array.
#[tactic(auto, using(fut_blocks::proofs::Layers::row_forms))]
fn rows_told<'a>(row: &'a RowShape<'a>) -> Option<&'a RowShape<'a>>
    ensures { row_or (Rows_of (row_of row.now)) result ≡ rows_in (row_of row.now) }
{
    match row {
        RowShape::Array(_, under) => Some(*under),
        RowShape::Unknown | RowShape::Scalar(_) | RowShape::Tuple(_) | RowShape::Record(_) => None,
        RowShape::Data(_) | RowShape::Rows(_) | RowShape::Part(_, _) => None,
        RowShape::Field(_, _) | RowShape::Unzipped(_, _) => None,
    }
}

/// That of an array's rows.
#[tactic(auto, using(fut_blocks::proofs::Layers::row_forms))]
pub fn rows_in<'a>(row: &'a RowShape<'a>, bump: &'a Bump) -> Result<&'a RowShape<'a>, NoMemory>
    ensures { IfOk result (λ made. row_of made.now ≡ rows_in (row_of row.now)) }
{
    match rows_told(row) {
        Some(under) => Ok(under),
        None => shape(bump, RowShape::Rows(row)),
    }
}

// One of these shapes. A tuple has no others.
#[tactic(auto, using(crate::proofs::ShapeForms::parts))]
fn part_at<'a>(number: u32, parts: &'a [RowShape<'a>]) -> &'a RowShape<'a>
    ensures { row_of result.now ≡ part_at number (rows (map row_of parts.now)) }
{
    let at = number as usize;
    if at < parts.len() {
        return &parts[at];
    }
    unknown()
}

// The part of what is told as a tuple.
#[tactic(auto, using(fut_blocks::proofs::Layers::row_forms))]
fn part_told<'a>(number: u32, row: &'a RowShape<'a>) -> Option<&'a RowShape<'a>>
    ensures { row_or (Part_of number (row_of row.now)) result ≡ part_in number (row_of row.now) }
{
    match row {
        RowShape::Tuple(rows) => Some(part_at(number, *rows)),
        RowShape::Unknown | RowShape::Scalar(_) | RowShape::Record(_) | RowShape::Array(_, _) =>
            None,
        RowShape::Data(_) | RowShape::Rows(_) | RowShape::Part(_, _) => None,
        RowShape::Field(_, _) | RowShape::Unzipped(_, _) => None,
    }
}

/// That of a tuple's part.
#[tactic(auto, using(fut_blocks::proofs::Layers::row_forms))]
pub fn part_in<'a>(
    number: u32,
    row: &'a RowShape<'a>,
    bump: &'a Bump,
) -> Result<&'a RowShape<'a>, NoMemory>
    ensures { IfOk result (λ made. row_of made.now ≡ part_in number (row_of row.now)) }
{
    match part_told(number, row) {
        Some(part) => Ok(part),
        None => shape(bump, RowShape::Part(number, row)),
    }
}

// The shape of the first field of that name.
fn field_at<'a>(name: &str, fields: &'a [FieldShape<'a>]) -> &'a RowShape<'a>
    ensures { row_of result.now ≡ field_at name.now (named_rows (map named_row_of fields.now)) }
{
    for field in fields {
        if field.name == name {
            return &field.row;
        }
    }
    unknown()
}

// The field of what is told as a record.
#[tactic(auto, using(fut_blocks::proofs::Layers::row_forms))]
fn field_told<'a>(name: &str, row: &'a RowShape<'a>) -> Option<&'a RowShape<'a>>
    ensures { row_or (Field_of name.now (row_of row.now)) result ≡ field_in name.now (row_of row.now) }
{
    match row {
        RowShape::Record(fields) => Some(field_at(name, *fields)),
        RowShape::Unknown | RowShape::Scalar(_) | RowShape::Tuple(_) | RowShape::Array(_, _) =>
            None,
        RowShape::Data(_) | RowShape::Rows(_) | RowShape::Part(_, _) => None,
        RowShape::Field(_, _) | RowShape::Unzipped(_, _) => None,
    }
}

/// That of a field.
#[tactic(auto, using(fut_blocks::proofs::Layers::row_forms))]
pub fn field_in<'a>(
    name: &'a str,
    row: &'a RowShape<'a>,
    bump: &'a Bump,
) -> Result<&'a RowShape<'a>, NoMemory>
    ensures { IfOk result (λ made. row_of made.now ≡ field_in name.now (row_of row.now)) }
{
    match field_told(name, row) {
        Some(field) => Ok(field),
        None => shape(bump, RowShape::Field(name, row)),
    }
}

// As many rows as an extent says.
#[tactic(auto, using(fut_blocks::proofs::Layers::row_forms))]
fn as_many<'a>(many: Extent<'a>, bump: &'a Bump) -> Result<Extent<'a>, NoMemory>
    ensures { IfOk result (λ length. extent_of length ≡ as_many (extent_of many.entry)) }
{
    match many {
        Extent::Nowhere => Ok(Extent::Exactly(0)),
        Extent::Exactly(_) => Ok(many),
        Extent::Worth(_) => {
            let row = shape(bump, RowShape::Array(many, unknown()))?;
            Ok(Extent::Length(row))
        }
        Extent::Length(_) => Ok(many),
    }
}

// How many rows what is told as an array has.
#[tactic(auto, using(fut_blocks::proofs::Layers::row_forms))]
fn many_told<'a>(row: &RowShape<'a>) -> Option<Extent<'a>>
    ensures { length_or (Length_of (row_of row.now)) result ≡ length_of (row_of row.now) }
{
    match row {
        RowShape::Array(many, _) => Some(*many),
        RowShape::Unknown | RowShape::Scalar(_) | RowShape::Tuple(_) | RowShape::Record(_) => None,
        RowShape::Data(_) | RowShape::Rows(_) | RowShape::Part(_, _) => None,
        RowShape::Field(_, _) | RowShape::Unzipped(_, _) => None,
    }
}

/// How many rows there are.
#[tactic(auto, using(fut_blocks::proofs::Layers::row_forms))]
pub fn length_of<'a>(row: &'a RowShape<'a>, bump: &'a Bump) -> Result<Extent<'a>, NoMemory>
    ensures { IfOk result (λ length. extent_of length ≡ length_of (row_of row.now)) }
{
    match many_told(row) {
        Some(many) => as_many(many, bump),
        None => Ok(Extent::Length(row)),
    }
}
