// The shapes of values that are known before a program runs.
ghost use Rattle.std.specs.Prelude.{◌≡◌, IfOk, map};
ghost use Rattle.fut_blocks.specs.Rows as blocks;
ghost use Rattle.fut_blocks.specs.Rows.{extent_of, named_row_of, row_of, rows};
ghost use Rattle.unfold.specs.Held.{field_of, fields_known, known_of};
ghost use Rattle.unfold.specs.Knowns.{knowns};
ghost use Rattle.unfold.specs.Telling.{field_rows, known_row, known_rows, known_worth};

use crate::shapes::{shape, unknown};
use bumpalo::Bump;
use bumpalo::collections::into_bump_slice;
use fut_blocks::{Extent, FieldShape, RowShape};
use fut_scalar::NoMemory;
use unfold::{Field, Known, KnownForm};

/// The shape of a value; that of a function is not known.
#[cycle(shapes)]
pub fn known_row<'a>(known: &Known<'a>, bump: &'a Bump) -> Result<&'a RowShape<'a>, NoMemory>
    ensures { IfOk result (λ made. row_of made.now ≡ known_row (known_of known.now)) }
{
    match known.form {
        KnownForm::Scalar(atom) => shape(bump, RowShape::Data(atom)),
        KnownForm::Tuple(parts) => {
            let rows = known_rows(parts, bump)?;
            shape(bump, RowShape::Tuple(rows))
        }
        KnownForm::Record(fields) => {
            let rows = field_rows(fields, bump)?;
            shape(bump, RowShape::Record(rows))
        }
        KnownForm::Function(_) => Ok(unknown()),
        KnownForm::Primitive(_, _, _) => Ok(unknown()),
    }
}

#[cycle(shapes)]
fn known_rows<'a>(parts: &'a [Known<'a>], bump: &'a Bump) -> Result<&'a [RowShape<'a>], NoMemory>
    ensures { IfOk result (λ made. rows (map row_of made.now) ≡ known_rows (knowns (map known_of parts.now))) }
{
    let mut made = Vec::new(bump);
    for part in parts {
        let row = known_row(part, bump)?;
        made.push(*row)?;
    }
    Ok(into_bump_slice(made))
}

#[cycle(shapes)]
fn field_rows<'a>(fields: &'a [Field<'a>], bump: &'a Bump) -> Result<&'a [FieldShape<'a>], NoMemory>
    ensures { IfOk result (λ made. blocks.named_rows (map named_row_of made.now) ≡ field_rows (fields_known (map field_of fields.now))) }
{
    let mut made = Vec::new(bump);
    for field in fields {
        let row = known_row(&field.known, bump)?;
        made.push(FieldShape {
            name: field.name,
            row: *row,
        })?;
    }
    Ok(into_bump_slice(made))
}

/// What a value is worth as a size.
pub fn known_worth<'a>(known: &Known<'a>) -> Extent<'a>
    ensures { extent_of result ≡ known_worth (known_of known.now) }
{
    match known.form {
        KnownForm::Scalar(atom) => Extent::Worth(atom),
        KnownForm::Tuple(_) => Extent::Nowhere,
        KnownForm::Record(_) => Extent::Nowhere,
        KnownForm::Function(_) => Extent::Nowhere,
        KnownForm::Primitive(_, _, _) => Extent::Nowhere,
    }
}
