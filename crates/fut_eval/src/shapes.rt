// What rows look like where an array has none to show it, and what sizes are worth.
ghost use Rattle.std.specs.Prelude.{map};
ghost use Rattle.fut_blocks.specs.Rows.{Length_of, Shape_of, Worth_of, extent_of, row_of};
ghost use Rattle.array_data.specs.Held.{held_all};
ghost use Rattle.form_parts.specs.Met.{as_shape};
ghost use Rattle.fut_eval.specs.Shapes.{Extent_told, Missing_told, Row_told, Rows_told, as_length, as_shapes, as_size, field_rows};

use crate::names::read;
use crate::slots::Slot;
use array_data::{Exact, Form, Stop, sort_of};
use form_parts::{
    array_form, arrays_form, counted, data_worth, field_form, length_of, part_form, record_form,
    rows_form,
};
use fut_blocks::{Atom, Extent, FieldShape, RowShape};
use fut_scalar::List;
use std::alloc::Global;

/// Shapes are no deeper than this, as data.
pub const MOST_DEEP: u32 = 1_000;

/// The form of the rows of an array of so many. It is looked up where there are none alone.
#[tactic(auto, using(crate::proofs::Shaping::missing_rows))]
pub fn missing_form(
    alloc: Global,
    row: &RowShape,
    many: usize,
    table: &[Slot],
) -> Result<Form, Stop>
    ensures { Missing_told (held_all table.now) (row_of row.now) many (as_shape result) }
{
    if many > 0 {
        return Ok(Form::Unmet);
    }
    told_form(alloc, row, MOST_DEEP, table)
}

/// The form of an atom's data, also where that was given up.
#[tactic(auto, using(crate::proofs::Shaping::data_forms))]
fn data_form(alloc: Global, atom: Atom, table: &[Slot]) -> Result<Form, Stop>
    ensures { Row_told (held_all table.now) (Shape_of atom) (as_shape result) }
{
    match atom {
        Atom::Name(name) => {
            let at = name as usize;
            if at >= table.len() {
                return Err(Stop::Stuck);
            }
            table[at].form(alloc)
        }
        Atom::Constant(scalar) => Ok(Form::Scalar(sort_of(scalar))),
    }
}

/// How many rows an atom's array has, also where that was given up.
#[tactic(auto, using(crate::proofs::Shaping::data_lengths))]
fn data_length(atom: Atom, table: &[Slot]) -> Result<u64, Stop>
    ensures { Extent_told (held_all table.now) (Length_of (Shape_of atom)) (as_length result) }
{
    match atom {
        Atom::Name(name) => {
            let at = name as usize;
            if at >= table.len() {
                return Err(Stop::Stuck);
            }
            Ok(table[at].length())
        }
        Atom::Constant(_) => Ok(0),
    }
}

/// The integer that an atom is worth as a size.
#[tactic(auto, using(crate::proofs::Shaping::atom_sizes))]
fn atom_worth(atom: Atom, table: &[Slot]) -> Result<Option<Exact>, Stop>
    ensures { Extent_told (held_all table.now) (Worth_of atom) (as_size result) }
{
    let value = read(table, atom)?;
    Ok(data_worth(&value))
}

/// A form that is told, by a row that is no deeper than there is room.
#[tactic(auto, using(crate::proofs::Shaping::row_forms))]
#[cycle(rows)]
pub fn told_form(alloc: Global, row: &RowShape, room: u32, table: &[Slot]) -> Result<Form, Stop>
    ensures { Row_told (held_all table.now) (row_of row.now) (as_shape result) }
{
    if room == 0 {
        return Err(Stop::Memory);
    }
    match row {
        RowShape::Unknown => Ok(Form::Unmet),
        RowShape::Scalar(ty) => Ok(Form::Scalar(*ty)),
        RowShape::Tuple(rows) => {
            let forms = told_forms(alloc, rows, room - 1, table)?;
            Ok(Form::Tuple(forms))
        }
        RowShape::Record(fields) => {
            let forms = told_fields(alloc, fields, room - 1, table)?;
            record_form(alloc, fields, forms)
        }
        RowShape::Array(extent, row) => {
            let size = extent_at(alloc, extent, room - 1, table)?;
            let form = told_form(alloc, row, room - 1, table)?;
            array_form(alloc, counted(size), form)
        }
        RowShape::Data(atom) => data_form(alloc, *atom, table),
        RowShape::Rows(row) => {
            let whole = told_form(alloc, row, room - 1, table)?;
            rows_form(alloc, &whole)
        }
        RowShape::Part(at, row) => {
            let whole = told_form(alloc, row, room - 1, table)?;
            part_form(alloc, *at, &whole)
        }
        RowShape::Field(name, row) => {
            let whole = told_form(alloc, row, room - 1, table)?;
            field_form(alloc, name, &whole)
        }
        RowShape::Unzipped(extent, row) => {
            let size = extent_at(alloc, extent, room - 1, table)?;
            let form = told_form(alloc, row, room - 1, table)?;
            arrays_form(alloc, counted(size), &form)
        }
    }
}

/// The form of each.
#[tactic(auto, using(crate::proofs::Shaping::all_row_forms))]
#[cycle(rows)]
fn told_forms(
    alloc: Global,
    rows: &[RowShape],
    room: u32,
    table: &[Slot],
) -> Result<List<Form>, Stop>
    ensures { Rows_told (held_all table.now) (map row_of rows.now) (as_shapes result) }
{
    let mut forms = List::new(alloc);
    for row in rows {
        let form = told_form(alloc, row, room, table)?;
        forms.push(form)?;
    }
    Ok(forms)
}

/// The form of each field.
#[tactic(auto, using(crate::proofs::Shaping::all_field_forms))]
#[cycle(rows)]
fn told_fields(
    alloc: Global,
    fields: &[FieldShape],
    room: u32,
    table: &[Slot],
) -> Result<List<Form>, Stop>
    ensures { Rows_told (held_all table.now) (field_rows fields.now) (as_shapes result) }
{
    let mut forms = List::new(alloc);
    for field in fields {
        let form = told_form(alloc, &field.row, room, table)?;
        forms.push(form)?;
    }
    Ok(forms)
}

/// The integer that a size is worth, where one is told.
#[tactic(auto, using(crate::proofs::Shaping::extents))]
#[cycle(rows)]
pub fn extent_at(
    alloc: Global,
    extent: &Extent,
    room: u32,
    table: &[Slot],
) -> Result<Option<Exact>, Stop>
    ensures { Extent_told (held_all table.now) (extent_of extent.now) (as_size result) }
{
    match extent {
        Extent::Nowhere => Ok(None),
        Extent::Exactly(many) => Ok(Some(Exact::Natural(*many))),
        Extent::Worth(atom) => atom_worth(*atom, table),
        Extent::Length(row) => {
            let length = length_at(alloc, row, room, table)?;
            Ok(Some(Exact::Natural(length)))
        }
    }
}

/// How many rows an array of a shape has: 0 where it is none.
#[tactic(auto, using(crate::proofs::Shaping::lengths))]
#[cycle(rows)]
fn length_at(alloc: Global, row: &RowShape, room: u32, table: &[Slot]) -> Result<u64, Stop>
    ensures { Extent_told (held_all table.now) (Length_of (row_of row.now)) (as_length result) }
{
    if let RowShape::Data(atom) = row {
        return data_length(*atom, table);
    }
    let form = told_form(alloc, row, room, table)?;
    Ok(length_of(&form))
}
