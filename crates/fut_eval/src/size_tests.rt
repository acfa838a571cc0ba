// What sizes are worth as numbers, and whether data has the sizes that it has to have.
ghost use Rattle.std.specs.Prelude.{map};
ghost use Rattle.fut_blocks.specs.Plain.{Size_of};
ghost use Rattle.fut_blocks.specs.Rows.{Array_test, extent_of, row_of, test_of};
ghost use Rattle.array_data.specs.Held.{held_all, named_shapes, shape_held, shapes};
ghost use Rattle.fut_eval.specs.Runs.{Coerces, Made_runs};
ghost use Rattle.fut_eval.specs.Shapes.{All_pass, Field_passes, Named_pass, Passes, Rows_pass, tested_fields};

use crate::names::push;
use crate::shapes::{MOST_DEEP, extent_at, told_form};
use crate::slots::Slot;
use array_data::{Data, Form, Stop, failed};
use form_parts::{agrees, counted, field_at};
use fut_blocks::{Extent, FieldTest, RowShape, SizeTest};
use fut_scalar::{FailKind, IntType, Name, Place, Scalar};
use std::alloc::Global;

/// Puts on the stack what a size is worth.
#[tactic(auto, using(crate::proofs::Testing::size_acts))]
pub fn put_size(
    alloc: Global,
    extent: &Extent,
    table: &[Slot],
    stack: &mut Vec<Data>,
) -> Result<(), Stop>
    ensures { Made_runs (Size_of (extent_of extent.now)) (held_all table.now) (held_all stack.old.items) (held_all stack.new.items) result }
{
    let size = extent_at(alloc, extent, MOST_DEEP, table)?;
    push(
        stack,
        Data::Scalar(Scalar::Int {
            ty: IntType::I64,
            bits: counted(size),
        }),
    )
}

/// Whether data of a shape has the sizes that it has to have, or else the report.
#[tactic(auto, using(crate::proofs::Testing::coerce_acts))]
pub fn coerce(
    alloc: Global,
    place: Place,
    test: &SizeTest,
    row: &RowShape,
    table: &[Slot],
) -> Result<(), Stop>
    ensures { Coerces (held_all table.now) place (test_of test.now) (row_of row.now) result }
{
    let form = told_form(alloc, row, MOST_DEEP, table)?;
    let passed = passes(alloc, test, &form, MOST_DEEP, table)?;
    if passed {
        Ok(())
    } else {
        Err(failed(FailKind::Size, place))
    }
}

/// Whether data of a form has the sizes, which are no deeper than there is room.
#[tactic(auto, using(crate::proofs::Testing::size_tests))]
#[cycle(passing)]
fn passes(
    alloc: Global,
    test: &SizeTest,
    form: &Form,
    room: u32,
    table: &[Slot],
) -> Result<bool, Stop>
    ensures { Passes (held_all table.now) (test_of test.now) (shape_held form.now) result }
{
    if room == 0 {
        return Err(Stop::Memory);
    }
    match test {
        SizeTest::Any => Ok(true),
        SizeTest::Array(extent, rows) => array_passes(alloc, extent, rows, form, room - 1, table),
        SizeTest::Tuple(tests) => match form {
            Form::Tuple(forms) => all_pass(alloc, tests, forms.as_slice(), room - 1, table),
            Form::Unmet | Form::Scalar(_) | Form::Record(_, _) | Form::Array(_, _) => Ok(true),
        },
        SizeTest::Record(fields) => match form {
            Form::Record(names, forms) => named_pass(
                alloc,
                fields,
                names.get().as_slice(),
                forms.as_slice(),
                room - 1,
                table,
            ),
            Form::Unmet | Form::Scalar(_) | Form::Tuple(_) | Form::Array(_, _) => Ok(true),
        },
    }
}

/// The same of an array.
#[tactic(auto, using(crate::proofs::Testing::array_tests))]
#[cycle(passing)]
fn array_passes(
    alloc: Global,
    extent: &Extent,
    rows: &SizeTest,
    form: &Form,
    room: u32,
    table: &[Slot],
) -> Result<bool, Stop>
    ensures { Passes (held_all table.now) (Array_test (extent_of extent.now) (test_of rows.now)) (shape_held form.now) result }
{
    match form {
        Form::Array(many, row) => { rows_pass(alloc, extent, rows, *many, row.get(), room, table) }
        Form::Unmet => rows_pass(alloc, extent, rows, 0, form, room, table),
        Form::Scalar(_) | Form::Tuple(_) | Form::Record(_, _) => Ok(true),
    }
}

/// Whether an array of so many rows of a form has the sizes.
#[tactic(auto, using(crate::proofs::Testing::rows_tests))]
#[cycle(passing)]
fn rows_pass(
    alloc: Global,
    extent: &Extent,
    rows: &SizeTest,
    many: u64,
    row: &Form,
    room: u32,
    table: &[Slot],
) -> Result<bool, Stop>
    ensures { Rows_pass (held_all table.now) (extent_of extent.now) (test_of rows.now) many (shape_held row.now) result }
{
    let size = extent_at(alloc, extent, MOST_DEEP, table)?;
    if !agrees(size, many) {
        return Ok(false);
    }
    passes(alloc, rows, row, room, table)
}

/// Whether all parts have their sizes.
#[tactic(auto, using(crate::proofs::Testing::all_tests))]
#[cycle(passing)]
fn all_pass(
    alloc: Global,
    tests: &[SizeTest],
    forms: &[Form],
    room: u32,
    table: &[Slot],
) -> Result<bool, Stop>
    ensures { All_pass (held_all table.now) (map test_of tests.now) (map shape_held forms.now) result }
{
    for i in 0..tests.len() {
        if i >= forms.len() {
            return Ok(true);
        }
        let passed = passes(alloc, &tests[i], &forms[i], room, table)?;
        if !passed {
            return Ok(false);
        }
    }
    Ok(true)
}

/// Whether all fields have their sizes.
#[tactic(auto, using(crate::proofs::Testing::named_tests_pass))]
#[cycle(passing)]
fn named_pass(
    alloc: Global,
    fields: &[FieldTest],
    names: &[Name],
    forms: &[Form],
    room: u32,
    table: &[Slot],
) -> Result<bool, Stop>
    ensures { Named_pass (held_all table.now) (tested_fields fields.now) (named_shapes names.now (map shape_held forms.now)) result }
{
    for field in fields {
        let passed = field_passes(alloc, field, names, forms, room, table)?;
        if !passed {
            return Ok(false);
        }
    }
    Ok(true)
}

/// Whether a field has its sizes, where it is there.
#[tactic(auto, using(crate::proofs::Testing::field_tests))]
#[cycle(passing)]
fn field_passes(
    alloc: Global,
    field: &FieldTest,
    names: &[Name],
    forms: &[Form],
    room: u32,
    table: &[Slot],
) -> Result<bool, Stop>
    ensures { Field_passes (held_all table.now) field.now.name.now (test_of field.now.test) (named_shapes names.now (map shape_held forms.now)) result }
{
    match field_at(field.name, names, forms)? {
        Some(form) => passes(alloc, &field.test, form, room, table),
        None => Ok(true),
    }
}
