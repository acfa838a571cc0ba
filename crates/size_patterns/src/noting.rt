// The sized types of a pattern's nodes.
ghost use Rattle.std.specs.Prelude.{◌+◌, map};
ghost use Rattle.fut_flat.specs.Erased.{pattern_of, patterns};
ghost use Rattle.fut_sizes.specs.Sizing.{fields_noted, parameters_noted, pattern_noted, patterns_noted};
ghost use Rattle.fut_types.specs.Shapes.{IsTable};
ghost use Rattle.fut_typing.specs.Names.{Names};
ghost use Rattle.flat_numbers.specs.Fields.{field_patterns};
ghost use Rattle.alias_parts.specs.Known.{Knows};
ghost use Rattle.size_arena.specs.Trees.{size_of, sizes_of};
ghost use Rattle.size_functions.specs.Takings.{takings_of};
ghost use Rattle.size_patterns.specs.Heads.{Done};
ghost use Rattle.size_patterns.specs.Fields.{field_names};
ghost use Rattle.size_patterns.specs.Written.{one_noted};
ghost use Rattle.size_program.specs.Answers.{Steps};
ghost use Rattle.size_program.specs.Program.{sub_of};

use crate::rows::row_of;
use bumpalo::Bump;
use flat_numbers::{after, after_pattern};
use fut_flat::{Pat, PatField, PatForm};
use fut_scalar::NoMemory;
use size_arena::{SizeErr, SizeTree};
use size_functions::Taking;
use size_program::{Program, Tables, note};
use size_written::{coerced, part_of};

/// The sized types of a pattern's nodes, which begin at one, where the pattern takes a value of this sized type.
#[cycle(noting)]
pub fn note_pattern<'a>(
    bump: &'a Bump,
    program: &Program<'a>,
    pat: &Pat<'_>,
    node: u32,
    size: &'a SizeTree<'a>,
    tables: &mut Tables<'a>,
) -> Result<(), SizeErr>
    requires is_table { IsTable program.now.names.table.now }
    ensures { (N : Names) → Knows program.now.names N → Steps Done (pattern_noted N (sub_of program.now.types.now) (pattern_of pat.now) node (size_of size.now)) tables.old tables.new result }
{
    match pat.form {
        PatForm::Bound(_) => note(tables, node, size),
        PatForm::Wild => note(tables, node, size),
        PatForm::Tuple(parts) => match note(tables, node, size) {
            Ok(()) => match row_of(size) {
                Some(row) => note_patterns(bump, program, parts, node, row.parts, tables),
                None => Ok(()),
            },
            Err(error) => Err(error),
        },
        PatForm::Record(fields) => match note(tables, node, size) {
            Ok(()) => note_fields(bump, program, fields, node, size, tables),
            Err(error) => Err(error),
        },
        PatForm::Typed(inner, written) => match coerced(bump, &program.names, written, size) {
            Ok(same) => note_pattern(bump, program, inner, node, same, tables),
            Err(NoMemory) => Err(SizeErr::Memory),
        },
    }
}

/// The nodes of a tuple's parts, which begin behind its own.
#[cycle(noting)]
fn note_patterns<'a>(
    bump: &'a Bump,
    program: &Program<'a>,
    parts: &[Pat<'_>],
    node: u32,
    row: &'a [SizeTree<'a>],
    tables: &mut Tables<'a>,
) -> Result<(), SizeErr>
    requires is_table { IsTable program.now.names.table.now }
    ensures { (N : Names) → Knows program.now.names N → Steps Done (patterns_noted N (sub_of program.now.types.now) (patterns (map pattern_of parts.now)) (1 + node) (sizes_of row.now)) tables.old tables.new result }
{
    let mut at = match after(node, 1) {
        Ok(next) => next,
        Err(NoMemory) => return Err(SizeErr::Memory),
    };
    for i in 0..parts.len() {
        if i >= row.len() {
            return Ok(());
        }
        match note_pattern(bump, program, &parts[i], at, &row[i], tables) {
            Ok(()) => {}
            Err(error) => return Err(error),
        }
        match after_pattern(at, &parts[i]) {
            Ok(next) => at = next,
            Err(NoMemory) => return Err(SizeErr::Memory),
        }
    }
    Ok(())
}

/// The nodes of a record's fields, which begin behind its own.
#[cycle(noting)]
fn note_fields<'a>(
    bump: &'a Bump,
    program: &Program<'a>,
    fields: &[PatField<'_>],
    node: u32,
    size: &'a SizeTree<'a>,
    tables: &mut Tables<'a>,
) -> Result<(), SizeErr>
    requires is_table { IsTable program.now.names.table.now }
    ensures { (N : Names) → Knows program.now.names N → Steps Done (fields_noted N (sub_of program.now.types.now) (field_names fields.now) (field_patterns fields.now) (1 + node) (size_of size.now)) tables.old tables.new result }
{
    let mut at = match after(node, 1) {
        Ok(next) => next,
        Err(NoMemory) => return Err(SizeErr::Memory),
    };
    for field in fields {
        match note_field(bump, program, field, at, size, tables) {
            Ok(()) => {}
            Err(error) => return Err(error),
        }
        match after_pattern(at, &field.pat) {
            Ok(next) => at = next,
            Err(NoMemory) => return Err(SizeErr::Memory),
        }
    }
    Ok(())
}

/// The nodes of a field, where the value has a part of that name.
#[cycle(noting)]
fn note_field<'a>(
    bump: &'a Bump,
    program: &Program<'a>,
    field: &PatField<'_>,
    node: u32,
    size: &'a SizeTree<'a>,
    tables: &mut Tables<'a>,
) -> Result<(), SizeErr>
    requires is_table { IsTable program.now.names.table.now }
    ensures { (N : Names) → Knows program.now.names N → Steps Done (one_noted N (sub_of program.now.types.now) field.now.name.now (pattern_of field.now.pat) node (size_of size.now)) tables.old tables.new result }
{
    match part_of(&program.names, field.name, size) {
        Ok(found) => match found {
            Some(part) => note_pattern(bump, program, &field.pat, node, part, tables),
            None => Ok(()),
        },
        Err(NoMemory) => Err(SizeErr::Memory),
    }
}

/// The sized types of the nodes of a function's parameters.
pub fn note_parameters<'a>(
    bump: &'a Bump,
    program: &Program<'a>,
    parameters: &[Taking<'a>],
    tables: &mut Tables<'a>,
) -> Result<(), SizeErr>
    requires is_table { IsTable program.now.names.table.now }
    ensures { (N : Names) → Knows program.now.names N → Steps Done (parameters_noted N (sub_of program.now.types.now) (takings_of parameters.now)) tables.old tables.new result }
{
    for parameter in parameters {
        match note_pattern(
            bump,
            program,
            parameter.pattern,
            parameter.node,
            parameter.size,
            tables,
        ) {
            Ok(()) => {}
            Err(error) => return Err(error),
        }
    }
    Ok(())
}
