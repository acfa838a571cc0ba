// A pattern takes a value: its names have the value's sizes, and size names take what their levels have.
ghost use Rattle.std.specs.Prelude.{◌≡◌, map, IfOk};
ghost use Rattle.sized_types.specs.Sizes.{renamed};
ghost use Rattle.fut_flat.specs.Erased.{pattern_of, patterns, type_of};
ghost use Rattle.fut_sizes.specs.Matching.{Found as Finding, data_way};
ghost use Rattle.fut_sizes.specs.Scopes.{Taken, all_taken, as_slot, fields_taken, taken};
ghost use Rattle.fut_types.specs.Shapes.{IsTable};
ghost use Rattle.fut_typing.specs.Names.{Names};
ghost use Rattle.flat_numbers.specs.Fields.{field_patterns};
ghost use Rattle.alias_parts.specs.Known.{Knows};
ghost use Rattle.size_arena.specs.Trees.{size_of, sizes_of};
ghost use Rattle.size_patterns.specs.Bound.{Taken_in};
ghost use Rattle.size_patterns.specs.Fields.{field_names};
ghost use Rattle.size_patterns.specs.Written.{Written_in, Written_so, field_taken, written_taken};
ghost use Rattle.size_program.specs.Answers.{Answers};
ghost use Rattle.size_program.specs.Tables.{In_scope};
ghost use Rattle.size_slots.specs.Held.{Held, Holds, Met, way_of};

use crate::changing::{Change, changed};
use crate::rows::row_of;
use bumpalo::Bump;
use fut_flat::{Pat, PatField, PatForm, TypeExp};
use fut_scalar::{BindId, NoMemory};
use size_arena::{Frames, SizeErr, SizeTree};
use size_matching::meet;
use size_program::{NumberMap, Program, with_name};
use size_slots::{Found, Way};
use size_written::{coerced, has_sizes, part_of};

/// What is no function, wanted on the left.
pub(crate) fn data_way() -> Way
    ensures { way_of result ≡ data_way }
{
    Way {
        left_wanted: true,
        in_result: false,
        regular: false,
    }
}

/// A sized type with the sizes that are written, and the same where size names are slots.
#[derive(Clone, Copy)]
struct Written<'a> {
    coerced: &'a SizeTree<'a>,
    slotted: &'a SizeTree<'a>,
}

/// A sized type where size names are slots.
fn slotted<'a>(
    bump: &'a Bump,
    sizes: &[BindId],
    tree: &'a SizeTree<'a>,
) -> Result<&'a SizeTree<'a>, NoMemory>
    ensures { IfOk result (λ made. size_of made.now ≡ renamed (as_slot sizes.now) (size_of tree.now)) }
{
    if sizes.is_empty() {
        return Ok(tree);
    }
    changed(tree, &Change::Slots(sizes), 0, bump)
}

fn written_sizes<'a>(
    bump: &'a Bump,
    program: &Program<'a>,
    sizes: &[BindId],
    written: &TypeExp<'_>,
    size: &'a SizeTree<'a>,
) -> Result<Written<'a>, NoMemory>
    requires is_table { IsTable program.now.names.table.now }
    ensures { (N : Names) → Knows program.now.names N → IfOk result (λ made. Written_so N sizes.now (type_of written.now) (size_of size.now) made) }
{
    let coerced = coerced(bump, &program.names, written, size)?;
    let slotted = slotted(bump, sizes, coerced)?;
    Ok(Written { coerced, slotted })
}

/// What is found agrees with the sizes that are written, where size names take what its levels have.
fn agree_written<'a>(
    bump: &'a Bump,
    program: &Program<'a>,
    sizes: &[BindId],
    at: u32,
    written: &TypeExp<'_>,
    size: &'a SizeTree<'a>,
    both: Written<'a>,
    table: &mut Found<'a>,
) -> Result<(), SizeErr>
    requires is_table { IsTable program.now.names.table.now }
    requires holds { Held table.old }
    ensures gives { (N : Names) (σ : Finding) → Knows program.now.names N → Written_so N sizes.now (type_of written.now) (size_of size.now) both.entry → Holds table.old σ → Met (written_taken N sizes.now at (type_of written.now) (size_of size.now) σ) table.new result }
    ensures holds { IfOk result (λ made. Held table.new) }
{
    match meet(
        at,
        data_way(),
        at,
        both.slotted,
        size,
        &Frames::Closed,
        &Frames::Closed,
        table,
        bump,
    ) {
        Ok(()) => has_sizes(bump, &program.names, true, at, written, both.coerced),
        Err(error) => Err(error),
    }
}

/// What a pattern with a written type takes has the sizes that are written there.
///
/// `Err`: the first that it has not, or memory ran out.
fn take_written<'a>(
    bump: &'a Bump,
    program: &Program<'a>,
    sizes: &[BindId],
    at: u32,
    written: &TypeExp<'_>,
    size: &'a SizeTree<'a>,
    table: &mut Found<'a>,
) -> Result<&'a SizeTree<'a>, SizeErr>
    requires is_table { IsTable program.now.names.table.now }
    requires holds { Held table.old }
    ensures gives { (N : Names) (σ : Finding) → Knows program.now.names N → Holds table.old σ → Answers (Written_in table.new N (type_of written.now) (size_of size.now)) (written_taken N sizes.now at (type_of written.now) (size_of size.now) σ) result }
    ensures holds { IfOk result (λ made. Held table.new) }
{
    match written_sizes(bump, program, sizes, written, size) {
        Ok(both) => {
            match agree_written(bump, program, sizes, at, written, size, both, table) {
                Ok(()) => Ok(both.coerced),
                Err(error) => Err(error),
            }
        }
        Err(NoMemory) => Err(SizeErr::Memory),
    }
}

// The names known so far.
#[derive(Clone, Copy)]
struct Inside<'a> {
    names: &'a NumberMap<'a>,
}

/// What is known behind a pattern that takes a value of this sized type, found at a node. Its size names are the first slots of
/// the table.
#[cycle(take)]
pub(crate) fn take<'a>(
    bump: &'a Bump,
    program: &Program<'a>,
    sizes: &[BindId],
    at: u32,
    pat: &Pat<'_>,
    size: &'a SizeTree<'a>,
    names: &'a NumberMap<'a>,
    table: &mut Found<'a>,
) -> Result<&'a NumberMap<'a>, SizeErr>
    requires is_table { IsTable program.now.names.table.now }
    requires holds { Held table.old }
    ensures gives { (N : Names) (k : Taken) → Knows program.now.names N → In_scope names.now k.scope → Holds table.old k.found → Answers (Taken_in table.new) (taken N sizes.now at (pattern_of pat.now) (size_of size.now) k) result }
    ensures holds { IfOk result (λ made. Held table.new) }
{
    match pat.form {
        PatForm::Bound(bind) => match with_name(bind.0, size, names, bump) {
            Ok(made) => Ok(made),
            Err(NoMemory) => Err(SizeErr::Memory),
        },
        PatForm::Wild => Ok(names),
        PatForm::Tuple(parts) => match row_of(size) {
            Some(row) => take_all(bump, program, sizes, at, parts, row.parts, names, table),
            None => Ok(names),
        },
        PatForm::Record(fields) => {
            take_fields(bump, program, sizes, at, fields, size, names, table)
        }
        PatForm::Typed(inner, written) => {
            match take_written(bump, program, sizes, at, written, size, table) {
                Ok(same) => take(bump, program, sizes, at, inner, same, names, table),
                Err(error) => Err(error),
            }
        }
    }
}

#[cycle(take)]
fn take_all<'a>(
    bump: &'a Bump,
    program: &Program<'a>,
    sizes: &[BindId],
    at: u32,
    parts: &[Pat<'_>],
    row: &'a [SizeTree<'a>],
    names: &'a NumberMap<'a>,
    table: &mut Found<'a>,
) -> Result<&'a NumberMap<'a>, SizeErr>
    requires is_table { IsTable program.now.names.table.now }
    requires holds { Held table.old }
    ensures gives { (N : Names) (k : Taken) → Knows program.now.names N → In_scope names.now k.scope → Holds table.old k.found → Answers (Taken_in table.new) (all_taken N sizes.now at (patterns (map pattern_of parts.now)) (sizes_of row.now) k) result }
    ensures holds { IfOk result (λ made. Held table.new) }
{
    let mut inside = Inside { names };
    for i in 0..parts.len() {
        if i >= row.len() {
            return Ok(inside.names);
        }
        match take(
            bump,
            program,
            sizes,
            at,
            &parts[i],
            &row[i],
            inside.names,
            table,
        ) {
            Ok(names) => inside = Inside { names },
            Err(error) => return Err(error),
        }
    }
    Ok(inside.names)
}

#[cycle(take)]
fn take_fields<'a>(
    bump: &'a Bump,
    program: &Program<'a>,
    sizes: &[BindId],
    at: u32,
    fields: &[PatField<'_>],
    size: &'a SizeTree<'a>,
    names: &'a NumberMap<'a>,
    table: &mut Found<'a>,
) -> Result<&'a NumberMap<'a>, SizeErr>
    requires is_table { IsTable program.now.names.table.now }
    requires holds { Held table.old }
    ensures gives { (N : Names) (k : Taken) → Knows program.now.names N → In_scope names.now k.scope → Holds table.old k.found → Answers (Taken_in table.new) (fields_taken N sizes.now at (field_names fields.now) (field_patterns fields.now) (size_of size.now) k) result }
    ensures holds { IfOk result (λ made. Held table.new) }
{
    let mut inside = Inside { names };
    for field in fields {
        match take_field(bump, program, sizes, at, field, size, inside.names, table) {
            Ok(names) => inside = Inside { names },
            Err(error) => return Err(error),
        }
    }
    Ok(inside.names)
}

/// A field's pattern takes the part of that name, if there is one.
#[cycle(take)]
fn take_field<'a>(
    bump: &'a Bump,
    program: &Program<'a>,
    sizes: &[BindId],
    at: u32,
    field: &PatField<'_>,
    size: &'a SizeTree<'a>,
    names: &'a NumberMap<'a>,
    table: &mut Found<'a>,
) -> Result<&'a NumberMap<'a>, SizeErr>
    requires is_table { IsTable program.now.names.table.now }
    requires holds { Held table.old }
    ensures gives { (N : Names) (k : Taken) → Knows program.now.names N → In_scope names.now k.scope → Holds table.old k.found → Answers (Taken_in table.new) (field_taken N sizes.now at field.now.name.now (pattern_of field.now.pat) (size_of size.now) k) result }
    ensures holds { IfOk result (λ made. Held table.new) }
{
    match part_of(&program.names, field.name, size) {
        Ok(found) => match found {
            Some(part) => take(bump, program, sizes, at, &field.pat, part, names, table),
            None => Ok(names),
        },
        Err(NoMemory) => Err(SizeErr::Memory),
    }
}
