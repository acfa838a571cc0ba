// The components of parameters that have no star.
ghost use Rattle.std.specs.Prelude.{◌≡◌, [], map, IfOk};
ghost use Rattle.fut_aliases.specs.Aliases.{first_name_alone};
ghost use Rattle.fut_aliases.specs.Looking.{all_kept};
ghost use Rattle.fut_aliases.specs.Values.{Parts, Values, all_of};
ghost use Rattle.fut_aliases.specs.Patterns.{all_kept as parts_kept, fields_kept, kept};
ghost use Rattle.fut_flat.specs.Erased.{pattern_of, patterns};
ghost use Rattle.fut_types.specs.Shapes.{IsTable};
ghost use Rattle.fut_typing.specs.Names.{Names};
ghost use Rattle.flat_numbers.specs.Fields.{field_patterns};
ghost use Rattle.alias_parts.specs.Known.{Knows};
ghost use Rattle.alias_program.specs.Program.{sub_of};
ghost use Rattle.alias_types.specs.Kinds.{kinds_of};
ghost use Rattle.alias_values.specs.Trees.{row_of, stars_of, value_of, values_of};
ghost use Rattle.alias_patterns.specs.Fields.{field_names};
ghost use Rattle.alias_patterns.specs.Placing.{sets_of};

use crate::forms::row_parts;
use crate::placing::short;
use crate::stars::parameter_value;
use alias_parts::{part_named, place_named, star_at};
use alias_program::{Program, after, no_alias};
use alias_types::left;
use alias_values::{StarTree, ValueTree, named, union};
use bumpalo::Bump;
use bumpalo::collections::into_bump_slice;
use flat_numbers::after_pattern;
use fut_aliases::Alias;
use fut_flat::{Pat, PatField, PatForm};
use fut_scalar::NoMemory;
use fut_types::Head;

/// The aliases of the components without a star of a parameter, whose pattern begins at a node and which has these stars and this
/// value.
#[cycle(keep)]
pub fn kept<'a>(
    bump: &'a Bump,
    program: &Program<'_>,
    pattern: &Pat<'_>,
    node: u32,
    stars: &'a StarTree<'a>,
    value: &'a ValueTree<'a>,
) -> Result<&'a [Alias], NoMemory>
    requires table { IsTable program.now.names.table.now }
    ensures { (N : Names) → Knows program.now.names N → IfOk result (λ all. all.now ≡ kept first_name_alone N (sub_of program.now.types.now) (pattern_of pattern.now) node (stars_of stars.now) (value_of value.now)) }
{
    match pattern.form {
        PatForm::Bound(bind) => {
            let own = named(bump, true, node, bind, 0, value)?;
            let all = left(bump, stars, own)?;
            Ok(all)
        }
        PatForm::Wild => Ok(no_alias(bump)),
        PatForm::Tuple(parts) => match row_parts(stars, value) {
            Some(apart) => {
                let first = after(node, 1)?;
                let all = parts_kept(bump, program, parts, first, apart.row, apart.values)?;
                Ok(all)
            }
            None => Ok(no_alias(bump)),
        },
        PatForm::Record(fields) => match row_parts(stars, value) {
            Some(apart) => {
                let first = after(node, 1)?;
                let all = fields_kept(bump, program, fields, first, apart.head, apart.row, value)?;
                Ok(all)
            }
            None => Ok(no_alias(bump)),
        },
        PatForm::Typed(inner, _) => {
            let all = kept(bump, program, inner, node, stars, value)?;
            Ok(all)
        }
    }
}

#[cycle(keep)]
fn parts_kept<'a>(
    bump: &'a Bump,
    program: &Program<'_>,
    parts: &[Pat<'_>],
    node: u32,
    row: &'a [StarTree<'a>],
    values: &'a [ValueTree<'a>],
) -> Result<&'a [Alias], NoMemory>
    requires table { IsTable program.now.names.table.now }
    ensures { (N : Names) → Knows program.now.names N → IfOk result (λ all. all.now ≡ parts_kept first_name_alone N (sub_of program.now.types.now) (patterns (map pattern_of parts.now)) node (row_of row.now) (values_of values.now)) }
{
    let count = parts.len().min(row.len()).min(values.len());
    let mut sets = Vec::new(bump);
    let mut at = node;
    for i in 0..count {
        let set = kept(bump, program, &parts[i], at, &row[i], &values[i])?;
        sets.push(set)?;
        at = after_pattern(at, &parts[i])?;
    }
    let all = all_of(bump, into_bump_slice(sets))?;
    Ok(all)
}

// Of a record's value.
#[cycle(keep)]
fn fields_kept<'a>(
    bump: &'a Bump,
    program: &Program<'_>,
    fields: &[PatField<'_>],
    node: u32,
    head: Head,
    row: &'a [StarTree<'a>],
    value: &'a ValueTree<'a>,
) -> Result<&'a [Alias], NoMemory>
    requires table { IsTable program.now.names.table.now }
    ensures { (N : Names) → Knows program.now.names N → (vs : Values) → value_of value.now ≡ Parts head vs → IfOk result (λ all. all.now ≡ fields_kept first_name_alone N (sub_of program.now.types.now) (field_names fields.now) (field_patterns fields.now) node head (row_of row.now) vs) }
{
    short(row.len())?;
    let mut sets = Vec::new(bump);
    let mut at = node;
    for field in fields {
        let place = place_named(&program.names, head, field.name)?;
        let stars = star_at(bump, place, row)?;
        let part = part_named(bump, &program.names, field.name, value)?;
        let set = kept(bump, program, &field.pat, at, stars, part)?;
        sets.push(set)?;
        at = after_pattern(at, &field.pat)?;
    }
    let all = all_of(bump, into_bump_slice(sets))?;
    Ok(all)
}

// The sets of a row as one.
fn all_of<'a>(bump: &'a Bump, sets: &[&'a [Alias]]) -> Result<&'a [Alias], NoMemory>
    ensures { IfOk result (λ all. all.now ≡ all_of (sets_of sets.now)) }
{
    let mut all = no_alias(bump);
    let mut i = sets.len();
    'sets: while i > 0 {
        i -= 1;
        all = union(bump, sets[i], all)?;
    }
    Ok(all)
}

/// Those of a row of parameters, which begin at a node.
pub fn all_kept<'a>(
    bump: &'a Bump,
    program: &Program<'_>,
    parameters: &[Pat<'_>],
    node: u32,
) -> Result<&'a [Alias], NoMemory>
    requires table { IsTable program.now.names.table.now }
    ensures { (N : Names) → Knows program.now.names N → IfOk result (λ all. all.now ≡ all_kept first_name_alone N (kinds_of program.now.kinds.now) (sub_of program.now.types.now) (patterns (map pattern_of parameters.now)) node) }
{
    let mut sets = Vec::new(bump);
    let mut at = node;
    for pattern in parameters {
        let given = parameter_value(bump, program, pattern, at)?;
        let set = kept(bump, program, pattern, at, given.stars, given.value)?;
        sets.push(set)?;
        at = after_pattern(at, pattern)?;
    }
    let all = all_of(bump, into_bump_slice(sets))?;
    Ok(all)
}
