// The stars of parameters and of functions.
ghost use Rattle.std.specs.Prelude.{◌≡◌, false, map, IfOk};
ghost use Rattle.fut_aliases.specs.Aliases.{first_name_alone};
ghost use Rattle.fut_aliases.specs.Looking.{function_stars, parameter_value, result_stars};
ghost use Rattle.fut_aliases.specs.Patterns.{pattern_stars, tuple_stars};
ghost use Rattle.fut_aliases.specs.Stars.{spread};
ghost use Rattle.fut_flat.specs.Erased.{pattern_of, patterns};
ghost use Rattle.fut_types.specs.Shapes.{IsTable};
ghost use Rattle.fut_typing.specs.Names.{Names};
ghost use Rattle.flat_numbers.specs.Fields.{field_patterns};
ghost use Rattle.alias_parts.specs.Known.{Knows};
ghost use Rattle.alias_program.specs.Program.{sub_of};
ghost use Rattle.alias_types.specs.Kinds.{kinds_of};
ghost use Rattle.alias_values.specs.Trees.{row_of, stars_of, value_of};
ghost use Rattle.alias_patterns.specs.Placing.{arrows_before};

use crate::placing::record_stars;
use crate::written::stars_at;
use alias_program::{Program, after, no_alias, type_at};
use alias_types::{spread, with_stars};
use alias_values::{StarTree, ValueTree, arrow, leaf, star_row};
use bumpalo::Bump;
use bumpalo::collections::into_bump_slice;
use flat_numbers::after_pattern;
use fut_flat::{Pat, PatField, PatForm};
use fut_scalar::NoMemory;

/// The stars of a parameter whose pattern begins at a node.
#[cycle(stars)]
pub fn pattern_stars<'a>(
    bump: &'a Bump,
    program: &Program<'_>,
    pattern: &Pat<'_>,
    node: u32,
) -> Result<&'a StarTree<'a>, NoMemory>
    requires table { IsTable program.now.names.table.now }
    ensures { (N : Names) → Knows program.now.names N → IfOk result (λ made. stars_of made.now ≡ pattern_stars N (sub_of program.now.types.now) (pattern_of pattern.now) node) }
{
    match pattern.form {
        PatForm::Bound(_) => {
            let made = plain_stars(bump, program, node)?;
            Ok(made)
        }
        PatForm::Wild => {
            let made = plain_stars(bump, program, node)?;
            Ok(made)
        }
        PatForm::Tuple(parts) => {
            let first = after(node, 1)?;
            let row = part_stars(bump, program, parts, first)?;
            let made = star_row(bump, row)?;
            Ok(made)
        }
        PatForm::Record(fields) => {
            let first = after(node, 1)?;
            let stars = field_stars(bump, program, fields, first)?;
            let ty = type_at(program, node)?;
            let made = record_stars(bump, &program.names, fields, stars, ty)?;
            Ok(made)
        }
        PatForm::Typed(_, written) => {
            let made = stars_at(bump, program, written, node)?;
            Ok(made)
        }
    }
}

// No star, over the type of a node.
fn plain_stars<'a>(
    bump: &'a Bump,
    program: &Program<'_>,
    node: u32,
) -> Result<&'a StarTree<'a>, NoMemory>
    ensures { IfOk result (λ made. stars_of made.now ≡ spread false (sub_of program.now.types.now node)) }
{
    let ty = type_at(program, node)?;
    let made = spread(bump, false, ty)?;
    Ok(made)
}

#[cycle(stars)]
fn part_stars<'a>(
    bump: &'a Bump,
    program: &Program<'_>,
    parts: &[Pat<'_>],
    node: u32,
) -> Result<&'a [StarTree<'a>], NoMemory>
    requires table { IsTable program.now.names.table.now }
    ensures { (N : Names) → Knows program.now.names N → IfOk result (λ made. row_of made.now ≡ tuple_stars N (sub_of program.now.types.now) (patterns (map pattern_of parts.now)) node) }
{
    let mut made = Vec::new(bump);
    let mut at = node;
    for part in parts {
        let stars = pattern_stars(bump, program, part, at)?;
        made.push(*stars)?;
        at = after_pattern(at, part)?;
    }
    Ok(into_bump_slice(made))
}

#[cycle(stars)]
fn field_stars<'a>(
    bump: &'a Bump,
    program: &Program<'_>,
    fields: &[PatField<'_>],
    node: u32,
) -> Result<&'a [StarTree<'a>], NoMemory>
    requires table { IsTable program.now.names.table.now }
    ensures { (N : Names) → Knows program.now.names N → IfOk result (λ made. row_of made.now ≡ tuple_stars N (sub_of program.now.types.now) (field_patterns fields.now) node) }
{
    let mut made = Vec::new(bump);
    let mut at = node;
    for field in fields {
        let stars = pattern_stars(bump, program, &field.pat, at)?;
        made.push(*stars)?;
        at = after_pattern(at, &field.pat)?;
    }
    Ok(into_bump_slice(made))
}

/// What a parameter is given: its stars, and its value inside of the function.
#[derive(Clone, Copy)]
pub struct Given<'a> {
    pub stars: &'a StarTree<'a>,
    pub value: &'a ValueTree<'a>,
}

/// What a parameter whose pattern begins at a node is given: it shares with nothing beside its own names.
pub(crate) fn parameter_value<'a>(
    bump: &'a Bump,
    program: &Program<'_>,
    pattern: &Pat<'_>,
    node: u32,
) -> Result<Given<'a>, NoMemory>
    requires table { IsTable program.now.names.table.now }
    ensures stars { (N : Names) → Knows program.now.names N → IfOk result (λ given. stars_of given.stars.now ≡ pattern_stars N (sub_of program.now.types.now) (pattern_of pattern.now) node) }
    ensures value { (N : Names) → Knows program.now.names N → IfOk result (λ given. value_of given.value.now ≡ parameter_value first_name_alone N (kinds_of program.now.kinds.now) (sub_of program.now.types.now) (pattern_of pattern.now) node) }
{
    let stars = pattern_stars(bump, program, pattern, node)?;
    let ty = type_at(program, node)?;
    let value = with_stars(bump, program.kinds, no_alias(bump), stars, ty)?;
    Ok(Given { stars, value })
}

// The stars so far.
#[derive(Clone, Copy)]
struct Made<'a> {
    stars: &'a StarTree<'a>,
}

// Functions of parameters with these stars.
fn arrows_before<'a>(
    bump: &'a Bump,
    parameters: &'a [StarTree<'a>],
    given: &'a StarTree<'a>,
) -> Result<&'a StarTree<'a>, NoMemory>
    ensures { IfOk result (λ made. stars_of made.now ≡ arrows_before (row_of parameters.now) (stars_of given.now)) }
{
    let mut made = Made { stars: given };
    let mut i = parameters.len();
    'parameters: while i > 0 {
        i -= 1;
        let stars = arrow(bump, false, &parameters[i], made.stars)?;
        made = Made { stars };
    }
    Ok(made.stars)
}

/// The stars of a function of these parameters, which begin at a node, whose result has these stars.
pub fn function_stars<'a>(
    bump: &'a Bump,
    program: &Program<'_>,
    parameters: &[Pat<'_>],
    node: u32,
    given: &'a StarTree<'a>,
) -> Result<&'a StarTree<'a>, NoMemory>
    requires table { IsTable program.now.names.table.now }
    ensures { (N : Names) → Knows program.now.names N → IfOk result (λ made. stars_of made.now ≡ function_stars first_name_alone N (kinds_of program.now.kinds.now) (sub_of program.now.types.now) (patterns (map pattern_of parameters.now)) node (stars_of given.now)) }
{
    let row = part_stars(bump, program, parameters, node)?;
    let made = arrows_before(bump, row, given)?;
    Ok(made)
}

/// The stars of the result of a function of these parameters.
pub fn result_stars<'a>(
    bump: &'a Bump,
    parameters: &[Pat<'_>],
    stars: &'a StarTree<'a>,
) -> Result<&'a StarTree<'a>, NoMemory>
    ensures { IfOk result (λ made. stars_of made.now ≡ result_stars (patterns (map pattern_of parameters.now)) (stars_of stars.now)) }
{
    let mut rest = stars;
    for i in 0..parameters.len() {
        match rest {
            StarTree::Arrow(_, _, to) => rest = to,
            StarTree::Leaf(_) => {
                let none = leaf(bump, false)?;
                return Ok(none);
            }
            StarTree::Row(_) => {
                let none = leaf(bump, false)?;
                return Ok(none);
            }
        }
    }
    Ok(rest)
}
