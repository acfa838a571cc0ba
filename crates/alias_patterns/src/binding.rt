// What patterns bind.
ghost use Rattle.std.specs.Prelude.{◌≡◌, map, IfOk};
ghost use Rattle.fut_aliases.specs.Aliases.{first_name_alone};
ghost use Rattle.fut_aliases.specs.Looking.{with_parameters};
ghost use Rattle.fut_aliases.specs.Patterns.{all_bound, bound, fields_bound};
ghost use Rattle.fut_flat.specs.Erased.{pattern_of, patterns};
ghost use Rattle.fut_types.specs.Shapes.{IsTable};
ghost use Rattle.fut_typing.specs.Names.{Names};
ghost use Rattle.flat_numbers.specs.Fields.{field_patterns};
ghost use Rattle.alias_parts.specs.Known.{Knows};
ghost use Rattle.alias_program.specs.Program.{sub_of};
ghost use Rattle.alias_scopes.specs.Scopes.{scope_of};
ghost use Rattle.alias_types.specs.Kinds.{kinds_of};
ghost use Rattle.alias_values.specs.Trees.{value_of, values_of};
ghost use Rattle.alias_patterns.specs.Fields.{field_names};

use crate::stars::parameter_value;
use crate::written::stars_at;
use alias_parts::part_named;
use alias_program::{Program, after};
use alias_scopes::{ScopeTree, with_value};
use alias_types::ascribed;
use alias_values::{ValueTree, named};
use bumpalo::Bump;
use flat_numbers::after_pattern;
use fut_flat::{Pat, PatField, PatForm};
use fut_scalar::NoMemory;

// The scope so far.
#[derive(Clone, Copy)]
struct Inside<'a> {
    scope: &'a ScopeTree<'a>,
}

/// The scope in which a pattern that begins at a node is bound to a value. The functions of a parameter stand in their own sets.
#[cycle(bind)]
pub fn bound<'a>(
    bump: &'a Bump,
    program: &Program<'_>,
    parameter: bool,
    pattern: &Pat<'_>,
    node: u32,
    value: &'a ValueTree<'a>,
    scope: &'a ScopeTree<'a>,
) -> Result<&'a ScopeTree<'a>, NoMemory>
    requires table { IsTable program.now.names.table.now }
    ensures { (N : Names) → Knows program.now.names N → IfOk result (λ made. scope_of made.now ≡ bound first_name_alone N (sub_of program.now.types.now) parameter (pattern_of pattern.now) node (value_of value.now) (scope_of scope.now)) }
{
    match pattern.form {
        PatForm::Bound(bind) => {
            let own = named(bump, parameter, node, bind, 0, value)?;
            let made = with_value(bump, bind, own, scope)?;
            Ok(made)
        }
        PatForm::Wild => Ok(scope),
        PatForm::Tuple(parts) => match value {
            ValueTree::Parts(_, values) => {
                let first = after(node, 1)?;
                let made = all_bound(bump, program, parameter, parts, first, values, scope)?;
                Ok(made)
            }
            ValueTree::Scalar => Ok(scope),
            ValueTree::Array(_) => Ok(scope),
            ValueTree::Function(_, _) => Ok(scope),
        },
        PatForm::Record(fields) => {
            let first = after(node, 1)?;
            let made = fields_bound(bump, program, parameter, fields, first, value, scope)?;
            Ok(made)
        }
        PatForm::Typed(inner, written) => {
            let stars = stars_at(bump, program, written, node)?;
            let same = ascribed(bump, stars, value)?;
            let made = bound(bump, program, parameter, inner, node, same, scope)?;
            Ok(made)
        }
    }
}

#[cycle(bind)]
fn all_bound<'a>(
    bump: &'a Bump,
    program: &Program<'_>,
    parameter: bool,
    parts: &[Pat<'_>],
    node: u32,
    values: &'a [ValueTree<'a>],
    scope: &'a ScopeTree<'a>,
) -> Result<&'a ScopeTree<'a>, NoMemory>
    requires table { IsTable program.now.names.table.now }
    ensures { (N : Names) → Knows program.now.names N → IfOk result (λ made. scope_of made.now ≡ all_bound first_name_alone N (sub_of program.now.types.now) parameter (patterns (map pattern_of parts.now)) node (values_of values.now) (scope_of scope.now)) }
{
    let mut inside = Inside { scope };
    let mut at = node;
    for i in 0..parts.len() {
        if i >= values.len() {
            return Ok(inside.scope);
        }
        let scope = bound(
            bump,
            program,
            parameter,
            &parts[i],
            at,
            &values[i],
            inside.scope,
        )?;
        inside = Inside { scope };
        at = after_pattern(at, &parts[i])?;
    }
    Ok(inside.scope)
}

#[cycle(bind)]
fn fields_bound<'a>(
    bump: &'a Bump,
    program: &Program<'_>,
    parameter: bool,
    fields: &[PatField<'_>],
    node: u32,
    value: &'a ValueTree<'a>,
    scope: &'a ScopeTree<'a>,
) -> Result<&'a ScopeTree<'a>, NoMemory>
    requires table { IsTable program.now.names.table.now }
    ensures { (N : Names) → Knows program.now.names N → IfOk result (λ made. scope_of made.now ≡ fields_bound first_name_alone N (sub_of program.now.types.now) parameter (field_names fields.now) (field_patterns fields.now) node (value_of value.now) (scope_of scope.now)) }
{
    let mut inside = Inside { scope };
    let mut at = node;
    for field in fields {
        let part = part_named(bump, &program.names, field.name, value)?;
        let scope = bound(bump, program, parameter, &field.pat, at, part, inside.scope)?;
        inside = Inside { scope };
        at = after_pattern(at, &field.pat)?;
    }
    Ok(inside.scope)
}

/// The scope of the body of a function of these parameters, which begin at a node.
pub fn with_parameters<'a>(
    bump: &'a Bump,
    program: &Program<'_>,
    parameters: &[Pat<'_>],
    node: u32,
    scope: &'a ScopeTree<'a>,
) -> Result<&'a ScopeTree<'a>, NoMemory>
    requires table { IsTable program.now.names.table.now }
    ensures { (N : Names) → Knows program.now.names N → IfOk result (λ made. scope_of made.now ≡ with_parameters first_name_alone N (kinds_of program.now.kinds.now) (sub_of program.now.types.now) (patterns (map pattern_of parameters.now)) node (scope_of scope.now)) }
{
    let mut inside = Inside { scope };
    let mut at = node;
    for pattern in parameters {
        let given = parameter_value(bump, program, pattern, at)?;
        let scope = bound(bump, program, true, pattern, at, given.value, inside.scope)?;
        inside = Inside { scope };
        at = after_pattern(at, pattern)?;
    }
    Ok(inside.scope)
}
