// The own names of what a pattern binds.
ghost use Rattle.std.specs.Prelude.{◌≡◌, map, IfOk};
ghost use Rattle.fut_aliases.specs.Aliases.{first_name_alone};
ghost use Rattle.fut_aliases.specs.Loops.{all_own_names, fields_own_names, own_names};
ghost use Rattle.fut_flat.specs.Erased.{pattern_of, patterns};
ghost use Rattle.fut_types.specs.Shapes.{IsTable};
ghost use Rattle.fut_typing.specs.Names.{Names};
ghost use Rattle.flat_numbers.specs.Fields.{field_patterns};
ghost use Rattle.alias_parts.specs.Known.{Knows};
ghost use Rattle.alias_values.specs.Trees.{value_of, values_of};
ghost use Rattle.alias_patterns.specs.Fields.{field_names};

use alias_parts::{part_named, with_part_named};
use alias_program::{Program, after};
use alias_values::{ValueTree, named, parts};
use bumpalo::Bump;
use bumpalo::collections::into_bump_slice;
use flat_numbers::after_pattern;
use fut_flat::{Pat, PatField, PatForm};
use fut_scalar::NoMemory;

// The value so far.
#[derive(Clone, Copy)]
struct Made<'a> {
    value: &'a ValueTree<'a>,
}

/// The value whose components have the own names of a pattern that begins at a node, where those of this one have none.
#[cycle(own)]
pub fn own_names<'a>(
    bump: &'a Bump,
    program: &Program<'_>,
    pattern: &Pat<'_>,
    node: u32,
    value: &'a ValueTree<'a>,
) -> Result<&'a ValueTree<'a>, NoMemory>
    requires table { IsTable program.now.names.table.now }
    ensures { (N : Names) → Knows program.now.names N → IfOk result (λ made. value_of made.now ≡ own_names first_name_alone N (pattern_of pattern.now) node (value_of value.now)) }
{
    match pattern.form {
        PatForm::Bound(bind) => {
            let made = named(bump, true, node, bind, 0, value)?;
            Ok(made)
        }
        PatForm::Wild => Ok(value),
        PatForm::Tuple(inner) => match value {
            ValueTree::Parts(head, values) => {
                let first = after(node, 1)?;
                let all = all_own_names(bump, program, inner, first, values)?;
                let made = parts(bump, *head, all)?;
                Ok(made)
            }
            ValueTree::Scalar => Ok(value),
            ValueTree::Array(_) => Ok(value),
            ValueTree::Function(_, _) => Ok(value),
        },
        PatForm::Record(fields) => {
            let first = after(node, 1)?;
            let made = fields_own_names(bump, program, fields, first, value)?;
            Ok(made)
        }
        PatForm::Typed(inner, _) => {
            let made = own_names(bump, program, inner, node, value)?;
            Ok(made)
        }
    }
}

#[cycle(own)]
fn all_own_names<'a>(
    bump: &'a Bump,
    program: &Program<'_>,
    inner: &[Pat<'_>],
    node: u32,
    values: &'a [ValueTree<'a>],
) -> Result<&'a [ValueTree<'a>], NoMemory>
    requires table { IsTable program.now.names.table.now }
    ensures { (N : Names) → Knows program.now.names N → IfOk result (λ made. values_of made.now ≡ all_own_names first_name_alone N (patterns (map pattern_of inner.now)) node (values_of values.now)) }
{
    let both = inner.len().min(values.len());
    let mut made = Vec::new(bump);
    let mut at = node;
    for i in 0..both {
        let one = own_names(bump, program, &inner[i], at, &values[i])?;
        made.push(*one)?;
        at = after_pattern(at, &inner[i])?;
    }
    made.extend_from_slice(values.split_at(both).1)?;
    Ok(into_bump_slice(made))
}

#[cycle(own)]
fn fields_own_names<'a>(
    bump: &'a Bump,
    program: &Program<'_>,
    fields: &[PatField<'_>],
    node: u32,
    value: &'a ValueTree<'a>,
) -> Result<&'a ValueTree<'a>, NoMemory>
    requires table { IsTable program.now.names.table.now }
    ensures { (N : Names) → Knows program.now.names N → IfOk result (λ made. value_of made.now ≡ fields_own_names first_name_alone N (field_names fields.now) (field_patterns fields.now) node (value_of value.now) (value_of value.now)) }
{
    let mut made = Made { value };
    let mut at = node;
    for field in fields {
        let part = part_named(bump, &program.names, field.name, value)?;
        let own = own_names(bump, program, &field.pat, at, part)?;
        let value = with_part_named(bump, &program.names, field.name, own, made.value)?;
        made = Made { value };
        at = after_pattern(at, &field.pat)?;
    }
    Ok(made.value)
}
