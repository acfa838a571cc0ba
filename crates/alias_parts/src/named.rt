// Parts of values by their names.
ghost use Rattle.std.specs.Prelude.{◌≡◌, ◌<◌, ◌^◌, length, IfOk};
ghost use Rattle.fut_aliases.specs.Values.{part_named, with_part_named};
ghost use Rattle.fut_types.specs.Shapes.{IsTable};
ghost use Rattle.fut_typing.specs.Names.{Names};
ghost use Rattle.alias_parts.specs.Known.{Knows};
ghost use Rattle.alias_values.specs.Trees.{value_of};

use crate::names::{PartNames, place_named};
use crate::parts::{part, with_part};
use alias_values::{ValueTree, parts};
use bumpalo::Bump;
use fut_scalar::NoMemory;

// No row of a type in hand is so long.
fn short(values: &[ValueTree<'_>]) -> Result<(), NoMemory>
    ensures { IfOk result (λ _. length values.now < 2 ^ 32) }
{
    if values.len() >= 4294967296 {
        return Err(NoMemory);
    }
    Ok(())
}

/// The part of a value with this name. A value that has no parts stands for its parts too.
pub fn part_named<'a>(
    bump: &'a Bump,
    names: &PartNames<'_>,
    name: &str,
    value: &'a ValueTree<'a>,
) -> Result<&'a ValueTree<'a>, NoMemory>
    requires { IsTable names.now.table.now }
    ensures { (N : Names) → Knows names.now N → IfOk result (λ found. value_of found.now ≡ part_named N name.now (value_of value.now)) }
{
    match value {
        ValueTree::Parts(head, values) => {
            short(values)?;
            let place = place_named(names, *head, name)?;
            let found = part(bump, place, values)?;
            Ok(found)
        }
        ValueTree::Scalar => Ok(value),
        ValueTree::Array(_) => Ok(value),
        ValueTree::Function(_, _) => Ok(value),
    }
}

/// The value with another part under this name; the same where it has no parts.
pub fn with_part_named<'a>(
    bump: &'a Bump,
    names: &PartNames<'_>,
    name: &str,
    new: &ValueTree<'a>,
    value: &'a ValueTree<'a>,
) -> Result<&'a ValueTree<'a>, NoMemory>
    requires { IsTable names.now.table.now }
    ensures { (N : Names) → Knows names.now N → IfOk result (λ made. value_of made.now ≡ with_part_named N name.now (value_of new.now) (value_of value.now)) }
{
    match value {
        ValueTree::Parts(head, values) => {
            short(values)?;
            let place = place_named(names, *head, name)?;
            let all = with_part(bump, place, new, values)?;
            let made = parts(bump, *head, all)?;
            Ok(made)
        }
        ValueTree::Scalar => Ok(value),
        ValueTree::Array(_) => Ok(value),
        ValueTree::Function(_, _) => Ok(value),
    }
}
