// Values that operations make: anew, of the values of their parts, or of what an array shares with.
ghost use Rattle.std.specs.Prelude.{◌≡◌, [], IfOk};
ghost use Rattle.fut_aliases.specs.Operations.{first_value, row};
ghost use Rattle.fut_aliases.specs.Values.{Parts, aliases, of_type};
ghost use Rattle.fut_types.specs.declared.Head.TheVariants as head;
ghost use Rattle.alias_program.specs.Program.{sub_of};
ghost use Rattle.alias_types.specs.Kinds.{kinds_of};
ghost use Rattle.alias_values.specs.Trees.{value_of, values_of};
ghost use Rattle.uniqueness.specs.Held.{helds_of};

use alias_program::{Program, no_alias, type_at};
use alias_types::of_type;
use alias_values::{ValueTree, parts, scalar};
use bumpalo::Bump;
use bumpalo::collections::into_bump_slice;
use fut_aliases::Alias;
use fut_scalar::NoMemory;
use fut_types::Head;
use uniqueness::{Held, aliases};

/// A value of the node's type whose components all have one set.
pub fn of_node<'a>(
    bump: &'a Bump,
    program: &Program<'a>,
    node: u32,
    set: &'a [Alias],
) -> Result<&'a ValueTree<'a>, NoMemory>
    ensures { IfOk result (λ made. value_of made.now ≡ of_type (kinds_of program.now.kinds.now) set.now (sub_of program.now.types.now node)) }
{
    let ty = type_at(program, node)?;
    let made = of_type(bump, program.kinds, set, ty)?;
    Ok(made)
}

#[tactic(auto, using(crate::proofs::ValueForms::row_forms))]
fn row_of<'a>(bump: &'a Bump, held: &[Held<'a>]) -> Result<&'a [ValueTree<'a>], NoMemory>
    ensures { IfOk result (λ made. values_of made.now ≡ row (helds_of held.now)) }
{
    let mut made = Vec::new(bump);
    for i in 0..held.len() {
        made.push(*held[i].value)?;
    }
    Ok(into_bump_slice(made))
}

/// The tuple of these parts.
pub fn tuple_of<'a>(bump: &'a Bump, held: &[Held<'a>]) -> Result<&'a ValueTree<'a>, NoMemory>
    ensures { IfOk result (λ made. value_of made.now ≡ Parts head.Tuple (row (helds_of held.now))) }
{
    let values = row_of(bump, held)?;
    let made = parts(bump, Head::Tuple, values)?;
    Ok(made)
}

/// The value of the first part.
#[tactic(auto, using(crate::proofs::ValueForms::first_ones))]
pub fn first_value<'a>(bump: &'a Bump, held: &[Held<'a>]) -> Result<&'a ValueTree<'a>, NoMemory>
    ensures { IfOk result (λ first. value_of first.now ≡ first_value (helds_of held.now)) }
{
    if held.is_empty() {
        let none = scalar(bump)?;
        return Ok(none);
    }
    Ok(held[0].value)
}

/// Rows, elements and slices share with the array.
pub fn indexed<'a>(
    bump: &'a Bump,
    program: &Program<'a>,
    node: u32,
    held: &[Held<'a>],
) -> Result<&'a ValueTree<'a>, NoMemory>
    ensures { IfOk result (λ made. value_of made.now ≡ of_type (kinds_of program.now.kinds.now) (aliases (first_value (helds_of held.now))) (sub_of program.now.types.now node)) }
{
    let array = first_value(bump, held)?;
    let set = aliases(bump, array)?;
    let made = of_node(bump, program, node, set)?;
    Ok(made)
}

/// What is made at a node and shares with nothing.
pub fn fresh<'a>(
    bump: &'a Bump,
    program: &Program<'a>,
    node: u32,
) -> Result<&'a ValueTree<'a>, NoMemory>
    ensures { IfOk result (λ made. value_of made.now ≡ of_type (kinds_of program.now.kinds.now) [] (sub_of program.now.types.now node)) }
{
    let made = of_node(bump, program, node, no_alias(bump))?;
    Ok(made)
}
