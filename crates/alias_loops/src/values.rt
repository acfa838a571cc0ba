// The values of a loop's parameters and of a loop.
ghost use Rattle.std.specs.Prelude.{◌≡◌, [], IfOk};
ghost use Rattle.fut_aliases.specs.Loops.{results};
ghost use Rattle.fut_aliases.specs.Values.{components, having, of_type};
ghost use Rattle.alias_joins.specs.SetRows.{sets_of};
ghost use Rattle.alias_loops.specs.Carried.{carrieds_of};
ghost use Rattle.alias_loops.specs.Turning.{result_of};
ghost use Rattle.alias_program.specs.Program.{sub_of};
ghost use Rattle.alias_types.specs.Kinds.{kinds_of};
ghost use Rattle.alias_loops.specs.Carried.{carried_of};
ghost use Rattle.alias_values.specs.Trees.{value_of};

use crate::carried::Carried;
use alias_joins::{components, having};
use alias_program::{Program, no_alias, type_at};
use alias_types::of_type;
use alias_values::{ValueTree, union};
use bumpalo::Bump;
use bumpalo::collections::into_bump_slice;
use fut_aliases::Alias;
use fut_scalar::NoMemory;

/// The value of a loop's pattern at its node, whose components share with these sets.
pub fn parameter_value<'a>(
    bump: &'a Bump,
    program: &Program<'_>,
    node: u32,
    sets: &[&'a [Alias]],
) -> Result<&'a ValueTree<'a>, NoMemory>
    ensures { IfOk result (λ value. value_of value.now ≡ having (sets_of sets.now) (of_type (kinds_of program.now.kinds.now) [] (sub_of program.now.types.now node))) }
{
    let ty = type_at(program, node)?;
    let plain = of_type(bump, program.kinds, no_alias(bump), ty)?;
    let value = having(bump, sets, plain)?;
    Ok(value)
}

// The result shares with nothing where its parameter is consumed, else with what it may have been in any turn.
#[tactic(auto, using(crate::proofs::ValueForms::result_forms))]
fn result_of<'a>(
    bump: &'a Bump,
    one: &Carried<'_>,
    turns: &[Alias],
    given: &'a [Alias],
) -> Result<&'a [Alias], NoMemory>
    ensures { IfOk result (λ set. set.now ≡ result_of (carried_of one.now) turns.now given.now) }
{
    if one.is_eaten {
        return Ok(no_alias(bump));
    }
    let set = union(bump, turns, given)?;
    Ok(set)
}

fn results<'a>(
    bump: &'a Bump,
    carried: &[Carried<'_>],
    turns: &[&'a [Alias]],
    given: &[&'a [Alias]],
) -> Result<&'a [&'a [Alias]], NoMemory>
    ensures { IfOk result (λ sets. sets_of sets.now ≡ results (carrieds_of carried.now) (sets_of turns.now) (sets_of given.now)) }
{
    let count = carried.len().min(turns.len()).min(given.len());
    let mut made = Vec::new(bump);
    for i in 0..count {
        let set = result_of(bump, &carried[i], turns[i], given[i])?;
        made.push(set)?;
    }
    Ok(into_bump_slice(made))
}

/// The value of a loop, whose body gives a value in the last look: `turns` is what its parameters share with over all turns.
pub fn loop_value<'a>(
    bump: &'a Bump,
    carried: &[Carried<'_>],
    turns: &[&'a [Alias]],
    given: &'a ValueTree<'a>,
) -> Result<&'a ValueTree<'a>, NoMemory>
    ensures { IfOk result (λ value. value_of value.now ≡ having (results (carrieds_of carried.now) (sets_of turns.now) (components (value_of given.now))) (value_of given.now)) }
{
    let own = components(bump, given)?;
    let sets = results(bump, carried, turns, own)?;
    let value = having(bump, sets, given)?;
    Ok(value)
}
