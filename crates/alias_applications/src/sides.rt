// The components of a call, and those of a body's result.
ghost use Rattle.std.specs.Prelude.{◌≡◌, ◌++◌, IfOk, OnOk};
ghost use Rattle.fut_aliases.specs.Calls.{given_sides, sides};
ghost use Rattle.fut_aliases.specs.Stars.{no_stars};
ghost use Rattle.fut_aliases.specs.Values.{all_starred, all_starring, components, starring};
ghost use Rattle.alias_calls.specs.Sides.{sides_of};
ghost use Rattle.alias_values.specs.Trees.{row_of, stars_of, value_of, values_of};
ghost use Rattle.alias_applications.specs.Givens.{givens_of};
ghost use Rattle.alias_applications.specs.Rules.{components_of, has_starred};

use crate::given::Given;
use alias_calls::Side;
use alias_joins::components;
use alias_values::{StarTree, ValueTree};
use bumpalo::Bump;
use bumpalo::collections::into_bump_slice;
use fut_scalar::NoMemory;
use uniqueness::Held;

// All components of a value, which have a star or not.
#[tactic(auto, using(crate::proofs::SideForms::whole_forms))]
fn add_whole<'a>(
    bump: &'a Bump,
    node: u32,
    starred: bool,
    value: &ValueTree<'a>,
    made: &mut Vec<Side<'a>, &'a Bump>,
) -> Result<(), NoMemory>
    ensures { OnOk result (sides_of made.new.items ≡ sides_of made.old.items ++ sides node (all_starred starred (components (value_of value.now)))) }
{
    let sets = components(bump, value)?;
    for i in 0..sets.len() {
        let set = sets[i];
        made.push(Side { node, starred, set })?;
    }
    Ok(())
}

// The components of a value, with the stars of its parameter.
#[cycle(add_sides)]
#[tactic(auto, using(crate::proofs::SideForms::side_forms))]
fn add_sides<'a>(
    bump: &'a Bump,
    node: u32,
    stars: &StarTree<'_>,
    value: &ValueTree<'a>,
    made: &mut Vec<Side<'a>, &'a Bump>,
) -> Result<(), NoMemory>
    ensures { OnOk result (sides_of made.new.items ≡ sides_of made.old.items ++ sides node (starring (stars_of stars.now) (value_of value.now))) }
{
    match stars {
        StarTree::Leaf(starred) | StarTree::Arrow(starred, _, _) => {
            add_whole(bump, node, *starred, value, made)?;
            Ok(())
        }
        StarTree::Row(row) => match value {
            ValueTree::Parts(_, values) => {
                add_all_sides(bump, node, row, values, made)?;
                Ok(())
            }
            ValueTree::Scalar | ValueTree::Array(_) | ValueTree::Function(_, _) => {
                add_whole(bump, node, false, value, made)?;
                Ok(())
            }
        },
    }
}

#[cycle(add_sides)]
#[tactic(auto, using(crate::proofs::SideForms::all_side_forms))]
fn add_all_sides<'a>(
    bump: &'a Bump,
    node: u32,
    row: &[StarTree<'_>],
    values: &[ValueTree<'a>],
    made: &mut Vec<Side<'a>, &'a Bump>,
) -> Result<(), NoMemory>
    ensures { OnOk result (sides_of made.new.items ≡ sides_of made.old.items ++ sides node (all_starring (row_of row.now) (values_of values.now))) }
{
    for i in 0..row.len() {
        if i >= values.len() {
            return Ok(());
        }
        add_sides(bump, node, &row[i], &values[i], made)?;
    }
    Ok(())
}

// The components of all arguments.
#[tactic(auto, using(crate::proofs::SideForms::given_forms))]
fn add_given_sides<'a>(
    bump: &'a Bump,
    all: &[Given<'a>],
    made: &mut Vec<Side<'a>, &'a Bump>,
) -> Result<(), NoMemory>
    ensures { OnOk result (sides_of made.new.items ≡ sides_of made.old.items ++ given_sides (givens_of all.now)) }
{
    for i in 0..all.len() {
        let one = all[i];
        add_sides(bump, one.argument.node, one.stars, one.argument.value, made)?;
    }
    Ok(())
}

/// The components of a function and of its arguments.
#[tactic(auto, using(crate::proofs::SideForms::call_forms))]
pub fn call_sides<'a>(
    bump: &'a Bump,
    head: &Held<'a>,
    all: &[Given<'a>],
) -> Result<&'a [Side<'a>], NoMemory>
    ensures { IfOk result (λ made. sides_of made.now ≡ sides head.now.node (starring no_stars (value_of head.now.value.now)) ++ given_sides (givens_of all.now)) }
{
    let mut made = Vec::new(bump);
    add_whole(bump, head.node, false, head.value, &mut made)?;
    add_given_sides(bump, all, &mut made)?;
    Ok(into_bump_slice(made))
}

/// The components of a value at a node, with these stars.
#[tactic(auto, using(crate::proofs::SideForms::value_forms))]
pub fn value_sides<'a>(
    bump: &'a Bump,
    node: u32,
    stars: &StarTree<'_>,
    value: &ValueTree<'a>,
) -> Result<&'a [Side<'a>], NoMemory>
    ensures { IfOk result (λ made. components_of made.now ≡ starring (stars_of stars.now) (value_of value.now)) }
{
    let mut made = Vec::new(bump);
    add_sides(bump, node, stars, value, &mut made)?;
    Ok(into_bump_slice(made))
}

// Whether one of them has a star.
#[tactic(auto, using(crate::proofs::SideForms::starred_forms))]
fn has_starred(sides: &[Side<'_>]) -> bool
    ensures { result ≡ has_starred (components_of sides.now) }
{
    for i in 0..sides.len() {
        if sides[i].starred {
            return true;
        }
    }
    false
}

/// Whether a component of a value has a star.
pub fn some_starred<'a>(
    bump: &'a Bump,
    stars: &StarTree<'_>,
    value: &ValueTree<'a>,
) -> Result<bool, NoMemory>
    ensures { IfOk result (λ starred. starred ≡ has_starred (starring (stars_of stars.now) (value_of value.now))) }
{
    let made = value_sides(bump, 0, stars, value)?;
    Ok(has_starred(made))
}
