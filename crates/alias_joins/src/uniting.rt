// The sets of a value's components, and values with other sets.
ghost use Rattle.std.specs.Prelude.{◌≡◌, ◌+◌, ◌++◌, OnOk, IfOk};
ghost use Rattle.fut_aliases.specs.Values.{all_components, all_with_sets, components, having, nth, unite, united, with_sets};
ghost use Rattle.alias_joins.specs.SetRows.{sets_of};
ghost use Rattle.alias_values.specs.Trees.{value_of, values_of};

use alias_values::{ValueTree, array, component_count, function, parts, union};
use bumpalo::Bump;
use bumpalo::collections::into_bump_slice;
use fut_aliases::Alias;
use fut_scalar::NoMemory;

#[cycle(add_components)]
#[tactic(auto, using(crate::proofs::UniteForms::add_forms))]
fn add_components<'a>(
    value: &ValueTree<'a>,
    made: &mut Vec<&'a [Alias], &'a Bump>,
) -> Result<(), NoMemory>
    ensures { OnOk result (sets_of made.new.items ≡ sets_of made.old.items ++ components (value_of value.now)) }
{
    match value {
        ValueTree::Scalar => Ok(()),
        ValueTree::Array(set) | ValueTree::Function(set, _) => {
            made.push(*set)?;
            Ok(())
        }
        ValueTree::Parts(_, values) => {
            add_all_components(values, made)?;
            Ok(())
        }
    }
}

#[cycle(add_components)]
#[tactic(auto, using(crate::proofs::UniteForms::add_all_forms))]
fn add_all_components<'a>(
    values: &[ValueTree<'a>],
    made: &mut Vec<&'a [Alias], &'a Bump>,
) -> Result<(), NoMemory>
    ensures { OnOk result (sets_of made.new.items ≡ sets_of made.old.items ++ all_components (values_of values.now)) }
{
    for value in values {
        add_components(value, made)?;
    }
    Ok(())
}

/// The sets of a value's components, from left to right.
#[tactic(auto)]
pub fn components<'a>(bump: &'a Bump, value: &ValueTree<'a>) -> Result<&'a [&'a [Alias]], NoMemory>
    ensures { IfOk result (λ sets. sets_of sets.now ≡ components (value_of value.now)) }
{
    let mut made = Vec::new(bump);
    add_components(value, &mut made)?;
    Ok(into_bump_slice(made))
}

/// The sets of two rows, united one by one. Where the second has none the first stands.
#[tactic(auto, using(crate::proofs::UniteForms::united_forms))]
pub fn united<'a>(
    bump: &'a Bump,
    left: &[&'a [Alias]],
    right: &[&'a [Alias]],
) -> Result<&'a [&'a [Alias]], NoMemory>
    ensures { IfOk result (λ sets. sets_of sets.now ≡ united (sets_of left.now) (sets_of right.now)) }
{
    let both = left.len().min(right.len());
    let mut made = Vec::new(bump);
    for i in 0..both {
        let set = union(bump, left[i], right[i])?;
        made.push(set)?;
    }
    made.extend_from_slice(left.split_at(both).1)?;
    Ok(into_bump_slice(made))
}

// The set at a number.
#[tactic(auto, using(crate::proofs::UniteForms::nth_forms))]
fn nth<'a>(sets: &[&'a [Alias]], number: u32) -> &'a [Alias]
    ensures { result.now ≡ nth (sets_of sets.now) number }
{
    let at = number as usize;
    if at < sets.len() { sets[at] } else { &[] }
}

// The value with these sets at its components, which are numbered from `first` on.
#[cycle(with_sets)]
#[tactic(auto, using(crate::proofs::UniteForms::with_forms))]
fn with_sets<'a>(
    bump: &'a Bump,
    sets: &[&'a [Alias]],
    first: u32,
    value: &'a ValueTree<'a>,
) -> Result<&'a ValueTree<'a>, NoMemory>
    ensures { IfOk result (λ made. value_of made.now ≡ with_sets (λ i s. nth (sets_of sets.now) i) first (value_of value.now)) }
{
    match value {
        ValueTree::Scalar => Ok(value),
        ValueTree::Array(_) => {
            let made = array(bump, nth(sets, first))?;
            Ok(made)
        }
        ValueTree::Function(_, stars) => {
            let made = function(bump, nth(sets, first), stars)?;
            Ok(made)
        }
        ValueTree::Parts(head, values) => {
            let all = all_with_sets(bump, sets, first, values)?;
            let made = parts(bump, *head, all)?;
            Ok(made)
        }
    }
}

#[cycle(with_sets)]
#[tactic(auto, using(crate::proofs::UniteForms::all_with_forms))]
fn all_with_sets<'a>(
    bump: &'a Bump,
    sets: &[&'a [Alias]],
    first: u32,
    values: &'a [ValueTree<'a>],
) -> Result<&'a [ValueTree<'a>], NoMemory>
    ensures { IfOk result (λ made. values_of made.now ≡ all_with_sets (λ i s. nth (sets_of sets.now) i) first (values_of values.now)) }
{
    let mut made = Vec::new(bump);
    let mut next = first;
    for value in values {
        let one = with_sets(bump, sets, next, value)?;
        made.push(*one)?;
        next = component_count(value, next)?;
    }
    Ok(into_bump_slice(made))
}

/// The value with these sets at its components, from left to right.
pub fn having<'a>(
    bump: &'a Bump,
    sets: &[&'a [Alias]],
    value: &'a ValueTree<'a>,
) -> Result<&'a ValueTree<'a>, NoMemory>
    ensures { IfOk result (λ made. value_of made.now ≡ having (sets_of sets.now) (value_of value.now)) }
{
    let made = with_sets(bump, sets, 0, value)?;
    Ok(made)
}

/// What either of two values may share memory with.
pub fn unite<'a>(
    bump: &'a Bump,
    left: &'a ValueTree<'a>,
    right: &ValueTree<'a>,
) -> Result<&'a ValueTree<'a>, NoMemory>
    ensures { IfOk result (λ made. value_of made.now ≡ unite (value_of left.now) (value_of right.now)) }
{
    let mine = components(bump, left)?;
    let others = components(bump, right)?;
    let sets = united(bump, mine, others)?;
    let made = having(bump, sets, left)?;
    Ok(made)
}
