// Values by component.
ghost use Rattle.std.specs.Prelude.{◌≡◌, ◌+◌, IfOk};
ghost use Rattle.fut_aliases.specs.Values.{all_components, components, how_many};
ghost use Rattle.alias_values.specs.Components.{all_how_many, onto};
ghost use Rattle.alias_values.specs.Trees.{value_of, values_of};

use crate::sets::union;
use crate::trees::ValueTree;
use bumpalo::Bump;
use fut_aliases::Alias;
use fut_scalar::NoMemory;

/// A number behind those of a value's components, the first of which has this number.
#[cycle(component_count)]
#[tactic(auto, using(crate::proofs::ValueForms::count_forms))]
pub fn component_count(value: &ValueTree<'_>, first: u32) -> Result<u32, NoMemory>
    ensures { IfOk result (λ next. next ≡ first + how_many (value_of value.now)) }
{
    match value {
        ValueTree::Scalar => Ok(first),
        ValueTree::Array(_) | ValueTree::Function(_, _) => {
            let next = one_more(first)?;
            Ok(next)
        }
        ValueTree::Parts(_, parts) => {
            let next = all_count(parts, first)?;
            Ok(next)
        }
    }
}

fn one_more(first: u32) -> Result<u32, NoMemory>
    ensures { IfOk result (λ next. next ≡ first + 1) }
{
    match first.checked_add(1) {
        Some(next) => Ok(next),
        None => Err(NoMemory),
    }
}

#[cycle(component_count)]
#[tactic(auto, using(crate::proofs::ValueForms::all_count_forms))]
fn all_count(parts: &[ValueTree<'_>], first: u32) -> Result<u32, NoMemory>
    ensures { IfOk result (λ next. next ≡ first + all_how_many (values_of parts.now)) }
{
    let mut next = first;
    for part in parts {
        next = component_count(part, next)?;
    }
    Ok(next)
}

/// The aliases of a value before those of a set: all that both may share memory with.
#[cycle(add_aliases)]
#[tactic(auto, using(crate::proofs::ValueForms::onto_forms))]
pub fn add_aliases<'a>(
    bump: &'a Bump,
    value: &ValueTree<'_>,
    set: &'a [Alias],
) -> Result<&'a [Alias], NoMemory>
    ensures { IfOk result (λ all. all.now ≡ onto (components (value_of value.now)) set.now) }
{
    match value {
        ValueTree::Scalar => Ok(set),
        ValueTree::Array(own) | ValueTree::Function(own, _) => {
            let all = union(bump, own, set)?;
            Ok(all)
        }
        ValueTree::Parts(_, parts) => {
            let all = add_all_aliases(bump, parts, set)?;
            Ok(all)
        }
    }
}

#[cycle(add_aliases)]
#[tactic(auto, using(crate::proofs::ValueForms::all_onto_forms))]
fn add_all_aliases<'a>(
    bump: &'a Bump,
    parts: &[ValueTree<'_>],
    set: &'a [Alias],
) -> Result<&'a [Alias], NoMemory>
    ensures { IfOk result (λ all. all.now ≡ onto (all_components (values_of parts.now)) set.now) }
{
    let mut all = set;
    let mut i = parts.len();
    'parts: while i > 0 {
        i -= 1;
        all = add_aliases(bump, &parts[i], all)?;
    }
    Ok(all)
}
