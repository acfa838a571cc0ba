// Components without a star.
ghost use Rattle.std.specs.Prelude.{◌≡◌, ◌+◌, IfOk};
ghost use Rattle.fut_aliases.specs.Calls.{unstarred};
ghost use Rattle.fut_aliases.specs.Values.{all_starring, starring};
ghost use Rattle.alias_values.specs.Trees.{row_of, stars_of, value_of, values_of};

use alias_values::{StarTree, ValueTree, component_count};
use fut_scalar::NoMemory;

// A number behind those of the components without a star, the first of which has this number.
#[cycle(add_unstarred)]
#[tactic(auto, using(crate::proofs::CountForms::count_forms))]
fn add_unstarred(stars: &StarTree<'_>, value: &ValueTree<'_>, first: u32) -> Result<u32, NoMemory>
    ensures { IfOk result (λ next. next ≡ first + unstarred (starring (stars_of stars.now) (value_of value.now))) }
{
    match stars {
        StarTree::Leaf(starred) | StarTree::Arrow(starred, _, _) => {
            if *starred {
                return Ok(first);
            }
            let next = component_count(value, first)?;
            Ok(next)
        }
        StarTree::Row(row) => match value {
            ValueTree::Parts(_, values) => {
                let next = add_all_unstarred(row, values, first)?;
                Ok(next)
            }
            ValueTree::Scalar | ValueTree::Array(_) | ValueTree::Function(_, _) => {
                let next = component_count(value, first)?;
                Ok(next)
            }
        },
    }
}

#[cycle(add_unstarred)]
#[tactic(auto, using(crate::proofs::CountForms::all_count_forms))]
fn add_all_unstarred(
    row: &[StarTree<'_>],
    values: &[ValueTree<'_>],
    first: u32,
) -> Result<u32, NoMemory>
    ensures { IfOk result (λ next. next ≡ first + unstarred (all_starring (row_of row.now) (values_of values.now))) }
{
    let mut next = first;
    for i in 0..row.len() {
        if i >= values.len() {
            return Ok(next);
        }
        next = add_unstarred(&row[i], &values[i], next)?;
    }
    Ok(next)
}

/// How many components of a value have no star.
pub fn unstarred(stars: &StarTree<'_>, value: &ValueTree<'_>) -> Result<u32, NoMemory>
    ensures { IfOk result (λ count. count ≡ unstarred (starring (stars_of stars.now) (value_of value.now))) }
{
    let count = add_unstarred(stars, value, 0)?;
    Ok(count)
}
