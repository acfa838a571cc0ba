// What names stand for.
ghost use Rattle.std.specs.Prelude.{◌≡◌, ◌∷◌, IfOk};
ghost use Rattle.fut_aliases.specs.Aliases.{comes_first, first_name_alone};
ghost use Rattle.fut_aliases.specs.Values.{all_named, named};
ghost use Rattle.alias_values.specs.Trees.{value_of, values_of};

use crate::nodes::{array, function, parts};
use crate::sets::is_before;
use crate::trees::ValueTree;
use crate::values::component_count;
use bumpalo::Bump;
use bumpalo::collections::into_bump_slice;
use fut_aliases::Alias;
use fut_scalar::{BindId, NoMemory};

// Whether an alias comes before all of a set.
#[tactic(auto, using(crate::proofs::NameForms::first_forms))]
fn comes_first(alias: Alias, set: &[Alias]) -> bool
    ensures { result ≡ comes_first alias set.now }
{
    if set.is_empty() {
        return true;
    }
    is_before(alias, set[0])
}

// The set behind one more alias.
fn put_first<'a>(bump: &'a Bump, alias: Alias, set: &[Alias]) -> Result<&'a [Alias], NoMemory>
    ensures { IfOk result (λ all. all.now ≡ alias ∷ set.now) }
{
    let mut all = Vec::new(bump);
    all.push(alias)?;
    all.extend_from_slice(set)?;
    Ok(into_bump_slice(all))
}

/// The set of what a name stands for: what has an earlier name already shares with that.
#[tactic(auto, using(crate::proofs::NameForms::name_forms))]
pub fn joined<'a>(bump: &'a Bump, alias: Alias, set: &'a [Alias]) -> Result<&'a [Alias], NoMemory>
    ensures { IfOk result (λ all. all.now ≡ first_name_alone alias set.now) }
{
    if !comes_first(alias, set) {
        return Ok(set);
    }
    let all = put_first(bump, alias, set)?;
    Ok(all)
}

/// The value that a name stands for, which is bound at a node: each array of it has the name, and where the name is a parameter
/// each function. Its components are numbered from `first` on.
#[cycle(named)]
#[tactic(auto, using(crate::proofs::NameForms::named_forms))]
pub fn named<'a>(
    bump: &'a Bump,
    parameter: bool,
    node: u32,
    bind: BindId,
    first: u32,
    value: &'a ValueTree<'a>,
) -> Result<&'a ValueTree<'a>, NoMemory>
    ensures { IfOk result (λ made. value_of made.now ≡ named first_name_alone parameter node bind first (value_of value.now)) }
{
    match value {
        ValueTree::Scalar => Ok(value),
        ValueTree::Array(set) => {
            let all = joined(bump, Alias::Part(node, first, bind), set)?;
            let made = array(bump, all)?;
            Ok(made)
        }
        ValueTree::Function(set, stars) => {
            if !parameter {
                return Ok(value);
            }
            let all = joined(bump, Alias::Part(node, first, bind), set)?;
            let made = function(bump, all, stars)?;
            Ok(made)
        }
        ValueTree::Parts(head, values) => {
            let all = all_named(bump, parameter, node, bind, first, values)?;
            let made = parts(bump, *head, all)?;
            Ok(made)
        }
    }
}

#[cycle(named)]
#[tactic(auto, using(crate::proofs::NameForms::all_named_forms))]
fn all_named<'a>(
    bump: &'a Bump,
    parameter: bool,
    node: u32,
    bind: BindId,
    first: u32,
    values: &'a [ValueTree<'a>],
) -> Result<&'a [ValueTree<'a>], NoMemory>
    ensures { IfOk result (λ made. values_of made.now ≡ all_named first_name_alone parameter node bind first (values_of values.now)) }
{
    let mut made = Vec::new(bump);
    let mut next = first;
    for value in values {
        let one = named(bump, parameter, node, bind, next, value)?;
        made.push(*one)?;
        next = component_count(value, next)?;
    }
    Ok(into_bump_slice(made))
}
