// What a loop carries.
ghost use Rattle.std.specs.Prelude.{◌≡◌, IfOk};
ghost use Rattle.fut_aliases.specs.Loops.{all_carried, some_lost, starts};
ghost use Rattle.fut_aliases.specs.Values.{components};
ghost use Rattle.fut_flat.specs.Erased.{term_of};
ghost use Rattle.fut_types.specs.Shapes.{IsTable};
ghost use Rattle.fut_typing.specs.Names.{Names};
ghost use Rattle.alias_joins.specs.SetRows.{sets_of};
ghost use Rattle.alias_loops.specs.Carried.{carrieds_of};
ghost use Rattle.alias_parts.specs.Known.{Knows};
ghost use Rattle.alias_values.specs.Trees.{value_of};

use crate::starting::starts;
use alias_joins::components;
use alias_losses::Losses;
use alias_parts::PartNames;
use alias_values::ValueTree;
use bumpalo::Bump;
use bumpalo::collections::into_bump_slice;
use fut_aliases::Alias;
use fut_flat::Exp;
use fut_scalar::NoMemory;

/// A component that a loop carries.
#[derive(Clone, Copy)]
pub struct Carried<'a> {
    /// Where its first value begins.
    pub node: u32,
    /// Its own name, if it has one.
    pub own: &'a [Alias],
    /// Its first value's set.
    pub first: &'a [Alias],
    /// The set of what the body gives for it, where each parameter stands for itself.
    pub gives: &'a [Alias],
    /// Whether condition or body consumes it.
    pub is_eaten: bool,
}

// Whether an alias of a set was consumed.
#[tactic(auto, using(crate::proofs::CarriedForms::lost_forms))]
fn some_lost(losses: &Losses, set: &[Alias]) -> bool
    ensures { result ≡ some_lost losses.now set.now }
{
    for i in 0..set.len() {
        match losses.lost_at(set[i]) {
            Some(_) => return true,
            None => (),
        }
    }
    false
}

fn all_carried<'a>(
    bump: &'a Bump,
    losses: &Losses,
    nodes: &[u32],
    own: &[&'a [Alias]],
    first: &[&'a [Alias]],
    gives: &[&'a [Alias]],
) -> Result<&'a [Carried<'a>], NoMemory>
    ensures { IfOk result (λ made. carrieds_of made.now ≡ all_carried losses.now nodes.now (sets_of own.now) (sets_of first.now) (sets_of gives.now)) }
{
    let count = nodes.len().min(own.len()).min(first.len()).min(gives.len());
    let mut made = Vec::new(bump);
    for i in 0..count {
        made.push(Carried {
            node: nodes[i],
            own: own[i],
            first: first[i],
            gives: gives[i],
            is_eaten: some_lost(losses, own[i]),
        })?;
    }
    Ok(into_bump_slice(made))
}

/// What a loop carries, from what its first look found: `losses` at its end, and what the body gave. The first value is written at a
/// node; `own` has the loop's pattern's own names at its components.
pub fn carried_by<'a>(
    bump: &'a Bump,
    names: &PartNames<'_>,
    losses: &Losses,
    first: &Exp<'_>,
    node: u32,
    own: &ValueTree<'a>,
    value: &'a ValueTree<'a>,
    given: &ValueTree<'a>,
) -> Result<&'a [Carried<'a>], NoMemory>
    requires table { IsTable names.now.table.now }
    ensures { (N : Names) → Knows names.now N → IfOk result (λ made. carrieds_of made.now ≡ all_carried losses.now (starts N (term_of first.now) node (value_of value.now)) (components (value_of own.now)) (components (value_of value.now)) (components (value_of given.now))) }
{
    let nodes = starts(bump, names, first, node, value)?;
    let own_sets = components(bump, own)?;
    let first_sets = components(bump, value)?;
    let given_sets = components(bump, given)?;
    all_carried(bump, losses, nodes, own_sets, first_sets, given_sets)
}
