// Open variables, and the sized types that they took.
ghost use Rattle.std.specs.Prelude.{◌≡◌};
ghost use Rattle.sized_types.specs.Sizes.{is_variable};
ghost use Rattle.fut_sizes.specs.Matching.{is_open};
ghost use Rattle.size_arena.specs.Trees.{variable_of};
ghost use Rattle.size_slots.specs.Held.{Choice};

use crate::slots::Chosen;
use size_arena::{SizeTree, Variable};

/// Whether two variables are one.
pub(crate) fn same_variable(left: Variable, right: Variable) -> bool
    ensures { result ≡ is_variable (variable_of left) (variable_of right) }
{
    match left {
        Variable::Inferred(one) => matches!(right, Variable::Inferred(other) if one == other),
        Variable::Written(one, _) => matches!(right, Variable::Written(other, _) if one == other),
    }
}

/// Whether this was chosen for the variable of the use at a node.
fn is_choice(one: &Chosen<'_>, node: u32, variable: Variable) -> bool
    ensures { result ≡ is_open one.now.node (variable_of one.now.variable) node (variable_of variable) }
{
    one.node == node && same_variable(one.variable, variable)
}

/// What an open variable of the use at a node took, if it took something.
#[tactic(auto, using(crate::proofs::ChoiceLaws::choices))]
pub(crate) fn chosen_of<'a>(
    chosen: &[Chosen<'a>],
    node: u32,
    variable: Variable,
) -> Option<&'a SizeTree<'a>>
    ensures { Choice chosen.now node (variable_of variable) result }
{
    for one in chosen {
        if is_choice(one, node, variable) {
            return Some(one.size);
        }
    }
    None
}
