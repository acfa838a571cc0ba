// Variables that nothing has filled get sizes of their own.
ghost use Rattle.std.specs.Prelude.{ℕ, IfOk};
ghost use Rattle.fut_sizes.specs.Applications.{all_settled, own_type, parts_settled};
ghost use Rattle.fut_sizes.specs.Matching.{Found as Finding, read};
ghost use Rattle.size_arena.specs.Trees.{size_of, sizes_of, type_of, variable_of};
ghost use Rattle.size_slots.specs.Held.{Fall, Held, Holds};
ghost use Rattle.size_settling.specs.Settled.{settled_by};

use bumpalo::Bump;
use fut_scalar::NoMemory;
use size_arena::{SizeTree, TypeTree, Variable};
use size_making::{Making, of_type, past_type};
use size_slots::{Found, made_at, read, take_type, with_sizes};

/// A variable of this type, which the use at a node opened, gets sizes of its own: slots, by the next numbers.
fn own_type<'a>(
    node: u32,
    variable: Variable,
    ty: &TypeTree<'_>,
    table: &mut Found<'a>,
    bump: &'a Bump,
) -> Result<(), NoMemory>
    requires { Fall table.old.slots }
    ensures { (σ : Finding) → Holds table.old σ → IfOk result (λ u. Holds table.new (own_type node (variable_of variable) (type_of ty.now) σ)) }
{
    let made = of_type(ty, Making::Slots(table.next), 0, bump)?;
    let size = with_sizes(made, table, bump)?;
    let next = past_type(ty, table.next)?;
    made_at(table, node)?;
    table.next = next;
    take_type(table, node, variable, size, bump)
}

/// What a variable stands for, if it is still open, gets sizes of its own.
fn settle_taken<'a>(
    taken: &'a SizeTree<'a>,
    table: &mut Found<'a>,
    bump: &'a Bump,
) -> Result<(), NoMemory>
    requires { Fall table.old.slots }
    ensures { (σ : Finding) → Holds table.old σ → IfOk result (λ u. Holds table.new (settled_by (size_of taken.now) σ)) }
{
    match taken {
        SizeTree::Open { node, variable, ty } => own_type(*node, *variable, ty, table, bump),
        SizeTree::Hole(_) => Ok(()),
        SizeTree::Level { .. } => Ok(()),
        SizeTree::Built { .. } => Ok(()),
        SizeTree::Fun { .. } => Ok(()),
    }
}

/// The variable of a use, if it is still open, gets sizes of its own.
#[tactic(auto, using(size_slots::proofs::TakeLaws::held_falls))]
fn settle_open<'a>(
    tree: &'a SizeTree<'a>,
    table: &mut Found<'a>,
    bump: &'a Bump,
) -> Result<(), NoMemory>
    requires { Held table.old }
    ensures settled { (σ : Finding) → Holds table.old σ → IfOk result (λ u. Holds table.new (settled_by (read σ (size_of tree.now)) σ)) }
    ensures held { IfOk result (λ u. Held table.new) }
{
    match read(tree, table, bump) {
        Ok(taken) => settle_taken(taken, table, bump),
        Err(NoMemory) => Err(NoMemory),
    }
}

/// All variables of a sized type that are still open get sizes of their own.
#[cycle(settled)]
pub fn settle_all<'a>(
    tree: &'a SizeTree<'a>,
    table: &mut Found<'a>,
    bump: &'a Bump,
) -> Result<(), NoMemory>
    requires { Held table.old }
    ensures settled { (σ : Finding) → Holds table.old σ → IfOk result (λ u. Holds table.new (all_settled (size_of tree.now) σ)) }
    ensures held { IfOk result (λ u. Held table.new) }
{
    match tree {
        SizeTree::Hole(_) => Ok(()),
        SizeTree::Open { .. } => settle_open(tree, table, bump),
        SizeTree::Level { row, .. } => settle_all(row, table, bump),
        SizeTree::Built { parts, .. } => settle_parts(parts, table, bump),
        SizeTree::Fun { from, to, .. } => {
            match settle_all(from, table, bump) {
                Ok(()) => settle_all(to, table, bump),
                Err(NoMemory) => Err(NoMemory),
            }
        }
    }
}

#[cycle(settled)]
fn settle_parts<'a>(
    parts: &'a [SizeTree<'a>],
    table: &mut Found<'a>,
    bump: &'a Bump,
) -> Result<(), NoMemory>
    requires { Held table.old }
    ensures settled { (σ : Finding) → Holds table.old σ → IfOk result (λ u. Holds table.new (parts_settled (sizes_of parts.now) σ)) }
    ensures held { IfOk result (λ u. Held table.new) }
{
    for part in parts {
        match settle_all(part, table, bump) {
            Ok(()) => {}
            Err(NoMemory) => return Err(NoMemory),
        }
    }
    Ok(())
}
