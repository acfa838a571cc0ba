// Open variables take sized types.
ghost use Rattle.std.specs.Prelude.{◌≡◌, ◌&&◌, ℕ, IfOk, Ok, cond};
ghost use Rattle.fut_types.specs.Types.{Ty};
ghost use Rattle.sized_types.specs.Sizes.{Open, has, renamed};
ghost use Rattle.fut_sizes.specs.Matching.{Found as Finding, all_filled, filled, found_size, is_open, is_unknown, open_takes, type_found, with_any_sizes};
ghost use Rattle.size_arena.specs.Trees.{size_of, sizes_of, variable_of};
ghost use Rattle.size_slots.specs.Held.{Fall, Filled, Holds, Met, takes_formed, way_of};

use crate::choices::same_variable;
use crate::meeting::Way;
use crate::reading::with_sizes;
use crate::slots::{Chosen, Found};
use bumpalo::Bump;
use bumpalo::collections::into_bump_slice;
use fut_scalar::{List, NoMemory};
use size_arena::{
    Change, Property, Refusal, SizeErr, SizeTree, Variable, built, changed, function, has, level,
};

/// Whether two open variables are one.
fn same_open(node: u32, variable: Variable, other: u32, found: Variable) -> bool
    ensures { result ≡ is_open node (variable_of variable) other (variable_of found) }
{
    node == other && same_variable(variable, found)
}

/// A sized type in which an open variable has been taken.
#[cycle(filled)]
#[tactic(auto, using(crate::proofs::FillForms::fills))]
fn filled<'a>(
    tree: &'a SizeTree<'a>,
    node: u32,
    variable: Variable,
    size: &'a SizeTree<'a>,
    bump: &'a Bump,
) -> Result<&'a SizeTree<'a>, NoMemory>
    ensures { IfOk result (λ made. size_of made.now ≡ filled node (variable_of variable) (size_of size.now) (size_of tree.now)) }
{
    match tree {
        SizeTree::Hole(_) => Ok(tree),
        SizeTree::Open {
            node: other,
            variable: found,
            ..
        } => {
            if same_open(node, variable, *other, *found) {
                Ok(size)
            } else {
                Ok(tree)
            }
        }
        SizeTree::Level { size: dim, row, .. } => {
            let under = filled(row, node, variable, size, bump)?;
            level(bump, *dim, under)
        }
        SizeTree::Built { head, parts, .. } => {
            let made = all_filled(parts, node, variable, size, bump)?;
            built(bump, *head, made)
        }
        SizeTree::Fun {
            chosen,
            from,
            to,
            ..
        } => {
            let taken = filled(from, node, variable, size, bump)?;
            let given = filled(to, node, variable, size, bump)?;
            function(bump, *chosen, taken, given)
        }
    }
}

#[cycle(filled)]
#[tactic(auto, using(crate::proofs::FillForms::all_fills))]
fn all_filled<'a>(
    parts: &'a [SizeTree<'a>],
    node: u32,
    variable: Variable,
    size: &'a SizeTree<'a>,
    bump: &'a Bump,
) -> Result<&'a [SizeTree<'a>], NoMemory>
    ensures { IfOk result (λ made. sizes_of made.now ≡ all_filled node (variable_of variable) (size_of size.now) (sizes_of parts.now)) }
{
    let mut made = Vec::new(bump);
    for part in parts {
        let after = filled(part, node, variable, size, bump)?;
        made.push(*after)?;
    }
    Ok(into_bump_slice(made))
}

/// Fills what the variables have taken so far.
#[tactic(auto, using(crate::proofs::FillForms::filling))]
fn fill_all<'a>(
    chosen: &mut List<Chosen<'a>>,
    node: u32,
    variable: Variable,
    size: &'a SizeTree<'a>,
    bump: &'a Bump,
) -> Result<(), NoMemory>
    ensures { IfOk result (λ u. Filled chosen.old (filled node (variable_of variable) (size_of size.now)) chosen.new) }
{
    let mut at = 0;
    while at < chosen.len() {
        let one = chosen.as_slice()[at];
        let after = filled(one.size, node, variable, size, bump)?;
        chosen.set(
            at,
            Chosen {
                node: one.node,
                variable: one.variable,
                size: after,
            },
        );
        at += 1;
    }
    Ok(())
}

/// A variable that is open takes a sized type that is read.
pub fn take_type<'a>(
    table: &mut Found<'a>,
    node: u32,
    variable: Variable,
    size: &'a SizeTree<'a>,
    bump: &'a Bump,
) -> Result<(), NoMemory>
    ensures { (σ : Finding) → Holds table.old σ → renamed (found_size σ) (size_of size.now) ≡ size_of size.now → IfOk result (λ u. Holds table.new (type_found node (variable_of variable) (size_of size.now) σ)) }
{
    fill_all(&mut table.chosen, node, variable, size, bump)?;
    table.chosen.push(Chosen {
        node,
        variable,
        size,
    })?;
    Ok(())
}

/// Whether a variable that is wanted takes no such type: one with an unknown size of a function's results.
fn is_refused(wanted: bool, way: Way, tree: &SizeTree<'_>) -> bool
    ensures { result ≡ (wanted && ((way_of way).in_result && has is_unknown (size_of tree.now))) }
{
    wanted && way.in_result && has(tree, &Property::Unknown)
}

/// A variable that is open takes a sized type, in which what is bound outside is any size.
fn take_any<'a>(
    node: u32,
    variable: Variable,
    other: &'a SizeTree<'a>,
    table: &mut Found<'a>,
    bump: &'a Bump,
) -> Result<(), NoMemory>
    requires { Fall table.old.slots }
    ensures { (σ : Finding) → Holds table.old σ → IfOk result (λ u. Holds table.new (type_found node (variable_of variable) (with_any_sizes σ (size_of other.now)) σ)) }
{
    let any = changed(other, &Change::Any, 0, bump)?;
    let taken = with_sizes(any, table, bump)?;
    take_type(table, node, variable, taken, bump)
}

/// A variable that is open takes a sized type that is no variable.
fn take_formed<'a>(
    wanted: bool,
    way: Way,
    at: u32,
    node: u32,
    variable: Variable,
    other: &'a SizeTree<'a>,
    table: &mut Found<'a>,
    bump: &'a Bump,
) -> Result<(), SizeErr>
    requires { Fall table.old.slots }
    ensures { (σ : Finding) → Holds table.old σ → Met (takes_formed wanted (way_of way) at node (variable_of variable) (size_of other.now) σ) table.new result }
{
    if is_refused(wanted, way, other) {
        return Err(SizeErr::Refused(Refusal::Irregular(at)));
    }
    match take_any(node, variable, other, table, bump) {
        Ok(()) => Ok(()),
        Err(NoMemory) => Err(SizeErr::Memory),
    }
}

/// A variable that is open takes another, unless that is the same.
#[tactic(auto, using(crate::proofs::TakeLaws::variable_taking))]
fn take_variable<'a>(
    node: u32,
    variable: Variable,
    there: u32,
    found: Variable,
    other: &'a SizeTree<'a>,
    table: &mut Found<'a>,
    bump: &'a Bump,
) -> Result<(), SizeErr>
    ensures { (u : Ty) (σ : Finding) → size_of other.now ≡ Open there (variable_of found) u → Holds table.old σ → Met (cond (is_open node (variable_of variable) there (variable_of found)) (Ok σ) (Ok (type_found node (variable_of variable) (size_of other.now) σ))) table.new result }
{
    if same_open(node, variable, there, found) {
        return Ok(());
    }
    match take_type(table, node, variable, other, bump) {
        Ok(()) => Ok(()),
        Err(NoMemory) => Err(SizeErr::Memory),
    }
}

/// A variable that is open takes a sized type that is read.
pub fn open_takes<'a>(
    wanted: bool,
    way: Way,
    at: u32,
    node: u32,
    variable: Variable,
    other: &'a SizeTree<'a>,
    table: &mut Found<'a>,
    bump: &'a Bump,
) -> Result<(), SizeErr>
    requires { Fall table.old.slots }
    ensures { (σ : Finding) → Holds table.old σ → Met (open_takes wanted (way_of way) at node (variable_of variable) (size_of other.now) σ) table.new result }
{
    match other {
        SizeTree::Open {
            node: there,
            variable: found,
            ..
        } => take_variable(node, variable, *there, *found, other, table, bump),
        SizeTree::Hole(_) => take_formed(wanted, way, at, node, variable, other, table, bump),
        SizeTree::Level { .. } => take_formed(wanted, way, at, node, variable, other, table, bump),
        SizeTree::Built { .. } => take_formed(wanted, way, at, node, variable, other, table, bump),
        SizeTree::Fun { .. } => take_formed(wanted, way, at, node, variable, other, table, bump),
    }
}
