// The sized types of nodes, and the levels that loops drop.
ghost use Rattle.std.specs.Prelude.{◌≡◌, ◌++◌, IfOk};
ghost use Rattle.sized_types.specs.Sizes.{Size};
ghost use Rattle.fut_sizes.specs.Steps.{State, drop, note};
ghost use Rattle.size_arena.specs.Trees.{size_of};
ghost use Rattle.size_program.specs.Answers.{Steps};
ghost use Rattle.size_program.specs.Tables.{Stands, dropped_at, node_at};

use bumpalo::Bump;
use bumpalo::collections::into_bump_slice;
use fut_scalar::{List, NoMemory};
use size_arena::{SizeErr, SizeTree, Variable, hole};

/// What the pass keeps of nodes.
#[derive(Drop)]
pub struct Tables<'a> {
    /// By the numbers of nodes, the sized types that are known so far.
    pub nodes: List<Option<&'a SizeTree<'a>>>,
    /// By the numbers of nodes, of each loop the levels of its parameter that it does not keep.
    pub dropped: List<Option<&'a [u32]>>,
}

/// The sized type of a node is known.
#[tactic(auto, using(crate::proofs::NoteForms::notes))]
pub fn note<'a>(tables: &mut Tables<'a>, node: u32, size: &'a SizeTree<'a>) -> Result<(), SizeErr>
    ensures { Steps (λ u y. y ≡ size_of size.now) (note node (size_of size.now)) tables.old tables.new result }
{
    let at = node as usize;
    if at >= tables.nodes.len() {
        return Err(SizeErr::Memory);
    }
    tables.nodes.set(at, Some(size));
    Ok(())
}

/// The sized type that is known of a node; one of which nothing is known has a type variable of its own.
#[tactic(auto, using(crate::proofs::NoteForms::nodes))]
pub fn node_size<'a>(
    tables: &Tables<'a>,
    node: u32,
    bump: &'a Bump,
) -> Result<&'a SizeTree<'a>, NoMemory>
    ensures { (s : State) → Stands tables.now s → IfOk result (λ t. size_of t.now ≡ s.nodes node) }
{
    let at = node as usize;
    if at < tables.nodes.len() {
        if let Some(size) = tables.nodes.as_slice()[at] {
            return Ok(size);
        }
    }
    hole(bump, Variable::Inferred(node))
}

/// The levels that the loop at a node does not keep so far.
#[tactic(auto, using(crate::proofs::NoteForms::drops))]
pub fn dropped_by<'a>(tables: &Tables<'a>, node: u32, bump: &'a Bump) -> &'a [u32]
    ensures { (s : State) → Stands tables.now s → result.now ≡ s.dropped node }
{
    let at = node as usize;
    if at < tables.dropped.len() {
        if let Some(levels) = tables.dropped.as_slice()[at] {
            return levels;
        }
    }
    into_bump_slice(Vec::new(bump))
}

fn both<'a>(first: &[u32], second: &[u32], bump: &'a Bump) -> Result<&'a [u32], NoMemory>
    ensures { IfOk result (λ all. all.now ≡ first.now ++ second.now) }
{
    let mut all = Vec::new(bump);
    all.extend_from_slice(first)?;
    all.extend_from_slice(second)?;
    Ok(into_bump_slice(all))
}

/// The loop at a node does not keep these levels either.
#[tactic(auto, using(crate::proofs::NoteForms::more_drops))]
pub fn drop_levels<'a>(
    tables: &mut Tables<'a>,
    node: u32,
    levels: &[u32],
    bump: &'a Bump,
) -> Result<(), SizeErr>
    ensures { Steps (λ u y. y ≡ u) (drop node levels.now) tables.old tables.new result }
{
    let at = node as usize;
    if at >= tables.dropped.len() {
        return Err(SizeErr::Memory);
    }
    let all = both(dropped_by(tables, node, bump), levels, bump)?;
    tables.dropped.set(at, Some(all));
    Ok(())
}
