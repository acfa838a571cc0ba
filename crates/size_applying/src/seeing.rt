// The sized types of the nodes within an application, read: a node that follows another shares what that gives.
ghost use Rattle.std.specs.Prelude.{◌≡◌, IfOk, [], true};
ghost use Rattle.sized_types.specs.Sizes.{Size};
ghost use Rattle.fut_sizes.specs.Applications.{all_settled};
ghost use Rattle.fut_sizes.specs.Functions.{is_slot, quantified, sizes_in};
ghost use Rattle.fut_sizes.specs.Matching.{Found as Finding, read};
ghost use Rattle.size_arena.specs.Trees.{size_of};
ghost use Rattle.size_slots.specs.Held.{Held, Holds, maker_of};
ghost use Rattle.size_applying.specs.Sharing.{Has_seen, Leads_on, Seen_behind, Sees, noted_size};

use crate::arguments::Later;
use crate::sharing::arrows_of;
use bumpalo::Bump;
use fut_scalar::NoMemory;
use size_arena::{Change, SizeTree, changed};
use size_making::{Sought, sizes_in};
use size_settling::{quantified, settle_all};
use size_slots::{Found, Maker, read};
use std::alloc::Global;

/// The sized type of a node, read.
#[derive(Clone, Copy)]
pub struct Seen<'a> {
    pub size: &'a SizeTree<'a>,
    /// So many function types in a row give what names none of their positions, before slots and variables were read.
    pub apart: u32,
    /// Whether it is known that no slot stands in it.
    pub no_slots: bool,
}

/// What was seen last.
#[derive(Clone, Copy)]
pub(crate) struct Last<'a> {
    pub(crate) seen: Option<Seen<'a>>,
}

/// What is seen of a node, and what is noted of it.
#[derive(Clone, Copy)]
pub(crate) struct Noting<'a> {
    pub(crate) seen: Seen<'a>,
    pub(crate) size: &'a SizeTree<'a>,
}

/// A sized type once all variables in it that are still open have sizes of their own, read.
#[tactic(auto, using(size_slots::proofs::TakeLaws::held_falls))]
pub(crate) fn settled<'a>(
    size: &'a SizeTree<'a>,
    table: &mut Found<'a>,
    bump: &'a Bump,
) -> Result<&'a SizeTree<'a>, NoMemory>
    requires { Held table.old }
    ensures settled { (σ : Finding) → Holds table.old σ → IfOk result (λ made. Holds table.new (all_settled (size_of size.now) σ)) }
    ensures read { (σ : Finding) → Holds table.old σ → IfOk result (λ made. size_of made.now ≡ read (all_settled (size_of size.now) σ) (size_of size.now)) }
    ensures held { IfOk result (λ made. Held table.new) }
{
    settle_all(size, table, bump)?;
    let made = read(size, table, bump)?;
    Ok(made)
}

/// Whether no slot stands in a sized type.
fn has_no_slots(tree: &SizeTree<'_>, alloc: Global) -> Result<bool, NoMemory>
    ensures { IfOk result (λ none. none ≡ true → sizes_in is_slot (size_of tree.now) ≡ []) }
{
    let slots = sizes_in(tree, &Sought::Slots, alloc)?;
    Ok(slots.len() == 0)
}

/// The sized type of a node by itself.
fn seen_anew<'a>(
    later: &Later<'a>,
    table: &mut Found<'a>,
    bump: &'a Bump,
    alloc: Global,
) -> Result<Seen<'a>, NoMemory>
    requires { Held table.old }
    ensures seen { (σ : Finding) → Holds table.old σ → IfOk result (Has_seen table.new later.now σ) }
    ensures held { IfOk result (λ s. Held table.new) }
{
    let opened = changed(later.size, &Change::Open(later.frames), 0, bump)?;
    let arrows = arrows_of(opened)?;
    let size = settled(opened, table, bump)?;
    let no_slots = has_no_slots(size, alloc)?;
    Ok(Seen {
        size,
        apart: arrows.apart,
        no_slots,
    })
}

/// What stands behind the first arrow, if that names none of its positions.
fn behind_arrow<'a>(before: &Seen<'a>) -> Option<Seen<'a>>
    ensures { Seen_behind (Some before.now) true result }
{
    if before.apart == 0 {
        return None;
    }
    match before.size {
        SizeTree::Fun { to, .. } => Some(Seen {
            size: to,
            apart: before.apart - 1,
            no_slots: before.no_slots,
        }),
        SizeTree::Hole(_) => None,
        SizeTree::Open { .. } => None,
        SizeTree::Level { .. } => None,
        SizeTree::Built { .. } => None,
    }
}

/// What is seen of a node from the one before, where it follows that.
fn seen_behind<'a>(last: &Last<'a>, follows: bool) -> Option<Seen<'a>>
    ensures { Seen_behind last.now.seen follows result }
{
    if !follows {
        return None;
    }
    match &last.seen {
        Some(before) => behind_arrow(before),
        None => None,
    }
}

/// The sized type of a node: what the one before gives, or read by itself.
fn seen_next<'a>(
    last: &Last<'a>,
    later: &Later<'a>,
    table: &mut Found<'a>,
    bump: &'a Bump,
    alloc: Global,
) -> Result<Seen<'a>, NoMemory>
    requires { Held table.old }
    ensures seen { (σ : Finding) → Holds table.old σ → Leads_on last.now.seen later.now σ → IfOk result (Has_seen table.new later.now σ) }
    ensures held { IfOk result (λ s. Held table.new) }
{
    match seen_behind(last, later.follows) {
        Some(seen) => Ok(seen),
        None => seen_anew(later, table, bump, alloc),
    }
}

/// What is noted of a node: slots in it are chosen again.
fn quantified_seen<'a>(
    seen: &Seen<'a>,
    makers: &[Maker],
    bump: &'a Bump,
    alloc: Global,
) -> Result<&'a SizeTree<'a>, NoMemory>
    ensures { (σ : Finding) (t : Size) → Sees seen.now σ t → IfOk result (λ made. size_of made.now ≡ quantified (maker_of makers.now) (read σ t)) }
{
    if seen.no_slots {
        Ok(seen.size)
    } else {
        quantified(makers, seen.size, bump, alloc)
    }
}

/// What is seen of a node, and what is noted of it.
pub(crate) fn noting_of<'a>(
    last: &Last<'a>,
    later: &Later<'a>,
    table: &mut Found<'a>,
    bump: &'a Bump,
    alloc: Global,
) -> Result<Noting<'a>, NoMemory>
    requires { Held table.old }
    ensures seen { (σ : Finding) → Holds table.old σ → Leads_on last.now.seen later.now σ → IfOk result (λ n. Has_seen table.new later.now σ n.seen) }
    ensures size { (σ : Finding) → Holds table.old σ → Leads_on last.now.seen later.now σ → IfOk result (λ n. size_of n.size.now ≡ noted_size later.now σ) }
    ensures held { IfOk result (λ n. Held table.new) }
{
    let seen = seen_next(last, later, table, bump, alloc)?;
    let size = quantified_seen(&seen, table.makers.as_slice(), bump, alloc)?;
    Ok(Noting { seen, size })
}
