// The tables, and what a slot stands for.
ghost use Rattle.std.specs.Prelude.{◌≡◌, IfOk};
ghost use Rattle.fut_sizes.specs.Matching.{Found as Finding, nothing_found};
ghost use Rattle.size_arena.specs.Trees.{free_of};
ghost use Rattle.size_slots.specs.Held.{Fall, Follows, Holds, Sets, slot_at};

use fut_scalar::{List, NoMemory};
use size_arena::{Free, SizeTree, Variable};
use std::alloc::Global;

/// A size that a function's caller chooses.
#[derive(Clone, Copy)]
pub enum Slot {
    Open,
    /// The first size that it met. One that met a slot is a link to it, and that has a smaller number.
    Taken(Free),
}

/// The sized type that an open variable of the use at a node took.
#[derive(Clone, Copy)]
pub struct Chosen<'a> {
    pub node: u32,
    pub variable: Variable,
    pub size: &'a SizeTree<'a>,
}

/// From a number on, numbers are made at a node.
#[derive(Clone, Copy)]
pub struct Maker {
    pub first: u32,
    pub node: u32,
}

/// What an application has found.
#[derive(Drop)]
pub struct Found<'a> {
    /// By their numbers; those behind the last are open.
    pub slots: List<Slot>,
    pub chosen: List<Chosen<'a>>,
    /// The next number of a slot, and of an unknown of an application's node.
    pub next: u32,
    /// By the numbers from which on they count: of two, the later one.
    pub makers: List<Maker>,
}

/// What an application has found before it meets anything.
#[tactic(auto, using(crate::proofs::HeldLaws::nothing_held))]
pub fn nothing_found<'a>(alloc: Global) -> Found<'a>
    ensures { Holds result nothing_found }
{
    Found {
        slots: List::new(alloc),
        chosen: List::new(alloc),
        next: 0,
        makers: List::new(alloc),
    }
}

/// What a slot took.
#[tactic(auto, using(crate::proofs::HeldLaws::slots_behind))]
pub(crate) fn slot_of(slots: &List<Slot>, number: u32) -> Slot
    ensures { result ≡ slot_at slots.now number }
{
    let at = number as usize;
    if at < slots.len() {
        slots.as_slice()[at]
    } else {
        Slot::Open
    }
}

/// The size that a slot stands for: what it took, or the open slot to which its links lead.
#[tactic(auto, using(crate::proofs::HeldLaws::finds))]
pub(crate) fn find(slots: &List<Slot>, number: u32) -> Free
    requires { Fall slots.now }
    ensures { (σ : Finding) → Follows slots.now σ → free_of result ≡ σ.size number }
{
    let mut at = number;
    let mut slot = slot_of(slots, at);
    while let Slot::Taken(Free::Slot(next)) = slot {
        at = next;
        slot = slot_of(slots, at);
    }
    match slot {
        Slot::Open => Free::Slot(at),
        Slot::Taken(free) => free,
    }
}

/// Lets a slot stand for a size.
#[tactic(auto, using(crate::proofs::HeldLaws::set_slots))]
pub(crate) fn set_slot(slots: &mut List<Slot>, number: u32, free: Free) -> Result<(), NoMemory>
    ensures { IfOk result (λ u. Sets slots.old number free slots.new) }
{
    let at = number as usize;
    while slots.len() <= at {
        slots.push(Slot::Open)?;
    }
    slots.set(at, Slot::Taken(free));
    Ok(())
}
