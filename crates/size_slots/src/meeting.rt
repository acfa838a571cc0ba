// A size that is wanted meets one that is found.
ghost use Rattle.std.specs.Prelude.{◌≡◌, ◌<◌, ◌&&◌, ℕ, Ok};
ghost use Rattle.sized_types.specs.Sizes.{At, Slot as TheSlot};
ghost use Rattle.fut_sizes.specs.Matching.{Found as Finding, found_size, is_unknown, linked, meet_dim, meet_dims, meet_size, size_found, slot_takes};
ghost use Rattle.size_arena.specs.Trees.{dim_of, free_of};
ghost use Rattle.size_slots.specs.Held.{Fall, Holds, Is_slot, Met, way_of};

use crate::slots::{Found, find, set_slot};
use fut_scalar::NoMemory;
use size_arena::{Dim, Free, Refusal, SizeErr, same_free};

/// In which way two sized types are matched.
#[derive(Clone, Copy)]
pub struct Way {
    /// The left one is wanted and the right one found, or the other way round, as in what a function takes.
    pub left_wanted: bool,
    /// In the result of a function that is an argument.
    pub in_result: bool,
    /// Of a function all of whose results have to have one shape.
    pub regular: bool,
}

/// The size that one stands for.
#[tactic(auto, using(crate::proofs::MeetLaws::reads))]
pub fn read_free(table: &Found<'_>, free: Free) -> Free
    requires { Fall table.now.slots }
    ensures { (σ : Finding) → Holds table.now σ → free_of result ≡ found_size σ (free_of free) }
{
    match free {
        Free::Slot(number) => find(&table.slots, number),
        Free::Const(_) => free,
        Free::Name(_) => free,
        Free::Own(_, _) => free,
        Free::Unknown(_, _) => free,
    }
}

/// The number of a slot.
#[tactic(auto, using(crate::proofs::MeetLaws::which_slot))]
fn as_slot(free: Free) -> Option<u32>
    ensures { Is_slot (free_of free) result }
{
    match free {
        Free::Slot(number) => Some(number),
        Free::Const(_) => None,
        Free::Name(_) => None,
        Free::Own(_, _) => None,
        Free::Unknown(_, _) => None,
    }
}

/// A slot of a wanted type takes no unknown size of a function's results, for they could differ.
fn is_refused(way: Way, free: Free) -> bool
    ensures { result ≡ ((way_of way).in_result && is_unknown (At (free_of free))) }
{
    way.in_result && matches!(free, Free::Unknown(_, _))
}

/// An open slot takes a size.
fn take(table: &mut Found<'_>, number: u32, free: Free) -> Result<(), SizeErr>
    requires fall { Fall table.old.slots }
    requires below { (j : ℕ) → free_of free ≡ TheSlot j → j < number }
    ensures { (σ : Finding) → Holds table.old σ → σ.size number ≡ TheSlot number → found_size σ (free_of free) ≡ free_of free → Met (Ok (size_found number (free_of free) σ)) table.new result }
{
    match set_slot(&mut table.slots, number, free) {
        Ok(()) => Ok(()),
        Err(NoMemory) => Err(SizeErr::Memory),
    }
}

/// Two open slots become one: the greater number is a link to the smaller.
#[tactic(auto, using(crate::proofs::MeetLaws::links))]
fn link(table: &mut Found<'_>, left: u32, right: u32) -> Result<(), SizeErr>
    requires fall { Fall table.old.slots }
    ensures { (σ : Finding) → Holds table.old σ → σ.size left ≡ TheSlot left → σ.size right ≡ TheSlot right → Met (Ok (linked left right σ)) table.new result }
{
    if left == right {
        Ok(())
    } else if left < right {
        take(table, right, Free::Slot(left))
    } else {
        take(table, left, Free::Slot(right))
    }
}

/// An open slot of a wanted type meets a size that is none.
#[tactic(auto, using(crate::proofs::MeetLaws::slot_meets))]
fn slot_takes(
    way: Way,
    at: u32,
    number: u32,
    free: Free,
    table: &mut Found<'_>,
) -> Result<(), SizeErr>
    requires fall { Fall table.old.slots }
    requires other { (j : ℕ) → free_of free ≡ TheSlot j → ⊥ }
    ensures { (σ : Finding) → Holds table.old σ → σ.size number ≡ TheSlot number → found_size σ (free_of free) ≡ free_of free → Met (slot_takes (way_of way) at number (free_of free) σ) table.new result }
{
    if is_refused(way, free) {
        return Err(SizeErr::Refused(Refusal::Irregular(at)));
    }
    take(table, number, free)
}

/// A size that is wanted meets one that is found, both read.
#[tactic(auto, using(crate::proofs::MeetLaws::sizes_meet))]
fn meet_size(
    way: Way,
    at: u32,
    wanted: Free,
    found: Free,
    table: &mut Found<'_>,
) -> Result<(), SizeErr>
    requires fall { Fall table.old.slots }
    ensures { (σ : Finding) → Holds table.old σ → found_size σ (free_of wanted) ≡ free_of wanted → found_size σ (free_of found) ≡ free_of found → Met (meet_size (way_of way) at (free_of wanted) (free_of found) σ) table.new result }
{
    match as_slot(wanted) {
        Some(left) => match as_slot(found) {
            Some(right) => link(table, left, right),
            None => slot_takes(way, at, left, found, table),
        },
        None => match as_slot(found) {
            Some(right) => take(table, right, wanted),
            None => {
                if same_free(wanted, found) {
                    Ok(())
                } else {
                    Err(SizeErr::Refused(Refusal::Mismatch(at, Dim::At(wanted), Dim::At(found))))
                }
            }
        },
    }
}

/// The size of a level that is wanted meets that of one that is found. What is met when the wanted function runs agrees with all.
#[tactic(auto, using(crate::proofs::MeetLaws::dims_meet))]
fn meet_dim(
    way: Way,
    at: u32,
    wanted: Dim,
    found: Dim,
    table: &mut Found<'_>,
) -> Result<(), SizeErr>
    requires { Fall table.old.slots }
    ensures { (σ : Finding) → Holds table.old σ → Met (meet_dim (way_of way) at (dim_of wanted) (dim_of found) σ) table.new result }
{
    match wanted {
        Dim::At(left) => match found {
            Dim::At(right) => {
                let left = read_free(table, left);
                let right = read_free(table, right);
                meet_size(way, at, left, right, table)
            }
            Dim::Bound(_, _) => Ok(()),
        },
        Dim::Bound(_, _) => Ok(()),
    }
}

/// The sizes of two levels meet, of which the one on the left is wanted or found.
#[tactic(auto, using(crate::proofs::MeetLaws::either_way))]
pub fn meet_dims(
    way: Way,
    at: u32,
    left: Dim,
    right: Dim,
    table: &mut Found<'_>,
) -> Result<(), SizeErr>
    requires { Fall table.old.slots }
    ensures { (σ : Finding) → Holds table.old σ → Met (meet_dims (way_of way) at (dim_of left) (dim_of right) σ) table.new result }
{
    if way.left_wanted {
        meet_dim(way, at, left, right, table)
    } else {
        meet_dim(way, at, right, left, table)
    }
}
