// What an open variable has taken is compared with what it meets next.
ghost use Rattle.std.specs.Prelude.{◌≡◌, IfOk};
ghost use Rattle.fut_sizes.specs.Agreeing.{agree};
ghost use Rattle.fut_sizes.specs.Matching.{Found as Finding, all_compared, compared, meet_dims, meet_variable, read, variable_compared};
ghost use Rattle.size_arena.specs.Trees.{dim_of, size_of, sizes_of};
ghost use Rattle.size_slots.specs.Held.{Fall, Held, Holds, Met, way_of};
ghost use Rattle.size_matching.specs.Agreed.{Agrees};

use bumpalo::Bump;
use fut_scalar::NoMemory;
use size_arena::{Dim, SizeErr, SizeTree, agree};
use size_slots::{Found, Way, meet_dims, open_takes, read};

/// Sized types that have to have one and the same sizes.
#[tactic(auto, using(crate::proofs::CompareForms::agreement))]
fn agreed(taken: &SizeTree<'_>, other: &SizeTree<'_>, at: u32) -> Result<(), SizeErr>
    ensures { Agrees (agree at (size_of taken.now) (size_of other.now)) result }
{
    match agree(taken, other, at) {
        Ok(()) => Ok(()),
        Err(refusal) => Err(SizeErr::Refused(refusal)),
    }
}

/// What stands for a variable in a sized type that another variable has taken, and one that is read.
fn variable_compared<'a>(
    wanted: bool,
    way: Way,
    at: u32,
    taken: &'a SizeTree<'a>,
    other: &'a SizeTree<'a>,
    table: &mut Found<'a>,
    bump: &'a Bump,
) -> Result<(), SizeErr>
    requires { Fall table.old.slots }
    ensures { (σ : Finding) → Holds table.old σ → Met (variable_compared wanted (way_of way) at (size_of taken.now) (size_of other.now) σ) table.new result }
{
    match taken {
        SizeTree::Open { node, variable, .. } => {
            open_takes(wanted, way, at, *node, *variable, other, table, bump)
        }
        SizeTree::Hole(_) => agreed(taken, other, at),
        SizeTree::Level { .. } => agreed(taken, other, at),
        SizeTree::Built { .. } => agreed(taken, other, at),
        SizeTree::Fun { .. } => agreed(taken, other, at),
    }
}

/// Two sized types that are read.
#[derive(Clone, Copy)]
pub(crate) struct Pair<'a> {
    pub taken: &'a SizeTree<'a>,
    pub met: &'a SizeTree<'a>,
}

/// Two sized types, read.
fn read_both<'a>(
    left: &'a SizeTree<'a>,
    other: &'a SizeTree<'a>,
    table: &Found<'a>,
    bump: &'a Bump,
) -> Result<Pair<'a>, NoMemory>
    requires { Fall table.now.slots }
    ensures { (σ : Finding) → Holds table.now σ → IfOk result (λ both. (size_of both.taken.now ≡ read σ (size_of left.now)) × (size_of both.met.now ≡ read σ (size_of other.now))) }
{
    let taken = read(left, table, bump)?;
    let met = read(other, table, bump)?;
    Ok(Pair { taken, met })
}

/// An open variable in what another has taken, and what it meets.
fn open_compared<'a>(
    wanted: bool,
    way: Way,
    at: u32,
    left: &'a SizeTree<'a>,
    other: &'a SizeTree<'a>,
    table: &mut Found<'a>,
    bump: &'a Bump,
) -> Result<(), SizeErr>
    requires { Fall table.old.slots }
    ensures { (σ : Finding) → Holds table.old σ → Met (variable_compared wanted (way_of way) at (read σ (size_of left.now)) (read σ (size_of other.now)) σ) table.new result }
{
    match read_both(left, other, table, bump) {
        Ok(both) => variable_compared(wanted, way, at, both.taken, both.met, table, bump),
        Err(NoMemory) => Err(SizeErr::Memory),
    }
}

/// The sizes of two levels meet. A table that held a substitution holds one afterwards.
#[tactic(auto, using(size_slots::proofs::TakeLaws::held_falls))]
pub(crate) fn sizes_meet(
    way: Way,
    at: u32,
    left: Dim,
    right: Dim,
    table: &mut Found<'_>,
) -> Result<(), SizeErr>
    requires { Held table.old }
    ensures met { (σ : Finding) → Holds table.old σ → Met (meet_dims (way_of way) at (dim_of left) (dim_of right) σ) table.new result }
    ensures held { IfOk result (λ u. Held table.new) }
{
    meet_dims(way, at, left, right, table)
}

/// A sized type that a variable has taken, and one that is read. Function types have to have one and the same sizes.
///
/// `Err`: the first two sizes that differ, or memory ran out.
#[cycle(compared)]
#[tactic(auto, using(size_slots::proofs::TakeLaws::held_falls))]
pub fn compared<'a>(
    way: Way,
    at: u32,
    taken: &'a SizeTree<'a>,
    other: &'a SizeTree<'a>,
    table: &mut Found<'a>,
    bump: &'a Bump,
) -> Result<(), SizeErr>
    requires { Held table.old }
    ensures { (σ : Finding) → Holds table.old σ → Met (compared (way_of way) at (size_of taken.now) (size_of other.now) σ) table.new result }
{
    match taken {
        SizeTree::Open { .. } => open_compared(way.left_wanted, way, at, taken, other, table, bump),
        SizeTree::Hole(_) => match other {
            SizeTree::Open { .. } => {
                open_compared(!way.left_wanted, way, at, other, taken, table, bump)
            }
            SizeTree::Hole(_) => Ok(()),
            SizeTree::Level { .. } => Ok(()),
            SizeTree::Built { .. } => Ok(()),
            SizeTree::Fun { .. } => Ok(()),
        },
        SizeTree::Level { size, row, .. } => match other {
            SizeTree::Open { .. } => {
                open_compared(!way.left_wanted, way, at, other, taken, table, bump)
            }
            SizeTree::Level {
                size: found,
                row: rest,
                ..
            } => match sizes_meet(way, at, *size, *found, table) {
                Ok(()) => compared(way, at, row, rest, table, bump),
                Err(error) => Err(error),
            },
            SizeTree::Hole(_) => Ok(()),
            SizeTree::Built { .. } => Ok(()),
            SizeTree::Fun { .. } => Ok(()),
        },
        SizeTree::Built { parts, .. } => match other {
            SizeTree::Open { .. } => {
                open_compared(!way.left_wanted, way, at, other, taken, table, bump)
            }
            SizeTree::Built { parts: others, .. } => {
                all_compared(way, at, parts, others, table, bump)
            }
            SizeTree::Hole(_) => Ok(()),
            SizeTree::Level { .. } => Ok(()),
            SizeTree::Fun { .. } => Ok(()),
        },
        SizeTree::Fun { .. } => match other {
            SizeTree::Open { .. } => {
                open_compared(!way.left_wanted, way, at, other, taken, table, bump)
            }
            SizeTree::Fun { .. } => agreed(taken, other, at),
            SizeTree::Hole(_) => Ok(()),
            SizeTree::Level { .. } => Ok(()),
            SizeTree::Built { .. } => Ok(()),
        },
    }
}

#[cycle(compared)]
fn all_compared<'a>(
    way: Way,
    at: u32,
    taken: &'a [SizeTree<'a>],
    others: &'a [SizeTree<'a>],
    table: &mut Found<'a>,
    bump: &'a Bump,
) -> Result<(), SizeErr>
    requires { Held table.old }
    ensures { (σ : Finding) → Holds table.old σ → Met (all_compared (way_of way) at (sizes_of taken.now) (sizes_of others.now) σ) table.new result }
{
    for i in 0..taken.len() {
        if i >= others.len() {
            return Ok(());
        }
        match compared(way, at, &taken[i], &others[i], table, bump) {
            Ok(()) => {}
            Err(error) => return Err(error),
        }
    }
    Ok(())
}

/// What an open variable stands for so far, which is wanted or found, and what it meets, both read.
#[tactic(auto, using(size_slots::proofs::TakeLaws::held_falls))]
pub fn meet_variable<'a>(
    wanted: bool,
    way: Way,
    at: u32,
    taken: &'a SizeTree<'a>,
    other: &'a SizeTree<'a>,
    table: &mut Found<'a>,
    bump: &'a Bump,
) -> Result<(), SizeErr>
    requires { Held table.old }
    ensures { (σ : Finding) → Holds table.old σ → Met (meet_variable wanted (way_of way) at (size_of taken.now) (size_of other.now) σ) table.new result }
{
    let turned = Way {
        left_wanted: wanted,
        in_result: way.in_result,
        regular: way.regular,
    };
    match taken {
        SizeTree::Open { node, variable, .. } => {
            open_takes(wanted, way, at, *node, *variable, other, table, bump)
        }
        SizeTree::Hole(_) => compared(turned, at, taken, other, table, bump),
        SizeTree::Level { .. } => compared(turned, at, taken, other, table, bump),
        SizeTree::Built { .. } => compared(turned, at, taken, other, table, bump),
        SizeTree::Fun { .. } => compared(turned, at, taken, other, table, bump),
    }
}
