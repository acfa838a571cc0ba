// A sized type that is wanted is matched with one that is found.
ghost use Rattle.std.specs.Prelude.{◌≡◌, IfOk};
ghost use Rattle.fut_sizes.specs.Matching.{Found as Finding, all_meet, dim_in, in_opened, is_irregular, meet, meet_dims, meet_variable, read, to_result, turned};
ghost use Rattle.size_arena.specs.Frames.{opened_of};
ghost use Rattle.size_arena.specs.Trees.{dim_of, size_of, sizes_of};
ghost use Rattle.size_slots.specs.Held.{Fall, Held, Holds, Met, way_of};
ghost use Rattle.size_matching.specs.Arrows.{Checks};

use crate::comparing::{Pair, meet_variable, sizes_meet};
use crate::opening::open_arrows;
use bumpalo::Bump;
use fut_scalar::NoMemory;
use size_arena::{Change, Dim, Frames, Property, Refusal, SizeErr, SizeTree, changed, dim_in, has};
use size_slots::{Found, Way, read};

/// The way in which what two functions take is matched.
fn turned(way: Way) -> Way
    ensures { way_of result ≡ turned (way_of way) }
{
    Way {
        left_wanted: !way.left_wanted,
        in_result: false,
        regular: way.regular,
    }
}

/// The way in which what two functions give is matched.
fn to_result(way: Way) -> Way
    ensures { way_of result ≡ to_result (way_of way) }
{
    Way {
        left_wanted: way.left_wanted,
        in_result: true,
        regular: way.regular,
    }
}

/// A sized type that stands in these frames, opened and read.
fn read_in<'a>(
    frames: &Frames<'_>,
    tree: &'a SizeTree<'a>,
    table: &Found<'a>,
    bump: &'a Bump,
) -> Result<&'a SizeTree<'a>, NoMemory>
    requires { Fall table.now.slots }
    ensures { (σ : Finding) → Holds table.now σ → IfOk result (λ made. size_of made.now ≡ read σ (in_opened (opened_of frames.now) (size_of tree.now))) }
{
    let opened = changed(tree, &Change::Open(frames), 0, bump)?;
    read(opened, table, bump)
}

/// Whether what the found function gives has an unknown size where one shape is asked for.
#[tactic(auto, using(crate::proofs::MatchForms::irregular))]
fn is_irregular<'a>(
    way: Way,
    left_frames: &Frames<'_>,
    left: &'a SizeTree<'a>,
    right_frames: &Frames<'_>,
    right: &'a SizeTree<'a>,
    table: &Found<'a>,
    bump: &'a Bump,
) -> Result<bool, NoMemory>
    requires { Fall table.now.slots }
    ensures { (σ : Finding) → Holds table.now σ → IfOk result (λ so. so ≡ is_irregular (way_of way) (read σ (in_opened (opened_of left_frames.now) (size_of left.now))) (read σ (in_opened (opened_of right_frames.now) (size_of right.now)))) }
{
    if !way.regular {
        return Ok(false);
    }
    if way.left_wanted {
        let given = read_in(right_frames, right, table, bump)?;
        Ok(has(given, &Property::Unknown))
    } else {
        let given = read_in(left_frames, left, table, bump)?;
        Ok(has(given, &Property::Unknown))
    }
}

/// Where sized types are matched.
#[derive(Clone, Copy)]
struct Site<'a> {
    /// The application, which numbers what it opens.
    node: u32,
    /// The node of a refusal.
    at: u32,
    bump: &'a Bump,
}

/// What two functions give can be matched: where one shape is asked for, the found one's has no unknown size.
#[tactic(auto, using(size_slots::proofs::TakeLaws::held_falls))]
fn check_results<'a>(
    site: Site<'a>,
    way: Way,
    left: &'a SizeTree<'a>,
    right: &'a SizeTree<'a>,
    left_frames: &Frames<'_>,
    right_frames: &Frames<'_>,
    table: &Found<'a>,
) -> Result<(), SizeErr>
    requires { Held table.now }
    ensures checked { (σ : Finding) → Holds table.now σ → Checks site.entry.at (is_irregular (way_of way) (read σ (in_opened (opened_of left_frames.now) (size_of left.now))) (read σ (in_opened (opened_of right_frames.now) (size_of right.now)))) result }
    ensures held { Held table.now }
{
    match is_irregular(
        way,
        left_frames,
        left,
        right_frames,
        right,
        table,
        site.bump,
    ) {
        Ok(true) => Err(SizeErr::Refused(Refusal::Irregular(site.at))),
        Ok(false) => Ok(()),
        Err(NoMemory) => Err(SizeErr::Memory),
    }
}

/// What an open variable stands for, and a sized type that stands in these frames, both read.
fn read_open<'a>(
    variable: &'a SizeTree<'a>,
    frames: &Frames<'_>,
    other: &'a SizeTree<'a>,
    table: &Found<'a>,
    bump: &'a Bump,
) -> Result<Pair<'a>, NoMemory>
    requires { Fall table.now.slots }
    ensures { (σ : Finding) → Holds table.now σ → IfOk result (λ both. (size_of both.taken.now ≡ read σ (size_of variable.now)) × (size_of both.met.now ≡ read σ (in_opened (opened_of frames.now) (size_of other.now)))) }
{
    let taken = read(variable, table, bump)?;
    let met = read_in(frames, other, table, bump)?;
    Ok(Pair { taken, met })
}

/// An open variable, which is wanted or found, meets a sized type that stands in these frames.
#[tactic(auto, using(size_slots::proofs::TakeLaws::held_falls))]
fn open_meets<'a>(
    site: Site<'a>,
    wanted: bool,
    way: Way,
    variable: &'a SizeTree<'a>,
    frames: &Frames<'_>,
    other: &'a SizeTree<'a>,
    table: &mut Found<'a>,
) -> Result<(), SizeErr>
    requires { Held table.old }
    ensures { (σ : Finding) → Holds table.old σ → Met (meet_variable wanted (way_of way) site.entry.at (read σ (size_of variable.now)) (read σ (in_opened (opened_of frames.now) (size_of other.now))) σ) table.new result }
{
    match read_open(variable, frames, other, table, site.bump) {
        Ok(both) => meet_variable(wanted, way, site.at, both.taken, both.met, table, site.bump),
        Err(NoMemory) => Err(SizeErr::Memory),
    }
}

/// The sizes of two levels.
#[derive(Clone, Copy)]
struct Dims {
    left: Dim,
    right: Dim,
}

/// The sizes of two levels that stand in these frames.
fn dims_in(
    left_frames: &Frames<'_>,
    left: Dim,
    right_frames: &Frames<'_>,
    right: Dim,
) -> Result<Dims, NoMemory>
    ensures left { IfOk result (λ both. dim_of both.left ≡ dim_in (opened_of left_frames.now) 0 (dim_of left)) }
    ensures right { IfOk result (λ both. dim_of both.right ≡ dim_in (opened_of right_frames.now) 0 (dim_of right)) }
{
    let one = dim_in(left_frames, 0, left)?;
    let other = dim_in(right_frames, 0, right)?;
    Ok(Dims {
        left: one,
        right: other,
    })
}

/// The sizes of two levels meet, which stand in these frames.
fn levels_meet(
    site: Site<'_>,
    way: Way,
    left_frames: &Frames<'_>,
    left: Dim,
    right_frames: &Frames<'_>,
    right: Dim,
    table: &mut Found<'_>,
) -> Result<(), SizeErr>
    requires { Held table.old }
    ensures met { (σ : Finding) → Holds table.old σ → Met (meet_dims (way_of way) site.entry.at (dim_in (opened_of left_frames.now) 0 (dim_of left)) (dim_in (opened_of right_frames.now) 0 (dim_of right)) σ) table.new result }
    ensures held { IfOk result (λ u. Held table.new) }
{
    match dims_in(left_frames, left, right_frames, right) {
        Ok(both) => sizes_meet(way, site.at, both.left, both.right, table),
        Err(NoMemory) => Err(SizeErr::Memory),
    }
}

/// Two sized types meet, in the frames of the function types around them.
#[cycle(trees_meet)]
#[tactic(auto, using(size_slots::proofs::TakeLaws::held_falls))]
fn trees_meet<'a>(
    site: Site<'a>,
    way: Way,
    left: &'a SizeTree<'a>,
    right: &'a SizeTree<'a>,
    left_frames: &Frames<'_>,
    right_frames: &Frames<'_>,
    table: &mut Found<'a>,
) -> Result<(), SizeErr>
    requires { Held table.old }
    ensures { (σ : Finding) → Holds table.old σ → Met (meet site.entry.node (way_of way) site.entry.at (opened_of left_frames.now) (size_of left.now) (opened_of right_frames.now) (size_of right.now) σ) table.new result }
{
    match left {
        SizeTree::Open { .. } => {
            open_meets(site, way.left_wanted, way, left, right_frames, right, table)
        }
        SizeTree::Hole(_) => match right {
            SizeTree::Open { .. } => {
                open_meets(site, !way.left_wanted, way, right, left_frames, left, table)
            }
            SizeTree::Hole(_) => Ok(()),
            SizeTree::Level { .. } => Ok(()),
            SizeTree::Built { .. } => Ok(()),
            SizeTree::Fun { .. } => Ok(()),
        },
        SizeTree::Level { size, row, .. } => match right {
            SizeTree::Open { .. } => {
                open_meets(site, !way.left_wanted, way, right, left_frames, left, table)
            }
            SizeTree::Level {
                size: found,
                row: rest,
                ..
            } => match levels_meet(site, way, left_frames, *size, right_frames, *found, table) {
                Ok(()) => trees_meet(site, way, row, rest, left_frames, right_frames, table),
                Err(error) => Err(error),
            },
            SizeTree::Hole(_) => Ok(()),
            SizeTree::Built { .. } => Ok(()),
            SizeTree::Fun { .. } => Ok(()),
        },
        SizeTree::Built { parts, .. } => match right {
            SizeTree::Open { .. } => {
                open_meets(site, !way.left_wanted, way, right, left_frames, left, table)
            }
            SizeTree::Built { parts: others, .. } => all_trees_meet(
                site,
                way,
                parts,
                others,
                left_frames,
                right_frames,
                table,
            ),
            SizeTree::Hole(_) => Ok(()),
            SizeTree::Level { .. } => Ok(()),
            SizeTree::Fun { .. } => Ok(()),
        },
        SizeTree::Fun {
            chosen,
            from,
            to,
            ..
        } => match right {
            SizeTree::Open { .. } => {
                open_meets(site, !way.left_wanted, way, right, left_frames, left, table)
            }
            SizeTree::Fun {
                chosen: more,
                from: taken,
                to: given,
                ..
            } => {
                let both = open_arrows(site.node, way, *chosen, to, *more, given, table)?;
                let lefts = Frames::Inside(both.left, &*left_frames);
                let rights = Frames::Inside(both.right, &*right_frames);
                trees_meet(site, turned(way), from, taken, &lefts, &rights, table)?;
                check_results(site, way, to, given, &lefts, &rights, table)?;
                trees_meet(site, to_result(way), to, given, &lefts, &rights, table)
            }
            SizeTree::Hole(_) => Ok(()),
            SizeTree::Level { .. } => Ok(()),
            SizeTree::Built { .. } => Ok(()),
        },
    }
}

#[cycle(trees_meet)]
fn all_trees_meet<'a>(
    site: Site<'a>,
    way: Way,
    lefts: &'a [SizeTree<'a>],
    rights: &'a [SizeTree<'a>],
    left_frames: &Frames<'_>,
    right_frames: &Frames<'_>,
    table: &mut Found<'a>,
) -> Result<(), SizeErr>
    requires { Held table.old }
    ensures { (σ : Finding) → Holds table.old σ → Met (all_meet site.entry.node (way_of way) site.entry.at (opened_of left_frames.now) (sizes_of lefts.now) (opened_of right_frames.now) (sizes_of rights.now) σ) table.new result }
{
    for i in 0..lefts.len() {
        if i >= rights.len() {
            return Ok(());
        }
        match trees_meet(
            site,
            way,
            &lefts[i],
            &rights[i],
            left_frames,
            right_frames,
            table,
        ) {
            Ok(()) => {}
            Err(error) => return Err(error),
        }
    }
    Ok(())
}

/// A sized type that is wanted meets one that is found, each in the frames of the function types around it: slots take the sizes
/// that they meet, and open variables the sized types. An application at `node` numbers what it opens, and is refused at `at`.
///
/// `Err`: the first refusal, or memory ran out. Then the table is of no account.
pub fn meet<'a>(
    node: u32,
    way: Way,
    at: u32,
    left: &'a SizeTree<'a>,
    right: &'a SizeTree<'a>,
    left_frames: &Frames<'_>,
    right_frames: &Frames<'_>,
    table: &mut Found<'a>,
    bump: &'a Bump,
) -> Result<(), SizeErr>
    requires { Held table.old }
    ensures met { (σ : Finding) → Holds table.old σ → Met (meet node (way_of way) at (opened_of left_frames.now) (size_of left.now) (opened_of right_frames.now) (size_of right.now) σ) table.new result }
    ensures held { IfOk result (λ u. Held table.new) }
{
    let site = Site { node, at, bump };
    trees_meet(site, way, left, right, left_frames, right_frames, table)
}
