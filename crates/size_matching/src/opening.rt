// Function types that meet are opened: their positions take the next numbers.
ghost use Rattle.std.specs.Prelude.{◌≡◌, ◌+◌, IfOk};
ghost use Rattle.fut_sizes.specs.Matching.{frame_numbers, found_frame, left_frame, past_frame, right_frame, wanted_frame};
ghost use Rattle.size_arena.specs.Frames.{frame_of};
ghost use Rattle.size_arena.specs.Trees.{size_of};
ghost use Rattle.size_slots.specs.Held.{Held, way_of};
ghost use Rattle.size_matching.specs.Arrows.{Opens};

use fut_scalar::NoMemory;
use size_arena::{Frame, SizeErr, SizeTree, past_within};
use size_slots::{Found, Way};

/// The numbers behind those of the positions of a function type.
///
/// `Err`: they pass 32 bits.
pub fn past_frame(next: u32, chosen: u32, to: &SizeTree<'_>) -> Result<u32, NoMemory>
    ensures { IfOk result (λ number. number ≡ past_frame next chosen (size_of to.now)) }
{
    match next.checked_add(chosen) {
        Some(value) => match value.checked_add(1) {
            Some(behind) => past_within(to, behind),
            None => Err(NoMemory),
        },
        None => Err(NoMemory),
    }
}

/// Two function types that are opened, and the next number behind them.
#[derive(Clone, Copy)]
struct Opening {
    wanted: Frame,
    found: Frame,
    next: u32,
}

/// A wanted function type, whose caller chooses so many sizes and which gives this, and a found one.
#[tactic(auto, using(crate::proofs::MatchForms::opened_both))]
fn open_both(
    node: u32,
    next: u32,
    wanted_chosen: u32,
    wanted_to: &SizeTree<'_>,
    found_chosen: u32,
    found_to: &SizeTree<'_>,
) -> Result<Opening, NoMemory>
    ensures wanted { IfOk result (λ both. frame_of both.wanted ≡ wanted_frame node next wanted_chosen) }
    ensures found { IfOk result (λ both. frame_of both.found ≡ found_frame node (past_frame next wanted_chosen (size_of wanted_to.now)) (next + wanted_chosen) found_chosen) }
    ensures next { IfOk result (λ both. both.next ≡ past_frame (past_frame next wanted_chosen (size_of wanted_to.now)) found_chosen (size_of found_to.now)) }
{
    let first = past_frame(next, wanted_chosen, wanted_to)?;
    let behind = past_frame(first, found_chosen, found_to)?;
    match next.checked_add(wanted_chosen) {
        Some(argument) => Ok(Opening {
            wanted: Frame::Wanted {
                node,
                first: next,
                chosen: wanted_chosen,
            },
            found: Frame::Found {
                node,
                first,
                argument,
                chosen: found_chosen,
            },
            next: behind,
        }),
        None => Err(NoMemory),
    }
}

/// Two function types that are matched, opened.
#[derive(Clone, Copy)]
pub(crate) struct Sides {
    pub left: Frame,
    pub right: Frame,
    pub next: u32,
}

/// Opens two function types that are matched in this way.
#[tactic(auto, using(crate::proofs::MatchForms::both_sides))]
fn open_sides(
    node: u32,
    way: Way,
    next: u32,
    left_chosen: u32,
    left_to: &SizeTree<'_>,
    right_chosen: u32,
    right_to: &SizeTree<'_>,
) -> Result<Sides, NoMemory>
    ensures left { IfOk result (λ both. frame_of both.left ≡ left_frame (way_of way) node next left_chosen right_chosen (size_of right_to.now)) }
    ensures right { IfOk result (λ both. frame_of both.right ≡ right_frame (way_of way) node next left_chosen right_chosen (size_of left_to.now)) }
    ensures next { IfOk result (λ both. both.next ≡ frame_numbers left_chosen right_chosen (size_of left_to.now) (size_of right_to.now) + next) }
{
    if way.left_wanted {
        let both = open_both(node, next, left_chosen, left_to, right_chosen, right_to)?;
        Ok(Sides {
            left: both.wanted,
            right: both.found,
            next: both.next,
        })
    } else {
        let both = open_both(node, next, right_chosen, right_to, left_chosen, left_to)?;
        Ok(Sides {
            left: both.found,
            right: both.wanted,
            next: both.next,
        })
    }
}

/// Opens two function types that are matched in this way: their positions take the next numbers.
pub(crate) fn open_arrows(
    node: u32,
    way: Way,
    left_chosen: u32,
    left_to: &SizeTree<'_>,
    right_chosen: u32,
    right_to: &SizeTree<'_>,
    table: &mut Found<'_>,
) -> Result<Sides, SizeErr>
    requires { Held table.old }
    ensures opened { Opens (way_of way) node left_chosen right_chosen (size_of left_to.now) (size_of right_to.now) table.old table.new result }
    ensures held { IfOk result (λ both. Held table.new) }
{
    match open_sides(
        node,
        way,
        table.next,
        left_chosen,
        left_to,
        right_chosen,
        right_to,
    ) {
        Ok(both) => {
            table.next = both.next;
            Ok(both)
        }
        Err(NoMemory) => Err(SizeErr::Memory),
    }
}
