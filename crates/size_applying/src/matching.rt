// The arguments of an application are matched with what is wanted of them.
ghost use Rattle.std.specs.Prelude.{◌≡◌, List as Items, IfOk};
ghost use Rattle.fut_types.specs.Types.{Sub};
ghost use Rattle.fut_typing.specs.Names.{Names};
ghost use Rattle.fut_sizes.specs.Applications.{Wanting as TheWanting, data_met};
ghost use Rattle.fut_sizes.specs.Matching.{Found as Finding, in_opened, made_at, meet, none_opened, read};
ghost use Rattle.size_arena.specs.Frames.{opened_of};
ghost use Rattle.size_arena.specs.Trees.{size_of};
ghost use Rattle.size_slots.specs.Held.{Held, Holds, Met, way_of};
ghost use Rattle.size_applying.specs.Wanted.{All_want, Wants, datum_met, function_met, want_is, wish};

use crate::arguments::{Argument, Want, Wanting, is_function};
use bumpalo::Bump;
use fut_scalar::NoMemory;
use size_arena::{Change, Frames, SizeErr, SizeTree, changed};
use size_matching::meet;
use size_slots::{Found, Way, made_at, read};

/// A sized type in frames, read.
#[tactic(auto, using(size_slots::proofs::TakeLaws::held_falls))]
pub(crate) fn opened_read<'a>(
    tree: &'a SizeTree<'a>,
    frames: &'a Frames<'a>,
    table: &Found<'a>,
    bump: &'a Bump,
) -> Result<&'a SizeTree<'a>, NoMemory>
    requires { Held table.now }
    ensures { (σ : Finding) → Holds table.now σ → IfOk result (λ made. size_of made.now ≡ read σ (in_opened (opened_of frames.now) (size_of tree.now))) }
{
    let opened = changed(tree, &Change::Open(frames), 0, bump)?;
    read(opened, table, bump)
}

/// A sized type at a node is matched with what its application wants of it, in this way.
fn found_meets<'a>(
    way: Way,
    at: u32,
    wanting: &Wanting<'a>,
    size: &'a SizeTree<'a>,
    table: &mut Found<'a>,
    bump: &'a Bump,
) -> Result<(), SizeErr>
    requires { Held table.old }
    ensures met { (N : Names) (types : Sub) (w : TheWanting) → Wants N types wanting.now w → (σ : Finding) → Holds table.old σ → Met (meet w.node (way_of way) at w.opened w.wanted none_opened (size_of size.now) (made_at w.node σ)) table.new result }
    ensures held { IfOk result (λ u. Held table.new) }
{
    match made_at(table, wanting.node) {
        Ok(()) => meet(
            wanting.node,
            way,
            at,
            wanting.wanted,
            size,
            wanting.frames,
            &Frames::Closed,
            table,
            bump,
        ),
        Err(NoMemory) => Err(SizeErr::Memory),
    }
}

/// An argument that is no function is matched. Another is not looked at.
fn datum_meets<'a>(
    wanting: &Wanting<'a>,
    table: &mut Found<'a>,
    bump: &'a Bump,
) -> Result<(), SizeErr>
    requires { Held table.old }
    ensures met { (N : Names) (types : Sub) (w : TheWanting) → Wants N types wanting.now w → (σ : Finding) → Holds table.old σ → Met (datum_met w σ) table.new result }
    ensures held { IfOk result (λ u. Held table.new) }
{
    match wanting.argument {
        Argument::Early { node: at, size, .. } => {
            if is_function(size) {
                return Ok(());
            }
            let way = Way {
                left_wanted: true,
                in_result: false,
                regular: false,
            };
            found_meets(way, at, wanting, size, table, bump)
        }
        Argument::Late { .. } => Ok(()),
    }
}

/// The arguments that are no functions are matched, from left to right.
///
/// `Err`: the first refusal, or memory ran out. Then the table is of no account.
pub fn data_meet<'a>(
    wantings: &[Wanting<'a>],
    table: &mut Found<'a>,
    bump: &'a Bump,
) -> Result<(), SizeErr>
    requires { Held table.old }
    ensures met { (N : Names) (types : Sub) (ws : Items TheWanting) → All_want N types wantings.now ws → (σ : Finding) → Holds table.old σ → Met (data_met ws σ) table.new result }
    ensures held { IfOk result (λ u. Held table.new) }
{
    for wanting in wantings {
        match datum_meets(wanting, table, bump) {
            Ok(()) => {}
            Err(error) => return Err(error),
        }
    }
    Ok(())
}

/// An argument that is a function and sized already is matched; where one shape is asked for, its results have no unknown size.
///
/// `Err`: the first refusal, or memory ran out. Then the table is of no account.
pub fn function_meets<'a>(
    is_regular: bool,
    wanting: &Wanting<'a>,
    table: &mut Found<'a>,
    bump: &'a Bump,
) -> Result<(), SizeErr>
    requires { Held table.old }
    ensures met { (N : Names) (types : Sub) (w : TheWanting) → Wants N types wanting.now w → (σ : Finding) → Holds table.old σ → Met (function_met is_regular w σ) table.new result }
    ensures held { IfOk result (λ u. Held table.new) }
{
    match wanting.argument {
        Argument::Early { node: at, size, .. } => {
            if is_function(size) {
                let way = Way {
                    left_wanted: true,
                    in_result: false,
                    regular: is_regular,
                };
                return found_meets(way, at, wanting, size, table, bump);
            }
            Ok(())
        }
        Argument::Late { .. } => Ok(()),
    }
}

/// What an application wants of a lambda, which is sized at what it makes.
pub fn want_of<'a>(
    is_regular: bool,
    wanting: &Wanting<'a>,
    table: &mut Found<'a>,
    bump: &'a Bump,
) -> Result<Want<'a>, NoMemory>
    requires { Held table.old }
    ensures wish { (N : Names) (types : Sub) (w : TheWanting) → Wants N types wanting.now w → (σ : Finding) → Holds table.old σ → IfOk result (λ want. want_is want ≡ wish is_regular w σ) }
    ensures made { (σ : Finding) → Holds table.old σ → IfOk result (λ want. Holds table.new (made_at wanting.now.node σ)) }
    ensures held { IfOk result (λ want. Held table.new) }
{
    let size = opened_read(wanting.wanted, wanting.frames, table, bump)?;
    made_at(table, wanting.node)?;
    Ok(Want {
        node: wanting.node,
        is_regular,
        size,
    })
}
