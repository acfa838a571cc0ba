// An application goes along the arrows of its function.
ghost use Rattle.std.specs.Prelude.{◌≡◌, ℕ, Bool, List as Items, [], ◌∷◌, ◌++◌, ◌+◌, IfOk, false, suc, true};
ghost use Rattle.fut_types.specs.Types.{Sub};
ghost use Rattle.fut_typing.specs.Names.{Names};
ghost use Rattle.sized_types.specs.Sizes.{Size};
ghost use Rattle.fut_sizes.specs.Applications.{Argument as TheArgument, Later as TheLater, Wanting as TheWanting, is_arrow, uses, with_use};
ghost use Rattle.fut_sizes.specs.Levels.{levels_within};
ghost use Rattle.fut_sizes.specs.Matching.{Found as Finding, Opened, counted, in_opened, inside, made_at, none_opened, read};
ghost use Rattle.size_arena.specs.Frames.{applied_at, opened_of};
ghost use Rattle.size_arena.specs.Trees.{size_of};
ghost use Rattle.size_slots.specs.Held.{Held, Holds};
ghost use Rattle.size_applying.specs.Wanted.{All_want, Is_argument, Wants, early_value, laters_of};
ghost use Rattle.size_applying.specs.Going.{Goes, Takes_arrow};
ghost use Rattle.size_applying.specs.Sharing.{Chained, any_last};

use crate::arguments::{Argument, Later, Wanting, is_arrow};
use crate::matching::opened_read;
use bumpalo::Bump;
use fut_scalar::{List, NoMemory};
use size_arena::{Frame, Frames, Free, SizeTree, past_within};
use size_slots::{Found, made_at};
use std::alloc::Global;

/// What an application gives: a sized type in the frames of the function types around it.
#[derive(Clone, Copy)]
pub struct Giving<'a> {
    pub frames: &'a Frames<'a>,
    pub size: &'a SizeTree<'a>,
    /// Whether what is still open is chosen again: the arrow that was taken last is not the function's last.
    pub goes_on: bool,
    /// Whether it stands behind the arrow of the last node that is noted later.
    pub follows: bool,
    /// How many levels it has, also inside of functions.
    pub levels: u32,
}

/// How far an application is: what it wants of the arguments since all was matched last, and what it gives to the others.
#[derive(Drop)]
pub struct Application<'a> {
    pub wantings: List<Wanting<'a>>,
    pub gives: Giving<'a>,
    pub later: List<Later<'a>>,
}

/// No frame.
#[tactic(auto, using(crate::proofs::GoingForms::closes))]
fn closed<'a>(bump: &'a Bump) -> Result<&'a Frames<'a>, NoMemory>
    ensures { IfOk result (λ made. opened_of made.now ≡ none_opened) }
{
    match bump.try_alloc(Frames::Closed) {
        Ok(made) => Ok(made),
        Err(_) => Err(NoMemory),
    }
}

/// The application of a function of this sized type before its first argument.
pub fn begin<'a>(
    size: &'a SizeTree<'a>,
    bump: &'a Bump,
    alloc: Global,
) -> Result<Application<'a>, NoMemory>
    ensures { (N : Names) (types : Sub) → IfOk result (λ made. Goes N types made [] none_opened true (size_of size.now) []) }
{
    let frames = closed(bump)?;
    let levels = past_within(size, 0)?;
    Ok(Application {
        wantings: List::new(alloc),
        gives: Giving {
            frames,
            size,
            goes_on: true,
            follows: false,
            levels,
        },
        later: List::new(alloc),
    })
}

/// The number of a node so many behind another.
pub fn behind(node: u32, count: usize) -> Result<u32, NoMemory>
    ensures { IfOk result (λ number. number ≡ node + count) }
{
    if count > u32::MAX as usize {
        return Err(NoMemory);
    }
    match node.checked_add(count as u32) {
        Some(number) => Ok(number),
        None => Err(NoMemory),
    }
}

/// As a size, what an argument is worth.
fn value_of(argument: &Argument<'_>) -> Option<Free>
    ensures { result ≡ early_value argument.now }
{
    match argument {
        Argument::Early { value, .. } => *value,
        Argument::Late { .. } => None,
    }
}

/// What the positions of a function type stand for whose caller chooses so many sizes, where it is applied at a node: so many
/// frames more than before.
#[tactic(auto, using(crate::proofs::GoingForms::insides))]
fn inside<'a>(
    node: u32,
    first: u32,
    chosen: u32,
    argument: &Argument<'a>,
    frames: &'a Frames<'a>,
    bump: &'a Bump,
) -> Result<&'a Frames<'a>, NoMemory>
    ensures { IfOk result (λ made. opened_of made.now ≡ inside (applied_at node first chosen (early_value argument.now)) (opened_of frames.now)) }
{
    let frame = Frame::Applied {
        node,
        first,
        chosen,
        value: value_of(argument),
    };
    match bump.try_alloc(Frames::Inside(frame, frames)) {
        Ok(made) => Ok(made),
        Err(_) => Err(NoMemory),
    }
}

/// How many levels are left of a function type's, so many, behind its parameter.
fn levels_behind(levels: u32, from: &SizeTree<'_>) -> Result<u32, NoMemory>
    ensures { (rest : ℕ) → levels ≡ levels_within (size_of from.now) + rest → IfOk result (λ left. left ≡ rest) }
{
    let taken = past_within(from, 0)?;
    match levels.checked_sub(taken) {
        Some(left) => Ok(left),
        None => Err(NoMemory),
    }
}

/// The numbers of a function's positions are taken, which its application at a node makes: what it gives has so many levels.
fn count(node: u32, table: &mut Found<'_>, chosen: u32, levels: u32) -> Result<(), NoMemory>
    ensures { (σ : Finding) → Holds table.old σ → IfOk result (λ u. Holds table.new (counted (suc chosen + levels) (made_at node σ))) }
{
    let value = behind(table.next, chosen as usize)?;
    let met = behind(value, 1)?;
    let next = behind(met, levels as usize)?;
    made_at(table, node)?;
    table.next = next;
    Ok(())
}

/// An application takes its next argument, at a node, along an arrow: that of a function whose caller chooses so many sizes.
fn go_along<'a>(
    node: u32,
    argument: &Argument<'a>,
    chosen: u32,
    from: &'a SizeTree<'a>,
    to: &'a SizeTree<'a>,
    application: &mut Application<'a>,
    table: &mut Found<'a>,
    bump: &'a Bump,
) -> Result<(), NoMemory>
    ensures frames { IfOk result (λ u. opened_of application.new.gives.frames.now ≡ inside (applied_at node table.old.next chosen (early_value argument.now)) (opened_of application.old.gives.frames.now)) }
    ensures wants { IfOk result (λ u. application.new.wantings ≡ application.old.wantings ++ record { node = node; argument = argument.now; frames = application.new.gives.frames; wanted = from.entry } ∷ []) }
    ensures later { IfOk result (λ u. application.new.later ≡ application.old.later ++ record { node = suc node; frames = application.old.gives.frames; size = application.old.gives.size; follows = application.old.gives.follows } ∷ []) }
    ensures gives { IfOk result (λ u. application.new.gives.size ≡ to.entry) }
    ensures goes_on { IfOk result (λ u. application.new.gives.goes_on ≡ is_arrow (size_of to.now)) }
    ensures levels { (rest : ℕ) → application.old.gives.levels ≡ levels_within (size_of from.now) + rest → IfOk result (λ u. application.new.gives.levels ≡ rest) }
    ensures counted { (σ : Finding) → Holds table.old σ → IfOk result (λ u. Holds table.new (counted (suc chosen + application.new.gives.levels) (made_at node σ))) }
{
    let before = application.gives;
    let frames = inside(node, table.next, chosen, argument, before.frames, bump)?;
    let levels = levels_behind(before.levels, from)?;
    let number = behind(node, 1)?;
    application.wantings.push(Wanting {
        node,
        argument: *argument,
        frames,
        wanted: from,
    })?;
    application.later.push(Later {
        node: number,
        frames: before.frames,
        size: before.size,
        follows: before.follows,
    })?;
    count(node, table, chosen, levels)?;
    application.gives = Giving {
        frames,
        size: to,
        goes_on: is_arrow(to),
        follows: true,
        levels,
    };
    Ok(())
}

/// An application takes its next argument, at a node, along the next arrow. `Ok(false)`: no arrow is left, and nothing has changed.
#[tactic(auto, using(crate::proofs::GoingForms::takes))]
pub fn take_arrow<'a>(
    node: u32,
    argument: &Argument<'a>,
    application: &mut Application<'a>,
    table: &mut Found<'a>,
    bump: &'a Bump,
) -> Result<bool, NoMemory>
    requires { Held table.old }
    ensures taken { (N : Names) (types : Sub) (a : TheArgument) (ws : Items TheWanting) (φ : Opened) (goes_on : Bool) (t : Size) (ls : Items TheLater) (σ : Finding) → Is_argument N types argument.now a → Goes N types application.old ws φ goes_on t ls → Holds table.old σ → Takes_arrow N types node a ws φ goes_on t ls σ application.new table.new result }
    ensures held { IfOk result (λ b. Held table.new) }
{
    match application.gives.size {
        SizeTree::Fun {
            chosen,
            from,
            to,
            ..
        } => {
            match go_along(node, argument, *chosen, from, to, application, table, bump) {
                Ok(()) => Ok(true),
                Err(NoMemory) => Err(NoMemory),
            }
        }
        SizeTree::Hole(_) => Ok(false),
        SizeTree::Open { .. } => Ok(false),
        SizeTree::Level { .. } => Ok(false),
        SizeTree::Built { .. } => Ok(false),
    }
}

/// All is matched, no arrow is left, and what the application gives is read: its next argument, at a node, is taken along the
/// next arrow of that. `Ok(false)`: it is no function.
#[tactic(auto, using(crate::proofs::GoingForms::takes))]
pub fn take_again<'a>(
    node: u32,
    argument: &Argument<'a>,
    application: &mut Application<'a>,
    table: &mut Found<'a>,
    bump: &'a Bump,
) -> Result<bool, NoMemory>
    requires { Held table.old }
    ensures taken { (N : Names) (types : Sub) (a : TheArgument) (ws : Items TheWanting) (φ : Opened) (goes_on : Bool) (t : Size) (ls : Items TheLater) (σ : Finding) → Is_argument N types argument.now a → Goes N types application.old ws φ goes_on t ls → Holds table.old σ → Takes_arrow N types node a [] none_opened false (read σ (in_opened φ t)) (ls ++ uses ws) σ application.new table.new result }
    ensures held { IfOk result (λ b. Held table.new) }
{
    match conclude(application, table, bump) {
        Ok(()) => {
            application.gives = Giving {
                frames: application.gives.frames,
                size: application.gives.size,
                goes_on: false,
                follows: application.gives.follows,
                levels: application.gives.levels,
            };
            take_arrow(node, argument, application, table, bump)
        }
        Err(NoMemory) => Err(NoMemory),
    }
}

/// The use of a name that is an argument has the sized type that is wanted of it.
fn use_later<'a>(wanting: &Wanting<'a>, later: &mut List<Later<'a>>) -> Result<(), NoMemory>
    ensures later { (N : Names) (types : Sub) (w : TheWanting) → Wants N types wanting.now w → IfOk result (λ u. laters_of later.new ≡ laters_of later.old ++ with_use w.argument w.opened w.wanted []) }
    ensures chained { Chained later.old any_last → IfOk result (λ u. Chained later.new any_last) }
{
    match &wanting.argument {
        Argument::Early { node, is_use, .. } => {
            if !*is_use {
                return Ok(());
            }
            later.push(Later {
                node: *node,
                frames: wanting.frames,
                size: wanting.wanted,
                follows: false,
            })
        }
        Argument::Late { .. } => Ok(()),
    }
}

/// All of them, from left to right.
fn uses_later<'a>(wantings: &[Wanting<'a>], later: &mut List<Later<'a>>) -> Result<(), NoMemory>
    ensures later { (N : Names) (types : Sub) (ws : Items TheWanting) → All_want N types wantings.now ws → IfOk result (λ u. laters_of later.new ≡ laters_of later.old ++ uses ws) }
    ensures chained { Chained later.old any_last → IfOk result (λ u. Chained later.new any_last) }
{
    for wanting in wantings {
        use_later(wanting, later)?;
    }
    Ok(())
}

/// All is matched and no argument is left: what the application gives is read.
pub fn conclude<'a>(
    application: &mut Application<'a>,
    table: &Found<'a>,
    bump: &'a Bump,
) -> Result<(), NoMemory>
    requires { Held table.now }
    ensures { (N : Names) (types : Sub) (ws : Items TheWanting) (φ : Opened) (goes_on : Bool) (t : Size) (ls : Items TheLater) (σ : Finding) → Goes N types application.old ws φ goes_on t ls → Holds table.now σ → IfOk result (λ u. Goes N types application.new [] none_opened goes_on (read σ (in_opened φ t)) (ls ++ uses ws)) }
{
    let size = opened_read(
        application.gives.size,
        application.gives.frames,
        table,
        bump,
    )?;
    let frames = closed(bump)?;
    let levels = past_within(size, 0)?;
    uses_later(application.wantings.as_slice(), &mut application.later)?;
    application.wantings.truncate(0);
    application.gives = Giving {
        frames,
        size,
        goes_on: application.gives.goes_on,
        follows: false,
        levels,
    };
    Ok(())
}
