// The nodes within an application are noted, once all is matched.
ghost use Rattle.std.specs.Prelude.{◌≡◌, IfOk};
ghost use Rattle.fut_types.specs.Types.{Sub};
ghost use Rattle.fut_typing.specs.Names.{Names};
ghost use Rattle.fut_sizes.specs.Applications.{Met as AMet, all_settled};
ghost use Rattle.fut_sizes.specs.Compositions.{without_two};
ghost use Rattle.fut_sizes.specs.Functions.{closed};
ghost use Rattle.fut_sizes.specs.Matching.{Found as Finding, read};
ghost use Rattle.fut_sizes.specs.Sizing.{all_noted, met_noted};
ghost use Rattle.fut_sizes.specs.Steps.{and_then, note};
ghost use Rattle.size_arena.specs.Trees.{size_of};
ghost use Rattle.size_program.specs.Answers.{Steps};
ghost use Rattle.size_slots.specs.Held.{Held, Holds};
ghost use Rattle.size_applying.specs.Going.{Is_met};
ghost use Rattle.size_applying.specs.Sharing.{Chained, Has_seen, Leads_on, any_last, noted_size};
ghost use Rattle.size_applying.specs.Wanted.{laters_of};

use crate::arguments::Later;
use crate::going::Application;
use crate::seeing::{Last, Seen, noting_of, settled};
use bumpalo::Bump;
use fut_scalar::NoMemory;
use size_arena::{SizeErr, SizeTree};
use size_program::{Tables, note};
use size_settling::closed;
use size_slots::Found;
use std::alloc::Global;

/// What a node of an application has once all is matched: what is still open in it is chosen again, where it goes on, or unknown.
fn closed_size<'a>(
    size: &'a SizeTree<'a>,
    goes_on: bool,
    table: &mut Found<'a>,
    bump: &'a Bump,
    alloc: Global,
) -> Result<&'a SizeTree<'a>, NoMemory>
    requires { Held table.old }
    ensures settled { (σ : Finding) → Holds table.old σ → IfOk result (λ made. Holds table.new (all_settled (size_of size.now) σ)) }
    ensures closed { (σ : Finding) → Holds table.old σ → IfOk result (λ made. size_of made.now ≡ closed goes_on (all_settled (size_of size.now) σ).maker (read (all_settled (size_of size.now) σ) (size_of size.now))) }
    ensures held { IfOk result (λ made. Held table.new) }
{
    let made = settled(size, table, bump)?;
    let whole = closed(goes_on, table.makers.as_slice(), made, bump, alloc)?;
    Ok(whole)
}

/// The sized type of a node within an application is known.
#[tactic(auto, using(size_program::proofs::StepLaws::out_of_memory))]
fn note_later<'a>(
    last: &Last<'a>,
    later: &Later<'a>,
    table: &mut Found<'a>,
    tables: &mut Tables<'a>,
    bump: &'a Bump,
    alloc: Global,
) -> Result<Seen<'a>, SizeErr>
    requires { Held table.old }
    ensures noted { (σ : Finding) → Holds table.old σ → Leads_on last.now.seen later.now σ → Steps (λ s y. Has_seen table.new later.now σ s) (note later.now.node (noted_size later.now σ)) tables.old tables.new result }
    ensures held { IfOk result (λ s. Held table.new) }
{
    match noting_of(last, later, table, bump, alloc) {
        Ok(noting) => match note(tables, later.node, noting.size) {
            Ok(()) => Ok(noting.seen),
            Err(error) => Err(error),
        },
        Err(_) => Err(SizeErr::Memory),
    }
}

/// The sized types of nodes within an application are known.
///
/// `Err`: memory ran out. Then the table is of no account.
fn note_all<'a>(
    later: &[Later<'a>],
    table: &mut Found<'a>,
    tables: &mut Tables<'a>,
    bump: &'a Bump,
    alloc: Global,
) -> Result<(), SizeErr>
    requires { Held table.old }
    ensures { (N : Names) (types : Sub) (σ : Finding) → Holds table.old σ → Chained later.now any_last → Steps (λ u y. y ≡ u) (all_noted N types (laters_of later.now) σ) tables.old tables.new result }
{
    let mut last = Last { seen: None };
    for one in later {
        match note_later(&last, one, table, tables, bump, alloc) {
            Ok(seen) => last = Last { seen: Some(seen) },
            Err(error) => return Err(error),
        }
    }
    Ok(())
}

/// The nodes within an application at a node are known, and its own sized type.
fn note_whole<'a>(
    node: u32,
    whole: &'a SizeTree<'a>,
    later: &[Later<'a>],
    table: &mut Found<'a>,
    tables: &mut Tables<'a>,
    bump: &'a Bump,
    alloc: Global,
) -> Result<&'a SizeTree<'a>, SizeErr>
    requires { Held table.old }
    ensures { (N : Names) (types : Sub) (σ : Finding) → Holds table.old σ → Chained later.now any_last → Steps (λ t y. y ≡ size_of t.now) (and_then (all_noted N types (laters_of later.now) σ) (λ z. note node (size_of whole.now))) tables.old tables.new result }
{
    match note_all(later, table, tables, bump, alloc) {
        Ok(()) => {}
        Err(error) => return Err(error),
    }
    match note(tables, node, whole) {
        Ok(()) => Ok(whole),
        Err(error) => Err(error),
    }
}

/// An application at a node gives this, and these nodes stand within it: their sized types are known, and its own.
#[tactic(auto, using(size_program::proofs::StepLaws::out_of_memory))]
fn note_result<'a>(
    node: u32,
    size: &'a SizeTree<'a>,
    goes_on: bool,
    later: &[Later<'a>],
    table: &mut Found<'a>,
    tables: &mut Tables<'a>,
    bump: &'a Bump,
    alloc: Global,
) -> Result<&'a SizeTree<'a>, SizeErr>
    requires { Held table.old }
    ensures { (N : Names) (types : Sub) (σ : Finding) → Holds table.old σ → Chained later.now any_last → Steps (λ t y. y ≡ size_of t.now) (met_noted N types node (record { size = size_of size.now; found = σ; later = laters_of later.now; goes_on = goes_on })) tables.old tables.new result }
{
    match closed_size(size, goes_on, table, bump, alloc) {
        Ok(whole) => note_whole(node, whole, later, table, tables, bump, alloc),
        Err(_) => Err(SizeErr::Memory),
    }
}

/// An application at a node is over: the sized types of the nodes within it are known, and its own.
///
/// `Err`: memory ran out. Then the table is of no account.
pub fn note_met<'a>(
    node: u32,
    application: &Application<'a>,
    table: &mut Found<'a>,
    tables: &mut Tables<'a>,
    bump: &'a Bump,
    alloc: Global,
) -> Result<&'a SizeTree<'a>, SizeErr>
    requires { Held table.old }
    ensures { (N : Names) (types : Sub) (m : AMet) → Is_met table.old application.now m → Steps (λ t y. y ≡ size_of t.now) (met_noted N types node m) tables.old tables.new result }
{
    note_result(
        node,
        application.gives.size,
        application.gives.goes_on,
        application.later.as_slice(),
        table,
        tables,
        bump,
        alloc,
    )
}

/// Later nodes but the first two; of fewer, none.
#[tactic(auto, using(crate::proofs::NotingForms::fewer))]
fn without_two<'b, 'a>(later: &'b [Later<'a>]) -> &'b [Later<'a>]
    ensures later { laters_of result.now ≡ without_two (laters_of later.now) }
    ensures chained { Chained later.now any_last → Chained result.now any_last }
{
    if later.len() < 2 {
        return &later[later.len()..];
    }
    &later[2..]
}

/// The same of a composition at a node, applied to two functions: no node stands for what composes, and none for that applied to
/// one function.
///
/// `Err`: memory ran out. Then the table is of no account.
pub fn note_composed<'a>(
    node: u32,
    application: &Application<'a>,
    table: &mut Found<'a>,
    tables: &mut Tables<'a>,
    bump: &'a Bump,
    alloc: Global,
) -> Result<&'a SizeTree<'a>, SizeErr>
    requires { Held table.old }
    ensures { (N : Names) (types : Sub) (m : AMet) → Is_met table.old application.now m → Steps (λ t y. y ≡ size_of t.now) (met_noted N types node (record { size = m.size; found = m.found; later = without_two m.later; goes_on = m.goes_on })) tables.old tables.new result }
{
    note_result(
        node,
        application.gives.size,
        application.gives.goes_on,
        without_two(application.later.as_slice()),
        table,
        tables,
        bump,
        alloc,
    )
}
