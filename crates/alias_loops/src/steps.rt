// Steps: what is asked and consumed before the first turn, and what is asked behind each.
ghost use Rattle.std.specs.Prelude.{◌≡◌, IfOk, None, Ok, OnOk, cond, length};
ghost use Rattle.fut_aliases.specs.Calls.{first_broken, held_loss};
ghost use Rattle.fut_aliases.specs.Loops.{consume_firsts, eaten_captured, eaten_not_consumable, enter, given_loss, leave};
ghost use Rattle.fut_aliases.specs.Patterns.{Scope};
ghost use Rattle.fut_aliases.specs.Steps.{Losses as HeldLosses, behind, lose_all, losses_at, naming, or_else};
ghost use Rattle.fut_aliases.specs.Values.{components};
ghost use Rattle.alias_loops.specs.Carried.{carried_of, carrieds_of};
ghost use Rattle.alias_loops.specs.Rules.{Consumes, enter_rules, leave_rules, outside_loss};
ghost use Rattle.fut_aliases.specs.declared.refusals.Broken.TheVariants.{ResultAliases};
ghost use Rattle.fut_aliases.specs.declared.refusals.Named.TheVariants.{ByAlias};
ghost use Rattle.fut_aliases.specs.declared.refusals.Spot.TheVariants.{First};
ghost use Rattle.alias_values.specs.Trees.{value_of};
ghost use Rattle.uniqueness.specs.Answers.{Grows, Stepped};
ghost use Rattle.uniqueness.specs.Held.{held_of, here_of};

use crate::carried::Carried;
use crate::sharing::{least_shared_first, least_shared_result};
use alias_joins::components;
use alias_losses::{Losses, Telling};
use alias_values::{ValueTree, is_outside};
use bumpalo::Bump;
use fut_aliases::{Alias, Broken, Loss, Named, Spot};
use fut_scalar::NoMemory;
use uniqueness::{Held, Here, Stop, aliases, captured, not_consumable};

// A first value that is consumed must be one that may be.
fn eaten_not_consumable(here: &Here<'_>, one: &Carried<'_>) -> Option<Broken>
    ensures { (scope : Scope) → result ≡ eaten_not_consumable (here_of scope here.now) (carried_of one.now) }
{
    if one.is_eaten {
        not_consumable(here, Spot::First(one.node), one.first)
    } else {
        None
    }
}

fn first_not_consumable(here: &Here<'_>, carried: &[Carried<'_>]) -> Option<Broken>
    ensures { (scope : Scope) → result ≡ first_broken (eaten_not_consumable (here_of scope here.now)) (carrieds_of carried.now) }
{
    for i in 0..carried.len() {
        let broken = eaten_not_consumable(here, &carried[i]);
        if broken.is_some() {
            return broken;
        }
    }
    None
}

// It must be made in the function that the loop stands in.
fn eaten_captured(here: &Here<'_>, one: &Carried<'_>) -> Option<Broken>
    ensures { (scope : Scope) → result ≡ eaten_captured (here_of scope here.now) (carried_of one.now) }
{
    if one.is_eaten {
        captured(here, Spot::First(one.node), one.first)
    } else {
        None
    }
}

fn first_captured(here: &Here<'_>, carried: &[Carried<'_>]) -> Option<Broken>
    ensures { (scope : Scope) → result ≡ first_broken (eaten_captured (here_of scope here.now)) (carrieds_of carried.now) }
{
    for i in 0..carried.len() {
        let broken = eaten_captured(here, &carried[i]);
        if broken.is_some() {
            return broken;
        }
    }
    None
}

// What must share with nothing, and shares with this.
fn result_alias(body: u32, least: Option<Alias>) -> Option<Broken>
    ensures { result ≡ naming (λ a. ResultAliases (ByAlias a) (First body)) least }
{
    match least {
        Some(alias) => Some(Broken::ResultAliases(Named::ByAlias(alias), Spot::First(body))),
        None => None,
    }
}

fn first_of(one: Option<Broken>, other: Option<Broken>) -> Option<Broken>
    ensures { result ≡ or_else one other }
{
    match one {
        Some(_) => one,
        None => other,
    }
}

// No later part may have consumed the first value.
fn first_loss(bump: &Bump, losses: &Losses, first: &Held<'_>) -> Result<Option<Broken>, NoMemory>
    ensures { IfOk result (λ broken. broken ≡ held_loss losses.now (held_of first.now)) }
{
    let names = aliases(bump, first.value)?;
    Ok(losses.lost(
        first.losses,
        Telling::TheAlias,
        Spot::First(first.node),
        names,
    ))
}

// The first rule that is broken before the first turn.
fn enter_broken(
    bump: &Bump,
    here: &Here<'_>,
    losses: &Losses,
    first: &Held<'_>,
    over: &[Alias],
    body: u32,
    carried: &[Carried<'_>],
) -> Result<Option<Broken>, NoMemory>
    ensures { IfOk result (λ broken. (scope : Scope) → broken ≡ enter_rules (here_of scope here.now) losses.now (held_of first.now) over.now body (carrieds_of carried.now)) }
{
    let lost = first_loss(bump, losses, first)?;
    let fixed = first_not_consumable(here, carried);
    let outside = first_captured(here, carried);
    let shared = result_alias(body, least_shared_first(over, carried));
    let settled = first_of(lost, shared);
    let inside = first_of(outside, settled);
    Ok(first_of(fixed, inside))
}

// A first value is consumed where its parameter is.
fn consume_first(losses: &mut Losses, one: &Carried<'_>) -> Result<(), NoMemory>
    ensures { OnOk result (losses.new ≡ cond one.now.is_eaten (lose_all (losses_at (First one.now.node) one.now.first.now) losses.old) losses.old) }
{
    if !one.is_eaten {
        return Ok(());
    }
    losses.consume(Spot::First(one.node), one.first)
}

fn consume_firsts(losses: &mut Losses, carried: &[Carried<'_>]) -> Result<(), NoMemory>
    ensures { OnOk result (Consumes (consume_firsts (carrieds_of carried.now)) losses.old losses.new) }
{
    for i in 0..carried.len() {
        consume_first(losses, &carried[i])?;
    }
    Ok(())
}

// What the demands before the first turn are about; nothing where no rule is asked for.
fn enter_refusal(
    bump: &Bump,
    here: &Here<'_>,
    losses: &Losses,
    first: &Held<'_>,
    over: &[Alias],
    body: u32,
    carried: &[Carried<'_>],
) -> Result<Option<Broken>, NoMemory>
    ensures { IfOk result (λ broken. (scope : Scope) → broken ≡ cond here.now.asked (enter_rules (here_of scope here.now) losses.now (held_of first.now) over.now body (carrieds_of carried.now)) None) }
{
    if !here.asked {
        return Ok(None);
    }
    let broken = enter_broken(bump, here, losses, first, over, body, carried)?;
    Ok(broken)
}

/// A loop's first values are consumed before the first turn, where its parameters are: each must be one that may be, and share
/// nothing with another or with what the loop goes over. `body` is the node of the loop's body.
pub fn enter(
    bump: &Bump,
    here: &Here<'_>,
    losses: &mut Losses,
    first: &Held<'_>,
    over: &[Alias],
    body: u32,
    carried: &[Carried<'_>],
) -> Result<(), Stop>
    ensures { (scope : Scope) → Stepped (λ u. tt) (enter (here_of scope here.now) (held_of first.now) over.now body (carrieds_of carried.now)) losses.old losses.new result }
{
    let Ok(broken) = enter_refusal(bump, here, losses, first, over, body, carried) else {
        return Err(Stop::Memory);
    };
    match broken {
        Some(rule) => return Err(Stop::Refused(rule)),
        None => (),
    }
    match consume_firsts(losses, carried) {
        Ok(()) => Ok(()),
        Err(_) => Err(Stop::Memory),
    }
}

// An alias from outside that was consumed.
fn outside_loss(losses: &Losses, from: u32, body: u32, alias: Alias) -> Option<Broken>
    ensures { result ≡ outside_loss losses.now from body alias }
{
    if !is_outside(from, alias) {
        return None;
    }
    match losses.lost_at(alias) {
        Some(at) => Some(Broken::Consumed(Named::ByAlias(alias), at, Spot::First(body))),
        None => None,
    }
}

// What the body gives from outside for a parameter was not consumed.
fn given_loss(losses: &Losses, from: u32, body: u32, one: &Carried<'_>) -> Option<Broken>
    ensures { result ≡ given_loss losses.now from body (carried_of one.now) }
{
    for i in 0..one.gives.len() {
        let broken = outside_loss(losses, from, body, one.gives[i]);
        if broken.is_some() {
            return broken;
        }
    }
    None
}

fn first_given_loss(
    losses: &Losses,
    from: u32,
    body: u32,
    carried: &[Carried<'_>],
) -> Option<Broken>
    ensures { result ≡ first_broken (given_loss losses.now from body) (carrieds_of carried.now) }
{
    for i in 0..carried.len() {
        let broken = given_loss(losses, from, body, &carried[i]);
        if broken.is_some() {
            return broken;
        }
    }
    None
}

fn leave_refusal(
    bump: &Bump,
    here: &Here<'_>,
    losses: &Losses,
    from: u32,
    body: u32,
    carried: &[Carried<'_>],
    given: &ValueTree<'_>,
) -> Result<Option<Broken>, NoMemory>
    ensures { IfOk result (λ broken. broken ≡ cond here.now.asked (leave_rules losses.now from body (carrieds_of carried.now) (components (value_of given.now))) None) }
{
    if !here.asked {
        return Ok(None);
    }
    let sets = components(bump, given)?;
    let shared = result_alias(body, least_shared_result(from, carried, sets));
    let lost = first_given_loss(losses, from, body, carried);
    Ok(first_of(shared, lost))
}

/// What the body, at a node, gives for a parameter that it consumes shares with nothing from outside of the loop, which begins at
/// `from`, nor with another parameter or component; and what it gives from outside was not consumed.
pub fn leave(
    bump: &Bump,
    here: &Here<'_>,
    losses: &Losses,
    from: u32,
    body: u32,
    carried: &[Carried<'_>],
    given: &ValueTree<'_>,
) -> Result<(), Stop>
    ensures { (scope : Scope) → Stepped (λ u. tt) (leave (here_of scope here.now) from body (carrieds_of carried.now) (components (value_of given.now))) losses.now losses.now result }
{
    let Ok(broken) = leave_refusal(bump, here, losses, from, body, carried, given) else {
        return Err(Stop::Memory);
    };
    match broken {
        Some(rule) => Err(Stop::Refused(rule)),
        None => Ok(()),
    }
}

/// Where only values flow the first look has it all: what it consumed, and what was put back, is consumed. `later` is what it
/// consumed beyond what was consumed before it.
pub fn lose_flow(losses: &mut Losses, later: &[Loss]) -> Result<(), NoMemory>
    ensures { OnOk result ((before flow : HeldLosses) → Grows before losses.old → Grows before flow → later.now ≡ behind (length before) flow → losses.new ≡ lose_all flow losses.old) }
{
    losses.lose_all(later)?;
    Ok(())
}
