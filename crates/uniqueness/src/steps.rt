// Steps: what is asked, and what is consumed then.
ghost use Rattle.std.specs.Prelude.{◌≡◌, ◌+◌, true, None, IfOk, Ok, OnOk, cond, length, take};
ghost use Rattle.fut_aliases.specs.Calls.{Part, settled, use_name};
ghost use Rattle.fut_aliases.specs.Operations.{update};
ghost use Rattle.fut_aliases.specs.Patterns.{Scope};
ghost use Rattle.fut_aliases.specs.Steps.{Losses as HeldLosses, Step, apart, behind, lose_all, lost, or_else};
ghost use Rattle.fut_aliases.specs.declared.refusals.Named.TheVariants.{ByName};
ghost use Rattle.fut_aliases.specs.declared.refusals.Spot.TheVariants.{First};
ghost use Rattle.fut_aliases.specs.Values.{Value, aliases};
ghost use Rattle.fut_types.specs.Types.{Kinds};
ghost use Rattle.alias_values.specs.Trees.{value_of};
ghost use Rattle.uniqueness.specs.Answers.{Grows, Stepped};
ghost use Rattle.uniqueness.specs.Held.{held_of, helds_of, here_of};
ghost use Rattle.uniqueness.specs.Rules.{name_rule, update_rules};

use crate::held::{Held, Here, Stop};
use crate::rules::{
    aliases, captured, first_held_loss, held_loss, last_aliases, not_consumable, shares,
};
use alias_losses::{Losses, Telling};
use bumpalo::Bump;
use fut_aliases::{Alias, Broken, Loss, Spot};
use fut_scalar::{BindId, NoMemory, Place};

// What is refused where rules are asked for.
fn refusal(here: &Here<'_>, broken: Option<Broken>) -> Option<Broken>
    ensures { result ≡ cond here.now.asked broken None }
{
    if here.asked { broken } else { None }
}

/// No part may share with what a later part consumed.
#[tactic(auto, using(crate::proofs::Stepping::settling))]
pub fn settle(bump: &Bump, here: &Here<'_>, losses: &Losses, parts: &[Held<'_>]) -> Result<(), Stop>
    ensures { (scope : Scope) → Stepped (λ u. tt) (settled (here_of scope here.now) (helds_of parts.now)) losses.now losses.now result }
{
    let Ok(broken) = first_held_loss(bump, losses, parts) else {
        return Err(Stop::Memory);
    };
    match refusal(here, broken) {
        Some(rule) => Err(Stop::Refused(rule)),
        None => Ok(()),
    }
}

// What was consumed may not be used by a name; that is the answer's name.
fn bound_broken(
    bump: &Bump,
    losses: &Losses,
    bind: BindId,
    head: &Held<'_>,
) -> Result<Option<Broken>, NoMemory>
    ensures { IfOk result (λ broken. broken ≡ lost losses.now (λ a. ByName bind) (First head.now.node) (aliases (value_of head.now.value.now))) }
{
    let names = aliases(bump, head.value)?;
    Ok(losses.lost(0, Telling::TheName(bind), Spot::First(head.node), names))
}

fn name_broken(
    bump: &Bump,
    losses: &Losses,
    name: Option<BindId>,
    head: &Held<'_>,
) -> Result<Option<Broken>, NoMemory>
    ensures { IfOk result (λ broken. broken ≡ name_rule losses.now name (held_of head.now)) }
{
    match name {
        Some(bind) => bound_broken(bump, losses, bind, head),
        None => Ok(None),
    }
}

/// A name, or a path of fields from one, is used where something is done with it.
#[tactic(auto, using(crate::proofs::Stepping::using_names))]
pub fn use_name(
    bump: &Bump,
    here: &Here<'_>,
    losses: &Losses,
    name: Option<BindId>,
    head: &Held<'_>,
) -> Result<(), Stop>
    ensures { (K : Kinds) (scope : Scope) (p : Part) → p.name ≡ name → p.head ≡ held_of head.now → Stepped (λ u. tt) (use_name K (here_of scope here.now) p) losses.now losses.now result }
{
    let Ok(broken) = name_broken(bump, losses, name, head) else {
        return Err(Stop::Memory);
    };
    match refusal(here, broken) {
        Some(rule) => Err(Stop::Refused(rule)),
        None => Ok(()),
    }
}

fn first_of(one: Option<Broken>, other: Option<Broken>) -> Option<Broken>
    ensures { result ≡ or_else one other }
{
    match one {
        Some(_) => one,
        None => other,
    }
}

// The first rule that an update breaks, whose array has these aliases.
fn update_broken(
    bump: &Bump,
    here: &Here<'_>,
    losses: &Losses,
    mark: Place,
    array: &Held<'_>,
    names: &[Alias],
    parts: &[Held<'_>],
) -> Result<Option<Broken>, NoMemory>
    requires names { names.now ≡ aliases (value_of array.now.value.now) }
    ensures { IfOk result (λ broken. (scope : Scope) → broken ≡ update_rules (here_of scope here.now) losses.now mark (held_of array.now) (helds_of parts.now)) }
{
    let element = last_aliases(bump, parts)?;
    let lost = held_loss(bump, losses, array)?;
    let later = first_held_loss(bump, losses, parts)?;
    let shared = shares(array.called, Spot::Mark(mark), names, element);
    let fixed = not_consumable(here, Spot::Mark(mark), names);
    let outside = captured(here, Spot::Mark(mark), names);
    let settled = first_of(lost, later);
    let inside = first_of(outside, settled);
    let consumable = first_of(fixed, inside);
    Ok(first_of(shared, consumable))
}

/// An update, which gives a new value, consumes its array: the array must be one that may be consumed, and the new element may
/// share nothing with it.
#[tactic(auto, using(crate::proofs::Stepping::updating))]
pub fn update(
    bump: &Bump,
    here: &Here<'_>,
    losses: &mut Losses,
    mark: Place,
    array: &Held<'_>,
    parts: &[Held<'_>],
) -> Result<(), Stop>
    ensures { (scope : Scope) (new : Value) → Stepped (λ u. new) (update (here_of scope here.now) mark (held_of array.now) (helds_of parts.now) new) losses.old losses.new result }
{
    let Ok(names) = aliases(bump, array.value) else {
        return Err(Stop::Memory);
    };
    let Ok(broken) = update_broken(bump, here, losses, mark, array, names, parts) else {
        return Err(Stop::Memory);
    };
    match refusal(here, broken) {
        Some(rule) => return Err(Stop::Refused(rule)),
        None => (),
    }
    match losses.consume(Spot::Mark(mark), names) {
        Ok(()) => Ok(()),
        Err(_) => Err(Stop::Memory),
    }
}

/// Ends the body of a function, which is looked at where the function stands: what it consumed is put back.
pub fn end_body(losses: &mut Losses, before: usize)
    ensures { (body : Step (Unit {0})) (ls : HeldLosses) → before ≡ length ls → body ls ≡ Ok (record { result = tt; losses = losses.old }) → Grows ls losses.old → apart body ls ≡ Ok (record { result = tt; losses = losses.new }) }
{
    losses.put_back(before);
}

/// Ends the first branch of an `if`, or the second: what it consumed is put back, and held by the arena.
pub fn end_branch<'a>(
    bump: &'a Bump,
    losses: &mut Losses,
    before: usize,
) -> Result<&'a [Loss], NoMemory>
    ensures later { IfOk result (λ later. later.now ≡ behind before losses.old) }
    ensures back { OnOk result (losses.new ≡ take before losses.old) }
{
    let later = losses.later(bump, before)?;
    losses.put_back(before);
    Ok(later)
}

fn has_grown(losses: &Losses, before: usize, count: usize) -> bool
    ensures { result ≡ true → length losses.now ≡ before + count }
{
    let after = losses.len();
    before <= after && after - before == count
}

/// Behind both branches: all that either of them consumed is consumed, at the place of the first branch where both did.
pub fn join_branches(losses: &mut Losses, first: &[Loss], second: &[Loss]) -> Result<(), NoMemory>
    ensures { OnOk result ((one other : HeldLosses) → Grows losses.old one → Grows losses.old other → first.now ≡ behind (length losses.old) one → second.now ≡ behind (length losses.old) other → losses.new ≡ lose_all other one) }
{
    let before = losses.len();
    losses.lose_all(first)?;
    // what a branch consumed was not consumed before it
    let has_all = has_grown(losses, before, first.len());
    if !has_all {
        return Err(NoMemory);
    }
    losses.lose_all(second)?;
    Ok(())
}
