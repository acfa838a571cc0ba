// The rules of applications.
ghost use Rattle.std.specs.Prelude.{◌≡◌, IfOk};
ghost use Rattle.fut_aliases.specs.Calls.{first_broken, starred_argument, too_hungry, too_shared};
ghost use Rattle.fut_aliases.specs.Steps.{Losses, demand, or_else};
ghost use Rattle.alias_values.specs.Trees.{stars_of};
ghost use Rattle.uniqueness.specs.Answers.{Stepped};
ghost use Rattle.uniqueness.specs.Held.{held_of};
ghost use Rattle.alias_applications.specs.Givens.{given_of, givens_of};
ghost use Rattle.alias_applications.specs.Rules.{before_call, before_partial, behind_call, captured_argument, hungry, shared, unfit};

use crate::given::Given;
use crate::sides::{call_sides, some_starred};
use alias_calls::clashes;
use alias_types::{functions, taken};
use alias_values::{StarTree, consumes_more, gives_less};
use bumpalo::Bump;
use fut_aliases::{Broken, Named, Spot};
use fut_scalar::NoMemory;
use uniqueness::{Held, Here, Stop, captured, not_consumable};

/// The first of two rules that are broken.
pub fn first_of(one: Option<Broken>, other: Option<Broken>) -> Option<Broken>
    ensures { result ≡ or_else one other }
{
    match one {
        Some(_) => one,
        None => other,
    }
}

/// What is refused where rules are asked for.
#[tactic(auto, using(crate::proofs::StepForms::demand_forms))]
pub fn demanded(here: &Here<'_>, broken: Option<Broken>) -> Result<(), Stop>
    ensures { (ls : Losses) → Stepped (λ u. tt) (demand here.now.asked broken) ls ls result }
{
    if !here.asked {
        return Ok(());
    }
    match broken {
        Some(rule) => Err(Stop::Refused(rule)),
        None => Ok(()),
    }
}

/// A function may not stand where these stars are wanted if it consumes more.
#[tactic(auto, using(crate::proofs::RuleForms::fit_forms))]
pub fn too_hungry(
    bump: &Bump,
    stars: &StarTree<'_>,
    held: &Held<'_>,
) -> Result<Option<Broken>, NoMemory>
    ensures { IfOk result (λ broken. broken ≡ too_hungry (stars_of stars.now) (held_of held.now)) }
{
    let found = functions(bump, held.value)?;
    if consumes_more(stars, found) {
        Ok(Some(Broken::NotConsumable(held.called, Spot::First(held.node))))
    } else {
        Ok(None)
    }
}

/// A function may not stand where these stars are wanted if less of what it gives is fresh.
#[tactic(auto, using(crate::proofs::RuleForms::fit_forms))]
pub fn too_shared(
    bump: &Bump,
    stars: &StarTree<'_>,
    held: &Held<'_>,
) -> Result<Option<Broken>, NoMemory>
    ensures { IfOk result (λ broken. broken ≡ too_shared (stars_of stars.now) (held_of held.now)) }
{
    let found = functions(bump, held.value)?;
    if gives_less(stars, found) {
        Ok(Some(Broken::ResultAliases(held.first_name, Spot::First(held.node))))
    } else {
        Ok(None)
    }
}

// An argument that is a function fits its parameter, and what is consumed of it may be consumed.
fn unfit(bump: &Bump, here: &Here<'_>, one: &Given<'_>) -> Result<Option<Broken>, NoMemory>
    ensures { IfOk result (λ broken. broken ≡ unfit here.now.fixed.now here.now.loop_from (given_of one.now)) }
{
    let hungry = too_hungry(bump, one.stars, &one.argument)?;
    let set = taken(bump, one.stars, one.argument.value)?;
    let fixed = not_consumable(here, Spot::First(one.argument.node), set);
    Ok(first_of(hungry, fixed))
}

// What is consumed of an argument was made inside of the innermost function.
fn captured_argument(
    bump: &Bump,
    here: &Here<'_>,
    one: &Given<'_>,
) -> Result<Option<Broken>, NoMemory>
    ensures { IfOk result (λ broken. broken ≡ captured_argument here.now.function_from (given_of one.now)) }
{
    let set = taken(bump, one.stars, one.argument.value)?;
    Ok(captured(here, Spot::First(one.argument.node), set))
}

// The first argument that does not fit its parameter or may not be consumed.
#[tactic(auto, using(crate::proofs::RuleForms::first_ones))]
fn first_unfit(bump: &Bump, here: &Here<'_>, all: &[Given<'_>]) -> Result<Option<Broken>, NoMemory>
    ensures { IfOk result (λ broken. broken ≡ first_broken (unfit here.now.fixed.now here.now.loop_from) (givens_of all.now)) }
{
    for i in 0..all.len() {
        let broken = unfit(bump, here, &all[i])?;
        if broken.is_some() {
            return Ok(broken);
        }
    }
    Ok(None)
}

// The first argument that is consumed and was made outside of the innermost function.
#[tactic(auto, using(crate::proofs::RuleForms::first_ones))]
fn first_captured(
    bump: &Bump,
    here: &Here<'_>,
    all: &[Given<'_>],
) -> Result<Option<Broken>, NoMemory>
    ensures { IfOk result (λ broken. broken ≡ first_broken (captured_argument here.now.function_from) (givens_of all.now)) }
{
    for i in 0..all.len() {
        let broken = captured_argument(bump, here, &all[i])?;
        if broken.is_some() {
            return Ok(broken);
        }
    }
    Ok(None)
}

// The first argument that is a function which consumes more than its parameter may.
#[tactic(auto, using(crate::proofs::RuleForms::first_ones))]
fn first_hungry(bump: &Bump, all: &[Given<'_>]) -> Result<Option<Broken>, NoMemory>
    ensures { IfOk result (λ broken. broken ≡ first_broken hungry (givens_of all.now)) }
{
    for i in 0..all.len() {
        let broken = too_hungry(bump, all[i].stars, &all[i].argument)?;
        if broken.is_some() {
            return Ok(broken);
        }
    }
    Ok(None)
}

/// The first argument that is a function which gives less that is fresh than its parameter does.
#[tactic(auto, using(crate::proofs::RuleForms::first_ones))]
pub fn first_shared(bump: &Bump, all: &[Given<'_>]) -> Result<Option<Broken>, NoMemory>
    ensures { IfOk result (λ broken. broken ≡ first_broken shared (givens_of all.now)) }
{
    for i in 0..all.len() {
        let broken = too_shared(bump, all[i].stars, &all[i].argument)?;
        if broken.is_some() {
            return Ok(broken);
        }
    }
    Ok(None)
}

// An argument whose parameter has a star, of a function that is called so, may not be kept.
#[tactic(auto, using(crate::proofs::RuleForms::starred_forms))]
fn starred_argument(bump: &Bump, called: Named, one: &Given<'_>) -> Result<Option<Broken>, NoMemory>
    ensures { IfOk result (λ broken. broken ≡ starred_argument called (given_of one.now)) }
{
    let starred = some_starred(bump, one.stars, one.argument.value)?;
    if starred {
        Ok(Some(Broken::NotConsumable(called, Spot::First(one.argument.node))))
    } else {
        Ok(None)
    }
}

// The first argument whose parameter has a star, of a function that is called so.
#[tactic(auto, using(crate::proofs::RuleForms::first_ones))]
fn first_starred(bump: &Bump, called: Named, all: &[Given<'_>]) -> Result<Option<Broken>, NoMemory>
    ensures { IfOk result (λ broken. broken ≡ first_broken (starred_argument called) (givens_of all.now)) }
{
    for i in 0..all.len() {
        let broken = starred_argument(bump, called, &all[i])?;
        if broken.is_some() {
            return Ok(broken);
        }
    }
    Ok(None)
}

/// What a call asks first: that its arguments fit, and that what is consumed of them may be consumed.
pub fn before_call(
    bump: &Bump,
    here: &Here<'_>,
    all: &[Given<'_>],
) -> Result<Option<Broken>, NoMemory>
    ensures { IfOk result (λ broken. broken ≡ before_call here.now.fixed.now here.now.loop_from here.now.function_from (givens_of all.now)) }
{
    let unfit = first_unfit(bump, here, all)?;
    let outside = first_captured(bump, here, all)?;
    Ok(first_of(unfit, outside))
}

/// What a call asks last: that what it consumes shares with no other component, and that its arguments give what is wanted.
pub fn behind_call<'a>(
    bump: &'a Bump,
    head: &Held<'a>,
    all: &[Given<'a>],
) -> Result<Option<Broken>, NoMemory>
    ensures { IfOk result (λ broken. broken ≡ behind_call (held_of head.now) (givens_of all.now)) }
{
    let sides = call_sides(bump, head, all)?;
    let clash = clashes(sides);
    let shared = first_shared(bump, all)?;
    Ok(first_of(clash, shared))
}

/// What is asked first of arguments that are kept, of a function that is called so.
pub fn before_partial(
    bump: &Bump,
    head: &Held<'_>,
    all: &[Given<'_>],
) -> Result<Option<Broken>, NoMemory>
    ensures { IfOk result (λ broken. broken ≡ before_partial (held_of head.now) (givens_of all.now)) }
{
    let hungry = first_hungry(bump, all)?;
    let starred = first_starred(bump, head.called, all)?;
    Ok(first_of(hungry, starred))
}
