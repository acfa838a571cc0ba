// Rules: each answers what is broken, if it is.
ghost use Rattle.std.specs.Prelude.{◌≡◌, [], IfOk};
ghost use Rattle.fut_aliases.specs.Aliases.{least, shared};
ghost use Rattle.fut_aliases.specs.Calls.{captured, first_broken, held_loss, not_consumable};
ghost use Rattle.fut_aliases.specs.Operations.{array_name, last_value};
ghost use Rattle.fut_aliases.specs.Patterns.{Scope};
ghost use Rattle.fut_aliases.specs.Steps.{naming};
ghost use Rattle.fut_aliases.specs.Values.{aliases};
ghost use Rattle.fut_aliases.specs.declared.refusals.Broken.TheVariants.{ResultAliases};
ghost use Rattle.alias_values.specs.Trees.{value_of};
ghost use Rattle.uniqueness.specs.Held.{held_of, helds_of, here_of};

use crate::held::{Held, Here};
use alias_losses::{Losses, Telling};
use alias_values::{Test, ValueTree, add_aliases, least_of};
use bumpalo::Bump;
use bumpalo::collections::into_bump_slice;
use fut_aliases::{Alias, Broken, Named, Spot};
use fut_scalar::NoMemory;

fn no_alias<'a>(bump: &'a Bump) -> &'a [Alias]
    ensures { result.now ≡ [] }
{
    into_bump_slice(Vec::new(bump))
}

/// All that a value may share memory with.
#[tactic(auto, using(crate::proofs::Ruling::rules_of_sets))]
pub fn aliases<'a>(bump: &'a Bump, value: &ValueTree<'_>) -> Result<&'a [Alias], NoMemory>
    ensures { IfOk result (λ all. all.now ≡ aliases (value_of value.now)) }
{
    let none = no_alias(bump);
    let all = add_aliases(bump, value, none)?;
    Ok(all)
}

/// What may not be consumed: a parameter without a star, or what was made before the innermost loop.
#[tactic(auto, using(crate::proofs::Ruling::rules_of_sets))]
pub fn not_consumable(here: &Here<'_>, at: Spot, set: &[Alias]) -> Option<Broken>
    ensures { (scope : Scope) → result ≡ not_consumable (here_of scope here.now) at set.now }
{
    match least_of(&Test::InOrOutside(here.fixed, here.loop_from), set) {
        Some(alias) => Some(Broken::NotConsumable(Named::ByAlias(alias), at)),
        None => None,
    }
}

/// What a function may not consume, since it was made outside of it.
#[tactic(auto, using(crate::proofs::Ruling::rules_of_sets))]
pub fn captured(here: &Here<'_>, at: Spot, set: &[Alias]) -> Option<Broken>
    ensures { (scope : Scope) → result ≡ captured (here_of scope here.now) at set.now }
{
    match least_of(&Test::Outside(here.function_from), set) {
        Some(alias) => Some(Broken::Captured(Named::ByAlias(alias), at)),
        None => None,
    }
}

// How a refusal calls the array of an update.
fn array_name(called: Named, alias: Alias) -> Named
    ensures { result ≡ array_name called alias }
{
    match called {
        Named::ByName(_) => called,
        Named::ByAlias(_) | Named::ByPrimitive(_) | Named::AFunction => Named::ByAlias(alias),
    }
}

/// The new element of an update may share nothing with the array, which is called so and has these aliases.
#[tactic(auto, using(crate::proofs::Ruling::rules_of_sets))]
pub fn shares(called: Named, at: Spot, names: &[Alias], element: &[Alias]) -> Option<Broken>
    ensures { result ≡ naming (λ a. ResultAliases (array_name called a) at) (least (shared names.now element.now)) }
{
    match least_of(&Test::In(element), names) {
        Some(alias) => Some(Broken::ResultAliases(array_name(called, alias), at)),
        None => None,
    }
}

/// A part may share nothing with what a later part consumed.
pub fn held_loss(bump: &Bump, losses: &Losses, part: &Held<'_>) -> Result<Option<Broken>, NoMemory>
    ensures { IfOk result (λ broken. broken ≡ held_loss losses.now (held_of part.now)) }
{
    let names = aliases(bump, part.value)?;
    Ok(losses.lost(
        part.losses,
        Telling::TheAlias,
        Spot::First(part.node),
        names,
    ))
}

/// The first part that shares with what a later one consumed.
#[tactic(auto, using(crate::proofs::Ruling::first_ones))]
pub fn first_held_loss(
    bump: &Bump,
    losses: &Losses,
    parts: &[Held<'_>],
) -> Result<Option<Broken>, NoMemory>
    ensures { IfOk result (λ broken. broken ≡ first_broken (held_loss losses.now) (helds_of parts.now)) }
{
    for i in 0..parts.len() {
        let broken = held_loss(bump, losses, &parts[i])?;
        if broken.is_some() {
            return Ok(broken);
        }
    }
    Ok(None)
}

/// What the last part may share memory with: of an update the new element.
#[tactic(auto, using(crate::proofs::Ruling::last_ones))]
pub fn last_aliases<'a>(bump: &'a Bump, parts: &[Held<'_>]) -> Result<&'a [Alias], NoMemory>
    ensures { IfOk result (λ all. all.now ≡ aliases (last_value (helds_of parts.now))) }
{
    if parts.is_empty() {
        return Ok(no_alias(bump));
    }
    let all = aliases(bump, parts[parts.len() - 1].value)?;
    Ok(all)
}
