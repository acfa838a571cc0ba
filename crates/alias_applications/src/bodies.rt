// What a function's body gives back, and what is written of a type.
ghost use Rattle.std.specs.Prelude.{◌≡◌, ◌++◌, [], IfOk};
ghost use Rattle.fut_aliases.specs.Aliases.{Naming, is_in, those};
ghost use Rattle.fut_aliases.specs.Calls.{too_hungry, too_shared};
ghost use Rattle.fut_aliases.specs.Looking.{give_back};
ghost use Rattle.fut_aliases.specs.Operations.{ascribe};
ghost use Rattle.fut_aliases.specs.Patterns.{Scope};
ghost use Rattle.fut_aliases.specs.Steps.{Losses as HeldLosses, demand, or_else, some_alias};
ghost use Rattle.fut_aliases.specs.declared.refusals.Broken.TheVariants.{ResultAliases};
ghost use Rattle.fut_aliases.specs.declared.refusals.Spot.TheVariants.{First};
ghost use Rattle.fut_types.specs.Types.{Kinds, Sub};
ghost use Rattle.fut_typing.specs.Names.{Names};
ghost use Rattle.alias_values.specs.Trees.{stars_of};
ghost use Rattle.uniqueness.specs.Answers.{Stepped};
ghost use Rattle.uniqueness.specs.Held.{held_of, here_of};
ghost use Rattle.alias_applications.specs.Rules.{components_of};
ghost use Rattle.alias_applications.specs.Results.{body_rules, from_outside, sets_of, shared_component, shared_components};
ghost use Rattle.alias_applications.specs.Shown.{shown_value};

use crate::rules::{demanded, first_of, too_hungry, too_shared};
use crate::sides::value_sides;
use alias_calls::Side;
use alias_program::no_alias;
use alias_types::ascribed;
use alias_values::{StarTree, ValueTree, is_in, is_outside, union};
use bumpalo::Bump;
use bumpalo::collections::into_bump_slice;
use fut_aliases::{Alias, Broken, Named, Spot};
use fut_scalar::NoMemory;
use uniqueness::{Held, Here, Stop};

// Whether something was made outside of the innermost function, or is a parameter without a star.
fn is_from_outside(here: &Here<'_>, alias: Alias) -> bool
    ensures { result ≡ from_outside here.now.function_from here.now.fixed.now alias }
{
    is_outside(here.function_from, alias) || is_in(alias, here.fixed)
}

// Those of a set that were made outside.
#[tactic(auto, using(crate::proofs::ResultForms::those_forms))]
fn those_outside<'a>(
    bump: &'a Bump,
    here: &Here<'_>,
    set: &[Alias],
) -> Result<&'a [Alias], NoMemory>
    ensures { IfOk result (λ made. made.now ≡ those (from_outside here.now.function_from here.now.fixed.now) set.now) }
{
    let mut made = Vec::new(bump);
    for i in 0..set.len() {
        let alias = set[i];
        if is_from_outside(here, alias) {
            made.push(alias)?;
        }
    }
    Ok(into_bump_slice(made))
}

// Whether an alias is in a set of these components.
#[tactic(auto, using(crate::proofs::ResultForms::in_forms))]
fn is_in_some(alias: Alias, sides: &[Side<'_>]) -> bool
    ensures { result ≡ is_in alias (sets_of (components_of sides.now)) }
{
    for i in 0..sides.len() {
        if is_in(alias, sides[i].set) {
            return true;
        }
    }
    false
}

fn is_in_others(alias: Alias, before: &[Side<'_>], behind: &[Side<'_>]) -> bool
    ensures { result ≡ is_in alias (sets_of (components_of before.now ++ components_of behind.now)) }
{
    if is_in_some(alias, before) {
        return true;
    }
    is_in_some(alias, behind)
}

// Those of a set that are in a set of other components too.
#[tactic(auto, using(crate::proofs::ResultForms::those_forms))]
fn those_shared<'a>(
    bump: &'a Bump,
    set: &[Alias],
    before: &[Side<'_>],
    behind: &[Side<'_>],
) -> Result<&'a [Alias], NoMemory>
    ensures { IfOk result (λ made. made.now ≡ those (λ a. is_in a (sets_of (components_of before.now ++ components_of behind.now))) set.now) }
{
    let mut made = Vec::new(bump);
    for i in 0..set.len() {
        let alias = set[i];
        if is_in_others(alias, before, behind) {
            made.push(alias)?;
        }
    }
    Ok(into_bump_slice(made))
}

// What a component with a star may not share with, of what it does.
#[tactic(auto, using(crate::proofs::ResultForms::component_forms))]
fn shared_component<'a>(
    bump: &'a Bump,
    here: &Here<'_>,
    one: &Side<'_>,
    before: &[Side<'_>],
    behind: &[Side<'_>],
) -> Result<&'a [Alias], NoMemory>
    ensures { IfOk result (λ made. made.now ≡ shared_component here.now.function_from here.now.fixed.now one.now.starred one.now.set.now (components_of before.now ++ components_of behind.now)) }
{
    if !one.starred {
        return Ok(no_alias(bump));
    }
    let outside = those_outside(bump, here, one.set)?;
    let others = those_shared(bump, one.set, before, behind)?;
    let all = union(bump, outside, others)?;
    Ok(all)
}

// What the components with a star may not share with, of what they do.
#[tactic(auto, using(crate::proofs::ResultForms::shared_forms))]
fn shared_components<'a>(
    bump: &'a Bump,
    here: &Here<'_>,
    sides: &[Side<'_>],
) -> Result<&'a [Alias], NoMemory>
    ensures { IfOk result (λ made. made.now ≡ shared_components here.now.function_from here.now.fixed.now [] (components_of sides.now)) }
{
    let mut all = no_alias(bump);
    let mut i = sides.len();
    'components: while i > 0 {
        i -= 1;
        let before = sides.split_at(i).0;
        let behind = sides.split_at(i + 1).1;
        let one = shared_component(bump, here, &sides[i], before, behind)?;
        all = union(bump, one, all)?;
    }
    Ok(all)
}

// The least of a set, which a result at a node may not share with.
#[tactic(auto, using(crate::proofs::ResultForms::least_forms))]
fn least_shared(node: u32, set: &[Alias]) -> Option<Broken>
    ensures { result ≡ some_alias (λ n. ResultAliases n (First node)) set.now }
{
    if set.is_empty() {
        None
    } else {
        Some(Broken::ResultAliases(Named::ByAlias(set[0]), Spot::First(node)))
    }
}

// The first rule that a function's body breaks.
#[tactic(auto, using(crate::proofs::ResultForms::body_forms))]
fn body_broken(
    bump: &Bump,
    here: &Here<'_>,
    stars: &StarTree<'_>,
    held: &Held<'_>,
) -> Result<Option<Broken>, NoMemory>
    ensures { IfOk result (λ broken. broken ≡ body_rules here.now.function_from here.now.fixed.now (stars_of stars.now) (held_of held.now)) }
{
    let hungry = too_hungry(bump, stars, held)?;
    let sides = value_sides(bump, held.node, stars, held.value)?;
    let set = shared_components(bump, here, sides)?;
    let less = too_shared(bump, stars, held)?;
    let shared = least_shared(held.node, set);
    let rest = first_of(shared, less);
    Ok(first_of(hungry, rest))
}

/// The end of a function's body, whose result has these stars: what is fresh may share with nothing from outside, with no
/// parameter without a star and with no other part of the result.
#[tactic(auto, using(crate::proofs::PartForms::memory))]
pub fn give_back(
    bump: &Bump,
    here: &Here<'_>,
    stars: &StarTree<'_>,
    held: &Held<'_>,
) -> Result<(), Stop>
    ensures { (naming : Naming) (N : Names) (K : Kinds) (types : Sub) (scope : Scope) (ls : HeldLosses) → Stepped (λ u. tt) (give_back naming N K types (here_of scope here.now) (stars_of stars.now) (held_of held.now)) ls ls result }
{
    if !here.asked {
        return Ok(());
    }
    let Ok(broken) = body_broken(bump, here, stars, held) else {
        return Err(Stop::Memory);
    };
    demanded(here, broken)
}

// A function may stand where these stars are wanted.
#[tactic(auto, using(crate::proofs::ResultForms::fit_forms))]
fn fits(bump: &Bump, here: &Here<'_>, stars: &StarTree<'_>, held: &Held<'_>) -> Result<(), Stop>
    ensures { (ls : HeldLosses) → Stepped (λ u. tt) (demand here.now.asked (or_else (too_hungry (stars_of stars.now) (held_of held.now)) (too_shared (stars_of stars.now) (held_of held.now)))) ls ls result }
{
    if !here.asked {
        return Ok(());
    }
    let Ok(hungry) = too_hungry(bump, stars, held) else {
        return Err(Stop::Memory);
    };
    let Ok(less) = too_shared(bump, stars, held) else {
        return Err(Stop::Memory);
    };
    demanded(here, first_of(hungry, less))
}

/// A value with the stars of a written type, of which its functions may consume no more and give no less.
#[tactic(auto, using(crate::proofs::PartForms::memory))]
pub fn ascribe<'a>(
    bump: &'a Bump,
    here: &Here<'_>,
    stars: &'a StarTree<'a>,
    held: &Held<'a>,
) -> Result<&'a ValueTree<'a>, Stop>
    ensures { (scope : Scope) (ls : HeldLosses) → Stepped shown_value (ascribe (here_of scope here.now) (stars_of stars.now) (held_of held.now)) ls ls result }
{
    let Ok(made) = ascribed(bump, stars, held.value) else {
        return Err(Stop::Memory);
    };
    fits(bump, here, stars, held)?;
    Ok(made)
}
