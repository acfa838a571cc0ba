// A function with all its arguments is called, one with fewer keeps them.
ghost use Rattle.std.specs.Prelude.{◌≡◌, IfOk};
ghost use Rattle.fut_aliases.specs.Aliases.{union};
ghost use Rattle.fut_aliases.specs.Calls.{apply_as, call, call_value, consume_given, finished, given, given_to, left_by, partial, stars_behind, stars_of as function_stars};
ghost use Rattle.fut_aliases.specs.Patterns.{Scope};
ghost use Rattle.fut_aliases.specs.Values.{Function, aliases};
ghost use Rattle.fut_types.specs.Types.{Kinds};
ghost use Rattle.alias_program.specs.Parts.{part_of};
ghost use Rattle.alias_types.specs.Kinds.{kinds_of};
ghost use Rattle.alias_values.specs.Trees.{stars_of, type_of, value_of};
ghost use Rattle.uniqueness.specs.Answers.{Stepped};
ghost use Rattle.uniqueness.specs.Held.{held_of, helds_of, here_of};
ghost use Rattle.alias_applications.specs.Givens.{givens_of, is_arrow};
ghost use Rattle.alias_applications.specs.Rules.{allowed, before_call, before_partial, behind_call, behind_partial};
ghost use Rattle.alias_applications.specs.Shown.{part_with, shown_value};

use crate::given::{
    Given, all_given, function_stars, given_to, left_by, stars_behind, type_behind,
};
use crate::rules::{before_call, before_partial, behind_call, demanded, first_shared};
use alias_calls::call_value;
use alias_losses::Losses;
use alias_program::{Part, Program};
use alias_types::taken;
use alias_values::{StarTree, TypeTree, ValueTree, function, union};
use bumpalo::Bump;
use fut_aliases::{Broken, Spot};
use fut_scalar::NoMemory;
use std::slice;
use uniqueness::{Held, Here, Stop, aliases, settle, use_name};

// Rules, then that the function and its arguments share with nothing that a later part consumed, then rules again.
fn allowed(
    bump: &Bump,
    here: &Here<'_>,
    losses: &Losses,
    before: Option<Broken>,
    head: &Held<'_>,
    arguments: &[Held<'_>],
    behind: Option<Broken>,
) -> Result<(), Stop>
    ensures { Stepped (λ u. tt) (allowed here.now.asked before (held_of head.now) (helds_of arguments.now) behind) losses.now losses.now result }
{
    demanded(here, before)?;
    settle(bump, here, losses, slice::from_ref(head))?;
    settle(bump, here, losses, arguments)?;
    demanded(here, behind)
}

// What a call asks, where rules are asked for.
#[tactic(auto, using(crate::proofs::CallForms::not_asked))]
fn call_allowed(
    bump: &Bump,
    here: &Here<'_>,
    losses: &Losses,
    head: &Held<'_>,
    arguments: &[Held<'_>],
    all: &[Given<'_>],
) -> Result<(), Stop>
    ensures { Stepped (λ u. tt) (allowed here.now.asked (before_call here.now.fixed.now here.now.loop_from here.now.function_from (givens_of all.now)) (held_of head.now) (helds_of arguments.now) (behind_call (held_of head.now) (givens_of all.now))) losses.now losses.now result }
{
    if !here.asked {
        return Ok(());
    }
    let Ok(before) = before_call(bump, here, all) else {
        return Err(Stop::Memory);
    };
    let Ok(behind) = behind_call(bump, head, all) else {
        return Err(Stop::Memory);
    };
    allowed(bump, here, losses, before, head, arguments, behind)
}

// What is asked of arguments that are kept, where rules are asked for.
#[tactic(auto, using(crate::proofs::CallForms::not_asked))]
fn partial_allowed(
    bump: &Bump,
    here: &Here<'_>,
    losses: &Losses,
    head: &Held<'_>,
    arguments: &[Held<'_>],
    all: &[Given<'_>],
) -> Result<(), Stop>
    ensures { Stepped (λ u. tt) (allowed here.now.asked (before_partial (held_of head.now) (givens_of all.now)) (held_of head.now) (helds_of arguments.now) (behind_partial (givens_of all.now))) losses.now losses.now result }
{
    if !here.asked {
        return Ok(());
    }
    let Ok(before) = before_partial(bump, head, all) else {
        return Err(Stop::Memory);
    };
    let Ok(behind) = first_shared(bump, all) else {
        return Err(Stop::Memory);
    };
    allowed(bump, here, losses, before, head, arguments, behind)
}

// Consumes the arguments of parameters with a star.
#[tactic(auto, using(crate::proofs::CallForms::consume_forms))]
fn consume_given(bump: &Bump, losses: &mut Losses, all: &[Given<'_>]) -> Result<(), Stop>
    ensures { Stepped (λ u. tt) (consume_given (givens_of all.now)) losses.old losses.new result }
{
    for i in 0..all.len() {
        let one = all[i];
        let Ok(set) = taken(bump, one.stars, one.argument.value) else {
            return Err(Stop::Memory);
        };
        let Ok(()) = losses.consume(Spot::First(one.argument.node), set) else {
            return Err(Stop::Memory);
        };
    }
    Ok(())
}

// What a call gives.
fn called_value<'a>(
    bump: &'a Bump,
    program: &Program<'a>,
    node: u32,
    head: &Held<'_>,
    all: &[Given<'_>],
    rest: &'a StarTree<'a>,
    ty: &TypeTree<'_>,
) -> Result<&'a ValueTree<'a>, NoMemory>
    ensures { IfOk result (λ made. value_of made.now ≡ call_value (kinds_of program.now.kinds.now) node (union (aliases (value_of head.now.value.now)) (left_by (givens_of all.now))) (stars_of rest.now) (type_of ty.now)) }
{
    let mine = aliases(bump, head.value)?;
    let others = left_by(bump, all)?;
    let set = union(bump, mine, others)?;
    let made = call_value(bump, program.kinds, node, set, rest, ty)?;
    Ok(made)
}

// What a function gives that keeps its arguments.
fn partial_value<'a>(
    bump: &'a Bump,
    head: &Held<'_>,
    arguments: &[Held<'_>],
    rest: &'a StarTree<'a>,
) -> Result<&'a ValueTree<'a>, NoMemory>
    ensures { IfOk result (λ made. value_of made.now ≡ Function (union (aliases (value_of head.now.value.now)) (given_to (helds_of arguments.now))) (stars_of rest.now)) }
{
    let mine = aliases(bump, head.value)?;
    let others = given_to(bump, arguments)?;
    let set = union(bump, mine, others)?;
    let made = function(bump, set, rest)?;
    Ok(made)
}

// A call at a node: behind the arguments are these stars and this type.
#[tactic(auto, using(crate::proofs::PartForms::memory))]
fn call<'a>(
    bump: &'a Bump,
    program: &Program<'a>,
    here: &Here<'_>,
    losses: &mut Losses,
    node: u32,
    head: &Held<'a>,
    arguments: &[Held<'a>],
    stars: &'a StarTree<'a>,
    rest: &'a StarTree<'a>,
    ty: &TypeTree<'_>,
) -> Result<&'a ValueTree<'a>, Stop>
    ensures { (scope : Scope) → Stepped shown_value (call (kinds_of program.now.kinds.now) (here_of scope here.now) node (held_of head.now) (given (helds_of arguments.now) (stars_of stars.now)) (stars_of rest.now) (type_of ty.now)) losses.old losses.new result }
{
    let Ok(all) = all_given(bump, arguments, stars) else {
        return Err(Stop::Memory);
    };
    let Ok(value) = called_value(bump, program, node, head, all, rest, ty) else {
        return Err(Stop::Memory);
    };
    call_allowed(bump, here, losses, head, arguments, all)?;
    consume_given(bump, losses, all)?;
    Ok(value)
}

// A function with fewer arguments than parameters.
#[tactic(auto, using(crate::proofs::PartForms::memory))]
fn partial<'a>(
    bump: &'a Bump,
    here: &Here<'_>,
    losses: &Losses,
    head: &Held<'a>,
    arguments: &[Held<'a>],
    stars: &'a StarTree<'a>,
    rest: &'a StarTree<'a>,
) -> Result<&'a ValueTree<'a>, Stop>
    requires rest { stars_of rest.now ≡ stars_behind (helds_of arguments.now) (stars_of stars.now) }
    requires stars { stars_of stars.now ≡ function_stars (value_of head.now.value.now) }
    ensures { (K : Kinds) (scope : Scope) → Stepped shown_value (partial K (here_of scope here.now) (held_of head.now) (helds_of arguments.now)) losses.now losses.now result }
{
    let Ok(all) = all_given(bump, arguments, stars) else {
        return Err(Stop::Memory);
    };
    let Ok(value) = partial_value(bump, head, arguments, rest) else {
        return Err(Stop::Memory);
    };
    partial_allowed(bump, here, losses, head, arguments, all)?;
    Ok(value)
}

// Whether a parameter is left.
#[tactic(auto, using(crate::proofs::GivenForms::arrow_forms))]
fn is_arrow(stars: &StarTree<'_>) -> bool
    ensures { result ≡ is_arrow (stars_of stars.now) }
{
    match stars {
        StarTree::Arrow(_, _, _) => true,
        StarTree::Leaf(_) | StarTree::Row(_) => false,
    }
}

// A function with some arguments.
#[tactic(auto, using(crate::proofs::PartForms::memory))]
fn applied<'a>(
    bump: &'a Bump,
    program: &Program<'a>,
    here: &Here<'_>,
    losses: &mut Losses,
    node: u32,
    part: &Part<'a>,
    arguments: &[Held<'a>],
) -> Result<&'a ValueTree<'a>, Stop>
    ensures { (scope : Scope) → Stepped shown_value (apply_as (kinds_of program.now.kinds.now) (here_of scope here.now) node (part_with part.now arguments.now) (stars_behind (helds_of arguments.now) (function_stars (value_of part.now.head.value.now)))) losses.old losses.new result }
{
    let head = &part.head;
    let Ok(stars) = function_stars(bump, head.value) else {
        return Err(Stop::Memory);
    };
    let rest = stars_behind(arguments, stars);
    if is_arrow(rest) {
        partial(bump, here, losses, head, arguments, stars, rest)
    } else {
        let ty = type_behind(arguments, part.ty);
        call(
            bump, program, here, losses, node, head, arguments, stars, rest, ty,
        )
    }
}

/// The value of a term by itself which begins at a node, with these arguments in place of its own.
pub fn finished_with<'a>(
    bump: &'a Bump,
    program: &Program<'a>,
    here: &Here<'_>,
    losses: &mut Losses,
    node: u32,
    part: &Part<'a>,
    arguments: &[Held<'a>],
) -> Result<&'a ValueTree<'a>, Stop>
    ensures { (scope : Scope) → Stepped shown_value (finished (kinds_of program.now.kinds.now) (here_of scope here.now) node (part_with part.now arguments.now)) losses.old losses.new result }
{
    if !arguments.is_empty() {
        return applied(bump, program, here, losses, node, part, arguments);
    }
    use_name(bump, here, losses, part.name, &part.head)?;
    Ok(part.head.value)
}

/// The value of a term by itself, which begins at a node: a name is used, a function with arguments is called or keeps them.
pub fn finished<'a>(
    bump: &'a Bump,
    program: &Program<'a>,
    here: &Here<'_>,
    losses: &mut Losses,
    node: u32,
    part: &Part<'a>,
) -> Result<&'a ValueTree<'a>, Stop>
    ensures { (scope : Scope) → Stepped shown_value (finished (kinds_of program.now.kinds.now) (here_of scope here.now) node (part_of part.now)) losses.old losses.new result }
{
    finished_with(bump, program, here, losses, node, part, part.arguments)
}
