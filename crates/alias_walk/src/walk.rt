// The walk over a term, in the order of evaluation.
ghost use Rattle.std.specs.Prelude.{◌≡◌, ◌+◌, true, [], IfOk, OnOk, None, Option, drop, map};
ghost use Rattle.fut_aliases.specs.Aliases.{first_name_alone};
ghost use Rattle.fut_aliases.specs.Capturing.{some_name};
ghost use Rattle.fut_aliases.specs.Looking.{carried_by, condition_looked, looked_again, turn_here, turns_looked, wanted_part};
ghost use Rattle.fut_aliases.specs.Stars.{Stars};
ghost use Rattle.fut_aliases.specs.Steps.{Losses as HeldLosses};
ghost use Rattle.fut_flat.specs.Erased.{operation_of, pattern_of, patterns, term_of, terms, type_of};
ghost use Rattle.fut_flat.specs.Numbers.{turn_numbers};
ghost use Rattle.fut_flat.specs.Terms.{Counted, Declared, Lambda, Over, Project, Strict, While, no_term, term_and};
ghost use Rattle.fut_flat.proofs.ErasedForms.{loop_of, row_of, turns_of};
ghost use Rattle.fut_scalar.specs.declared.place.BindId.{BindId as DefinedBind};
ghost use Rattle.fut_scalar.specs.declared.place.Place.{Place as DefinedPlace};
ghost use Rattle.fut_types.specs.Shapes.{IsTable};
ghost use Rattle.fut_typing.specs.Names.{Names};
ghost use Rattle.alias_applications.specs.Shown.{part_with, shown_value, wanted_of};
ghost use Rattle.alias_joins.specs.SetRows.{sets_of};
ghost use Rattle.alias_loops.specs.Carried.{carrieds_of};
ghost use Rattle.alias_parts.specs.Known.{Knows};
ghost use Rattle.alias_scopes.specs.Scopes.{scope_of};
ghost use Rattle.uniqueness.specs.Answers.{Grows, Stepped};
ghost use Rattle.uniqueness.specs.Held.{here_of};
ghost use Rattle.alias_forms.specs.Loops.{GoingEnds, PassedEnds, TurnEnds, flow_shown, going_of, turn_shown};
ghost use Rattle.alias_forms.specs.Turns.{flow_looked, turn_again, turn_looked, turned_looked};
ghost use Rattle.alias_forms.specs.Plain.{is_plain};
ghost use Rattle.alias_forms.specs.Rows.{behind_row, behind_rows, let_looked, row_looked, row_name};
ghost use Rattle.alias_forms.specs.Seen.{AllEnd, FoundEnds, InsideEnds, SeenEnds, held_found, inside_of, part_seen, parts_found};
ghost use Rattle.alias_forms.specs.Walked.{here_at, kinds_at, look, look_all, look_alone, types_at};

use alias_applications::{
    Told, ascribe, by_itself, gathered, ready, wanted_parameter, whole, with_argument,
};
use alias_forms::{
    Found, FoundParts, GoneOver, Inside, LoopFlow, Passed, Seen, Site, Turn, bind_let,
    declared_or_wanted, end_flow, end_function, end_lets, enter_body, is_plain, join, name_looked,
    of_node, or_function, or_name, turn_scope, value_node, whole_seen,
};
use alias_loops::{enter, leave, loop_value, lose_flow, over_all_turns};
use alias_losses::Losses;
use alias_operations::{operate, projected, wanted_part};
use alias_program::{after, no_alias};
use alias_scopes::ScopeTree;
use alias_values::{StarTree, ValueTree};
use bumpalo::Bump;
use bumpalo::collections::into_bump_slice;
use flat_numbers::{after_pattern, own_numbers_of};
use fut_aliases::{Alias, Named};
use fut_flat::{Act, Exp, Form, Let, Loop, LoopForm, Pat, TypeExp};
use fut_scalar::Place;
use uniqueness::{Held, Here, Stop, aliases, end_branch};

/// What a term gives where it stands, and where it is a function, of which functions this is wanted.
#[cycle(look)]
#[tactic(auto, using(crate::proofs::Walking::nothing))]
pub fn looked<'a>(
    bump: &'a Bump,
    site: &Site<'a>,
    losses: &mut Losses,
    exp: &Exp<'_>,
    wanted: Option<&'a StarTree<'a>>,
    at: u32,
) -> Result<Seen<'a>, Stop>
    requires table { IsTable site.now.program.names.table.now }
    ensures step { (N : Names) → Knows site.now.program.names N → Stepped part_seen (look N site.now (term_of exp.now) at (wanted_of wanted.entry)) losses.old losses.new result }
    ensures ends { IfOk result (SeenEnds (term_of exp.now) at) }
{
    match exp.form {
        Form::Use(name, modules) => name_looked(bump, site, losses, name, modules, at),
        Form::Strict { act, mark, parts } => {
            strict_looked(bump, site, losses, parts, &act, mark, wanted, at)
        }
        Form::Apply(_, _) => call_looked(bump, site, losses, exp, at),
        Form::Lets(_, _) => lets_looked(bump, site, losses, exp, wanted, at),
        Form::If(_, _, _) => branches_looked(bump, site, losses, exp, at),
        Form::Lambda(parameters, body) => {
            lambda_looked(bump, site, losses, body, parameters, wanted, at)
        }
        Form::Loop(whole) => loop_looked(bump, site, losses, whole, at),
    }
}

/// The value of a term by itself.
#[cycle(look)]
#[tactic(auto, using(crate::proofs::Walking::nothing))]
pub fn value_looked<'a>(
    bump: &'a Bump,
    site: &Site<'a>,
    losses: &mut Losses,
    exp: &Exp<'_>,
    wanted: Option<&'a StarTree<'a>>,
    at: u32,
) -> Result<Found<'a>, Stop>
    requires table { IsTable site.now.program.names.table.now }
    ensures step { (N : Names) → Knows site.now.program.names N → Stepped held_found (look_alone N site.now (term_of exp.now) at (wanted_of wanted.entry)) losses.old losses.new result }
    ensures ends { IfOk result (FoundEnds (term_of exp.now) at) }
{
    let seen = looked(bump, site, losses, exp, wanted, at)?;
    let told = Told {
        node: at,
        called: seen.called,
        first_name: or_function(seen.first_name),
    };
    let held = by_itself(bump, &site.program, &site.here, losses, told, &seen.part)?;
    Ok(Found {
        held,
        called: seen.called,
        first_name: seen.first_name,
        after: seen.after,
    })
}

// An operation: fields and declared results are looked at otherwise than others.
#[cycle(look)]
#[tactic(auto, using(crate::proofs::Walking::nothing))]
fn strict_looked<'a>(
    bump: &'a Bump,
    site: &Site<'a>,
    losses: &mut Losses,
    exps: &[Exp<'_>],
    act: &Act<'_>,
    mark: Place,
    wanted: Option<&'a StarTree<'a>>,
    at: u32,
) -> Result<Seen<'a>, Stop>
    requires table { IsTable site.now.program.names.table.now }
    ensures step { (N : Names) → Knows site.now.program.names N → Stepped part_seen (look N site.now (Strict (operation_of act.now) mark (terms (map term_of exps.now))) at (wanted_of wanted.entry)) losses.old losses.new result }
    ensures ends { IfOk result (SeenEnds (Strict (operation_of act.now) mark (terms (map term_of exps.now))) at) }
{
    if is_plain(act) {
        return plain_looked(bump, site, losses, exps, act, mark, wanted, at);
    }
    if exps.len() != 1 {
        return Err(Stop::Memory);
    }
    match *act {
        Act::Project(field) => field_looked(bump, site, losses, &exps[0], field, at),
        Act::Declared(written) => {
            declared_looked(bump, site, losses, &exps[0], written, wanted, at)
        }
        _ => Err(Stop::Memory),
    }
}

// Parts, then the operation.
#[cycle(look)]
#[tactic(auto, using(crate::proofs::Walking::nothing))]
fn plain_looked<'a>(
    bump: &'a Bump,
    site: &Site<'a>,
    losses: &mut Losses,
    exps: &[Exp<'_>],
    act: &Act<'_>,
    mark: Place,
    wanted: Option<&'a StarTree<'a>>,
    at: u32,
) -> Result<Seen<'a>, Stop>
    requires table { IsTable site.now.program.names.table.now }
    requires plain { is_plain act.now ≡ true }
    ensures step { (N : Names) → Knows site.now.program.names N → Stepped part_seen (look N site.now (Strict (operation_of act.now) mark (terms (map term_of exps.now))) at (wanted_of wanted.entry)) losses.old losses.new result }
    ensures ends { IfOk result (SeenEnds (Strict (operation_of act.now) mark (terms (map term_of exps.now))) at) }
{
    let Ok(first) = after(at, own_numbers_of(act)) else {
        return Err(Stop::Memory);
    };
    let found = all_looked(bump, site, losses, exps, act, wanted, at, first)?;
    let value = operate(
        bump,
        &site.program,
        &site.here,
        losses,
        act,
        at,
        mark,
        found.parts,
    )?;
    whole_seen(
        bump,
        &site.program,
        losses,
        at,
        found.first_name,
        found.after,
        value,
    )
}

// The values of the parts of an operation at a node, one after another.
#[cycle(look)]
#[tactic(auto, using(crate::proofs::Walking::nothing))]
fn all_looked<'a>(
    bump: &'a Bump,
    site: &Site<'a>,
    losses: &mut Losses,
    exps: &[Exp<'_>],
    act: &Act<'_>,
    wanted: Option<&'a StarTree<'a>>,
    node: u32,
    at: u32,
) -> Result<FoundParts<'a>, Stop>
    requires table { IsTable site.now.program.names.table.now }
    ensures step { (N : Names) → Knows site.now.program.names N → Stepped parts_found (look_all N site.now (terms (map term_of exps.now)) at (wanted_part first_name_alone N (kinds_at site.now) (types_at site.now) (operation_of act.now) node (wanted_of wanted.entry))) losses.old losses.new result }
    ensures ends { IfOk result (AllEnd (terms (map term_of exps.now)) at) }
{
    let mut parts = Vec::new(bump);
    let mut next = at;
    let mut first_name = None;
    for exp in exps {
        let Ok(also) = wanted_part(bump, &site.program, act, node, wanted, parts.len()) else {
            return Err(Stop::Memory);
        };
        let found = value_looked(bump, site, losses, exp, also, next)?;
        let Ok(()) = parts.push(found.held) else {
            return Err(Stop::Memory);
        };
        first_name = or_name(first_name, found.first_name);
        next = found.after;
    }
    Ok(FoundParts {
        parts: into_bump_slice(parts),
        first_name,
        after: next,
    })
}

// The test, then both branches from what was consumed then.
#[cycle(look)]
#[tactic(auto, using(crate::proofs::Walking::nothing))]
fn branches_looked<'a>(
    bump: &'a Bump,
    site: &Site<'a>,
    losses: &mut Losses,
    exp: &Exp<'_>,
    at: u32,
) -> Result<Seen<'a>, Stop>
    requires table { IsTable site.now.program.names.table.now }
    ensures step { (N : Names) → Knows site.now.program.names N → (w : Option Stars) → Stepped part_seen (look N site.now (term_of exp.now) at w) losses.old losses.new result }
    ensures ends { IfOk result (SeenEnds (term_of exp.now) at) }
{
    let Form::If(test, yes, no) = exp.form else {
        return Err(Stop::Memory);
    };
    let Ok(first) = after(at, 1) else {
        return Err(Stop::Memory);
    };
    let tested = value_looked(bump, site, losses, test, None, first)?;
    let before = losses.len();
    let one = value_looked(bump, site, losses, yes, None, tested.after)?;
    let Ok(consumed) = end_branch(bump, losses, before) else {
        return Err(Stop::Memory);
    };
    let other = value_looked(bump, site, losses, no, None, one.after)?;
    let value = join(bump, losses, before, consumed, &one, &other)?;
    let later_name = or_name(one.first_name, other.first_name);
    let first_name = or_name(tested.first_name, later_name);
    whole_seen(
        bump,
        &site.program,
        losses,
        at,
        first_name,
        other.after,
        value,
    )
}

// A function with its arguments.
#[cycle(look)]
#[tactic(auto, using(crate::proofs::Walking::nothing))]
fn call_looked<'a>(
    bump: &'a Bump,
    site: &Site<'a>,
    losses: &mut Losses,
    exp: &Exp<'_>,
    at: u32,
) -> Result<Seen<'a>, Stop>
    requires table { IsTable site.now.program.names.table.now }
    ensures step { (N : Names) → Knows site.now.program.names N → (w : Option Stars) → Stepped part_seen (look N site.now (term_of exp.now) at w) losses.old losses.new result }
    ensures ends { IfOk result (SeenEnds (term_of exp.now) at) }
{
    let mut arguments = Vec::new(bump);
    let seen = apply_looked(bump, site, losses, exp, &mut arguments, at)?;
    Ok(Seen {
        part: gathered(&seen.part, arguments),
        called: seen.called,
        first_name: seen.first_name,
        after: seen.after,
    })
}

// A function with its arguments, which are gathered here.
#[cycle(look)]
#[tactic(auto, using(crate::proofs::Walking::nothing))]
fn apply_looked<'a>(
    bump: &'a Bump,
    site: &Site<'a>,
    losses: &mut Losses,
    exp: &Exp<'_>,
    arguments: &mut Vec<Held<'a>, &'a Bump>,
    at: u32,
) -> Result<Seen<'a>, Stop>
    requires table { IsTable site.now.program.names.table.now }
    requires none { arguments.old.items ≡ [] }
    ensures step { (N : Names) → Knows site.now.program.names N → (w : Option Stars) → Stepped (λ s. part_with s.part arguments.new.items) (look N site.now (term_of exp.now) at w) losses.old losses.new result }
    ensures ends { IfOk result (SeenEnds (term_of exp.now) at) }
{
    let Form::Apply(function, argument) = exp.form else {
        return Err(Stop::Memory);
    };
    let Ok(first) = after(at, 1) else {
        return Err(Stop::Memory);
    };
    let head = head_looked(bump, site, losses, function, arguments, first)?;
    let told = Told {
        node: first,
        called: head.called,
        first_name: or_function(head.first_name),
    };
    let part = ready(
        bump,
        &site.program,
        &site.here,
        losses,
        told,
        &head.part,
        arguments,
    )?;
    let wanted = wanted_parameter(&part, arguments);
    let found = value_looked(bump, site, losses, argument, wanted, head.after)?;
    let Ok(longer) = with_argument(&part, arguments, &found.held) else {
        return Err(Stop::Memory);
    };
    Ok(Seen {
        part: longer,
        called: Named::AFunction,
        first_name: or_name(head.first_name, found.first_name),
        after: found.after,
    })
}

// The function of an application with the arguments before the last.
#[cycle(look)]
#[tactic(auto, using(crate::proofs::Walking::nothing))]
fn head_looked<'a>(
    bump: &'a Bump,
    site: &Site<'a>,
    losses: &mut Losses,
    function: &Exp<'_>,
    arguments: &mut Vec<Held<'a>, &'a Bump>,
    at: u32,
) -> Result<Seen<'a>, Stop>
    requires table { IsTable site.now.program.names.table.now }
    requires none { arguments.old.items ≡ [] }
    ensures step { (N : Names) → Knows site.now.program.names N → Stepped (λ s. part_with s.part arguments.new.items) (look N site.now (term_of function.now) at None) losses.old losses.new result }
    ensures ends { IfOk result (SeenEnds (term_of function.now) at) }
{
    match function.form {
        Form::Apply(_, _) => apply_looked(bump, site, losses, function, arguments, at),
        _ => {
            let seen = looked(bump, site, losses, function, None, at)?;
            let Ok(()) = arguments.extend_from_slice(seen.part.arguments) else {
                return Err(Stop::Memory);
            };
            Ok(seen)
        }
    }
}

// A row of `let`s and the body behind it.
#[cycle(look)]
#[tactic(auto, using(crate::proofs::Walking::nothing))]
fn lets_looked<'a>(
    bump: &'a Bump,
    site: &Site<'a>,
    losses: &mut Losses,
    exp: &Exp<'_>,
    wanted: Option<&'a StarTree<'a>>,
    at: u32,
) -> Result<Seen<'a>, Stop>
    requires table { IsTable site.now.program.names.table.now }
    ensures step { (N : Names) → Knows site.now.program.names N → Stepped part_seen (look N site.now (term_of exp.now) at (wanted_of wanted.entry)) losses.old losses.new result }
    ensures ends { IfOk result (SeenEnds (term_of exp.now) at) }
{
    let Form::Lets(lets, body) = exp.form else {
        return Err(Stop::Memory);
    };
    if lets.len() == 0 {
        return looked(bump, site, losses, body, wanted, at);
    }
    let one = let_looked(bump, site, losses, &lets[0], site.scope, at)?;
    let row = row_looked(bump, site, losses, lets, one.scope, one.after)?;
    let inside = Site {
        program: site.program,
        here: site.here,
        scope: row.scope,
    };
    let found = value_looked(bump, &inside, losses, body, wanted, row.after)?;
    end_lets(
        bump,
        &site.program,
        losses,
        lets.len(),
        &one,
        &row,
        &found,
        at,
    )
}

// The `let`s of a row behind the first, one after another.
#[cycle(look)]
#[tactic(auto, using(crate::proofs::Walking::nothing))]
fn row_looked<'a>(
    bump: &'a Bump,
    site: &Site<'a>,
    losses: &mut Losses,
    lets: &[Let<'_>],
    scope: &'a ScopeTree<'a>,
    at: u32,
) -> Result<Inside<'a>, Stop>
    requires table { IsTable site.now.program.names.table.now }
    ensures step { (N : Names) → Knows site.now.program.names N → Stepped (inside_of site.now.here) (row_looked first_name_alone N (kinds_at site.now) (types_at site.now) (map row_of (drop 1 lets.now)) at (here_of (scope_of scope.now) site.now.here)) losses.old losses.new result }
    ensures ends { IfOk result (InsideEnds (row_name (map row_of (drop 1 lets.now))) (behind_rows (map row_of (drop 1 lets.now)) at)) }
{
    let mut inside = Inside {
        scope,
        first_name: None,
        after: at,
    };
    for i in 1..lets.len() {
        let behind = let_looked(bump, site, losses, &lets[i], inside.scope, inside.after)?;
        inside = Inside {
            scope: behind.scope,
            first_name: or_name(inside.first_name, behind.first_name),
            after: behind.after,
        };
    }
    Ok(inside)
}

// One `let`, where names stand for what they do in this scope.
#[cycle(look)]
#[tactic(auto, using(crate::proofs::Walking::nothing))]
fn let_looked<'a>(
    bump: &'a Bump,
    site: &Site<'a>,
    losses: &mut Losses,
    one: &Let<'_>,
    scope: &'a ScopeTree<'a>,
    at: u32,
) -> Result<Inside<'a>, Stop>
    requires table { IsTable site.now.program.names.table.now }
    ensures step { (N : Names) → Knows site.now.program.names N → Stepped (inside_of site.now.here) (let_looked first_name_alone N (kinds_at site.now) (types_at site.now) (row_of one.now) at (here_of (scope_of scope.now) site.now.here)) losses.old losses.new result }
    ensures ends { IfOk result (InsideEnds (some_name (row_of one.now).1) (behind_row (row_of one.now) at)) }
{
    let inside = Site {
        program: site.program,
        here: site.here,
        scope,
    };
    let Ok(node) = value_node(at, &one.pat) else {
        return Err(Stop::Memory);
    };
    let found = value_looked(bump, &inside, losses, &one.value, None, node)?;
    let scope = bind_let(bump, &inside, one, at, &found.held)?;
    Ok(Inside {
        scope,
        first_name: found.first_name,
        after: found.after,
    })
}

// The field of a part.
#[cycle(look)]
#[tactic(auto, using(crate::proofs::Walking::nothing))]
fn field_looked<'a>(
    bump: &'a Bump,
    site: &Site<'a>,
    losses: &mut Losses,
    exp: &Exp<'_>,
    field: &str,
    at: u32,
) -> Result<Seen<'a>, Stop>
    requires table { IsTable site.now.program.names.table.now }
    ensures step { (N : Names) → Knows site.now.program.names N → (mark : DefinedPlace) (w : Option Stars) → Stepped part_seen (look N site.now (Strict (Project field.now) mark (term_and (term_of exp.now) no_term)) at w) losses.old losses.new result }
    ensures ends { (mark : DefinedPlace) → IfOk result (SeenEnds (Strict (Project field.now) mark (term_and (term_of exp.now) no_term)) at) }
{
    let Ok(first) = after(at, 2) else {
        return Err(Stop::Memory);
    };
    let seen = looked(bump, site, losses, exp, None, first)?;
    let told = Told {
        node: at,
        called: Named::AFunction,
        first_name: or_function(seen.first_name),
    };
    let part = projected(
        bump,
        &site.program,
        &site.here,
        losses,
        field,
        told,
        &seen.part,
    )?;
    Ok(Seen {
        part,
        called: Named::AFunction,
        first_name: seen.first_name,
        after: seen.after,
    })
}

// A result of a declared type.
#[cycle(look)]
#[tactic(auto, using(crate::proofs::Walking::nothing))]
fn declared_looked<'a>(
    bump: &'a Bump,
    site: &Site<'a>,
    losses: &mut Losses,
    exp: &Exp<'_>,
    written: &TypeExp<'_>,
    wanted: Option<&'a StarTree<'a>>,
    at: u32,
) -> Result<Seen<'a>, Stop>
    requires table { IsTable site.now.program.names.table.now }
    ensures step { (N : Names) → Knows site.now.program.names N → (mark : DefinedPlace) → Stepped part_seen (look N site.now (Strict (Declared (type_of written.now)) mark (term_and (term_of exp.now) no_term)) at (wanted_of wanted.entry)) losses.old losses.new result }
    ensures ends { (mark : DefinedPlace) → IfOk result (SeenEnds (Strict (Declared (type_of written.now)) mark (term_and (term_of exp.now) no_term)) at) }
{
    let Ok(first) = after(at, 1) else {
        return Err(Stop::Memory);
    };
    let Ok(stars) = declared_or_wanted(bump, &site.program, written, wanted, at) else {
        return Err(Stop::Memory);
    };
    let found = value_looked(bump, site, losses, exp, Some(stars), first)?;
    let value = ascribe(bump, &site.here, stars, &found.held)?;
    let told = Told {
        node: at,
        called: found.called,
        first_name: or_function(found.first_name),
    };
    let part = whole(bump, &site.program, losses, told, value)?;
    Ok(Seen {
        part,
        called: Named::AFunction,
        first_name: found.first_name,
        after: found.after,
    })
}

// A function: its body is looked at where it stands, and what that consumes is put back.
#[cycle(look)]
#[tactic(auto, using(crate::proofs::Walking::nothing))]
fn lambda_looked<'a>(
    bump: &'a Bump,
    site: &Site<'a>,
    losses: &mut Losses,
    body: &Exp<'_>,
    parameters: &[Pat<'_>],
    wanted: Option<&'a StarTree<'a>>,
    at: u32,
) -> Result<Seen<'a>, Stop>
    requires table { IsTable site.now.program.names.table.now }
    ensures step { (N : Names) → Knows site.now.program.names N → Stepped part_seen (look N site.now (Lambda (patterns (map pattern_of parameters.now)) (term_of body.now)) at (wanted_of wanted.entry)) losses.old losses.new result }
    ensures ends { IfOk result (SeenEnds (Lambda (patterns (map pattern_of parameters.now)) (term_of body.now)) at) }
{
    let Ok(entered) = enter_body(bump, site, parameters, body, wanted, at) else {
        return Err(Stop::Memory);
    };
    let inside = Site {
        program: site.program,
        here: entered.here,
        scope: entered.scope,
    };
    let before = losses.len();
    let found = value_looked(bump, &inside, losses, body, entered.wanted, entered.node)?;
    end_function(
        bump, site, losses, before, parameters, body, &entered, &found, at,
    )
}

// A loop: its first values and what it goes over, a first look at what a turn consumes and gives, and what is asked then.
#[cycle(look)]
#[tactic(auto, using(crate::proofs::Walking::nothing))]
fn loop_looked<'a>(
    bump: &'a Bump,
    site: &Site<'a>,
    losses: &mut Losses,
    whole: &Loop<'_>,
    at: u32,
) -> Result<Seen<'a>, Stop>
    requires table { IsTable site.now.program.names.table.now }
    ensures step { (N : Names) → Knows site.now.program.names N → (w : Option Stars) → Stepped part_seen (look N site.now (loop_of whole.now) at w) losses.old losses.new result }
    ensures ends { IfOk result (SeenEnds (loop_of whole.now) at) }
{
    let Ok(node) = value_node(at, &whole.pat) else {
        return Err(Stop::Memory);
    };
    let first = value_looked(bump, site, losses, &whole.first, None, node)?;
    let going = turns_looked(bump, site, losses, &whole.form, first.after)?;
    let flow = flow_looked(bump, site, losses, whole, at, node, &first, &going)?;
    let value = turned_looked(bump, site, losses, whole, at, &first, &going, &flow)?;
    let first_name = or_name(first.first_name, flow.first_name);
    whole_seen(
        bump,
        &site.program,
        losses,
        at,
        first_name,
        flow.after,
        value,
    )
}

// What a loop counts or goes over is looked at once.
#[cycle(look)]
#[tactic(auto, using(crate::proofs::Walking::nothing))]
fn turns_looked<'a>(
    bump: &'a Bump,
    site: &Site<'a>,
    losses: &mut Losses,
    form: &LoopForm<'_>,
    at: u32,
) -> Result<GoneOver<'a>, Stop>
    requires table { IsTable site.now.program.names.table.now }
    ensures step { (N : Names) → Knows site.now.program.names N → Stepped (going_of N (kinds_at site.now) (types_at site.now) (turns_of form.now) at) (turns_looked first_name_alone N (kinds_at site.now) (types_at site.now) (turns_of form.now) at (here_at site.now)) losses.old losses.new result }
    ensures ends { IfOk result (GoingEnds (turns_of form.now) at) }
{
    match form {
        LoopForm::For(_, count) => count_looked(bump, site, losses, count, at),
        LoopForm::ForIn(pattern, array) => { array_looked(bump, site, losses, array, pattern, at) }
        LoopForm::While(_) => Ok(GoneOver {
            over: no_alias(bump),
            element: None,
            first_name: None,
            after: at,
        }),
    }
}

#[cycle(look)]
#[tactic(auto, using(crate::proofs::Walking::nothing))]
fn count_looked<'a>(
    bump: &'a Bump,
    site: &Site<'a>,
    losses: &mut Losses,
    count: &Exp<'_>,
    at: u32,
) -> Result<GoneOver<'a>, Stop>
    requires table { IsTable site.now.program.names.table.now }
    ensures step { (N : Names) → Knows site.now.program.names N → (i : DefinedBind) → Stepped (going_of N (kinds_at site.now) (types_at site.now) (Counted i (term_of count.now)) at) (turns_looked first_name_alone N (kinds_at site.now) (types_at site.now) (Counted i (term_of count.now)) at (here_at site.now)) losses.old losses.new result }
    ensures ends { (i : DefinedBind) → IfOk result (GoingEnds (Counted i (term_of count.now)) at) }
{
    let Ok(first) = after(at, 1) else {
        return Err(Stop::Memory);
    };
    let found = value_looked(bump, site, losses, count, None, first)?;
    let Ok(element) = of_node(bump, &site.program, at, no_alias(bump)) else {
        return Err(Stop::Memory);
    };
    Ok(GoneOver {
        over: no_alias(bump),
        element: Some(element),
        first_name: found.first_name,
        after: found.after,
    })
}

// An element shares with the array.
#[cycle(look)]
#[tactic(auto, using(crate::proofs::Walking::nothing))]
fn array_looked<'a>(
    bump: &'a Bump,
    site: &Site<'a>,
    losses: &mut Losses,
    array: &Exp<'_>,
    pattern: &Pat<'_>,
    at: u32,
) -> Result<GoneOver<'a>, Stop>
    requires table { IsTable site.now.program.names.table.now }
    ensures step { (N : Names) → Knows site.now.program.names N → Stepped (going_of N (kinds_at site.now) (types_at site.now) (Over (pattern_of pattern.now) (term_of array.now)) at) (turns_looked first_name_alone N (kinds_at site.now) (types_at site.now) (Over (pattern_of pattern.now) (term_of array.now)) at (here_at site.now)) losses.old losses.new result }
    ensures ends { IfOk result (GoingEnds (Over (pattern_of pattern.now) (term_of array.now)) at) }
{
    let Ok(node) = after_pattern(at, pattern) else {
        return Err(Stop::Memory);
    };
    let found = value_looked(bump, site, losses, array, None, node)?;
    let Ok(over) = aliases(bump, found.held.value) else {
        return Err(Stop::Memory);
    };
    let Ok(element) = of_node(bump, &site.program, at, over) else {
        return Err(Stop::Memory);
    };
    Ok(GoneOver {
        over,
        element: Some(element),
        first_name: found.first_name,
        after: found.after,
    })
}

// The first look, for which each parameter stands for itself and only values flow. What it consumes is put back.
#[cycle(look)]
#[tactic(auto, using(crate::proofs::Walking::nothing))]
fn flow_looked<'a>(
    bump: &'a Bump,
    site: &Site<'a>,
    losses: &mut Losses,
    whole: &Loop<'_>,
    at: u32,
    node: u32,
    first: &Found<'a>,
    going: &GoneOver<'a>,
) -> Result<LoopFlow<'a>, Stop>
    requires table { IsTable site.now.program.names.table.now }
    requires ends { GoingEnds (turns_of whole.now.form) first.now.after going.now }
    ensures step { (N : Names) → Knows site.now.program.names N → Stepped (flow_shown N (kinds_at site.now) (types_at site.now) losses.old) (flow_looked first_name_alone N (kinds_at site.now) (types_at site.now) (here_at site.now) (pattern_of whole.now.pat) (turns_of whole.now.form) (term_of whole.now.body) first.now.after at (going_of N (kinds_at site.now) (types_at site.now) (turns_of whole.now.form) first.now.after going.now)) losses.old losses.new result }
    ensures carried { (N : Names) → Knows site.now.program.names N → IfOk result (λ f. carrieds_of f.carried.now ≡ carried_by first_name_alone N (kinds_at site.now) (types_at site.now) (pattern_of whole.now.pat) (1 + at) (term_of whole.now.first) node (held_found first.now) (flow_shown N (kinds_at site.now) (types_at site.now) losses.old f)) }
    ensures back { (N : Names) → Knows site.now.program.names N → OnOk result (losses.new ≡ losses.old) }
    ensures ends { IfOk result (λ f. TurnEnds (turns_of whole.now.form) (term_of whole.now.body) first.now.after f.first_name f.body f.after) }
{
    let Ok(scope) = turn_scope(bump, site, whole, at, first.after, going.element, &[]) else {
        return Err(Stop::Memory);
    };
    let inside = Site {
        program: site.program,
        here: Here {
            fixed: site.here.fixed,
            loop_from: at,
            function_from: site.here.function_from,
            asked: false,
        },
        scope,
    };
    let before = losses.len();
    let turn = turn_looked(bump, &inside, losses, whole, first.after, going)?;
    let Ok(flow) = end_flow(bump, site, losses, before, whole, at, node, first, &turn) else {
        return Err(Stop::Memory);
    };
    Ok(flow)
}

// The turns of a loop, of which this flows.
#[cycle(look)]
#[tactic(auto, using(crate::proofs::Walking::nothing))]
fn turned_looked<'a>(
    bump: &'a Bump,
    site: &Site<'a>,
    losses: &mut Losses,
    whole: &Loop<'_>,
    at: u32,
    first: &Found<'a>,
    going: &GoneOver<'a>,
    flow: &LoopFlow<'a>,
) -> Result<&'a ValueTree<'a>, Stop>
    requires table { IsTable site.now.program.names.table.now }
    requires ends { GoingEnds (turns_of whole.now.form) first.now.after going.now }
    requires begins { flow.now.body ≡ first.now.after + turn_numbers (turns_of whole.now.form) }
    ensures { (N : Names) → Knows site.now.program.names N → Stepped shown_value (turned_looked first_name_alone N (kinds_at site.now) (types_at site.now) (here_at site.now) (pattern_of whole.now.pat) (turns_of whole.now.form) (term_of whole.now.body) first.now.after at (held_found first.now) (going_of N (kinds_at site.now) (types_at site.now) (turns_of whole.now.form) first.now.after going.now) (flow_shown N (kinds_at site.now) (types_at site.now) losses.old flow.now) (carrieds_of flow.now.carried.now)) losses.old losses.new result }
{
    enter(
        bump,
        &site.here,
        losses,
        &first.held,
        going.over,
        flow.body,
        flow.carried,
    )?;
    let Ok(sets) = over_all_turns(bump, at, flow.carried) else {
        return Err(Stop::Memory);
    };
    let given = again_looked(
        bump,
        site,
        losses,
        whole,
        at,
        first.after,
        going,
        flow,
        sets,
    )?;
    let Ok(value) = loop_value(bump, flow.carried, sets, given) else {
        return Err(Stop::Memory);
    };
    Ok(value)
}

// Where rules are asked for, a turn is looked at with what the parameters share with.
#[cycle(look)]
#[tactic(auto, using(crate::proofs::Walking::nothing))]
fn again_looked<'a>(
    bump: &'a Bump,
    site: &Site<'a>,
    losses: &mut Losses,
    whole: &Loop<'_>,
    at: u32,
    turns: u32,
    going: &GoneOver<'a>,
    flow: &LoopFlow<'a>,
    sets: &[&'a [Alias]],
) -> Result<&'a ValueTree<'a>, Stop>
    requires table { IsTable site.now.program.names.table.now }
    requires ends { GoingEnds (turns_of whole.now.form) turns going.now }
    requires begins { flow.now.body ≡ turns + turn_numbers (turns_of whole.now.form) }
    ensures { (N : Names) → Knows site.now.program.names N → (before : HeldLosses) → Grows before losses.old → Stepped shown_value (looked_again first_name_alone N (kinds_at site.now) (types_at site.now) site.now.here.asked (flow_shown N (kinds_at site.now) (types_at site.now) before flow.now) (turn_again first_name_alone N (kinds_at site.now) (types_at site.now) (here_at site.now) (turns_of whole.now.form) (term_of whole.now.body) turns at (carrieds_of flow.now.carried.now) (turn_here first_name_alone N (kinds_at site.now) (types_at site.now) (here_at site.now) (pattern_of whole.now.pat) at (going_of N (kinds_at site.now) (types_at site.now) (turns_of whole.now.form) turns going.now) (sets_of sets.now)))) losses.old losses.new result }
{
    if site.here.asked {
        return asked_looked(bump, site, losses, whole, at, turns, going, flow, sets);
    }
    let Ok(()) = lose_flow(losses, flow.later) else {
        return Err(Stop::Memory);
    };
    Ok(flow.value)
}

// The last look at a turn.
#[cycle(look)]
#[tactic(auto, using(crate::proofs::Walking::nothing))]
fn asked_looked<'a>(
    bump: &'a Bump,
    site: &Site<'a>,
    losses: &mut Losses,
    whole: &Loop<'_>,
    at: u32,
    turns: u32,
    going: &GoneOver<'a>,
    flow: &LoopFlow<'a>,
    sets: &[&'a [Alias]],
) -> Result<&'a ValueTree<'a>, Stop>
    requires table { IsTable site.now.program.names.table.now }
    requires ends { GoingEnds (turns_of whole.now.form) turns going.now }
    requires begins { flow.now.body ≡ turns + turn_numbers (turns_of whole.now.form) }
    ensures { (N : Names) → Knows site.now.program.names N → Stepped shown_value (turn_again first_name_alone N (kinds_at site.now) (types_at site.now) (here_at site.now) (turns_of whole.now.form) (term_of whole.now.body) turns at (carrieds_of flow.now.carried.now) (turn_here first_name_alone N (kinds_at site.now) (types_at site.now) (here_at site.now) (pattern_of whole.now.pat) at (going_of N (kinds_at site.now) (types_at site.now) (turns_of whole.now.form) turns going.now) (sets_of sets.now))) losses.old losses.new result }
{
    let Ok(scope) = turn_scope(bump, site, whole, at, turns, going.element, sets) else {
        return Err(Stop::Memory);
    };
    let inside = Site {
        program: site.program,
        here: Here {
            fixed: site.here.fixed,
            loop_from: at,
            function_from: site.here.function_from,
            asked: site.here.asked,
        },
        scope,
    };
    let turn = turn_looked(bump, &inside, losses, whole, turns, going)?;
    leave(
        bump,
        &site.here,
        losses,
        at,
        flow.body,
        flow.carried,
        turn.held.value,
    )?;
    Ok(turn.held.value)
}

// A turn: the condition of a `while`, and then the body.
#[cycle(look)]
#[tactic(auto, using(crate::proofs::Walking::nothing))]
fn turn_looked<'a>(
    bump: &'a Bump,
    site: &Site<'a>,
    losses: &mut Losses,
    whole: &Loop<'_>,
    at: u32,
    going: &GoneOver<'a>,
) -> Result<Turn<'a>, Stop>
    requires table { IsTable site.now.program.names.table.now }
    requires ends { GoingEnds (turns_of whole.now.form) at going.now }
    ensures step { (N : Names) → Knows site.now.program.names N → Stepped turn_shown (turn_looked first_name_alone N (kinds_at site.now) (types_at site.now) (turns_of whole.now.form) (term_of whole.now.body) at (here_at site.now)) losses.old losses.new result }
    ensures ends { IfOk result (λ t. TurnEnds (turns_of whole.now.form) (term_of whole.now.body) at t.first_name t.body t.after) }
{
    let passed = condition_looked(bump, site, losses, &whole.form, at, going)?;
    let found = value_looked(bump, site, losses, &whole.body, None, passed.after)?;
    Ok(Turn {
        held: found.held,
        first_name: or_name(passed.first_name, found.first_name),
        body: passed.after,
        after: found.after,
    })
}

// A condition sees what the loop carries.
#[cycle(look)]
#[tactic(auto, using(crate::proofs::Walking::nothing))]
fn condition_looked<'a>(
    bump: &'a Bump,
    site: &Site<'a>,
    losses: &mut Losses,
    form: &LoopForm<'_>,
    at: u32,
    going: &GoneOver<'a>,
) -> Result<Passed, Stop>
    requires table { IsTable site.now.program.names.table.now }
    requires ends { GoingEnds (turns_of form.now) at going.now }
    ensures step { (N : Names) → Knows site.now.program.names N → Stepped (λ p. tt) (condition_looked first_name_alone N (kinds_at site.now) (types_at site.now) (turns_of form.now) at (here_at site.now)) losses.old losses.new result }
    ensures ends { IfOk result (PassedEnds (turns_of form.now) at) }
{
    match form {
        LoopForm::While(test) => test_looked(bump, site, losses, test, at),
        LoopForm::For(_, _) => Ok(Passed {
            first_name: going.first_name,
            after: going.after,
        }),
        LoopForm::ForIn(_, _) => Ok(Passed {
            first_name: going.first_name,
            after: going.after,
        }),
    }
}

#[cycle(look)]
#[tactic(auto, using(crate::proofs::Walking::nothing))]
fn test_looked<'a>(
    bump: &'a Bump,
    site: &Site<'a>,
    losses: &mut Losses,
    test: &Exp<'_>,
    at: u32,
) -> Result<Passed, Stop>
    requires table { IsTable site.now.program.names.table.now }
    ensures step { (N : Names) → Knows site.now.program.names N → Stepped (λ p. tt) (condition_looked first_name_alone N (kinds_at site.now) (types_at site.now) (While (term_of test.now)) at (here_at site.now)) losses.old losses.new result }
    ensures ends { IfOk result (PassedEnds (While (term_of test.now)) at) }
{
    let found = value_looked(bump, site, losses, test, None, at)?;
    Ok(Passed {
        first_name: found.first_name,
        after: found.after,
    })
}
