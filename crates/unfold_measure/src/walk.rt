// The walk of visits.
ghost use Rattle.std.specs.Prelude.{true, ◌≡◌, ◌≤◌, ◌<◌, ◌+◌, IfOk, length, map};
ghost use Rattle.fut_flat.specs.Terms.{Apply, Strict};
ghost use Rattle.fut_flat.specs.Erased.{operation_of, pattern_of, patterns, term_of, terms};
ghost use Rattle.fut_flat.proofs.ErasedForms.{loop_of};
ghost use Rattle.fut_meaning.specs.Knowns.{Known_function, Known_primitive};
ghost use Rattle.unfold_measure.specs.Held.{known_of, knowns, scope_of};
ghost use Rattle.unfold_measure.specs.Answers.{Data_to, Function_to, Given_to, Parts_to, Ran_to, Walked_to};
ghost use Rattle.unfold_measure.specs.Rows.{Guards, behind};
ghost use Rattle.unfold_measure.specs.Steps.{Stepped_to};
ghost use Rattle.fut_meaning.specs.Walk.{is_let, is_visit};
ghost use Rattle.unfold_measure.specs.Plain.{Plain};

use crate::known::{Closure, Known, KnownForm, Scope, held, is_data, known_data};
use crate::lets::{Left, behind_first, condition_of, left_of_row};
use crate::lists::with_last;
use crate::operations::result_of;
use crate::patterns::{bind, bind_data};
use crate::peel::peeled;
use crate::primitives::parameters_of;
use crate::scope::captured;
use crate::steps::{test_of, turn_of};
use crate::stop::Stop;
use crate::tops::{Tops, known_use};
use crate::walked::{Count, MOST_DEPTH, MOST_NESTED, MOST_NODES, Parts, Row, Used, Walked};
use bumpalo::collections::into_bump_slice;
use fut_flat::{Act, Exp, Form, Let, Loop, Pat, Primitive};
use fut_scalar::Place;

/// What is known of the value of an expression, and the visits that it takes.
#[cycle(walk)]
#[tactic(auto, using(crate::proofs::Forms::limits))]
pub fn walk<'a>(
    tops: &Tops<'a>,
    used: Used,
    scope: &'a Scope<'a>,
    exp: &'a Exp<'a>,
) -> Result<Walked<'a>, Stop>
    ensures walk { Walked_to (scope_of tops.now.known.now) (scope_of scope.now) used.level used.spent (term_of exp.now) result }
    ensures few { IfOk result (λ r. used.spent + r.nodes ≤ 1048576) }
    ensures flat { IfOk result (λ r. used.level + r.depth ≤ 1000) }
{
    if used.level >= MOST_DEPTH {
        return Err(Stop::Depth);
    }
    if used.spent >= MOST_NODES {
        return Err(Stop::Nodes);
    }
    walk_form(tops, used, scope, peeled(exp))
}

// A visit within the limits.
#[cycle(walk)]
#[tactic(auto, using(crate::proofs::Forms::forms))]
fn walk_form<'a>(
    tops: &Tops<'a>,
    used: Used,
    scope: &'a Scope<'a>,
    exp: &'a Exp<'a>,
) -> Result<Walked<'a>, Stop>
    requires plain { Plain exp.now }
    requires level { used.level < 1000 }
    requires spent { used.spent < 1048576 }
    ensures walk { Walked_to (scope_of tops.now.known.now) (scope_of scope.now) used.level used.spent (term_of exp.now) result }
    ensures few { IfOk result (λ r. used.spent + r.nodes ≤ 1048576) }
    ensures flat { IfOk result (λ r. used.level + r.depth ≤ 1000) }
{
    match exp.form {
        Form::Use(reference, _) => match known_use(tops, scope, reference) {
            Ok(known) => Ok(Walked {
                known,
                nodes: 1,
                depth: 1,
            }),
            Err(stop) => Err(stop),
        },
        Form::Strict { act, mark, parts } => { walk_strict(tops, used, scope, &act, mark, parts) }
        Form::Lambda(params, body) => match captured(tops.bump, params, body, scope) {
            Ok(known) => Ok(Walked {
                known,
                nodes: 1,
                depth: 1,
            }),
            Err(stop) => Err(stop),
        },
        Form::Apply(function, argument) => { walk_apply(tops, used, scope, function, argument) }
        Form::Lets(lets, body) => walk_lets(tops, used, scope, lets, body),
        Form::If(test, yes, no) => { walk_steps(tops, used, scope, test, scope, yes, scope, no) }
        Form::Loop(whole) => walk_loop(tops, used, scope, whole),
    }
}

// Parts from left to right, then the operation.
#[cycle(walk)]
#[tactic(auto, using(crate::proofs::Walks::operations))]
fn walk_strict<'a>(
    tops: &Tops<'a>,
    used: Used,
    scope: &'a Scope<'a>,
    act: &Act<'a>,
    mark: Place,
    parts: &'a [Exp<'a>],
) -> Result<Walked<'a>, Stop>
    requires level { used.level < 1000 }
    requires spent { used.spent < 1048576 }
    requires visit { is_visit (operation_of act.now) (terms (map term_of parts.now)) ≡ true }
    ensures walk { Walked_to (scope_of tops.now.known.now) (scope_of scope.now) used.level used.spent (Strict (operation_of act.now) mark (terms (map term_of parts.now))) result }
    ensures few { IfOk result (λ r. used.spent + r.nodes ≤ 1048576) }
    ensures flat { IfOk result (λ r. used.level + r.depth ≤ 1000) }
{
    let inside = Used {
        nested: used.nested,
        level: used.level + 1,
        spent: used.spent + 1,
    };
    let made = match walk_parts(tops, inside, scope, parts) {
        Ok(made) => made,
        Err(stop) => return Err(stop),
    };
    let known = match result_of(tops.bump, act, made.knowns) {
        Ok(known) => known,
        Err(stop) => return Err(stop),
    };
    Ok(Walked {
        known,
        nodes: 1 + made.nodes,
        depth: 1 + made.depth,
    })
}

#[cycle(walk)]
#[tactic(auto, using(crate::proofs::Walks::applications))]
fn walk_apply<'a>(
    tops: &Tops<'a>,
    used: Used,
    scope: &'a Scope<'a>,
    function: &'a Exp<'a>,
    argument: &'a Exp<'a>,
) -> Result<Walked<'a>, Stop>
    requires level { used.level < 1000 }
    requires spent { used.spent < 1048576 }
    ensures walk { Walked_to (scope_of tops.now.known.now) (scope_of scope.now) used.level used.spent (Apply (term_of function.now) (term_of argument.now)) result }
    ensures few { IfOk result (λ r. used.spent + r.nodes ≤ 1048576) }
    ensures flat { IfOk result (λ r. used.level + r.depth ≤ 1000) }
{
    let inside = Used {
        nested: used.nested,
        level: used.level + 1,
        spent: used.spent + 1,
    };
    let f = match walk(tops, inside, scope, function) {
        Ok(f) => f,
        Err(stop) => return Err(stop),
    };
    let e = match walk(
        tops,
        Used {
            spent: inside.spent + f.nodes,
            ..inside
        },
        scope,
        argument,
    ) {
        Ok(e) => e,
        Err(stop) => return Err(stop),
    };
    let b = match run(
        tops,
        Used {
            spent: inside.spent + f.nodes + e.nodes,
            ..inside
        },
        f.known,
        e.known,
    ) {
        Ok(b) => b,
        Err(stop) => return Err(stop),
    };
    Ok(Walked {
        known: b.known,
        nodes: 1 + f.nodes + e.nodes + b.nodes,
        depth: 1 + f.depth.max(e.depth.max(b.depth)),
    })
}

// What a loop begins with, what says how many turns it has, and its body.
#[cycle(walk)]
#[tactic(auto, using(crate::proofs::Stepping::stepping))]
fn walk_loop<'a>(
    tops: &Tops<'a>,
    used: Used,
    scope: &'a Scope<'a>,
    whole: &'a Loop<'a>,
) -> Result<Walked<'a>, Stop>
    requires level { used.level < 1000 }
    requires spent { used.spent < 1048576 }
    ensures walk { Walked_to (scope_of tops.now.known.now) (scope_of scope.now) used.level used.spent (loop_of whole.now) result }
    ensures few { IfOk result (λ r. used.spent + r.nodes ≤ 1048576) }
    ensures flat { IfOk result (λ r. used.level + r.depth ≤ 1000) }
{
    match turn_of(tops.bump, whole, scope) {
        Ok(turn) => walk_steps(
            tops,
            used,
            scope,
            &whole.first,
            turn.outside,
            test_of(&whole.form),
            turn.inside,
            &whole.body,
        ),
        Err(stop) => Err(stop),
    }
}

// Three expressions that have to give data, one after the other and each in its names: those of an `if`, or those of a loop.
#[cycle(walk)]
#[tactic(auto, using(crate::proofs::Stepping::stepping))]
fn walk_steps<'a>(
    tops: &Tops<'a>,
    used: Used,
    scope: &'a Scope<'a>,
    first: &'a Exp<'a>,
    outside: &'a Scope<'a>,
    second: &'a Exp<'a>,
    inner: &'a Scope<'a>,
    third: &'a Exp<'a>,
) -> Result<Walked<'a>, Stop>
    requires level { used.level < 1000 }
    requires spent { used.spent < 1048576 }
    ensures walk { Stepped_to (scope_of tops.now.known.now) (scope_of scope.now) (scope_of outside.now) (scope_of inner.now) used.level used.spent (term_of first.now) (term_of second.now) (term_of third.now) result }
    ensures few { IfOk result (λ r. used.spent + r.nodes ≤ 1048576) }
    ensures flat { IfOk result (λ r. used.level + r.depth ≤ 1000) }
{
    let inside = Used {
        nested: used.nested,
        level: used.level + 1,
        spent: used.spent + 1,
    };
    let a = match walk_data(tops, inside, scope, first) {
        Ok(a) => a,
        Err(stop) => return Err(stop),
    };
    let b = match walk_data(
        tops,
        Used {
            spent: inside.spent + a.nodes,
            ..inside
        },
        outside,
        second,
    ) {
        Ok(b) => b,
        Err(stop) => return Err(stop),
    };
    let c = match walk_data(
        tops,
        Used {
            spent: inside.spent + a.nodes + b.nodes,
            ..inside
        },
        inner,
        third,
    ) {
        Ok(c) => c,
        Err(stop) => return Err(stop),
    };
    Ok(Walked {
        known: known_data(),
        nodes: 1 + a.nodes + b.nodes + c.nodes,
        depth: 1 + a.depth.max(b.depth.max(c.depth)),
    })
}

// An expression that has to give data.
#[cycle(walk)]
#[tactic(auto, using(crate::proofs::Forms::datas))]
fn walk_data<'a>(
    tops: &Tops<'a>,
    used: Used,
    scope: &'a Scope<'a>,
    exp: &'a Exp<'a>,
) -> Result<Count, Stop>
    requires level { used.level ≤ 1000 }
    requires spent { used.spent ≤ 1048576 }
    ensures walk { Data_to (scope_of tops.now.known.now) (scope_of scope.now) used.level used.spent (term_of exp.now) result }
    ensures few { IfOk result (λ r. used.spent + r.nodes ≤ 1048576) }
    ensures flat { IfOk result (λ r. used.level + r.depth ≤ 1000) }
{
    let r = match walk(tops, used, scope, exp) {
        Ok(r) => r,
        Err(stop) => return Err(stop),
    };
    if is_data(r.known) {
        Ok(Count {
            nodes: r.nodes,
            depth: r.depth,
        })
    } else {
        Err(Stop::Lost)
    }
}

#[cycle(walk)]
#[tactic(auto, using(crate::proofs::Rows::parts))]
fn walk_parts<'a>(
    tops: &Tops<'a>,
    used: Used,
    scope: &'a Scope<'a>,
    exps: &'a [Exp<'a>],
) -> Result<Parts<'a>, Stop>
    requires level { used.level ≤ 1000 }
    requires spent { used.spent ≤ 1048576 }
    ensures walk { Parts_to (scope_of tops.now.known.now) (scope_of scope.now) used.level used.spent (terms (map term_of exps.now)) result }
    ensures few { IfOk result (λ r. used.spent + r.nodes ≤ 1048576) }
    ensures flat { IfOk result (λ r. used.level + r.depth ≤ 1000) }
{
    let mut knowns = Vec::new(tops.bump);
    let mut nodes = 0;
    let mut depth = 0;
    for exp in exps {
        let r = match walk(
            tops,
            Used {
                spent: used.spent + nodes,
                ..used
            },
            scope,
            exp,
        ) {
            Ok(r) => r,
            Err(stop) => return Err(stop),
        };
        match knowns.push(r.known) {
            Ok(()) => (),
            Err(_) => return Err(Stop::Memory),
        }
        nodes += r.nodes;
        depth = depth.max(r.depth);
    }
    Ok(Parts {
        knowns: into_bump_slice(knowns),
        nodes,
        depth,
    })
}

// `let`s before a body: a row, or an assertion, which is a row of its own.
#[cycle(walk)]
#[tactic(auto, using(crate::proofs::Asserting::firsts))]
fn walk_lets<'a>(
    tops: &Tops<'a>,
    used: Used,
    scope: &'a Scope<'a>,
    lets: &'a [Let<'a>],
    body: &'a Exp<'a>,
) -> Result<Walked<'a>, Stop>
    requires level { used.level < 1000 }
    requires spent { used.spent < 1048576 }
    requires some { 0 < length lets.now }
    ensures walk { Walked_to (scope_of tops.now.known.now) (scope_of scope.now) used.level used.spent (behind lets.now body.now) result }
    ensures few { IfOk result (λ r. used.spent + r.nodes ≤ 1048576) }
    ensures flat { IfOk result (λ r. used.level + r.depth ≤ 1000) }
{
    let first = &lets[0];
    match condition_of(&first.value) {
        Some(test) => walk_assertion(tops, used, scope, test, &first.pat, &lets[1..], body),
        None => walk_row(tops, used, scope, lets, body),
    }
}

// An assertion: its condition, and then what it guards.
#[cycle(walk)]
#[tactic(auto, using(crate::proofs::Asserting::assertions))]
fn walk_assertion<'a>(
    tops: &Tops<'a>,
    used: Used,
    scope: &'a Scope<'a>,
    test: &'a Exp<'a>,
    pat: &'a Pat<'a>,
    lets: &'a [Let<'a>],
    body: &'a Exp<'a>,
) -> Result<Walked<'a>, Stop>
    requires level { used.level < 1000 }
    requires spent { used.spent < 1048576 }
    ensures walk { Guards (scope_of tops.now.known.now) (scope_of scope.now) used.level used.spent (pattern_of pat.now) (term_of test.now) (behind lets.now body.now) result }
    ensures few { IfOk result (λ r. used.spent + r.nodes ≤ 1048576) }
    ensures flat { IfOk result (λ r. used.level + r.depth ≤ 1000) }
{
    let inside = Used {
        nested: used.nested,
        level: used.level + 1,
        spent: used.spent + 1,
    };
    let asked = match walk_data(tops, inside, scope, test) {
        Ok(asked) => asked,
        Err(stop) => return Err(stop),
    };
    let inner = match bind_data(tops.bump, pat, scope) {
        Ok(inner) => inner,
        Err(stop) => return Err(stop),
    };
    let guarded = match walk_behind(
        tops,
        Used {
            spent: inside.spent + asked.nodes,
            ..inside
        },
        inner,
        lets,
        body,
    ) {
        Ok(guarded) => guarded,
        Err(stop) => return Err(stop),
    };
    Ok(Walked {
        known: guarded.known,
        nodes: 1 + asked.nodes + guarded.nodes,
        depth: 1 + asked.depth.max(guarded.depth),
    })
}

// What stands behind a `let`.
#[cycle(walk)]
#[tactic(auto, using(crate::proofs::Asserting::rests))]
fn walk_behind<'a>(
    tops: &Tops<'a>,
    used: Used,
    scope: &'a Scope<'a>,
    lets: &'a [Let<'a>],
    body: &'a Exp<'a>,
) -> Result<Walked<'a>, Stop>
    ensures walk { Walked_to (scope_of tops.now.known.now) (scope_of scope.now) used.level used.spent (behind lets.now body.now) result }
    ensures few { IfOk result (λ r. used.spent + r.nodes ≤ 1048576) }
    ensures flat { IfOk result (λ r. used.level + r.depth ≤ 1000) }
{
    if lets.len() == 0 {
        return walk(tops, used, scope, body);
    }
    if used.level >= MOST_DEPTH {
        return Err(Stop::Depth);
    }
    if used.spent >= MOST_NODES {
        return Err(Stop::Nodes);
    }
    walk_lets(tops, used, scope, lets, body)
}

// A row of `let`s: one visit, and then what stands behind it.
#[cycle(walk)]
#[tactic(auto, using(crate::proofs::Rows::rows))]
fn walk_row<'a>(
    tops: &Tops<'a>,
    used: Used,
    scope: &'a Scope<'a>,
    lets: &'a [Let<'a>],
    body: &'a Exp<'a>,
) -> Result<Walked<'a>, Stop>
    requires level { used.level < 1000 }
    requires spent { used.spent < 1048576 }
    requires row { is_let (behind lets.now body.now) ≡ true }
    ensures walk { Walked_to (scope_of tops.now.known.now) (scope_of scope.now) used.level used.spent (behind lets.now body.now) result }
    ensures few { IfOk result (λ r. used.spent + r.nodes ≤ 1048576) }
    ensures flat { IfOk result (λ r. used.level + r.depth ≤ 1000) }
{
    let inside = Used {
        nested: used.nested,
        level: used.level + 1,
        spent: used.spent + 1,
    };
    let mut row = Row {
        scope,
        nodes: 0,
        depth: 0,
    };
    let mut left = Left { lets, body };
    while let Some(at) = left_of_row(left.lets, left.body) {
        let one = &at.lets[0];
        let spent = Used {
            spent: inside.spent + row.nodes,
            ..inside
        };
        let value = match walk(tops, spent, row.scope, &one.value) {
            Ok(value) => value,
            Err(stop) => return Err(stop),
        };
        let names = match bind(tops.bump, &one.pat, value.known, row.scope) {
            Ok(names) => names,
            Err(stop) => return Err(stop),
        };
        row = Row {
            scope: names,
            nodes: row.nodes + value.nodes,
            depth: row.depth.max(value.depth),
        };
        left = behind_first(at);
    }
    let spent = Used {
        spent: inside.spent + row.nodes,
        ..inside
    };
    let rest = match walk_behind(tops, spent, row.scope, left.lets, left.body) {
        Ok(rest) => rest,
        Err(stop) => return Err(stop),
    };
    Ok(Walked {
        known: rest.known,
        nodes: 1 + (row.nodes + rest.nodes),
        depth: 1 + row.depth.max(rest.depth),
    })
}

// A known function applied to an argument.
#[cycle(walk)]
#[tactic(auto, using(crate::proofs::Running::runs))]
fn run<'a>(
    tops: &Tops<'a>,
    used: Used,
    function: Known<'a>,
    argument: Known<'a>,
) -> Result<Walked<'a>, Stop>
    requires level { used.level ≤ 1000 }
    requires spent { used.spent ≤ 1048576 }
    ensures walk { Ran_to (scope_of tops.now.known.now) used.level used.spent (known_of function.entry) (known_of argument.entry) result }
    ensures few { IfOk result (λ r. used.spent + r.nodes ≤ 1048576) }
    ensures flat { IfOk result (λ r. used.level + r.depth ≤ 1000) }
{
    match *function.form {
        KnownForm::Function(closure) => run_function(tops, used, closure, argument),
        KnownForm::Primitive(primitive, given) => {
            run_primitive(tops, used, primitive, given, argument)
        }
        _ => Err(Stop::Lost),
    }
}

#[cycle(walk)]
#[tactic(auto, using(crate::proofs::Running::bodies))]
fn run_function<'a>(
    tops: &Tops<'a>,
    used: Used,
    closure: &'a Closure<'a>,
    argument: Known<'a>,
) -> Result<Walked<'a>, Stop>
    requires level { used.level ≤ 1000 }
    requires spent { used.spent ≤ 1048576 }
    ensures walk { Ran_to (scope_of tops.now.known.now) used.level used.spent (Known_function (patterns (map pattern_of closure.now.params.now)) (term_of closure.now.body.now) (scope_of closure.now.scope.now)) (known_of argument.entry) result }
    ensures few { IfOk result (λ r. used.spent + r.nodes ≤ 1048576) }
    ensures flat { IfOk result (λ r. used.level + r.depth ≤ 1000) }
{
    let params = closure.params;
    if params.len() == 0 {
        return Err(Stop::Lost);
    }
    let inner = match bind(tops.bump, &params[0], argument, closure.scope) {
        Ok(inner) => inner,
        Err(stop) => return Err(stop),
    };
    if params.len() == 1 {
        walk(tops, used, inner, closure.body)
    } else {
        match captured(tops.bump, &params[1..], closure.body, inner) {
            Ok(known) => Ok(Walked {
                known,
                nodes: 0,
                depth: 0,
            }),
            Err(stop) => Err(stop),
        }
    }
}

#[cycle(walk)]
#[tactic(auto, using(crate::proofs::Running::primitives))]
fn run_primitive<'a>(
    tops: &Tops<'a>,
    used: Used,
    primitive: Primitive,
    given: &'a [Known<'a>],
    argument: Known<'a>,
) -> Result<Walked<'a>, Stop>
    requires level { used.level ≤ 1000 }
    requires spent { used.spent ≤ 1048576 }
    ensures walk { Ran_to (scope_of tops.now.known.now) used.level used.spent (Known_primitive primitive (knowns (map known_of given.now))) (known_of argument.entry) result }
    ensures few { IfOk result (λ r. used.spent + r.nodes ≤ 1048576) }
    ensures flat { IfOk result (λ r. used.level + r.depth ≤ 1000) }
{
    let all = match with_last(tops.bump, given, argument) {
        Ok(all) => all,
        Err(stop) => return Err(stop),
    };
    let parameters = parameters_of(primitive);
    if given.len() + 1 < parameters.len() {
        return match held(tops.bump, KnownForm::Primitive(primitive, all)) {
            Ok(known) => Ok(Walked {
                known,
                nodes: 0,
                depth: 0,
            }),
            Err(stop) => Err(stop),
        };
    }
    if used.nested >= MOST_NESTED {
        return Err(Stop::Memory);
    }
    let made = match run_given(
        tops,
        Used {
            nested: used.nested + 1,
            ..used
        },
        parameters,
        all,
    ) {
        Ok(made) => made,
        Err(stop) => return Err(stop),
    };
    Ok(Walked {
        known: known_data(),
        nodes: made.nodes,
        depth: made.depth,
    })
}

// The arguments of a primitive, each for its parameter.
#[cycle(walk)]
#[tactic(auto, using(crate::proofs::Running::givens))]
fn run_given<'a>(
    tops: &Tops<'a>,
    used: Used,
    parameters: &[u32],
    given: &'a [Known<'a>],
) -> Result<Count, Stop>
    requires level { used.level ≤ 1000 }
    requires spent { used.spent ≤ 1048576 }
    requires nested { used.nested ≤ 1000 }
    ensures walk { Given_to (scope_of tops.now.known.now) used.level used.spent parameters.now (knowns (map known_of given.now)) result }
    ensures few { IfOk result (λ r. used.spent + r.nodes ≤ 1048576) }
    ensures flat { IfOk result (λ r. used.level + r.depth ≤ 1000) }
{
    let mut made = Count { nodes: 0, depth: 0 };
    let mut at = 0;
    for known in given {
        if at >= parameters.len() {
            return Err(Stop::Lost);
        }
        let r = match run_with_data(
            tops,
            Used {
                spent: used.spent + made.nodes,
                ..used
            },
            parameters[at],
            *known,
        ) {
            Ok(r) => r,
            Err(stop) => return Err(stop),
        };
        made = Count {
            nodes: made.nodes + r.nodes,
            depth: made.depth.max(r.depth),
        };
        at += 1;
    }
    if at < parameters.len() {
        return Err(Stop::Lost);
    }
    Ok(made)
}

/// A function applied to so much data, which has to give data.
#[cycle(walk)]
#[tactic(auto, using(crate::proofs::Running::functions))]
pub fn run_with_data<'a>(
    tops: &Tops<'a>,
    used: Used,
    arguments: u32,
    function: Known<'a>,
) -> Result<Count, Stop>
    requires level { used.level ≤ 1000 }
    requires spent { used.spent ≤ 1048576 }
    ensures walk { Function_to (scope_of tops.now.known.now) used.level used.spent arguments (known_of function.entry) result }
    ensures few { IfOk result (λ r. used.spent + r.nodes ≤ 1048576) }
    ensures flat { IfOk result (λ r. used.level + r.depth ≤ 1000) }
{
    let mut made = Walked {
        known: function,
        nodes: 0,
        depth: 0,
    };
    let mut left = arguments;
    while left > 0 {
        let r = match run(
            tops,
            Used {
                spent: used.spent + made.nodes,
                ..used
            },
            made.known,
            known_data(),
        ) {
            Ok(r) => r,
            Err(stop) => return Err(stop),
        };
        made = Walked {
            known: r.known,
            nodes: made.nodes + r.nodes,
            depth: made.depth.max(r.depth),
        };
        left -= 1;
    }
    if is_data(made.known) {
        Ok(Count {
            nodes: made.nodes,
            depth: made.depth,
        })
    } else {
        Err(Stop::Lost)
    }
}
