// The walk over terms: an application of a known function becomes its body, and each operation on scalars a step. The walk goes
// as deep as terms lie inside each other, up to 2,000 levels: functions stand apart (`inline(never)`), so that the frame of a
// level holds what this level needs and not what every form may need.
ghost use Rattle.std.specs.Prelude.{◌≡◌, ◌≤◌, ◌+◌, length, map};
ghost use Rattle.fut_flat.specs.Erased.{operation_of, pattern_of, patterns, term_of, terms};
ghost use Rattle.fut_flat.specs.Terms.{Apply, Counted, If, Over, Strict, While};
ghost use Rattle.fut_flat.proofs.ErasedForms.{loop_of, row_of, turns_of};
ghost use Rattle.unfold.specs.Held.{known_of, scope_of};
ghost use Rattle.unfold.specs.Knowns.{Primitive_known, knowns};
ghost use Rattle.unfold_parts.specs.States.{steps_of};
ghost use Rattle.unfold_parts.specs.Tables.{Kept};
ghost use Rattle.unfold_program.specs.Answers.{All_applied, All_unfolded, Applied, Blocked_to, Branches_to, Job_applied, Lambda_known, Looped_to, Row_unfolded, Scalar_unfolded, Tested_to, Tried_to, Unfolded, Unfolded_inside, agreed, written};

use crate::enter::{bind_row, bind_turn, enter, scalar_of};
use crate::function::function_known;
use crate::give::{
    again, asked, close, close_scalar, give_choice, give_counted, give_rows, give_while, operated,
    packed, put, put_known, unwalked, use_known, with_argument,
};
use crate::peel::stripped;
use crate::walked::{Branch, Context, MOST_DEPTH, Parts, Row, Shapes, Walked, WalkedScalar};
use bumpalo::Bump;
use bumpalo::collections::into_bump_slice;
use flat_numbers::{after, after_exp, after_pattern, after_patterns, own_numbers_of};
use fut_flat::{Act as Operation, Exp, Form, Let, Loop, LoopForm, Pat, Primitive};
use fut_scalar::{BindId, Place};
use unfold::{Known, KnownForm, Scope};
use unfold_parts::{
    Applied as Step, Refusal, Unfolding, apply_primitive, begin_job, bind, end_job,
};

/// What is known of the value of an expression, whose node has the number `at`: it is written into `walked`, since a result of
/// that size would stand several times in the frame of each level.
#[cycle(walk)]
pub fn walk<'a>(
    context: &Context<'a>,
    level: u32,
    scope: Scope<'a>,
    at: u32,
    exp: &'a Exp<'a>,
    state: &mut Unfolding<'a>,
    walked: &mut Walked<'a>,
) -> Result<(), Refusal>
    requires kept { Kept context.now.tops }
    ensures { Unfolded context.now (scope_of scope.entry) at (term_of exp.now) state.old state.new (written result walked.new) }
{
    if level >= MOST_DEPTH {
        return Err(Refusal::Memory);
    }
    match stripped(at, exp) {
        Ok(peeled) => {
            walk_form(
                context,
                level + 1,
                scope,
                peeled.at,
                peeled.inside,
                peeled.exp,
                state,
                walked,
            )
        }
        Err(refusal) => Err(refusal),
    }
}

// The same within the limit, for an expression without declared types around it. The number behind that of its node is `inside`.
#[cycle(walk)]
fn walk_form<'a>(
    context: &Context<'a>,
    level: u32,
    scope: Scope<'a>,
    at: u32,
    inside: u32,
    exp: &'a Exp<'a>,
    state: &mut Unfolding<'a>,
    walked: &mut Walked<'a>,
) -> Result<(), Refusal>
    requires kept { Kept context.now.tops }
    requires level { level ≤ 2000 }
    requires inside { inside ≡ at + 1 }
    ensures { Unfolded context.now (scope_of scope.entry) at (term_of exp.now) state.old state.new (written result walked.new) }
{
    match &exp.form {
        Form::Use(reference, _) => { use_known(state, context, scope, *reference, at, exp, walked) }
        Form::Strict { act, mark, parts } => {
            walk_strict(context, level, scope, at, act, *mark, *parts, state, walked)
        }
        Form::Lambda(params, body) => {
            walk_lambda(state.bump, scope, inside, *params, *body, walked)
        }
        Form::Apply(function, argument) => {
            walk_apply(
                context, level, scope, inside, *function, *argument, state, walked,
            )
        }
        Form::Lets(_, _) => walk_lets(context, level, scope, at, exp, state, walked),
        Form::If(test, yes, no) => walk_if(
            context, level, scope, inside, *test, *yes, *no, state, walked,
        ),
        Form::Loop(whole) => walk_loop(context, level, scope, inside, *whole, state, walked),
    }
}

// A function is known by its parameters and its body, which are unfolded where it is applied.
#[inline(never)]
fn walk_lambda<'a>(
    bump: &'a Bump,
    scope: Scope<'a>,
    inside: u32,
    params: &'a [Pat<'a>],
    body: &'a Exp<'a>,
    walked: &mut Walked<'a>,
) -> Result<(), Refusal>
    ensures { Lambda_known (scope_of scope.entry) inside (patterns (map pattern_of params.now)) (term_of body.now) (written result walked.new) }
{
    let first = match after_patterns(inside, params) {
        Ok(first) => first,
        Err(_) => return Err(Refusal::Memory),
    };
    match after_exp(first, body) {
        Ok(next) => put(
            function_known(bump, params, body, first, scope),
            next,
            walked,
        ),
        Err(_) => Err(Refusal::Memory),
    }
}

// Parts from left to right, then the operation.
#[cycle(walk)]
#[inline(never)]
fn walk_strict<'a>(
    context: &Context<'a>,
    level: u32,
    scope: Scope<'a>,
    at: u32,
    act: &Operation<'a>,
    mark: Place,
    parts: &'a [Exp<'a>],
    state: &mut Unfolding<'a>,
    walked: &mut Walked<'a>,
) -> Result<(), Refusal>
    requires kept { Kept context.now.tops }
    requires level { level ≤ 2000 }
    ensures { Unfolded context.now (scope_of scope.entry) at (Strict (operation_of act.now) mark (terms (map term_of parts.now))) state.old state.new (written result walked.new) }
{
    let first = match after(at, own_numbers_of(act)) {
        Ok(first) => first,
        Err(_) => return Err(Refusal::Memory),
    };
    let made = match walk_parts(context, level, scope, first, parts, state) {
        Ok(made) => made,
        Err(refusal) => return Err(refusal),
    };
    operated(state, context.told, scope, at, act, mark, made, walked)
}

#[cycle(walk)]
fn walk_parts<'a>(
    context: &Context<'a>,
    level: u32,
    scope: Scope<'a>,
    at: u32,
    exps: &'a [Exp<'a>],
    state: &mut Unfolding<'a>,
) -> Result<Parts<'a>, Refusal>
    requires kept { Kept context.now.tops }
    requires level { level ≤ 2000 }
    ensures { All_unfolded context.now (scope_of scope.entry) at (terms (map term_of exps.now)) state.old state.new result }
{
    let mut knowns = Vec::new(state.bump);
    let mut next = at;
    for exp in exps {
        let mut r = unwalked();
        match walk(context, level, scope, next, exp, state, &mut r) {
            Ok(()) => (),
            Err(refusal) => return Err(refusal),
        }
        match knowns.push(r.known) {
            Ok(()) => (),
            Err(_) => return Err(Refusal::Memory),
        }
        next = r.at;
    }
    Ok(Parts {
        knowns: into_bump_slice(knowns),
        at: next,
    })
}

#[cycle(walk)]
#[inline(never)]
fn walk_apply<'a>(
    context: &Context<'a>,
    level: u32,
    scope: Scope<'a>,
    inside: u32,
    function: &'a Exp<'a>,
    argument: &'a Exp<'a>,
    state: &mut Unfolding<'a>,
    walked: &mut Walked<'a>,
) -> Result<(), Refusal>
    requires kept { Kept context.now.tops }
    requires level { level ≤ 2000 }
    ensures { Unfolded_inside context.now (scope_of scope.entry) inside (Apply (term_of function.now) (term_of argument.now)) state.old state.new (written result walked.new) }
{
    let mut f = unwalked();
    match walk(context, level, scope, inside, function, state, &mut f) {
        Ok(()) => (),
        Err(refusal) => return Err(refusal),
    }
    let mut e = unwalked();
    match walk(context, level, scope, f.at, argument, state, &mut e) {
        Ok(()) => (),
        Err(refusal) => return Err(refusal),
    }
    match apply(context, level, &f.known, &e.known, state, walked) {
        Ok(()) => {
            walked.at = e.at;
            Ok(())
        }
        Err(refusal) => Err(refusal),
    }
}

// A term whose value is a scalar.
#[cycle(walk)]
#[inline(never)]
fn walk_scalar<'a>(
    context: &Context<'a>,
    level: u32,
    scope: Scope<'a>,
    at: u32,
    exp: &'a Exp<'a>,
    state: &mut Unfolding<'a>,
) -> Result<WalkedScalar, Refusal>
    requires kept { Kept context.now.tops }
    requires level { level ≤ 2000 }
    ensures { Scalar_unfolded context.now (scope_of scope.entry) at (term_of exp.now) state.old state.new result }
{
    let mut walked = unwalked();
    match walk(context, level, scope, at, exp, state, &mut walked) {
        Ok(()) => scalar_of(&walked),
        Err(refusal) => Err(refusal),
    }
}

// Both branches give data of one shape, whose components get new names. Where they do not, they are unfolded once more and packed.
#[cycle(walk)]
#[inline(never)]
fn walk_if<'a>(
    context: &Context<'a>,
    level: u32,
    scope: Scope<'a>,
    inside: u32,
    test: &'a Exp<'a>,
    yes: &'a Exp<'a>,
    no: &'a Exp<'a>,
    state: &mut Unfolding<'a>,
    walked: &mut Walked<'a>,
) -> Result<(), Refusal>
    requires kept { Kept context.now.tops }
    requires level { level ≤ 2000 }
    ensures { Unfolded_inside context.now (scope_of scope.entry) inside (If (term_of test.now) (term_of yes.now) (term_of no.now)) state.old state.new (written result walked.new) }
{
    let truth = match walk_scalar(context, level, scope, inside, test, state) {
        Ok(truth) => truth,
        Err(refusal) => return Err(refusal),
    };
    let mark = state.mark();
    let next = state.next;
    let packs = state.packs(inside);
    match walk_branches(context, level, scope, &truth, yes, no, packs, state, walked) {
        Ok(Shapes::Agree) => return Ok(()),
        Ok(Shapes::Differ) => (),
        Err(refusal) => return Err(refusal),
    }
    match again(state, mark, next, inside) {
        Ok(()) => (),
        Err(refusal) => return Err(refusal),
    }
    match walk_branches(context, level, scope, &truth, yes, no, true, state, walked) {
        Ok(Shapes::Agree) => Ok(()),
        Ok(Shapes::Differ) => unreachable!(),
        Err(refusal) => Err(refusal),
    }
}

// Both branches, packed or not; `None` where they are not and give data of different shapes.
#[cycle(walk)]
fn walk_branches<'a>(
    context: &Context<'a>,
    level: u32,
    scope: Scope<'a>,
    truth: &WalkedScalar,
    yes: &'a Exp<'a>,
    no: &'a Exp<'a>,
    packs: bool,
    state: &mut Unfolding<'a>,
    walked: &mut Walked<'a>,
) -> Result<Shapes, Refusal>
    requires kept { Kept context.now.tops }
    requires level { level ≤ 2000 }
    ensures { Branches_to context.now (scope_of scope.entry) truth.now (term_of yes.now) (term_of no.now) packs state.old state.new (agreed result walked.new) }
{
    let mark = state.mark();
    match walk(context, level, scope, truth.at, yes, state, walked) {
        Ok(()) => (),
        Err(refusal) => return Err(refusal),
    }
    let like = asked(packs, &walked.known);
    let a = match close(state, mark, &like, walked) {
        Ok(Some(a)) => a,
        Ok(None) => return Ok(Shapes::Differ),
        Err(refusal) => return Err(refusal),
    };
    let b = match walk_block(context, level, scope, mark, a.at, no, &like, state) {
        Ok(Some(b)) => b,
        Ok(None) => return Ok(Shapes::Differ),
        Err(refusal) => return Err(refusal),
    };
    give_choice(state, &like, truth, &a, &b, walked)
}

// The steps from the mark on and those of an expression as a block, which gives data of the shape of `like`.
#[cycle(walk)]
fn walk_block<'a>(
    context: &Context<'a>,
    level: u32,
    scope: Scope<'a>,
    mark: usize,
    at: u32,
    exp: &'a Exp<'a>,
    like: &Known<'a>,
    state: &mut Unfolding<'a>,
) -> Result<Option<Branch<'a>>, Refusal>
    requires kept { Kept context.now.tops }
    requires level { level ≤ 2000 }
    requires mark { mark ≤ length (steps_of state.old) }
    ensures { Blocked_to context.now (scope_of scope.entry) mark at (term_of exp.now) (known_of like.now) state.old state.new result }
{
    let mut r = unwalked();
    match walk(context, level, scope, at, exp, state, &mut r) {
        Ok(()) => close(state, mark, like, &r),
        Err(refusal) => Err(refusal),
    }
}

// A loop whose turns do not give data of the shape of its first value is unfolded once more, with that value packed.
#[cycle(walk)]
#[inline(never)]
fn walk_loop<'a>(
    context: &Context<'a>,
    level: u32,
    scope: Scope<'a>,
    inside: u32,
    whole: &'a Loop<'a>,
    state: &mut Unfolding<'a>,
    walked: &mut Walked<'a>,
) -> Result<(), Refusal>
    requires kept { Kept context.now.tops }
    requires level { level ≤ 2000 }
    ensures { Unfolded_inside context.now (scope_of scope.entry) inside (loop_of whole.now) state.old state.new (written result walked.new) }
{
    let value = match after_pattern(inside, &whole.pat) {
        Ok(value) => value,
        Err(_) => return Err(Refusal::Memory),
    };
    let mut first = unwalked();
    match walk(
        context,
        level,
        scope,
        value,
        &whole.first,
        state,
        &mut first,
    ) {
        Ok(()) => (),
        Err(refusal) => return Err(refusal),
    }
    match walk_first(context, level, scope, inside, whole, &first, state, walked) {
        Ok(Shapes::Agree) => return Ok(()),
        Ok(Shapes::Differ) => (),
        Err(refusal) => return Err(refusal),
    }
    match packed(state, &mut first) {
        Ok(()) => (),
        Err(refusal) => return Err(refusal),
    }
    match walk_turns(context, level, scope, inside, whole, &first, state, walked) {
        Ok(Shapes::Agree) => Ok(()),
        Ok(Shapes::Differ) => unreachable!(),
        Err(refusal) => Err(refusal),
    }
}

// The turns with the first value as it is; `None` where it has to be packed.
#[cycle(walk)]
fn walk_first<'a>(
    context: &Context<'a>,
    level: u32,
    scope: Scope<'a>,
    inside: u32,
    whole: &'a Loop<'a>,
    first: &Walked<'a>,
    state: &mut Unfolding<'a>,
    walked: &mut Walked<'a>,
) -> Result<Shapes, Refusal>
    requires kept { Kept context.now.tops }
    requires level { level ≤ 2000 }
    ensures { Tried_to context.now (scope_of scope.entry) inside whole.now (turns_of whole.now.form) first.now state.old state.new (agreed result walked.new) }
{
    if state.packs(inside) {
        return Ok(Shapes::Differ);
    }
    let mark = state.mark();
    let next = state.next;
    match walk_turns(context, level, scope, inside, whole, first, state, walked) {
        Ok(Shapes::Agree) => return Ok(Shapes::Agree),
        Ok(Shapes::Differ) => (),
        Err(refusal) => return Err(refusal),
    }
    match again(state, mark, next, inside) {
        Ok(()) => Ok(Shapes::Differ),
        Err(refusal) => Err(refusal),
    }
}

// A turn is unfolded once, on new names, and gives data of the shape of the first value; `None` where it does not.
#[cycle(walk)]
fn walk_turns<'a>(
    context: &Context<'a>,
    level: u32,
    scope: Scope<'a>,
    inside: u32,
    whole: &'a Loop<'a>,
    first: &Walked<'a>,
    state: &mut Unfolding<'a>,
    walked: &mut Walked<'a>,
) -> Result<Shapes, Refusal>
    requires kept { Kept context.now.tops }
    requires level { level ≤ 2000 }
    ensures { Looped_to context.now (scope_of scope.entry) inside whole.now (turns_of whole.now.form) first.now state.old state.new (agreed result walked.new) }
{
    match &whole.form {
        LoopForm::For(index, count) => {
            walk_for(
                context, level, scope, inside, whole, *index, count, first, state, walked,
            )
        }
        LoopForm::ForIn(row, rows) => {
            walk_rows(
                context, level, scope, inside, whole, row, rows, first, state, walked,
            )
        }
        LoopForm::While(test) => walk_while(
            context, level, scope, inside, whole, test, first, state, walked,
        ),
    }
}

#[cycle(walk)]
#[inline(never)]
fn walk_for<'a>(
    context: &Context<'a>,
    level: u32,
    scope: Scope<'a>,
    inside: u32,
    whole: &'a Loop<'a>,
    index: BindId,
    count: &'a Exp<'a>,
    first: &Walked<'a>,
    state: &mut Unfolding<'a>,
    walked: &mut Walked<'a>,
) -> Result<Shapes, Refusal>
    requires kept { Kept context.now.tops }
    requires level { level ≤ 2000 }
    ensures { Looped_to context.now (scope_of scope.entry) inside whole.now (Counted index (term_of count.now)) first.now state.old state.new (agreed result walked.new) }
{
    let counting = match after(first.at, 1) {
        Ok(counting) => counting,
        Err(_) => return Err(Refusal::Memory),
    };
    let n = match walk_scalar(context, level, scope, counting, count, state) {
        Ok(n) => n,
        Err(refusal) => return Err(refusal),
    };
    let entered = match enter(&first.known, state) {
        Ok(entered) => entered,
        Err(refusal) => return Err(refusal),
    };
    let name = match state.name() {
        Ok(name) => name,
        Err(refusal) => return Err(refusal),
    };
    let mark = state.mark();
    let scope = match bind_turn(
        context.told.sizes,
        inside,
        &whole.pat,
        first.at,
        index,
        name,
        scope,
        &entered.known,
        state,
    ) {
        Ok(scope) => scope,
        Err(refusal) => return Err(refusal),
    };
    let body = match walk_block(
        context,
        level,
        scope,
        mark,
        n.at,
        &whole.body,
        &first.known,
        state,
    ) {
        Ok(Some(body)) => body,
        Ok(None) => return Ok(Shapes::Differ),
        Err(refusal) => return Err(refusal),
    };
    give_counted(state, &first.known, &entered, name, &n, &body, walked)
}

#[cycle(walk)]
#[inline(never)]
fn walk_rows<'a>(
    context: &Context<'a>,
    level: u32,
    scope: Scope<'a>,
    inside: u32,
    whole: &'a Loop<'a>,
    row: &'a Pat<'a>,
    rows: &'a Exp<'a>,
    first: &Walked<'a>,
    state: &mut Unfolding<'a>,
    walked: &mut Walked<'a>,
) -> Result<Shapes, Refusal>
    requires kept { Kept context.now.tops }
    requires level { level ≤ 2000 }
    ensures { Looped_to context.now (scope_of scope.entry) inside whole.now (Over (pattern_of row.now) (term_of rows.now)) first.now state.old state.new (agreed result walked.new) }
{
    let counting = match after_pattern(first.at, row) {
        Ok(counting) => counting,
        Err(_) => return Err(Refusal::Memory),
    };
    let r = match walk_scalar(context, level, scope, counting, rows, state) {
        Ok(r) => r,
        Err(refusal) => return Err(refusal),
    };
    let entered = match enter(&first.known, state) {
        Ok(entered) => entered,
        Err(refusal) => return Err(refusal),
    };
    let name = match state.name() {
        Ok(name) => name,
        Err(refusal) => return Err(refusal),
    };
    let mark = state.mark();
    let scope = match bind_row(
        context.told.sizes,
        inside,
        &whole.pat,
        first.at,
        row,
        name,
        scope,
        &entered.known,
        state,
    ) {
        Ok(scope) => scope,
        Err(refusal) => return Err(refusal),
    };
    let body = match walk_block(
        context,
        level,
        scope,
        mark,
        r.at,
        &whole.body,
        &first.known,
        state,
    ) {
        Ok(Some(body)) => body,
        Ok(None) => return Ok(Shapes::Differ),
        Err(refusal) => return Err(refusal),
    };
    give_rows(state, &first.known, &entered, name, &r, &body, walked)
}

#[cycle(walk)]
#[inline(never)]
fn walk_while<'a>(
    context: &Context<'a>,
    level: u32,
    scope: Scope<'a>,
    inside: u32,
    whole: &'a Loop<'a>,
    test: &'a Exp<'a>,
    first: &Walked<'a>,
    state: &mut Unfolding<'a>,
    walked: &mut Walked<'a>,
) -> Result<Shapes, Refusal>
    requires kept { Kept context.now.tops }
    requires level { level ≤ 2000 }
    ensures { Looped_to context.now (scope_of scope.entry) inside whole.now (While (term_of test.now)) first.now state.old state.new (agreed result walked.new) }
{
    let entered = match enter(&first.known, state) {
        Ok(entered) => entered,
        Err(refusal) => return Err(refusal),
    };
    let mark = state.mark();
    let c = match walk_test(
        context,
        level,
        scope,
        inside,
        whole,
        first.at,
        test,
        &entered.known,
        state,
    ) {
        Ok(c) => c,
        Err(refusal) => return Err(refusal),
    };
    let scope = match bind(
        state,
        context.told.sizes,
        inside,
        &whole.pat,
        entered.known,
        scope,
    ) {
        Ok(scope) => scope,
        Err(refusal) => return Err(refusal),
    };
    let body = match walk_block(
        context,
        level,
        scope,
        mark,
        c.at,
        &whole.body,
        &first.known,
        state,
    ) {
        Ok(Some(body)) => body,
        Ok(None) => return Ok(Shapes::Differ),
        Err(refusal) => return Err(refusal),
    };
    give_while(state, &first.known, whole.mark, &entered, &c, &body, walked)
}

// The condition of a loop as a block, on what is known of its value in a turn.
#[cycle(walk)]
fn walk_test<'a>(
    context: &Context<'a>,
    level: u32,
    scope: Scope<'a>,
    inside: u32,
    whole: &'a Loop<'a>,
    at: u32,
    test: &'a Exp<'a>,
    known: &Known<'a>,
    state: &mut Unfolding<'a>,
) -> Result<Branch<'a>, Refusal>
    requires kept { Kept context.now.tops }
    requires level { level ≤ 2000 }
    ensures { Tested_to context.now (scope_of scope.entry) inside (pattern_of whole.now.pat) at (term_of test.now) (known_of known.now) state.old state.new result }
{
    let mark = state.mark();
    let scope = match bind(state, context.told.sizes, inside, &whole.pat, *known, scope) {
        Ok(scope) => scope,
        Err(refusal) => return Err(refusal),
    };
    match walk_scalar(context, level, scope, at, test, state) {
        Ok(truth) => close_scalar(state, mark, &truth),
        Err(refusal) => Err(refusal),
    }
}

// Rows of `let`s and the body behind them.
#[cycle(walk)]
#[inline(never)]
fn walk_lets<'a>(
    context: &Context<'a>,
    level: u32,
    scope: Scope<'a>,
    at: u32,
    exp: &'a Exp<'a>,
    state: &mut Unfolding<'a>,
    walked: &mut Walked<'a>,
) -> Result<(), Refusal>
    requires kept { Kept context.now.tops }
    requires level { level ≤ 2000 }
    ensures { Unfolded context.now (scope_of scope.entry) at (term_of exp.now) state.old state.new (written result walked.new) }
{
    let mut rest = exp;
    let mut row = Row { scope: scope, at };
    while let Form::Lets(lets, body) = rest.form {
        row = match walk_row(context, level, row, lets, state) {
            Ok(row) => row,
            Err(refusal) => return Err(refusal),
        };
        rest = body;
    }
    walk(context, level, row.scope, row.at, rest, state, walked)
}

// The `let`s of a row, one after the other.
#[cycle(walk)]
fn walk_row<'a>(
    context: &Context<'a>,
    level: u32,
    row: Row<'a>,
    lets: &'a [Let<'a>],
    state: &mut Unfolding<'a>,
) -> Result<Row<'a>, Refusal>
    requires kept { Kept context.now.tops }
    requires level { level ≤ 2000 }
    ensures { Row_unfolded context.now row.entry (map row_of lets.now) state.old state.new result }
{
    let mut at = row;
    for one in lets {
        let inside = match after(at.at, 1) {
            Ok(inside) => inside,
            Err(_) => return Err(Refusal::Memory),
        };
        let first = match after_pattern(inside, &one.pat) {
            Ok(first) => first,
            Err(_) => return Err(Refusal::Memory),
        };
        let mut value = unwalked();
        match walk(
            context, level, at.scope, first, &one.value, state, &mut value,
        ) {
            Ok(()) => (),
            Err(refusal) => return Err(refusal),
        }
        let scope = match bind(
            state,
            context.told.sizes,
            inside,
            &one.pat,
            value.known,
            at.scope,
        ) {
            Ok(scope) => scope,
            Err(refusal) => return Err(refusal),
        };
        at = Row {
            scope,
            at: value.at,
        };
    }
    Ok(at)
}

/// What is known of a function's result for an argument. A body is unfolded where there is an argument for each parameter.
#[cycle(walk)]
pub fn apply<'a>(
    context: &Context<'a>,
    level: u32,
    function: &Known<'a>,
    argument: &Known<'a>,
    state: &mut Unfolding<'a>,
    walked: &mut Walked<'a>,
) -> Result<(), Refusal>
    requires kept { Kept context.now.tops }
    requires level { level ≤ 2000 }
    ensures { Applied context.now (known_of function.now) (known_of argument.now) state.old state.new (written result walked.new.known) }
{
    let lambda = match function.form {
        KnownForm::Function(lambda) => lambda,
        KnownForm::Primitive(primitive, place, known) => {
            return apply_to(
                context, level, primitive, place, known, argument, state, walked,
            );
        }
        _ => return Err(Refusal::Lost),
    };
    let inner = match with_argument(state, context.told.sizes, lambda, argument) {
        Ok(inner) => inner,
        Err(refusal) => return Err(refusal),
    };
    let params = lambda.parameters;
    if params.len() > 1 {
        return put_known(
            function_known(state.bump, &params[1..], lambda.body, lambda.first, inner),
            walked,
        );
    }
    walk(
        context,
        level,
        inner,
        lambda.first,
        lambda.body,
        state,
        walked,
    )
}

// A primitive with the arguments that it has, applied to one more.
#[cycle(walk)]
#[inline(never)]
fn apply_to<'a>(
    context: &Context<'a>,
    level: u32,
    primitive: Primitive,
    place: Place,
    known: &'a [Known<'a>],
    argument: &Known<'a>,
    state: &mut Unfolding<'a>,
    walked: &mut Walked<'a>,
) -> Result<(), Refusal>
    requires kept { Kept context.now.tops }
    requires level { level ≤ 2000 }
    ensures { Applied context.now (Primitive_known primitive place (knowns (map known_of known.now))) (known_of argument.now) state.old state.new (written result walked.new.known) }
{
    match apply_primitive(state, primitive, place, known, *argument) {
        Ok(Step::Known(known)) => {
            walked.known = known;
            Ok(())
        }
        Ok(Step::Ready(arguments)) => {
            walk_job(context, level, primitive, place, arguments, state, walked)
        }
        Err(refusal) => Err(refusal),
    }
}

// A primitive on arrays with all its arguments: its function is unfolded once, on new names.
#[cycle(walk)]
#[inline(never)]
fn walk_job<'a>(
    context: &Context<'a>,
    level: u32,
    primitive: Primitive,
    place: Place,
    arguments: &'a [Known<'a>],
    state: &mut Unfolding<'a>,
    walked: &mut Walked<'a>,
) -> Result<(), Refusal>
    requires kept { Kept context.now.tops }
    requires level { level ≤ 2000 }
    ensures { Job_applied context.now primitive place (map known_of arguments.now) state.old state.new (written result walked.new.known) }
{
    if level >= MOST_DEPTH {
        return Err(Refusal::Memory);
    }
    let job = match begin_job(state, primitive, arguments) {
        Ok(job) => job,
        Err(refusal) => return Err(refusal),
    };
    let mark = state.mark();
    match apply_all(context, level + 1, &job.function, job.arguments, state) {
        Ok(result) => put_known(
            end_job(
                state,
                context.told.sizes,
                mark,
                primitive,
                place,
                &job,
                &result,
            ),
            walked,
        ),
        Err(refusal) => Err(refusal),
    }
}

/// A function applied to arguments, one after the other.
#[cycle(walk)]
pub fn apply_all<'a>(
    context: &Context<'a>,
    level: u32,
    function: &Known<'a>,
    arguments: &'a [Known<'a>],
    state: &mut Unfolding<'a>,
) -> Result<Known<'a>, Refusal>
    requires kept { Kept context.now.tops }
    requires level { level ≤ 2000 }
    ensures { All_applied context.now (map known_of arguments.now) (known_of function.now) state.old state.new result }
{
    let mut made = *function;
    for argument in arguments {
        let mut walked = unwalked();
        match apply(context, level, &made, argument, state, &mut walked) {
            Ok(()) => (),
            Err(refusal) => return Err(refusal),
        }
        made = walked.known;
    }
    Ok(made)
}
