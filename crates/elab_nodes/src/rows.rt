// Lets, loops and compositions.
ghost use Rattle.std.specs.Prelude.{◌∷◌, ◌≡◌, [], map};
ghost use Rattle.fut_flat.specs.Erased.{lets, pattern_of, term_of};
ghost use Rattle.fut_flat.specs.Terms.{Assert, Bound_pattern, Lambda, Let as LetTerm, Loop, Strict, nameless, no_pattern, no_term, pattern_and, term_and};
ghost use Rattle.fut_flat.proofs.ErasedForms.{row_of, turns_of};
ghost use Rattle.elab_nodes.specs.Built.{Built0, Built1, Built2, Built4};
ghost use Rattle.elab_nodes.specs.Composed.{composition, name_alone, ordered, twice_applied, use_at};

use crate::both::both;
use crate::exps::{applied, lambda, node, on_part};
use bumpalo::Bump;
use elab_scopes::Stop;
use fut_flat as flat;
use fut_flat::{Act, Exp, Form, Let, LoopForm, Pat, PatForm, Ref};
use fut_scalar::{BindId, Place};

/// A row of lets before a body.
pub fn rowed<'a>(
    bump: &'a Bump,
    place: Place,
    rows: Result<&'a [Let<'a>], Stop<'a>>,
    body: Result<&'a Exp<'a>, Stop<'a>>,
) -> Result<&'a Exp<'a>, Stop<'a>>
    ensures { Built2 (λ ls e x. term_of x.now ≡ lets (map row_of ls.now) (term_of e.now)) rows.entry body.entry result }
{
    match both(rows, body) {
        Ok((rows, body)) => node(bump, place, Form::Lets(rows, body)),
        Err(stop) => Err(stop),
    }
}

/// A let of no name.
fn unnamed_value<'a>(at: Place, value: &'a Exp<'a>) -> Let<'a>
    ensures { row_of result ≡ (nameless, term_of value.now) }
{
    Let {
        sizes: &[],
        heads: &[],
        is_function: false,
        pat: Pat {
            place: at,
            form: PatForm::Wild,
        },
        value: *value,
    }
}

/// What asks for a condition, as a row.
fn asked<'a>(
    bump: &'a Bump,
    place: Place,
    mark: Place,
    test: Result<&'a Exp<'a>, Stop<'a>>,
) -> Result<&'a [Let<'a>], Stop<'a>>
    ensures { Built1 (λ c ls. map row_of ls.now ≡ (nameless, Strict Assert mark (term_and (term_of c.now) no_term)) ∷ []) test.entry result }
{
    match on_part(bump, place, mark, Act::Assert, test) {
        Ok(test) => held_rows(bump, &[unnamed_value(place, test)]),
        Err(stop) => Err(stop),
    }
}

/// An assertion: its condition is asked for before its value is evaluated.
pub fn asserted<'a>(
    bump: &'a Bump,
    place: Place,
    mark: Place,
    test: Result<&'a Exp<'a>, Stop<'a>>,
    value: Result<&'a Exp<'a>, Stop<'a>>,
) -> Result<&'a Exp<'a>, Stop<'a>>
    ensures { Built2 (λ c e x. term_of x.now ≡ LetTerm nameless (Strict Assert mark (term_and (term_of c.now) no_term)) (term_of e.now)) test.entry value.entry result }
{
    rowed(bump, place, asked(bump, place, mark, test), value)
}

/// The size names and the pattern of a loop.
#[derive(Clone, Copy)]
pub struct Bound<'a> {
    pub sizes: &'a [BindId],
    pub pat: Pat<'a>,
}

/// Which turns a loop takes.
#[derive(Clone, Copy)]
pub struct Turning<'a> {
    pub form: LoopForm<'a>,
}

/// A loop whose parts are there.
fn loop_at<'a>(
    bump: &'a Bump,
    place: Place,
    mark: Place,
    start: (Bound<'a>, &'a Exp<'a>),
    rest: (Turning<'a>, &'a Exp<'a>),
) -> Result<&'a Exp<'a>, Stop<'a>>
    ensures { Built0 (λ x. term_of x.now ≡ Loop mark start.entry.0.sizes.now (pattern_of start.entry.0.pat) (term_of start.entry.1.now) (turns_of rest.entry.0.form) (term_of rest.entry.1.now)) result }
{
    match bump.try_alloc(flat::Loop {
        mark,
        sizes: start.0.sizes,
        pat: start.0.pat,
        first: *start.1,
        form: rest.0.form,
        body: *rest.1,
    }) {
        Ok(parts) => node(bump, place, Form::Loop(parts)),
        Err(_) => Err(Stop::Memory),
    }
}

/// A loop.
pub fn looped<'a>(
    bump: &'a Bump,
    place: Place,
    mark: Place,
    bound: Result<Bound<'a>, Stop<'a>>,
    first: Result<&'a Exp<'a>, Stop<'a>>,
    turns: Result<Turning<'a>, Stop<'a>>,
    body: Result<&'a Exp<'a>, Stop<'a>>,
) -> Result<&'a Exp<'a>, Stop<'a>>
    ensures { Built4 (λ b e t f x. term_of x.now ≡ Loop mark b.sizes.now (pattern_of b.pat) (term_of e.now) (turns_of t.form) (term_of f.now)) bound.entry first.entry turns.entry body.entry result }
{
    match both(bound, first) {
        Ok(start) => match both(turns, body) {
            Ok(rest) => loop_at(bump, place, mark, start, rest),
            Err(stop) => Err(stop),
        },
        Err(stop) => Err(stop),
    }
}

// ---- compositions

/// Two functions, the numbers of their names, and that of what they are applied to.
#[derive(Clone, Copy)]
pub struct Functions<'a> {
    pub left: BindId,
    pub left_function: &'a Exp<'a>,
    pub right: BindId,
    pub right_function: &'a Exp<'a>,
    pub argument: BindId,
}

fn used<'a>(bump: &'a Bump, at: Place, bind: BindId) -> Result<&'a Exp<'a>, Stop<'a>>
    ensures { Built0 (λ x. term_of x.now ≡ use_at at bind) result }
{
    node(bump, at, Form::Use(Ref::Bound(bind), 0))
}

/// The outer function applied to what the inner one gives.
fn both_applied<'a>(
    bump: &'a Bump,
    at: Place,
    outer: BindId,
    inner: BindId,
    argument: BindId,
) -> Result<&'a Exp<'a>, Stop<'a>>
    ensures { Built0 (λ x. term_of x.now ≡ twice_applied at outer inner argument) result }
{
    let given = applied(bump, at, used(bump, at, inner), used(bump, at, argument));
    applied(bump, at, used(bump, at, outer), given)
}

fn in_order<'a>(
    bump: &'a Bump,
    at: Place,
    left_first: bool,
    left: BindId,
    right: BindId,
    argument: BindId,
) -> Result<&'a Exp<'a>, Stop<'a>>
    ensures { Built0 (λ x. term_of x.now ≡ ordered at left_first left right argument) result }
{
    if left_first {
        both_applied(bump, at, right, left, argument)
    } else {
        both_applied(bump, at, left, right, argument)
    }
}

/// A function of one name.
fn of_name<'a>(
    bump: &'a Bump,
    at: Place,
    name: BindId,
    body: Result<&'a Exp<'a>, Stop<'a>>,
) -> Result<&'a Exp<'a>, Stop<'a>>
    ensures { Built1 (λ e x. term_of x.now ≡ Lambda (pattern_and (Bound_pattern name) no_pattern) (term_of e.now)) body.entry result }
{
    let params = [Pat {
        place: at,
        form: PatForm::Bound(name),
    }];
    match bump.try_alloc_slice_copy(&params) {
        Ok(params) => lambda(bump, at, Ok(params), body),
        Err(_) => Err(Stop::Memory),
    }
}

/// A let of one name.
fn named_value<'a>(at: Place, name: BindId, value: &'a Exp<'a>) -> Let<'a>
    ensures { row_of result ≡ (name_alone name, term_of value.now) }
{
    Let {
        sizes: &[],
        heads: &[],
        is_function: false,
        pat: Pat {
            place: at,
            form: PatForm::Bound(name),
        },
        value: *value,
    }
}

fn held_rows<'a>(bump: &'a Bump, rows: &[Let<'a>]) -> Result<&'a [Let<'a>], Stop<'a>>
    ensures { Built0 (λ ls. ls.now ≡ rows.now) result }
{
    match bump.try_alloc_slice_copy(rows) {
        Ok(rows) => Ok(rows),
        Err(_) => Err(Stop::Memory),
    }
}

/// `f >-> g` where the left function is applied first, else `f <-< g`.
pub fn composed<'a>(
    bump: &'a Bump,
    at: Place,
    left_first: bool,
    functions: Result<Functions<'a>, Stop<'a>>,
) -> Result<&'a Exp<'a>, Stop<'a>>
    ensures { Built1 (λ f x. term_of x.now ≡ composition at left_first f.left (term_of f.left_function.now) f.right (term_of f.right_function.now) f.argument) functions.entry result }
{
    match functions {
        Ok(of) => {
            let body = in_order(bump, at, left_first, of.left, of.right, of.argument);
            let body = of_name(bump, at, of.argument, body);
            let left = named_value(at, of.left, of.left_function);
            let right = named_value(at, of.right, of.right_function);
            rowed(bump, at, held_rows(bump, &[left, right]), body)
        }
        Err(stop) => Err(stop),
    }
}
