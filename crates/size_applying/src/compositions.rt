// Compositions.
ghost use Rattle.std.specs.Prelude.{◌≡◌, ◌<◌, ℕ, IfOk, None, false, length, map, true};
ghost use Rattle.fut_flat.specs.Erased.{lets, pattern_of, patterns, term_of};
ghost use Rattle.fut_flat.specs.Terms.{Apply, Lambda, Use};
ghost use Rattle.fut_flat.proofs.ErasedForms.{row_of};
ghost use Rattle.fut_sizes.specs.Compositions.{composed_body, composed_lambda, composed_second, composing, if_so, is_place, is_use_of};
ghost use Rattle.sized_types.specs.Sizes.{Fun};
ghost use Rattle.size_arena.specs.Trees.{size_of, type_of};
ghost use Rattle.size_applying.specs.Composed.{Bare, Composes, Composes_let, is_name, pattern_name};

use bumpalo::Bump;
use fut_flat::{Exp, Form, Let, Pat, PatForm, Ref};
use fut_scalar::{NoMemory, Place};
use size_arena::{SizeTree, TypeTree, Variable, function, open};

/// A composition behind its first let.
#[derive(Clone, Copy)]
pub struct Composition<'a> {
    /// What it applies first: the left function or the right one.
    pub left_first: bool,
    /// The let of the right function.
    pub second: &'a Let<'a>,
    pub lambda: &'a Exp<'a>,
}

fn is_place(one: Place, other: Place) -> bool
    ensures { result ≡ is_place one other }
{
    one.file == other.file && (one.line == other.line && one.column == other.column)
}

/// An expression without the rows of no `let`s around it.
#[tactic(auto, using(crate::proofs::ComposedForms::bares))]
fn bare<'a>(exp: &'a Exp<'a>) -> &'a Exp<'a>
    ensures same { term_of result.now ≡ term_of exp.now }
    ensures bare { Bare result.now }
{
    match exp.form {
        Form::Lets(row, body) => { if row.len() == 0 { bare(body) } else { exp } }
        Form::Use(_, _) => exp,
        Form::Strict { .. } => exp,
        Form::Lambda(_, _) => exp,
        Form::Apply(_, _) => exp,
        Form::If(_, _, _) => exp,
        Form::Loop(_) => exp,
    }
}

/// Whether a use is of a name.
fn is_name(name: u32, used: Ref) -> bool
    ensures { result ≡ is_name name used }
{
    match used {
        Ref::Bound(bind) => name == bind.0,
        Ref::Prim(_) => false,
        Ref::Scalar(_) => false,
    }
}

/// Whether an expression is the use of a name at a place.
fn is_use_of<'a>(name: u32, place: Place, exp: &'a Exp<'a>) -> bool
    ensures { result ≡ is_use_of name place (term_of exp.now) }
{
    let exp = bare(exp);
    match exp.form {
        Form::Use(used, _) => {
            let named = is_name(name, used);
            let there = is_place(place, exp.place);
            named && there
        }
        Form::Strict { .. } => false,
        Form::Lambda(_, _) => false,
        Form::Apply(_, _) => false,
        Form::Lets(_, _) => false,
        Form::If(_, _, _) => false,
        Form::Loop(_) => false,
    }
}

/// The names of a composition: of the left function, the right one, and the lambda's parameter.
#[derive(Clone, Copy)]
struct Parts {
    left: u32,
    right: u32,
    parameter: u32,
}

/// What a composition applies first, if it is one: whether that is the left function, or the right one.
fn first_of(is_left: bool, is_right: bool) -> Option<bool>
    ensures { result ≡ if_so is_left true (if_so is_right false None) }
{
    if is_left {
        return Some(true);
    }
    if is_right { Some(false) } else { None }
}

/// What a composition applies first whose lambda applies a name to an application.
#[tactic(auto, using(crate::proofs::ComposedForms::orders))]
fn order_of<'a>(
    parts: Parts,
    head: Ref,
    at: Place,
    next: &'a Exp<'a>,
    last: &'a Exp<'a>,
) -> Option<bool>
    ensures { (k : ℕ) → result ≡ composed_body parts.left parts.right parts.parameter (Apply (Use head at k) (Apply (term_of next.now) (term_of last.now))) }
{
    let left_inside = is_use_of(parts.left, at, next);
    let right_inside = is_use_of(parts.right, at, next);
    let of_parameter = is_use_of(parts.parameter, at, last);
    let right_outside = is_name(parts.right, head);
    let left_outside = is_name(parts.left, head);
    first_of(
        right_outside && (left_inside && of_parameter),
        left_outside && (right_inside && of_parameter),
    )
}

/// The same where a name is applied to this.
fn inner_order<'a>(parts: Parts, head: Ref, at: Place, inner: &'a Exp<'a>) -> Option<bool>
    ensures { (k : ℕ) → result ≡ composed_body parts.left parts.right parts.parameter (Apply (Use head at k) (term_of inner.now)) }
{
    match bare(inner).form {
        Form::Apply(next, last) => order_of(parts, head, at, next, last),
        Form::Use(_, _) => None,
        Form::Strict { .. } => None,
        Form::Lambda(_, _) => None,
        Form::Lets(_, _) => None,
        Form::If(_, _, _) => None,
        Form::Loop(_) => None,
    }
}

/// The same where this is applied to that.
fn outer_order<'a>(parts: Parts, outer: &'a Exp<'a>, inner: &'a Exp<'a>) -> Option<bool>
    ensures { result ≡ composed_body parts.left parts.right parts.parameter (Apply (term_of outer.now) (term_of inner.now)) }
{
    let outer = bare(outer);
    match outer.form {
        Form::Use(head, _) => inner_order(parts, head, outer.place, inner),
        Form::Strict { .. } => None,
        Form::Lambda(_, _) => None,
        Form::Apply(_, _) => None,
        Form::Lets(_, _) => None,
        Form::If(_, _, _) => None,
        Form::Loop(_) => None,
    }
}

/// What a composition applies first whose lambda has this body.
fn body_order<'a>(parts: Parts, body: &'a Exp<'a>) -> Option<bool>
    ensures { result ≡ composed_body parts.left parts.right parts.parameter (term_of body.now) }
{
    match bare(body).form {
        Form::Apply(outer, inner) => outer_order(parts, outer, inner),
        Form::Use(_, _) => None,
        Form::Strict { .. } => None,
        Form::Lambda(_, _) => None,
        Form::Lets(_, _) => None,
        Form::If(_, _, _) => None,
        Form::Loop(_) => None,
    }
}

/// The name that a pattern is.
#[tactic(auto, using(crate::proofs::ComposedForms::names))]
fn name_of(pat: &Pat<'_>) -> Option<u32>
    ensures { result ≡ pattern_name (pattern_of pat.now) }
{
    match pat.form {
        PatForm::Bound(bind) => Some(bind.0),
        PatForm::Wild => None,
        PatForm::Tuple(_) => None,
        PatForm::Record(_) => None,
        PatForm::Typed(_, _) => None,
    }
}

/// What a composition of two functions of these names applies first whose lambda takes these parameters.
#[tactic(auto, using(crate::proofs::ComposedForms::parameter_orders))]
fn parameter_order<'a>(left: u32, right: u32, pats: &[Pat<'_>], body: &'a Exp<'a>) -> Option<bool>
    ensures { result ≡ composed_lambda left right (Lambda (patterns (map pattern_of pats.now)) (term_of body.now)) }
{
    if pats.len() != 1 {
        return None;
    }
    match name_of(&pats[0]) {
        Some(parameter) => body_order(
            Parts {
                left,
                right,
                parameter,
            },
            body,
        ),
        None => None,
    }
}

/// The same of what stands behind the `let`s of two functions of these names.
fn lambda_order<'a>(left: u32, right: u32, exp: &'a Exp<'a>) -> Option<bool>
    ensures { result ≡ composed_lambda left right (term_of exp.now) }
{
    match bare(exp).form {
        Form::Lambda(pats, body) => parameter_order(left, right, pats, body),
        Form::Use(_, _) => None,
        Form::Strict { .. } => None,
        Form::Apply(_, _) => None,
        Form::Lets(_, _) => None,
        Form::If(_, _, _) => None,
        Form::Loop(_) => None,
    }
}

/// The same behind the `let` of the right function.
#[tactic(auto, using(crate::proofs::ComposedForms::second_orders))]
fn second_order<'a>(left: u32, pat: &Pat<'_>, exp: &'a Exp<'a>) -> Option<bool>
    ensures { result ≡ composed_second left (pattern_of pat.now) (term_of exp.now) }
{
    match name_of(pat) {
        Some(right) => lambda_order(left, right, exp),
        None => None,
    }
}

/// A composition whose left function has this name, and behind whose `let` stand these and a body.
#[tactic(auto, using(crate::proofs::ComposedForms::row_compositions))]
fn composition_in<'a>(left: u32, row: &'a [Let<'a>], body: &'a Exp<'a>) -> Option<Composition<'a>>
    requires { 0 < length row.now }
    ensures { Composes_let left (lets (map row_of row.now) (term_of body.now)) result }
{
    if row.len() != 1 {
        return None;
    }
    let second = &row[0];
    match second_order(left, &second.pat, body) {
        Some(left_first) => Some(Composition {
            left_first,
            second,
            lambda: body,
        }),
        None => None,
    }
}

/// The same where only this stands behind the first `let`.
fn composition_under<'a>(left: u32, exp: &'a Exp<'a>) -> Option<Composition<'a>>
    ensures { Composes_let left (term_of exp.now) result }
{
    match bare(exp).form {
        Form::Lets(row, body) => composition_in(left, row, body),
        Form::Use(_, _) => None,
        Form::Strict { .. } => None,
        Form::Lambda(_, _) => None,
        Form::Apply(_, _) => None,
        Form::If(_, _, _) => None,
        Form::Loop(_) => None,
    }
}

/// Whether a `let`, those behind it in its row, and the body are a composition.
#[tactic(auto, using(crate::proofs::ComposedForms::compositions))]
pub fn composition_of<'a>(
    one: &'a Let<'a>,
    rest: &'a [Let<'a>],
    body: &'a Exp<'a>,
) -> Option<Composition<'a>>
    ensures { Composes (row_of one.now).0 (lets (map row_of rest.now) (term_of body.now)) result }
{
    match name_of(&one.pat) {
        Some(left) => {
            if rest.len() == 0 {
                composition_under(left, body)
            } else {
                composition_in(left, rest, body)
            }
        }
        None => None,
    }
}

/// A function of one parameter that chooses no size.
fn plain<'a>(
    bump: &'a Bump,
    from: &'a SizeTree<'a>,
    to: &'a SizeTree<'a>,
) -> Result<&'a SizeTree<'a>, NoMemory>
    ensures { IfOk result (λ made. size_of made.now ≡ Fun 0 (size_of from.now) (size_of to.now)) }
{
    function(bump, 0, from, to)
}

/// What composes at a node, where the types are those of what is taken, of what is between, and of what is given.
pub fn composing<'a>(
    left_first: bool,
    node: u32,
    taken: &'a TypeTree<'a>,
    between: &'a TypeTree<'a>,
    given: &'a TypeTree<'a>,
    bump: &'a Bump,
) -> Result<&'a SizeTree<'a>, NoMemory>
    ensures { IfOk result (λ made. size_of made.now ≡ composing left_first node (type_of taken.now) (type_of between.now) (type_of given.now)) }
{
    let first = open(bump, node, Variable::Inferred(0), taken)?;
    let middle = open(bump, node, Variable::Inferred(1), between)?;
    let last = open(bump, node, Variable::Inferred(2), given)?;
    let left = plain(bump, first, middle)?;
    let right = plain(bump, middle, last)?;
    let whole = plain(bump, first, last)?;
    if left_first {
        let inner = plain(bump, right, whole)?;
        plain(bump, left, inner)
    } else {
        let inner = plain(bump, left, whole)?;
        plain(bump, right, inner)
    }
}
