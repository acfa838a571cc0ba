// Expressions.
ghost use Rattle.std.specs.Prelude.{◌≡◌, [], ◌∷◌, map};
ghost use Rattle.fut_flat.specs.Erased.{operation_of, pattern_of, patterns, term_of, terms};
ghost use Rattle.fut_flat.specs.Terms.{Apply, If, Lambda, Strict, no_term, term_and};
ghost use Rattle.elab_nodes.specs.Built.{Built0, Built1, Built2, Built3};

use crate::both::both;
use bumpalo::Bump;
use elab_scopes::Stop;
use fut_flat::{Act, Exp, Form, Pat};
use fut_scalar::Place;

/// An expression that the arena holds.
pub fn node<'a>(bump: &'a Bump, place: Place, form: Form<'a>) -> Result<&'a Exp<'a>, Stop<'a>>
    ensures { Built0 (λ x. x.now ≡ record { place = place; form = form.entry }) result }
{
    match bump.try_alloc(Exp { place, form }) {
        Ok(made) => Ok(made),
        Err(_) => Err(Stop::Memory),
    }
}

// ---- parts

fn held_list<'a>(bump: &'a Bump, parts: &[Exp<'a>]) -> Result<&'a [Exp<'a>], Stop<'a>>
    ensures { Built0 (λ es. es.now ≡ parts.now) result }
{
    match bump.try_alloc_slice_copy(parts) {
        Ok(parts) => Ok(parts),
        Err(_) => Err(Stop::Memory),
    }
}

/// One part.
pub fn one<'a>(
    bump: &'a Bump,
    part: Result<&'a Exp<'a>, Stop<'a>>,
) -> Result<&'a [Exp<'a>], Stop<'a>>
    ensures { Built1 (λ e es. es.now ≡ e.now ∷ []) part.entry result }
{
    match part {
        Ok(part) => held_list(bump, &[*part]),
        Err(stop) => Err(stop),
    }
}

/// Two parts.
pub fn two<'a>(
    bump: &'a Bump,
    first: Result<&'a Exp<'a>, Stop<'a>>,
    second: Result<&'a Exp<'a>, Stop<'a>>,
) -> Result<&'a [Exp<'a>], Stop<'a>>
    ensures { Built2 (λ e f es. es.now ≡ e.now ∷ f.now ∷ []) first.entry second.entry result }
{
    match both(first, second) {
        Ok((first, second)) => held_list(bump, &[*first, *second]),
        Err(stop) => Err(stop),
    }
}

// ---- forms

/// An operation on parts.
pub fn strict<'a>(
    bump: &'a Bump,
    place: Place,
    mark: Place,
    act: Act<'a>,
    parts: Result<&'a [Exp<'a>], Stop<'a>>,
) -> Result<&'a Exp<'a>, Stop<'a>>
    ensures { Built1 (λ es x. term_of x.now ≡ Strict (operation_of act.entry) mark (terms (map term_of es.now))) parts.entry result }
{
    match parts {
        Ok(parts) => node(bump, place, Form::Strict { act, mark, parts }),
        Err(stop) => Err(stop),
    }
}

/// An operation on one part.
pub fn on_part<'a>(
    bump: &'a Bump,
    place: Place,
    mark: Place,
    act: Act<'a>,
    part: Result<&'a Exp<'a>, Stop<'a>>,
) -> Result<&'a Exp<'a>, Stop<'a>>
    ensures { Built1 (λ e x. term_of x.now ≡ Strict (operation_of act.entry) mark (term_and (term_of e.now) no_term)) part.entry result }
{
    strict(bump, place, mark, act, one(bump, part))
}

/// A function.
pub fn lambda<'a>(
    bump: &'a Bump,
    place: Place,
    params: Result<&'a [Pat<'a>], Stop<'a>>,
    body: Result<&'a Exp<'a>, Stop<'a>>,
) -> Result<&'a Exp<'a>, Stop<'a>>
    ensures { Built2 (λ ps e x. term_of x.now ≡ Lambda (patterns (map pattern_of ps.now)) (term_of e.now)) params.entry body.entry result }
{
    match both(params, body) {
        Ok((params, body)) => node(bump, place, Form::Lambda(params, body)),
        Err(stop) => Err(stop),
    }
}

/// An application.
pub fn applied<'a>(
    bump: &'a Bump,
    place: Place,
    function: Result<&'a Exp<'a>, Stop<'a>>,
    argument: Result<&'a Exp<'a>, Stop<'a>>,
) -> Result<&'a Exp<'a>, Stop<'a>>
    ensures { Built2 (λ f e x. term_of x.now ≡ Apply (term_of f.now) (term_of e.now)) function.entry argument.entry result }
{
    match both(function, argument) {
        Ok((function, argument)) => node(bump, place, Form::Apply(function, argument)),
        Err(stop) => Err(stop),
    }
}

/// An application whose function stands behind its argument.
pub fn applied_behind<'a>(
    bump: &'a Bump,
    place: Place,
    argument: Result<&'a Exp<'a>, Stop<'a>>,
    function: Result<&'a Exp<'a>, Stop<'a>>,
) -> Result<&'a Exp<'a>, Stop<'a>>
    ensures { Built2 (λ e f x. term_of x.now ≡ Apply (term_of f.now) (term_of e.now)) argument.entry function.entry result }
{
    match both(argument, function) {
        Ok((argument, function)) => node(bump, place, Form::Apply(function, argument)),
        Err(stop) => Err(stop),
    }
}

/// A choice.
pub fn choice<'a>(
    bump: &'a Bump,
    place: Place,
    test: Result<&'a Exp<'a>, Stop<'a>>,
    yes: Result<&'a Exp<'a>, Stop<'a>>,
    no: Result<&'a Exp<'a>, Stop<'a>>,
) -> Result<&'a Exp<'a>, Stop<'a>>
    ensures { Built3 (λ c a b x. term_of x.now ≡ If (term_of c.now) (term_of a.now) (term_of b.now)) test.entry yes.entry no.entry result }
{
    match test {
        Ok(test) => match both(yes, no) {
            Ok((yes, no)) => node(bump, place, Form::If(test, yes, no)),
            Err(stop) => Err(stop),
        },
        Err(stop) => Err(stop),
    }
}
