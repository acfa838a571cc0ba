// Expressions with written types.
ghost use Rattle.std.specs.Prelude.{◌≡◌};
ghost use Rattle.fut_flat.specs.Erased.{term_of, type_of};
ghost use Rattle.fut_flat.specs.Terms.{Ascribe, Coerce, Declared, Strict, no_term, term_and};
ghost use Rattle.elab_nodes.specs.Built.{Built2};

use crate::both::both;
use crate::exps::on_part;
use bumpalo::Bump;
use elab_scopes::Stop;
use fut_flat::{Act, Exp, TypeExp};
use fut_scalar::Place;

/// `e : t`
pub fn ascribed<'a>(
    bump: &'a Bump,
    place: Place,
    mark: Place,
    part: Result<&'a Exp<'a>, Stop<'a>>,
    ty: Result<&'a TypeExp<'a>, Stop<'a>>,
) -> Result<&'a Exp<'a>, Stop<'a>>
    ensures { Built2 (λ e t x. term_of x.now ≡ Strict (Ascribe (type_of t.now)) mark (term_and (term_of e.now) no_term)) part.entry ty.entry result }
{
    match both(part, ty) {
        Ok((part, ty)) => on_part(bump, place, mark, Act::Ascribe(ty), Ok(part)),
        Err(stop) => Err(stop),
    }
}

/// `e :> t`
pub fn coerced<'a>(
    bump: &'a Bump,
    place: Place,
    mark: Place,
    part: Result<&'a Exp<'a>, Stop<'a>>,
    ty: Result<&'a TypeExp<'a>, Stop<'a>>,
) -> Result<&'a Exp<'a>, Stop<'a>>
    ensures { Built2 (λ e t x. term_of x.now ≡ Strict (Coerce (type_of t.now)) mark (term_and (term_of e.now) no_term)) part.entry ty.entry result }
{
    match both(part, ty) {
        Ok((part, ty)) => on_part(bump, place, mark, Act::Coerce(ty), Ok(part)),
        Err(stop) => Err(stop),
    }
}

/// A function's body with the declared type of its result, which stands before it.
pub fn declared<'a>(
    bump: &'a Bump,
    place: Place,
    ty: Result<&'a TypeExp<'a>, Stop<'a>>,
    body: Result<&'a Exp<'a>, Stop<'a>>,
) -> Result<&'a Exp<'a>, Stop<'a>>
    ensures { Built2 (λ t e x. term_of x.now ≡ Strict (Declared (type_of t.now)) place (term_and (term_of e.now) no_term)) ty.entry body.entry result }
{
    match both(ty, body) {
        Ok((ty, body)) => on_part(bump, place, place, Act::Declared(ty), Ok(body)),
        Err(stop) => Err(stop),
    }
}
