// Local names.
ghost use Rattle.std.specs.Prelude.{◌≡◌, IfOk, IfErr, map};
ghost use Rattle.fut_flat.specs.Erased.{pattern_of, patterns, term_of};
ghost use Rattle.fut_meaning.specs.Knowns.{Known_function, branch, empty, find, known_as, known_by};
ghost use Rattle.unfold_measure.specs.Held.{known_of, scope_of, maybe_known};
ghost use Rattle.unfold_measure.specs.declared.stop.Stop.TheVariants as stop;

use crate::known::{Closure, Known, KnownForm, Scope, held};
use crate::stop::Stop;
use bumpalo::Bump;
use fut_flat::{Exp, Pat};
use fut_scalar::BindId;

/// What is known of a local name.
#[tactic(auto, using(crate::proofs::Finding::finding))]
pub fn find<'a>(scope: &'a Scope<'a>, number: BindId) -> Option<Known<'a>>
    ensures { maybe_known result ≡ find (scope_of scope.now) number.0 }
{
    let mut current = *scope;
    let mut digits = number.0;
    while let Scope::Bind(bind, known, even, odd) = current {
        if bind.0 == number.0 {
            return Some(known);
        }
        if digits % 2 == 1 {
            current = *odd;
        } else {
            current = *even;
        }
        digits /= 2;
    }
    None
}

static NO_SCOPE: Scope<'static> = Scope::Empty;

/// No names.
pub fn no_scope<'a>() -> &'a Scope<'a>
    ensures { scope_of result.now ≡ empty }
{
    &NO_SCOPE
}

/// The names with one more.
#[tactic(auto, using(crate::proofs::Finding::binding))]
pub fn bound<'a>(
    bump: &'a Bump,
    bind: BindId,
    known: Known<'a>,
    scope: &'a Scope<'a>,
) -> Result<&'a Scope<'a>, Stop>
    ensures ok { IfOk result (λ inner. scope_of inner.now ≡ known_as bind (known_of known.entry) (scope_of scope.now)) }
    ensures err { IfErr result (λ e. e ≡ stop.Memory) }
{
    bound_by(bump, bind.0, bind, known, scope)
}

// The names with one more, of whose number these digits are left. Two numbers differ in one of their 32 digits, so this goes at
// most as deep as that.
#[tactic(auto, using(crate::proofs::Finding::binding))]
fn bound_by<'a>(
    bump: &'a Bump,
    digits: u32,
    bind: BindId,
    known: Known<'a>,
    scope: &'a Scope<'a>,
) -> Result<&'a Scope<'a>, Stop>
    ensures ok { IfOk result (λ inner. scope_of inner.now ≡ known_by digits bind (known_of known.entry) (scope_of scope.now)) }
    ensures err { IfErr result (λ e. e ≡ stop.Memory) }
{
    let Scope::Bind(other, held, even, odd) = *scope else {
        return root(bump, bind, known, scope, scope);
    };
    if other.0 == bind.0 {
        root(bump, bind, known, even, odd)
    } else if digits % 2 == 1 {
        match bound_by(bump, digits / 2, bind, known, odd) {
            Ok(odd) => root(bump, other, held, even, odd),
            Err(stop) => Err(stop),
        }
    } else {
        match bound_by(bump, digits / 2, bind, known, even) {
            Ok(even) => root(bump, other, held, even, odd),
            Err(stop) => Err(stop),
        }
    }
}

// A name with those below it.
fn root<'a>(
    bump: &'a Bump,
    bind: BindId,
    known: Known<'a>,
    even: &'a Scope<'a>,
    odd: &'a Scope<'a>,
) -> Result<&'a Scope<'a>, Stop>
    ensures ok { IfOk result (λ inner. scope_of inner.now ≡ branch bind (known_of known.entry) (scope_of even.now) (scope_of odd.now)) }
    ensures err { IfErr result (λ e. e ≡ stop.Memory) }
{
    match bump.try_alloc(Scope::Bind(bind, known, even, odd)) {
        Ok(inner) => Ok(inner),
        Err(_) => Err(Stop::Memory),
    }
}

/// A function with the names that it captures.
pub fn captured<'a>(
    bump: &'a Bump,
    params: &'a [Pat<'a>],
    body: &'a Exp<'a>,
    scope: &'a Scope<'a>,
) -> Result<Known<'a>, Stop>
    ensures ok { IfOk result (λ known. known_of known ≡ Known_function (patterns (map pattern_of params.now)) (term_of body.now) (scope_of scope.now)) }
    ensures err { IfErr result (λ e. e ≡ stop.Memory) }
{
    match bump.try_alloc(Closure {
        params,
        body,
        scope,
    }) {
        Ok(closure) => held(bump, KnownForm::Function(closure)),
        Err(_) => Err(Stop::Memory),
    }
}
