// Local names.
ghost use Rattle.std.specs.Prelude.{◌≡◌, IfErr, IfOk};
ghost use Rattle.unfold.specs.Held.{known_of, names_of, scope_of};
ghost use Rattle.unfold.specs.Knowns.{branch, local, name_and, name_by, nothing_seen};
ghost use Rattle.unfold_parts.specs.Held.{maybe_held};
ghost use Rattle.unfold_parts.specs.declared.refusal.Refusal.TheVariants as refusal;

use crate::refusal::Refusal;
use bumpalo::Bump;
use fut_scalar::BindId;
use std::slice;
use unfold::{Entered, Known, Names, Scope};

static NO_NAME: Names<'static> = Names::Empty;

static NOT_ENTERED: Entered<'static> = Entered::Nothing;

/// No names.
#[tactic(auto, using(unfold::proofs::Mirror::mirrors))]
pub fn nothing<'a>() -> Scope<'a>
    ensures { scope_of result ≡ nothing_seen }
{
    Scope {
        names: &NO_NAME,
        entered: &NOT_ENTERED,
    }
}

/// What is known of a local name.
#[tactic(auto, using(crate::proofs::Finding::finding))]
pub fn find<'a>(scope: Scope<'a>, number: BindId) -> Option<&'a Known<'a>>
    ensures { maybe_held result ≡ local (scope_of scope.entry) number.0 }
{
    let mut current = scope.names;
    let mut digits = number.0;
    while let Names::Bind(bind, known, even, odd) = current {
        if bind.0 == number.0 {
            return Some(known);
        }
        if digits % 2 == 1 {
            current = *odd;
        } else {
            current = *even;
        }
        digits /= 2;
    }
    None
}

/// The names with one more.
#[tactic(auto, using(crate::proofs::Finding::binding))]
pub fn bound<'a>(
    bump: &'a Bump,
    bind: BindId,
    known: Known<'a>,
    scope: Scope<'a>,
) -> Result<Scope<'a>, Refusal>
    ensures ok { IfOk result (λ inner. scope_of inner ≡ name_and bind (known_of known.entry) (scope_of scope.entry)) }
    ensures err { IfErr result (λ r. r ≡ refusal.Memory) }
{
    match bound_by(bump, bind.0, bind, known, scope.names) {
        Ok(names) => Ok(Scope {
            names,
            entered: scope.entered,
        }),
        Err(refusal) => Err(refusal),
    }
}

// The names with one more, of whose number these digits are left. Two numbers differ in one of their 32 digits, so this goes at
// most as deep as that.
#[tactic(auto, using(crate::proofs::Finding::binding))]
fn bound_by<'a>(
    bump: &'a Bump,
    digits: u32,
    bind: BindId,
    known: Known<'a>,
    names: &'a Names<'a>,
) -> Result<&'a Names<'a>, Refusal>
    ensures ok { IfOk result (λ inner. names_of inner.now ≡ name_by digits bind (known_of known.entry) (names_of names.now)) }
    ensures err { IfErr result (λ r. r ≡ refusal.Memory) }
{
    let Names::Bind(other, held, even, odd) = *names else {
        return root(bump, bind, known, names, names);
    };
    if other.0 == bind.0 {
        root(bump, bind, known, even, odd)
    } else if digits % 2 == 1 {
        match bound_by(bump, digits / 2, bind, known, odd) {
            Ok(odd) => root(bump, other, held, even, odd),
            Err(refusal) => Err(refusal),
        }
    } else {
        match bound_by(bump, digits / 2, bind, known, even) {
            Ok(even) => root(bump, other, held, even, odd),
            Err(refusal) => Err(refusal),
        }
    }
}

// A name with those below it.
#[tactic(auto, using(unfold::proofs::Mirror::mirrors))]
fn root<'a>(
    bump: &'a Bump,
    bind: BindId,
    known: Known<'a>,
    even: &'a Names<'a>,
    odd: &'a Names<'a>,
) -> Result<&'a Names<'a>, Refusal>
    ensures ok { IfOk result (λ inner. names_of inner.now ≡ branch bind (known_of known.entry) (names_of even.now) (names_of odd.now)) }
    ensures err { IfErr result (λ r. r ≡ refusal.Memory) }
{
    let inner = Names::Bind(bind, known, even, odd);
    match bump.try_alloc_slice_copy(slice::from_ref(&inner)) {
        Ok(cells) => {
            let cells: &'a [Names<'a>] = cells;
            Ok(&cells[0])
        }
        Err(_) => Err(Refusal::Memory),
    }
}
