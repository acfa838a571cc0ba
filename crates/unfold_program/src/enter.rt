// What a definition and a loop begin with, and the names of a turn.
ghost use Rattle.std.specs.Prelude.{◌≡◌, IfErr, IfOk};
ghost use Rattle.fut_flat.specs.Erased.{pattern_of};
ghost use Rattle.unfold.specs.Held.{known_of, scope_of};
ghost use Rattle.unfold.specs.Unfolding.{named};
ghost use Rattle.unfold_parts.specs.States.{steps_of};
ghost use Rattle.unfold_parts.specs.Told.{Sees};
ghost use Rattle.unfold_parts.specs.declared.refusal.Refusal.TheVariants as refusal;
ghost use Rattle.unfold_program.specs.Answers.{Entered_to, Row_bound_to, Scalar_to, Turn_bound_to};

use crate::walked::{Entered, Walked, WalkedScalar};
use bumpalo::Bump;
use fut_blocks::Atom;
use fut_flat::Pat;
use fut_scalar::BindId;
use told_rows::Sizes;
use unfold::{Known, KnownForm, Scope};
use unfold_parts::{Refusal, Unfolding, bind, bound, lay};

/// The atom of a scalar that has been walked.
pub fn scalar_of(walked: &Walked<'_>) -> Result<WalkedScalar, Refusal>
    ensures { Scalar_to walked.now result }
{
    match walked.known.form {
        KnownForm::Scalar(atom) => Ok(WalkedScalar {
            atom,
            at: walked.at,
        }),
        _ => Err(Refusal::Lost),
    }
}

/// A first value in components, and new names for its parameters.
#[inline(never)]
pub fn enter<'a>(known: &Known<'a>, state: &mut Unfolding<'a>) -> Result<Entered<'a>, Refusal>
    ensures entered { Entered_to (known_of known.now) state.old.next state.new.next result }
    ensures steps { steps_of state.new ≡ steps_of state.old }
{
    let first = match lay(state.bump, *known, *known) {
        Ok(first) => first,
        Err(refusal) => return Err(refusal),
    };
    match state.fresh(*known) {
        Ok(made) => Ok(Entered {
            first,
            params: made.names,
            known: made.known,
        }),
        Err(refusal) => Err(refusal),
    }
}

fn named<'a>(name: u32) -> Known<'a>
    ensures { known_of result ≡ named name }
{
    Known {
        form: KnownForm::Scalar(Atom::Name(name)),
    }
}

/// The names of a counted turn, whose number has the name `name`. The node of the loop's pattern has the number `at`, that of
/// the index the number `counter`.
#[inline(never)]
pub fn bind_turn<'a>(
    sizes: Option<&'a Sizes<'a>>,
    at: u32,
    pat: &'a Pat<'a>,
    counter: u32,
    index: BindId,
    name: u32,
    scope: Scope<'a>,
    known: &Known<'a>,
    state: &mut Unfolding<'a>,
) -> Result<Scope<'a>, Refusal>
    ensures { Turn_bound_to sizes.entry at (pattern_of pat.now) counter index name (scope_of scope.entry) (known_of known.now) state.old state.new result }
{
    let inside = match bind(state, sizes, at, pat, *known, scope) {
        Ok(inside) => inside,
        Err(refusal) => return Err(refusal),
    };
    let turn = named(name);
    let entered = match told_rows::enter(sizes, counter, &turn, inside, state.bump) {
        Ok(entered) => entered,
        Err(_) => return Err(Refusal::Memory),
    };
    bound(state.bump, index, turn, entered)
}

/// The names of a turn for a row, which has the name `name`. The node of the loop's pattern has the number `at`, that of the
/// row's the number `row_at`.
#[inline(never)]
pub fn bind_row<'a>(
    sizes: Option<&'a Sizes<'a>>,
    at: u32,
    pat: &'a Pat<'a>,
    row_at: u32,
    row: &'a Pat<'a>,
    name: u32,
    scope: Scope<'a>,
    known: &Known<'a>,
    state: &mut Unfolding<'a>,
) -> Result<Scope<'a>, Refusal>
    ensures { Row_bound_to sizes.entry at (pattern_of pat.now) row_at (pattern_of row.now) name (scope_of scope.entry) (known_of known.now) state.old state.new result }
{
    let inside = match bind(state, sizes, at, pat, *known, scope) {
        Ok(inside) => inside,
        Err(refusal) => return Err(refusal),
    };
    bind(state, sizes, row_at, row, named(name), inside)
}

/// What the definition behind one begins with, whose name has the node `node`: data is entered below all names.
pub fn see<'a>(
    sizes: Option<&'a Sizes<'a>>,
    node: u32,
    known: &Known<'a>,
    seen: Scope<'a>,
    bump: &'a Bump,
) -> Result<Scope<'a>, Refusal>
    ensures ok { IfOk result (λ next. Sees sizes.entry node (known_of known.now) (scope_of seen.entry) (scope_of next)) }
    ensures err { IfErr result (λ r. r ≡ refusal.Memory) }
{
    match known.form {
        KnownForm::Function(_) => Ok(seen),
        KnownForm::Primitive(_, _, _) => Ok(seen),
        _ => match told_rows::enter(sizes, node, known, seen, bump) {
            Ok(next) => Ok(next),
            Err(_) => Err(Refusal::Memory),
        },
    }
}
