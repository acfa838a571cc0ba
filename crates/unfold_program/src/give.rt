// What does not walk on: steps and blocks that give data, operations, uses and arguments.
ghost use Rattle.std.specs.Prelude.{◌≡◌, ◌≤◌, IfErr, IfOk, length, true};
ghost use Rattle.fut_blocks.specs.Plain.{For, If, Over, While, action_of, body_of};
ghost use Rattle.fut_blocks.specs.declared.block.Atom.TheVariants as atom;
ghost use Rattle.fut_flat.specs.Erased.{operation_of};
ghost use Rattle.fut_scalar.specs.declared.scalar.Scalar.TheVariants as scalar;
ghost use Rattle.unfold.specs.Held.{known_of, scope_of};
ghost use Rattle.unfold.specs.Knowns.{Scalar_known};
ghost use Rattle.unfold_parts.specs.Answers.{Cut};
ghost use Rattle.unfold_parts.specs.declared.refusal.Refusal.TheVariants as refusal;
ghost use Rattle.unfold_parts.specs.States.{steps_of};
ghost use Rattle.unfold_parts.specs.Tables.{Kept};
ghost use Rattle.unfold_program.specs.Answers.{Argued, Asked, Closed_to, Operated_to, Packed_closed, Packed_walk, Scalar_closed, Stepped_to, Use_known, Walked_to, agreed, is_component, node_of, written};

use crate::walked::{Branch, Context, Entered, MOST_GIVEN, Parts, Shapes, Walked, WalkedScalar};
use flat_numbers::{after_exp, after_patterns};
use fut_blocks::{Act, Atom, Step};
use fut_flat::{Act as Operation, Exp, Ref};
use fut_scalar::{Place, Scalar};
use told_rows::Sizes;
use unfold::{Function, Known, KnownForm, Scope};
use unfold_parts::{Refusal, Told, Unfolding, bind, lay, operate, pack, used};

// One more step, which gives data of the shape of `like` under new names. The node behind it has the number `at`. It always
// gives something.
fn give<'a>(
    state: &mut Unfolding<'a>,
    like: &Known<'a>,
    act: Act<'a>,
    at: u32,
    walked: &mut Walked<'a>,
) -> Result<Shapes, Refusal>
    ensures { Stepped_to (known_of like.now) (action_of act.entry) at state.old state.new (agreed result walked.new) }
{
    let made = match state.fresh(*like) {
        Ok(made) => made,
        Err(refusal) => return Err(refusal),
    };
    match state.push(Step {
        names: made.names,
        act,
    }) {
        Ok(()) => {
            *walked = Walked {
                known: made.known,
                at,
            };
            Ok(Shapes::Agree)
        }
        Err(refusal) => Err(refusal),
    }
}

/// One more step, which chooses between two blocks.
#[inline(never)]
pub fn give_choice<'a>(
    state: &mut Unfolding<'a>,
    like: &Known<'a>,
    truth: &WalkedScalar,
    yes: &Branch<'a>,
    no: &Branch<'a>,
    walked: &mut Walked<'a>,
) -> Result<Shapes, Refusal>
    ensures { Stepped_to (known_of like.now) (If truth.now.atom (body_of yes.now.block.now) (body_of no.now.block.now)) no.now.at state.old state.new (agreed result walked.new) }
{
    give(
        state,
        like,
        Act::If(truth.atom, yes.block, no.block),
        no.at,
        walked,
    )
}

/// One more step, which takes so many turns. The index has the name `index`.
#[inline(never)]
pub fn give_counted<'a>(
    state: &mut Unfolding<'a>,
    like: &Known<'a>,
    entered: &Entered<'a>,
    index: u32,
    count: &WalkedScalar,
    body: &Branch<'a>,
    walked: &mut Walked<'a>,
) -> Result<Shapes, Refusal>
    ensures { Stepped_to (known_of like.now) (For entered.now.params.now entered.now.first.now index count.now.atom (body_of body.now.block.now)) body.now.at state.old state.new (agreed result walked.new) }
{
    let act = Act::For {
        params: entered.params,
        first: entered.first,
        index,
        count: count.atom,
        body: body.block,
    };
    give(state, like, act, body.at, walked)
}

/// One more step, which takes a turn for each row. The row has the name `row`.
#[inline(never)]
pub fn give_rows<'a>(
    state: &mut Unfolding<'a>,
    like: &Known<'a>,
    entered: &Entered<'a>,
    row: u32,
    rows: &WalkedScalar,
    body: &Branch<'a>,
    walked: &mut Walked<'a>,
) -> Result<Shapes, Refusal>
    ensures { Stepped_to (known_of like.now) (Over entered.now.params.now entered.now.first.now row rows.now.atom (body_of body.now.block.now)) body.now.at state.old state.new (agreed result walked.new) }
{
    let act = Act::ForEach {
        params: entered.params,
        first: entered.first,
        row,
        rows: rows.atom,
        body: body.block,
    };
    give(state, like, act, body.at, walked)
}

/// One more step, which takes turns while a test holds. It reports at `place`.
#[inline(never)]
pub fn give_while<'a>(
    state: &mut Unfolding<'a>,
    like: &Known<'a>,
    place: Place,
    entered: &Entered<'a>,
    test: &Branch<'a>,
    body: &Branch<'a>,
    walked: &mut Walked<'a>,
) -> Result<Shapes, Refusal>
    ensures { Stepped_to (known_of like.now) (While place entered.now.params.now entered.now.first.now (body_of test.now.block.now) (body_of body.now.block.now)) body.now.at state.old state.new (agreed result walked.new) }
{
    let act = Act::While {
        place,
        params: entered.params,
        first: entered.first,
        test: test.block,
        body: body.block,
    };
    give(state, like, act, body.at, walked)
}

/// A component, whichever.
pub fn component<'a>() -> Known<'a>
    ensures { known_of result ≡ Scalar_known (atom.Constant (scalar.Bool true)) }
{
    Known {
        form: KnownForm::Scalar(Atom::Constant(Scalar::Bool(true))),
    }
}

// The shape that both branches are asked for: one component where they are packed, else that of the first one.
pub fn asked<'a>(packs: bool, first: &Known<'a>) -> Known<'a>
    ensures { Asked packs (known_of first.now) (known_of result) }
{
    if packs {
        return component();
    }
    *first
}

/// Whether what is known is one component.
pub fn is_component(known: &Known<'_>) -> bool
    ensures { result ≡ is_component (known_of known.now) }
{
    match known.form {
        KnownForm::Scalar(_) => true,
        _ => false,
    }
}

/// What has been walked becomes one component.
#[inline(never)]
pub fn packed<'a>(state: &mut Unfolding<'a>, walked: &mut Walked<'a>) -> Result<(), Refusal>
    ensures { Packed_walk walked.old state.old state.new (written result walked.new) }
{
    match pack(state, &walked.known) {
        Ok(atom) => {
            walked.known = Known {
                form: KnownForm::Scalar(atom),
            };
            Ok(())
        }
        Err(refusal) => Err(refusal),
    }
}

/// The steps from the mark on as a block, which gives what has been walked as data of the shape of `like`: where that is one
/// component, it is packed. `None` where it is of another shape, or has too many components. The mark is no more than there are
/// steps.
#[inline(never)]
pub fn close<'a>(
    state: &mut Unfolding<'a>,
    mark: usize,
    like: &Known<'a>,
    walked: &Walked<'a>,
) -> Result<Option<Branch<'a>>, Refusal>
    requires mark { mark ≤ length (steps_of state.old) }
    ensures { Closed_to mark (known_of like.now) walked.now state.old state.new result }
{
    if is_component(like) {
        return close_packed(state, mark, walked);
    }
    let results = match lay(state.bump, *like, walked.known) {
        Ok(results) => results,
        Err(Refusal::Lost) => return Ok(None),
        Err(Refusal::Memory) => return Err(Refusal::Memory),
    };
    if results.len() > MOST_GIVEN {
        return Ok(None);
    }
    match state.block(mark, results) {
        Ok(block) => Ok(Some(Branch {
            block,
            at: walked.at,
        })),
        Err(refusal) => Err(refusal),
    }
}

// The same for one component.
fn close_packed<'a>(
    state: &mut Unfolding<'a>,
    mark: usize,
    walked: &Walked<'a>,
) -> Result<Option<Branch<'a>>, Refusal>
    requires mark { mark ≤ length (steps_of state.old) }
    ensures { Packed_closed mark walked.now state.old state.new result }
{
    match pack(state, &walked.known) {
        Ok(atom) => match close_scalar(
            state,
            mark,
            &WalkedScalar {
                atom,
                at: walked.at,
            },
        ) {
            Ok(branch) => Ok(Some(branch)),
            Err(refusal) => Err(refusal),
        },
        Err(refusal) => Err(refusal),
    }
}

/// The steps from the mark on as a block, which gives a scalar.
#[inline(never)]
pub fn close_scalar<'a>(
    state: &mut Unfolding<'a>,
    mark: usize,
    walked: &WalkedScalar,
) -> Result<Branch<'a>, Refusal>
    requires mark { mark ≤ length (steps_of state.old) }
    ensures { Scalar_closed mark walked.now state.old state.new result }
{
    let results = match state.bump.try_alloc_slice_copy(&[walked.atom]) {
        Ok(results) => results,
        Err(_) => return Err(Refusal::Memory),
    };
    match state.block(mark, results) {
        Ok(block) => Ok(Branch {
            block,
            at: walked.at,
        }),
        Err(refusal) => Err(refusal),
    }
}

/// The state as it was at the mark, with `next` as the next name. From now on the node of that number packs what it gives.
#[inline(never)]
pub fn again<'a>(
    state: &mut Unfolding<'a>,
    mark: usize,
    next: u32,
    number: u32,
) -> Result<(), Refusal>
    requires mark { mark ≤ length (steps_of state.old) }
    ensures steps { Cut mark (steps_of state.old) (steps_of state.new) }
    ensures next { state.new.next ≡ next }
    ensures err { IfErr result (λ r. r ≡ refusal.Memory) }
{
    state.cut(mark, next);
    state.note(number)
}

/// Nothing yet, into which what is walked is written.
pub fn unwalked<'a>() -> Walked<'a>
    ensures { result.at ≡ 0 }
{
    Walked {
        known: component(),
        at: 0,
    }
}

/// What is known of a value, before the node of a number.
pub fn put<'a>(
    known: Result<Known<'a>, Refusal>,
    at: u32,
    walked: &mut Walked<'a>,
) -> Result<(), Refusal>
    ensures { Walked_to at known.entry (written result walked.new) }
{
    match known {
        Ok(known) => {
            *walked = Walked { known, at };
            Ok(())
        }
        Err(refusal) => Err(refusal),
    }
}

/// What is known of a value. The number of the node behind it is left as it is.
pub fn put_known<'a>(
    known: Result<Known<'a>, Refusal>,
    walked: &mut Walked<'a>,
) -> Result<(), Refusal>
    ensures { written result walked.new.known ≡ known.entry }
{
    match known {
        Ok(known) => {
            walked.known = known;
            Ok(())
        }
        Err(refusal) => Err(refusal),
    }
}

/// An operation on its parts, under the names of a scope, at the node of the number `at`.
#[inline(never)]
pub fn operated<'a>(
    state: &mut Unfolding<'a>,
    told: Told<'a>,
    scope: Scope<'a>,
    at: u32,
    act: &Operation<'a>,
    mark: Place,
    parts: Parts<'a>,
    walked: &mut Walked<'a>,
) -> Result<(), Refusal>
    ensures { Operated_to told.entry (scope_of scope.entry) at (operation_of act.now) mark parts.entry state.old state.new (written result walked.new) }
{
    match operate(state, told, scope, at, act, mark, parts.knowns) {
        Ok(known) => {
            *walked = Walked {
                known,
                at: parts.at,
            };
            Ok(())
        }
        Err(refusal) => Err(refusal),
    }
}

/// What is known of a use, whose node has the number `at`.
#[inline(never)]
pub fn use_known<'a>(
    state: &mut Unfolding<'a>,
    context: &Context<'a>,
    scope: Scope<'a>,
    reference: Ref,
    at: u32,
    exp: &Exp<'a>,
    walked: &mut Walked<'a>,
) -> Result<(), Refusal>
    requires kept { Kept context.now.tops }
    ensures { Use_known context.now (scope_of scope.entry) reference at exp.now state.old state.new (written result walked.new) }
{
    let next = match after_exp(at, exp) {
        Ok(next) => next,
        Err(_) => return Err(Refusal::Memory),
    };
    let known = used(
        state,
        context.told.sizes,
        &context.tops,
        scope,
        reference,
        exp.place,
    );
    put(known, next, walked)
}

// The node of the first parameter that is left.
fn first_node(lambda: &Function<'_>) -> Result<u32, Refusal>
    ensures ok { IfOk result (λ at. at ≡ node_of lambda.now) }
    ensures err { IfErr result (λ r. r ≡ refusal.Memory) }
{
    match after_patterns(0, lambda.parameters) {
        Ok(count) => Ok(lambda.first.saturating_sub(count)),
        Err(_) => Err(Refusal::Memory),
    }
}

/// The names around the body of a function whose first parameter is bound to an argument.
#[inline(never)]
pub fn with_argument<'a>(
    state: &mut Unfolding<'a>,
    sizes: Option<&'a Sizes<'a>>,
    lambda: &Function<'a>,
    argument: &Known<'a>,
) -> Result<Scope<'a>, Refusal>
    ensures { Argued sizes.entry lambda.now (known_of argument.now) state.old state.new result }
{
    let params = lambda.parameters;
    if params.len() == 0 {
        return Err(Refusal::Lost);
    }
    let at = match first_node(lambda) {
        Ok(at) => at,
        Err(refusal) => return Err(refusal),
    };
    let scope = Scope {
        names: lambda.names,
        entered: lambda.entered,
    };
    bind(state, sizes, at, &params[0], *argument, scope)
}
