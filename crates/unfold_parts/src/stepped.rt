// Operations, each a step.
ghost use Rattle.std.specs.Prelude.{map};
ghost use Rattle.fut_blocks.specs.Plain.{Operate, action_of};
ghost use Rattle.unfold.specs.Held.{known_of};
ghost use Rattle.unfold_parts.specs.Answers.{Answered, Is_step, On_one, On_two};
ghost use Rattle.unfold_parts.specs.Parts.{Not_one_scalar, Not_two_scalars};
ghost use Rattle.unfold_parts.specs.States.{steps_of};

use crate::parts::{one_scalar, two_scalars};
use crate::refusal::Refusal;
use crate::steps::Unfolding;
use fut_blocks::{Act, Operation};
use fut_scalar::{BinOp, Place, UnOp};
use unfold::{Known, KnownForm};

/// One more step, and the scalar that it gives.
pub fn computed<'a>(work: &mut Unfolding<'a>, operation: Operation) -> Result<Known<'a>, Refusal>
    ensures { Answered (λ bs s next. Is_step (Operate operation) work.old.next bs (known_of s) next) ⊥ (steps_of work.old) (steps_of work.new) work.new.next result }
{
    match work.compute(operation) {
        Ok(atom) => Ok(Known {
            form: KnownForm::Scalar(atom),
        }),
        Err(refusal) => Err(refusal),
    }
}

/// One more step, and the component that it makes.
pub fn made<'a>(work: &mut Unfolding<'a>, act: Act<'a>) -> Result<Known<'a>, Refusal>
    ensures { Answered (λ bs s next. Is_step (action_of act.entry) work.old.next bs (known_of s) next) ⊥ (steps_of work.old) (steps_of work.new) work.new.next result }
{
    match work.made(act) {
        Ok(atom) => Ok(Known {
            form: KnownForm::Scalar(atom),
        }),
        Err(refusal) => Err(refusal),
    }
}

pub fn unary<'a>(
    work: &mut Unfolding<'a>,
    op: UnOp,
    parts: &'a [Known<'a>],
) -> Result<Known<'a>, Refusal>
    ensures { Answered (λ bs s next. On_one op (map known_of parts.now) work.old.next bs (known_of s) next) (Not_one_scalar (map known_of parts.now)) (steps_of work.old) (steps_of work.new) work.new.next result }
{
    match one_scalar(parts) {
        Some(atom) => computed(work, Operation::Unary(op, atom)),
        None => Err(Refusal::Lost),
    }
}

pub fn binary<'a>(
    work: &mut Unfolding<'a>,
    op: BinOp,
    place: Place,
    parts: &'a [Known<'a>],
) -> Result<Known<'a>, Refusal>
    ensures { Answered (λ bs s next. On_two op place (map known_of parts.now) work.old.next bs (known_of s) next) (Not_two_scalars (map known_of parts.now)) (steps_of work.old) (steps_of work.new) work.new.next result }
{
    match two_scalars(parts) {
        Some(pair) => computed(work, Operation::Binary(op, place, pair.first, pair.second)),
        None => Err(Refusal::Lost),
    }
}
