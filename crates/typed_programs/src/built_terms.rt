// Expressions. A row of `let`s is gone over by a loop, however long it is.
ghost use Rattle.std.specs.Prelude.{◌≡◌, true, false};
ghost use Rattle.std.specs.List.{All};
ghost use Rattle.typed_programs.specs.Trees.{Exp_built, Let_built, Loop_built, Loop_turns_built};

use crate::operations::act_is_built;
use fut_flat::{Exp, Form, Let, Loop, LoopForm};

/// Whether an expression has only forms that are built.
#[cycle(term)]
pub(crate) fn exp_is_built(exp: &Exp<'_>) -> bool
    ensures built { result ≡ true → Exp_built exp.now }
    ensures unbuilt { result ≡ false → Exp_built exp.now → ⊥ }
{
    match exp.form {
        Form::Use(_, _) => true,
        Form::Strict { act, parts, .. } => act_is_built(act, parts.len()) && parts_are_built(parts),
        Form::Lambda(params, body) => params.len() > 0 && exp_is_built(body),
        Form::Apply(function, argument) => exp_is_built(function) && exp_is_built(argument),
        Form::Lets(lets, body) => lets_are_built(lets) && exp_is_built(body),
        Form::If(test, yes, no) => exp_is_built(test) && (exp_is_built(yes) && exp_is_built(no)),
        Form::Loop(turning) => loop_is_built(turning),
    }
}

#[cycle(term)]
fn parts_are_built(parts: &[Exp<'_>]) -> bool
    ensures built { result ≡ true → All Exp_built parts.now }
    ensures unbuilt { result ≡ false → All Exp_built parts.now → ⊥ }
{
    for part in parts {
        if !exp_is_built(part) {
            return false;
        }
    }
    true
}

#[cycle(term)]
fn lets_are_built(lets: &[Let<'_>]) -> bool
    ensures built { result ≡ true → All Let_built lets.now }
    ensures unbuilt { result ≡ false → All Let_built lets.now → ⊥ }
{
    for one in lets {
        if !let_is_built(one) {
            return false;
        }
    }
    true
}

#[cycle(term)]
#[tactic(auto, unfolding(crate::specs::Trees::Let_built))]
fn let_is_built(one: &Let<'_>) -> bool
    ensures built { result ≡ true → Let_built one.now }
    ensures unbuilt { result ≡ false → Let_built one.now → ⊥ }
{
    exp_is_built(&one.value)
}

#[cycle(term)]
fn loop_is_built(turning: &Loop<'_>) -> bool
    ensures built { result ≡ true → Loop_built turning.now }
    ensures unbuilt { result ≡ false → Loop_built turning.now → ⊥ }
{
    if !exp_is_built(&turning.first) {
        return false;
    }
    turns_are_built(turning) && exp_is_built(&turning.body)
}

/// Whether what says how often a loop turns is built.
#[cycle(term)]
fn turns_are_built(turning: &Loop<'_>) -> bool
    ensures built { result ≡ true → Loop_turns_built turning.now.form }
    ensures unbuilt { result ≡ false → Loop_turns_built turning.now.form → ⊥ }
{
    match turning.form {
        LoopForm::For(_, bound) => exp_is_built(&bound),
        LoopForm::ForIn(_, array) => exp_is_built(&array),
        LoopForm::While(test) => exp_is_built(&test),
    }
}
