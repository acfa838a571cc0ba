// The nodes of loops.
ghost use Rattle.std.specs.Prelude.{◌≡◌, IfOk};
ghost use Rattle.fut_ast.specs.Nodes.{exp_at};
ghost use Rattle.fut_ast.specs.declared.exp.Form.TheVariants as form;
ghost use Rattle.fut_ast.specs.declared.exp.LoopForm.TheVariants as loop_form;
ghost use Rattle.fut_tree.specs.Exps.{loop_of};
ghost use Rattle.fut_tree.specs.Names.{names};

use crate::exp_nodes::held;
use bumpalo::Bump;
use fut_scalar::{NoMemory, Place};
use fut_tree::{Exp, Form, LoopForm, Pat};

/// A loop, of its size names, its pattern and first value, what it goes over, and its body.
pub fn looping<'a>(
    bump: &'a Bump,
    place: Place,
    sizes: &'a [&'a str],
    pat: &'a Pat<'a>,
    first: &'a Exp<'a>,
    over: &'a LoopForm<'a>,
    body: &'a Exp<'a>,
) -> Result<&'a Exp<'a>, NoMemory>
    ensures { IfOk result (λ e. e.now ≡ exp_at place (form.Loop (names sizes.now) pat.now first.now (loop_of over.now) body.now)) }
{
    held(
        bump,
        Exp {
            place,
            mark: place,
            form: Form::Loop(sizes, pat, first, over, body),
        },
    )
}

/// As long as a test holds. What a loop goes over is held in the arena: by itself it is dear to hand on.
pub fn while_loop<'a>(bump: &'a Bump, test: &'a Exp<'a>) -> Result<&'a LoopForm<'a>, NoMemory>
    ensures { IfOk result (λ o. loop_of o.now ≡ loop_form.While test.now) }
{
    match bump.try_alloc(LoopForm::While(test)) {
        Ok(made) => Ok(made),
        Err(_) => Err(NoMemory),
    }
}

/// A counter below a bound.
pub fn for_loop<'a>(
    bump: &'a Bump,
    name: &'a str,
    bound: &'a Exp<'a>,
) -> Result<&'a LoopForm<'a>, NoMemory>
    ensures { IfOk result (λ o. loop_of o.now ≡ loop_form.For name.now bound.now) }
{
    match bump.try_alloc(LoopForm::For(name, bound)) {
        Ok(made) => Ok(made),
        Err(_) => Err(NoMemory),
    }
}

/// The elements of an array.
pub fn for_in_loop<'a>(
    bump: &'a Bump,
    pat: &'a Pat<'a>,
    array: &'a Exp<'a>,
) -> Result<&'a LoopForm<'a>, NoMemory>
    ensures { IfOk result (λ o. loop_of o.now ≡ loop_form.ForIn pat.now array.now) }
{
    match bump.try_alloc(LoopForm::ForIn(pat, array)) {
        Ok(made) => Ok(made),
        Err(_) => Err(NoMemory),
    }
}
