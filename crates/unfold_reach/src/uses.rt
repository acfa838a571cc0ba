// What terms name as values.
ghost use Rattle.std.specs.Prelude.{map};
ghost use Rattle.fut_flat.specs.Erased.{term_of, terms};
ghost use Rattle.fut_flat.proofs.ErasedForms.{row_of, turns_of};
ghost use Rattle.unfold_reach.specs.Reach.{Noted, Noted_rows, Noted_turns, all_use, use_of, uses};

use crate::table::name;
use fut_flat::{Exp, Form, Let, LoopForm, Ref};

fn note_use(named: &mut [bool], reference: Ref)
    ensures { Noted (use_of reference) named.old named.new }
{
    match reference {
        Ref::Bound(number) => name(named, number),
        Ref::Prim(_) => (),
        Ref::Scalar(_) => (),
    }
}

/// Notes the numbers that an expression uses.
#[cycle(note)]
pub fn note(named: &mut [bool], exp: &Exp<'_>)
    ensures { Noted (uses (term_of exp.now)) named.old named.new }
{
    match exp.form {
        Form::Use(reference, _) => note_use(named, reference),
        Form::Strict {
            act: _,
            mark: _,
            parts,
        } => note_all(named, parts),
        Form::Lambda(_, body) => note(named, body),
        Form::Apply(function, argument) => {
            note(named, function);
            note(named, argument);
        }
        Form::Lets(lets, body) => {
            note_lets(named, lets);
            note(named, body);
        }
        Form::If(test, yes, no) => {
            note(named, test);
            note(named, yes);
            note(named, no);
        }
        Form::Loop(whole) => {
            note(named, &whole.first);
            note_turns(named, &whole.form);
            note(named, &whole.body);
        }
    }
}

#[cycle(note)]
fn note_all(named: &mut [bool], exps: &[Exp<'_>])
    ensures { Noted (all_use (terms (map term_of exps.now))) named.old named.new }
{
    for exp in exps {
        note(named, exp);
    }
}

#[cycle(note)]
fn note_lets(named: &mut [bool], lets: &[Let<'_>])
    ensures { Noted_rows (map row_of lets.now) named.old named.new }
{
    for one in lets {
        note(named, &one.value);
    }
}

#[cycle(note)]
fn note_turns(named: &mut [bool], form: &LoopForm<'_>)
    ensures { Noted_turns (turns_of form.now) named.old named.new }
{
    match form {
        LoopForm::For(_, count) => note(named, count),
        LoopForm::ForIn(_, rows) => note(named, rows),
        LoopForm::While(test) => note(named, test),
    }
}
