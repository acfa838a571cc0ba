// Sections by a name, ``(`f` e)``: the name stands before what the section holds, which its sugar binds first.
ghost use Rattle.std.specs.Prelude.{◌≡◌};
ghost use Rattle.elab_scopes.specs.Answers.{viewed};
ghost use Rattle.elab_scopes.specs.Resolve.{is_held, section_name};
ghost use Rattle.elab_scopes.specs.Table.{scope_of};
ghost use Rattle.elab_exps.specs.Parts.{name_before, source_of};
ghost use Rattle.elab_exps.specs.Sections.{applied_in, called_in, is_held_name, led, looked, spelled_of, use_in};
ghost use Rattle.fut_tree.specs.Names.{names as texts_of};

use elab_scopes::{Names, Refusal, Stop, value_of};
use fut_scalar::Place;
use fut_tree::{Exp, Form};

/// A name as it is spelled, and its place.
#[derive(Clone, Copy)]
pub struct Called<'a> {
    pub path: &'a [&'a str],
    pub place: Place,
}

/// The name that an expression is.
#[tactic(auto, using(crate::proofs::SectionLaws::use_held))]
fn used_name<'a>(exp: &'a Exp<'a>) -> Option<Called<'a>>
    ensures { spelled_of result ≡ use_in (source_of exp.now) }
{
    match exp.form {
        Form::Path(path) => Some(Called {
            path,
            place: exp.place,
        }),
        Form::Lets([], body) => used_name(body),
        _ => None,
    }
}

/// The name that an expression applies to one argument.
#[tactic(auto, using(crate::proofs::SectionLaws::applied_held))]
fn applied_name<'a>(exp: &'a Exp<'a>) -> Option<Called<'a>>
    ensures { spelled_of result ≡ applied_in (source_of exp.now) }
{
    match exp.form {
        Form::Apply(function, _) => used_name(function),
        Form::Lets([], body) => applied_name(body),
        _ => None,
    }
}

/// Whether a path is the new name of what a section holds.
fn is_held(path: &[&str]) -> bool
    ensures { result ≡ is_held (texts_of path.now) }
{
    match path {
        [name] => *name == " ",
        _ => false,
    }
}

/// Whether an expression is what a section holds.
fn holds<'a>(exp: &'a Exp<'a>) -> bool
    ensures { result ≡ is_held_name (use_in (source_of exp.now)) }
{
    match used_name(exp) {
        Some(name) => is_held(name.path),
        None => false,
    }
}

/// The name that an expression applies to two arguments, of which the second is what a section holds.
#[tactic(auto, using(crate::proofs::SectionLaws::called_held))]
fn called_name<'a>(exp: &'a Exp<'a>) -> Option<Called<'a>>
    ensures { spelled_of result ≡ called_in (source_of exp.now) }
{
    match exp.form {
        Form::Apply(function, argument) => {
            if holds(argument) {
                applied_name(function)
            } else {
                None
            }
        }
        Form::Lets([], body) => called_name(body),
        _ => None,
    }
}

/// The name of a section, of the body of its let.
#[tactic(auto, using(crate::proofs::SectionLaws::section_held))]
pub fn section_name<'a>(exp: &'a Exp<'a>) -> Option<Called<'a>>
    ensures { spelled_of result ≡ section_name (source_of exp.now) }
{
    match exp.form {
        Form::Lambda(_, None, body) => called_name(body),
        Form::Lets([], body) => section_name(body),
        _ => None,
    }
}

/// Looks whether the name is bound that stands before a let with so many lets between it and the body.
#[tactic(auto, using(crate::proofs::SectionLaws::looked_rules))]
pub fn looked_before<'a>(
    lets_between: usize,
    body: &'a Exp<'a>,
    names: &Names<'a>,
) -> Result<(), Refusal<'a>>
    ensures { viewed (λ u. u) result ≡ looked (name_before lets_between (source_of body.now)) (scope_of names.now) }
{
    if lets_between > 0 {
        return Ok(());
    }
    match section_name(body) {
        Some(name) => match value_of(names, name.path, name.place) {
            Ok(_) => Ok(()),
            Err(refusal) => Err(refusal),
        },
        None => Ok(()),
    }
}

/// An answer, where the name that stands before it is not refused.
pub fn led<'a, T: Copy>(
    looked: Result<(), Refusal<'a>>,
    answer: Result<T, Stop<'a>>,
) -> Result<T, Stop<'a>>
    ensures { result ≡ led looked.entry answer.entry }
{
    match looked {
        Ok(()) => answer,
        Err(refusal) => Err(Stop::Refused(refusal)),
    }
}
