// The places of the numbers of trees, in the order of the numbers.
ghost use Rattle.std.specs.Prelude.{◌≡◌, replicate};
ghost use Rattle.std.specs.List.{flat_map};
ghost use Rattle.fut_flat.specs.Erased.{operation_of};
ghost use Rattle.fut_flat.specs.Numbers.{own_numbers};
ghost use Rattle.flat_numbers.specs.PlaceNoted.{Noted};
ghost use Rattle.flat_numbers.specs.Places.{definition_places, exp_places, field_places, let_places, loop_places, pattern_places, turn_places};

use crate::place_noting::Noting;
use fut_flat::{Act, Definition, Exp, Form, Let, Loop, LoopForm, Pat, PatField, PatForm};
use fut_scalar::Place;

/// Notes the place of so many numbers.
fn note(places: &mut Noting, count: u32, at: Place)
    ensures { Noted places.old places.new (replicate count at) }
{
    for _ in 0..count {
        places.push(at);
    }
}

/// Notes the places of a pattern's numbers.
#[cycle(pattern)]
fn note_pattern(places: &mut Noting, pat: &Pat<'_>)
    ensures { Noted places.old places.new (pattern_places pat.now) }
{
    match pat.form {
        PatForm::Bound(_) => places.push(pat.place),
        PatForm::Wild => places.push(pat.place),
        PatForm::Tuple(parts) => {
            places.push(pat.place);
            note_patterns(places, parts)
        }
        PatForm::Record(fields) => {
            places.push(pat.place);
            note_fields(places, fields)
        }
        PatForm::Typed(inner, _) => note_pattern(places, inner),
    }
}

#[cycle(pattern)]
fn note_patterns(places: &mut Noting, parts: &[Pat<'_>])
    ensures { Noted places.old places.new (flat_map pattern_places parts.now) }
{
    for part in parts {
        note_pattern(places, part);
    }
}

#[cycle(pattern)]
fn note_fields(places: &mut Noting, fields: &[PatField<'_>])
    ensures { Noted places.old places.new (flat_map field_places fields.now) }
{
    for field in fields {
        note_pattern(places, &field.pat);
    }
}

/// How many numbers an operation has beside those of its parts.
fn own_numbers_of(act: Act<'_>) -> u32
    ensures { result ≡ own_numbers (operation_of act.entry) }
{
    match act {
        Act::Binary(_) | Act::Project(_) => 2,
        Act::Int { .. }
        | Act::Truth(_)
        | Act::Tuple
        | Act::Record(_)
        | Act::Array
        | Act::Negate
        | Act::Complement
        | Act::Index(_)
        | Act::Update
        | Act::Replace(_)
        | Act::Ascribe(_)
        | Act::Coerce(_)
        | Act::Declared(_)
        | Act::Assert
        | Act::Range { .. } => 1,
    }
}

/// Notes the places of an expression's numbers.
#[cycle(term)]
fn note_exp(places: &mut Noting, exp: &Exp<'_>)
    ensures { Noted places.old places.new (exp_places exp.now) }
{
    match exp.form {
        Form::Use(_, before) => {
            places.push(exp.place);
            note(places, before, exp.place);
            note(places, before, exp.place)
        }
        Form::Strict { act, parts, .. } => {
            note(places, own_numbers_of(act), exp.place);
            note_parts(places, parts)
        }
        Form::Lambda(params, body) => {
            places.push(exp.place);
            note_patterns(places, params);
            note_exp(places, body)
        }
        Form::Apply(function, argument) => {
            places.push(exp.place);
            note_exp(places, function);
            note_exp(places, argument)
        }
        Form::Lets(lets, body) => {
            note_lets(places, lets, exp.place);
            note_exp(places, body)
        }
        Form::If(test, yes, no) => {
            places.push(exp.place);
            note_exp(places, test);
            note_exp(places, yes);
            note_exp(places, no)
        }
        Form::Loop(turning) => note_loop(places, turning, exp.place),
    }
}

#[cycle(term)]
fn note_parts(places: &mut Noting, parts: &[Exp<'_>])
    ensures { Noted places.old places.new (flat_map exp_places parts.now) }
{
    for part in parts {
        note_exp(places, part);
    }
}

/// Notes the places of the numbers of `let`s in a row that stands at `at`.
#[cycle(term)]
fn note_lets(places: &mut Noting, lets: &[Let<'_>], at: Place)
    ensures { Noted places.old places.new (flat_map (let_places at) lets.now) }
{
    for one in lets {
        note_let(places, one, at);
    }
}

#[cycle(term)]
fn note_let(places: &mut Noting, one: &Let<'_>, at: Place)
    ensures { Noted places.old places.new (let_places at one.now) }
{
    places.push(at);
    note_pattern(places, &one.pat);
    note_exp(places, &one.value)
}

#[cycle(term)]
fn note_loop(places: &mut Noting, turning: &Loop<'_>, at: Place)
    ensures { Noted places.old places.new (loop_places at turning.now) }
{
    places.push(at);
    note_pattern(places, &turning.pat);
    note_exp(places, &turning.first);
    note_turns(places, turning, at);
    note_exp(places, &turning.body)
}

/// Notes the places of the numbers of what says how often a loop turns.
#[cycle(term)]
fn note_turns(places: &mut Noting, turning: &Loop<'_>, at: Place)
    ensures { Noted places.old places.new (turn_places at turning.now.form) }
{
    match &turning.form {
        LoopForm::For(_, bound) => {
            places.push(at);
            note_exp(places, bound)
        }
        LoopForm::ForIn(pat, over) => {
            note_pattern(places, pat);
            note_exp(places, over)
        }
        LoopForm::While(test) => note_exp(places, test),
    }
}

/// Notes the places of the numbers of definitions.
pub(crate) fn note_definitions(places: &mut Noting, definitions: &[Definition<'_>])
    ensures { Noted places.old places.new (flat_map definition_places definitions.now) }
{
    for definition in definitions {
        places.push(definition.value.place);
        note_exp(places, definition.value);
    }
}
