// The homes of the numbers of trees, in the order of the numbers.
ghost use Rattle.std.specs.Prelude.{◌≡◌, replicate, IfOk};
ghost use Rattle.std.specs.List.{flat_map};
ghost use Rattle.fut_flat.specs.Erased.{operation_of, parameters};
ghost use Rattle.fut_flat.specs.Numbers.{own_numbers};
ghost use Rattle.fut_typing.specs.Free.{differs, has_types};
ghost use Rattle.fut_typing.specs.Homes.{depth_if, home_in, written_if};
ghost use Rattle.fut_flat.proofs.ErasedForms.{loop_of, turns_of};
ghost use Rattle.flat_numbers.specs.Listed.{homes_of, turn_homes};
ghost use Rattle.flat_numbers.specs.Noted.{Noted};
ghost use Rattle.flat_numbers.specs.Trees.{definition_homes, exp_homes, field_homes, let_homes, pattern_homes, written_in};

use crate::home_noting::Noting;
use fut_flat::{
    Act, Definition, Exp, Form, Head, HeadForm, Let, Loop, LoopForm, Pat, PatField, PatForm,
};
use fut_scalar::NoMemory;

/// Notes the home of so many numbers.
fn note(homes: &mut Noting, count: u32, home: u32)
    ensures { Noted homes.old homes.new (replicate count home) }
{
    for _ in 0..count {
        homes.push(home);
    }
}

/// Notes the home of a pattern's numbers.
#[cycle(pattern)]
fn note_pattern(homes: &mut Noting, pat: &Pat<'_>, home: u32)
    ensures { Noted homes.old homes.new (pattern_homes home pat.now) }
{
    match pat.form {
        PatForm::Bound(_) => homes.push(home),
        PatForm::Wild => homes.push(home),
        PatForm::Tuple(parts) => {
            homes.push(home);
            note_patterns(homes, parts, home)
        }
        PatForm::Record(fields) => {
            homes.push(home);
            note_fields(homes, fields, home)
        }
        PatForm::Typed(inner, _) => note_pattern(homes, inner, home),
    }
}

#[cycle(pattern)]
fn note_patterns(homes: &mut Noting, parts: &[Pat<'_>], home: u32)
    ensures { Noted homes.old homes.new (flat_map (pattern_homes home) parts.now) }
{
    for part in parts {
        note_pattern(homes, part, home);
    }
}

#[cycle(pattern)]
#[tactic(auto, unfolding(crate::specs::Trees::field_homes))]
fn note_fields(homes: &mut Noting, fields: &[PatField<'_>], home: u32)
    ensures { Noted homes.old homes.new (flat_map (field_homes home) fields.now) }
{
    for field in fields {
        note_pattern(homes, &field.pat, home);
    }
}

/// How many numbers an operation has of its own.
fn own_numbers_of(act: Act<'_>) -> u32
    ensures { result ≡ own_numbers (operation_of act.entry) }
{
    match act {
        Act::Binary(_) | Act::Project(_) => 2,
        Act::Int { .. }
        | Act::Truth(_)
        | Act::Tuple
        | Act::Record(_)
        | Act::Array
        | Act::Negate
        | Act::Complement
        | Act::Index(_)
        | Act::Update
        | Act::Replace(_)
        | Act::Ascribe(_)
        | Act::Coerce(_)
        | Act::Declared(_)
        | Act::Assert
        | Act::Range { .. } => 1,
    }
}

/// The home of an operation's own numbers, at this depth, where the innermost definition with written type parameters is at
/// depth `written`.
fn home_of(act: Act<'_>, depth: u32, written: u32) -> u32
    ensures { result ≡ home_in (differs (operation_of act.entry)) depth written }
{
    match act {
        Act::Binary(_) | Act::Int { ty: None, .. } | Act::Negate | Act::Complement => 0,
        Act::Project(_) | Act::Replace(_) => written,
        Act::Int { ty: Some(_), .. }
        | Act::Truth(_)
        | Act::Tuple
        | Act::Record(_)
        | Act::Array
        | Act::Index(_)
        | Act::Update
        | Act::Ascribe(_)
        | Act::Coerce(_)
        | Act::Declared(_)
        | Act::Assert
        | Act::Range { .. } => depth,
    }
}

/// Notes the homes of a term's numbers.
#[cycle(term)]
fn note_exp(homes: &mut Noting, exp: &Exp<'_>, depth: u32, written: u32)
    ensures { Noted homes.old homes.new (exp_homes depth written exp.now) }
{
    match exp.form {
        Form::Use(_, before) => {
            homes.push(depth);
            note(homes, before, depth);
            note(homes, before, depth)
        }
        Form::Strict { act, parts, .. } => {
            note(homes, own_numbers_of(act), home_of(act, depth, written));
            note_parts(homes, parts, depth, written)
        }
        Form::Lambda(params, body) => {
            homes.push(depth);
            note_patterns(homes, params, depth);
            note_exp(homes, body, depth, written)
        }
        Form::Apply(function, argument) => {
            homes.push(depth);
            note_exp(homes, function, depth, written);
            note_exp(homes, argument, depth, written)
        }
        Form::Lets(lets, body) => {
            note_lets(homes, lets, depth, written);
            note_exp(homes, body, depth, written)
        }
        Form::If(test, yes, no) => {
            homes.push(depth);
            note_exp(homes, test, depth, written);
            note_exp(homes, yes, depth, written);
            note_exp(homes, no, depth, written)
        }
        Form::Loop(turning) => note_loop(homes, turning, depth, written),
    }
}

#[cycle(term)]
fn note_parts(homes: &mut Noting, parts: &[Exp<'_>], depth: u32, written: u32)
    ensures { Noted homes.old homes.new (flat_map (exp_homes depth written) parts.now) }
{
    for part in parts {
        note_exp(homes, part, depth, written);
    }
}

#[cycle(term)]
fn note_lets(homes: &mut Noting, lets: &[Let<'_>], depth: u32, written: u32)
    ensures { Noted homes.old homes.new (flat_map (let_homes depth written) lets.now) }
{
    for one in lets {
        note_let(homes, one, depth, written);
    }
}

/// A function is one deeper.
fn depth_of(one: &Let<'_>, depth: u32) -> Result<u32, NoMemory>
    ensures { IfOk result (λ deep. deep ≡ depth_if one.now.is_function depth) }
{
    if one.is_function {
        match depth.checked_add(1) {
            Some(deep) => Ok(deep),
            None => Err(NoMemory),
        }
    } else {
        Ok(depth)
    }
}

/// The depth of the innermost definition that has written type parameters, within one at depth `deep` with these heads;
/// around it that depth is `written`.
fn innermost_written(heads: &[Head], deep: u32, written: u32) -> u32
    ensures { result ≡ written_if (has_types (parameters heads.now)) deep written }
{
    for head in heads {
        if let HeadForm::Var { .. } = head.form {
            return deep;
        }
    }
    written
}

/// The same in the value of a `let`.
fn written_of(one: &Let<'_>, deep: u32, written: u32) -> u32
    ensures { result ≡ written_in one.now deep written }
{
    if one.is_function {
        innermost_written(one.heads, deep, written)
    } else {
        written
    }
}

#[cycle(term)]
fn note_let(homes: &mut Noting, one: &Let<'_>, depth: u32, written: u32)
    ensures { Noted homes.old homes.new (let_homes depth written one.now) }
{
    match depth_of(one, depth) {
        Ok(deep) => {
            homes.push(depth);
            note_pattern(homes, &one.pat, deep);
            note_exp(homes, &one.value, deep, written_of(one, deep, written))
        }
        Err(NoMemory) => homes.stop(),
    }
}

#[cycle(term)]
fn note_loop(homes: &mut Noting, turning: &Loop<'_>, depth: u32, written: u32)
    ensures { Noted homes.old homes.new (homes_of depth written (loop_of turning.now)) }
{
    homes.push(depth);
    note_pattern(homes, &turning.pat, depth);
    note_exp(homes, &turning.first, depth, written);
    note_turns(homes, turning, depth, written);
    note_exp(homes, &turning.body, depth, written)
}

#[cycle(term)]
fn note_turns(homes: &mut Noting, turning: &Loop<'_>, depth: u32, written: u32)
    ensures { Noted homes.old homes.new (turn_homes depth written (turns_of turning.now.form)) }
{
    match &turning.form {
        LoopForm::For(_, bound) => {
            homes.push(depth);
            note_exp(homes, bound, depth, written)
        }
        LoopForm::ForIn(pat, over) => {
            note_pattern(homes, pat, depth);
            note_exp(homes, over, depth, written)
        }
        LoopForm::While(test) => note_exp(homes, test, depth, written),
    }
}

/// Notes the homes of the numbers of definitions, each of which is one deep.
pub(crate) fn note_definitions(homes: &mut Noting, definitions: &[Definition<'_>])
    ensures { Noted homes.old homes.new (flat_map definition_homes definitions.now) }
{
    for definition in definitions {
        homes.push(1);
        let written = innermost_written(definition.heads, 1, 0);
        note_exp(homes, definition.value, 1, written);
    }
}
