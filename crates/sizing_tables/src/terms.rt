// The names that a program binds, in the order of the numbers of nodes.
ghost use Rattle.std.specs.Prelude.{◌≡◌, ◌∷◌, [], None, Some, List as Seq, Option, map, replicate};
ghost use Rattle.std.specs.List.{flat_map};
ghost use Rattle.fut_flat.specs.Erased.{operation_of, parameters};
ghost use Rattle.fut_flat.specs.Numbers.{own_numbers};
ghost use Rattle.fut_flat.proofs.ErasedForms.{loop_of, turns_of};
ghost use Rattle.sizing_tables.specs.Bound.{bind_numbers, names_of, size_numbers, sizes_of, turn_names, turn_sizes};
ghost use Rattle.sizing_tables.specs.Noted.{Noted};
ghost use Rattle.sizing_tables.specs.Trees.{definition_names, definition_sizes, exp_names, exp_sizes, field_names, let_names, let_sizes, tree_names};

use crate::noting::Noting;
use flat_numbers::own_numbers_of;
use fut_flat::{
    Definition, Exp, Form, Head, HeadForm, Let, Loop, LoopForm, Pat, PatField, PatForm,
};
use fut_scalar::BindId;

/// Notes so many nodes that bind no name.
fn note(noting: &mut Noting, count: u32)
    ensures { Noted noting.old noting.new (replicate count None) [] }
{
    for _ in 0..count {
        noting.node(None);
    }
}

/// Notes the names of sizes.
fn note_sizes(noting: &mut Noting, sizes: &[BindId])
    ensures { Noted noting.old noting.new [] (bind_numbers sizes.now) }
{
    for size in sizes {
        noting.size(size.0);
    }
}

/// Notes a head that is a size parameter.
fn note_head(noting: &mut Noting, head: &Head)
    ensures { Noted noting.old noting.new [] (size_numbers (parameters (head.now ∷ []))) }
{
    match head.form {
        HeadForm::Size(size) => noting.size(size.0),
        HeadForm::Var { .. } => (),
    }
}

/// Notes the size parameters among the heads of a definition.
fn note_heads(noting: &mut Noting, heads: &[Head])
    ensures { Noted noting.old noting.new [] (size_numbers (parameters heads.now)) }
{
    for head in heads {
        note_head(noting, head);
    }
}

/// Notes the nodes of a pattern.
#[cycle(pattern)]
fn note_pattern(noting: &mut Noting, pat: &Pat<'_>)
    ensures { Noted noting.old noting.new (tree_names pat.now) [] }
{
    match pat.form {
        PatForm::Bound(name) => noting.node(Some(name.0)),
        PatForm::Wild => noting.node(None),
        PatForm::Tuple(parts) => {
            noting.node(None);
            note_patterns(noting, parts)
        }
        PatForm::Record(fields) => {
            noting.node(None);
            note_fields(noting, fields)
        }
        PatForm::Typed(inner, _) => note_pattern(noting, inner),
    }
}

#[cycle(pattern)]
fn note_patterns(noting: &mut Noting, parts: &[Pat<'_>])
    ensures { Noted noting.old noting.new (flat_map tree_names parts.now) [] }
{
    for part in parts {
        note_pattern(noting, part);
    }
}

#[cycle(pattern)]
#[tactic(auto, unfolding(crate::specs::Trees::field_names))]
fn note_fields(noting: &mut Noting, fields: &[PatField<'_>])
    ensures { Noted noting.old noting.new (flat_map field_names fields.now) [] }
{
    for field in fields {
        note_pattern(noting, &field.pat);
    }
}

/// Notes the nodes of an expression, and the names of sizes that it binds.
#[cycle(term)]
fn note_exp(noting: &mut Noting, exp: &Exp<'_>)
    ensures { Noted noting.old noting.new (exp_names exp.now) (exp_sizes exp.now) }
{
    match exp.form {
        Form::Use(_, before) => {
            noting.node(None);
            note(noting, before);
            note(noting, before)
        }
        Form::Strict { act, parts, .. } => {
            note(noting, own_numbers_of(&act));
            note_parts(noting, parts)
        }
        Form::Lambda(params, body) => {
            noting.node(None);
            note_patterns(noting, params);
            note_exp(noting, body)
        }
        Form::Apply(function, argument) => {
            noting.node(None);
            note_exp(noting, function);
            note_exp(noting, argument)
        }
        Form::Lets(lets, body) => {
            note_lets(noting, lets);
            note_exp(noting, body)
        }
        Form::If(test, yes, no) => {
            noting.node(None);
            note_exp(noting, test);
            note_exp(noting, yes);
            note_exp(noting, no)
        }
        Form::Loop(turning) => note_loop(noting, turning),
    }
}

#[cycle(term)]
fn note_parts(noting: &mut Noting, parts: &[Exp<'_>])
    ensures { Noted noting.old noting.new (flat_map exp_names parts.now) (flat_map exp_sizes parts.now) }
{
    for part in parts {
        note_exp(noting, part);
    }
}

#[cycle(term)]
fn note_lets(noting: &mut Noting, lets: &[Let<'_>])
    ensures { Noted noting.old noting.new (flat_map let_names lets.now) (flat_map let_sizes lets.now) }
{
    for one in lets {
        note_let(noting, one);
    }
}

#[cycle(term)]
fn note_let(noting: &mut Noting, one: &Let<'_>)
    ensures { Noted noting.old noting.new (let_names one.now) (let_sizes one.now) }
{
    noting.node(None);
    note_sizes(noting, one.sizes);
    note_heads(noting, one.heads);
    note_pattern(noting, &one.pat);
    note_exp(noting, &one.value)
}

#[cycle(term)]
fn note_loop(noting: &mut Noting, turning: &Loop<'_>)
    ensures { Noted noting.old noting.new (names_of (loop_of turning.now)) (sizes_of (loop_of turning.now)) }
{
    noting.node(None);
    note_sizes(noting, turning.sizes);
    note_pattern(noting, &turning.pat);
    note_exp(noting, &turning.first);
    note_turns(noting, turning);
    note_exp(noting, &turning.body)
}

/// Notes the nodes of what says how often a loop turns.
#[cycle(term)]
fn note_turns(noting: &mut Noting, turning: &Loop<'_>)
    ensures { Noted noting.old noting.new (turn_names (turns_of turning.now.form)) (turn_sizes (turns_of turning.now.form)) }
{
    match &turning.form {
        LoopForm::For(counter, bound) => {
            noting.node(Some(counter.0));
            note_exp(noting, bound)
        }
        LoopForm::ForIn(pat, over) => {
            note_pattern(noting, pat);
            note_exp(noting, over)
        }
        LoopForm::While(test) => note_exp(noting, test),
    }
}

/// Notes the nodes of definitions. The first of each is that of its name.
pub(crate) fn note_definitions(noting: &mut Noting, definitions: &[Definition<'_>])
    ensures { Noted noting.old noting.new (flat_map definition_names definitions.now) (flat_map definition_sizes definitions.now) }
{
    for definition in definitions {
        noting.node(Some(definition.bind.0));
        note_heads(noting, definition.heads);
        note_exp(noting, definition.value);
    }
}
