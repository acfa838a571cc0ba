// The walk over expressions.
ghost use Rattle.std.specs.Prelude.{◌≡◌, [], map};
ghost use Rattle.fut_flat.specs.Erased.{term_of};
ghost use Rattle.fut_flat.specs.Sources.{declared, placed};
ghost use Rattle.fut_flat.proofs.ErasedForms.{row_of, turns_of};
ghost use Rattle.fut_tree.specs.Names.{maybe};
ghost use Rattle.elab_nodes.specs.Built.{Built0};
ghost use Rattle.elab_nodes.specs.Held.{held_term};
ghost use Rattle.elab_nodes.specs.declared.rows.Turning.{Turning};
ghost use Rattle.elab_scopes.specs.Answers.{Entered, Went};
ghost use Rattle.elab_scopes.specs.Resolve.{resolve};
ghost use Rattle.elab_scopes.specs.Table.{made_of, scope_of};
ghost use Rattle.elab_scopes.specs.Walks.{each};
ghost use Rattle.elab_exps.specs.Groups.{group_of};
ghost use Rattle.elab_exps.specs.declared.groups.Group.TheVariants as group;
ghost use Rattle.elab_exps.specs.Heads.{head_of};
ghost use Rattle.elab_exps.specs.Operations.{Operates};
ghost use Rattle.elab_exps.specs.Parts.{each_row, exp_part, row_part, source_of, turns_part};

use crate::bindings::{counted, let_row, over, repeated};
use crate::composing::{argument_name, functions, is_left_first, left_name, right_name};
use crate::groups::{Group, taken_by};
use crate::heads::{
    Head, bring_head, brought_head, brought_heads, brought_name, brought_pattern, element_pattern,
    sized_pattern,
};
use crate::leaves::{is_behind, operator, used};
use crate::operations::{Operation, gathered, operation_of};
use crate::sections::{led, looked_before};
use bumpalo::Bump;
use bumpalo::collections::into_bump_slice;
use elab_nodes::{exps as nodes, rows, typed};
use elab_scopes::{Names, Stop};
use elab_types::{in_scope, listed, numbered, put, resolved_parameters, resolved_type};
use fut_flat as flat;
use fut_flat::Act;
use fut_tree::{Bind, Exp, Form, Held, LoopForm, TypeExp};

/// An expression with its names resolved.
#[cycle(exps)]
#[tactic(auto)]
fn walked<'a>(
    exp: &'a Exp<'a>,
    bump: &'a Bump,
    names: &mut Names<'a>,
) -> Result<&'a flat::Exp<'a>, Stop<'a>>
    ensures { Went held_term (resolve (source_of exp.now)) names.old names.new result }
{
    match taken_by(exp) {
        Group::Applying => walked_applying(exp, bump, names),
        Group::Choosing => walked_choosing(exp, bump, names),
        Group::Binding => walked_binding(exp, bump, names),
        Group::Joining => walked_joining(exp, bump, names),
        Group::Looping => walked_looping(exp, bump, names),
        Group::Typed => walked_typed(exp, bump, names),
        Group::Gathering => walked_operation(exp, gathered(exp, bump), bump, names),
        Group::Operating => walked_operation(exp, operation_of(exp, bump), bump, names),
    }
}

/// Names, and what is applied.
#[cycle(exps)]
#[tactic(auto, using(crate::proofs::Grouping::group_held))]
fn walked_applying<'a>(
    exp: &'a Exp<'a>,
    bump: &'a Bump,
    names: &mut Names<'a>,
) -> Result<&'a flat::Exp<'a>, Stop<'a>>
    requires { group_of exp.now ≡ group.Applying }
    ensures { Went held_term (resolve (source_of exp.now)) names.old names.new result }
{
    match exp.form {
        Form::Path(path) => used(path, exp.place, bump, names),
        Form::Apply(function, argument) if is_behind(function, argument) => {
            nodes::applied_behind(
                bump,
                exp.place,
                walked(argument, bump, names),
                walked(function, bump, names),
            )
        }
        Form::Apply(function, argument) => {
            nodes::applied(
                bump,
                exp.place,
                walked(function, bump, names),
                walked(argument, bump, names),
            )
        }
        _ => unreachable!(),
    }
}

/// Choices, and assertions.
#[cycle(exps)]
#[tactic(auto, using(crate::proofs::Grouping::group_held))]
fn walked_choosing<'a>(
    exp: &'a Exp<'a>,
    bump: &'a Bump,
    names: &mut Names<'a>,
) -> Result<&'a flat::Exp<'a>, Stop<'a>>
    requires { group_of exp.now ≡ group.Choosing }
    ensures { Went held_term (resolve (source_of exp.now)) names.old names.new result }
{
    match exp.form {
        Form::If(test, yes, no) => {
            nodes::choice(
                bump,
                exp.place,
                walked(test, bump, names),
                walked(yes, bump, names),
                walked(no, bump, names),
            )
        }
        Form::Assert(test, value) => {
            let looked = looked_before(0, value, names);
            let test = led(looked, walked(test, bump, names));
            let value = walked(value, bump, names);
            rows::asserted(bump, exp.place, exp.mark, test, value)
        }
        _ => unreachable!(),
    }
}

/// What binds names for a part.
#[cycle(exps)]
#[tactic(auto, using(crate::proofs::Grouping::group_held))]
fn walked_binding<'a>(
    exp: &'a Exp<'a>,
    bump: &'a Bump,
    names: &mut Names<'a>,
) -> Result<&'a flat::Exp<'a>, Stop<'a>>
    requires { group_of exp.now ≡ group.Binding }
    ensures { Went held_term (resolve (source_of exp.now)) names.old names.new result }
{
    let height = names.height();
    match exp.form {
        Form::Lambda(params, ty, body) => {
            let params = resolved_parameters(params, bump, names);
            let body = walked_body(body, ty, bump, names);
            names.leave(height);
            nodes::lambda(bump, exp.place, params, body)
        }
        Form::Lets(binds, body) => {
            let mut made = Vec::new(bump);
            let went = walked_rows(binds, body, bump, names, &mut made);
            let lets = listed(went, into_bump_slice(made));
            let body = walked(body, bump, names);
            names.leave(height);
            rows::rowed(bump, exp.place, lets, body)
        }
        _ => unreachable!(),
    }
}

/// Operators between two operands.
#[cycle(exps)]
#[tactic(auto, using(crate::proofs::Grouping::group_held))]
fn walked_joining<'a>(
    exp: &'a Exp<'a>,
    bump: &'a Bump,
    names: &mut Names<'a>,
) -> Result<&'a flat::Exp<'a>, Stop<'a>>
    requires { group_of exp.now ≡ group.Joining }
    ensures { Went held_term (resolve (source_of exp.now)) names.old names.new result }
{
    match exp.form {
        Form::Binary(op, left, right) => match operator(op) {
            Some(op) => {
                let parts = nodes::two(bump, walked(left, bump, names), walked(right, bump, names));
                nodes::strict(bump, exp.place, exp.mark, Act::Binary(op), parts)
            }
            None => {
                let height = names.height();
                let first = numbered(left_name(), names);
                let left = walked(left, bump, names);
                let first = in_scope(left_name(), first, names);
                let second = numbered(right_name(), names);
                let right = walked(right, bump, names);
                let argument = numbered(argument_name(), names);
                names.leave(height);
                let parts = functions(first, left, second, right, argument);
                rows::composed(bump, exp.mark, is_left_first(op), parts)
            }
        },
        _ => unreachable!(),
    }
}

/// Loops.
#[cycle(exps)]
#[tactic(auto, using(crate::proofs::Grouping::group_held))]
fn walked_looping<'a>(
    exp: &'a Exp<'a>,
    bump: &'a Bump,
    names: &mut Names<'a>,
) -> Result<&'a flat::Exp<'a>, Stop<'a>>
    requires { group_of exp.now ≡ group.Looping }
    ensures { Went held_term (resolve (source_of exp.now)) names.old names.new result }
{
    match exp.form {
        Form::Loop(sizes, pat, first, turns, body) => {
            match sized_pattern(sizes, pat, bump, names) {
                Ok(head) => {
                    let height = names.height();
                    let first = walked(first, bump, names);
                    let turns = walked_turns(turns, &head, bump, names);
                    let body = walked(body, bump, names);
                    names.leave(height);
                    let bound = rows::Bound {
                        sizes: head.sizes.binds,
                        pat: head.pat.pat,
                    };
                    rows::looped(bump, exp.place, exp.mark, Ok(bound), first, turns, body)
                }
                Err(stop) => Err(stop),
            }
        }
        _ => unreachable!(),
    }
}

/// Expressions with a written type.
#[cycle(exps)]
#[tactic(auto, using(crate::proofs::Grouping::group_held))]
fn walked_typed<'a>(
    exp: &'a Exp<'a>,
    bump: &'a Bump,
    names: &mut Names<'a>,
) -> Result<&'a flat::Exp<'a>, Stop<'a>>
    requires { group_of exp.now ≡ group.Typed }
    ensures { Went held_term (resolve (source_of exp.now)) names.old names.new result }
{
    match exp.form {
        Form::Ascribe(part, ty) => {
            typed::ascribed(
                bump,
                exp.place,
                exp.mark,
                walked(part, bump, names),
                resolved_type(ty, bump, names),
            )
        }
        Form::Coerce(part, ty) => {
            typed::coerced(
                bump,
                exp.place,
                exp.mark,
                walked(part, bump, names),
                resolved_type(ty, bump, names),
            )
        }
        _ => unreachable!(),
    }
}

/// An operation on parts that are evaluated one after another.
#[cycle(exps)]
#[tactic(auto)]
fn walked_operation<'a>(
    exp: &'a Exp<'a>,
    of: Result<Operation<'a>, Stop<'a>>,
    bump: &'a Bump,
    names: &mut Names<'a>,
) -> Result<&'a flat::Exp<'a>, Stop<'a>>
    requires { Built0 (Operates exp.now) of }
    ensures { Went held_term (resolve (source_of exp.now)) names.old names.new result }
{
    match of {
        Ok(of) => {
            let mut made = Vec::new(bump);
            let went = walked_parts(of.parts, bump, names, &mut made);
            let parts = listed(went, into_bump_slice(made));
            nodes::strict(bump, exp.place, exp.mark, of.act, parts)
        }
        Err(stop) => Err(stop),
    }
}

/// Puts the expressions of a list into one that is empty.
#[cycle(exps)]
#[tactic(auto)]
fn walked_parts<'a>(
    parts: &'a [Held<'a, Exp<'a>>],
    bump: &'a Bump,
    names: &mut Names<'a>,
    made: &mut Vec<flat::Exp<'a>, &'a Bump>,
) -> Result<(), Stop<'a>>
    requires { made.old.items ≡ [] }
    ensures { Went (λ u. map term_of made.new.items) (each exp_part parts.now) names.old names.new result }
{
    for part in parts {
        match walked(part.at, bump, names) {
            Ok(exp) => match made.push(*exp) {
                Ok(()) => (),
                Err(_) => return Err(Stop::Memory),
            },
            Err(stop) => return Err(stop),
        }
    }
    Ok(())
}

/// A function's body, with the declared type of its result.
#[cycle(exps)]
#[tactic(auto)]
pub fn walked_body<'a>(
    body: &'a Exp<'a>,
    ty: Option<&'a TypeExp<'a>>,
    bump: &'a Bump,
    names: &mut Names<'a>,
) -> Result<&'a flat::Exp<'a>, Stop<'a>>
    ensures { Went held_term (resolve (declared (maybe ty.entry) (placed body.now))) names.old names.new result }
{
    match ty {
        None => walked(body, bump, names),
        Some(ty) => {
            typed::declared(
                bump,
                body.place,
                resolved_type(ty, bump, names),
                walked(body, bump, names),
            )
        }
    }
}

// ---- lets

/// Puts a row of lets before a body into a list that is empty. Each sees those before it, and what they bind is in scope
/// behind them.
#[cycle(exps)]
#[tactic(auto, using(crate::proofs::RowLaws::rows_start))]
fn walked_rows<'a>(
    binds: &'a [Bind<'a>],
    body: &'a Exp<'a>,
    bump: &'a Bump,
    names: &mut Names<'a>,
    made: &mut Vec<flat::Let<'a>, &'a Bump>,
) -> Result<(), Stop<'a>>
    requires { made.old.items ≡ [] }
    ensures { Entered (λ u. map row_of made.new.items) (each_row (source_of body.now) binds.now (scope_of names.old) (made_of names.old)) names.new result }
{
    let mut left = binds.len();
    for bind in binds {
        left -= 1;
        let looked = looked_before(left, body, names);
        match put(led(looked, walked_row(bind, bump, names)), made) {
            Ok(()) => (),
            Err(stop) => return Err(stop),
        }
    }
    Ok(())
}

/// One let. Its value sees its size and type parameters, and what it binds is in scope behind it.
#[cycle(exps)]
#[tactic(auto)]
fn walked_row<'a>(
    bind: &'a Bind<'a>,
    bump: &'a Bump,
    names: &mut Names<'a>,
) -> Result<flat::Let<'a>, Stop<'a>>
    ensures { Entered row_of (row_part bind.now (scope_of names.old) (made_of names.old)) names.new result }
{
    let head = sized_pattern(bind.sizes, bind.pat, bump, names);
    let height = names.height();
    let heads = brought_heads(bind.heads, bump, names);
    let value = walked(bind.value, bump, names);
    names.leave(height);
    let head = brought_head(head, names);
    let_row(bind.is_function, head, heads, value)
}

// ---- loops

/// Which turns a loop takes. What the loop binds is in scope behind it.
#[cycle(exps)]
#[tactic(auto)]
fn walked_turns<'a>(
    turns: &'a LoopForm<'a>,
    head: &Head<'a>,
    bump: &'a Bump,
    names: &mut Names<'a>,
) -> Result<rows::Turning<'a>, Stop<'a>>
    ensures { Entered (λ (t : Turning). turns_of t.form) (turns_part turns.now (head_of head.now) (scope_of names.old) (made_of names.old)) names.new result }
{
    match turns {
        LoopForm::For(name, count) => {
            let bind = numbered(*name, names);
            let count = walked(*count, bump, names);
            counted(brought_name(*name, bind, head, names), count)
        }
        LoopForm::ForIn(pat, array) => {
            let pat = element_pattern(*pat, head, bump, names);
            let array = walked(*array, bump, names);
            over(brought_pattern(pat, head, names), array)
        }
        LoopForm::While(test) => {
            let brought = bring_head(head, names);
            repeated(brought, walked(*test, bump, names))
        }
    }
}
