// Operations on parts that are evaluated one after another.
ghost use Rattle.std.specs.Prelude.{◌≡◌, ◌∷◌, map};
ghost use Rattle.fut_flat.specs.Terms.{Index, Record_of};
ghost use Rattle.fut_tree.specs.Names.{all};
ghost use Rattle.fut_tree.specs.declared.exp.ExpField.{ExpField};
ghost use Rattle.elab_nodes.specs.Built.{Built0, Built1};
ghost use Rattle.elab_exps.specs.Groups.{group_of};
ghost use Rattle.elab_exps.specs.declared.groups.Group.TheVariants as group;
ghost use Rattle.elab_exps.specs.Lists.{all_exps, part_of};
ghost use Rattle.elab_exps.specs.Operations.{Acts, On, Operates, Parted};

use crate::leaves::negation;
use crate::lists::{
    field_exps, field_names, index_exps, index_kinds, one_exp, range_exps, two_exps, update_exps,
};
use bumpalo::Bump;
use elab_scopes::Stop;
use fut_flat::Act;
use fut_tree::{Exp, ExpField, Form, Held, Ix};

/// An operation, and its parts in the order in which they are evaluated.
#[derive(Clone, Copy)]
pub struct Operation<'a> {
    pub act: Act<'a>,
    pub parts: &'a [Held<'a, Exp<'a>>],
}

fn on<'a>(
    act: Act<'a>,
    parts: Result<&'a [Held<'a, Exp<'a>>], Stop<'a>>,
) -> Result<Operation<'a>, Stop<'a>>
    ensures { Built1 (λ hs f. f ≡ record { act = act.entry; parts = hs }) parts.entry result }
{
    match parts {
        Ok(parts) => Ok(Operation { act, parts }),
        Err(stop) => Err(stop),
    }
}

fn on_fields<'a>(fields: &'a [ExpField<'a>], bump: &'a Bump) -> Result<Operation<'a>, Stop<'a>>
    ensures { Built0 (On (Record_of (map (λ (f : ExpField). f.name.now) fields.now)) (map (λ (f : ExpField). f.exp.now) fields.now)) result }
{
    match field_names(fields, bump) {
        Ok(names) => on(Act::Record(names), field_exps(fields, bump)),
        Err(stop) => Err(stop),
    }
}

fn on_index<'a>(
    array: &'a Exp<'a>,
    ixs: &'a [Ix<'a>],
    bump: &'a Bump,
) -> Result<Operation<'a>, Stop<'a>>
    ensures { Built0 (On (Index (map part_of ixs.now)) (array.now ∷ all_exps ixs.now)) result }
{
    match index_kinds(ixs, bump) {
        Ok(kinds) => on(Act::Index(kinds), index_exps(array, ixs, bump)),
        Err(stop) => Err(stop),
    }
}

/// A record or an index, and its parts.
#[tactic(auto, using(crate::proofs::Grouping::group_held))]
pub fn gathered<'a>(exp: &'a Exp<'a>, bump: &'a Bump) -> Result<Operation<'a>, Stop<'a>>
    requires { group_of exp.now ≡ group.Gathering }
    ensures { Built0 (Operates exp.now) result }
{
    match exp.form {
        Form::Record(fields) => on_fields(fields, bump),
        Form::Index(array, ixs) => on_index(array, ixs, bump),
        _ => unreachable!(),
    }
}

/// What any other operation does.
#[tactic(auto, using(crate::proofs::Grouping::group_held))]
fn act_of<'a>(exp: &'a Exp<'a>) -> Act<'a>
    requires { group_of exp.now ≡ group.Operating }
    ensures { Acts exp.now result }
{
    match exp.form {
        Form::Int { value, ty } => Act::Int { value, ty },
        Form::Bool(value) => Act::Truth(value),
        Form::Unit => Act::Tuple,
        Form::Tuple(_) => Act::Tuple,
        Form::Array(_) => Act::Array,
        Form::Unary(op, _) => negation(op),
        Form::Field(_, name) => Act::Project(name),
        Form::Update(_, _, _) => Act::Update,
        Form::Replace(_, name, _) => Act::Replace(name),
        Form::Range { next, end, .. } => Act::Range {
            stepped: next.is_some(),
            end,
        },
        _ => unreachable!(),
    }
}

/// The parts of any other operation.
#[tactic(auto, using(crate::proofs::Grouping::group_held))]
fn parts_of<'a>(exp: &'a Exp<'a>, bump: &'a Bump) -> Result<&'a [Held<'a, Exp<'a>>], Stop<'a>>
    requires { group_of exp.now ≡ group.Operating }
    ensures { Built0 (λ hs. Parted exp.now (all hs.now)) result }
{
    match exp.form {
        Form::Int { .. } => Ok(&[]),
        Form::Bool(_) => Ok(&[]),
        Form::Unit => Ok(&[]),
        Form::Tuple(parts) => Ok(parts),
        Form::Array(parts) => Ok(parts),
        Form::Unary(_, part) => one_exp(part, bump),
        Form::Field(part, _) => one_exp(part, bump),
        Form::Update(array, at, value) => update_exps(array, at, value, bump),
        Form::Replace(part, _, value) => two_exps(part, value, bump),
        Form::Range { from, next, to, .. } => range_exps(from, next, to, bump),
        _ => unreachable!(),
    }
}

/// Any other operation, and its parts.
pub fn operation_of<'a>(exp: &'a Exp<'a>, bump: &'a Bump) -> Result<Operation<'a>, Stop<'a>>
    requires { group_of exp.now ≡ group.Operating }
    ensures { Built0 (Operates exp.now) result }
{
    on(act_of(exp), parts_of(exp, bump))
}
