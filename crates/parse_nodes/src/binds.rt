// What lets bind: functions and updates of arrays; and paths of names.
ghost use Rattle.std.specs.Prelude.{◌≡◌, [], ◌∷◌, IfOk, true};
ghost use Rattle.fut_ast.specs.Nodes.{bound, exp_at, let_one, node, use_of};
ghost use Rattle.fut_ast.specs.Sorts.{Path, Text};
ghost use Rattle.fut_ast.specs.declared.exp.Bind.{roll-Bind};
ghost use Rattle.fut_ast.specs.declared.exp.Form.TheVariants as form;
ghost use Rattle.fut_tree.specs.Exps.{bind_of};
ghost use Rattle.fut_tree.specs.Names.{all, maybe, names};
ghost use Rattle.fut_tree.specs.Pats.{heads_of};

use crate::exp_nodes::{function, name_let, name_used, updated};
use bumpalo::Bump;
use fut_scalar::{NoMemory, Place};
use fut_tree::{Bind, Exp, Head, Held, Pat, TypeExp};
use parse_types::lists::led_by;
use parse_types::pat_nodes;

/// A function's name is bound to a function.
pub fn function_bound<'a>(
    bump: &'a Bump,
    place: Place,
    name: &'a str,
    heads: &'a [Head<'a>],
    params: &'a [Held<'a, Pat<'a>>],
    ty: Option<&'a TypeExp<'a>>,
    body: &'a Exp<'a>,
) -> Result<Bind<'a>, NoMemory>
    ensures { IfOk result (λ b. bind_of b ≡ roll-Bind (record { sizes = []; pat = bound place name.now; is_function = true; heads = heads_of heads.now; value = exp_at place (form.Lambda (all params.now) (maybe ty.entry) body.now) })) }
{
    let value = match function(bump, place, params, ty, body) {
        Ok(value) => value,
        Err(none) => return Err(none),
    };
    match pat_nodes::name(bump, place, name) {
        Ok(pat) => Ok(Bind {
            sizes: &[],
            pat,
            is_function: true,
            heads,
            value,
        }),
        Err(none) => Err(none),
    }
}

/// An array's name is bound to the array with another element.
pub fn update_bound<'a>(
    bump: &'a Bump,
    place: Place,
    mark: Place,
    name: &'a str,
    indices: &'a [Held<'a, Exp<'a>>],
    value: &'a Exp<'a>,
) -> Result<Bind<'a>, NoMemory>
    ensures { IfOk result (λ b. bind_of b ≡ let_one (bound place name.now) (node place mark (form.Update (use_of place name.now) (all indices.now) value.now))) }
{
    match name_used(bump, place, name) {
        Ok(array) => match updated(bump, place, mark, array, indices, value) {
            Ok(made) => name_let(bump, place, name, made),
            Err(none) => Err(none),
        },
        Err(none) => Err(none),
    }
}

/// A name before other names.
pub fn path_behind<'a>(
    bump: &'a Bump,
    name: &'a str,
    others: &'a [&'a str],
) -> Result<&'a [&'a str], NoMemory>
    ensures { IfOk result (λ all. names all.now ≡ name.now ∷ names others.now) }
{
    match led_by(bump, name, others) {
        Ok(all) => Ok(all),
        Err(_) => Err(NoMemory),
    }
}
