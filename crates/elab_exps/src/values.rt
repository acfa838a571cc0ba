// The values of definitions.
ghost use Rattle.fut_tree.specs.Names.{all, maybe};
ghost use Rattle.elab_nodes.specs.Held.{held_term};
ghost use Rattle.elab_scopes.specs.Answers.{Went};
ghost use Rattle.elab_scopes.specs.Programs.{definition_term};
ghost use Rattle.elab_scopes.specs.Resolve.{resolve};

use crate::resolved_body;
use bumpalo::Bump;
use elab_nodes::exps;
use elab_scopes::{Names, Stop};
use elab_types::resolved_parameters;
use fut_flat as flat;
use fut_tree::{Exp, Held, Pat, TypeExp};

/// The value of a definition. With parameters it is a function.
#[tactic(auto, using(crate::proofs::ValueLaws::value_none))]
pub fn definition_value<'a>(
    params: &'a [Held<'a, Pat<'a>>],
    ty: Option<&'a TypeExp<'a>>,
    value: &'a Exp<'a>,
    bump: &'a Bump,
    names: &mut Names<'a>,
) -> Result<&'a flat::Exp<'a>, Stop<'a>>
    ensures { Went held_term (resolve (definition_term (all params.now) (maybe ty.entry) value.now)) names.old names.new result }
{
    if params.is_empty() {
        return resolved_body(value, ty, bump, names);
    }
    let height = names.height();
    let pats = resolved_parameters(params, bump, names);
    let body = resolved_body(value, ty, bump, names);
    names.leave(height);
    exps::lambda(bump, value.place, pats, body)
}
