//! Expressions of a source text, with their names resolved and their sugar opened. `elab_scopes/specs/Resolve.antt` is
//! the definition, `fut_flat/specs/Sources.antt` says which sugar a tree has.
#![tactic(auto)]

ghost use Rattle.fut_flat.specs.Sources.{declared, placed};
ghost use Rattle.fut_tree.specs.Names.{maybe};
ghost use Rattle.elab_nodes.specs.Held.{held_term};
ghost use Rattle.elab_scopes.specs.Answers.{Went};
ghost use Rattle.elab_scopes.specs.Resolve.{resolve};

mod bindings;
mod composing;
mod exps;
mod groups;
mod heads;
mod leaves;
mod lists;
mod operations;
mod sections;
mod values;

use bumpalo::Bump;
use elab_scopes::{Names, Stop};
use fut_flat as flat;
use fut_tree::{Exp, TypeExp};
pub use heads::brought_heads;
pub use leaves::used;
pub use values::definition_value;

/// A body with its names resolved and its sugar opened, held by the arena, and the declared type of its result, where one
/// is written. The names in scope are as before. The first name that is refused, in order of text, is the answer, or memory
/// ran out.
pub fn resolved_body<'a>(
    body: &'a Exp<'a>,
    ty: Option<&'a TypeExp<'a>>,
    bump: &'a Bump,
    names: &mut Names<'a>,
) -> Result<&'a flat::Exp<'a>, Stop<'a>>
    ensures { Went held_term (resolve (declared (maybe ty.entry) (placed body.now))) names.old names.new result }
{
    exps::walked_body(body, ty, bump, names)
}
