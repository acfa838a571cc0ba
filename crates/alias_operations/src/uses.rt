// Uses of names.
ghost use Rattle.std.specs.Prelude.{◌≡◌, IfOk};
ghost use Rattle.fut_aliases.specs.Aliases.{Naming};
ghost use Rattle.fut_aliases.specs.Looking.{use_value};
ghost use Rattle.fut_typing.specs.Names.{Names};
ghost use Rattle.alias_scopes.specs.Scopes.{scope_of};
ghost use Rattle.alias_types.specs.Kinds.{kinds_of};
ghost use Rattle.alias_values.specs.Trees.{value_of};
ghost use Rattle.alias_program.specs.Program.{sub_of};

use alias_joins::primitive_stars;
use alias_program::{Program, no_alias, type_at};
use alias_scopes::{ScopeTree, value_at};
use alias_types::{at_type, of_type, with_stars};
use alias_values::ValueTree;
use bumpalo::Bump;
use fut_flat::Ref;
use fut_scalar::NoMemory;

/// The value of a name that is used at a node.
#[tactic(auto, using(crate::proofs::UseForms::use_forms))]
pub fn used<'a>(
    bump: &'a Bump,
    program: &Program<'a>,
    scope: &ScopeTree<'a>,
    name: Ref,
    node: u32,
) -> Result<&'a ValueTree<'a>, NoMemory>
    ensures { (naming : Naming) (N : Names) → IfOk result (λ value. value_of value.now ≡ use_value naming N (kinds_of program.now.kinds.now) (sub_of program.now.types.now) node (scope_of scope.now) name) }
{
    let ty = type_at(program, node)?;
    match name {
        Ref::Bound(bind) => match value_at(scope, bind) {
            Some(value) => at_type(bump, program.kinds, ty, value),
            None => of_type(bump, program.kinds, no_alias(bump), ty),
        },
        Ref::Prim(primitive) => {
            let stars = primitive_stars(bump, primitive)?;
            with_stars(bump, program.kinds, no_alias(bump), stars, ty)
        }
        Ref::Scalar(_) => of_type(bump, program.kinds, no_alias(bump), ty),
    }
}
