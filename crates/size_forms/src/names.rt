// Uses of names.
ghost use Rattle.std.specs.Prelude.{◌≡◌, IfOk};
ghost use Rattle.fut_sizes.specs.Primitives.{prim_size};
ghost use Rattle.fut_sizes.specs.Scopes.{Scope, used as used_size};
ghost use Rattle.fut_sizes.specs.Sizing.{use_known, use_of};
ghost use Rattle.fut_typing.specs.Names.{Names};
ghost use Rattle.size_applying.specs.Wanted.{Is_part};
ghost use Rattle.size_arena.specs.Trees.{size_of};
ghost use Rattle.size_program.specs.Program.{sub_of};
ghost use Rattle.size_program.specs.Tables.{In_scope};

use bumpalo::Bump;
use fut_flat::{Primitive, Ref};
use fut_scalar::NoMemory;
use size_applying::Part;
use size_arena::SizeTree;
use size_making::{is_regular, primitive_size, used};
use size_program::{NumberMap, Program, find, plain_size, type_at};

/// What the use at a node of a name that the program binds gives: where it is general, each type variable is open.
#[tactic(auto, using(crate::proofs::NameForms::bound_names))]
fn bound_name<'a>(
    name: u32,
    node: u32,
    names: &'a NumberMap<'a>,
    program: &Program<'a>,
    bump: &'a Bump,
) -> Result<&'a SizeTree<'a>, NoMemory>
    ensures { (N : Names) (scope : Scope) → In_scope names.now scope → IfOk result (λ made. size_of made.now ≡ use_known N (sub_of program.now.types.now) node (scope name)) }
{
    match find(names, name) {
        None => plain_size(program, node, bump),
        Some(known) => {
            if !known.is_general {
                return Ok(known.size);
            }
            let ty = type_at(program, node)?;
            used(node, ty, known.size, bump)
        }
    }
}

fn primitive_name<'a>(
    primitive: Primitive,
    node: u32,
    program: &Program<'a>,
    bump: &'a Bump,
) -> Result<&'a SizeTree<'a>, NoMemory>
    ensures { IfOk result (λ made. size_of made.now ≡ used_size node (sub_of program.now.types.now node) (prim_size primitive)) }
{
    let ty = type_at(program, node)?;
    let size = primitive_size(primitive, bump)?;
    used(node, ty, size, bump)
}

/// What the use of a name at a node gives.
pub fn use_name<'a>(
    name: Ref,
    node: u32,
    names: &'a NumberMap<'a>,
    program: &Program<'a>,
    bump: &'a Bump,
) -> Result<Part<'a>, NoMemory>
    ensures { (N : Names) (scope : Scope) → In_scope names.now scope → IfOk result (λ part. Is_part N (sub_of program.now.types.now) part (use_of N (sub_of program.now.types.now) node scope name)) }
{
    match name {
        Ref::Bound(bind) => {
            let size = bound_name(bind.0, node, names, program, bump)?;
            Ok(Part::Applied {
                size,
                is_regular: false,
                arguments: &[],
            })
        }
        Ref::Prim(primitive) => {
            let size = primitive_name(primitive, node, program, bump)?;
            Ok(Part::Applied {
                size,
                is_regular: is_regular(primitive),
                arguments: &[],
            })
        }
        Ref::Scalar(_) => {
            let size = plain_size(program, node, bump)?;
            Ok(Part::Applied {
                size,
                is_regular: false,
                arguments: &[],
            })
        }
    }
}
