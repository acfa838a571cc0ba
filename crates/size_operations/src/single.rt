// Operations on a tuple, a record or what a type is written of.
ghost use Rattle.std.specs.Prelude.{ℕ};
ghost use Rattle.fut_flat.specs.Erased.{type_of};
ghost use Rattle.fut_flat.specs.Terms.{Ascribe, Coerce, Declared, Project, Replace, Terms};
ghost use Rattle.fut_flat.specs.declared.prim.Ref.{Ref as TheRef};
ghost use Rattle.fut_scalar.specs.declared.place.BindId.{BindId};
ghost use Rattle.fut_sizes.specs.Operations.{operation};
ghost use Rattle.fut_types.specs.Shapes.{IsTable};
ghost use Rattle.fut_types.specs.Types.{Sub};
ghost use Rattle.fut_typing.specs.Names.{Names};
ghost use Rattle.alias_parts.specs.Known.{Knows};
ghost use Rattle.size_arena.specs.Trees.{sizes_of};
ghost use Rattle.size_program.specs.Program.{sub_of};
ghost use Rattle.size_operations.specs.Answers.{Sized};

use crate::answers::sized;
use alias_parts::PartNames;
use bumpalo::Bump;
use fut_flat::TypeExp;
use size_arena::{SizeErr, SizeTree};
use size_program::{Program, plain_size};
use size_written::{ascribed, changed_part, coercion, declared, part_of};

/// The part with this name.
pub(crate) fn project<'a>(
    name: &str,
    node: u32,
    sizes: &'a [SizeTree<'a>],
    program: &Program<'a>,
    bump: &'a Bump,
) -> Result<&'a SizeTree<'a>, SizeErr>
    requires table { IsTable program.now.names.table.now }
    ensures { (N : Names) → Knows program.now.names N → (at : ℕ) (es : Terms TheRef BindId) → Sized (operation N (sub_of program.now.types.now) (Project name.now) node at es (sizes_of sizes.now)) result }
{
    if sizes.len() != 1 {
        return Err(SizeErr::Memory);
    }
    let found = part_of(&program.names, name, &sizes[0])?;
    match found {
        Some(part) => Ok(part),
        None => sized(plain_size(program, node, bump)),
    }
}

/// The first of these with the second as the part with this name.
pub(crate) fn replace<'a>(
    name: &str,
    sizes: &'a [SizeTree<'a>],
    names: &PartNames<'a>,
    bump: &'a Bump,
) -> Result<&'a SizeTree<'a>, SizeErr>
    requires table { IsTable names.now.table.now }
    ensures { (N : Names) → Knows names.now N → (types : Sub) (node at : ℕ) (es : Terms TheRef BindId) → Sized (operation N types (Replace name.now) node at es (sizes_of sizes.now)) result }
{
    if sizes.len() != 2 {
        return Err(SizeErr::Memory);
    }
    sized(changed_part(bump, names, name, &sizes[1], &sizes[0]))
}

/// What a type is ascribed to.
pub(crate) fn ascribe<'a>(
    written: &TypeExp<'_>,
    first: u32,
    sizes: &'a [SizeTree<'a>],
    names: &PartNames<'a>,
    bump: &'a Bump,
) -> Result<&'a SizeTree<'a>, SizeErr>
    requires table { IsTable names.now.table.now }
    ensures { (N : Names) → Knows names.now N → (types : Sub) (node : ℕ) (es : Terms TheRef BindId) → Sized (operation N types (Ascribe (type_of written.now)) node first es (sizes_of sizes.now)) result }
{
    if sizes.len() != 1 {
        return Err(SizeErr::Memory);
    }
    ascribed(bump, names, first, written, &sizes[0])
}

/// What is coerced to a type.
pub(crate) fn coerce<'a>(
    written: &TypeExp<'_>,
    first: u32,
    sizes: &'a [SizeTree<'a>],
    names: &PartNames<'a>,
    bump: &'a Bump,
) -> Result<&'a SizeTree<'a>, SizeErr>
    requires table { IsTable names.now.table.now }
    ensures { (N : Names) → Knows names.now N → (types : Sub) (node : ℕ) (es : Terms TheRef BindId) → Sized (operation N types (Coerce (type_of written.now)) node first es (sizes_of sizes.now)) result }
{
    if sizes.len() != 1 {
        return Err(SizeErr::Memory);
    }
    coercion(bump, names, first, written, &sizes[0])
}

/// A function's result, whose type is declared.
pub(crate) fn declare<'a>(
    written: &TypeExp<'_>,
    node: u32,
    first: u32,
    sizes: &'a [SizeTree<'a>],
    names: &PartNames<'a>,
    bump: &'a Bump,
) -> Result<&'a SizeTree<'a>, SizeErr>
    requires table { IsTable names.now.table.now }
    ensures { (N : Names) → Knows names.now N → (types : Sub) (es : Terms TheRef BindId) → Sized (operation N types (Declared (type_of written.now)) node first es (sizes_of sizes.now)) result }
{
    if sizes.len() != 1 {
        return Err(SizeErr::Memory);
    }
    declared(bump, names, node, first, written, &sizes[0])
}
