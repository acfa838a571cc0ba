// The value of a term that waits for other parts.
ghost use Rattle.std.specs.Prelude.{Ok};
ghost use Rattle.fut_aliases.specs.Aliases.{Naming};
ghost use Rattle.fut_aliases.specs.Looking.{held, whole};
ghost use Rattle.fut_flat.specs.Erased.{FlatTerm};
ghost use Rattle.fut_types.specs.Types.{Kinds};
ghost use Rattle.fut_typing.specs.Names.{Names};
ghost use Rattle.alias_program.specs.Parts.{part_of};
ghost use Rattle.alias_program.specs.Program.{sub_of};
ghost use Rattle.alias_values.specs.Trees.{value_of};
ghost use Rattle.uniqueness.specs.Answers.{Stepped};
ghost use Rattle.uniqueness.specs.Held.{held_of};
ghost use Rattle.alias_applications.specs.Shown.{NamedAs};

use alias_losses::Losses;
use alias_program::{Part, Program, type_at};
use alias_values::ValueTree;
use bumpalo::Bump;
use bumpalo::collections::into_bump_slice;
use fut_aliases::Named;
use uniqueness::{Held, Stop};

/// What a refusal tells of a term.
#[derive(Clone, Copy)]
pub struct Told {
    /// Where it begins.
    pub node: u32,
    /// What it is called if it is a function.
    pub called: Named,
    /// The first name in it.
    pub first_name: Named,
}

/// The value of a term, which waits for other parts.
pub fn hold<'a>(losses: &Losses, told: Told, value: &'a ValueTree<'a>) -> Held<'a>
    ensures { (e : FlatTerm) → NamedAs e told → Stepped held_of (held e told.node (value_of value.now)) losses.now losses.now (Ok result) }
{
    Held {
        node: told.node,
        called: told.called,
        first_name: told.first_name,
        value,
        losses: losses.len(),
    }
}

/// A value at the node of a term that is no name.
pub fn whole<'a>(
    bump: &'a Bump,
    program: &Program<'a>,
    losses: &Losses,
    told: Told,
    value: &'a ValueTree<'a>,
) -> Result<Part<'a>, Stop>
    ensures { (naming : Naming) (N : Names) (K : Kinds) (e : FlatTerm) → NamedAs e told → Stepped part_of (whole naming N K (sub_of program.now.types.now) e told.node (value_of value.now)) losses.now losses.now result }
{
    let Ok(ty) = type_at(program, told.node) else {
        return Err(Stop::Memory);
    };
    Ok(Part {
        head: hold(losses, told, value),
        name: None,
        ty,
        arguments: into_bump_slice(Vec::new(bump)),
    })
}
