// Fields of what is looked at: a path of fields from a name is no value yet.
ghost use Rattle.std.specs.Prelude.{◌≡◌, IfOk};
ghost use Rattle.fut_aliases.specs.Aliases.{Naming};
ghost use Rattle.fut_aliases.specs.Looking.{projected};
ghost use Rattle.fut_aliases.specs.Patterns.{Scope};
ghost use Rattle.fut_flat.specs.Erased.{FlatTerm};
ghost use Rattle.fut_types.specs.Shapes.{IsTable};
ghost use Rattle.fut_types.specs.Types.{Kinds};
ghost use Rattle.fut_typing.specs.Names.{Names};
ghost use Rattle.alias_applications.specs.Shown.{NamedAs};
ghost use Rattle.alias_parts.specs.Known.{Knows};
ghost use Rattle.alias_program.specs.Parts.{part_of};
ghost use Rattle.alias_program.specs.Program.{sub_of};
ghost use Rattle.alias_types.specs.Kinds.{kinds_of};
ghost use Rattle.uniqueness.specs.Answers.{Stepped};
ghost use Rattle.uniqueness.specs.Held.{here_of};
ghost use Rattle.alias_operations.specs.Paths.{field_of_path, is_path};

use alias_applications::{Told, finished, whole};
use alias_losses::Losses;
use alias_parts::part_named;
use alias_program::{Part, Program, after, type_at};
use bumpalo::Bump;
use fut_aliases::Named;
use fut_scalar::NoMemory;
use uniqueness::{Held, Here, Stop};

// Whether a part is a name, or a path of fields from one, without arguments.
fn is_path(part: &Part<'_>) -> bool
    ensures { result ≡ is_path (part_of part.now) }
{
    match part.name {
        Some(_) => part.arguments.is_empty(),
        None => false,
    }
}

// A path with one field more.
fn field_of_path<'a>(
    bump: &'a Bump,
    program: &Program<'a>,
    field: &str,
    node: u32,
    part: &Part<'a>,
) -> Result<Part<'a>, NoMemory>
    requires table { IsTable program.now.names.table.now }
    ensures { (N : Names) → Knows program.now.names N → IfOk result (λ longer. part_of longer ≡ field_of_path N field.now (sub_of program.now.types.now node) (part_of part.now)) }
{
    let ty = type_at(program, node)?;
    let value = part_named(bump, &program.names, field, part.head.value)?;
    let head = Held {
        called: Named::AFunction,
        value,
        ..part.head
    };
    Ok(Part { head, ty, ..*part })
}

/// The field of what was looked at: a path of fields goes on, and of any other term the value is taken first. This is told of the
/// projection.
pub fn projected<'a>(
    bump: &'a Bump,
    program: &Program<'a>,
    here: &Here<'_>,
    losses: &mut Losses,
    field: &str,
    told: Told,
    part: &Part<'a>,
) -> Result<Part<'a>, Stop>
    requires table { IsTable program.now.names.table.now }
    ensures { (naming : Naming) (N : Names) → Knows program.now.names N → (scope : Scope) (e : FlatTerm) → NamedAs e told → Stepped part_of (projected naming N (kinds_of program.now.kinds.now) (sub_of program.now.types.now) (here_of scope here.now) e field.now told.node (part_of part.now)) losses.old losses.new result }
{
    if is_path(part) {
        return match field_of_path(bump, program, field, told.node, part) {
            Ok(longer) => Ok(longer),
            Err(_) => Err(Stop::Memory),
        };
    }
    let Ok(node) = after(told.node, 2) else {
        return Err(Stop::Memory);
    };
    let value = finished(bump, program, here, losses, node, part)?;
    let Ok(found) = part_named(bump, &program.names, field, value) else {
        return Err(Stop::Memory);
    };
    whole(bump, program, losses, told, found)
}
