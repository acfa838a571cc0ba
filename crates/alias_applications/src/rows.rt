// A row of applications, whose arguments are looked at one after another.
ghost use Rattle.std.specs.Prelude.{◌≡◌, IfOk};
ghost use Rattle.fut_aliases.specs.Aliases.{Naming};
ghost use Rattle.fut_aliases.specs.Calls.{finished};
ghost use Rattle.fut_aliases.specs.Looking.{held, ready, wanted_parameter, with_argument};
ghost use Rattle.fut_aliases.specs.Patterns.{Scope};
ghost use Rattle.fut_aliases.specs.Steps.{and_then};
ghost use Rattle.fut_flat.specs.Erased.{FlatTerm};
ghost use Rattle.fut_types.specs.Types.{Kinds, Sub};
ghost use Rattle.fut_typing.specs.Names.{Names};
ghost use Rattle.alias_program.specs.Parts.{part_of};
ghost use Rattle.alias_program.specs.Program.{sub_of};
ghost use Rattle.alias_types.specs.Kinds.{kinds_of};
ghost use Rattle.uniqueness.specs.Answers.{Stepped};
ghost use Rattle.uniqueness.specs.Held.{held_of, here_of};
ghost use Rattle.alias_applications.specs.Shown.{NamedAs, part_with, wanted_of};

use crate::calls::{finished, finished_with};
use crate::given::stars_behind;
use crate::parts::{Told, hold, whole};
use alias_losses::Losses;
use alias_program::{Part, Program};
use alias_values::{StarTree, ValueTree};
use bumpalo::Bump;
use bumpalo::collections::into_bump_slice;
use fut_scalar::NoMemory;
use uniqueness::{Held, Here, Stop, use_name};

/// A term by itself, which waits for other parts with the value that it has then.
pub fn by_itself<'a>(
    bump: &'a Bump,
    program: &Program<'a>,
    here: &Here<'_>,
    losses: &mut Losses,
    told: Told,
    part: &Part<'a>,
) -> Result<Held<'a>, Stop>
    ensures { (scope : Scope) (e : FlatTerm) → NamedAs e told → Stepped held_of (and_then (finished (kinds_of program.now.kinds.now) (here_of scope here.now) told.node (part_of part.now)) (λ v. held e told.node v)) losses.old losses.new result }
{
    let value = finished(bump, program, here, losses, told.node, part)?;
    Ok(hold(losses, told, value))
}

/// A function, of which this is told, before its next argument: it is used, and called where it has all its arguments, of which
/// it then has none.
pub fn ready<'a>(
    bump: &'a Bump,
    program: &Program<'a>,
    here: &Here<'_>,
    losses: &mut Losses,
    told: Told,
    part: &Part<'a>,
    arguments: &mut Vec<Held<'a>, &'a Bump>,
) -> Result<Part<'a>, Stop>
    ensures { (naming : Naming) (N : Names) (scope : Scope) (f : FlatTerm) → NamedAs f told → Stepped (λ q. part_with q arguments.new.items) (ready naming N (kinds_of program.now.kinds.now) (sub_of program.now.types.now) (here_of scope here.now) f told.node (part_with part.now arguments.old.items)) losses.old losses.new result }
{
    if arguments.is_empty() {
        use_name(bump, here, losses, part.name, &part.head)?;
        return Ok(Part {
            name: None,
            ..*part
        });
    }
    let wanted = wanted_parameter(part, arguments.as_slice());
    if wanted.is_some() {
        return Ok(*part);
    }
    let value = finished_with(
        bump,
        program,
        here,
        losses,
        told.node,
        part,
        arguments.as_slice(),
    )?;
    arguments.clear();
    whole(bump, program, losses, told, value)
}

/// What is wanted of the next argument if it is a function: the stars of its parameter, if there is one.
#[tactic(auto, using(crate::proofs::GivenForms::wanted_forms))]
pub fn wanted_parameter<'a>(part: &Part<'a>, arguments: &[Held<'_>]) -> Option<&'a StarTree<'a>>
    ensures { wanted_of result ≡ wanted_parameter (part_with part.now arguments.now) }
{
    match part.head.value {
        ValueTree::Function(_, stars) => match stars_behind(arguments, stars) {
            StarTree::Arrow(_, parameter, _) => Some(*parameter),
            StarTree::Leaf(_) | StarTree::Row(_) => None,
        },
        ValueTree::Scalar | ValueTree::Array(_) | ValueTree::Parts(_, _) => None,
    }
}

/// One more argument.
pub fn with_argument<'a>(
    part: &Part<'a>,
    arguments: &mut Vec<Held<'a>, &'a Bump>,
    argument: &Held<'a>,
) -> Result<Part<'a>, NoMemory>
    ensures { (naming : Naming) (N : Names) (K : Kinds) (types : Sub) → IfOk result (λ longer. part_with longer arguments.new.items ≡ with_argument naming N K types (part_with part.now arguments.old.items) (held_of argument.now)) }
{
    arguments.push(*argument)?;
    Ok(Part {
        name: None,
        ..*part
    })
}

/// The part with these arguments, held by the arena.
pub fn gathered<'a>(part: &Part<'a>, arguments: Vec<Held<'a>, &'a Bump>) -> Part<'a>
    ensures { part_of result ≡ part_with part.now arguments.entry.items }
{
    Part {
        arguments: into_bump_slice(arguments),
        ..*part
    }
}
