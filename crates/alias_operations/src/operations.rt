// What an operation makes of its parts.
ghost use Rattle.std.specs.Prelude.{◌≡◌, ℕ, IfOk, List, true};
ghost use Rattle.fut_aliases.specs.Operations.{first_value, of_parts, operation, without_part};
ghost use Rattle.fut_aliases.specs.Calls.{Here as AHere};
ghost use Rattle.fut_aliases.specs.Values.{part_named};
ghost use Rattle.fut_aliases.specs.Patterns.{Scope};
ghost use Rattle.fut_flat.specs.Erased.{operation_of, texts, type_of as written_type};
ghost use Rattle.fut_flat.specs.Terms.{Ascribe, Index, Project, Record_of, Replace, Tuple_of, Update};
ghost use Rattle.fut_flat.specs.declared.act.Act.{Act as AnAct};
ghost use Rattle.fut_flat.specs.declared.act.Part.{Part as IndexPart};
ghost use Rattle.fut_scalar.specs.declared.place.Place.{Place as APlace};
ghost use Rattle.fut_types.specs.Shapes.{IsTable};
ghost use Rattle.fut_types.specs.Types.{Kinds, Sub};
ghost use Rattle.fut_typing.specs.Names.{Names};
ghost use Rattle.alias_parts.specs.Known.{Knows};
ghost use Rattle.alias_program.specs.Program.{sub_of};
ghost use Rattle.alias_types.specs.Kinds.{kinds_of};
ghost use Rattle.alias_values.specs.Trees.{value_of};
ghost use Rattle.uniqueness.specs.Answers.{Stepped};
ghost use Rattle.uniqueness.specs.Held.{held_of, helds_of, here_of};
ghost use Rattle.alias_applications.specs.Shown.{shown_value};
ghost use Rattle.alias_operations.specs.Operating.{is_fresh};

use crate::records::record_of;
use crate::values::{first_value, fresh, indexed, tuple_of};
use alias_applications::ascribe;
use alias_losses::Losses;
use alias_parts::{part_named, with_part_named};
use alias_patterns::stars_at;
use alias_program::Program;
use alias_values::{ValueTree, scalar};
use bumpalo::Bump;
use fut_flat::{Act, TypeExp};
use fut_scalar::{NoMemory, Place};
use uniqueness::{Held, Here, Stop, settle, update};

// Whether an operation makes a value that shares with nothing.
fn is_fresh(act: &Act<'_>) -> bool
    ensures { result ≡ is_fresh act.now }
{
    match *act {
        Act::Int { .. } => true,
        Act::Truth(_) => true,
        Act::Array => true,
        Act::Binary(_) => true,
        Act::Negate => true,
        Act::Complement => true,
        Act::Assert => true,
        Act::Range { .. } => true,
        Act::Tuple => false,
        Act::Record(_) => false,
        Act::Index(_) => false,
        Act::Project(_) => false,
        Act::Update => false,
        Act::Replace(_) => false,
        Act::Ascribe(_) => false,
        Act::Coerce(_) => false,
        Act::Declared(_) => false,
    }
}

// This value, when no part shares with what a later part consumed.
fn of_parts<'a>(
    bump: &Bump,
    here: &Here<'_>,
    losses: &Losses,
    parts: &[Held<'_>],
    value: &'a ValueTree<'a>,
) -> Result<&'a ValueTree<'a>, Stop>
    ensures { (N : Names) (K : Kinds) (types : Sub) (scope : Scope) → Stepped shown_value (of_parts N K types (here_of scope here.now) (helds_of parts.now) (value_of value.now)) losses.now losses.now result }
{
    settle(bump, here, losses, parts)?;
    Ok(value)
}

// A value that shares with nothing.
fn anew<'a>(
    bump: &'a Bump,
    program: &Program<'a>,
    here: &Here<'_>,
    losses: &Losses,
    node: u32,
    held: &[Held<'a>],
) -> Result<&'a ValueTree<'a>, Stop>
    ensures { (N : Names) (scope : Scope) (mark : APlace) (act : AnAct) → is_fresh act ≡ true → Stepped shown_value (operation N (kinds_of program.now.kinds.now) (sub_of program.now.types.now) (here_of scope here.now) (operation_of act) node mark (helds_of held.now)) losses.now losses.now result }
{
    let Ok(made) = fresh(bump, program, node) else {
        return Err(Stop::Memory);
    };
    of_parts(bump, here, losses, held, made)
}

fn tuple<'a>(
    bump: &'a Bump,
    here: &Here<'_>,
    losses: &Losses,
    held: &[Held<'a>],
) -> Result<&'a ValueTree<'a>, Stop>
    ensures { (N : Names) (K : Kinds) (types : Sub) (scope : Scope) (node : ℕ) (mark : APlace) → Stepped shown_value (operation N K types (here_of scope here.now) Tuple_of node mark (helds_of held.now)) losses.now losses.now result }
{
    let Ok(made) = tuple_of(bump, held) else {
        return Err(Stop::Memory);
    };
    of_parts(bump, here, losses, held, made)
}

fn record<'a>(
    bump: &'a Bump,
    program: &Program<'a>,
    here: &Here<'_>,
    losses: &Losses,
    fields: &[&str],
    node: u32,
    held: &[Held<'a>],
) -> Result<&'a ValueTree<'a>, Stop>
    requires table { IsTable program.now.names.table.now }
    ensures { (N : Names) → Knows program.now.names N → (scope : Scope) (mark : APlace) → Stepped shown_value (operation N (kinds_of program.now.kinds.now) (sub_of program.now.types.now) (here_of scope here.now) (Record_of (texts fields.now)) node mark (helds_of held.now)) losses.now losses.now result }
{
    let Ok(made) = record_of(bump, program, fields, node, held) else {
        return Err(Stop::Memory);
    };
    of_parts(bump, here, losses, held, made)
}

// Rows, elements and slices of an array.
fn index<'a>(
    bump: &'a Bump,
    program: &Program<'a>,
    here: &Here<'_>,
    losses: &Losses,
    node: u32,
    held: &[Held<'a>],
) -> Result<&'a ValueTree<'a>, Stop>
    ensures { (N : Names) (scope : Scope) (indices : List IndexPart) (mark : APlace) → Stepped shown_value (operation N (kinds_of program.now.kinds.now) (sub_of program.now.types.now) (here_of scope here.now) (Index indices) node mark (helds_of held.now)) losses.now losses.now result }
{
    let Ok(made) = indexed(bump, program, node, held) else {
        return Err(Stop::Memory);
    };
    of_parts(bump, here, losses, held, made)
}

fn first_part_named<'a>(
    bump: &'a Bump,
    program: &Program<'a>,
    field: &str,
    held: &[Held<'a>],
) -> Result<&'a ValueTree<'a>, NoMemory>
    requires table { IsTable program.now.names.table.now }
    ensures { (N : Names) → Knows program.now.names N → IfOk result (λ found. value_of found.now ≡ part_named N field.now (first_value (helds_of held.now))) }
{
    let whole = first_value(bump, held)?;
    let found = part_named(bump, &program.names, field, whole)?;
    Ok(found)
}

fn project<'a>(
    bump: &'a Bump,
    program: &Program<'a>,
    losses: &Losses,
    field: &str,
    held: &[Held<'a>],
) -> Result<&'a ValueTree<'a>, Stop>
    requires table { IsTable program.now.names.table.now }
    ensures { (N : Names) → Knows program.now.names N → (K : Kinds) (types : Sub) (here : AHere) (node : ℕ) (mark : APlace) → Stepped shown_value (operation N K types here (Project field.now) node mark (helds_of held.now)) losses.now losses.now result }
{
    match first_part_named(bump, program, field, held) {
        Ok(found) => Ok(found),
        Err(_) => Err(Stop::Memory),
    }
}

// An update of an array gives a new value.
fn updated<'a>(
    bump: &'a Bump,
    program: &Program<'a>,
    here: &Here<'_>,
    losses: &mut Losses,
    node: u32,
    mark: Place,
    held: &[Held<'a>],
) -> Result<&'a ValueTree<'a>, Stop>
    ensures { (N : Names) (scope : Scope) → Stepped shown_value (operation N (kinds_of program.now.kinds.now) (sub_of program.now.types.now) (here_of scope here.now) Update node mark (helds_of held.now)) losses.old losses.new result }
{
    let Ok(made) = fresh(bump, program, node) else {
        return Err(Stop::Memory);
    };
    if held.is_empty() {
        return Err(Stop::Memory);
    }
    let rest = held.split_at(1).1;
    update(bump, here, losses, mark, &held[0], rest)?;
    Ok(made)
}

// A part without a part of its own.
fn without_part<'a>(
    bump: &'a Bump,
    program: &Program<'a>,
    field: &str,
    held: &Held<'a>,
) -> Result<Held<'a>, NoMemory>
    requires table { IsTable program.now.names.table.now }
    ensures { (N : Names) → Knows program.now.names N → IfOk result (λ rest. held_of rest ≡ without_part N field.now (held_of held.now)) }
{
    let none = scalar(bump)?;
    let value = with_part_named(bump, &program.names, field, none, held.value)?;
    Ok(Held { value, ..*held })
}

// A record with another part. What is replaced does not count as used.
fn replace<'a>(
    bump: &'a Bump,
    program: &Program<'a>,
    here: &Here<'_>,
    losses: &Losses,
    field: &str,
    held: &[Held<'a>],
) -> Result<&'a ValueTree<'a>, Stop>
    requires table { IsTable program.now.names.table.now }
    ensures { (N : Names) → Knows program.now.names N → (K : Kinds) (types : Sub) (scope : Scope) (node : ℕ) (mark : APlace) → Stepped shown_value (operation N K types (here_of scope here.now) (Replace field.now) node mark (helds_of held.now)) losses.now losses.now result }
{
    if held.len() != 2 {
        return Err(Stop::Memory);
    }
    let Ok(made) = with_part_named(bump, &program.names, field, held[1].value, held[0].value) else {
        return Err(Stop::Memory);
    };
    let Ok(rest) = without_part(bump, program, field, &held[0]) else {
        return Err(Stop::Memory);
    };
    of_parts(bump, here, losses, &[rest, held[1]], made)
}

// The functions of a value at a written type.
fn ascribed<'a>(
    bump: &'a Bump,
    program: &Program<'a>,
    here: &Here<'_>,
    losses: &Losses,
    written: &TypeExp<'_>,
    node: u32,
    held: &[Held<'a>],
) -> Result<&'a ValueTree<'a>, Stop>
    requires table { IsTable program.now.names.table.now }
    ensures { (N : Names) → Knows program.now.names N → (scope : Scope) (mark : APlace) → Stepped shown_value (operation N (kinds_of program.now.kinds.now) (sub_of program.now.types.now) (here_of scope here.now) (Ascribe (written_type written.now)) node mark (helds_of held.now)) losses.now losses.now result }
{
    if held.len() != 1 {
        return Err(Stop::Memory);
    }
    let Ok(stars) = stars_at(bump, program, written, node) else {
        return Err(Stop::Memory);
    };
    ascribe(bump, here, stars, &held[0])
}

/// What an operation at a node gives of its parts.
pub fn operate<'a>(
    bump: &'a Bump,
    program: &Program<'a>,
    here: &Here<'_>,
    losses: &mut Losses,
    act: &Act<'_>,
    node: u32,
    mark: Place,
    held: &[Held<'a>],
) -> Result<&'a ValueTree<'a>, Stop>
    requires table { IsTable program.now.names.table.now }
    ensures { (N : Names) → Knows program.now.names N → (scope : Scope) → Stepped shown_value (operation N (kinds_of program.now.kinds.now) (sub_of program.now.types.now) (here_of scope here.now) (operation_of act.now) node mark (helds_of held.now)) losses.old losses.new result }
{
    if is_fresh(act) {
        return anew(bump, program, here, losses, node, held);
    }
    match *act {
        Act::Tuple => tuple(bump, here, losses, held),
        Act::Record(fields) => record(bump, program, here, losses, fields, node, held),
        Act::Index(_) => index(bump, program, here, losses, node, held),
        Act::Project(field) => project(bump, program, losses, field, held),
        Act::Update => updated(bump, program, here, losses, node, mark, held),
        Act::Replace(field) => replace(bump, program, here, losses, field, held),
        Act::Ascribe(written) => ascribed(bump, program, here, losses, written, node, held),
        Act::Coerce(written) => ascribed(bump, program, here, losses, written, node, held),
        Act::Declared(written) => ascribed(bump, program, here, losses, written, node, held),
        // what is made anew is answered above
        _ => Err(Stop::Memory),
    }
}
