// What is wanted of the functions that stand as parts of an operation, by the written type of the place where it stands.
ghost use Rattle.std.specs.Prelude.{◌≡◌, ℕ, false, IfOk, Option, Some};
ghost use Rattle.fut_aliases.specs.Aliases.{Naming};
ghost use Rattle.fut_aliases.specs.Looking.{field_at, place_in, wanted_component, wanted_part};
ghost use Rattle.fut_aliases.specs.Stars.{written_stars};
ghost use Rattle.fut_flat.specs.Erased.{operation_of, texts, type_of as written_type};
ghost use Rattle.fut_flat.specs.Terms.{Record_of};
ghost use Rattle.fut_types.specs.Shapes.{IsTable, Tells_position};
ghost use Rattle.fut_types.specs.Types.{Kinds, Sub};
ghost use Rattle.fut_typing.specs.Names.{Names};
ghost use Rattle.alias_parts.specs.Known.{Knows};
ghost use Rattle.alias_patterns.specs.Wanted.{wanted_of};
ghost use Rattle.alias_program.specs.Program.{sub_of};
ghost use Rattle.alias_types.specs.Kinds.{kinds_of};
ghost use Rattle.alias_values.specs.Trees.{type_of};

use alias_parts::{PartNames, place_named, star_at};
use alias_patterns::stars_at;
use alias_program::{Program, type_at};
use alias_values::{StarTree, TypeTree};
use bumpalo::Bump;
use fut_flat::{Act, TypeExp};
use fut_scalar::NoMemory;

// What is wanted of the component at a place. No row of a type in hand is so long that it has a place that is not told.
fn component<'a>(
    bump: &'a Bump,
    place: Option<u32>,
    wanted: Option<&'a StarTree<'a>>,
) -> Result<Option<&'a StarTree<'a>>, NoMemory>
    ensures { (o : Option ℕ) → Tells_position place o → IfOk result (λ found. wanted_of found ≡ wanted_component o (wanted_of wanted.entry)) }
{
    match wanted {
        Some(stars) => match stars {
            StarTree::Row(row) => {
                if row.len() >= 4294967296 {
                    return Err(NoMemory);
                }
                let found = star_at(bump, place, row)?;
                Ok(Some(found))
            }
            StarTree::Leaf(_) => Ok(None),
            StarTree::Arrow(_, _, _) => Ok(None),
        },
        None => Ok(None),
    }
}

// The place of an index.
fn place_at(index: usize) -> Result<Option<u32>, NoMemory>
    ensures { IfOk result (λ place. place ≡ Some index) }
{
    match u32::try_from(index) {
        Ok(at) => Ok(Some(at)),
        Err(_) => Err(NoMemory),
    }
}

// The place of the field that is written at an index.
fn field_place(
    names: &PartNames<'_>,
    ty: &TypeTree<'_>,
    fields: &[&str],
    index: usize,
) -> Result<Option<u32>, NoMemory>
    requires table { IsTable names.now.table.now }
    ensures { (naming : Naming) (N : Names) (K : Kinds) (types : Sub) → Knows names.now N → IfOk result (λ place. Tells_position place (place_in naming N K types (type_of ty.now) (field_at (texts fields.now) index))) }
{
    match ty {
        TypeTree::Made(head, _) => {
            if index >= fields.len() {
                return Ok(None);
            }
            let place = place_named(names, *head, fields[index])?;
            Ok(place)
        }
        TypeTree::Var(_) => Ok(None),
    }
}

// What is wanted of a written part of a record at a node.
fn field<'a>(
    bump: &'a Bump,
    program: &Program<'a>,
    fields: &[&str],
    node: u32,
    wanted: Option<&'a StarTree<'a>>,
    index: usize,
) -> Result<Option<&'a StarTree<'a>>, NoMemory>
    requires table { IsTable program.now.names.table.now }
    ensures { (naming : Naming) (N : Names) (K : Kinds) → Knows program.now.names N → IfOk result (λ found. wanted_of found ≡ wanted_part naming N K (sub_of program.now.types.now) (Record_of (texts fields.now)) node (wanted_of wanted.entry) index) }
{
    let ty = type_at(program, node)?;
    let place = field_place(&program.names, ty, fields, index)?;
    let found = component(bump, place, wanted)?;
    Ok(found)
}

// What is wanted of a written part of a tuple.
fn position<'a>(
    bump: &'a Bump,
    wanted: Option<&'a StarTree<'a>>,
    index: usize,
) -> Result<Option<&'a StarTree<'a>>, NoMemory>
    ensures { IfOk result (λ found. wanted_of found ≡ wanted_component (Some index) (wanted_of wanted.entry)) }
{
    let place = place_at(index)?;
    let found = component(bump, place, wanted)?;
    Ok(found)
}

// What is wanted where a type is written.
fn written<'a>(
    bump: &'a Bump,
    program: &Program<'a>,
    written: &TypeExp<'_>,
    node: u32,
) -> Result<Option<&'a StarTree<'a>>, NoMemory>
    requires table { IsTable program.now.names.table.now }
    ensures { (N : Names) → Knows program.now.names N → IfOk result (λ found. wanted_of found ≡ Some (written_stars N false (written_type written.now) (sub_of program.now.types.now node))) }
{
    let stars = stars_at(bump, program, written, node)?;
    Ok(Some(stars))
}

/// What is wanted of the part at an index of an operation at a node.
pub fn wanted_part<'a>(
    bump: &'a Bump,
    program: &Program<'a>,
    act: &Act<'_>,
    node: u32,
    wanted: Option<&'a StarTree<'a>>,
    index: usize,
) -> Result<Option<&'a StarTree<'a>>, NoMemory>
    requires table { IsTable program.now.names.table.now }
    ensures { (naming : Naming) (N : Names) → Knows program.now.names N → IfOk result (λ found. wanted_of found ≡ wanted_part naming N (kinds_of program.now.kinds.now) (sub_of program.now.types.now) (operation_of act.now) node (wanted_of wanted.entry) index) }
{
    match *act {
        Act::Tuple => position(bump, wanted, index),
        Act::Record(fields) => field(bump, program, fields, node, wanted, index),
        Act::Ascribe(ty) => written(bump, program, ty, node),
        Act::Coerce(ty) => written(bump, program, ty, node),
        Act::Int { .. } => Ok(None),
        Act::Truth(_) => Ok(None),
        Act::Array => Ok(None),
        Act::Binary(_) => Ok(None),
        Act::Negate => Ok(None),
        Act::Complement => Ok(None),
        Act::Index(_) => Ok(None),
        Act::Project(_) => Ok(None),
        Act::Update => Ok(None),
        Act::Replace(_) => Ok(None),
        Act::Declared(_) => Ok(None),
        Act::Assert => Ok(None),
        Act::Range { .. } => Ok(None),
    }
}
