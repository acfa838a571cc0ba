// Records: the parts in the order of their labels, each by its place among those that are written.
ghost use Rattle.std.specs.Prelude.{◌≡◌, ◌<◌, ◌^◌, IfOk, length};
ghost use Rattle.fut_aliases.specs.Operations.{record_of};
ghost use Rattle.fut_flat.specs.Erased.{texts};
ghost use Rattle.fut_types.specs.Shapes.{IsTable, fields_of};
ghost use Rattle.fut_types.specs.Types.{Made, Tys};
ghost use Rattle.fut_typing.specs.Names.{Names};
ghost use Rattle.alias_parts.specs.Known.{Knows};
ghost use Rattle.alias_program.specs.Program.{sub_of};
ghost use Rattle.alias_values.specs.Trees.{type_of, value_of, values_of};
ghost use Rattle.uniqueness.specs.Held.{helds_of};
ghost use Rattle.alias_operations.specs.Recording.{chosen, noted, record_number, value_at, written_places};

use alias_parts::{PartNames, place_named};
use alias_program::{Program, type_at};
use alias_values::{TypeTree, ValueTree, parts, scalar};
use bumpalo::Bump;
use bumpalo::collections::into_bump_slice;
use fut_scalar::NoMemory;
use fut_types::{Head, ShapeTable};
use uniqueness::Held;

// How many parts the record with this number has.
fn part_count(table: &ShapeTable, number: u32) -> Result<usize, NoMemory>
    ensures known { IfOk result (λ count. number < length table.now.records) }
    ensures count { IfOk result (λ count. length (fields_of table.now number) ≡ count) }
    ensures few { IfOk result (λ count. count < 2 ^ 32) }
{
    let records = table.records.as_slice();
    let at = number as usize;
    if at >= records.len() {
        return Err(NoMemory);
    }
    Ok(records[at].count as usize)
}

// Notes where the label is written that has this place, if it has one.
fn note(places: &mut Vec<usize, &Bump>, place: Option<u32>, at: usize)
    ensures { places.new.items ≡ noted place at places.old.items }
{
    match place {
        Some(found) => {
            let found = found as usize;
            if found < places.len() {
                places[found] = at;
            }
        }
        None => (),
    }
}

// Where each label of a record is written. It costs the logarithm of their number for each.
fn written_places<'a>(
    bump: &'a Bump,
    names: &PartNames<'_>,
    number: u32,
    fields: &[&str],
) -> Result<&'a [usize], NoMemory>
    requires table { IsTable names.now.table.now }
    ensures { (N : Names) → Knows names.now N → IfOk result (λ places. places.now ≡ written_places N number (texts fields.now) 0) }
{
    let count = part_count(names.table, number)?;
    let mut places = vec![in bump; fields.len(); count]?;
    let mut at = fields.len();
    // from the last one on, since the first one of a label counts
    while at > 0 {
        at -= 1;
        let place = place_named(names, Head::Record(number), fields[at])?;
        note(&mut places, place, at);
    }
    Ok(into_bump_slice(places))
}

#[tactic(auto, using(crate::proofs::RecordForms::values_at))]
fn value_at<'a>(held: &[Held<'a>], at: usize) -> ValueTree<'a>
    ensures { value_of result ≡ value_at (helds_of held.now) at }
{
    if at < held.len() {
        *held[at].value
    } else {
        ValueTree::Scalar
    }
}

// The values of the parts at these places.
#[tactic(auto, using(crate::proofs::RecordForms::choosing))]
fn chosen<'a>(
    bump: &'a Bump,
    held: &[Held<'a>],
    places: &[usize],
) -> Result<&'a [ValueTree<'a>], NoMemory>
    ensures { IfOk result (λ made. values_of made.now ≡ chosen (helds_of held.now) places.now) }
{
    let mut made = Vec::new(bump);
    for i in 0..places.len() {
        made.push(value_at(held, places[i]))?;
    }
    Ok(into_bump_slice(made))
}

fn number_of(head: Head) -> Option<u32>
    ensures { (ts : Tys) → result ≡ record_number (Made head ts) }
{
    match head {
        Head::Record(number) => Some(number),
        Head::Scalar(_) => None,
        Head::Array => None,
        Head::Tuple => None,
        Head::Fun => None,
        Head::Rigid(_, _) => None,
        Head::Abstract(_, _) => None,
    }
}

// The number of the record that a type is made of.
#[tactic(auto, using(crate::proofs::RecordForms::numbers_of))]
fn record_number(ty: &TypeTree<'_>) -> Option<u32>
    ensures { result ≡ record_number (type_of ty.now) }
{
    match ty {
        TypeTree::Made(head, _) => number_of(*head),
        TypeTree::Var(_) => None,
    }
}

/// The record at a node, with these parts under these names.
pub fn record_of<'a>(
    bump: &'a Bump,
    program: &Program<'a>,
    fields: &[&str],
    node: u32,
    held: &[Held<'a>],
) -> Result<&'a ValueTree<'a>, NoMemory>
    requires table { IsTable program.now.names.table.now }
    ensures { (N : Names) → Knows program.now.names N → IfOk result (λ made. value_of made.now ≡ record_of N (texts fields.now) (sub_of program.now.types.now node) (helds_of held.now)) }
{
    let ty = type_at(program, node)?;
    match record_number(ty) {
        Some(number) => {
            // a record has as many parts as names
            if fields.len() != held.len() {
                return Err(NoMemory);
            }
            let places = written_places(bump, &program.names, number, fields)?;
            let values = chosen(bump, held, places)?;
            let made = parts(bump, Head::Record(number), values)?;
            Ok(made)
        }
        None => {
            let made = scalar(bump)?;
            Ok(made)
        }
    }
}
