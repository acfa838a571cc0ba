// The place of each label among the fields that are written.
ghost use Rattle.std.specs.Prelude.{◌≡◌, ◌<◌, ◌^◌, IfOk, length};
ghost use Rattle.fut_flat.specs.Erased.{texts};
ghost use Rattle.fut_types.specs.Shapes.{IsTable, fields_of};
ghost use Rattle.fut_typing.specs.Names.{Names};
ghost use Rattle.alias_parts.specs.Known.{Knows};
ghost use Rattle.record_places.specs.Places.{noted, written_places};

use alias_parts::{PartNames, place_named};
use bumpalo::Bump;
use bumpalo::collections::into_bump_slice;
use fut_scalar::NoMemory;
use fut_types::{Head, ShapeTable};

/// How many parts the record with this number has.
fn part_count(table: &ShapeTable, number: u32) -> Result<usize, NoMemory>
    ensures known { IfOk result (λ count. number < length table.now.records) }
    ensures count { IfOk result (λ count. length (fields_of table.now number) ≡ count) }
    ensures few { IfOk result (λ count. count < 2 ^ 32) }
{
    let records = table.records.as_slice();
    let at = number as usize;
    if at >= records.len() {
        return Err(NoMemory);
    }
    Ok(records[at].count as usize)
}

/// Notes where the label is written that has this place, if it has one.
fn note(places: &mut Vec<usize, &Bump>, place: Option<u32>, at: usize)
    ensures { places.new.items ≡ noted place at places.old.items }
{
    match place {
        Some(found) => {
            let found = found as usize;
            if found < places.len() {
                places[found] = at;
            }
        }
        None => (),
    }
}

/// Where each label of a record, by its number, is written among these fields: the first place, or their count where it is not
/// written. A name or a record that is not known is want of memory.
pub fn written_places<'a>(
    bump: &'a Bump,
    names: &PartNames<'_>,
    number: u32,
    fields: &[&str],
) -> Result<&'a [usize], NoMemory>
    requires table { IsTable names.now.table.now }
    ensures { (N : Names) → Knows names.now N → IfOk result (λ places. places.now ≡ written_places N number (texts fields.now) 0) }
{
    let count = part_count(names.table, number)?;
    let mut places = vec![in bump; fields.len(); count]?;
    let mut at = fields.len();
    // From the last one on, since the first one of a label counts.
    while at > 0 {
        at -= 1;
        let place = place_named(names, Head::Record(number), fields[at])?;
        note(&mut places, place, at);
    }
    Ok(into_bump_slice(places))
}
