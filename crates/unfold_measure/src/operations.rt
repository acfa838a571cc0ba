// What is known of the values of operations.
ghost use Rattle.std.specs.Prelude.{Some, map};
ghost use Rattle.fut_flat.specs.Erased.{operation_of, texts};
ghost use Rattle.fut_flat.specs.Terms.{Project, Replace};
ghost use Rattle.fut_meaning.specs.Knowns.{data_of, known_fields, known_part, known_part_from, known_result, known_tuple, replaced_in, some_record};
ghost use Rattle.unfold_measure.specs.Held.{known_of, knowns};
ghost use Rattle.unfold_measure.specs.Answers.{Known_to, one_or_data};

use crate::known::{Known, KnownForm, all_data, held, is_data, known_data};
use crate::lists::put_named;
use crate::records::{field_known, known_record};
use crate::stop::Stop;
use bumpalo::Bump;
use fut_flat::Act;
use fut_positions::position;

// Of data a function makes data.
fn data_of<'a>(parts: &[Known<'a>]) -> Result<Known<'a>, Stop>
    ensures { Known_to (data_of (knowns (map known_of parts.now))) result }
{
    if all_data(parts) {
        Ok(known_data())
    } else {
        Err(Stop::Lost)
    }
}

fn tuple_of<'a>(bump: &'a Bump, parts: &'a [Known<'a>]) -> Result<Known<'a>, Stop>
    ensures { Known_to (Some (known_tuple (knowns (map known_of parts.now)))) result }
{
    if all_data(parts) {
        Ok(known_data())
    } else {
        held(bump, KnownForm::Tuple(parts))
    }
}

fn record_of<'a>(
    bump: &'a Bump,
    names: &'a [&'a str],
    parts: &'a [Known<'a>],
) -> Result<Known<'a>, Stop>
    ensures { Known_to (some_record (known_fields (texts names.now) (knowns (map known_of parts.now)))) result }
{
    if names.len() == parts.len() {
        known_record(bump, names, parts)
    } else {
        Err(Stop::Lost)
    }
}

// A record with another value of a field.
fn replaced<'a>(
    bump: &'a Bump,
    name: &str,
    whole: Known<'a>,
    known: Known<'a>,
) -> Result<Known<'a>, Stop>
    ensures { Known_to (replaced_in name.now (known_of whole.entry) (known_of known.entry)) result }
{
    match *whole.form {
        KnownForm::Data => {
            if is_data(known) {
                Ok(whole)
            } else {
                Err(Stop::Lost)
            }
        }
        KnownForm::Record(names, parts) => match put_named(bump, names, parts, name, known) {
            Ok(made) => known_record(bump, names, made),
            Err(stop) => Err(stop),
        },
        _ => Err(Stop::Lost),
    }
}

// The part of a tuple whose position is spelled so.
fn position_of<'a>(parts: &'a [Known<'a>], name: &str) -> Result<Known<'a>, Stop>
    ensures { Known_to (known_part_from 0 name.now (knowns (map known_of parts.now))) result }
{
    match position(name, parts.len()) {
        Some(at) => Ok(parts[at]),
        None => Err(Stop::Lost),
    }
}

/// The part of this name.
pub fn part_of<'a>(known: Known<'a>, name: &str) -> Result<Known<'a>, Stop>
    ensures { Known_to (known_part name.now (known_of known.entry)) result }
{
    match *known.form {
        KnownForm::Data => Ok(known),
        KnownForm::Tuple(knowns) => position_of(knowns, name),
        KnownForm::Record(names, parts) => match field_known(names, parts, name) {
            Some(part) => Ok(part),
            None => Err(Stop::Lost),
        },
        _ => Err(Stop::Lost),
    }
}

fn projected<'a>(name: &str, parts: &'a [Known<'a>]) -> Result<Known<'a>, Stop>
    ensures { Known_to (known_result (Project name.now) (knowns (map known_of parts.now))) result }
{
    if parts.len() == 1 {
        let part = &parts[0];
        part_of(*part, name)
    } else {
        data_of(parts)
    }
}

fn with_replaced<'a>(bump: &'a Bump, name: &str, parts: &'a [Known<'a>]) -> Result<Known<'a>, Stop>
    ensures { Known_to (known_result (Replace name.now) (knowns (map known_of parts.now))) result }
{
    if parts.len() == 2 {
        let whole = &parts[0];
        let part = &parts[1];
        replaced(bump, name, *whole, *part)
    } else {
        data_of(parts)
    }
}

/// What is known of the value of an operation on these parts.
pub fn result_of<'a>(
    bump: &'a Bump,
    act: &Act<'a>,
    parts: &'a [Known<'a>],
) -> Result<Known<'a>, Stop>
    ensures { Known_to (known_result (operation_of act.now) (knowns (map known_of parts.now))) result }
{
    match *act {
        Act::Tuple => tuple_of(bump, parts),
        Act::Record(names) => record_of(bump, names, parts),
        Act::Project(name) => projected(name, parts),
        Act::Replace(name) => with_replaced(bump, name, parts),
        Act::Ascribe(_) => same_of(parts),
        Act::Coerce(_) => same_of(parts),
        Act::Declared(_) => same_of(parts),
        _ => data_of(parts),
    }
}

// What has one part is as that part.
fn same_of<'a>(parts: &'a [Known<'a>]) -> Result<Known<'a>, Stop>
    ensures { Known_to (one_or_data (knowns (map known_of parts.now))) result }
{
    if parts.len() == 1 {
        let part = &parts[0];
        Ok(*part)
    } else {
        data_of(parts)
    }
}
