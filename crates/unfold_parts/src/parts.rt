// Parts of values, by how many there are.
ghost use Rattle.std.specs.Prelude.{◌≡◌, map};
ghost use Rattle.unfold.specs.Held.{known_of};
ghost use Rattle.unfold.specs.Knowns.{knowns, part, part_from};
ghost use Rattle.unfold_parts.specs.Held.{maybe_held};
ghost use Rattle.unfold_parts.specs.Parts.{Is_one_scalar, Is_scalar, Is_two_scalars};

use crate::records::field_known;
use fut_blocks::Atom;
use fut_positions::position;
use unfold::{Known, KnownForm};

#[derive(Clone, Copy)]
pub struct Scalars {
    pub first: Atom,
    pub second: Atom,
}

/// The name or constant of a scalar.
pub fn scalar(known: &Known<'_>) -> Option<Atom>
    ensures { Is_scalar (known_of known.now) result }
{
    match known.form {
        KnownForm::Scalar(atom) => Some(atom),
        _ => None,
    }
}

/// The only part, a scalar.
pub fn one_scalar<'a>(parts: &'a [Known<'a>]) -> Option<Atom>
    ensures { Is_one_scalar (map known_of parts.now) result }
{
    if parts.len() != 1 {
        return None;
    }
    scalar(&parts[0])
}

/// Both parts, where there are two, and they are scalars.
pub fn two_scalars<'a>(parts: &'a [Known<'a>]) -> Option<Scalars>
    ensures { Is_two_scalars (map known_of parts.now) result }
{
    if parts.len() != 2 {
        return None;
    }
    match scalar(&parts[0]) {
        Some(first) => match scalar(&parts[1]) {
            Some(second) => Some(Scalars { first, second }),
            None => None,
        },
        None => None,
    }
}

// The part of a tuple whose position is spelled so.
fn part_at<'a>(parts: &'a [Known<'a>], name: &str) -> Option<&'a Known<'a>>
    ensures { maybe_held result ≡ part_from 0 name.now (knowns (map known_of parts.now)) }
{
    match position(name, parts.len()) {
        Some(at) => Some(&parts[at]),
        None => None,
    }
}

/// The part of that name: of a tuple by its position, of a record by its field.
pub fn part<'a>(known: &Known<'a>, name: &str) -> Option<&'a Known<'a>>
    ensures { maybe_held result ≡ part name.now (known_of known.now) }
{
    match known.form {
        KnownForm::Tuple(parts) => part_at(parts, name),
        KnownForm::Record(fields) => field_known(fields, name),
        _ => None,
    }
}
