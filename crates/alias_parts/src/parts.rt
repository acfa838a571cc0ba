// Parts of tuples and records.
ghost use Rattle.std.specs.Prelude.{◌≡◌, ◌<◌, ◌+◌, ◌++◌, ◌∷◌, length, take, drop, IfOk};
ghost use Rattle.fut_aliases.specs.Stars.{star_at};
ghost use Rattle.fut_aliases.specs.Values.{part, with_part};
ghost use Rattle.alias_values.specs.Trees.{row_of, stars_of, value_of, values_of};

use alias_values::{StarTree, ValueTree, leaf, scalar};
use bumpalo::Bump;
use bumpalo::collections::into_bump_slice;
use fut_scalar::NoMemory;

/// The part of a row at a place, or a scalar where it has none.
#[tactic(auto, using(crate::proofs::PartForms::part_forms))]
pub fn part<'a>(
    bump: &'a Bump,
    place: Option<u32>,
    values: &'a [ValueTree<'a>],
) -> Result<&'a ValueTree<'a>, NoMemory>
    ensures { IfOk result (λ found. value_of found.now ≡ part place (values_of values.now)) }
{
    match place {
        Some(at) => {
            let at = at as usize;
            if at < values.len() {
                return Ok(&values[at]);
            }
            let none = scalar(bump)?;
            Ok(none)
        }
        None => {
            let none = scalar(bump)?;
            Ok(none)
        }
    }
}

// A row with another part at a place.
#[tactic(auto, using(crate::proofs::PartForms::replacing))]
fn replaced<'a>(
    bump: &'a Bump,
    place: usize,
    value: &ValueTree<'a>,
    values: &[ValueTree<'a>],
) -> Result<&'a [ValueTree<'a>], NoMemory>
    requires { place < length values.now }
    ensures { IfOk result (λ made. made.now ≡ take place values.now ++ value.now ∷ drop (place + 1) values.now) }
{
    let before = values.split_at(place).0;
    let behind = values.split_at(place + 1).1;
    let mut made = Vec::new(bump);
    made.extend_from_slice(before)?;
    made.push(*value)?;
    made.extend_from_slice(behind)?;
    Ok(into_bump_slice(made))
}

/// The row with another part at a place; the same where it has none there.
#[tactic(auto, using(crate::proofs::PartForms::with_part_forms))]
pub fn with_part<'a>(
    bump: &'a Bump,
    place: Option<u32>,
    value: &ValueTree<'a>,
    values: &'a [ValueTree<'a>],
) -> Result<&'a [ValueTree<'a>], NoMemory>
    ensures { IfOk result (λ made. values_of made.now ≡ with_part place (value_of value.now) (values_of values.now)) }
{
    match place {
        Some(at) => {
            let at = at as usize;
            if at >= values.len() {
                return Ok(values);
            }
            let made = replaced(bump, at, value, values)?;
            Ok(made)
        }
        None => Ok(values),
    }
}

/// The stars of a row at a place; none where it has none there.
#[tactic(auto, using(crate::proofs::PartForms::star_at_forms))]
pub fn star_at<'a>(
    bump: &'a Bump,
    place: Option<u32>,
    row: &'a [StarTree<'a>],
) -> Result<&'a StarTree<'a>, NoMemory>
    ensures { IfOk result (λ found. stars_of found.now ≡ star_at place (row_of row.now)) }
{
    match place {
        Some(at) => {
            let at = at as usize;
            if at < row.len() {
                return Ok(&row[at]);
            }
            let none = leaf(bump, false)?;
            Ok(none)
        }
        None => {
            let none = leaf(bump, false)?;
            Ok(none)
        }
    }
}
