// Data that has to have sizes.
ghost use Rattle.fut_blocks.specs.Rows.{test_of};
ghost use Rattle.unfold.specs.Held.{known_of};
ghost use Rattle.unfold_parts.specs.Answers.{Tested_to};
ghost use Rattle.unfold_parts.specs.States.{steps_of};

use crate::refusal::Refusal;
use crate::steps::Unfolding;
use fut_blocks::{Act, SizeTest, Step};
use fut_scalar::Place;
use told_rows::known_row;
use unfold::Known;

/// Data that has to have sizes, which is tested by a step without names.
pub fn tested<'a>(
    work: &mut Unfolding<'a>,
    wanted: &'a SizeTest<'a>,
    place: Place,
    known: &Known<'a>,
) -> Result<Known<'a>, Refusal>
    ensures { Tested_to (test_of wanted.now) place (known_of known.now) work.old.next (steps_of work.old) (steps_of work.new) work.new.next result }
{
    let row = match known_row(known, work.bump) {
        Ok(row) => row,
        Err(_) => return Err(Refusal::Memory),
    };
    match work.push(Step {
        names: &[],
        act: Act::Coerce(place, wanted, row),
    }) {
        Ok(()) => Ok(*known),
        Err(refusal) => Err(refusal),
    }
}
