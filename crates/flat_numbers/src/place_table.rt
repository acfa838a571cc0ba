// Places: where each number of a program stands in its text, so that what is said of a number can be told of a place.
ghost use Rattle.std.specs.Prelude.{◌≡◌, length, IfOk};
ghost use Rattle.fut_typing.specs.Program.{program_numbers, program_of};
ghost use Rattle.flat_numbers.specs.Places.{program_places};

use crate::place_noting::Noting;
use crate::place_terms::note_definitions;
use fut_flat::Flat;
use fut_scalar::{List, NoMemory, Place};
use std::alloc::Global;

/// The place of each number of a program. The cost is linear.
pub fn places(alloc: Global, flat: &Flat<'_>) -> Result<List<Place>, NoMemory>
    ensures places { IfOk result (λ places. places ≡ program_places flat.now.definitions.now) }
    ensures one_each { IfOk result (λ places. length places ≡ program_numbers (program_of flat.now)) }
{
    let mut places = Noting::new(alloc);
    note_definitions(&mut places, flat.definitions);
    places.noted()
}
