// Homes: how deep in generalised definitions each number of a program stands, and 0 for what never differs from one use of
// a definition to the next. The record and the part of a field access are at home in the innermost definition that has
// written type parameters.
ghost use Rattle.std.specs.Prelude.{IfOk};
ghost use Rattle.fut_typing.specs.Program.{program_of};
ghost use Rattle.flat_numbers.specs.Listed.{AreHomes};

use crate::home_noting::Noting;
use crate::home_terms::note_definitions;
use fut_flat::Flat;
use fut_scalar::{List, NoMemory};
use std::alloc::Global;

/// The home of each number of a program.
pub fn homes(alloc: Global, flat: &Flat<'_>) -> Result<List<u32>, NoMemory>
    ensures { IfOk result (λ homes. AreHomes homes (program_of flat.now)) }
{
    let mut homes = Noting::new(alloc);
    note_definitions(&mut homes, flat.definitions);
    homes.noted()
}
