// How many numbers a program has.
ghost use Rattle.std.specs.Prelude.{◌≡◌, IfOk};
ghost use Rattle.fut_typing.specs.Program.{program_numbers, program_of};

use flat_numbers::{after, after_exp};
use fut_flat::Flat;
use fut_scalar::NoMemory;

/// How many numbers a program has: each definition has those of its name and of its value.
pub fn count_numbers(flat: &Flat<'_>) -> Result<u32, NoMemory>
    ensures { IfOk result (λ count. count ≡ program_numbers (program_of flat.now)) }
{
    let mut count = 0;
    for definition in flat.definitions {
        let value = after(count, 1)?;
        count = after_exp(value, definition.value)?;
    }
    Ok(count)
}
