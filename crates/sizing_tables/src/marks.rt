// Which numbers are those of sizes.
ghost use Rattle.std.specs.Prelude.{◌≡◌, ℕ, IfOk, false, get_or};
ghost use Rattle.sizing_tables.specs.Bound.{is_among};

use bumpalo::Bump;
use bumpalo::collections::into_bump_slice;
use fut_scalar::NoMemory;

/// Of so many numbers, whether each is among these. One that is past them is want of memory.
pub fn marked<'a>(bump: &'a Bump, count: usize, numbers: &[u32]) -> Result<&'a [bool], NoMemory>
    ensures { IfOk result (λ marks. (k : ℕ) → get_or marks.now k false ≡ is_among k numbers.now) }
{
    let mut marks = vec![in bump; false; count]?;
    for number in numbers {
        let at = *number as usize;
        if at >= marks.len() {
            return Err(NoMemory);
        }
        marks[at] = true;
    }
    Ok(into_bump_slice(marks))
}
