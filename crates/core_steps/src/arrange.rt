// Rows whose words lie on the stack, put into arrays.
ghost use Rattle.std.specs.Prelude.{◌≡◌, ◌-◌, ◌++◌, drop, length, OnOk};
ghost use Rattle.core_code.specs.Answers.{OnlyMemory};
ghost use Rattle.core_code.specs.Registers.{state};
ghost use Rattle.fut_scalar.specs.declared.report.FailKind.TheVariants.{Size, TooLarge};
ghost use Rattle.fut_meaning.specs.Operations.{report};
ghost use Rattle.core_code.specs.declared.stop.Stop.TheVariants.{Failed};
ghost use Rattle.core_steps.specs.Gluing.{Bare_told, Glued_told};

use crate::columns::make_columns;
use crate::gluing::{row_words, rows_fit, within};
use core_arrays::Arrays;
use core_code::{Stop, push};
use core_ir::Atom;
use fut_scalar::{FailKind, List, Place, Report};
use fut_value::GREATEST_WEIGHT;

/// Puts words behind others.
#[tactic(auto, using(crate::proofs::Glueing::word_pushes))]
pub fn push_words(words: &[u64], stack: &mut Vec<u64>) -> Result<(), Stop>
    ensures told { OnOk result (stack.new.items ≡ stack.old.items ++ words.now) }
    ensures memory { OnlyMemory result }
{
    for word in words {
        push(*word, stack)?;
    }
    Ok(())
}

/// Puts the last words on the stack once more.
#[tactic(auto, using(crate::proofs::Glueing::last_pushes))]
pub fn push_last(width: usize, stack: &mut Vec<u64>) -> Result<(), Stop>
    ensures told { OnOk result (stack.new.items ≡ stack.old.items ++ drop (length stack.old.items - width) stack.old.items) }
    ensures memory { OnlyMemory result }
{
    if width > stack.len() {
        return Err(Stop::Memory);
    }
    let from = stack.len() - width;
    for i in 0..width {
        let word = stack[from + i];
        push(word, stack)?;
    }
    Ok(())
}

/// The report that a new array is too large.
pub fn too_large(place: Place) -> Stop
    ensures { result ≡ Failed (report TooLarge place) }
{
    Stop::Failed(Report {
        kind: FailKind::TooLarge,
        place,
    })
}

/// The report that sizes do not fit one another.
pub fn misfit(place: Place) -> Stop
    ensures { result ≡ Failed (report Size place) }
{
    Stop::Failed(Report {
        kind: FailKind::Size,
        place,
    })
}

/// Rows without components as an array of no cells.
#[tactic(auto, using(crate::proofs::Glueing::bares))]
pub fn glue_bare(
    count: u64,
    mark: usize,
    place: Place,
    stack: &mut Vec<u64>,
    arrays: &mut Arrays,
) -> Result<(), Stop>
    ensures { (table : _) → Bare_told count mark place (state arrays.old table stack.old.items) (state arrays.new table stack.new.items) result }
{
    if count > GREATEST_WEIGHT {
        return Err(too_large(place));
    }
    let alloc = arrays.alloc();
    let mut sizes = List::new(alloc);
    sizes.push(count)?;
    sizes.push(0)?;
    let number = arrays.put(sizes, List::new(alloc))?;
    stack.truncate(mark);
    push(number, stack)
}

/// Puts rows, whose words lie on the stack from the mark on, into arrays. There has to be one row at least.
#[tactic(auto, using(crate::proofs::Glueing::glues))]
pub fn glue(
    row: &[Atom],
    count: u64,
    mark: usize,
    place: Place,
    stack: &mut Vec<u64>,
    arrays: &mut Arrays,
) -> Result<(), Stop>
    ensures { (table : _) → Glued_told row.now count mark place (state arrays.old table stack.old.items) (state arrays.new table stack.new.items) result }
{
    if row.len() == 0 {
        return glue_bare(count, mark, place, stack, arrays);
    }
    if mark > stack.len() {
        return Err(Stop::Memory);
    }
    let words = &stack[mark..];
    if !rows_fit(row, count, words, arrays)? {
        return Err(misfit(place));
    }
    let first = row_words(words, 0, row.len() as u64)?;
    if !within(row, count, first, arrays)? {
        return Err(too_large(place));
    }
    let made = make_columns(row, count, words, arrays)?;
    stack.truncate(mark);
    push_words(made.as_slice(), stack)
}
