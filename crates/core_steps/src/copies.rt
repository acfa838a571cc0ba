// Arrays of rows that are all the same.
ghost use Rattle.core_code.specs.Answers.{OnlyMemory};
ghost use Rattle.core_code.specs.Registers.{state};
ghost use Rattle.core_steps.specs.Repeating.{Cells_repeated, Column_repeated, Repeated_told, Row_repeated};

use crate::arrange::{glue_bare, push_words, too_large};
use crate::columns::{put_cells, sizes_in_rows};
use crate::gluing::within;
use core_arrays::Arrays;
use core_code::Stop;
use core_ir::Atom;
use fut_scalar::{List, Place};

/// The words of a component's cells, so many times one behind the other.
#[tactic(auto, using(crate::proofs::Repeating::cells_rules))]
fn repeated_cells(atom: Atom, word: u64, count: u64, arrays: &Arrays) -> Result<List<u64>, Stop>
    ensures told { Cells_repeated arrays.now.arrays atom word count result }
    ensures memory { OnlyMemory result }
{
    let mut cells = List::new(arrays.alloc());
    for _ in 0..count {
        put_cells(atom, word, &mut cells, arrays)?;
    }
    Ok(cells)
}

/// Makes an array of so many rows of which each is the component of a word.
#[tactic(auto, using(crate::proofs::Repeating::column_rules))]
fn repeat_column(atom: Atom, word: u64, count: u64, arrays: &mut Arrays) -> Result<u64, Stop>
    ensures told { Column_repeated atom word count arrays.old arrays.new result }
    ensures memory { OnlyMemory result }
{
    let cells = repeated_cells(atom, word, count, arrays)?;
    let sizes = sizes_in_rows(atom, word, count, arrays)?;
    let number = arrays.put(sizes, cells)?;
    Ok(number)
}

/// Makes an array of each component of so many rows that are the same. The answer has their numbers.
#[tactic(auto, using(crate::proofs::Repeating::columns_rules))]
fn repeat_columns(
    row: &[Atom],
    count: u64,
    words: &[u64],
    arrays: &mut Arrays,
) -> Result<List<u64>, Stop>
    ensures told { Row_repeated row.now count words.now arrays.old arrays.new result }
    ensures memory { OnlyMemory result }
{
    if words.len() != row.len() {
        return Err(Stop::Memory);
    }
    let mut made = List::new(arrays.alloc());
    for c in 0..row.len() {
        let number = repeat_column(row[c], words[c], count, arrays)?;
        made.push(number)?;
    }
    Ok(made)
}

/// Puts into arrays so many rows that are all the one whose words lie on the stack from the mark on.
#[tactic(auto, using(crate::proofs::Repeating::repeats))]
pub fn glue_repeated(
    row: &[Atom],
    count: u64,
    mark: usize,
    place: Place,
    stack: &mut Vec<u64>,
    arrays: &mut Arrays,
) -> Result<(), Stop>
    ensures { (table : _) → Repeated_told row.now count mark place (state arrays.old table stack.old.items) (state arrays.new table stack.new.items) result }
{
    if row.len() == 0 {
        return glue_bare(count, mark, place, stack, arrays);
    }
    if mark > stack.len() {
        return Err(Stop::Memory);
    }
    let words = &stack[mark..];
    if !within(row, count, words, arrays)? {
        return Err(too_large(place));
    }
    let made = repeat_columns(row, count, words, arrays)?;
    stack.truncate(mark);
    push_words(made.as_slice(), stack)
}
