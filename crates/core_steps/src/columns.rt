// Columns of rows as new arrays.
ghost use Rattle.std.specs.Prelude.{◌≡◌, ◌++◌, OnOk, IfOk};
ghost use Rattle.core_code.specs.Answers.{OnlyMemory};
ghost use Rattle.core_steps.specs.Gluing.{Cells_put, Column_made, Column_read, Columns_made, Sizes_read};

use crate::gluing::{row_words, sizes_at};
use core_arrays::Arrays;
use core_code::{Stop, rank_of};
use core_ir::Atom;
use fut_scalar::{List, NoMemory};

/// Puts words behind others.
pub fn put_words(words: &[u64], into: &mut List<u64>) -> Result<(), NoMemory>
    ensures { OnOk result (into.new ≡ into.old ++ words.now) }
{
    for word in words {
        into.push(*word)?;
    }
    Ok(())
}

/// Puts the words of a component's cells behind others.
#[tactic(auto, using(crate::proofs::Gathering::puts))]
pub fn put_cells(atom: Atom, word: u64, into: &mut List<u64>, arrays: &Arrays) -> Result<(), Stop>
    ensures told { Cells_put arrays.now.arrays atom word into.old into.new result }
    ensures memory { OnlyMemory result }
{
    if rank_of(atom) == 0 {
        into.push(word)?;
        return Ok(());
    }
    let Some(words) = arrays.words(word) else {
        return Err(Stop::Memory);
    };
    put_words(words, into)?;
    Ok(())
}

/// The words of a component's cells in all rows.
#[tactic(auto, using(crate::proofs::Gathering::reads))]
fn column(
    row: &[Atom],
    c: usize,
    count: u64,
    words: &[u64],
    arrays: &Arrays,
) -> Result<List<u64>, Stop>
    ensures told { Column_read arrays.now.arrays row.now c count words.now result }
    ensures memory { OnlyMemory result }
{
    let mut cells = List::new(arrays.alloc());
    if c >= row.len() {
        return Err(Stop::Memory);
    }
    let width = row.len() as u64;
    for i in 0..count {
        let here = row_words(words, i, width)?;
        if c >= here.len() {
            return Err(Stop::Memory);
        }
        put_cells(row[c], here[c], &mut cells, arrays)?;
    }
    Ok(cells)
}

/// The sizes of so many rows with a component of the sizes of a word's.
#[tactic(auto, using(crate::proofs::Gathering::sizes_rules))]
pub fn sizes_in_rows(atom: Atom, word: u64, count: u64, arrays: &Arrays) -> Result<List<u64>, Stop>
    ensures told { Sizes_read arrays.now.arrays atom word count result }
    ensures memory { OnlyMemory result }
{
    let mut sizes = List::new(arrays.alloc());
    sizes.push(count)?;
    put_words(sizes_at(atom, word, arrays)?, &mut sizes)?;
    Ok(sizes)
}

/// Makes an array of a component's cells in all rows.
#[tactic(auto, using(crate::proofs::Gathering::makes))]
fn make_column(
    row: &[Atom],
    c: usize,
    count: u64,
    words: &[u64],
    arrays: &mut Arrays,
) -> Result<u64, Stop>
    ensures told { Column_made row.now c count words.now arrays.old arrays.new result }
    ensures memory { OnlyMemory result }
{
    let cells = column(row, c, count, words, arrays)?;
    if c >= row.len() || c >= words.len() {
        return Err(Stop::Memory);
    }
    let sizes = sizes_in_rows(row[c], words[c], count, arrays)?;
    let number = arrays.put(sizes, cells)?;
    Ok(number)
}

/// Makes an array of each component of rows. The answer has their numbers.
#[tactic(auto, using(crate::proofs::Gathering::all_made))]
pub fn make_columns(
    row: &[Atom],
    count: u64,
    words: &[u64],
    arrays: &mut Arrays,
) -> Result<List<u64>, Stop>
    ensures told { Columns_made row.now count words.now arrays.old arrays.new result }
    ensures memory { OnlyMemory result }
{
    let mut made = List::new(arrays.alloc());
    for c in 0..row.len() {
        let number = make_column(row, c, count, words, arrays)?;
        made.push(number)?;
    }
    Ok(made)
}
