// Some rows of arrays, as new arrays.
ghost use Rattle.std.specs.Prelude.{◌≡◌, ◌*◌, cond, not, map, flat_map, IfOk, take, drop};
ghost use Rattle.core_ir.specs.Plain.{bundle_form};
ghost use Rattle.core_code.specs.Answers.{OnlyMemory};
ghost use Rattle.core_code.specs.Registers.{state};
ghost use Rattle.core_steps.specs.Choosing.{Column_chosen, No_rows_told, Parted_told, Passing_told, Rows_chosen, picked, places_of, truths};

use crate::arrange::glue_bare;
use crate::columns::put_words;
use crate::gluing::row_words;
use crate::rows::extent;
use core_arrays::Arrays;
use core_code::{Stop, push, word_at};
use core_ir::{Atom, Rows};
use fut_scalar::{List, NoMemory, Place};
use std::alloc::Global;

/// Whether an outcome is the one that is asked for.
fn picked(passing: bool, holds: bool) -> bool
    ensures { result ≡ picked passing holds }
{
    if passing { holds } else { !holds }
}

/// The numbers of the rows whose tests passed, or of those whose tests did not.
#[tactic(auto, using(crate::proofs::Places::passing))]
fn passing_rows(alloc: Global, passing: bool, tests: &[u64]) -> Result<List<u64>, NoMemory>
    ensures { IfOk result (λ rows. rows ≡ places_of passing 0 (truths tests.now)) }
{
    let mut rows = List::new(alloc);
    for i in 0..tests.len() {
        if picked(passing, tests[i] != 0) {
            rows.push(i as u64)?;
        }
    }
    Ok(rows)
}

/// The words of some rows, one row after the other.
#[tactic(auto, using(crate::proofs::Choosing::cells_rules))]
fn chosen_cells(alloc: Global, words: &[u64], each: u64, rows: &[u64]) -> Result<List<u64>, Stop>
    ensures told { IfOk result (λ cells. cells ≡ flat_map (λ i. take each (drop (i * each) words.now)) rows.now) }
    ensures memory { OnlyMemory result }
{
    let mut cells = List::new(alloc);
    for row in rows {
        put_words(row_words(words, *row, each)?, &mut cells)?;
    }
    Ok(cells)
}

/// Makes an array of some rows of another one.
#[tactic(auto, using(crate::proofs::Choosing::column_rules))]
fn choose_column(at: u64, rows: &[u64], arrays: &mut Arrays) -> Result<u64, Stop>
    ensures told { Column_chosen at rows.now arrays.old arrays.new result }
    ensures memory { OnlyMemory result }
{
    let alloc = arrays.alloc();
    let Some(old) = arrays.sizes(at) else {
        return Err(Stop::Memory);
    };
    if old.len() == 0 {
        return Err(Stop::Memory);
    }
    let rest = List::from_slice(alloc, &old[1..])?;
    let Some(each) = extent(rest.as_slice()) else {
        return Err(Stop::Memory);
    };
    let Some(words) = arrays.words(at) else {
        return Err(Stop::Memory);
    };
    let cells = chosen_cells(alloc, words, each, rows)?;
    let mut sizes = List::new(alloc);
    sizes.push(rows.len() as u64)?;
    put_words(rest.as_slice(), &mut sizes)?;
    let number = arrays.put(sizes, cells)?;
    Ok(number)
}

/// Makes an array of some rows of each of several arrays, and puts their numbers on the stack.
#[tactic(auto, using(crate::proofs::Choosing::arrays_rules))]
fn choose_rows(
    atoms: &[Atom],
    rows: &[u64],
    table: &[u64],
    stack: &mut Vec<u64>,
    arrays: &mut Arrays,
) -> Result<(), Stop>
    ensures told { Rows_chosen atoms.now rows.now (state arrays.old table.now stack.old.items) (state arrays.new table.now stack.new.items) result }
    ensures memory { OnlyMemory result }
{
    for atom in atoms {
        let at = word_at(table, *atom)?;
        let number = choose_column(at, rows, arrays)?;
        push(number, stack)?;
    }
    Ok(())
}

/// Makes arrays of the rows whose tests passed, in the place of the tests' words, which lie on the stack from the mark on.
#[tactic(auto, using(crate::proofs::Places::filters))]
pub fn keep_passing(
    atoms: &[Atom],
    mark: usize,
    table: &[u64],
    stack: &mut Vec<u64>,
    arrays: &mut Arrays,
) -> Result<(), Stop>
    ensures told { Passing_told atoms.now mark (state arrays.old table.now stack.old.items) (state arrays.new table.now stack.new.items) result }
    ensures memory { OnlyMemory result }
{
    if mark > stack.len() {
        return Err(Stop::Memory);
    }
    let rows = passing_rows(arrays.alloc(), true, &stack[mark..])?;
    stack.truncate(mark);
    choose_rows(atoms, rows.as_slice(), table, stack, arrays)
}

/// Makes arrays of the rows whose tests passed, and of those whose tests did not, in the place of the tests' words.
#[tactic(auto, using(crate::proofs::Parting::partings))]
pub fn part_passing(
    atoms: &[Atom],
    mark: usize,
    table: &[u64],
    stack: &mut Vec<u64>,
    arrays: &mut Arrays,
) -> Result<(), Stop>
    ensures told { Parted_told atoms.now mark (state arrays.old table.now stack.old.items) (state arrays.new table.now stack.new.items) result }
    ensures memory { OnlyMemory result }
{
    if mark > stack.len() {
        return Err(Stop::Memory);
    }
    let alloc = arrays.alloc();
    let tests = &stack[mark..];
    let passed = passing_rows(alloc, true, tests)?;
    let others = passing_rows(alloc, false, tests)?;
    stack.truncate(mark);
    choose_rows(atoms, passed.as_slice(), table, stack, arrays)?;
    choose_rows(atoms, others.as_slice(), table, stack, arrays)
}

/// Makes arrays of no rows in the place of those of a bundle that has none.
#[tactic(auto, using(crate::proofs::Places::nones))]
pub fn keep_none(
    rows: Rows,
    place: Place,
    table: &[u64],
    stack: &mut Vec<u64>,
    arrays: &mut Arrays,
) -> Result<(), Stop>
    ensures { No_rows_told (bundle_form rows.entry) place (state arrays.old table.now stack.old.items) (state arrays.new table.now stack.new.items) result }
{
    if rows.width == 0 {
        let mark = stack.len();
        return glue_bare(0, mark, place, stack, arrays);
    }
    choose_rows(rows.arrays, &[], table, stack, arrays)
}
