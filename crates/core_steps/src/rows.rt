// Rows of arrays: how many there are, and the words of one.
ghost use Rattle.std.specs.Prelude.{◌≡◌, IfSome, IfOk};
ghost use Rattle.fut_value.specs.Leaves.{extent};
ghost use Rattle.core_code.specs.Answers.{OnlyMemory};
ghost use Rattle.core_code.specs.Registers.{state};
ghost use Rattle.core_steps.specs.Rows.{Cell_pushed, Cell_told, Count_read, Long_read, Part_told, Row_pushed};

use core_arrays::Arrays;
use core_code::{Stop, elem_of, length_of, low_bits, push, rank_of, word_at};
use core_ir::Atom;
use fut_scalar::{FailKind, List, Place, Report, ScalarType};

/// How many rows an operand has.
#[tactic(auto, using(crate::proofs::Counting::lengths))]
pub fn length_at(atom: Atom, table: &[u64], arrays: &Arrays) -> Result<u64, Stop>
    ensures told { Long_read table.now arrays.now.arrays atom result }
    ensures memory { OnlyMemory result }
{
    let at = word_at(table, atom)?;
    length_of(at, arrays)
}

/// How many rows arrays have that are to have as many.
#[tactic(auto, using(crate::proofs::Counting::counting))]
pub fn rows_count(atoms: &[Atom], place: Place, table: &[u64], arrays: &Arrays) -> Result<u64, Stop>
    ensures { Count_read table.now arrays.now.arrays atoms.now place result }
{
    if atoms.len() == 0 {
        return Err(Stop::Memory);
    }
    let count = length_at(atoms[0], table, arrays)?;
    for atom in atoms {
        if length_at(*atom, table, arrays)? != count {
            return Err(Stop::Failed(Report {
                kind: FailKind::Size,
                place,
            }));
        }
    }
    Ok(count)
}

/// The product of sizes.
#[tactic(auto, using(crate::proofs::Taking::products))]
pub fn extent(sizes: &[u64]) -> Option<u64>
    ensures { IfSome result (λ count. count ≡ extent sizes.now) }
{
    let mut count = 1u64;
    for size in sizes {
        count = count.checked_mul(*size)?;
    }
    Some(count)
}

/// The word of a cell of an array.
#[tactic(auto, using(crate::proofs::Taking::cells))]
fn cell_at(elem: ScalarType, at: u64, i: u64, arrays: &Arrays) -> Result<u64, Stop>
    ensures told { Cell_told arrays.now.arrays elem at i result }
    ensures memory { OnlyMemory result }
{
    let Some(words) = arrays.words(at) else {
        return Err(Stop::Memory);
    };
    if i >= words.len() as u64 {
        return Err(Stop::Memory);
    }
    Ok(low_bits(elem, words[i as usize]))
}

/// A row of an array of rows, as an array.
#[tactic(auto, using(crate::proofs::Taking::parts_taken))]
fn row_of(at: u64, i: u64, arrays: &mut Arrays) -> Result<u64, Stop>
    ensures told { Part_told at i arrays.old arrays.new result }
    ensures memory { OnlyMemory result }
{
    let alloc = arrays.alloc();
    let Some(sizes) = arrays.sizes(at) else {
        return Err(Stop::Memory);
    };
    if sizes.len() == 0 || i >= sizes[0] {
        return Err(Stop::Memory);
    }
    let rest = List::from_slice(alloc, &sizes[1..])?;
    let Some(count) = extent(rest.as_slice()) else {
        return Err(Stop::Memory);
    };
    let Some(from) = i.checked_mul(count) else {
        return Err(Stop::Memory);
    };
    let part = arrays.put_part(at, rest, from, count)?;
    Ok(part)
}

/// Puts a component of a row on the stack.
#[tactic(auto, using(crate::proofs::Taking::pushing))]
fn push_cell(
    atom: Atom,
    i: u64,
    table: &[u64],
    stack: &mut Vec<u64>,
    arrays: &mut Arrays,
) -> Result<(), Stop>
    ensures told { Cell_pushed atom i (state arrays.old table.now stack.old.items) (state arrays.new table.now stack.new.items) result }
    ensures memory { OnlyMemory result }
{
    let at = word_at(table, atom)?;
    if rank_of(atom) == 1 {
        let word = cell_at(elem_of(atom), at, i, arrays)?;
        push(word, stack)
    } else {
        let part = row_of(at, i, arrays)?;
        push(part, stack)
    }
}

/// Puts a row of arrays on the stack, component by component.
#[tactic(auto, using(crate::proofs::Taking::rows))]
pub fn push_row(
    atoms: &[Atom],
    i: u64,
    table: &[u64],
    stack: &mut Vec<u64>,
    arrays: &mut Arrays,
) -> Result<(), Stop>
    ensures told { Row_pushed atoms.now i (state arrays.old table.now stack.old.items) (state arrays.new table.now stack.new.items) result }
    ensures memory { OnlyMemory result }
{
    for atom in atoms {
        push_cell(*atom, i, table, stack, arrays)?;
    }
    Ok(())
}
