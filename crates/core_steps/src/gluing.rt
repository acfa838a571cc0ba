// Rows whose words lie on the stack, as new arrays.
ghost use Rattle.std.specs.Prelude.{◌≡◌, ◌<◌, ◌≤◌, ◌*◌, ◌^◌, ◌-◌, min, IfOk, IfSome, OnOk, take, drop};
ghost use Rattle.fut_value.specs.Leaves.{extent};
ghost use Rattle.core_ir.specs.Bundles.{same_sizes};
ghost use Rattle.core_code.specs.Answers.{OnlyMemory};
ghost use Rattle.core_code.specs.Registers.{state};
ghost use Rattle.core_steps.specs.Gluing.{Row_fits, Rows_fit, Sized_at, Within_told};

use core_arrays::Arrays;
use core_code::{Stop, push, rank_of};
use core_ir::Atom;
use fut_scalar::{FailKind, List, Place, Report};
use fut_value::{GREATEST_WEIGHT, weight_of_rows};

/// Whether two lists of sizes are the same.
fn same_sizes(a: &[u64], b: &[u64]) -> bool
    ensures { result ≡ same_sizes a.now b.now }
{
    match a {
        [] => b.len() == 0,
        [x, xs @ ..] => match b {
            [] => false,
            [y, ys @ ..] => *x == *y && same_sizes(xs, ys),
        },
    }
}

/// The sizes of what a word stands for: none of a scalar.
#[tactic(auto, using(crate::proofs::Sizing::sizes_read))]
pub fn sizes_at(atom: Atom, word: u64, arrays: &Arrays) -> Result<&[u64], Stop>
    ensures told { IfOk result (λ ds. Sized_at arrays.now.arrays atom word ds.now) }
    ensures memory { OnlyMemory result }
{
    if rank_of(atom) == 0 {
        return Ok(&[]);
    }
    match arrays.sizes(word) {
        Some(sizes) => Ok(sizes),
        None => Err(Stop::Memory),
    }
}

/// Whether two rows have components of the same sizes.
#[tactic(auto, using(crate::proofs::Sizing::fits))]
fn row_fits(row: &[Atom], words: &[u64], firsts: &[u64], arrays: &Arrays) -> Result<bool, Stop>
    ensures told { Row_fits arrays.now.arrays row.now words.now firsts.now result }
    ensures memory { OnlyMemory result }
{
    if words.len() != row.len() || firsts.len() != row.len() {
        return Err(Stop::Memory);
    }
    for c in 0..row.len() {
        let sizes = sizes_at(row[c], words[c], arrays)?;
        let first = sizes_at(row[c], firsts[c], arrays)?;
        if !same_sizes(sizes, first) {
            return Ok(false);
        }
    }
    Ok(true)
}

/// The words of one row among those of several.
pub fn row_words(words: &[u64], i: u64, width: u64) -> Result<&[u64], Stop>
    ensures told { IfOk result (λ row. row.now ≡ take width (drop (i * width) words.now)) }
    ensures memory { OnlyMemory result }
{
    let Some(from) = i.checked_mul(width) else {
        return Err(Stop::Memory);
    };
    let long = words.len() as u64;
    if from > long || width > long - from {
        return Err(Stop::Memory);
    }
    Ok(&words[from as usize..(from + width) as usize])
}

/// Whether all rows have components of the sizes that the first one has.
#[tactic(auto, using(crate::proofs::Sizing::all_fits))]
pub fn rows_fit(row: &[Atom], count: u64, words: &[u64], arrays: &Arrays) -> Result<bool, Stop>
    ensures told { Rows_fit arrays.now.arrays row.now count words.now result }
    ensures memory { OnlyMemory result }
{
    let width = row.len() as u64;
    let firsts = row_words(words, 0, width)?;
    for i in 0..count {
        if !row_fits(row, row_words(words, i, width)?, firsts, arrays)? {
            return Ok(false);
        }
    }
    Ok(true)
}

/// The words of arrays of these sizes, or the greatest number where there are more.
fn extent_within(sizes: &[u64]) -> u64
    ensures { result ≡ min (extent sizes.now) (2 ^ 64 - 1) }
{
    match sizes {
        [] => 1,
        [size, rest @ ..] => size.saturating_mul(extent_within(rest)),
    }
}

/// Whether arrays of so many rows of a row's sizes are within the greatest weight, all together.
#[tactic(auto, using(crate::proofs::Weighing::weighing))]
pub fn within(row: &[Atom], count: u64, words: &[u64], arrays: &Arrays) -> Result<bool, Stop>
    ensures told { Within_told arrays.now.arrays row.now count words.now result }
    ensures memory { OnlyMemory result }
{
    if words.len() != row.len() {
        return Err(Stop::Memory);
    }
    let mut heaviest = 0u64;
    let mut all = 0u64;
    for c in 0..row.len() {
        let sizes = sizes_at(row[c], words[c], arrays)?;
        heaviest = heaviest.max(weight_of_rows(count, sizes));
        all = all.saturating_add(count.saturating_mul(extent_within(sizes)));
    }
    Ok(heaviest.max(all) <= GREATEST_WEIGHT)
}
