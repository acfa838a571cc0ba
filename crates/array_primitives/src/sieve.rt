// Rows that pass a test, and those that do not.
ghost use Rattle.std.specs.Prelude.{◌≡◌, map, true, IfOk};
ghost use Rattle.fut_scalar.specs.declared.scalar.ScalarType.TheVariants.{Bool as Bool_type};
ghost use Rattle.std.specs.Bool.{beq};
ghost use Rattle.fut_value.specs.Data.{Array_datum, datums};
ghost use Rattle.fut_meaning.specs.Jobs.{sifted};
ghost use Rattle.array_primitives.specs.declared.jobs.Finish.TheVariants as finish;
ghost use Rattle.array_data.specs.Held.{as_held, built_rows, held, row_shape_in, rows_in, scalars};
ghost use Rattle.array_primitives.specs.Plans.{Sieved, odd};

use array_data::{Built, Data, Stop, row, row_depth, row_form, tuple, untested};
use fut_scalar::{List, NoMemory, Place, ScalarType};
use std::alloc::Global;

/// Whether rows that were put together are truth values by their words.
#[tactic(auto, using(crate::proofs::Sifting::truth_words))]
fn are_truths(built: &Built) -> bool
    ensures { result ≡ true → built_rows built.now ≡ scalars Bool_type built.now.words }
{
    if built.rows.len() > 0 {
        return false;
    }
    if built.words.len() == 0 {
        return true;
    }
    built.ty == ScalarType::Bool
}

/// Whether a truth value by its word is the one that is asked for.
#[tactic(auto, using(crate::proofs::Sifting::passings))]
fn passes(word: u64, wanted: bool) -> bool
    ensures { result ≡ beq (odd word) wanted }
{
    if wanted { word % 2 == 1 } else { word % 2 != 1 }
}

/// The rows of an array at which truth values are the one that is asked for.
#[tactic(auto, using(crate::proofs::Sifting::sifting))]
fn sift(alloc: Global, whole: &Data, truths: &[u64], wanted: bool) -> Result<Built, Stop>
    ensures { IfOk result (λ kept. built_rows kept ≡ sifted wanted (rows_in (held whole.now)) (map odd truths.now)) }
{
    let mut kept = Built::new(alloc);
    for i in 0..truths.len() {
        let next = row(whole, i)?;
        if passes(truths[i], wanted) {
            kept.push(next)?;
        }
    }
    Ok(kept)
}

/// The array of the rows at which truth values are the one that is asked for.
#[tactic(auto, using(crate::proofs::Sifting::sieving))]
fn sieve(alloc: Global, whole: &Data, truths: &[u64], wanted: bool) -> Result<Data, NoMemory>
    ensures { IfOk result (λ array. held array ≡ Array_datum (row_shape_in (held whole.now)) (datums (sifted wanted (rows_in (held whole.now)) (map odd truths.now)))) }
{
    let Ok(kept) = sift(alloc, whole, truths, wanted) else {
        return Err(NoMemory);
    };
    let form = row_form(alloc, whole)?;
    untested(alloc, form, row_depth(whole), kept)
}

/// The array of the rows at which truth values hold.
#[tactic(auto, using(crate::proofs::Sifting::keeping))]
pub fn keep_rows(alloc: Global, at: Place, whole: &Data, truths: &Built) -> Result<Data, Stop>
    ensures { Sieved finish.Kept at (held whole.now) (built_rows truths.now) (as_held result) }
{
    if !are_truths(truths) {
        return Err(Stop::Memory);
    }
    Ok(sieve(alloc, whole, truths.words.as_slice(), true)?)
}

/// The array of the rows at which truth values hold, and that of the others.
#[tactic(auto, using(crate::proofs::Sifting::keeping))]
pub fn part_rows(alloc: Global, at: Place, whole: &Data, truths: &Built) -> Result<Data, Stop>
    ensures { Sieved finish.Parted at (held whole.now) (built_rows truths.now) (as_held result) }
{
    if !are_truths(truths) {
        return Err(Stop::Memory);
    }
    let truths = truths.words.as_slice();
    let mut arrays = List::new(alloc);
    arrays.push(sieve(alloc, whole, truths, true)?)?;
    arrays.push(sieve(alloc, whole, truths, false)?)?;
    Ok(tuple(alloc, arrays)?)
}
