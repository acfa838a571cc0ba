// Where cells stand, and their words in order.
ghost use Rattle.std.specs.Prelude.{◌≡◌, ℕ, ℤ, List, [], ◌∷◌, ◌<◌, ◌≤◌, ◌^◌, ◌++◌, ◌-◌, pos, drop, length, OnOk, IfOk, slice_index};
ghost use Rattle.std.specs.List.{flat_map, slice_index_or};
ghost use Rattle.block_store.specs.Indices.{EachBelow, IsIndex, place_from};
ghost use Rattle.block_store.specs.Walks.{moved as moved_on, read_from, row_words, rows_at, wrapped};

use fut_scalar::{List, NoMemory};
use std::alloc::Global;

/// So many steps on from a place, modulo 2 to the 64.
pub fn moved(place: u64, count: u64, step: u64) -> u64
    ensures { result ≡ moved_on place count step }
{
    place.wrapping_add(count.wrapping_mul(step))
}

/// The stride of a level as a step.
#[tactic(auto, using(crate::proofs::Placing::wraps))]
pub fn step_at(strides: &[i64], level: usize) -> u64
    requires { level < length strides.now }
    ensures { result ≡ wrapped (slice_index_or strides.now level (pos 0)) }
{
    strides[level].cast_unsigned()
}

/// The place of an index: as many strides of each level on as it says.
pub fn place_of(offset: u64, strides: &[i64], at: &[u64]) -> u64
    requires { length at.now ≤ length strides.now }
    ensures { (n : ℕ) (ns : List ℕ) → n < 2 ^ 64 → EachBelow n (pos offset) strides.now ns → IsIndex at.now ns → pos result ≡ place_from (pos offset) strides.now at.now }
{
    let mut place = offset;
    for k in 0..at.len() {
        place = moved(place, at[k], step_at(strides, k));
    }
    place
}

/// Puts the places of the rows of one array behind others.
fn put_rows(place: u64, count: u64, step: u64, rows: &mut List<u64>) -> Result<(), NoMemory>
    ensures { OnOk result (rows.new ≡ rows.old ++ rows_at count step place) }
{
    for i in 0..count {
        rows.push(moved(place, i, step))?;
    }
    Ok(())
}

/// The places of the rows of arrays at these places.
fn rows_of(alloc: Global, places: &[u64], count: u64, step: u64) -> Result<List<u64>, NoMemory>
    ensures { IfOk result (λ rows. rows ≡ flat_map (rows_at count step) places.now) }
{
    let mut rows = List::new(alloc);
    for place in places {
        put_rows(*place, count, step, &mut rows)?;
    }
    Ok(rows)
}

/// The word at a place. One behind the last is 0.
pub fn word_at(words: &[u64], place: u64) -> u64
    ensures { result ≡ slice_index words.now place }
{
    match words.get(place as usize) {
        Some(word) => *word,
        None => 0,
    }
}

/// Puts the words of a row of scalars behind others.
fn put_row(
    words: &[u64],
    place: u64,
    count: u64,
    step: u64,
    into: &mut List<u64>,
) -> Result<(), NoMemory>
    ensures { OnOk result (into.new ≡ into.old ++ row_words words.now count step place) }
{
    for i in 0..count {
        into.push(word_at(words, moved(place, i, step)))?;
    }
    Ok(())
}

/// Puts the words of rows of scalars at these places behind others.
fn put_all_rows(
    words: &[u64],
    places: &[u64],
    count: u64,
    step: u64,
    into: &mut List<u64>,
) -> Result<(), NoMemory>
    ensures { OnOk result (into.new ≡ into.old ++ flat_map (row_words words.now count step) places.now) }
{
    for place in places {
        put_row(words, *place, count, step, into)?;
    }
    Ok(())
}

/// Where an array's rows of scalars stand.
fn innermost(
    alloc: Global,
    offset: u64,
    strides: &[i64],
    shape: &[u64],
) -> Result<List<u64>, NoMemory>
    requires levels { length strides.now ≡ length shape.now }
    requires some { 0 < length shape.now }
    ensures { IfOk result (λ places. (words : List ℕ) → flat_map (read_from words (drop (length shape.now - 1) strides.now) (drop (length shape.now - 1) shape.now)) places ≡ read_from words strides.now shape.now offset) }
{
    let mut places = List::new(alloc);
    places.push(offset)?;
    for k in 0..shape.len() - 1 {
        places = rows_of(alloc, places.as_slice(), shape[k], step_at(strides, k))?;
    }
    Ok(places)
}

/// The words of an array that stands at a place, those of the first row first.
pub fn words_from(
    alloc: Global,
    words: &[u64],
    offset: u64,
    strides: &[i64],
    shape: &[u64],
) -> Result<List<u64>, NoMemory>
    requires { length strides.now ≡ length shape.now }
    ensures { IfOk result (λ read. read ≡ read_from words.now strides.now shape.now offset) }
{
    let mut into = List::new(alloc);
    if shape.len() == 0 {
        into.push(word_at(words, offset))?;
        return Ok(into);
    }
    let last = shape.len() - 1;
    let places = innermost(alloc, offset, strides, shape)?;
    let step = step_at(strides, last);
    put_all_rows(words, places.as_slice(), shape[last], step, &mut into)?;
    Ok(into)
}
