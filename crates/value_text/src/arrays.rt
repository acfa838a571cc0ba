// Values of any rank, read into flat words in one pass. Sizes of rows stand in two lists an array, so a row of scalars takes none.
ghost use Rattle.std.specs.Prelude.{◌≡◌, ◌≤◌, ◌<◌, ◌+◌, ◌-◌, ◌*◌, ◌^◌, ◌++◌, ℕ, List as Items, [], true, false, Ok, Err, drop, length, min, max, nat_lt, IfOk, IfErr, OnOk};
ghost use Rattle.fut_value.specs.Values.{greatest_weight, weight_of};
ghost use Rattle.value_text.specs.Arrays.{and_then, counted, empty_as, first_sizes, is_wanted_empty, no_row, no_rows, other_than_rows, read_at, rows_up_to, same_sizes, spelled_scalar};
ghost use Rattle.value_text.specs.Gives.{Gives, Gives_row, Refused_so};
ghost use Rattle.value_text.specs.Gaps.{begins_with, gap_at};

use crate::gaps::{begins_with, behind, gap};
use crate::reading::TextErr;
use crate::spelled::{Form, spelled_at};
use crate::wanted::value_as;
use crate::written::{has_zero, names_type, read_sizes};
use fut_arithmetic::encode_word;
use fut_scalar::{List, NoMemory, ScalarType};
use fut_value::{GREATEST_WEIGHT, weight_of, weight_of_rows};
use std::alloc::Global;

/// The sizes of the first row of an array, and of the row that is read.
#[derive(Drop)]
struct RowSizes {
    first: List<u64>,
    own: List<u64>,
}

/// Whether an array of so many rows of these sizes is too large.
#[tactic(auto, using(crate::proofs::WrittenSizes::under))]
fn is_too_large(count: u64, sizes: &[u64]) -> bool
    ensures { result ≡ nat_lt greatest_weight (count * max 1 (weight_of sizes.now)) }
{
    weight_of_rows(count, sizes) > GREATEST_WEIGHT
}

fn same_sizes(a: &[u64], b: &[u64]) -> bool
    ensures { result ≡ same_sizes a.now b.now }
{
    match a {
        [] => b.is_empty(),
        [m, ms @ ..] => match b {
            [] => false,
            [n, ns @ ..] => *m == *n && same_sizes(ms, ns),
        },
    }
}

/// Why a row of these sizes does not count behind so many rows, where it does not.
#[tactic(auto, unfolding(crate::specs::Arrays::counted))]
fn counted(first: &[u64], row: &[u64], count: u64, position: u64) -> Result<(), TextErr>
    requires { count + 1 < 2 ^ 64 }
    ensures ok { IfOk result (λ _. counted position count first.now row.now ≡ Ok (first_sizes count first.now row.now)) }
    ensures err { IfErr result (λ err. counted position count first.now row.now ≡ Err err) }
{
    let kept = if count == 0 { row } else { first };
    if is_too_large(count + 1, kept) {
        return Err(TextErr::TooLarge { at: position });
    }
    if !same_sizes(row, kept) {
        return Err(TextErr::Irregular { at: position });
    }
    Ok(())
}

/// Puts numbers behind a list.
fn append(list: &mut List<u64>, items: &[u64]) -> Result<(), NoMemory>
    ensures { OnOk result (list.new ≡ list.old ++ items.now) }
{
    for item in items {
        list.push(*item)?;
    }
    Ok(())
}

/// A scalar at the front of a text.
#[tactic(auto, using(crate::proofs::Rows::refused_is), unfolding(crate::specs::Arrays::spelled_scalar))]
fn read_scalar(
    ty: ScalarType,
    position: u64,
    text: &[u8],
    words: &mut List<u64>,
) -> Result<usize, TextErr>
    requires { position + length text.now < 2 ^ 64 }
    ensures gives { IfOk result (λ n. Gives (spelled_scalar ty position text.now) words.old words.new [] [] n) }
    ensures within { IfOk result (λ n. n ≤ length text.now) }
    ensures refused { IfErr result (Refused_so (spelled_scalar ty position text.now)) }
{
    let spelled = match spelled_at(text) {
        Ok(spelled) => spelled,
        Err(offset) => {
            return Err(TextErr::BadText {
                at: position + offset as u64,
            });
        }
    };
    match value_as(ty, position, spelled.form) {
        Ok(value) => {
            words.push(encode_word(value))?;
            Ok(spelled.length)
        }
        Err(err) => Err(err),
    }
}

/// Whether an empty array of these sizes, with the name of its type behind them, is one of this rank and type.
fn is_wanted_empty(ty: ScalarType, rank: usize, sizes: &[u64], after: &[u8]) -> bool
    ensures { result ≡ is_wanted_empty ty rank sizes.now after.now }
{
    sizes.len() == rank && has_zero(sizes) && names_type(ty, behind(after, gap(after)))
}

/// The sizes of an empty array, whose spelling takes so many bytes: the text is what stands behind the bracket that opens
/// them, where the other position is.
#[tactic(auto, using(crate::proofs::ReadEmpty::empties), unfolding(crate::specs::Arrays::empty_as))]
fn read_sizes_as(
    alloc: Global,
    ty: ScalarType,
    rank: usize,
    position: u64,
    from: u64,
    text: &[u8],
    sizes: &mut List<u64>,
) -> Result<(), TextErr>
    requires place { from + length text.now < 2 ^ 64 }
    ensures gives { IfOk result (λ _. (n : ℕ) (ws : Items ℕ) → Gives (empty_as ty rank position from n text.now) ws ws sizes.old sizes.new n) }
    ensures refused { IfErr result (λ err. (n : ℕ) → Refused_so (empty_as ty rank position from n text.now) err) }
{
    let mut own = List::new(alloc);
    let found = read_sizes(text, &mut own)?;
    if !is_wanted_empty(ty, rank, own.as_slice(), behind(text, found.end)) {
        return Err(TextErr::WrongType { at: position });
    }
    if let Some(offset) = found.beyond {
        return Err(TextErr::OutOfRange {
            at: from + offset as u64,
        });
    }
    if weight_of(own.as_slice()) > GREATEST_WEIGHT {
        return Err(TextErr::TooLarge { at: position });
    }
    append(sizes, own.as_slice())?;
    Ok(())
}

/// What begins with no bracket where an array is wanted: an empty array, or nothing that is wanted.
#[tactic(auto, using(crate::proofs::Emptied::empties, crate::proofs::ReadEmpty::others), unfolding(crate::specs::Arrays::other_than_rows))]
fn read_other(
    alloc: Global,
    ty: ScalarType,
    rank: usize,
    position: u64,
    text: &[u8],
    sizes: &mut List<u64>,
) -> Result<usize, TextErr>
    requires place { position + length text.now < 2 ^ 64 }
    requires other { begins_with 91 text.now ≡ false }
    ensures gives { IfOk result (λ n. (ws : Items ℕ) → Gives (other_than_rows ty rank position text.now) ws ws sizes.old sizes.new n) }
    ensures within { IfOk result (λ n. n ≤ length text.now) }
    ensures refused { IfErr result (Refused_so (other_than_rows ty rank position text.now)) }
{
    let spelled = match spelled_at(text) {
        Ok(spelled) => spelled,
        Err(offset) => {
            return Err(TextErr::BadText {
                at: position + offset as u64,
            });
        }
    };
    match spelled.form {
        Form::Array => {
            let word = behind(text, 5);
            let opening = gap(word) + 1;
            let inner = behind(word, opening);
            let from = position + 5 + opening as u64;
            match read_sizes_as(alloc, ty, rank, position, from, inner, sizes) {
                Ok(()) => Ok(spelled.length),
                Err(err) => Err(err),
            }
        }
        _ => Err(TextErr::WrongType { at: position }),
    }
}

/// An array without rows, from behind its `[` on.
fn read_no_rows(
    rank: usize,
    start: u64,
    text: &[u8],
    sizes: &mut List<u64>,
) -> Result<usize, TextErr>
    requires place { start + 1 + length text.now < 2 ^ 64 }
    requires closed { begins_with 93 (drop (gap_at text.now) text.now) ≡ true }
    ensures gives { IfOk result (λ n. Gives (no_rows rank (start + 1 + gap_at text.now) (gap_at text.now + 2)) [] [] sizes.old sizes.new n) }
    ensures within { IfOk result (λ n. n ≤ length text.now + 1) }
    ensures refused { IfErr result (Refused_so (no_rows rank (start + 1 + gap_at text.now) (gap_at text.now + 2))) }
{
    let blanks = gap(text);
    if rank == 0 {
        sizes.push(0)?;
        Ok(blanks + 2)
    } else {
        Err(TextErr::BadText {
            at: start + 1 + blanks as u64,
        })
    }
}

/// A row that stands at the front of a text, behind so many others.
#[cycle(arrays)]
#[tactic(auto, using(crate::proofs::Rows::row_goes))]
fn read_row(
    alloc: Global,
    ty: ScalarType,
    rank: usize,
    count: u64,
    position: u64,
    text: &[u8],
    words: &mut List<u64>,
    rows: &mut RowSizes,
) -> Result<usize, TextErr>
    requires place { position + length text.now < 2 ^ 64 }
    requires few { count + 1 < 2 ^ 64 }
    requires none { count ≡ 0 → rows.old.first ≡ [] }
    ensures gives { IfOk result (λ n. Gives_row (read_at ty rank position text.now) position count rows.old.first rows.new.first words.old words.new n) }
    ensures within { IfOk result (λ n. n ≤ length text.now) }
    ensures refused { IfErr result (Refused_so (and_then (read_at ty rank position text.now) (λ read. counted position count rows.old.first read.sizes))) }
{
    rows.own.truncate(0);
    let length = match read_at(alloc, ty, rank, position, text, words, &mut rows.own) {
        Ok(length) => length,
        Err(err) => return Err(err),
    };
    match counted(rows.first.as_slice(), rows.own.as_slice(), count, position) {
        Ok(()) => {}
        Err(err) => return Err(err),
    }
    if count == 0 {
        append(&mut rows.first, rows.own.as_slice())?;
    }
    Ok(length)
}

/// The rows of an array, from behind its `[` on.
#[cycle(arrays)]
fn read_rows(
    alloc: Global,
    ty: ScalarType,
    rank: usize,
    start: u64,
    text: &[u8],
    words: &mut List<u64>,
    sizes: &mut List<u64>,
) -> Result<usize, TextErr>
    requires { start + 1 + length text.now < 2 ^ 64 }
    ensures gives { IfOk result (λ n. Gives (rows_up_to (length text.now) (read_at ty rank) no_row start 1 text.now) words.old words.new sizes.old sizes.new n) }
    ensures within { IfOk result (λ n. n ≤ length text.now + 1) }
    ensures refused { IfErr result (Refused_so (rows_up_to (length text.now) (read_at ty rank) no_row start 1 text.now)) }
{
    let mut rows = RowSizes {
        first: List::new(alloc),
        own: List::new(alloc),
    };
    let mut before = 1usize;
    let mut rest = text;
    for turn in 0..text.len() {
        let blanks = gap(rest);
        let front = behind(rest, blanks);
        before += blanks;
        let length = match read_row(
            alloc,
            ty,
            rank,
            turn as u64,
            start + before as u64,
            front,
            words,
            &mut rows,
        ) {
            Ok(length) => length,
            Err(err) => return Err(err),
        };
        let tail = behind(front, length);
        let more = gap(tail);
        let mark = behind(tail, more);
        before += length + more;
        if begins_with(b']', mark) {
            sizes.push(turn as u64 + 1)?;
            append(sizes, rows.first.as_slice())?;
            return Ok(before + 1);
        }
        if !begins_with(b',', mark) {
            return Err(TextErr::BadText {
                at: start + before as u64,
            });
        }
        rest = behind(mark, 1);
        before += 1;
    }
    Err(TextErr::BadText {
        at: start + before as u64,
    })
}

/// Reads a value of a scalar type and a rank at the front of a text that begins at a position, where no blanks stand. Its
/// words, and its sizes with the outermost first, go behind those in the lists; the answer is how many bytes it takes. After a
/// refusal the lists may have some of what was read.
#[cycle(arrays)]
pub fn read_at(
    alloc: Global,
    ty: ScalarType,
    rank: usize,
    position: u64,
    text: &[u8],
    words: &mut List<u64>,
    sizes: &mut List<u64>,
) -> Result<usize, TextErr>
    requires { position + length text.now < 2 ^ 64 }
    ensures gives { IfOk result (λ n. Gives (read_at ty rank position text.now) words.old words.new sizes.old sizes.new n) }
    ensures within { IfOk result (λ n. n ≤ length text.now) }
    ensures refused { IfErr result (Refused_so (read_at ty rank position text.now)) }
{
    if rank == 0 {
        return read_scalar(ty, position, text, words);
    }
    if !begins_with(b'[', text) {
        return read_other(alloc, ty, rank, position, text, sizes);
    }
    let inner = behind(text, 1);
    if begins_with(b']', behind(inner, gap(inner))) {
        return read_no_rows(rank - 1, position, inner, sizes);
    }
    read_rows(alloc, ty, rank - 1, position, inner, words, sizes)
}
