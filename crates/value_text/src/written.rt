// What the spelling of an empty array says.
ghost use Rattle.std.specs.Prelude.{◌≡◌, ◌≤◌, ◌<◌, ◌+◌, ◌++◌, ℕ, length, drop, OnOk, IfOk, IfSome};
ghost use Rattle.value_text.specs.Gaps.{gap_at};
ghost use Rattle.value_text.specs.Written.{beyond_at, digits_from, first_beyond, has_zero, names_type, size_at, size_limit, sizes_of, written};

use crate::empties::{digit_len, dimension};
use crate::gaps::{behind, gap};
use crate::numbers::{Base, value_of};
use crate::wanted::type_number;
use crate::words::{is_word, type_at};
use fut_scalar::{List, NoMemory, ScalarType};

/// Sizes are below this.
const SIZE_LIMIT: u64 = 0x8000_0000_0000_0000;

/// Where the dimensions of an empty array end, and where the first size that is too great stands.
#[derive(Clone, Copy)]
pub struct Written {
    pub end: usize,
    pub beyond: Option<usize>,
}

/// Where the digits of a dimension begin, behind its bracket.
#[tactic(auto, unfolding(crate::specs::Written::digits_from))]
fn digits_from(text: &[u8]) -> usize
    requires { gap_at text.now + 1 ≤ length text.now }
    ensures value { result ≡ digits_from text.now }
    ensures within { result ≤ length text.now }
{
    let opened = gap(text) + 1;
    opened + gap(behind(text, opened))
}

/// The size that the digits at the front stand for, or the limit where it isn't below that.
#[tactic(auto, using(crate::proofs::WrittenSizes::sizes), unfolding(crate::specs::Written::size_at))]
fn size_at(text: &[u8]) -> u64
    ensures value { result ≡ size_at text.now }
    ensures within { result ≤ size_limit }
{
    match value_of(Base::Decimal, &text[..digit_len(text)], 0) {
        Ok(size) => size.min(SIZE_LIMIT),
        Err(_) => SIZE_LIMIT,
    }
}

/// Puts the sizes of the dimensions at the front behind a list.
#[tactic(auto, using(crate::proofs::WrittenSizes::dimensions_found))]
pub fn read_sizes(text: &[u8], sizes: &mut List<u64>) -> Result<Written, NoMemory>
    ensures sizes { OnOk result (sizes.new ≡ sizes.old ++ sizes_of (written text.now).all) }
    ensures end { IfOk result (λ found. found.end ≡ (written text.now).end) }
    ensures within { IfOk result (λ found. found.end ≤ length text.now) }
    ensures beyond { IfOk result (λ found. found.beyond ≡ first_beyond (written text.now).all) }
    ensures place { IfOk result (λ found. IfSome found.beyond (λ at. at ≤ length text.now)) }
{
    let mut end = 0usize;
    let mut beyond = None;
    let mut rest = text;
    for turn in 0..text.len() {
        let Ok(more) = dimension(rest) else {
            return Ok(Written { end, beyond });
        };
        let from = digits_from(rest);
        let size = size_at(behind(rest, from));
        sizes.push(size)?;
        beyond = beyond_at(beyond, size, end + from);
        end += more;
        rest = behind(rest, more);
    }
    Ok(Written { end, beyond })
}

/// Where the first size that is too great stands, where one of this size is behind those before.
fn beyond_at(before: Option<usize>, size: u64, from: usize) -> Option<usize>
    ensures value { result ≡ beyond_at before size from }
    ensures place { (most : ℕ) → IfSome before (λ at. at ≤ most) → from ≤ most → IfSome result (λ at. at ≤ most) }
{
    match before {
        Some(other) => Some(other),
        None => { if size < SIZE_LIMIT { None } else { Some(from) } }
    }
}

pub fn has_zero(sizes: &[u64]) -> bool
    ensures { result ≡ has_zero sizes.now }
{
    match sizes {
        [] => false,
        [size, rest @ ..] => *size == 0 || has_zero(rest),
    }
}

/// Whether the scalar type that is named at the front is this one.
#[tactic(auto, unfolding(crate::specs::Written::names_type))]
pub fn names_type(ty: ScalarType, text: &[u8]) -> bool
    ensures { result ≡ names_type ty text.now }
{
    match ty {
        ScalarType::Int(ty) => match type_at(text) {
            Some(named) => type_number(ty) == type_number(named),
            None => false,
        },
        ScalarType::Bool => is_word(text, b"bool"),
    }
}
