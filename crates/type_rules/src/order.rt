// Rows of labels in ascending order.
ghost use Rattle.std.specs.Prelude.{◌≡◌, ◌↔◌, ℕ, ◌+◌, ◌<◌, IsTrue, IfOk, IfSome, MatchOption, length, slice_index_or};
ghost use Rattle.std.specs.List.{Contains};
ghost use Rattle.std.specs.List.Sorted.{IsNonDecreasing, IsPermutation};
ghost use Rattle.fut_types.specs.Shapes.{Rising};
ghost use Rattle.fut_typing.specs.Names.{Once};

use fut_scalar::{List, NoMemory};
use std::alloc::Global;

fn sorted(alloc: Global, row: &[u32]) -> Result<List<u32>, NoMemory>
    ensures moved { IfOk result (λ list. IsPermutation row.now list) }
    ensures rises { IfOk result (λ list. IsNonDecreasing list) }
{
    let list = match List::from_slice(alloc, row) {
        Ok(list) => list,
        Err(_) => return Err(NoMemory),
    };
    let mut items = list.into_vec();
    items.sort_unstable();
    Ok(List::from_vec(items))
}

fn rises(row: &[u32]) -> bool
    ensures { IsTrue result ↔ ((k : ℕ) → k + 1 < length row.now → slice_index_or row.now k 0 < slice_index_or row.now (k + 1) 0) }
{
    let mut at = 1;
    while at < row.len() {
        if row[at - 1] >= row[at] {
            return false;
        }
        at += 1;
    }
    true
}

/// The labels in ascending order, where none stands twice.
pub fn ascending(alloc: Global, row: &[u32]) -> Result<Option<List<u32>>, NoMemory>
    ensures found { IfOk result (λ found. MatchOption found (Once row.now → ⊥) (λ list. Once row.now × ((l : ℕ) → Contains list l ↔ Contains row.now l) × (length list ≡ length row.now))) }
    ensures rising { IfOk result (λ found. IfSome found (λ list. Rising 0 list)) }
{
    let list = match sorted(alloc, row) {
        Ok(list) => list,
        Err(_) => return Err(NoMemory),
    };
    if rises(list.as_slice()) {
        Ok(Some(list))
    } else {
        Ok(None)
    }
}
