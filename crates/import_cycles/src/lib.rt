//! The first file that imports itself.
//!
//! `file_order/specs/Order.antt` says which it is: the first in load order that leads to itself through imports. Files are told
//! by the numbers of those that each imports.
#![tactic(auto)]

ghost use Rattle.std.specs.Prelude.{◌≡◌, ◌<◌, ◌↔◌, ◌++◌, ℕ, length, IfOk, OnOk, true};
ghost use Rattle.elab_scopes.specs.Imports.{Source_file};
ghost use Rattle.import_cycles.specs.Graphs.{Are_imports, Cycle_is, Leads_in, Marked, Within};

use fut_scalar::{List, NoMemory};
use std::alloc::Global;

/// Puts numbers behind those that are to be looked at.
fn put_all(numbers: &[u32], pending: &mut List<u32>) -> Result<(), NoMemory>
    ensures { OnOk result (pending.new ≡ pending.old ++ numbers.now) }
{
    for number in numbers {
        match pending.push(*number) {
            Ok(()) => (),
            Err(NoMemory) => return Err(NoMemory),
        }
    }
    Ok(())
}

/// As many marks as there are files, of which none is set.
fn unmarked(alloc: Global, count: usize) -> Result<List<bool>, NoMemory>
    ensures length { IfOk result (λ seen. length seen ≡ count) }
    ensures none { IfOk result (λ seen. (k : ℕ) → Marked seen k → ⊥) }
{
    let mut seen = List::new(alloc);
    for _ in 0..count {
        match seen.push(false) {
            Ok(()) => (),
            Err(NoMemory) => return Err(NoMemory),
        }
    }
    Ok(seen)
}

/// Marks the files to which a file leads.
fn marked(alloc: Global, imports: &[&[u32]], from: usize) -> Result<List<bool>, NoMemory>
    requires within { Within imports.now }
    requires from { from < length imports.now }
    ensures length { IfOk result (λ seen. length seen ≡ length imports.now) }
    ensures marks { IfOk result (λ seen. (k : ℕ) → Marked seen k ↔ Leads_in imports.now k from) }
{
    let mut seen = unmarked(alloc, imports.len())?;
    let mut pending = List::new(alloc);
    put_all(imports[from], &mut pending)?;
    while let Some(next) = pending.pop() {
        let at = next as usize;
        if !seen.as_slice()[at] {
            seen.set(at, true);
            put_all(imports[at], &mut pending)?;
        }
    }
    Ok(seen)
}

/// Whether a file leads to itself.
fn is_cycle(alloc: Global, imports: &[&[u32]], file: usize) -> Result<bool, NoMemory>
    requires within { Within imports.now }
    requires file { file < length imports.now }
    ensures { IfOk result (λ cycle. cycle ≡ true ↔ Leads_in imports.now file file) }
{
    let seen = marked(alloc, imports, file)?;
    Ok(seen.as_slice()[file])
}

/// The number of the first file behind the prelude, in load order, that leads to itself. Files are told by the numbers of those
/// that each imports, file 0 being the prelude.
///
/// Each file is asked by itself, so the cost is the product of files and imports.
pub fn first_cycle(alloc: Global, imports: &[&[u32]]) -> Result<Option<u32>, NoMemory>
    requires within { Within imports.now }
    ensures { IfOk result (λ cycle. (files : List Source_file) → Are_imports files imports.now → Cycle_is files (length imports.now) cycle) }
{
    let mut file = 1;
    while file < imports.len() {
        if is_cycle(alloc, imports, file)? {
            return match u32::try_from(file) {
                Ok(number) => Ok(Some(number)),
                Err(_) => Err(NoMemory),
            };
        }
        file += 1;
    }
    Ok(None)
}
