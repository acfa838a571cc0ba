// Texts in memory by their names.
ghost use Rattle.std.specs.Prelude.{◌≡◌, ◌<◌, ◌≤◌, ◌⊎◌, length, Some, None, option_map, IfOk, OnOk, IsErrOf, IsSomeAnd, Contains};
ghost use Rattle.fut_io.specs.Counts.{counted};
ghost use Rattle.fut_io.specs.Outside.{file_at, Loaded, LoadFailed, LoadOver};

use crate::memory::is_listed;
use crate::outside::MOST_FILE_BYTES;
use crate::{LoadErr, Loader};
use fut_scalar::{List, Name};
use std::alloc::Global;

/// Texts by their names. It fails at the calls that are numbered in `fails`, counting from 0, and at a name that
/// it lacks.
#[derive(Drop)]
pub struct MemLoader {
    files: List<(Name, List<u8>)>,
    fails: List<u64>,
    calls: u64,
    faults: u64,
    overs: u64,
    lost: Option<Name>,
}

/// The text of the first file of this name.
fn find_file<'a>(files: &'a [(Name, List<u8>)], name: &str) -> Option<&'a List<u8>>
    ensures { option_map (λ text. text.now) result ≡ file_at files.now name.now }
{
    for file in files {
        if file.0.as_str() == name {
            return Some(&file.1);
        }
    }
    None
}

/// The text of the first file of this name, copied. A name that no file has is a fault.
fn copy_text(alloc: Global, files: &[(Name, List<u8>)], name: &str) -> Result<List<u8>, LoadErr>
    ensures text { IfOk result (λ text. file_at files.now name.now ≡ Some text) }
    ensures short { IfOk result (λ text. length text ≤ MOST_FILE_BYTES) }
    ensures missing { IsErrOf result LoadErr.Failed → file_at files.now name.now ≡ None }
    ensures long { IsErrOf result LoadErr.TooLong → IsSomeAnd (file_at files.now name.now) (λ text. MOST_FILE_BYTES < length text) }
{
    let Some(text) = find_file(files, name) else {
        return Err(LoadErr::Failed);
    };
    let bytes = text.as_slice();
    if MOST_FILE_BYTES < bytes.len() as u64 {
        return Err(LoadErr::TooLong);
    }
    List::from_slice(alloc, bytes).map_err(|_| LoadErr::Memory)
}

impl MemLoader {
    /// A loader of `files`. Of two files with one name the first counts. It takes no memory.
    pub fn new(files: List<(Name, List<u8>)>, fails: List<u64>) -> MemLoader
        ensures seen { ⟦<MemLoader as Loader>⟧.seen result ≡ record { files = Some files; faults = 0; overs = 0; lost = None } }
        ensures listed { result.fails ≡ fails }
        ensures first { result.calls ≡ 0 }
    {
        MemLoader {
            files,
            fails,
            calls: 0,
            faults: 0,
            overs: 0,
            lost: None,
        }
    }
}

impl Loader for MemLoader {
    ghost seen = { λ s. record { files = Some s.files; faults = s.faults; overs = s.overs; lost = s.lost } };

    fn load(&mut self, alloc: Global, name: &str) -> Result<List<u8>, LoadErr>
        ensures ok { IfOk result (λ text. Loaded (⟦<MemLoader as Loader>⟧.seen self.old) (⟦<MemLoader as Loader>⟧.seen self.new) name.now text) }
        ensures failed { IsErrOf result LoadErr.Failed → LoadFailed (⟦<MemLoader as Loader>⟧.seen self.old) (⟦<MemLoader as Loader>⟧.seen self.new) name.now }
        ensures too_long { IsErrOf result LoadErr.TooLong → LoadOver (⟦<MemLoader as Loader>⟧.seen self.old) (⟦<MemLoader as Loader>⟧.seen self.new) name.now }
        ensures memory { IsErrOf result LoadErr.Memory → ⟦<MemLoader as Loader>⟧.seen self.new ≡ ⟦<MemLoader as Loader>⟧.seen self.old }
        ensures refused { IsErrOf result LoadErr.Failed → Contains self.old.fails self.old.calls ⊎ (file_at self.old.files name.now ≡ None) }
        ensures passed { OnOk result (¬ Contains self.old.fails self.old.calls) }
        ensures calls { self.new.calls ≡ counted self.old.calls 1 }
        ensures kept { self.new.fails ≡ self.old.fails }
    {
        let call = self.calls;
        self.calls = call.saturating_add(1);
        let Ok(lost) = Name::new(alloc, name) else {
            return Err(LoadErr::Memory);
        };
        let answer = if is_listed(self.fails.as_slice(), call) {
            Err(LoadErr::Failed)
        } else {
            copy_text(alloc, self.files.as_slice(), name)
        };
        match answer {
            Err(LoadErr::Failed) => {
                self.faults = self.faults.saturating_add(1);
                self.lost = Some(lost);
            }
            Err(LoadErr::TooLong) => {
                self.overs = self.overs.saturating_add(1);
                self.lost = Some(lost);
            }
            Ok(_) | Err(LoadErr::Memory) => {}
        }
        answer
    }
}
