// What words, a source, a sink and a loader promise, whatever stands behind them.
ghost use Rattle.std.specs.Prelude.{◌≡◌, ◌<◌, ◌≤◌, ℕ, List, [], length, take, Option, slice_get, IfOk, OnErr, IsErrOf, IfSome};
ghost use Rattle.fut_io.specs.Outside.{SourceSeen, SinkSeen, LoaderSeen, Gave, SourceFailed, Took, SinkFailed, LoadFailed, LoadOver, Loaded};

use fut_scalar::{List, NoMemory};
use std::alloc::Global;

/// The object failed, and counted a fault.
#[derive(Clone, Copy, Debug, PartialEq, Eq)]
pub struct Failed;

/// Why a loader gave no text.
#[derive(Clone, Copy, Debug, PartialEq, Eq)]
pub enum LoadErr {
    /// A fault was counted. A missing file is one.
    Failed,
    /// The file has more than [`MOST_FILE_BYTES`] bytes.
    TooLong,
    /// Memory ran out.
    Memory,
}

/// The most bytes of one file.
pub const MOST_FILE_BYTES: u64 = 4_194_304;

/// Gives the words that a program is called with, behind its own name.
pub trait Words {
    ghost told: { Self → Option (List (List ℕ)) };

    /// The bytes of the word at this index, or nothing behind the last word. The words stay the same.
    fn word(&self, alloc: Global, index: usize) -> Result<Option<List<u8>>, NoMemory>
        ensures { IfOk result (λ word. IfSome (told self.now) (λ words. slice_get words index ≡ word)) };
}

/// Gives bytes in order, until there are no more.
pub trait Source {
    ghost seen: { Self → SourceSeen };

    /// Gives the next bytes, at least one, and says how many. They stand in front of `into`, which is not empty.
    /// The answer 0 is the end.
    fn read(&mut self, into: &mut [u8]) -> Result<u64, Failed>
        requires { 0 < length into.old }
        ensures ok { IfOk result (λ k. Gave (seen self.old) (seen self.new) into.new k) }
        ensures end { IfOk result (λ k. k ≡ 0 → IfSome (seen self.old).left (λ left. left ≡ [])) }
        ensures failed { OnErr result (SourceFailed (seen self.old) (seen self.new)) };
}

/// Takes bytes in order.
pub trait Sink {
    ghost seen: { Self → SinkSeen };

    /// Takes the first bytes of the piece, which is not empty: at least one. It says how many.
    /// A device that takes nothing has failed.
    fn write(&mut self, piece: &[u8]) -> Result<u64, Failed>
        requires { 0 < length piece.now }
        ensures some { IfOk result (λ k. 0 < k) }
        ensures within { IfOk result (λ k. k ≤ length piece.now) }
        ensures ok { IfOk result (λ k. Took (seen self.old) (seen self.new) (take k piece.now)) }
        ensures failed { OnErr result (SinkFailed (seen self.old) (seen self.new)) };
}

/// Gives the text of a name.
pub trait Loader {
    ghost seen: { Self → LoaderSeen };

    /// The text of a name, of at most [`MOST_FILE_BYTES`] bytes. No call changes the files.
    fn load(&mut self, alloc: Global, name: &str) -> Result<List<u8>, LoadErr>
        ensures ok { IfOk result (λ text. Loaded (seen self.old) (seen self.new) name.now text) }
        ensures failed { IsErrOf result LoadErr.Failed → LoadFailed (seen self.old) (seen self.new) name.now }
        ensures too_long { IsErrOf result LoadErr.TooLong → LoadOver (seen self.old) (seen self.new) name.now }
        ensures memory { IsErrOf result LoadErr.Memory → seen self.new ≡ seen self.old };
}
