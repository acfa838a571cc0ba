//! What phases know of rows, of the function that runs over each element and of the operator of a reduction or a scan: their
//! contracts alone, and words of whatever layout; and the carrying over of a chunk.
#![tactic(auto)]

ghost use Rattle.std.specs.Prelude.{◌≡◌, ℕ, List, [], ◌∷◌, ◌++◌, ◌<◌, ◌≤◌, IfOk, OnOk, length};
ghost use Rattle.phase_code.specs.Ranges.{Function, Monoid, Went, Kept, Never, Applies_to, Fold_gives, Scan_gives, Carry_gives};
ghost use Rattle.phase_code.specs.Rows.{Ends_in};

mod carry;
mod outcome;

pub use carry::CarryTask;
use fut_scalar::NoMemory;
pub use outcome::{Applied, Chunk, Made, StageFault};
use std::alloc::Global;

/// Words of several rows, one after the other. `A` is what contracts see as a row.
pub trait Rows<A>: Sized {
    ghost rows: { Self → List A };

    /// Copies rows behind these.
    fn append(&mut self, more: &Self) -> Result<(), NoMemory>
        ensures { OnOk result (rows self.new ≡ rows self.old ++ rows more.now) };

    /// A copy of the last row.
    fn last(&self, alloc: Global) -> Result<Self, NoMemory>
        requires { 0 < length (rows self.now) }
        ensures { IfOk result (λ z. Ends_in (rows self.now) (rows z)) };
}

/// A function of each element in one or more stages, which runs a range of elements.
pub trait RangeCode<A, W: Rows<A>> {
    ghost function: { Self → Function A };

    fn stage_count(&self) -> u32
        ensures { result ≡ (function self.now).stages };

    /// No rows, with room for so many.
    fn none(&self, alloc: Global, room: u64) -> Result<W, NoMemory>
        ensures { IfOk result (λ w. W.rows w ≡ []) };

    /// The rows of the elements from `lo` up to `hi`, that one excluded, or the failure that counts among these.
    fn run_range(&self, alloc: Global, lo: u64, hi: u64) -> Result<Chunk<W>, NoMemory>
        requires { (lo ≤ hi) × (hi ≤ (function self.now).count) }
        ensures { IfOk result (λ o. Went W.rows (function self.now) Kept Never lo hi o) };
}

/// An operator of two rows with a neutral one. It is taken to be associative, and is not asked to be: the trees that a phase
/// makes are among those that the meaning of a reduction allows.
pub trait OperatorCode<A, W: Rows<A>> {
    ghost monoid: { Self → Monoid A };

    fn neutral(&self, alloc: Global) -> Result<W, NoMemory>
        ensures { IfOk result (λ w. W.rows w ≡ (monoid self.now).neutral ∷ []) };

    /// The operator applied to the one row of each.
    fn apply(&self, alloc: Global, x: &W, y: &W) -> Result<Applied<W>, NoMemory>
        ensures { IfOk result (λ r. Applies_to W.rows (monoid self.now) (W.rows x.now) (W.rows y.now) r) };

    /// All rows reduced to one.
    fn fold(&self, alloc: Global, words: &W) -> Result<Applied<W>, NoMemory>
        requires { 0 < length (W.rows words.now) }
        ensures { IfOk result (λ r. Fold_gives W.rows (monoid self.now) (W.rows words.now) r) };

    /// For each row the reduction of those up to it.
    fn scan(&self, alloc: Global, words: &W) -> Result<Applied<W>, NoMemory>
        requires { 0 < length (W.rows words.now) }
        ensures { IfOk result (λ r. Scan_gives W.rows (monoid self.now) (W.rows words.now) r) };

    /// The operator applied to the one row of the carry and each row.
    fn carry(&self, alloc: Global, carry: &W, words: &W) -> Result<Applied<W>, NoMemory>
        ensures { IfOk result (λ r. Carry_gives W.rows (monoid self.now) (W.rows carry.now) (W.rows words.now) r) };
}
