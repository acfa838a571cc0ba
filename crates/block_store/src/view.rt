// Views of blocks.
ghost use Rattle.std.specs.Prelude.{◌≡◌, ◌≤◌, ◌<◌, ◌+◌, ◌-◌, ◌∷◌, ◌^◌, ℕ, List, pos, neg_ℤ, unsigned_abs, length, drop, slice_index, slice_set, IfOk};
ghost use Rattle.std.specs.List.{slice_index_or};
ghost use Rattle.block_store.specs.Indices.{on_first, swapped};
ghost use Rattle.block_store.specs.Views.{IsPlaced, IsWhole, Shows};
ghost use Rattle.block_store.specs.Walks.{strides_of};

use crate::places::{moved, step_at};
use fut_scalar::{List, NoMemory};
use std::alloc::Global;

/// The number of a block.
#[derive(Clone, Copy, Debug, PartialEq, Eq)]
pub struct BlockId(pub u64);

/// The cells of an array by where they stand in a block. The lists have a number for each level, the outermost one first.
#[derive(Drop)]
pub struct View {
    pub block: BlockId,
    /// Where the first cell stands.
    pub offset: u64,
    /// How many words on the next row of a level stands, backwards where it is below zero.
    pub strides: List<i64>,
    /// How many rows a level has.
    pub shape: List<u64>,
}

/// The strides of an array whose words stand in row-major order.
pub fn row_major(alloc: Global, sizes: &[u64]) -> Result<List<i64>, NoMemory>
    ensures { IfOk result (λ strides. strides ≡ strides_of sizes.now) }
{
    let mut strides = vec![in alloc; 0_i64; sizes.len()]?;
    let mut words: u64 = 1;
    let mut k = sizes.len();
    while k > 0 {
        k -= 1;
        strides[k] = words.cast_signed();
        words = words.wrapping_mul(sizes[k]);
    }
    Ok(List::from_vec(strides))
}

/// The outermost stride the other way.
fn negated(strides: &[i64]) -> i64
    requires { 0 < length strides.now }
    ensures { unsigned_abs (slice_index_or strides.now 0 (pos 0)) < 2 ^ 63 → result ≡ neg_ℤ (slice_index_or strides.now 0 (pos 0)) }
{
    strides[0].wrapping_neg()
}

/// Takes the two outermost strides the other way round.
#[tactic(auto, using(crate::proofs::Turning::swapping))]
fn swap_strides(strides: &mut List<i64>)
    requires { 2 ≤ length strides.old }
    ensures { strides.new ≡ swapped strides.old }
{
    let outer = strides.as_slice()[0];
    let inner = strides.as_slice()[1];
    strides.set(0, inner);
    strides.set(1, outer);
}

/// Takes the two outermost sizes the other way round.
#[tactic(auto, using(crate::proofs::Turning::swapping))]
fn swap_sizes(sizes: &mut List<u64>)
    requires { 2 ≤ length sizes.old }
    ensures { sizes.new ≡ swapped sizes.old }
{
    let outer = sizes.as_slice()[0];
    let inner = sizes.as_slice()[1];
    sizes.set(0, inner);
    sizes.set(1, outer);
}

impl View {
    /// A view of all words of a block, in row-major order.
    pub fn whole(alloc: Global, block: BlockId, sizes: &[u64]) -> Result<View, NoMemory>
        ensures { IfOk result (λ view. IsWhole view block sizes.now) }
    {
        let strides = row_major(alloc, sizes)?;
        let shape = List::from_slice(alloc, sizes)?;
        Ok(View {
            block,
            offset: 0,
            strides,
            shape,
        })
    }

    /// The same view once more.
    pub fn copy(&self, alloc: Global) -> Result<View, NoMemory>
        ensures { IfOk result (λ view. view ≡ self.now) }
    {
        let strides = List::from_slice(alloc, self.strides.as_slice())?;
        let shape = List::from_slice(alloc, self.shape.as_slice())?;
        Ok(View {
            block: self.block,
            offset: self.offset,
            strides,
            shape,
        })
    }

    /// One row of the outermost level.
    pub fn row(&self, alloc: Global, i: u64) -> Result<View, NoMemory>
        requires placed { IsPlaced self.now }
        requires levels { 0 < length self.now.shape }
        requires within { i < slice_index self.now.shape 0 }
        ensures shows { IfOk result (λ view. Shows self.now view (λ at. i ∷ at)) }
        ensures shape { IfOk result (λ view. view.shape ≡ drop 1 self.now.shape) }
    {
        let offset = moved(self.offset, i, step_at(self.strides.as_slice(), 0));
        let strides = List::from_slice(alloc, &self.strides.as_slice()[1..])?;
        let shape = List::from_slice(alloc, &self.shape.as_slice()[1..])?;
        Ok(View {
            block: self.block,
            offset,
            strides,
            shape,
        })
    }

    /// Keeps the rows from one on up to another, that one excluded. It takes no memory.
    pub fn slice(&mut self, low: u64, high: u64)
        requires placed { IsPlaced self.old }
        requires levels { 0 < length self.old.shape }
        requires within { (low ≤ high) × (high ≤ slice_index self.old.shape 0) }
        ensures shows { Shows self.old self.new (on_first (λ i. low + i)) }
        ensures shape { self.new.shape ≡ slice_set self.old.shape 0 (high - low) }
    {
        self.offset = moved(self.offset, low, step_at(self.strides.as_slice(), 0));
        self.shape.set(0, high - low);
    }

    /// Turns the order of the rows round. It takes no memory.
    #[tactic(auto, using(crate::proofs::Turning::shows_few))]
    pub fn reverse(&mut self)
        requires placed { IsPlaced self.old }
        requires levels { 0 < length self.old.shape }
        ensures shows { Shows self.old self.new (on_first (λ i. slice_index self.old.shape 0 - 1 - i)) }
        ensures shape { self.new.shape ≡ self.old.shape }
    {
        let count = self.shape.as_slice()[0];
        if count > 1 {
            let step = step_at(self.strides.as_slice(), 0);
            self.offset = moved(self.offset, count - 1, step);
            let back = negated(self.strides.as_slice());
            self.strides.set(0, back);
        }
    }

    /// Takes the two outermost levels the other way round. It takes no memory.
    pub fn transpose(&mut self)
        requires placed { IsPlaced self.old }
        requires levels { 2 ≤ length self.old.shape }
        ensures shows { Shows self.old self.new swapped }
        ensures shape { self.new.shape ≡ swapped self.old.shape }
    {
        swap_strides(&mut self.strides);
        swap_sizes(&mut self.shape);
    }
}
