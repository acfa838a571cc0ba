// How a store keeps its blocks.
ghost use Rattle.std.specs.Prelude.{◌≡◌, ◌<◌, length, slice_index, slice_set, IfSome};
ghost use Rattle.block_store.specs.Blocks.{Block, Free, In, Out, block_at, placed, words_in};
ghost use Rattle.block_store.specs.Slots.{block_of, blocks_of};

use fut_scalar::List;
use std::alloc::Global;
use std::mem;

/// A block. One that is free has the number of the next free one, or any number where there is none.
#[derive(Drop)]
pub enum Slot {
    In(List<u64>),
    Out(u64),
    Free(u64),
}

/// The number behind a free block's, where the block is free.
#[tactic(auto, using(crate::proofs::Storing::storing))]
pub fn next_free(slots: &[Slot], at: u64) -> Option<u64>
    ensures { IfSome result (λ next. (at < length slots.now) × (block_at (blocks_of slots.now) at ≡ Free)) }
{
    match slots.get(at as usize) {
        Some(Slot::Free(next)) => Some(*next),
        _ => None,
    }
}

/// Puts a block in the place of another.
#[tactic(auto, using(crate::proofs::Storing::storing))]
pub fn put_slot(slots: &mut [Slot], at: u64, slot: Slot)
    requires { at < length slots.old }
    ensures { blocks_of slots.new ≡ placed (blocks_of slots.old) at (block_of slot) }
{
    slots[at as usize] = slot;
}

/// The words of a block that are in.
#[tactic(auto, using(crate::proofs::Storing::storing))]
pub fn words_of(slots: &[Slot], at: u64) -> &[u64]
    ensures { result.now ≡ words_in (block_at (blocks_of slots.now) at) }
{
    match slots.get(at as usize) {
        Some(Slot::In(words)) => words.as_slice(),
        _ => &[],
    }
}

/// Puts another word in the place of one.
#[tactic(auto, using(crate::proofs::Storing::storing))]
pub fn set_word(slots: &mut [Slot], at: u64, place: u64, word: u64)
    requires { place < length (words_in (block_at (blocks_of slots.old) at)) }
    ensures { blocks_of slots.new ≡ placed (blocks_of slots.old) at (In (slice_set (words_in (block_at (blocks_of slots.old) at)) place word)) }
{
    if let Slot::In(words) = &mut slots[at as usize] {
        words.set(place as usize, word);
    }
}

/// Takes the words of a block out.
#[tactic(auto, using(crate::proofs::Storing::storing))]
pub fn take_slot(alloc: Global, slots: &mut [Slot], at: u64) -> List<u64>
    requires { at < length slots.old }
    ensures words { result ≡ words_in (block_at (blocks_of slots.old) at) }
    ensures out { blocks_of slots.new ≡ placed (blocks_of slots.old) at (Out (length (words_in (block_at (blocks_of slots.old) at)))) }
{
    let count = words_of(slots, at).len() as u64;
    match mem::replace(&mut slots[at as usize], Slot::Out(count)) {
        Slot::In(words) => words,
        Slot::Out(_) | Slot::Free(_) => List::new(alloc),
    }
}
