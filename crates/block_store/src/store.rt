// The store.
ghost use Rattle.std.specs.Prelude.{◌≡◌, ◌≤◌, ◌<◌, ℕ, length, replicate, IfOk, OnErr, unsigned_abs};
ghost use Rattle.block_store.specs.Blocks.{Free, In, IsFree, IsIn, IsOut, Out, handed, no_blocks, with_block, with_word, words_at};
ghost use Rattle.fut_value.specs.Values.{IsWellFormed, greatest_weight, weight_of};
ghost use Rattle.block_store.specs.Helds.{IsHeld, IsPut, value_held};
ghost use Rattle.block_store.specs.Indices.{IsIndex};
ghost use Rattle.block_store.specs.Views.{IsWithin, cells, place, word_of};

use crate::held::{Held, with_low_bits};
use crate::places::{place_of, word_at, words_from};
use crate::slots::{Slot, next_free, put_slot, set_word, take_slot, words_of};
use crate::view::{BlockId, View, row_major};
use fut_scalar::{List, NoMemory};
use fut_value::{Shape, Value, as_scalar, value_of};
use std::alloc::Global;
use std::marker::Model;

/// Numbered blocks of words.
#[derive(Drop)]
pub struct Store {
    alloc: Global,
    slots: Vec<Slot>,
    /// The number of a free block, or any number where there is none.
    free: u64,
    blocks_handed: u64,
    words_handed: u64,
}

impl Model for Store {
    ghost use Rattle.block_store.specs.Blocks.{Blocks};
    ghost use Rattle.block_store.specs.Slots.{blocks_of};

    ghost Value = { Blocks };

    ghost view = { λ s. record { blocks = blocks_of s.slots.items; blocks_handed = s.blocks_handed; words_handed = s.words_handed } };
}

impl Store {
    /// No block, and nothing handed out. It takes no memory.
    pub fn new(alloc: Global) -> Store
        ensures { result ≡ no_blocks }
    {
        Store {
            alloc,
            slots: Vec::new(alloc),
            free: 0,
            blocks_handed: 0,
            words_handed: 0,
        }
    }

    /// How many words were handed out, or the last number where there were more.
    pub fn words_handed(&self) -> u64
        ensures { result ≡ self.now.words_handed }
    {
        self.words_handed
    }

    /// How many blocks were handed out, or the last number where there were more.
    pub fn blocks_handed(&self) -> u64
        ensures { result ≡ self.now.blocks_handed }
    {
        self.blocks_handed
    }

    /// Counts what another store handed out.
    pub fn add_counts(&mut self, words: u64, blocks: u64)
        ensures { self.new ≡ handed self.old words blocks }
    {
        self.words_handed = self.words_handed.saturating_add(words);
        self.blocks_handed = self.blocks_handed.saturating_add(blocks);
    }

    /// Keeps words as a block, under a number that no block has. After a refusal the store is as before.
    #[tactic(auto, using(crate::proofs::Storing::storing))]
    fn put_block(&mut self, words: List<u64>) -> Result<BlockId, NoMemory>
        ensures fresh { IfOk result (λ id. IsFree self.old id) }
        ensures put { IfOk result (λ id. self.new ≡ with_block self.old id (In words)) }
        ensures err { OnErr result (self.new ≡ self.old) }
    {
        let id = self.free;
        if let Some(next) = next_free(self.slots.as_slice(), id) {
            put_slot(self.slots.as_mut_slice(), id, Slot::In(words));
            self.free = next;
            return Ok(BlockId(id));
        }
        let id = self.slots.len() as u64;
        self.slots.push(Slot::In(words))?;
        Ok(BlockId(id))
    }

    /// A block of so many words, each 0, under a number that no block has. After a refusal the store is as before.
    #[tactic(auto, using(crate::proofs::Storing::storing))]
    pub fn take_block(&mut self, words: u64) -> Result<BlockId, NoMemory>
        requires { words ≤ 33554432 }
        ensures fresh { IfOk result (λ id. IsFree self.old id) }
        ensures taken { IfOk result (λ id. self.new ≡ handed (with_block self.old id (In (replicate words 0))) words 1) }
        ensures err { OnErr result (self.new ≡ self.old) }
    {
        let zeros = vec![in self.alloc; 0; words as usize]?;
        let id = self.put_block(List::from_vec(zeros))?;
        self.add_counts(words, 1);
        Ok(id)
    }

    /// Gives a block back.
    #[tactic(auto, using(crate::proofs::Storing::storing))]
    pub fn give_block(&mut self, id: BlockId)
        requires { IsIn self.old id }
        ensures { self.new ≡ with_block self.old id Free }
    {
        put_slot(self.slots.as_mut_slice(), id.0, Slot::Free(self.free));
        self.free = id.0;
    }

    /// The words of a block that are in.
    pub fn words(&self, id: BlockId) -> &[u64]
        ensures { result.now ≡ words_at self.now id }
    {
        words_of(self.slots.as_slice(), id.0)
    }

    /// The word at an index of a view.
    pub fn read(&self, view: &View, at: &[u64]) -> u64
        requires within { IsWithin self.now view.now }
        requires index { IsIndex at.now view.now.shape }
        ensures { result ≡ word_of self.now view.now at.now }
    {
        let place = place_of(view.offset, view.strides.as_slice(), at);
        word_at(self.words(view.block), place)
    }

    /// Changes the word at an index of a view, and no other word of any block.
    pub fn update(&mut self, view: &View, at: &[u64], word: u64)
        requires within { IsWithin self.old view.now }
        requires index { IsIndex at.now view.now.shape }
        ensures { self.new ≡ with_word self.old view.now.block (unsigned_abs (place view.now at.now)) word }
    {
        let place = place_of(view.offset, view.strides.as_slice(), at);
        self.set(view.block, place, word);
    }

    /// Puts another word at a place of a block.
    #[tactic(auto, using(crate::proofs::Storing::storing))]
    fn set(&mut self, block: BlockId, place: u64, word: u64)
        requires { place < length (words_at self.old block) }
        ensures { self.new ≡ with_word self.old block place word }
    {
        set_word(self.slots.as_mut_slice(), block.0, place, word);
    }

    /// The words of all cells of a view, those of the first row first.
    pub fn cells(&self, view: &View) -> Result<List<u64>, NoMemory>
        requires { IsWithin self.now view.now }
        ensures { IfOk result (λ read. read ≡ cells self.now view.now) }
    {
        words_from(
            self.alloc,
            self.words(view.block),
            view.offset,
            view.strides.as_slice(),
            view.shape.as_slice(),
        )
    }

    /// Moves the words of a block out.
    #[tactic(auto, using(crate::proofs::Storing::storing))]
    pub fn take_words(&mut self, id: BlockId) -> List<u64>
        requires { IsIn self.old id }
        ensures words { result ≡ words_at self.old id }
        ensures out { self.new ≡ with_block self.old id (Out (length (words_at self.old id))) }
    {
        take_slot(self.alloc, self.slots.as_mut_slice(), id.0)
    }

    /// Moves words back into their block, as many as it has.
    #[tactic(auto, using(crate::proofs::Storing::storing))]
    pub fn put_words(&mut self, id: BlockId, words: List<u64>)
        requires { IsOut self.old id (length words) }
        ensures { self.new ≡ with_block self.old id (In words) }
    {
        put_slot(self.slots.as_mut_slice(), id.0, Slot::In(words));
    }

    /// Puts a value in, an array as a block of its own, and counts nothing. After a refusal the store is as before.
    pub fn put_arg(&mut self, value: &Value) -> Result<Held, NoMemory>
        requires formed { IsWellFormed value.now }
        requires light { weight_of value.now.shape.sizes ≤ greatest_weight }
        ensures same { IfOk result (λ held. value_held self.new held ≡ value.now) }
        ensures held { IfOk result (IsHeld self.new) }
        ensures put { IfOk result (IsPut self.old self.new value.now.words) }
        ensures err { OnErr result (self.new ≡ self.old) }
    {
        if let Some(scalar) = as_scalar(value) {
            return Ok(Held::Scalar(scalar));
        }
        let sizes = value.shape.sizes.as_slice();
        let strides = row_major(self.alloc, sizes)?;
        let shape = List::from_slice(self.alloc, sizes)?;
        let words = List::from_slice(self.alloc, value.words.as_slice())?;
        let block = self.put_block(words)?;
        let view = View {
            block,
            offset: 0,
            strides,
            shape,
        };
        Ok(Held::Array {
            view,
            elem: value.shape.elem,
        })
    }

    /// The value that stands there.
    pub fn value(&self, held: &Held) -> Result<Value, NoMemory>
        requires { IsHeld self.now held.now }
        ensures same { IfOk result (λ value. value ≡ value_held self.now held.now) }
        ensures formed { IfOk result IsWellFormed }
    {
        match held {
            Held::Scalar(scalar) => value_of(self.alloc, *scalar),
            Held::Array { view, elem } => {
                let words = with_low_bits(*elem, self.cells(view)?);
                let sizes = List::from_slice(self.alloc, view.shape.as_slice())?;
                let shape = Shape { elem: *elem, sizes };
                Ok(Value { shape, words })
            }
        }
    }
}
