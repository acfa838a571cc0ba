// Arrays by their numbers.
ghost use Rattle.std.specs.Prelude.{◌≡◌, [], ◌+◌, length, take, drop, slice_get, Some, IfOk, IfSome, OnErr};
ghost use Rattle.core_arrays.specs.Arenas.{Array, no_arrays, with_array, with_part, cut_to};
ghost use Rattle.core_arrays.specs.Wholes.{arrays_of, own_words, words_of};

use fut_scalar::{List, NoMemory};
use std::alloc::Global;
use std::marker::Model;

/// The words of an array: its own, or so many of an array in front of it that has words of its own.
#[derive(Drop)]
pub enum Cells {
    Own(List<u64>),
    Part { owner: u64, from: u64, count: u64 },
}

/// An array by its sizes, and the words of its cells in row-major order.
#[derive(Drop)]
pub struct Whole {
    sizes: List<u64>,
    cells: Cells,
}

/// The arrays of a run. Contracts see the sizes and the words of each, and how many words were handed out.
#[derive(Drop)]
pub struct Arrays {
    alloc: Global,
    wholes: Vec<Whole>,
    handed: u64,
}

impl Model for Arrays {
    ghost use Rattle.core_arrays.specs.Arenas.{Arena};
    ghost use Rattle.core_arrays.specs.Wholes.{arena_of};

    ghost Value = { Arena };

    ghost view = { λ a. arena_of a.handed a.wholes.items };
}

/// The array of a number.
#[tactic(auto, using(crate::proofs::Finding::finding))]
fn whole_at(wholes: &[Whole], at: u64) -> Option<&Whole>
    ensures { IfSome result (λ whole. slice_get wholes.now at ≡ Some whole.now) }
{
    wholes.get(at as usize)
}

/// The sizes of an array.
#[tactic(auto, using(crate::proofs::Finding::parts))]
fn sizes_in(wholes: &[Whole], at: u64) -> Option<&[u64]>
    ensures { IfSome result (λ sizes. (array : Array) → slice_get (arrays_of [] wholes.now) at ≡ Some array → sizes.now ≡ array.sizes) }
{
    match whole_at(wholes, at) {
        Some(whole) => Some(whole.sizes.as_slice()),
        None => None,
    }
}

/// The words that an array has of its own.
#[tactic(auto, using(crate::proofs::Finding::parts))]
fn own_in(wholes: &[Whole], at: u64) -> &[u64]
    ensures { result.now ≡ own_words (slice_get wholes.now at) }
{
    match wholes.get(at as usize) {
        Some(whole) => match &whole.cells {
            Cells::Own(words) => words.as_slice(),
            Cells::Part { .. } => &[],
        },
        None => &[],
    }
}

/// So many words from one on, where they are there.
#[tactic(auto, using(crate::proofs::Finding::parts))]
fn part_in(words: &[u64], from: u64, count: u64) -> Option<&[u64]>
    ensures { IfSome result (λ part. part.now ≡ take count (drop from words.now)) }
{
    let long = words.len() as u64;
    if from > long || count > long - from {
        return None;
    }
    Some(&words[from as usize..(from + count) as usize])
}

/// The words of an array.
#[tactic(auto, using(crate::proofs::Finding::parts))]
fn words_in(wholes: &[Whole], at: u64) -> Option<&[u64]>
    ensures { IfSome result (λ words. (array : Array) → slice_get (arrays_of [] wholes.now) at ≡ Some array → words.now ≡ array.words) }
{
    let whole = whole_at(wholes, at)?;
    match &whole.cells {
        Cells::Own(words) => Some(words.as_slice()),
        Cells::Part { owner, from, count } => {
            if *owner >= at {
                return None;
            }
            part_in(own_in(wholes, *owner), *from, *count)
        }
    }
}

/// So many words of an array from one on, where they are there.
#[tactic(auto, using(crate::proofs::Finding::parts))]
fn part_of(wholes: &[Whole], at: u64, from: u64, count: u64) -> Option<Cells>
    ensures { IfSome result (λ cells. (array : Array) → slice_get (arrays_of [] wholes.now) at ≡ Some array → words_of wholes.now cells ≡ take count (drop from array.words)) }
{
    let whole = whole_at(wholes, at)?;
    match &whole.cells {
        Cells::Own(_) => Some(Cells::Part {
            owner: at,
            from,
            count,
        }),
        Cells::Part {
            owner,
            from: base,
            count: all,
        } => {
            if *owner >= at || from > *all || count > *all - from {
                return None;
            }
            let from = base.checked_add(from)?;
            Some(Cells::Part {
                owner: *owner,
                from,
                count,
            })
        }
    }
}

impl Arrays {
    /// No array, and nothing handed out. It takes no memory.
    pub fn new(alloc: Global) -> Arrays
        ensures { result ≡ no_arrays }
    {
        Arrays {
            alloc,
            wholes: Vec::new(alloc),
            handed: 0,
        }
    }

    /// Where memory for arrays comes from.
    pub fn alloc(&self) -> Global {
        self.alloc
    }

    /// How many arrays there are.
    #[tactic(auto, using(crate::proofs::Finding::changes))]
    pub fn count(&self) -> u64
        ensures { result ≡ length self.now.arrays }
    {
        self.wholes.len() as u64
    }

    /// How many words were handed out, or the last number where there were more.
    pub fn words_handed(&self) -> u64
        ensures { result ≡ self.now.handed }
    {
        self.handed
    }

    /// The sizes of an array, where there is one of this number.
    pub fn sizes(&self, at: u64) -> Option<&[u64]>
        ensures { IfSome result (λ sizes. (array : Array) → slice_get self.now.arrays at ≡ Some array → sizes.now ≡ array.sizes) }
    {
        sizes_in(self.wholes.as_slice(), at)
    }

    /// The words of an array, where there is one of this number.
    pub fn words(&self, at: u64) -> Option<&[u64]>
        ensures { IfSome result (λ words. (array : Array) → slice_get self.now.arrays at ≡ Some array → words.now ≡ array.words) }
    {
        words_in(self.wholes.as_slice(), at)
    }

    /// A new array behind all others, which is named by the answer. After a refusal all are as before.
    #[tactic(auto, using(crate::proofs::Finding::changes))]
    pub fn put(&mut self, sizes: List<u64>, words: List<u64>) -> Result<u64, NoMemory>
        ensures number { IfOk result (λ number. number ≡ length self.old.arrays) }
        ensures put { IfOk result (λ number. self.new ≡ with_array self.old sizes words) }
        ensures err { OnErr result (self.new ≡ self.old) }
    {
        let number = self.wholes.len() as u64;
        let count = words.len() as u64;
        self.wholes.push(Whole {
            sizes,
            cells: Cells::Own(words),
        })?;
        self.handed = self.handed.saturating_add(count);
        Ok(number)
    }

    /// A new array of so many words of another one from one on. It takes no words, and after a refusal all are as before.
    #[tactic(auto, using(crate::proofs::Finding::changes))]
    pub fn put_part(
        &mut self,
        at: u64,
        sizes: List<u64>,
        from: u64,
        count: u64,
    ) -> Result<u64, NoMemory>
        ensures number { IfOk result (λ number. number ≡ length self.old.arrays) }
        ensures put { IfOk result (λ number. (array : Array) → slice_get self.old.arrays at ≡ Some array → self.new ≡ with_part self.old array sizes from count) }
        ensures err { OnErr result (self.new ≡ self.old) }
    {
        let number = self.wholes.len() as u64;
        let Some(cells) = part_of(self.wholes.as_slice(), at, from, count) else {
            return Err(NoMemory);
        };
        self.wholes.push(Whole { sizes, cells })?;
        Ok(number)
    }

    /// Gives back all arrays from a number on.
    #[tactic(auto, using(crate::proofs::Finding::changes))]
    pub fn cut(&mut self, count: u64)
        ensures { self.new ≡ cut_to self.old count }
    {
        self.wholes.truncate(count as usize);
    }
}
