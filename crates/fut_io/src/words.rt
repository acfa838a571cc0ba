// The words that a program is called with: the real ones, which are not told, and words in memory, which are.
ghost use Rattle.std.specs.Prelude.{◌≡◌, None, Some};

use crate::Words;
use fut_scalar::{List, NoMemory};
use std::alloc::Global;
use std::env::FillError;
use std::rt::Env;

/// Words in memory.
#[derive(Drop)]
pub struct MemWords {
    words: List<List<u8>>,
}

impl MemWords {
    /// These words. It takes no memory.
    pub fn new(words: List<List<u8>>) -> MemWords
        ensures { ⟦<MemWords as Words>⟧.told result ≡ Some words }
    {
        MemWords { words }
    }
}

impl Words for MemWords {
    ghost told = { λ s. Some s.words };

    fn word(&self, alloc: Global, index: usize) -> Result<Option<List<u8>>, NoMemory> {
        match self.words.as_slice().get(index) {
            Some(word) => Ok(Some(List::from_slice(alloc, word.as_slice())?)),
            None => Ok(None),
        }
    }
}

/// The words behind the program's name, of a runtime. They are not told.
#[derive(Drop)]
pub struct StdWords<R: Env> {
    env: R,
}

impl<R: Env> StdWords<R> {
    /// The words of the runtime. It takes no memory.
    pub fn new(env: R) -> Self
        ensures told { ⟦<StdWords<R> as Words>⟧.told result ≡ None }
        ensures env { result.env ≡ env }
    {
        StdWords { env }
    }
}

/// The bytes of an argument that fits into so many bytes: else the outer answer is None.
fn fitting_word<R: Env>(
    alloc: Global,
    env: &R,
    index: usize,
    room: usize,
) -> Result<Option<Option<List<u8>>>, NoMemory> {
    let mut bytes = Vec::new(alloc);
    if bytes.resize(room, 0u8).is_err() {
        return Err(NoMemory);
    }
    match env.arg(index, bytes.as_mut_slice()) {
        Ok(count) => {
            bytes.truncate(count);
            Ok(Some(Some(List::from_vec(bytes))))
        }
        Err(FillError::NotPresent) => Ok(Some(None)),
        Err(FillError::TooLong) => Ok(None),
    }
}

impl<R: Env> Words for StdWords<R> {
    ghost told = { λ s. None };

    /// The room is doubled until the word fits.
    fn word(&self, alloc: Global, index: usize) -> Result<Option<List<u8>>, NoMemory> {
        let mut room = 256usize;
        for _ in 0..usize::BITS {
            if let Some(word) = fitting_word(alloc, &self.env, index.saturating_add(1), room)? {
                return Ok(word);
            }
            room = room.saturating_mul(2);
        }
        Err(NoMemory)
    }
}
