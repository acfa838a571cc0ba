// The words that the program is given, as texts.
ghost use Rattle.std.specs.Prelude.{◌≡◌, None, IfOk, IfErr, IfSome};
ghost use Rattle.futhark_command.specs.Call.{bad_word};
ghost use Rattle.futhark_command.specs.Private.Gathered.{ExplainsWords};

use fut_io::Words;
use fut_scalar::{List, Name, NoMemory};
use std::alloc::Global;

/// Why the words can't be had as texts.
#[derive(Clone, Copy)]
pub enum WordsErr {
    /// The word of this number, from 1, is the first that is no UTF-8.
    NotText { word: u64 },
    Memory,
}

impl From<NoMemory> for WordsErr {
    ghost use Rattle.futhark_command.specs.declared.gather.WordsErr.TheVariants.{Memory};

    ghost from_gives = { λ _ err. err ≡ Memory };

    fn from(_error: NoMemory) -> WordsErr {
        WordsErr::Memory
    }
}

/// The words, if all of them are texts.
pub fn all_words<W: Words>(alloc: Global, words: &W) -> Result<List<Name>, WordsErr>
    ensures given { IfOk result (λ names. IfSome (W.told words.now) (λ all. all ≡ names)) }
    ensures texts { IfOk result (λ names. bad_word 1 names ≡ None) }
    ensures refused { IfErr result (ExplainsWords (W.told words.now)) }
{
    let mut names = List::new(alloc);
    for index in 0..usize::MAX {
        let Some(word) = words.word(alloc, index)? else {
            return Ok(names);
        };
        let Ok(text) = std::str::from_utf8(word.as_slice()) else {
            return Err(WordsErr::NotText {
                word: index as u64 + 1,
            });
        };
        names.push(Name::new(alloc, text)?)?;
    }
    Err(WordsErr::Memory)
}
