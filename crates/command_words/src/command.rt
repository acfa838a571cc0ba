// The whole command.
ghost use Rattle.std.specs.Prelude.{◌≡◌, MatchResult, Ok, Err};
ghost use Rattle.command_words.specs.Held.{command_in, said_of};
ghost use Rattle.command_words.specs.CommandLine.{command_of, nothing_said, words_on};

use crate::said::{Next, Said};
use crate::words::{Action, action_of};
use fut_scalar::{List, Name};

/// How many turns each `while` may take where the words do not say.
const TURNS: u64 = 1_073_741_824;

/// What the words ask for.
#[derive(Clone, Copy)]
pub struct Command<'a> {
    pub action: Action,
    pub file: &'a str,
    /// From which definition a run begins, and how many turns each `while` may take.
    pub entry: &'a str,
    pub turns: u64,
}

/// What the words behind a command say, or the number of the first that breaks a rule.
fn said_by(action: Action, words: &[Name]) -> Result<Said<'_>, u64>
    ensures { MatchResult result (λ s. words_on action nothing_said 2 words.now ≡ Ok (said_of s)) (λ word. words_on action nothing_said 2 words.now ≡ Err word) }
{
    let mut said = Said {
        next: Next::Anything,
        file: None,
        entry: None,
        turns: None,
    };
    let mut number = 2u64;
    for word in words {
        match said.word(action, word.as_str()) {
            Some(more) => said = more,
            None => return Err(number),
        }
        number += 1;
    }
    match said.next {
        Next::Value(_) => Err(number),
        _ => {
            if said.file.is_some() {
                Ok(said)
            } else {
                Err(number)
            }
        }
    }
}

/// What the words ask for, or the number, from 1, of the first word that breaks a rule.
pub fn read_words<'a>(words: &'a List<Name>) -> Result<Command<'a>, u64>
    ensures { MatchResult result (λ command. command_of words.now ≡ Ok (command_in command)) (λ word. command_of words.now ≡ Err word) }
{
    let [first, rest @ ..] = words.as_slice() else {
        return Err(1);
    };
    let Some(action) = action_of(first.as_str()) else {
        return Err(1);
    };
    let said = said_by(action, rest)?;
    Ok(Command {
        action,
        file: said.file.unwrap_or(""),
        entry: said.entry.unwrap_or("main"),
        turns: said.turns.unwrap_or(TURNS),
    })
}
