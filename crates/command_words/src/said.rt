// What words have said so far.
ghost use Rattle.std.specs.Prelude.{◌≡◌, option_map};
ghost use Rattle.command_words.specs.Held.{said_of};
ghost use Rattle.command_words.specs.CommandLine.{any_word, file_word, one_word, option_named, option_word, value_word};

use crate::words::{Action, OptionName, is_option, parted, turns_of};
use fut_lexer::is_name;

/// What the next word may be.
#[derive(Clone, Copy)]
pub enum Next {
    Anything,
    /// The value of an option.
    Value(OptionName),
    /// Behind `--`, no word is an option.
    Positional,
}

#[derive(Clone, Copy)]
pub struct Said<'a> {
    pub next: Next,
    pub file: Option<&'a str>,
    pub entry: Option<&'a str>,
    pub turns: Option<u64>,
}

impl<'a> Said<'a> {
    fn file_word(self, word: &'a str) -> Option<Said<'a>>
        ensures { option_map said_of result ≡ file_word word.now (said_of self.entry) }
    {
        if self.file.is_some() {
            return None;
        }
        Some(Said {
            file: Some(word),
            ..self
        })
    }

    fn value_word(self, name: OptionName, word: &'a str) -> Option<Said<'a>>
        ensures { option_map said_of result ≡ value_word name word.now (said_of self.entry) }
    {
        let next = Next::Anything;
        match name {
            OptionName::Entry => {
                if !is_name(word) {
                    return None;
                }
                let entry = Some(word);
                Some(Said {
                    next,
                    entry,
                    ..self
                })
            }
            OptionName::Turns => {
                let turns = Some(turns_of(word.as_bytes())?);
                Some(Said {
                    next,
                    turns,
                    ..self
                })
            }
        }
    }

    /// The option of this name, if it has not come yet.
    fn option_named(self, name: &str) -> Option<OptionName>
        ensures { result ≡ option_named name.now (said_of self.entry) }
    {
        if name == "--entry" && !self.entry.is_some() {
            Some(OptionName::Entry)
        } else if name == "--turns" && !self.turns.is_some() {
            Some(OptionName::Turns)
        } else {
            None
        }
    }

    fn option_word(self, action: Action, word: &'a str) -> Option<Said<'a>>
        ensures { option_map said_of result ≡ option_word action word.now (said_of self.entry) }
    {
        match action {
            Action::Run => {
                let (name, value) = parted(word);
                let option = self.option_named(name)?;
                match value {
                    Some(value) => self.value_word(option, value),
                    None => Some(Said {
                        next: Next::Value(option),
                        ..self
                    }),
                }
            }
            Action::Check => None,
        }
    }

    fn any_word(self, action: Action, word: &'a str) -> Option<Said<'a>>
        ensures { option_map said_of result ≡ any_word action word.now (said_of self.entry) }
    {
        if word == "--" {
            Some(Said {
                next: Next::Positional,
                ..self
            })
        } else if is_option(word.as_bytes()) {
            self.option_word(action, word)
        } else {
            self.file_word(word)
        }
    }

    /// One more word, or `None` where it breaks a rule.
    #[tactic(auto, unfolding(crate::specs::CommandLine::one_word))]
    pub fn word(self, action: Action, word: &'a str) -> Option<Said<'a>>
        ensures { option_map said_of result ≡ one_word action word.now (said_of self.entry) }
    {
        match self.next {
            Next::Anything => self.any_word(action, word),
            Next::Value(name) => self.value_word(name, word),
            Next::Positional => self.file_word(word),
        }
    }
}
