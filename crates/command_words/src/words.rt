// Single words.
ghost use Rattle.std.specs.Prelude.{◌≡◌, option_map};
ghost use Rattle.command_words.specs.CommandLine.{action_of, before_equal, behind_equal, is_option, number_on, turns_of};

/// What a command does with its file.
#[derive(Clone, Copy)]
pub enum Action {
    Run,
    Check,
}

/// An option of `run`.
#[derive(Clone, Copy)]
pub enum OptionName {
    Entry,
    Turns,
}

/// Whether a word begins with `-`.
pub fn is_option(word: &[u8]) -> bool
    ensures { result ≡ is_option word.now }
{
    match word {
        [first, ..] => *first == b'-',
        [] => false,
    }
}

pub fn action_of(word: &str) -> Option<Action>
    ensures { result ≡ action_of word.now }
{
    if word == "run" {
        Some(Action::Run)
    } else if word == "check" {
        Some(Action::Check)
    } else {
        None
    }
}

/// The name of an option's word, and the value behind its `=`, where it has one.
#[tactic(auto, using(crate::proofs::Parted::parts))]
pub fn parted(word: &str) -> (&str, Option<&str>)
    ensures name { result.0.now ≡ before_equal word.now }
    ensures value { option_map (λ value. value.now) result.1 ≡ behind_equal word.now }
{
    match word.split_once('=') {
        Some((name, value)) => (name, Some(value)),
        None => (word, None),
    }
}

/// The number that digits spell, held just past the range of turns.
fn number(word: &[u8]) -> Option<u64>
    ensures { result ≡ number_on 0 word.now }
{
    let mut number = 0u64;
    for digit in word {
        if !(b'0' <= *digit && *digit <= b'9') {
            return None;
        }
        number = (10 * number + (*digit - b'0') as u64).min(1_099_511_627_777);
    }
    Some(number)
}

/// A budget of turns: 1 to 13 digits, in its range.
pub fn turns_of(word: &[u8]) -> Option<u64>
    ensures { result ≡ turns_of word.now }
{
    if !(1 <= word.len() && word.len() <= 13) {
        return None;
    }
    let turns = number(word)?;
    if 1 <= turns && turns <= 1_099_511_627_776 {
        Some(turns)
    } else {
        None
    }
}
