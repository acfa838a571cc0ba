// Keywords, suffixes and symbols by their characters.
ghost use Rattle.std.specs.Prelude.{◌≡◌};
ghost use Rattle.fut_lexer.specs.Words.{first_spelled, keyword, suffix_of, symbol_1, symbol_2, symbol_3};

use crate::classes::is_same;
use fut_scalar::IntType;
use fut_token::{Fixed, fixed_text};

/// The first of these keywords that the characters spell.
fn first_spelled(letters: &[char], words: &[Fixed]) -> Option<Fixed>
    ensures { result ≡ first_spelled letters.now words.now }
{
    match words {
        [] => None,
        [word, rest @ ..] => {
            if is_same(letters, fixed_text(*word).as_bytes()) {
                Some(*word)
            } else {
                first_spelled(letters, rest)
            }
        }
    }
}

/// The keyword that the characters spell, or the wildcard.
#[tactic(auto, unfolding(crate::specs::Words::keyword))]
pub fn keyword(letters: &[char]) -> Option<Fixed>
    ensures { result ≡ keyword letters.now }
{
    let [first, ..] = letters else {
        return None;
    };
    // Few keywords begin alike.
    match *first {
        'd' => first_spelled(letters, &[Fixed::KeyDef, Fixed::KeyDo]),
        'l' => first_spelled(letters, &[Fixed::KeyLet, Fixed::KeyLoop, Fixed::KeyLocal]),
        'e' => first_spelled(letters, &[Fixed::KeyEntry, Fixed::KeyElse]),
        'i' => first_spelled(
            letters,
            &[
                Fixed::KeyIn,
                Fixed::KeyIf,
                Fixed::KeyInclude,
                Fixed::KeyImport,
            ],
        ),
        't' => first_spelled(letters, &[Fixed::KeyThen, Fixed::KeyType, Fixed::KeyTrue]),
        'f' => first_spelled(letters, &[Fixed::KeyFor, Fixed::KeyFalse]),
        'w' => first_spelled(letters, &[Fixed::KeyWhile, Fixed::KeyWith]),
        'a' => first_spelled(letters, &[Fixed::KeyAssert]),
        'm' => first_spelled(letters, &[Fixed::KeyModule, Fixed::KeyMatch]),
        'o' => first_spelled(letters, &[Fixed::KeyOpen]),
        'v' => first_spelled(letters, &[Fixed::KeyVal]),
        'c' => first_spelled(letters, &[Fixed::KeyCase]),
        '_' => first_spelled(letters, &[Fixed::Wildcard]),
        _ => None,
    }
}

/// The integer type that a word behind an integer names.
#[tactic(auto, unfolding(crate::specs::Words::suffix_of))]
pub fn suffix_of(letters: &[char]) -> Option<IntType>
    ensures { result ≡ suffix_of letters.now }
{
    if is_same(letters, b"i8") {
        Some(IntType::I8)
    } else if is_same(letters, b"i16") {
        Some(IntType::I16)
    } else if is_same(letters, b"i32") {
        Some(IntType::I32)
    } else if is_same(letters, b"i64") {
        Some(IntType::I64)
    } else if is_same(letters, b"u8") {
        Some(IntType::U8)
    } else if is_same(letters, b"u16") {
        Some(IntType::U16)
    } else if is_same(letters, b"u32") {
        Some(IntType::U32)
    } else if is_same(letters, b"u64") {
        Some(IntType::U64)
    } else {
        None
    }
}

#[tactic(auto, unfolding(crate::specs::Words::symbol_1))]
pub fn symbol_1(a: char) -> Option<Fixed>
    ensures { result ≡ symbol_1 a }
{
    match a {
        '+' => Some(Fixed::Plus),
        '-' => Some(Fixed::Minus),
        '*' => Some(Fixed::Star),
        '/' => Some(Fixed::Slash),
        '%' => Some(Fixed::Percent),
        '<' => Some(Fixed::Less),
        '>' => Some(Fixed::Greater),
        '&' => Some(Fixed::And),
        '|' => Some(Fixed::Or),
        '^' => Some(Fixed::Caret),
        '=' => Some(Fixed::Equal),
        '\\' => Some(Fixed::Backslash),
        '(' => Some(Fixed::OpenParen),
        ')' => Some(Fixed::CloseParen),
        '[' => Some(Fixed::OpenBracket),
        ']' => Some(Fixed::CloseBracket),
        '{' => Some(Fixed::OpenBrace),
        '}' => Some(Fixed::CloseBrace),
        ',' => Some(Fixed::Comma),
        ':' => Some(Fixed::Colon),
        '.' => Some(Fixed::Dot),
        '!' => Some(Fixed::Bang),
        '?' => Some(Fixed::Question),
        '~' => Some(Fixed::Tilde),
        '`' => Some(Fixed::Backtick),
        _ => None,
    }
}

#[tactic(auto, unfolding(crate::specs::Words::symbol_2))]
pub fn symbol_2(a: char, b: char) -> Option<Fixed>
    ensures { result ≡ symbol_2 a b }
{
    match (a, b) {
        ('/', '/') => Some(Fixed::SlashSlash),
        ('%', '%') => Some(Fixed::PercentPercent),
        ('*', '*') => Some(Fixed::StarStar),
        ('=', '=') => Some(Fixed::EqualEqual),
        ('!', '=') => Some(Fixed::BangEqual),
        ('<', '=') => Some(Fixed::LessEqual),
        ('>', '=') => Some(Fixed::GreaterEqual),
        ('&', '&') => Some(Fixed::AndAnd),
        ('|', '|') => Some(Fixed::OrOr),
        ('<', '<') => Some(Fixed::ShiftLeft),
        ('>', '>') => Some(Fixed::ShiftRight),
        ('|', '>') => Some(Fixed::PipeRight),
        ('<', '|') => Some(Fixed::PipeLeft),
        ('-', '>') => Some(Fixed::Arrow),
        (':', '>') => Some(Fixed::ColonGreater),
        ('.', '.') => Some(Fixed::DotDot),
        _ => None,
    }
}

#[tactic(auto, unfolding(crate::specs::Words::symbol_3))]
pub fn symbol_3(a: char, b: char, c: char) -> Option<Fixed>
    ensures { result ≡ symbol_3 a b c }
{
    match (a, b, c) {
        ('>', '-', '>') => Some(Fixed::ComposeRight),
        ('<', '-', '<') => Some(Fixed::ComposeLeft),
        ('.', '.', '<') => Some(Fixed::DotDotLess),
        ('.', '.', '>') => Some(Fixed::DotDotGreater),
        ('.', '.', '.') => Some(Fixed::DotDotDot),
        _ => None,
    }
}
