// Names, as one binds them.
ghost use Rattle.std.specs.Prelude.{◌≡◌};
ghost use Rattle.std.specs.List.{list_all};
ghost use Rattle.std.specs.Str.{chars};
ghost use Rattle.fut_lexer.specs.Words.{begins_name, is_keyword, is_name};
ghost use Rattle.name_characters.specs.Names.{goes_on_name};

use fut_token::{Fixed, fixed_text};
use name_characters::{goes_on_name, starts_name};

/// The words that are no names, and the wildcard.
const KEYWORDS: [Fixed; 25] = [
    Fixed::KeyDef,
    Fixed::KeyLet,
    Fixed::KeyEntry,
    Fixed::KeyIn,
    Fixed::KeyIf,
    Fixed::KeyThen,
    Fixed::KeyElse,
    Fixed::KeyLoop,
    Fixed::KeyFor,
    Fixed::KeyWhile,
    Fixed::KeyDo,
    Fixed::KeyWith,
    Fixed::KeyAssert,
    Fixed::KeyType,
    Fixed::KeyModule,
    Fixed::KeyOpen,
    Fixed::KeyLocal,
    Fixed::KeyInclude,
    Fixed::KeyImport,
    Fixed::KeyVal,
    Fixed::KeyTrue,
    Fixed::KeyFalse,
    Fixed::KeyMatch,
    Fixed::KeyCase,
    Fixed::Wildcard,
];

fn begins_name(text: &str) -> bool
    ensures { result ≡ begins_name text.now }
{
    match text.chars().next() {
        Some(c) => starts_name(c),
        None => false,
    }
}

fn goes_on(text: &str) -> bool
    ensures { result ≡ list_all goes_on_name (chars text.now) }
{
    text.chars().all(|c| goes_on_name(c))
}

fn is_keyword(text: &str) -> bool
    ensures { result ≡ is_keyword text.now }
{
    KEYWORDS.iter().any(|word| fixed_text(*word) == text)
}

/// Whether a text is a name, which is no keyword and not `_`.
pub fn is_name(text: &str) -> bool
    ensures { result ≡ is_name text.now }
{
    begins_name(text) && goes_on(text) && !is_keyword(text)
}
