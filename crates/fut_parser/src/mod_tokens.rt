// What stands next where a module expression or a declaration does.
ghost use Rattle.std.specs.Prelude.{◌≡◌};
ghost use Rattle.fut_ast.specs.Behind.{begins, begins_dec, begins_dec_rest, begins_mod_argument, behind_mod};
ghost use Rattle.fut_ast.specs.Sorts.{Whole_mod};

use fut_token::{Fixed, Token};
use parse_types::tokens::{starts_with, starts_with_word};

/// Whether an argument of a parametric module begins here.
pub fn begins_module_argument(tokens: &[Token]) -> bool
    ensures { result ≡ begins_mod_argument tokens.now }
{
    starts_with_word(tokens)
        || starts_with(tokens, Fixed::OpenBrace)
        || starts_with(tokens, Fixed::OpenParen)
        || starts_with(tokens, Fixed::Backslash)
}

/// Whether a module expression begins here.
pub fn begins_module(tokens: &[Token]) -> bool
    ensures { result ≡ begins Whole_mod tokens.now }
{
    begins_module_argument(tokens) || starts_with(tokens, Fixed::KeyImport)
}

/// Whether the next token goes on with a module expression, where it ended with its seal or not.
pub fn goes_on_module(is_sealed: bool, tokens: &[Token]) -> bool
    ensures { result ≡ behind_mod is_sealed tokens.now }
{
    !is_sealed && (begins_module_argument(tokens) || starts_with(tokens, Fixed::Colon))
}

/// Whether a declaration without its `local` begins here.
pub fn begins_declared(tokens: &[Token]) -> bool
    ensures { result ≡ begins_dec_rest tokens.now }
{
    starts_with(tokens, Fixed::KeyDef)
        || starts_with(tokens, Fixed::KeyLet)
        || starts_with(tokens, Fixed::KeyEntry)
        || starts_with(tokens, Fixed::KeyType)
        || starts_with(tokens, Fixed::KeyModule)
        || starts_with(tokens, Fixed::KeyOpen)
        || starts_with(tokens, Fixed::KeyImport)
}

/// Whether a declaration begins here.
pub fn begins_declaration(tokens: &[Token]) -> bool
    ensures { result ≡ begins_dec tokens.now }
{
    starts_with(tokens, Fixed::KeyLocal) || begins_declared(tokens)
}
