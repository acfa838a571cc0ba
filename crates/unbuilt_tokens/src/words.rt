// The tokens of forms that are not built yet: the word of declared types.
ghost use Rattle.std.specs.Prelude.{◌≡◌};
ghost use Rattle.unbuilt_tokens.specs.Unbuilt.{first_unbuilt, is_module, is_unbuilt};

use fut_scalar::Place;
use fut_token::{Fixed, Token, TokenKind};

/// Whether a kind of token is the word `module`.
fn is_module(kind: &TokenKind) -> bool
    ensures { result ≡ is_module kind.now }
{
    matches!(kind, TokenKind::Fixed(Fixed::KeyModule))
}

/// Whether a kind of token is a word of a form that is not built. `type` is none behind `module`.
fn is_unbuilt(behind_module: bool, kind: &TokenKind) -> bool
    ensures { result ≡ is_unbuilt behind_module kind.now }
{
    match kind {
        TokenKind::Fixed(Fixed::KeyType) => !behind_module,
        _ => false,
    }
}

/// The place of the first token of a form that is not built. The cost is linear.
#[tactic(auto, unfolding(crate::specs::Unbuilt::first_behind))]
pub fn first_unbuilt(tokens: &[Token]) -> Option<Place>
    ensures { result ≡ first_unbuilt tokens.now }
{
    let mut behind_module = false;
    let mut left = tokens;
    while let [token, rest @ ..] = left {
        if is_unbuilt(behind_module, &token.kind) {
            return Some(token.place);
        }
        behind_module = is_module(&token.kind);
        left = rest;
    }
    None
}
