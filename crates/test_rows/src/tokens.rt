// Texts and their tokens. A token is shown by its kind, its bytes, its place, and `tight`.
use crate::rows::Answers;
use fut_lexer::{LexErr, Token, TokenKind, lex};
use fut_token::{Lift, fixed_text};
use std::alloc::Global;
use test_shown::Shown;

/// The most bytes of a text that is cut into tokens.
pub const MOST_BYTES: usize = 4_194_304;

/// Answers a text with its tokens.
#[derive(Drop)]
pub struct Tokens {
    alloc: Global,
}

impl Tokens {
    pub fn new(alloc: Global) -> Tokens {
        Tokens { alloc }
    }
}

impl Answers for Tokens {
    fn answer(&mut self, text: &[u8], shown: &mut Shown) -> (&'static [u8], &'static [u8]) {
        shown.begin(false);
        show_text(self.alloc, text, shown);
        (b"", b"")
    }
}

fn show_text(alloc: Global, text: &[u8], shown: &mut Shown) {
    if text.len() > MOST_BYTES {
        return shown.push("! too many bytes");
    }
    match lex(alloc, 1, text) {
        Err(refusal) => show_refusal(refusal, shown),
        Ok(tokens) => show_tokens(tokens.as_slice(), shown),
    }
}

fn show_refusal(refusal: LexErr, shown: &mut Shown) {
    match refusal {
        LexErr::NotUtf8 { at } => shown.placed("! not UTF-8 ", at),
        LexErr::BadToken { at } => shown.placed("! bad token ", at),
        LexErr::Float { at } => shown.placed("! float ", at),
        LexErr::Memory => shown.push("! memory"),
    }
}

fn show_tokens(tokens: &[Token], shown: &mut Shown) {
    shown.push("=");
    let mut before = " ";
    for token in tokens {
        shown.push(before);
        before = "; ";
        show_token(token, shown);
    }
}

fn show_token(token: &Token, shown: &mut Shown) {
    show_kind(&token.kind, shown);
    shown.numbered(" ", token.start);
    shown.numbered("-", token.end);
    shown.placed(" ", token.place);
    shown.push(if token.tight { " tight" } else { "" });
}

fn show_kind(kind: &TokenKind, shown: &mut Shown) {
    match kind {
        TokenKind::Fixed(fixed) => shown.push(fixed_text(*fixed)),
        TokenKind::Int { value, suffix } => shown.written("int ", *value, *suffix),
        TokenKind::Char(character) => {
            shown.push("char ");
            shown.character(*character);
        }
        TokenKind::Name(name) => shown.named("name ", name.as_str()),
        TokenKind::TypeVar { lift, name } => shown.named(lift_text(*lift), name.as_str()),
        TokenKind::Text(inside) => shown.named("text ", inside.as_str()),
        TokenKind::Field(digits) => shown.named("field ", digits.as_str()),
        TokenKind::Constructor(name) => shown.named("constructor ", name.as_str()),
    }
}

fn lift_text(lift: Lift) -> &'static str {
    match lift {
        Lift::Plain => "var ",
        Lift::Lifted => "var ^",
        Lift::SizeLifted => "var ~",
    }
}
