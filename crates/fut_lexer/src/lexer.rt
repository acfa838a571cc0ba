// The tokens of a text, from left to right.
ghost use Rattle.std.specs.Prelude.{◌≤◌, ◌≡◌, IfErr, IfOk, length, true, false};
ghost use Rattle.std.specs.Str.{chars};
ghost use Rattle.fut_lexer.specs.Lexing.{ExplainsText, HasTokens, OneReading};
ghost use Rattle.fut_lexer.specs.Positions.{moved, place_of, text_start};
ghost use Rattle.fut_lexer.specs.Spans.{InOrder};
ghost use Rattle.fut_lexer.specs.Scanned.{IsRead, token_at};
ghost use Rattle.fut_lexer.specs.declared.lexer.LexErr.TheVariants.{Memory};

use crate::classes::{behind, front_part};
use crate::front::{Front, joins, read_front};
use crate::position::{Position, moved, place_of, text_start};
use fut_scalar::{List, NoMemory, Place};
use fut_token::{Token, TokenKind};
use std::alloc::{AllocError, Global};

/// Why a text has no tokens.
#[derive(Clone, Copy, Debug, PartialEq, Eq)]
pub enum LexErr {
    /// The first byte that is no part of a character.
    NotUtf8 { at: Place },
    /// No token stands here.
    BadToken { at: Place },
    /// A floating point number.
    Float { at: Place },
    Memory,
}

impl From<NoMemory> for LexErr {
    ghost from_gives = { λ _ e. e ≡ Memory };

    fn from(_error: NoMemory) -> LexErr {
        LexErr::Memory
    }
}

impl From<AllocError> for LexErr {
    ghost from_gives = { λ _ e. e ≡ Memory };

    fn from(_error: AllocError) -> LexErr {
        LexErr::Memory
    }
}

fn bad_token(at: Place) -> LexErr
    ensures { result ≡ LexErr.BadToken at }
{
    LexErr::BadToken { at }
}

fn float(at: Place) -> LexErr
    ensures { result ≡ LexErr.Float at }
{
    LexErr::Float { at }
}

fn token_between(file: u32, from: Position, to: Position, tight: bool, kind: TokenKind) -> Token
    ensures { result ≡ token_at file from to tight kind }
{
    Token {
        kind,
        start: from.at,
        end: to.at,
        place: place_of(file, from),
        tight,
    }
}

/// The tokens of characters.
fn read(alloc: Global, file: u32, text: &[char]) -> Result<List<Token>, LexErr>
    requires { length text.now ≤ 4194304 }
    ensures { IsRead file text.now result }
{
    let mut tokens = List::new(alloc);
    let mut position = text_start();
    let mut tight = true;
    let mut joined = false;
    let mut rest = text;
    'text: for _step in 0..text.len() {
        if rest.is_empty() {
            return Ok(tokens);
        }
        let from = position;
        match read_front(alloc, joined, rest)? {
            Front::Gap(n) => {
                position = moved(from, front_part(rest, n));
                tight = false;
                joined = false;
                rest = behind(rest, n);
                continue;
            }
            Front::Attribute(n) => {
                position = moved(from, front_part(rest, n));
                joined = false;
                rest = behind(rest, n);
                continue;
            }
            Front::Token(kind, n) => {
                position = moved(from, front_part(rest, n));
                joined = joins(&kind);
                tokens.push(token_between(file, from, position, tight, kind))?;
                tight = true;
                rest = behind(rest, n);
                continue;
            }
            Front::Bad => return Err(bad_token(place_of(file, from))),
            Front::Float => return Err(float(place_of(file, from))),
        }
    }
    Ok(tokens)
}

/// The place behind the characters of a text.
fn end_of(alloc: Global, file: u32, text: &str) -> Result<Place, LexErr>
    requires { length text.now ≤ 4194304 }
    ensures ok { IfOk result (λ at. at ≡ place_of file (moved text_start (chars text.now))) }
    ensures err { IfErr result (λ e. e ≡ LexErr.Memory) }
{
    let chars: Vec<char> = text.chars().collect(alloc)?;
    Ok(place_of(file, moved(text_start(), &chars)))
}

/// The tokens of a text, or the first place where it is refused.
///
/// The characters are decoded once, which takes four bytes for each while it runs. A token takes 64 bytes, and a name, text,
/// field, type variable or constructor one block more for its bytes.
pub fn lex(alloc: Global, file: u32, text: &[u8]) -> Result<List<Token>, LexErr>
    requires { length text.now ≤ 4194304 }
    ensures found { IfOk result (λ tokens. HasTokens file text.now tokens) }
    ensures refused { IfErr result (λ err. ExplainsText file text.now err) }
    // The tokens stand in order in the text, and each is spelled by the bytes between its ends.
    ensures spans { IfOk result (λ tokens. InOrder text.now 0 tokens) }
{
    match std::str::from_utf8(text) {
        Ok(good) => {
            let chars: Vec<char> = good.chars().collect(alloc)?;
            read(alloc, file, &chars)
        }
        Err(error) => match std::str::from_utf8(&text[..error.valid_up_to()]) {
            Ok(good) => Err(LexErr::NotUtf8 {
                at: end_of(alloc, file, good)?,
            }),
            Err(_) => unreachable!(),
        },
    }
}

/// The law that a text has one reading: a list of tokens or a refusal, one alone, and never both.
pub fn a_text_has_one_reading()
    ensures { OneReading }
{}
