// One file, from its path to its tree.
ghost use Rattle.std.specs.Prelude.{◌≡◌, IfErr, IfOk, None, OnOk};
ghost use Rattle.module_state.specs.Written.{file_of};
ghost use Rattle.unbuilt_tokens.specs.Unbuilt.{first_unbuilt};
ghost use Rattle.source_files.specs.Files.{Is_file, Is_unread, Is_unspelled, Lexed, Misspells, Spells};

use bumpalo::Bump;
use fut_io::{LoadErr, Loader};
use fut_lexer::{LexErr, lex};
use fut_parser::{ParseErr, parse};
use fut_scalar::Place;
use fut_token::Token;
use fut_tree::Program;
use module_state::SourceFile;
use std::alloc::Global;
use unbuilt_tokens::first_unbuilt;

/// Why a file is not read.
#[derive(Debug, Drop)]
pub enum Unread {
    /// The load failed.
    Load,
    /// Its text is longer than 4,194,304 bytes.
    TooLong,
    /// Its text has no tokens.
    Lex(LexErr),
    /// Its tokens are no program.
    Parse(ParseErr),
    /// At this token it leaves the part of the language that is built.
    NotBuilt { at: Place },
    /// There are 256 files before it.
    TooMany,
    Memory,
}

/// The tokens of a file, held by the arena, since trees have texts of theirs.
fn tokens_of<'a, L: Loader>(
    alloc: Global,
    bump: &'a Bump,
    loader: &mut L,
    number: u32,
    path: &str,
) -> Result<&'a [Token], Unread>
    ensures ok { IfOk result (λ tokens. Lexed (L.seen loader.old) (L.seen loader.new) number path.now tokens.now) }
    ensures err { IfErr result (Is_unread (L.seen loader.old) (L.seen loader.new) number path.now) }
{
    let text = match loader.load(alloc, path) {
        Ok(text) => text,
        Err(LoadErr::Failed) => return Err(Unread::Load),
        Err(LoadErr::TooLong) => return Err(Unread::TooLong),
        Err(LoadErr::Memory) => return Err(Unread::Memory),
    };
    let tokens = match lex(alloc, number, text.as_slice()) {
        Ok(tokens) => tokens,
        Err(LexErr::Memory) => return Err(Unread::Memory),
        Err(err) => return Err(Unread::Lex(err)),
    };
    match bump.try_alloc(tokens) {
        Ok(tokens) => Ok(tokens.as_slice()),
        Err(_) => Err(Unread::Memory),
    }
}

/// The program that tokens spell.
fn parsed<'a>(bump: &'a Bump, number: u32, tokens: &'a [Token]) -> Result<Program<'a>, ParseErr>
    ensures ok { IfOk result (Spells tokens.now) }
    ensures err { IfErr result (Misspells number tokens.now) }
{
    parse(bump, number, tokens)
}

/// The program that tokens spell, held by the arena.
fn program_of<'a>(
    bump: &'a Bump,
    number: u32,
    tokens: &'a [Token],
) -> Result<&'a Program<'a>, Unread>
    ensures ok { IfOk result (λ program. Spells tokens.now program.now) }
    ensures built { OnOk result (first_unbuilt tokens.now ≡ None) }
    ensures err { IfErr result (Is_unspelled number tokens.now) }
{
    let program = match parsed(bump, number, tokens) {
        Ok(program) => program,
        Err(ParseErr::Memory) => return Err(Unread::Memory),
        Err(err) => return Err(Unread::Parse(err)),
    };
    if let Some(at) = first_unbuilt(tokens) {
        return Err(Unread::NotBuilt { at });
    }
    match bump.try_alloc(program) {
        Ok(program) => Ok(program),
        Err(_) => Err(Unread::Memory),
    }
}

/// The file at a path, or why it is not read.
pub fn read_file<'a, L: Loader>(
    alloc: Global,
    bump: &'a Bump,
    loader: &mut L,
    number: u32,
    path: &'a str,
) -> Result<SourceFile<'a>, Unread>
    ensures ok { IfOk result (λ file. Is_file (L.seen loader.old) number (file_of file)) }
    ensures path { IfOk result (λ file. file.path.now ≡ path.now) }
    ensures same { IfOk result (λ file. L.seen loader.new ≡ L.seen loader.old) }
    ensures err { IfErr result (Is_unread (L.seen loader.old) (L.seen loader.new) number path.now) }
{
    let tokens = tokens_of(alloc, bump, loader, number, path)?;
    let program = program_of(bump, number, tokens)?;
    Ok(SourceFile { path, program })
}
