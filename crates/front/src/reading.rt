// The prelude, as it is read.
ghost use Rattle.std.specs.Prelude.{IfOk};
ghost use Rattle.front.specs.Acceptance.{IsPrelude, IsPreludeText};

use bumpalo::Bump;
use fut_lexer::lex;
use fut_parser::parse;
use fut_scalar::{List, NoMemory};
use fut_token::Token;
use fut_tree::Program;
use module_elab::PRELUDE;
use std::alloc::Global;

/// The number of the prelude among the files.
const PRELUDE_FILE: u32 = 0;

/// The tokens of the prelude. Trees of a program have texts of theirs.
#[derive(Drop)]
pub struct Prelude {
    pub tokens: List<Token>,
}

/// The prelude.
pub fn read_prelude(alloc: Global) -> Result<Prelude, NoMemory>
    ensures { IfOk result (λ prelude. IsPreludeText prelude.tokens) }
{
    match lex(alloc, PRELUDE_FILE, PRELUDE.as_bytes()) {
        Ok(tokens) => Ok(Prelude { tokens }),
        Err(_) => Err(NoMemory),
    }
}

/// The tree of the prelude.
pub fn prelude_tree<'a>(bump: &'a Bump, prelude: &'a Prelude) -> Result<Program<'a>, NoMemory>
    requires { IsPreludeText prelude.now.tokens }
    ensures { IfOk result IsPrelude }
{
    match parse(bump, PRELUDE_FILE, prelude.tokens.as_slice()) {
        Ok(program) => Ok(program),
        Err(_) => Err(NoMemory),
    }
}
