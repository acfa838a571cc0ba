// The parser of programs.
ghost use Rattle.std.specs.Prelude.{◌≡◌, ◌≤◌, ◌<◌, ℕ, List, IfErr, IfOk, length, true};
ghost use Rattle.fut_ast.specs.Grammar.{Derives};
ghost use Rattle.fut_ast.specs.LeftOut.{begins_left_out};
ghost use Rattle.fut_ast.specs.Nesting.{Too_deep};
ghost use Rattle.fut_ast.specs.Sorts.{Dec_item};
ghost use Rattle.fut_ast.specs.declared.module.Program.{Program as PlainProgram};
ghost use Rattle.fut_ast.specs.declared.node.What.{What};
ghost use Rattle.fut_grammar.specs.Phrases.{nodes, program_at, read_at};
ghost use Rattle.fut_grammar.specs.Reading.{Gives, many_at};
ghost use Rattle.fut_parser.specs.Private.Answers.{ExplainsParse, ReadsTokens, answer_of, place_left};
ghost use Rattle.fut_parser.specs.Private.ModFound.{decs_found};
ghost use Rattle.fut_parser.specs.Places.{Ends, place_of};
ghost use Rattle.fut_scalar.specs.declared.place.Place.{Place};
ghost use Rattle.fut_token.specs.declared.token.Token.{Token};

use crate::items::Items;
use crate::module_cycle::declaration;
use crate::module_tie::{DecAnswer, ReadDeclaration};
use bumpalo::Bump;
use fut_ast::What;
use fut_grammar::{Fault, Stop};
use fut_scalar::Place;
use fut_token::Token;
use fut_tree::{Dec, Program};
use parse_types::found::Found;
use parse_types::lists::many;
use parse_types::tokens::refused;

/// Why a program could not be parsed.
///
/// Each place is that of a token; where the tokens run out, of the last one, and without tokens the file's beginning.
#[derive(Debug, Drop)]
pub enum ParseErr {
    /// The tokens are no program.
    Syntax { at: Place },
    /// The token stands inside 201 nodes or more, and at most 200 are allowed.
    TooDeep { at: Place },
    /// With the token a form begins that this language leaves out.
    LeftOut { at: Place, what: What },
    Memory,
}

/// Declarations of any height, each made in the arena.
#[derive(Clone, Copy)]
struct AnyDeclaration<'a> {
    bump: &'a Bump,
}

impl<'a> ReadDeclaration<'a> for AnyDeclaration<'a> {
    ghost reads = { λ s d. d ≤ 1000 };

    fn declaration(self, inner: u32, tokens: &'a [Token]) -> DecAnswer<'a> {
        declaration(self.bump, inner, tokens)
    }
}

// The declarations of a file.
fn all_declarations<'a>(
    bump: &'a Bump,
    tokens: &'a [Token],
) -> Result<Found<'a, &'a [Dec<'a>]>, Stop>
    ensures exact { Gives decs_found result (many_at (nodes (read_at 201)) (length tokens.now) Dec_item 0 tokens.now) }
    ensures low { IfOk result (λ x. x.height ≤ 201) }
{
    let read = AnyDeclaration { bump };
    many(bump, Items { read }, 201, 0, tokens)
}

#[tactic(auto, unfolding(fut_grammar::specs::Phrases::program_at))]
fn program<'a>(bump: &'a Bump, tokens: &'a [Token]) -> Result<(Program<'a>, u32), Stop>
    ensures exact { Gives (λ x. (x.0, x.1)) result (program_at tokens.now) }
    ensures low { IfOk result (λ x. x.1 ≤ 201) }
{
    let found = match all_declarations(bump, tokens) {
        Ok(found) => found,
        Err(stop) => return Err(stop),
    };
    if found.rest.len() == 0 {
        Ok((Program { decs: found.tree }, found.height))
    } else {
        Err(Stop::Fault(refused(found.rest)))
    }
}

// Where the token stands from which on so many are left, or the last one where none is.
fn place_of_left(file: u32, tokens: &[Token], left: usize) -> Place
    ensures { result ≡ place_left file tokens.now left }
{
    let back = if left == 0 { 1 } else { left };
    match tokens.get(tokens.len().saturating_sub(back)) {
        Some(token) => token.place,
        None => Place {
            file,
            line: 1,
            column: 1,
        },
    }
}

fn answer(file: u32, tokens: &[Token], fault: Fault) -> ParseErr
    ensures { result ≡ answer_of file tokens.now fault }
{
    match fault {
        Fault::Syntax(left) => ParseErr::Syntax {
            at: place_of_left(file, tokens, left),
        },
        Fault::TooDeep(left) => ParseErr::TooDeep {
            at: place_of_left(file, tokens, left),
        },
        Fault::LeftOut(left, what) => ParseErr::LeftOut {
            at: place_of_left(file, tokens, left),
            what,
        },
    }
}

/// The program that the tokens of a file spell. Its names are texts of the tokens.
///
/// It is the only one, and its nodes are nested at most 200 deep.
pub fn parse<'a>(bump: &'a Bump, file: u32, tokens: &'a [Token]) -> Result<Program<'a>, ParseErr>
    ensures found { IfOk result (λ p. (h : ℕ) × (h ≤ 201) × Derives tokens.now p h) }
    ensures only { IfOk result (λ p. (q : PlainProgram) (h : ℕ) → Derives tokens.now q h → q ≡ p) }
    ensures none { (at : Place) → result ≡ Err (ParseErr.Syntax at) → (q : PlainProgram) (h : ℕ) → Derives tokens.now q h → ⊥ }
    ensures none_left_out { (at : Place) (what : What) → result ≡ Err (ParseErr.LeftOut at what) → (q : PlainProgram) (h : ℕ) → Derives tokens.now q h → ⊥ }
    ensures too_high { (at : Place) → result ≡ Err (ParseErr.TooDeep at) → (q : PlainProgram) (h : ℕ) → Derives tokens.now q h → 201 < h }
    ensures reads { IfOk result (ReadsTokens tokens.now) }
    ensures refuses { IfErr result (ExplainsParse file tokens.now) }
    ensures syntax { (at : Place) → result ≡ Err (ParseErr.Syntax at) → (rest : List Token) × Ends tokens.now rest × (at ≡ place_of file tokens.now rest) }
    ensures deep { (at : Place) → result ≡ Err (ParseErr.TooDeep at) → (rest : List Token) × Ends tokens.now rest × (at ≡ place_of file tokens.now rest) × Too_deep tokens.now rest }
    ensures left_out { (at : Place) (what : What) → result ≡ Err (ParseErr.LeftOut at what) → (rest : List Token) × Ends tokens.now rest × (at ≡ place_of file tokens.now rest) × (begins_left_out what rest ≡ true) }
{
    match program(bump, tokens) {
        Ok((program, _)) => Ok(program),
        Err(Stop::Memory) => Err(ParseErr::Memory),
        Err(Stop::Fault(fault)) => Err(answer(file, tokens, fault)),
    }
}
