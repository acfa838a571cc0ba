// The nodes of module expressions.
ghost use Rattle.std.specs.Prelude.{◌≡◌, IfOk, Ok};
ghost use Rattle.fut_grammar.specs.Reading.{Gives};
ghost use Rattle.fut_parser.specs.Private.ModFound.{ending_found};
ghost use Rattle.parse_types.specs.Found.{tree_found};

use crate::module_tie::{ModAnswer, ModEnding};
use bumpalo::Bump;
use fut_grammar::Stop;
use fut_token::Token;
use fut_tree::ModExp;
use parse_types::found::Found;

/// This module expression was read, and the arena holds it.
pub fn made<'a>(
    bump: &'a Bump,
    exp: ModExp<'a>,
    height: u32,
    rest: &'a [Token],
) -> Result<Found<'a, &'a ModExp<'a>>, Stop>
    ensures exact { Gives tree_found result (Ok (exp.entry, height, rest.now)) }
    ensures low { IfOk result (λ x. x.height ≡ height) }
{
    match bump.try_alloc(exp) {
        Ok(tree) => Ok(Found { tree, height, rest }),
        Err(_) => Err(Stop::Memory),
    }
}

/// The same, and whether it ended with its seal.
pub fn ended<'a>(
    bump: &'a Bump,
    exp: ModExp<'a>,
    is_sealed: bool,
    height: u32,
    rest: &'a [Token],
) -> ModAnswer<'a>
    ensures exact { Gives ending_found result (Ok ((exp.entry, is_sealed), height, rest.now)) }
    ensures low { IfOk result (λ x. x.height ≡ height) }
{
    match bump.try_alloc(exp) {
        Ok(module) => Ok(Found {
            tree: ModEnding { module, is_sealed },
            height,
            rest,
        }),
        Err(_) => Err(Stop::Memory),
    }
}
