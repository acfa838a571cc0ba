// Parameters of modules and the types behind them.
ghost use Rattle.std.specs.Prelude.{◌≤◌, ◌<◌, length, IfOk};
ghost use Rattle.fut_ast.specs.Sorts.{Mod_param, Whole_mtype};
ghost use Rattle.fut_grammar.specs.Phrases.{items, phrases, read_at};
ghost use Rattle.fut_grammar.specs.Reading.{Gives, many_at, maybe_at};
ghost use Rattle.parse_module_types.specs.MtypeFound.{params_found};
ghost use Rattle.parse_types.specs.Found.{found_as};
ghost use Rattle.fut_tree.specs.ModTypes.{param_of};
ghost use Rattle.fut_tree.specs.Names.{maybe};

use crate::cycle::{module_parameter, module_type};
use bumpalo::Bump;
use fut_grammar::Stop;
use fut_token::{Fixed, Token};
use fut_tree::{ModType, Param};
use parse_types::found::Found;
use parse_types::lists::{BeginItem, ReadItem, many};
use parse_types::tokens::{greater, rest_of, starts_with};

/// Parameters of a module in a declaration, as many as stand there.
pub fn module_params<'a>(
    bump: &'a Bump,
    inner: u32,
    tokens: &'a [Token],
) -> Result<Found<'a, &'a [Param<'a>]>, Stop>
    requires { inner < 1000 }
    ensures exact { Gives params_found result (many_at (items (read_at inner)) (length tokens.now) Mod_param 0 tokens.now) }
    ensures low { IfOk result (λ x. x.height ≤ inner) }
{
    many(bump, Params, inner, 0, tokens)
}

#[derive(Clone, Copy)]
struct Params;

impl<'a> ReadItem<'a, Param<'a>> for Params {
    ghost sort = { Mod_param };

    ghost seen = { param_of };

    ghost reads = { λ s d. d < 1000 };

    fn item(
        self,
        bump: &'a Bump,
        inner: u32,
        tokens: &'a [Token],
    ) -> Result<Found<'a, Param<'a>>, Stop> {
        module_parameter(bump, inner, tokens)
    }
}

impl<'a> BeginItem<'a, Param<'a>> for Params {
    fn begins(self, tokens: &'a [Token]) -> bool {
        starts_with(tokens, Fixed::OpenParen)
    }
}

/// A colon and a module type, or nothing.
#[tactic(auto, unfolding(fut_grammar::specs::Reading::maybe_at, fut_grammar::specs::Phrases::items, fut_grammar::specs::Phrases::phrases))]
pub fn maybe_module_type<'a>(
    bump: &'a Bump,
    inner: u32,
    arrows: bool,
    first_height: u32,
    tokens: &'a [Token],
) -> Result<Found<'a, Option<&'a ModType<'a>>>, Stop>
    requires { (inner < 1000) × (first_height ≤ inner) }
    ensures exact { Gives (found_as maybe) result (maybe_at (phrases (read_at inner)) Fixed.Colon (Whole_mtype arrows) first_height tokens.now) }
    ensures inside { Gives (found_as maybe) result (maybe_at (items (read_at inner)) Fixed.Colon (Whole_mtype arrows) first_height tokens.now) }
    ensures low { IfOk result (λ x. x.height ≤ inner) }
{
    if !starts_with(tokens, Fixed::Colon) {
        return Ok(Found {
            tree: None,
            height: first_height,
            rest: tokens,
        });
    }
    let ty = match module_type(bump, inner, arrows, rest_of(tokens)) {
        Ok(ty) => ty,
        Err(stop) => return Err(stop),
    };
    Ok(Found {
        tree: Some(ty.tree),
        height: greater(first_height, ty.height),
        rest: ty.rest,
    })
}
