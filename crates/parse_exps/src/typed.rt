// Types behind expressions, and all that may stand behind operands.
ghost use Rattle.std.specs.Prelude.{◌≡◌, ◌≤◌, ◌<◌, ◌+◌, suc, if◌then◌else◌, IfOk};
ghost use Rattle.fut_ast.specs.Nodes.{exp_at, node};
ghost use Rattle.fut_ast.specs.Sorts.{Typed};
ghost use Rattle.fut_ast.specs.Tokens.{spot_of, starts};
ghost use Rattle.fut_ast.specs.declared.exp.Form.TheVariants as form;
ghost use Rattle.parse_atoms.specs.Tie.{ending_found};
ghost use Rattle.fut_grammar.specs.Phrases.{goes_typed, phrases, read_at, typed_at, typed_behind, typed_suffix};
ghost use Rattle.fut_grammar.specs.Reading.{Gives};

use crate::operators::chain_below;
use crate::ranges::end_behind;
use crate::updates::Updates;
use bumpalo::Bump;
use fut_ast::{Ended, Spot};
use fut_grammar::Stop;
use fut_scalar::{NoMemory, Place};
use fut_token::{Fixed, Token};
use fut_tree::{Exp, TypeExp};
use parse_atoms::made::ending_made;
use parse_atoms::suffixes::{ReadSuffix, suffixes_behind};
use parse_atoms::tie::{Ending, ReadExp};
use parse_nodes::exp_nodes::{ascribed, coerced};
use parse_nodes::exp_tokens::goes_on_updated;
use parse_types::found::Found;
use parse_types::tokens::{greater, next_spot, rest_of, starts_with};
use parse_types::types::whole_type;

/// An expression that begins with an operand.
#[tactic(auto, unfolding(fut_grammar::specs::Phrases::typed_at))]
pub fn typed_below<'a, R: ReadExp<'a>>(
    bump: &'a Bump,
    read: R,
    inner: u32,
    tokens: &'a [Token],
) -> Result<Found<'a, Ending<'a>>, Stop>
    requires law { R.reads read inner }
    requires room { inner < 1000 }
    ensures exact { Gives ending_found result (typed_at (phrases (read_at inner)) (suc inner) tokens.now) }
    ensures low { IfOk result (λ x. x.height ≤ inner + 1) }
{
    let first = chain_below(bump, read, inner, 1, tokens)?;
    all_behind(bump, read, inner, next_spot(tokens), first)
}

/// What may stand behind operands.
#[tactic(auto, unfolding(fut_grammar::specs::Phrases::typed_behind, fut_grammar::specs::Phrases::updates_behind, fut_grammar::specs::Phrases::types_behind))]
pub fn all_behind<'a, R: ReadExp<'a>>(
    bump: &'a Bump,
    read: R,
    inner: u32,
    at: Spot,
    first: Found<'a, Ending<'a>>,
) -> Result<Found<'a, Ending<'a>>, Stop>
    requires law { R.reads read inner }
    requires room { (inner < 1000) × (first.height ≤ inner + 1) }
    ensures exact { Gives ending_found result (typed_behind (phrases (read_at inner)) (suc inner) at (first.entry.tree.exp.now, first.entry.tree.ended) first.entry.height first.entry.rest.now) }
    ensures low { IfOk result (λ x. x.height ≤ inner + 1) }
{
    let range = end_behind(bump, read, inner, at, first)?;
    let updated = suffixes_behind(bump, Updates { read }, inner, at, range)?;
    suffixes_behind(bump, Types, inner, at, updated)
}

/// Types, whose sign says whether they ascribe or coerce.
#[derive(Clone, Copy)]
struct Types;

impl<'a> ReadSuffix<'a, Ending<'a>> for Types {
    ghost sort = { Typed };

    ghost seen = { λ t. (t.exp.now, t.ended) };

    ghost test = { λ ts. goes_typed ts };

    ghost choose = { λ ts. typed_suffix ts };

    ghost reads = { λ s d. Unit {0} };

    fn begins(self, tokens: &'a [Token]) -> bool {
        starts_with(tokens, Fixed::Colon) || starts_with(tokens, Fixed::ColonGreater)
    }

    fn goes_on_tighter(self, first: &Found<'a, Ending<'a>>) -> bool {
        goes_on_updated(first.tree.ended, first.rest)
    }

    fn longer(
        self,
        bump: &'a Bump,
        inner: u32,
        at: Spot,
        first: &Found<'a, Ending<'a>>,
    ) -> Result<Found<'a, Ending<'a>>, Stop> {
        let ty = whole_type(bump, inner, rest_of(first.rest))?;
        let node = with_type(bump, at.place, first.rest, first.tree.exp, ty.tree);
        let height = greater(first.height, ty.height);
        ending_made(node, Ended::Type, height + 1, ty.rest)
    }
}

// The node of an expression and the type behind it, by the sign between them.
fn with_type<'a>(
    bump: &'a Bump,
    from: Place,
    sign: &[Token],
    e: &'a Exp<'a>,
    ty: &'a TypeExp<'a>,
) -> Result<&'a Exp<'a>, NoMemory>
    ensures { IfOk result (λ t. t.now ≡ (if starts Fixed.Colon sign.now then exp_at from (form.Ascribe e.now ty.now) else node from (spot_of sign.now).place (form.Coerce e.now ty.now))) }
{
    if starts_with(sign, Fixed::Colon) {
        ascribed(bump, from, e, ty)
    } else {
        coerced(bump, from, next_spot(sign).place, e, ty)
    }
}
