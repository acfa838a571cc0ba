// The parts of the index of what is written: operands, since a slice in an update is left out.
ghost use Rattle.std.specs.Prelude.{◌≤◌, ◌<◌, length, IfOk};
ghost use Rattle.fut_ast.specs.Sorts.{Written_item};
ghost use Rattle.fut_grammar.specs.Phrases.{items, phrases, read_at};
ghost use Rattle.fut_grammar.specs.Reading.{Gives, commas_at};
ghost use Rattle.parse_types.specs.Found.{list_found};

use crate::tie::{ExpSort, ReadExp};
use bumpalo::Bump;
use fut_ast::What;
use fut_grammar::Stop;
use fut_token::Token;
use fut_tree::{Exp, Held};
use parse_nodes::exp_tokens::begins_exp_operand;
use parse_nodes::lists::commas_from;
use parse_types::found::Found;
use parse_types::lists::ReadItem;
use parse_types::tokens::{refused, without_form};

/// Parts of the index of an update, with commas between. A `let` reads them in the same way.
#[tactic(auto, using(crate::proofs::ItemLaws::targets_same))]
pub fn written_list<'a, R: ReadExp<'a>>(
    bump: &'a Bump,
    read: R,
    inner: u32,
    first_height: u32,
    tokens: &'a [Token],
) -> Result<Found<'a, &'a [Held<'a, Exp<'a>>]>, Stop>
    requires law { R.reads read inner }
    requires room { (inner < 1000) × (first_height ≤ inner) }
    ensures exact { Gives list_found result (commas_at (phrases (read_at inner)) (length tokens.now) Written_item first_height tokens.now) }
    ensures in_let { Gives list_found result (commas_at (items (read_at inner)) (length tokens.now) Written_item first_height tokens.now) }
    ensures low { IfOk result (λ x. x.height ≤ inner) }
{
    commas_from(bump, TargetItems { read }, inner, first_height, tokens)
}

#[derive(Clone, Copy)]
struct TargetItems<R> {
    read: R,
}

impl<'a, R: ReadExp<'a>> ReadItem<'a, Held<'a, Exp<'a>>> for TargetItems<R> {
    ghost sort = { Written_item };

    ghost seen = { λ e. e.at.now };

    ghost reads = { λ s d. R.reads s.read d };

    fn item(
        self,
        bump: &'a Bump,
        inner: u32,
        tokens: &'a [Token],
    ) -> Result<Found<'a, Held<'a, Exp<'a>>>, Stop> {
        let _bump = bump;
        if !begins_exp_operand(tokens) {
            return match without_form(What::SliceUpdate, tokens) {
                Ok(()) => Err(Stop::Fault(refused(tokens))),
                Err(stop) => Err(stop),
            };
        }
        let part = match self.read.read(inner, ExpSort::Operands(1), tokens) {
            Ok(part) => part,
            Err(stop) => return Err(stop),
        };
        match without_form(What::SliceUpdate, part.rest) {
            Ok(()) => Ok(Found {
                tree: Held { at: part.tree.exp },
                height: part.height,
                rest: part.rest,
            }),
            Err(stop) => Err(stop),
        }
    }
}
