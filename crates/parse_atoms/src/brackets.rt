// Expressions of one token or in brackets.
ghost use Rattle.std.specs.Prelude.{◌≡◌, true, ◌≤◌, ◌<◌, ◌+◌, suc, length, IfOk};
ghost use Rattle.fut_ast.specs.ExpRows.{elements, record_of};
ghost use Rattle.fut_ast.specs.Rows.{of_exp};
ghost use Rattle.fut_ast.specs.Tokens.{starts};
ghost use Rattle.fut_ast.specs.Sorts.{Whole};
ghost use Rattle.fut_grammar.specs.Phrases.{base_at, bracket_at, phrases, read_at};
ghost use Rattle.fut_grammar.specs.Reading.{Gives, commas_at, row_at};
ghost use Rattle.parse_types.specs.Found.{list_found, tree_found};

use crate::fields::field_list;
use crate::items::Items;
use crate::leaves::{no, no_elements, no_fields, number, path, yes};
use crate::made::made_before;
use crate::parens::paren_below;
use crate::tie::{ExpSort, ReadExp};
use bumpalo::Bump;
use fut_grammar::Stop;
use fut_token::{Fixed, Token};
use fut_tree::{Exp, Held};
use parse_nodes::exp_nodes::{array, record};
use parse_nodes::lists::commas_from;
use parse_types::found::Found;
use parse_types::lists::ReadItem;
use parse_types::tokens::{
    next_spot, refused, rest_of, starts_with, starts_with_int, starts_with_word,
};

/// An expression of one token or in brackets.
pub fn base_below<'a, R: ReadExp<'a>>(
    bump: &'a Bump,
    read: R,
    inner: u32,
    tokens: &'a [Token],
) -> Result<Found<'a, &'a Exp<'a>>, Stop>
    requires law { R.reads read inner }
    requires room { inner < 1000 }
    ensures exact { Gives tree_found result (base_at (phrases (read_at inner)) (suc inner) tokens.now) }
    ensures low { IfOk result (λ x. x.height ≤ inner + 1) }
{
    if starts_with_word(tokens) {
        path(bump, tokens)
    } else if starts_with_int(tokens) {
        number(bump, tokens)
    } else if starts_with(tokens, Fixed::KeyTrue) {
        yes(bump, tokens)
    } else if starts_with(tokens, Fixed::KeyFalse) {
        no(bump, tokens)
    } else if starts_with(tokens, Fixed::OpenParen) {
        paren_below(bump, read, inner, tokens)
    } else {
        bracket_below(bump, read, inner, tokens)
    }
}

fn bracket_below<'a, R: ReadExp<'a>>(
    bump: &'a Bump,
    read: R,
    inner: u32,
    tokens: &'a [Token],
) -> Result<Found<'a, &'a Exp<'a>>, Stop>
    requires law { R.reads read inner }
    requires room { inner < 1000 }
    ensures exact { Gives tree_found result (bracket_at (phrases (read_at inner)) (suc inner) tokens.now) }
    ensures low { IfOk result (λ x. x.height ≤ inner + 1) }
{
    let inside = rest_of(tokens);
    if starts_with(tokens, Fixed::OpenBracket) {
        if starts_with(inside, Fixed::CloseBracket) {
            no_elements(bump, tokens)
        } else {
            elements(bump, read, inner, tokens)
        }
    } else if starts_with(inside, Fixed::CloseBrace) {
        no_fields(bump, tokens)
    } else {
        fields(bump, read, inner, tokens)
    }
}

fn elements<'a, R: ReadExp<'a>>(
    bump: &'a Bump,
    read: R,
    inner: u32,
    tokens: &'a [Token],
) -> Result<Found<'a, &'a Exp<'a>>, Stop>
    requires first { starts Fixed.OpenBracket tokens.now ≡ true }
    requires law { R.reads read inner }
    requires room { inner < 1000 }
    ensures exact { Gives tree_found result (row_at (phrases (read_at inner)) (of_exp elements) tokens.now) }
    ensures low { IfOk result (λ x. x.height ≤ inner + 1) }
{
    let place = next_spot(tokens).place;
    match expressions(bump, read, inner, 0, rest_of(tokens)) {
        Ok(all) => made_before(
            array(bump, place, all.tree),
            all.height + 1,
            Fixed::CloseBracket,
            all.rest,
        ),
        Err(stop) => Err(stop),
    }
}

fn fields<'a, R: ReadExp<'a>>(
    bump: &'a Bump,
    read: R,
    inner: u32,
    tokens: &'a [Token],
) -> Result<Found<'a, &'a Exp<'a>>, Stop>
    requires law { R.reads read inner }
    requires room { inner < 1000 }
    ensures exact { Gives tree_found result (row_at (phrases (read_at inner)) (of_exp record_of) tokens.now) }
    ensures low { IfOk result (λ x. x.height ≤ inner + 1) }
{
    let place = next_spot(tokens).place;
    if !starts_with(tokens, Fixed::OpenBrace) {
        return Err(Stop::Fault(refused(tokens)));
    }
    match field_list(bump, read, inner, rest_of(tokens)) {
        Ok(all) => made_before(
            record(bump, place, all.tree),
            all.height + 1,
            Fixed::CloseBrace,
            all.rest,
        ),
        Err(stop) => Err(stop),
    }
}

/// Expressions with commas between.
pub fn expressions<'a, R: ReadExp<'a>>(
    bump: &'a Bump,
    read: R,
    inner: u32,
    first_height: u32,
    tokens: &'a [Token],
) -> Result<Found<'a, &'a [Held<'a, Exp<'a>>]>, Stop>
    requires law { R.reads read inner }
    requires room { (inner < 1000) × (first_height ≤ inner) }
    ensures exact { Gives list_found result (commas_at (phrases (read_at inner)) (length tokens.now) Whole first_height tokens.now) }
    ensures low { IfOk result (λ x. x.height ≤ inner) }
{
    commas_from(bump, Items { read }, inner, first_height, tokens)
}

impl<'a, R: ReadExp<'a>> ReadItem<'a, Held<'a, Exp<'a>>> for Items<R> {
    ghost sort = { Whole };

    ghost seen = { λ e. e.at.now };

    ghost reads = { λ s d. R.reads s.read d };

    #[tactic(auto, unfolding(fut_grammar::specs::Phrases::phrases))]
    fn item(
        self,
        bump: &'a Bump,
        inner: u32,
        tokens: &'a [Token],
    ) -> Result<Found<'a, Held<'a, Exp<'a>>>, Stop> {
        let _bump = bump;
        match self.read.read(inner, ExpSort::Whole, tokens) {
            Ok(item) => Ok(Found {
                tree: Held { at: item.tree.exp },
                height: item.height,
                rest: item.rest,
            }),
            Err(stop) => Err(stop),
        }
    }
}
