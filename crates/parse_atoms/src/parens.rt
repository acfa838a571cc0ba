// Expressions in parentheses, and sections.
ghost use Rattle.std.specs.Prelude.{◌≡◌, true, ◌≤◌, ◌<◌, ◌+◌, suc, ℕ, IfOk};
ghost use Rattle.fut_ast.specs.ExpRows.{bare_fields, bare_index, bare_operator, operator_first};
ghost use Rattle.fut_ast.specs.Operators.{any_operator};
ghost use Rattle.fut_ast.specs.Rows.{of_exp};
ghost use Rattle.fut_ast.specs.Tokens.{starts, tail};
ghost use Rattle.fut_grammar.specs.Phrases.{paren_at, phrases, plain_at, read_at, round_end, section_end, section_or_plain};
ghost use Rattle.fut_grammar.specs.Reading.{Gives, row_at};
ghost use Rattle.parse_types.specs.Found.{tree_found};

use crate::brackets::expressions;
use crate::indices::named_list;
use crate::leaves::unit;
use crate::made::made_before;
use crate::tie::{ExpSort, ReadExp};
use bumpalo::Bump;
use fut_ast::{Spot, What};
use fut_grammar::Stop;
use fut_token::{Fixed, Token};
use fut_tree::Exp;
use parse_nodes::exp_nodes::round as round_of;
use parse_nodes::exp_tokens::{
    level_of, makes_section, next_any_operator, past_operator, take_operator,
};
use parse_nodes::index_nodes::section_of_index;
use parse_nodes::sections::{operator_alone, section_of_fields, section_of_left, section_of_right};
use parse_types::found::Found;
use parse_types::lists::in_front;
use parse_types::tokens::{next_spot, refused, rest_of, starts_with, take_path, without_form};

/// What stands in parentheses.
pub fn paren_below<'a, R: ReadExp<'a>>(
    bump: &'a Bump,
    read: R,
    inner: u32,
    tokens: &'a [Token],
) -> Result<Found<'a, &'a Exp<'a>>, Stop>
    requires first { starts Fixed.OpenParen tokens.now ≡ true }
    requires law { R.reads read inner }
    requires room { inner < 1000 }
    ensures exact { Gives tree_found result (paren_at (phrases (read_at inner)) (suc inner) tokens.now) }
    ensures low { IfOk result (λ x. x.height ≤ inner + 1) }
{
    let inside = rest_of(tokens);
    if starts_with(inside, Fixed::CloseParen) {
        unit(bump, tokens)
    } else if starts_with(inside, Fixed::Dot) {
        if starts_with(rest_of(inside), Fixed::OpenBracket) {
            index_alone(bump, read, inner, tokens)
        } else {
            fields_alone(bump, tokens)
        }
    } else {
        section_or_round(bump, read, inner, tokens)
    }
}

#[tactic(auto, unfolding(fut_grammar::specs::Phrases::operator_section_at))]
fn section_or_round<'a, R: ReadExp<'a>>(
    bump: &'a Bump,
    read: R,
    inner: u32,
    tokens: &'a [Token],
) -> Result<Found<'a, &'a Exp<'a>>, Stop>
    requires first { starts Fixed.OpenParen tokens.now ≡ true }
    requires law { R.reads read inner }
    requires room { inner < 1000 }
    ensures exact { Gives tree_found result (section_or_plain (phrases (read_at inner)) (suc inner) (any_operator (tail tokens.now)) tokens.now) }
    ensures low { IfOk result (λ x. x.height ≤ inner + 1) }
{
    let inside = rest_of(tokens);
    match next_any_operator(inside) {
        None => plain(bump, read, inner, tokens),
        Some(fixed) => {
            if !makes_section(fixed, rest_of(inside)) {
                plain(bump, read, inner, tokens)
            } else if starts_with(past_operator(fixed, rest_of(inside)), Fixed::CloseParen) {
                operator_in_parens(bump, fixed, tokens)
            } else {
                operator_and_operand(bump, read, inner, fixed, tokens)
            }
        }
    }
}

fn operator_and_operand<'a, R: ReadExp<'a>>(
    bump: &'a Bump,
    read: R,
    inner: u32,
    fixed: Fixed,
    tokens: &'a [Token],
) -> Result<Found<'a, &'a Exp<'a>>, Stop>
    requires first { starts Fixed.OpenParen tokens.now ≡ true }
    requires law { R.reads read inner }
    requires room { inner < 1000 }
    ensures exact { Gives tree_found result (row_at (phrases (read_at inner)) (of_exp (operator_first fixed)) tokens.now) }
    ensures low { IfOk result (λ x. x.height ≤ inner + 1) }
{
    let paren = next_spot(tokens).place;
    let rest = rest_of(tokens);
    if starts_with(rest, Fixed::Minus) {
        return Err(Stop::Fault(refused(rest)));
    }
    let ((at, name), rest) = match take_operator(fixed, rest) {
        Ok(operator) => operator,
        Err(stop) => return Err(stop),
    };
    match read.read(inner, ExpSort::Operands(level_of(fixed) + 1), rest) {
        Ok(operand) => {
            let node = section_of_right(bump, fixed, paren, at.place, name, operand.tree.exp);
            made_before(node, operand.height + 1, Fixed::CloseParen, operand.rest)
        }
        Err(stop) => Err(stop),
    }
}

fn plain<'a, R: ReadExp<'a>>(
    bump: &'a Bump,
    read: R,
    inner: u32,
    tokens: &'a [Token],
) -> Result<Found<'a, &'a Exp<'a>>, Stop>
    requires law { R.reads read inner }
    requires room { inner < 1000 }
    ensures exact { Gives tree_found result (plain_at (phrases (read_at inner)) (suc inner) tokens.now) }
    ensures low { IfOk result (λ x. x.height ≤ inner + 1) }
{
    let at = next_spot(tokens);
    match read.read(inner, ExpSort::Inside, rest_of(tokens)) {
        Ok(first) => match first.tree.section {
            None => round(
                bump,
                read,
                inner,
                at,
                first.tree.exp,
                first.height,
                first.rest,
            ),
            Some(fixed) => operand_and_operator(
                bump,
                fixed,
                at,
                first.tree.exp,
                first.height,
                first.rest,
            ),
        },
        Err(stop) => Err(stop),
    }
}

fn round<'a, R: ReadExp<'a>>(
    bump: &'a Bump,
    read: R,
    inner: u32,
    at: Spot,
    first: &'a Exp<'a>,
    first_height: u32,
    tokens: &'a [Token],
) -> Result<Found<'a, &'a Exp<'a>>, Stop>
    requires law { R.reads read inner }
    requires room { (inner < 1000) × (first_height ≤ inner) }
    ensures exact { Gives tree_found result (round_end (phrases (read_at inner)) (suc inner) at first.now first_height tokens.now) }
    ensures low { IfOk result (λ x. x.height ≤ inner + 1) }
{
    if !starts_with(tokens, Fixed::Comma) {
        return made_before(Ok(first), first_height + 1, Fixed::CloseParen, tokens);
    }
    let others = match expressions(bump, read, inner, first_height, rest_of(tokens)) {
        Ok(others) => others,
        Err(stop) => return Err(stop),
    };
    match in_front(bump, first, others.tree) {
        Ok(all) => made_before(
            round_of(bump, at.place, all),
            others.height + 1,
            Fixed::CloseParen,
            others.rest,
        ),
        Err(_) => Err(Stop::Memory),
    }
}

fn index_alone<'a, R: ReadExp<'a>>(
    bump: &'a Bump,
    read: R,
    inner: u32,
    tokens: &'a [Token],
) -> Result<Found<'a, &'a Exp<'a>>, Stop>
    requires first { starts Fixed.OpenParen tokens.now ≡ true }
    requires dot { starts Fixed.Dot (tail tokens.now) ≡ true }
    requires bracket { starts Fixed.OpenBracket (tail (tail tokens.now)) ≡ true }
    requires law { R.reads read inner }
    requires room { inner < 1000 }
    ensures exact { Gives tree_found result (row_at (phrases (read_at inner)) (of_exp bare_index) tokens.now) }
    ensures low { IfOk result (λ x. x.height ≤ inner + 1) }
{
    let paren = next_spot(tokens).place;
    let rest = rest_of(rest_of(tokens));
    let bracket = next_spot(rest).place;
    let parts = match named_list(bump, read, inner, rest_of(rest)) {
        Ok(parts) => parts,
        Err(stop) => return Err(stop),
    };
    if !starts_with(parts.rest, Fixed::CloseBracket) {
        return Err(Stop::Fault(refused(parts.rest)));
    }
    made_before(
        section_of_index(bump, paren, bracket, parts.tree),
        parts.height + 1,
        Fixed::CloseParen,
        rest_of(parts.rest),
    )
}

// ---- what has no expressions in it, or has them read before

fn operand_and_operator<'a>(
    bump: &'a Bump,
    fixed: Fixed,
    at: Spot,
    first: &'a Exp<'a>,
    first_height: u32,
    tokens: &'a [Token],
) -> Result<Found<'a, &'a Exp<'a>>, Stop>
    requires { first_height < 1000 }
    ensures exact { (inner : ℕ) → Gives tree_found result (section_end (phrases (read_at inner)) (suc inner) fixed at first.now first_height tokens.now) }
    ensures low { IfOk result (λ x. x.height ≡ first_height + 1) }
{
    match take_operator(fixed, tokens) {
        Ok(((key, name), rest)) => made_before(
            section_of_left(bump, fixed, at.place, first, key.place, name),
            first_height + 1,
            Fixed::CloseParen,
            rest,
        ),
        Err(stop) => Err(stop),
    }
}

fn operator_in_parens<'a>(
    bump: &'a Bump,
    fixed: Fixed,
    tokens: &'a [Token],
) -> Result<Found<'a, &'a Exp<'a>>, Stop>
    requires first { starts Fixed.OpenParen tokens.now ≡ true }
    ensures exact { (inner : ℕ) → Gives tree_found result (row_at (phrases (read_at inner)) (of_exp (bare_operator fixed)) tokens.now) }
    ensures low { IfOk result (λ x. x.height ≡ 1) }
{
    let paren = next_spot(tokens).place;
    match take_operator(fixed, rest_of(tokens)) {
        Ok(((at, name), rest)) => made_before(
            operator_alone(bump, fixed, paren, at.place, name),
            1,
            Fixed::CloseParen,
            rest,
        ),
        Err(stop) => Err(stop),
    }
}

fn fields_alone<'a>(bump: &'a Bump, tokens: &'a [Token]) -> Result<Found<'a, &'a Exp<'a>>, Stop>
    requires first { starts Fixed.OpenParen tokens.now ≡ true }
    requires dot { starts Fixed.Dot (tail tokens.now) ≡ true }
    ensures exact { (inner : ℕ) → Gives tree_found result (row_at (phrases (read_at inner)) (of_exp bare_fields) tokens.now) }
    ensures low { IfOk result (λ x. x.height ≡ 1) }
{
    let paren = next_spot(tokens).place;
    let rest = rest_of(tokens);
    match without_form(What::LocalOpen, rest) {
        Ok(()) => (),
        Err(stop) => return Err(stop),
    }
    let dot = next_spot(rest).place;
    match take_path(bump, rest_of(rest)) {
        Ok((fields, rest)) => made_before(
            section_of_fields(bump, paren, dot, fields),
            1,
            Fixed::CloseParen,
            rest,
        ),
        Err(stop) => Err(stop),
    }
}
