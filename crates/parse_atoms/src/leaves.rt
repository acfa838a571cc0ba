// Atoms that hold no expressions.
ghost use Rattle.std.specs.Prelude.{◌≡◌, true, ℕ, IfOk};
ghost use Rattle.fut_ast.specs.ExpRows.{empty_record, falsity, no_elements, number, path, truth, unit};
ghost use Rattle.fut_ast.specs.Rows.{of_exp};
ghost use Rattle.fut_ast.specs.Tokens.{starts, tail};
ghost use Rattle.fut_grammar.specs.Phrases.{phrases, read_at};
ghost use Rattle.fut_grammar.specs.Reading.{Gives, row_at};
ghost use Rattle.parse_types.specs.Found.{tree_found};

use crate::made::made;
use bumpalo::Bump;
use fut_grammar::Stop;
use fut_token::{Fixed, Token};
use fut_tree::Exp;
use parse_nodes::exp_nodes::{array, integer, path as path_node, record, truth, unit as unit_node};
use parse_types::found::Found;
use parse_types::tokens::{next_spot, refused, rest_of, starts_with, take_number, take_path};

/// A path of names.
#[tactic(auto, unfolding(fut_grammar::specs::Reading::row_at, fut_grammar::specs::Reading::parts_at, fut_grammar::specs::Reading::has_at))]
pub fn path<'a>(bump: &'a Bump, tokens: &'a [Token]) -> Result<Found<'a, &'a Exp<'a>>, Stop>
    ensures exact { (inner : ℕ) → Gives tree_found result (row_at (phrases (read_at inner)) (of_exp path) tokens.now) }
    ensures low { IfOk result (λ x. x.height ≡ 1) }
{
    let place = next_spot(tokens).place;
    match take_path(bump, tokens) {
        Ok((names, rest)) => made(path_node(bump, place, names), 1, rest),
        Err(stop) => Err(stop),
    }
}

/// An integer.
#[tactic(auto, unfolding(fut_grammar::specs::Reading::row_at, fut_grammar::specs::Reading::parts_at, fut_grammar::specs::Reading::has_at))]
pub fn number<'a>(bump: &'a Bump, tokens: &'a [Token]) -> Result<Found<'a, &'a Exp<'a>>, Stop>
    ensures exact { (inner : ℕ) → Gives tree_found result (row_at (phrases (read_at inner)) (of_exp number) tokens.now) }
    ensures low { IfOk result (λ x. x.height ≡ 1) }
{
    let place = next_spot(tokens).place;
    match take_number(tokens) {
        Ok((value, ty, rest)) => made(integer(bump, place, value, ty), 1, rest),
        Err(stop) => Err(stop),
    }
}

/// `true`
#[tactic(auto, unfolding(fut_grammar::specs::Reading::row_at, fut_grammar::specs::Reading::parts_at, fut_grammar::specs::Reading::has_at, fut_grammar::specs::Reading::expect))]
pub fn yes<'a>(bump: &'a Bump, tokens: &'a [Token]) -> Result<Found<'a, &'a Exp<'a>>, Stop>
    requires { starts Fixed.KeyTrue tokens.now ≡ true }
    ensures exact { (inner : ℕ) → Gives tree_found result (row_at (phrases (read_at inner)) (of_exp truth) tokens.now) }
    ensures low { IfOk result (λ x. x.height ≡ 1) }
{
    let place = next_spot(tokens).place;
    made(truth(bump, place, true), 1, rest_of(tokens))
}

/// `false`
#[tactic(auto, unfolding(fut_grammar::specs::Reading::row_at, fut_grammar::specs::Reading::parts_at, fut_grammar::specs::Reading::has_at, fut_grammar::specs::Reading::expect))]
pub fn no<'a>(bump: &'a Bump, tokens: &'a [Token]) -> Result<Found<'a, &'a Exp<'a>>, Stop>
    requires { starts Fixed.KeyFalse tokens.now ≡ true }
    ensures exact { (inner : ℕ) → Gives tree_found result (row_at (phrases (read_at inner)) (of_exp falsity) tokens.now) }
    ensures low { IfOk result (λ x. x.height ≡ 1) }
{
    let place = next_spot(tokens).place;
    made(truth(bump, place, false), 1, rest_of(tokens))
}

/// `()`
#[tactic(auto, unfolding(fut_grammar::specs::Reading::row_at, fut_grammar::specs::Reading::parts_at, fut_grammar::specs::Reading::has_at, fut_grammar::specs::Reading::expect))]
pub fn unit<'a>(bump: &'a Bump, tokens: &'a [Token]) -> Result<Found<'a, &'a Exp<'a>>, Stop>
    requires open { starts Fixed.OpenParen tokens.now ≡ true }
    requires close { starts Fixed.CloseParen (tail tokens.now) ≡ true }
    ensures exact { (inner : ℕ) → Gives tree_found result (row_at (phrases (read_at inner)) (of_exp unit) tokens.now) }
    ensures low { IfOk result (λ x. x.height ≡ 1) }
{
    let place = next_spot(tokens).place;
    made(unit_node(bump, place), 1, rest_of(rest_of(tokens)))
}

/// `[]`
#[tactic(auto, unfolding(fut_grammar::specs::Reading::row_at, fut_grammar::specs::Reading::parts_at, fut_grammar::specs::Reading::has_at, fut_grammar::specs::Reading::expect))]
pub fn no_elements<'a>(bump: &'a Bump, tokens: &'a [Token]) -> Result<Found<'a, &'a Exp<'a>>, Stop>
    requires open { starts Fixed.OpenBracket tokens.now ≡ true }
    requires close { starts Fixed.CloseBracket (tail tokens.now) ≡ true }
    ensures exact { (inner : ℕ) → Gives tree_found result (row_at (phrases (read_at inner)) (of_exp no_elements) tokens.now) }
    ensures low { IfOk result (λ x. x.height ≡ 1) }
{
    let place = next_spot(tokens).place;
    made(array(bump, place, &[]), 1, rest_of(rest_of(tokens)))
}

/// `{}`
#[tactic(auto, unfolding(fut_grammar::specs::Reading::row_at, fut_grammar::specs::Reading::parts_at, fut_grammar::specs::Reading::has_at, fut_grammar::specs::Reading::expect))]
pub fn no_fields<'a>(bump: &'a Bump, tokens: &'a [Token]) -> Result<Found<'a, &'a Exp<'a>>, Stop>
    requires close { starts Fixed.CloseBrace (tail tokens.now) ≡ true }
    ensures exact { (inner : ℕ) → Gives tree_found result (row_at (phrases (read_at inner)) (of_exp empty_record) tokens.now) }
    ensures low { IfOk result (λ x. x.height ≡ 1) }
{
    let place = next_spot(tokens).place;
    if !starts_with(tokens, Fixed::OpenBrace) {
        return Err(Stop::Fault(refused(tokens)));
    }
    made(record(bump, place, &[]), 1, rest_of(rest_of(tokens)))
}
