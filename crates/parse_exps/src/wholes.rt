// Any expression, and the choice of a form by its first token.
ghost use Rattle.std.specs.Prelude.{◌≡◌, ◌≤◌, ◌<◌, ◌+◌, suc, if◌then◌else◌, Err, IfOk, List, Ok, ℕ};
ghost use Rattle.fut_ast.specs.Rows.{near_right, operands, whole};
ghost use Rattle.fut_ast.specs.Sorts.{Ending as PlainEnding, SourceExp};
ghost use Rattle.fut_token.specs.declared.token.Token.{Token};
ghost use Rattle.parse_atoms.specs.Tie.{ending_found};
ghost use Rattle.parse_types.specs.Found.{tree_found};
ghost use Rattle.fut_grammar.specs.Phrases.{big_at, body_at, far_at, last_at, lets_at, operand_at, operands_at, phrases, read_at, right_at, whole_at};
ghost use Rattle.fut_grammar.specs.Reading.{Gives, Read, refuse};

use crate::operators::chain_below;
use crate::ranges::range_below;
use crate::typed::typed_below;
use bumpalo::Bump;
use fut_grammar::Stop;
use fut_token::{Fixed, Token};
use fut_tree::Exp;
use parse_atoms::forms::form_below;
use parse_atoms::lets::lets;
use parse_atoms::made::ending_made;
use parse_atoms::tie::{Ending, ReadExp};
use parse_nodes::exp_nodes::lets as lets_node;
use parse_nodes::exp_tokens::{begins_exp_operand, goes_on_chain, goes_on_range, goes_on_typed};
use parse_types::found::Found;
use parse_types::tokens::{greater, next_spot, refused, starts_with};

/// Any expression, and how it ended.
#[tactic(auto, unfolding(fut_grammar::specs::Phrases::last_at))]
pub fn last_below<'a, R: ReadExp<'a>>(
    bump: &'a Bump,
    read: R,
    inner: u32,
    tokens: &'a [Token],
) -> Result<Found<'a, Ending<'a>>, Stop>
    requires law { R.reads read inner }
    requires room { inner < 1000 }
    ensures exact { Gives ending_found result (last_at (phrases (read_at inner)) (suc inner) tokens.now) }
    ensures low { IfOk result (λ x. x.height ≤ inner + 1) }
{
    if begins_exp_operand(tokens) {
        typed_below(bump, read, inner, tokens)
    } else {
        big_below(bump, read, inner, tokens)
    }
}

#[tactic(auto, unfolding(fut_grammar::specs::Phrases::big_at))]
pub fn big_below<'a, R: ReadExp<'a>>(
    bump: &'a Bump,
    read: R,
    inner: u32,
    tokens: &'a [Token],
) -> Result<Found<'a, Ending<'a>>, Stop>
    requires law { R.reads read inner }
    requires room { inner < 1000 }
    ensures exact { Gives ending_found result (big_at (phrases (read_at inner)) (suc inner) tokens.now) }
    ensures low { IfOk result (λ x. x.height ≤ inner + 1) }
{
    if starts_with(tokens, Fixed::KeyLet) {
        lets_below(bump, read, inner, tokens)
    } else {
        form_below(bump, read, inner, tokens)
    }
}

#[tactic(auto, unfolding(fut_grammar::specs::Phrases::body_at))]
fn body_below<'a, R: ReadExp<'a>>(
    bump: &'a Bump,
    read: R,
    inner: u32,
    tokens: &'a [Token],
) -> Result<Found<'a, Ending<'a>>, Stop>
    requires law { R.reads read inner }
    requires room { inner < 1000 }
    ensures exact { Gives ending_found result (body_at (phrases (read_at inner)) (suc inner) tokens.now) }
    ensures low { IfOk result (λ x. x.height ≤ inner + 1) }
{
    if begins_exp_operand(tokens) {
        typed_below(bump, read, inner, tokens)
    } else {
        form_below(bump, read, inner, tokens)
    }
}

#[tactic(auto, unfolding(fut_grammar::specs::Phrases::lets_at))]
fn lets_below<'a, R: ReadExp<'a>>(
    bump: &'a Bump,
    read: R,
    inner: u32,
    tokens: &'a [Token],
) -> Result<Found<'a, Ending<'a>>, Stop>
    requires law { R.reads read inner }
    requires room { inner < 1000 }
    ensures exact { Gives ending_found result (lets_at (phrases (read_at inner)) (suc inner) tokens.now) }
    ensures low { IfOk result (λ x. x.height ≤ inner + 1) }
{
    let place = next_spot(tokens).place;
    let row = match lets(bump, read, inner, tokens) {
        Ok(row) => row,
        Err(stop) => return Err(stop),
    };
    match body_below(bump, read, inner, row.rest) {
        Ok(body) => {
            let node = lets_node(bump, place, place, row.tree, body.tree.exp);
            let height = greater(row.height + 1, body.height);
            ending_made(node, body.tree.ended, height, body.rest)
        }
        Err(stop) => Err(stop),
    }
}

// ---- expressions that nothing goes on with

/// Any expression.
pub fn whole_below<'a, R: ReadExp<'a>>(
    bump: &'a Bump,
    read: R,
    inner: u32,
    tokens: &'a [Token],
) -> Result<Found<'a, &'a Exp<'a>>, Stop>
    requires law { R.reads read inner }
    requires room { inner < 1000 }
    ensures exact { Gives tree_found result (whole_at (phrases (read_at inner)) (suc inner) tokens.now) }
    ensures low { IfOk result (λ x. x.height ≤ inner + 1) }
{
    whole_typed(last_below(bump, read, inner, tokens))
}

/// Operands and operators of a level or tighter.
pub fn operands_below<'a, R: ReadExp<'a>>(
    bump: &'a Bump,
    read: R,
    inner: u32,
    least: u8,
    tokens: &'a [Token],
) -> Result<Found<'a, &'a Exp<'a>>, Stop>
    requires law { R.reads read inner }
    requires room { inner < 1000 }
    ensures exact { Gives tree_found result (operands_at (phrases (read_at inner)) (suc inner) least tokens.now) }
    ensures low { IfOk result (λ x. x.height ≤ inner + 1) }
{
    whole_chain(least, chain_below(bump, read, inner, least, tokens))
}

/// The right operand of an operator.
pub fn operand_below<'a, R: ReadExp<'a>>(
    bump: &'a Bump,
    read: R,
    inner: u32,
    least: u8,
    tokens: &'a [Token],
) -> Result<Found<'a, &'a Exp<'a>>, Stop>
    requires law { R.reads read inner }
    requires room { inner < 1000 }
    ensures exact { Gives tree_found result (operand_at (phrases (read_at inner)) (suc inner) least tokens.now) }
    ensures low { IfOk result (λ x. x.height ≤ inner + 1) }
{
    if begins_exp_operand(tokens) {
        whole_chain(least, chain_below(bump, read, inner, least, tokens))
    } else {
        whole_typed(big_below(bump, read, inner, tokens))
    }
}

/// The new value of an update.
pub fn right_below<'a, R: ReadExp<'a>>(
    bump: &'a Bump,
    read: R,
    inner: u32,
    tokens: &'a [Token],
) -> Result<Found<'a, &'a Exp<'a>>, Stop>
    requires law { R.reads read inner }
    requires room { inner < 1000 }
    ensures exact { Gives tree_found result (right_at (phrases (read_at inner)) (suc inner) tokens.now) }
    ensures low { IfOk result (λ x. x.height ≤ inner + 1) }
{
    if begins_exp_operand(tokens) {
        whole_range(range_below(bump, read, inner, tokens))
    } else {
        whole_typed(big_below(bump, read, inner, tokens))
    }
}

// What was read, where nothing goes on with operands and operators of a level or tighter.
#[tactic(auto, unfolding(fut_grammar::specs::Phrases::far_at, fut_grammar::specs::Phrases::ended))]
fn whole_chain<'a>(
    least: u8,
    read: Result<Found<'a, Ending<'a>>, Stop>,
) -> Result<Found<'a, &'a Exp<'a>>, Stop>
    ensures exact { (what : Read PlainEnding) → Gives ending_found read.entry what → Gives tree_found result (far_at (operands {k = least}) what) }
    ensures low { (k : ℕ) → IfOk read.entry (λ x. x.height ≤ k) → IfOk result (λ x. x.height ≤ k) }
{
    match read {
        Ok(found) => closed(found, goes_on_chain(least, found.tree.ended, found.rest)),
        Err(stop) => Err(stop),
    }
}

// The same, where nothing goes on with a range.
#[tactic(auto, unfolding(fut_grammar::specs::Phrases::far_at, fut_grammar::specs::Phrases::ended))]
fn whole_range<'a>(
    read: Result<Found<'a, Ending<'a>>, Stop>,
) -> Result<Found<'a, &'a Exp<'a>>, Stop>
    ensures exact { (what : Read PlainEnding) → Gives ending_found read.entry what → Gives tree_found result (far_at near_right what) }
    ensures low { (k : ℕ) → IfOk read.entry (λ x. x.height ≤ k) → IfOk result (λ x. x.height ≤ k) }
{
    match read {
        Ok(found) => closed(found, goes_on_range(found.tree.ended, found.rest)),
        Err(stop) => Err(stop),
    }
}

/// The same, where nothing goes on with any expression.
#[tactic(auto, unfolding(fut_grammar::specs::Phrases::far_at, fut_grammar::specs::Phrases::ended))]
pub fn whole_typed<'a>(
    read: Result<Found<'a, Ending<'a>>, Stop>,
) -> Result<Found<'a, &'a Exp<'a>>, Stop>
    ensures exact { (what : Read PlainEnding) → Gives ending_found read.entry what → Gives tree_found result (far_at whole what) }
    ensures low { (k : ℕ) → IfOk read.entry (λ x. x.height ≤ k) → IfOk result (λ x. x.height ≤ k) }
{
    match read {
        Ok(found) => closed(found, goes_on_typed(found.tree.ended, found.rest)),
        Err(stop) => Err(stop),
    }
}

// What was read, where nothing goes on with it.
fn closed<'a>(found: Found<'a, Ending<'a>>, goes_on: bool) -> Result<Found<'a, &'a Exp<'a>>, Stop>
    ensures exact { Gives {Y = SourceExp × ℕ × List Token} tree_found result (if goes_on then Err (refuse found.entry.rest.now) else Ok (found.entry.tree.exp.now, found.entry.height, found.entry.rest.now)) }
    ensures same { IfOk result (λ x. x.height ≡ found.entry.height) }
{
    if goes_on {
        return Err(Stop::Fault(refused(found.rest)));
    }
    Ok(Found {
        tree: found.tree.exp,
        height: found.height,
        rest: found.rest,
    })
}
