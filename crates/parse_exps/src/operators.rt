// Operands, applications and operators.
ghost use Rattle.std.specs.Prelude.{◌≡◌, ◌≤◌, ◌<◌, ◌+◌, suc, true, if◌then◌else◌, [], ◌∷◌, Err, IfOk, List, ℕ};
ghost use Rattle.fut_ast.specs.Behind.{behind_app};
ghost use Rattle.fut_ast.specs.ExpRows.{assertion};
ghost use Rattle.fut_ast.specs.Nodes.{exp_at};
ghost use Rattle.fut_ast.specs.Parts.{Sign, Sub};
ghost use Rattle.fut_token.specs.declared.token.Token.{Token};
ghost use Rattle.fut_ast.specs.Sorts.{SourceExp, Unary};
ghost use Rattle.fut_ast.specs.declared.exp.Form.TheVariants as form;
ghost use Rattle.fut_ast.specs.declared.node.Ended.{Ended};
ghost use Rattle.fut_ast.specs.Tokens.{spot_of, starts};
ghost use Rattle.fut_ast.specs.Rows.{of_exp};
ghost use Rattle.parse_atoms.specs.Tie.{ending_found};
ghost use Rattle.parse_types.specs.Found.{tree_found};
ghost use Rattle.fut_grammar.specs.Phrases.{app_at, chain_at, graded_at, operand_too_deep, operation_at, operators_at, phrases, read_at, unary_at};
ghost use Rattle.fut_grammar.specs.Reading.{Fails, Gives, parts_at, refuse, row_at};

use crate::arguments::Arguments;
use bumpalo::Bump;
use fut_ast::{Ended, Oper, Spot};
use fut_grammar::{Fault, Stop};
use fut_token::{Fixed, Token};
use fut_tree::Exp;
use parse_atoms::atoms::atom_below;
use parse_atoms::made::{ending_made, made};
use parse_atoms::suffixes::{is_full, suffixes_behind};
use parse_atoms::tie::{Ending, ExpSort, ReadExp, read_behind};
use parse_nodes::exp_nodes::{assertion, unary as unary_node};
use parse_nodes::exp_tokens::{
    begins_exp_argument, begins_exp_atom, begins_exp_big, begins_exp_operand, goes_on_app,
    next_between, right_level_of, take_operator,
};
use parse_nodes::joins::join;
use parse_types::found::Found;
use parse_types::tokens::{greater, next_spot, refused, rest_of, starts_with};

/// An operand of an operator.
#[tactic(auto, unfolding(fut_grammar::specs::Phrases::unary_at, fut_grammar::specs::Reading::row_at))]
pub fn unary_below<'a, R: ReadExp<'a>>(
    bump: &'a Bump,
    read: R,
    inner: u32,
    tokens: &'a [Token],
) -> Result<Found<'a, &'a Exp<'a>>, Stop>
    requires law { R.reads read inner }
    requires room { inner < 1000 }
    ensures exact { Gives tree_found result (unary_at (phrases (read_at inner)) (suc inner) tokens.now) }
    ensures low { IfOk result (λ x. x.height ≤ inner + 1) }
{
    if begins_exp_atom(tokens) {
        app_below(bump, read, inner, tokens)
    } else if starts_with(tokens, Fixed::Minus) {
        prefixed(bump, read, inner, Fixed::Minus, Oper::Neg, tokens)
    } else if starts_with(tokens, Fixed::Bang) {
        prefixed(bump, read, inner, Fixed::Bang, Oper::Not, tokens)
    } else {
        asserted(bump, read, inner, tokens)
    }
}

// An operator before its operand.
fn prefixed<'a, R: ReadExp<'a>>(
    bump: &'a Bump,
    read: R,
    inner: u32,
    word: Fixed,
    oper: Oper,
    tokens: &'a [Token],
) -> Result<Found<'a, &'a Exp<'a>>, Stop>
    requires first { starts word tokens.now ≡ true }
    requires law { R.reads read inner }
    requires room { inner < 1000 }
    ensures exact { Gives tree_found result (parts_at (phrases (read_at inner)) true Unary (Sign word ∷ Sub Unary ∷ []) (λ sign e. exp_at (spot_of tokens.now).place (form.Unary oper e)) 0 tokens.now) }
    ensures low { IfOk result (λ x. x.height ≤ inner + 1) }
{
    let _word = word;
    let place = next_spot(tokens).place;
    match read.read(inner, ExpSort::Unary, rest_of(tokens)) {
        Ok(found) => made(
            unary_node(bump, place, oper, found.tree.exp),
            found.height + 1,
            found.rest,
        ),
        Err(stop) => Err(stop),
    }
}

fn asserted<'a, R: ReadExp<'a>>(
    bump: &'a Bump,
    read: R,
    inner: u32,
    tokens: &'a [Token],
) -> Result<Found<'a, &'a Exp<'a>>, Stop>
    requires law { R.reads read inner }
    requires room { inner < 1000 }
    ensures exact { Gives tree_found result (row_at (phrases (read_at inner)) (of_exp assertion) tokens.now) }
    ensures low { IfOk result (λ x. x.height ≤ inner + 1) }
{
    let place = next_spot(tokens).place;
    let test = match read_behind(read, inner, Fixed::KeyAssert, ExpSort::Atom, tokens) {
        Ok(test) => test,
        Err(stop) => return Err(stop),
    };
    if !begins_exp_argument(test.rest) {
        return Err(Stop::Fault(refused(test.rest)));
    }
    match read.read(inner, ExpSort::Atom, test.rest) {
        Ok(value) => made(
            assertion(bump, place, test.tree.exp, value.tree.exp),
            greater(test.height, value.height) + 1,
            value.rest,
        ),
        Err(stop) => Err(stop),
    }
}

/// An atom and its arguments.
#[tactic(auto, unfolding(fut_grammar::specs::Phrases::app_at))]
pub fn app_below<'a, R: ReadExp<'a>>(
    bump: &'a Bump,
    read: R,
    inner: u32,
    tokens: &'a [Token],
) -> Result<Found<'a, &'a Exp<'a>>, Stop>
    requires law { R.reads read inner }
    requires room { inner < 1000 }
    ensures exact { Gives tree_found result (app_at (phrases (read_at inner)) (suc inner) tokens.now) }
    ensures low { IfOk result (λ x. x.height ≤ inner + 1) }
{
    let first = atom_below(bump, read, inner, tokens)?;
    suffixes_behind(bump, Arguments { read }, inner, next_spot(tokens), first)
}

/// Operands and operators of a level or tighter.
#[tactic(auto, unfolding(fut_grammar::specs::Phrases::chain_at))]
pub fn chain_below<'a, R: ReadExp<'a>>(
    bump: &'a Bump,
    read: R,
    inner: u32,
    least: u8,
    tokens: &'a [Token],
) -> Result<Found<'a, Ending<'a>>, Stop>
    requires law { R.reads read inner }
    requires room { inner < 1000 }
    ensures exact { Gives ending_found result (chain_at (phrases (read_at inner)) (suc inner) least tokens.now) }
    ensures low { IfOk result (λ x. x.height ≤ inner + 1) }
{
    graded(bump, read, inner, false, least, tokens)
}

/// The same. Where a section may end the operands, its operator is none of these.
#[tactic(auto, unfolding(fut_grammar::specs::Phrases::graded_at))]
pub fn graded<'a, R: ReadExp<'a>>(
    bump: &'a Bump,
    read: R,
    inner: u32,
    section_ends: bool,
    least: u8,
    tokens: &'a [Token],
) -> Result<Found<'a, Ending<'a>>, Stop>
    requires law { R.reads read inner }
    requires room { inner < 1000 }
    ensures exact { Gives ending_found result (graded_at (phrases (read_at inner)) (suc inner) section_ends least tokens.now) }
    ensures low { IfOk result (λ x. x.height ≤ inner + 1) }
{
    let found = match unary_below(bump, read, inner, tokens) {
        Ok(found) => found,
        Err(stop) => return Err(stop),
    };
    let first = Found {
        tree: Ending {
            exp: found.tree,
            ended: Ended::Operands(None),
        },
        height: found.height,
        rest: found.rest,
    };
    operators_behind(
        bump,
        read,
        inner,
        section_ends,
        least,
        next_spot(tokens),
        first,
    )
}

fn operators_behind<'a, R: ReadExp<'a>>(
    bump: &'a Bump,
    read: R,
    inner: u32,
    section_ends: bool,
    least: u8,
    at: Spot,
    first: Found<'a, Ending<'a>>,
) -> Result<Found<'a, Ending<'a>>, Stop>
    requires law { R.reads read inner }
    requires room { (inner < 1000) × (first.height ≤ inner + 1) }
    ensures exact { Gives ending_found result (operators_at (phrases (read_at inner)) (suc inner) section_ends least at (suc inner) (first.entry.tree.exp.now, first.entry.tree.ended) first.entry.height first.entry.rest.now) }
    ensures low { IfOk result (λ x. x.height ≤ inner + 1) }
{
    let mut found = first;
    let mut turns = inner + 1;
    'behind: while let Some(operator) = next_between(
        section_ends,
        found.tree.ended,
        least,
        found.rest,
    ) {
        if turns == 0 {
            return Err(too_many_operators(operator, found.rest));
        }
        turns -= 1;
        found = match operation(bump, read, inner, least, operator, at, found) {
            Ok(longer) => longer,
            Err(stop) => return Err(stop),
        };
    }
    Ok(found)
}

// Why reading stops where one more operator would make the tree too high.
fn too_many_operators(operator: Fixed, tokens: &[Token]) -> Stop
    ensures { (inner : ℕ) → Fails {Y = (SourceExp × Ended) × ℕ × List Token} result (if behind_app tokens.now then Err (refuse tokens.now) else operand_too_deep (phrases (read_at inner)) (suc inner) operator tokens.now) }
{
    if goes_on_app(tokens) {
        Stop::Fault(refused(tokens))
    } else {
        operand_too_deep(operator, tokens)
    }
}

// Why reading stops at the right operand of an operator behind what is as high as may be.
#[tactic(auto, unfolding(fut_grammar::specs::Phrases::operand_too_deep))]
fn operand_too_deep(operator: Fixed, tokens: &[Token]) -> Stop
    ensures { (inner : ℕ) → Fails {Y = (SourceExp × Ended) × ℕ × List Token} result (operand_too_deep (phrases (read_at inner)) (suc inner) operator tokens.now) }
{
    match take_operator(operator, tokens) {
        Ok((_, rest)) => {
            if begins_exp_operand(rest) || begins_exp_big(rest) {
                Stop::Fault(Fault::TooDeep(rest.len()))
            } else {
                Stop::Fault(refused(rest))
            }
        }
        Err(stop) => stop,
    }
}

fn operation<'a, R: ReadExp<'a>>(
    bump: &'a Bump,
    read: R,
    inner: u32,
    least: u8,
    fixed: Fixed,
    at: Spot,
    first: Found<'a, Ending<'a>>,
) -> Result<Found<'a, Ending<'a>>, Stop>
    requires law { R.reads read inner }
    requires room { (inner < 1000) × (first.height ≤ inner + 1) }
    ensures exact { Gives ending_found result (operation_at (phrases (read_at inner)) (suc inner) least fixed at (first.entry.tree.exp.now, first.entry.tree.ended) first.entry.height first.entry.rest.now) }
    ensures low { IfOk result (λ x. x.height ≤ inner + 1) }
{
    let _least = least;
    let tokens = first.rest;
    if is_full(goes_on_app(tokens), first.height, inner) {
        return Err(too_many_operators(fixed, tokens));
    }
    let ((operator, name), rest) = match take_operator(fixed, tokens) {
        Ok(taken) => taken,
        Err(stop) => return Err(stop),
    };
    match read.read(inner, ExpSort::Operand(right_level_of(fixed)), rest) {
        Ok(second) => {
            let node = join(
                bump,
                fixed,
                at.place,
                operator.place,
                name,
                first.tree.exp,
                second.tree.exp,
            );
            let height = greater(first.height, second.height);
            ending_made(node, Ended::Operands(Some(fixed)), height + 1, second.rest)
        }
        Err(stop) => Err(stop),
    }
}
