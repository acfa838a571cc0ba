// What stands first in parentheses: any expression, or the operand of a section.
ghost use Rattle.std.specs.Prelude.{◌≡◌, ◌≤◌, ◌<◌, ◌+◌, suc, true, IfOk, List, ℕ};
ghost use Rattle.fut_ast.specs.Behind.{begins, begins_operand};
ghost use Rattle.fut_ast.specs.Operators.{fitting_from, level, section_at};
ghost use Rattle.fut_ast.specs.Sorts.{Inside, SourceExp};
ghost use Rattle.parse_atoms.specs.Tie.{inside_found};
ghost use Rattle.parse_exps.specs.Steps.{inside_alone};
ghost use Rattle.fut_grammar.specs.Phrases.{by_operator, inside_at, inside_operand, inside_whole, phrases, read_at, typed_behind};
ghost use Rattle.fut_grammar.specs.Reading.{Gives, Read};
ghost use Rattle.parse_types.specs.Found.{tree_found};
ghost use Rattle.fut_token.specs.declared.token.Token.{Token};

use crate::operators::graded;
use crate::typed::all_behind;
use crate::wholes::{big_below, whole_typed};
use bumpalo::Bump;
use fut_ast::{Ended, Spot};
use fut_grammar::Stop;
use fut_token::{Fixed, Token};
use fut_tree::Exp;
use parse_atoms::tie::{Ending, FirstInside, ReadExp};
use parse_nodes::exp_tokens::{
    begins_exp_operand, goes_on_chain, left_level_of, level_of, next_section, past_operator,
    takes_left,
};
use parse_types::found::Found;
use parse_types::tokens::{next_spot, refused, rest_of};

/// What stands first in parentheses.
pub fn inside_below<'a, R: ReadExp<'a>>(
    bump: &'a Bump,
    read: R,
    inner: u32,
    tokens: &'a [Token],
) -> Result<Found<'a, FirstInside<'a>>, Stop>
    requires begun { begins Inside tokens.now ≡ true }
    requires law { R.reads read inner }
    requires room { inner < 1000 }
    ensures exact { Gives inside_found result (inside_at (phrases (read_at inner)) (suc inner) tokens.now) }
    ensures low { IfOk result (λ x. x.height ≤ inner + 1) }
{
    if !begins_exp_operand(tokens) {
        return whole_inside(whole_typed(big_below(bump, read, inner, tokens)));
    }
    match graded(bump, read, inner, true, 1, tokens) {
        Ok(first) => inside_behind(bump, read, inner, next_spot(tokens), first),
        Err(stop) => Err(stop),
    }
}

// Any expression is first in parentheses as it is.
fn whole_inside<'a>(
    read: Result<Found<'a, &'a Exp<'a>>, Stop>,
) -> Result<Found<'a, FirstInside<'a>>, Stop>
    ensures exact { (what : Read SourceExp) → Gives tree_found read.entry what → Gives inside_found result (inside_alone what) }
    ensures low { (k : ℕ) → IfOk read.entry (λ x. x.height ≤ k) → IfOk result (λ x. x.height ≤ k) }
{
    match read {
        Ok(found) => Ok(Found {
            tree: FirstInside {
                exp: found.tree,
                section: None,
            },
            height: found.height,
            rest: found.rest,
        }),
        Err(stop) => Err(stop),
    }
}

// Behind the operands.
fn inside_behind<'a, R: ReadExp<'a>>(
    bump: &'a Bump,
    read: R,
    inner: u32,
    at: Spot,
    first: Found<'a, Ending<'a>>,
) -> Result<Found<'a, FirstInside<'a>>, Stop>
    requires law { R.reads read inner }
    requires room { (inner < 1000) × (first.height ≤ inner + 1) }
    ensures exact { (start : List Token) → begins_operand start ≡ true → Gives inside_found result (by_operator (fitting_from first.entry.tree.ended (section_at first.entry.rest.now)) (inside_whole (phrases (read_at inner)) (suc inner) start (typed_behind (phrases (read_at inner)) (suc inner) at (first.entry.tree.exp.now, first.entry.tree.ended) first.entry.height first.entry.rest.now)) (λ o. inside_operand (phrases (read_at inner)) (suc inner) o (first.entry.tree.exp.now, first.entry.tree.ended) first.entry.height start first.entry.rest.now)) }
    ensures low { IfOk result (λ x. x.height ≤ inner + 1) }
{
    match fitting_section(first.tree.ended, first.rest) {
        None => whole_inside(whole_typed(all_behind(bump, read, inner, at, first))),
        Some(fixed) => inside_section(fixed, first),
    }
}

// The operator of a section that stands next, if it may have on its left what ended so.
fn fitting_section(ended: Ended, tokens: &[Token]) -> Option<Fixed>
    ensures { result ≡ fitting_from ended (section_at tokens.now) }
{
    match next_section(tokens) {
        Some(fixed) => {
            if takes_left(ended, left_level_of(fixed)) {
                Some(fixed)
            } else {
                None
            }
        }
        None => None,
    }
}

// ---- what has no expressions in it

// The operand of a section, where nothing that binds tighter than its operator goes on with it.
fn inside_section<'a>(
    fixed: Fixed,
    first: Found<'a, Ending<'a>>,
) -> Result<Found<'a, FirstInside<'a>>, Stop>
    ensures exact { (inner : ℕ) (start : List Token) → begins_operand start ≡ true → Gives inside_found result (inside_operand (phrases (read_at inner)) (suc inner) fixed (first.entry.tree.exp.now, first.entry.tree.ended) first.entry.height start first.entry.rest.now) }
    ensures same { IfOk result (λ x. x.height ≡ first.entry.height) }
{
    let least = tighter_than(fixed);
    if !takes_left(first.tree.ended, least) {
        return Err(Stop::Fault(refused(past_operator(fixed, rest_of(first.rest)))));
    }
    if goes_on_chain(least, first.tree.ended, first.rest) {
        return Err(Stop::Fault(refused(first.rest)));
    }
    Ok(Found {
        tree: FirstInside {
            exp: first.tree.exp,
            section: Some(fixed),
        },
        height: first.height,
        rest: first.rest,
    })
}

// The level of what binds tighter than an operator.
fn tighter_than(fixed: Fixed) -> u8
    ensures { result ≡ suc (level fixed) }
{
    level_of(fixed) + 1
}
