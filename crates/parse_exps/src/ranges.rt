// Ranges.
ghost use Rattle.std.specs.Prelude.{◌≡◌, ◌≤◌, ◌<◌, ◌+◌, suc, true, IfOk};
ghost use Rattle.fut_ast.specs.Rows.{range_by, range_to, suffix_parts, suffix_tree};
ghost use Rattle.fut_ast.specs.Sorts.{Range};
ghost use Rattle.fut_ast.specs.Tokens.{spot_of, starts};
ghost use Rattle.parse_atoms.specs.Tie.{ending_found};
ghost use Rattle.fut_grammar.specs.Phrases.{phrases, range_at, range_behind, read_at};
ghost use Rattle.fut_grammar.specs.Reading.{Gives, parts_at};

use crate::operators::chain_below;
use bumpalo::Bump;
use fut_ast::{Ended, Spot};
use fut_grammar::Stop;
use fut_token::{Fixed, Token};
use parse_atoms::made::ending_made;
use parse_atoms::suffixes::{is_full, too_high};
use parse_atoms::tie::{Ending, ExpSort, ReadExp};
use parse_nodes::exp_nodes::range;
use parse_nodes::exp_tokens::{goes_on_chain, goes_on_to_range, take_end};
use parse_types::found::Found;
use parse_types::tokens::{greater, next_spot, rest_of, starts_with};

/// A range, or what ranges are made of.
#[tactic(auto, unfolding(fut_grammar::specs::Phrases::range_at))]
pub fn range_below<'a, R: ReadExp<'a>>(
    bump: &'a Bump,
    read: R,
    inner: u32,
    tokens: &'a [Token],
) -> Result<Found<'a, Ending<'a>>, Stop>
    requires law { R.reads read inner }
    requires room { inner < 1000 }
    ensures exact { Gives ending_found result (range_at (phrases (read_at inner)) (suc inner) tokens.now) }
    ensures low { IfOk result (λ x. x.height ≤ inner + 1) }
{
    match chain_below(bump, read, inner, 1, tokens) {
        Ok(first) => end_behind(bump, read, inner, next_spot(tokens), first),
        Err(stop) => Err(stop),
    }
}

/// The end of a range behind its first value, or nothing.
pub fn end_behind<'a, R: ReadExp<'a>>(
    bump: &'a Bump,
    read: R,
    inner: u32,
    at: Spot,
    first: Found<'a, Ending<'a>>,
) -> Result<Found<'a, Ending<'a>>, Stop>
    requires law { R.reads read inner }
    requires room { (inner < 1000) × (first.height ≤ inner + 1) }
    ensures exact { Gives ending_found result (range_behind (phrases (read_at inner)) (suc inner) at (first.entry.tree.exp.now, first.entry.tree.ended) first.entry.height first.entry.rest.now) }
    ensures low { IfOk result (λ x. x.height ≤ inner + 1) }
{
    let tokens = first.rest;
    if !goes_on_to_range(tokens) {
        return Ok(first);
    }
    let goes_on = goes_on_chain(1, first.tree.ended, tokens);
    if is_full(goes_on, first.height, inner) {
        return Err(Stop::Fault(too_high(goes_on, tokens)));
    }
    if starts_with(tokens, Fixed::DotDot) {
        end_by(bump, read, inner, at, first)
    } else {
        end_to(bump, read, inner, at, first)
    }
}

fn end_to<'a, R: ReadExp<'a>>(
    bump: &'a Bump,
    read: R,
    inner: u32,
    at: Spot,
    first: Found<'a, Ending<'a>>,
) -> Result<Found<'a, Ending<'a>>, Stop>
    requires law { R.reads read inner }
    requires room { (inner < 1000) × (first.height ≤ inner) }
    ensures exact { Gives ending_found result (parts_at (phrases (read_at inner)) true Range (suffix_parts range_to) (suffix_tree range_to at (spot_of first.entry.rest.now) (first.entry.tree.exp.now, first.entry.tree.ended)) first.entry.height first.entry.rest.now) }
    ensures low { IfOk result (λ x. x.height ≤ inner + 1) }
{
    let mark = next_spot(first.rest).place;
    let (end, rest) = match take_end(first.rest) {
        Ok(end) => end,
        Err(stop) => return Err(stop),
    };
    match read.read(inner, ExpSort::Operands(1), rest) {
        Ok(last) => {
            let node = range(
                bump,
                at.place,
                mark,
                first.tree.exp,
                None,
                end,
                last.tree.exp,
            );
            let height = greater(first.height, last.height);
            ending_made(node, Ended::Range, height + 1, last.rest)
        }
        Err(stop) => Err(stop),
    }
}

fn end_by<'a, R: ReadExp<'a>>(
    bump: &'a Bump,
    read: R,
    inner: u32,
    at: Spot,
    first: Found<'a, Ending<'a>>,
) -> Result<Found<'a, Ending<'a>>, Stop>
    requires sign { starts Fixed.DotDot first.rest.now ≡ true }
    requires law { R.reads read inner }
    requires room { (inner < 1000) × (first.height ≤ inner) }
    ensures exact { Gives ending_found result (parts_at (phrases (read_at inner)) true Range (suffix_parts range_by) (suffix_tree range_by at (spot_of first.entry.rest.now) (first.entry.tree.exp.now, first.entry.tree.ended)) first.entry.height first.entry.rest.now) }
    ensures low { IfOk result (λ x. x.height ≤ inner + 1) }
{
    let mark = next_spot(first.rest).place;
    let next = match read.read(inner, ExpSort::Operands(1), rest_of(first.rest)) {
        Ok(next) => next,
        Err(stop) => return Err(stop),
    };
    let (end, rest) = match take_end(next.rest) {
        Ok(end) => end,
        Err(stop) => return Err(stop),
    };
    match read.read(inner, ExpSort::Operands(1), rest) {
        Ok(last) => {
            let node = range(
                bump,
                at.place,
                mark,
                first.tree.exp,
                Some(next.tree.exp),
                end,
                last.tree.exp,
            );
            let height = greater(greater(first.height, next.height), last.height);
            ending_made(node, Ended::Range, height + 1, last.rest)
        }
        Err(stop) => Err(stop),
    }
}
