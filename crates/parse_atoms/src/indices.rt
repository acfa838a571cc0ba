// The parts of an index, also in a section, where each expression gets a name.
ghost use Rattle.std.specs.Prelude.{◌≡◌, ◌≤◌, ◌<◌, ◌&&◌, ◌||◌, length, true, IfOk};
ghost use Rattle.fut_ast.specs.Behind.{begins_operand};
ghost use Rattle.fut_ast.specs.Sorts.{Index_item, Named_item, Operands};
ghost use Rattle.fut_ast.specs.Tokens.{starts, tail};
ghost use Rattle.parse_atoms.specs.Parts.{any_part_at, indices_found, maybe_found, nameds_found, part_at, reversal_at, upto_found, written_found};
ghost use Rattle.parse_nodes.specs.Parts.{named_of};
ghost use Rattle.fut_grammar.specs.Phrases.{items, phrases, read_at};
ghost use Rattle.fut_grammar.specs.Reading.{Gives, commas_at, optional_at, upto_at};
ghost use Rattle.fut_tree.specs.Exps.{ix_of};

use crate::items::Items;
use crate::tie::{ExpSort, ReadExp};
use bumpalo::Bump;
use fut_ast::What;
use fut_grammar::Stop;
use fut_token::{Fixed, Token};
use fut_tree::{Exp, Ix};
use parse_nodes::exp_tokens::{begins_exp_operand, take_one, without_stride};
use parse_nodes::index_nodes::{NamedPart, Upto, WrittenPart, index_part, named_part};
use parse_nodes::lists::commas_from;
use parse_types::found::Found;
use parse_types::lists::ReadItem;
use parse_types::tokens::{greater, next_spot, refused, rest_of, starts_with, take, without_form};

/// Parts of an index with commas between.
pub fn index_list<'a, R: ReadExp<'a>>(
    bump: &'a Bump,
    read: R,
    inner: u32,
    first_height: u32,
    tokens: &'a [Token],
) -> Result<Found<'a, &'a [Ix<'a>]>, Stop>
    requires law { R.reads read inner }
    requires room { (inner < 1000) × (first_height ≤ inner) }
    ensures exact { Gives indices_found result (commas_at (phrases (read_at inner)) (length tokens.now) Index_item first_height tokens.now) }
    ensures low { IfOk result (λ x. x.height ≤ inner) }
{
    commas_from(bump, Items { read }, inner, first_height, tokens)
}

/// The same in a section.
pub fn named_list<'a, R: ReadExp<'a>>(
    bump: &'a Bump,
    read: R,
    inner: u32,
    tokens: &'a [Token],
) -> Result<Found<'a, &'a [NamedPart<'a>]>, Stop>
    requires law { R.reads read inner }
    requires room { inner < 1000 }
    ensures exact { Gives nameds_found result (commas_at (phrases (read_at inner)) (length tokens.now) Named_item 0 tokens.now) }
    ensures low { IfOk result (λ x. x.height ≤ inner) }
{
    commas_from(bump, Items { read }, inner, 0, tokens)
}

impl<'a, R: ReadExp<'a>> ReadItem<'a, Ix<'a>> for Items<R> {
    ghost sort = { Index_item };

    ghost seen = { ix_of };

    ghost reads = { λ s d. R.reads s.read d × (d < 1000) };

    #[tactic(auto, using(crate::proofs::PartLaws::index_written))]
    fn item(
        self,
        bump: &'a Bump,
        inner: u32,
        tokens: &'a [Token],
    ) -> Result<Found<'a, Ix<'a>>, Stop> {
        let _bump = bump;
        let found = match part(self.read, inner, tokens) {
            Ok(found) => found,
            Err(stop) => return Err(stop),
        };
        Ok(Found {
            tree: index_part(found.tree),
            height: found.height,
            rest: found.rest,
        })
    }
}

impl<'a, R: ReadExp<'a>> ReadItem<'a, NamedPart<'a>> for Items<R> {
    ghost sort = { Named_item };

    ghost seen = { named_of };

    ghost reads = { λ s d. R.reads s.read d × (d < 1000) };

    #[tactic(auto, using(crate::proofs::PartLaws::named_written))]
    fn item(
        self,
        bump: &'a Bump,
        inner: u32,
        tokens: &'a [Token],
    ) -> Result<Found<'a, NamedPart<'a>>, Stop> {
        let found = match part(self.read, inner, tokens) {
            Ok(found) => found,
            Err(stop) => return Err(stop),
        };
        match named_part(bump, found.tree) {
            Ok(tree) => Ok(Found {
                tree,
                height: found.height,
                rest: found.rest,
            }),
            Err(_) => Err(Stop::Memory),
        }
    }
}

// Whether a part of an index begins here.
fn begins_part(tokens: &[Token]) -> bool
    ensures begun { result ≡ (begins_operand tokens.now || starts Fixed.Colon tokens.now) }
    ensures goes_on { result ≡ (starts Fixed.Colon tokens.now || begins_operand tokens.now) }
{
    starts_with(tokens, Fixed::Colon) || begins_exp_operand(tokens)
}

// Whether two colons stand next.
fn begins_reversal(tokens: &[Token]) -> bool
    ensures { result ≡ (starts Fixed.Colon tokens.now && starts Fixed.Colon (tail tokens.now)) }
{
    starts_with(tokens, Fixed::Colon) && starts_with(rest_of(tokens), Fixed::Colon)
}

// A part of an index, as it is written.
fn part<'a, R: ReadExp<'a>>(
    read: R,
    inner: u32,
    tokens: &'a [Token],
) -> Result<Found<'a, WrittenPart<'a>>, Stop>
    requires law { R.reads read inner }
    requires room { inner < 1000 }
    ensures exact { Gives written_found result (part_at (items (read_at inner)) tokens.now) }
    ensures low { IfOk result (λ x. x.height ≤ inner) }
{
    if !begins_part(tokens) {
        return Err(Stop::Fault(refused(tokens)));
    }
    let found = match any_part(read, inner, tokens) {
        Ok(found) => found,
        Err(stop) => return Err(stop),
    };
    if begins_part(found.rest) {
        return Err(Stop::Fault(refused(found.rest)));
    }
    Ok(found)
}

fn any_part<'a, R: ReadExp<'a>>(
    read: R,
    inner: u32,
    tokens: &'a [Token],
) -> Result<Found<'a, WrittenPart<'a>>, Stop>
    requires law { R.reads read inner }
    requires room { inner < 1000 }
    ensures exact { Gives written_found result (any_part_at (items (read_at inner)) tokens.now) }
    ensures low { IfOk result (λ x. x.height ≤ inner) }
{
    let at = next_spot(tokens);
    if begins_reversal(tokens) {
        return match take_reversal(tokens) {
            Ok(rest) => Ok(Found {
                tree: WrittenPart {
                    at,
                    first: None,
                    upto: None,
                },
                height: 0,
                rest,
            }),
            Err(stop) => Err(stop),
        };
    }
    let first = match optional(read, inner, 0, tokens) {
        Ok(first) => first,
        Err(stop) => return Err(stop),
    };
    let upto = match up_to(read, inner, first.height, first.rest) {
        Ok(upto) => upto,
        Err(stop) => return Err(stop),
    };
    match without_form(What::Stride, upto.rest) {
        Ok(()) => Ok(Found {
            tree: WrittenPart {
                at,
                first: first.tree,
                upto: upto.tree,
            },
            height: upto.height,
            rest: upto.rest,
        }),
        Err(stop) => Err(stop),
    }
}

// `::-1`, and the tokens behind it.
fn take_reversal(tokens: &[Token]) -> Result<&[Token], Stop>
    requires begun { (starts Fixed.Colon tokens.now && starts Fixed.Colon (tail tokens.now)) ≡ true }
    ensures { Gives (λ x. x.now) result (reversal_at tokens.now) }
{
    let rest = rest_of(tokens);
    match without_stride(rest) {
        Ok(()) => (),
        Err(stop) => return Err(stop),
    }
    match take(rest_of(rest), Fixed::Minus) {
        Ok(rest) => take_one(rest),
        Err(stop) => Err(stop),
    }
}

// What stands behind the first expression of a part.
fn up_to<'a, R: ReadExp<'a>>(
    read: R,
    inner: u32,
    first_height: u32,
    tokens: &'a [Token],
) -> Result<Found<'a, Option<Upto<'a>>>, Stop>
    requires law { R.reads read inner }
    requires room { (inner < 1000) × (first_height ≤ inner) }
    ensures exact { Gives upto_found result (upto_at (items (read_at inner)) first_height tokens.now) }
    ensures low { IfOk result (λ x. x.height ≤ inner) }
{
    if !starts_with(tokens, Fixed::Colon) {
        return Ok(Found {
            tree: None,
            height: first_height,
            rest: tokens,
        });
    }
    let colon = next_spot(tokens);
    let end = match optional(read, inner, first_height, rest_of(tokens)) {
        Ok(end) => end,
        Err(stop) => return Err(stop),
    };
    Ok(Found {
        tree: Some(Upto {
            colon,
            end: end.tree,
        }),
        height: end.height,
        rest: end.rest,
    })
}

// Operands, or none.
fn optional<'a, R: ReadExp<'a>>(
    read: R,
    inner: u32,
    first_height: u32,
    tokens: &'a [Token],
) -> Result<Found<'a, Option<&'a Exp<'a>>>, Stop>
    requires law { R.reads read inner }
    requires room { (inner < 1000) × (first_height ≤ inner) }
    ensures exact { Gives maybe_found result (optional_at (items (read_at inner)) (Operands 1) first_height tokens.now) }
    ensures low { IfOk result (λ x. x.height ≤ inner) }
{
    if !begins_exp_operand(tokens) {
        return Ok(Found {
            tree: None,
            height: first_height,
            rest: tokens,
        });
    }
    let end = match read.read(inner, ExpSort::Operands(1), tokens) {
        Ok(end) => end,
        Err(stop) => return Err(stop),
    };
    Ok(Found {
        tree: Some(end.tree.exp),
        height: greater(first_height, end.height),
        rest: end.rest,
    })
}
