// Atoms: expressions of one token or in brackets, with indices and fields behind them.
ghost use Rattle.std.specs.Prelude.{◌≡◌, true, ◌≤◌, ◌<◌, ◌+◌, suc, IfOk};
ghost use Rattle.fut_ast.specs.Behind.{behind_atom};
ghost use Rattle.fut_ast.specs.Rows.{field_digits, field_name, indexed, suffix_parts, suffix_tree};
ghost use Rattle.fut_ast.specs.Sorts.{Atom};
ghost use Rattle.fut_ast.specs.Tokens.{spot_of, starts};
ghost use Rattle.fut_grammar.specs.Phrases.{atom_at, atom_suffix, phrases, read_at};
ghost use Rattle.fut_grammar.specs.Reading.{Gives, parts_at};
ghost use Rattle.parse_types.specs.Found.{tree_found};

use crate::brackets::base_below;
use crate::indices::index_list;
use crate::made::{made, made_before};
use crate::suffixes::{ReadSuffix, suffixes_behind};
use crate::tie::ReadExp;
use bumpalo::Bump;
use fut_ast::{Spot, What};
use fut_grammar::Stop;
use fut_token::{Fixed, Token};
use fut_tree::Exp;
use parse_nodes::exp_nodes::{field, index};
use parse_nodes::exp_tokens::{goes_on_atom, starts_with_tight, take_digits};
use parse_types::found::Found;
use parse_types::tokens::{next_spot, refused, rest_of, starts_with, take_word, without_form};

/// An atom.
#[tactic(auto, unfolding(fut_grammar::specs::Phrases::atom_at))]
pub fn atom_below<'a, R: ReadExp<'a>>(
    bump: &'a Bump,
    read: R,
    inner: u32,
    tokens: &'a [Token],
) -> Result<Found<'a, &'a Exp<'a>>, Stop>
    requires law { R.reads read inner }
    requires room { inner < 1000 }
    ensures exact { Gives tree_found result (atom_at (phrases (read_at inner)) (suc inner) tokens.now) }
    ensures low { IfOk result (λ x. x.height ≤ inner + 1) }
{
    let base = base_below(bump, read, inner, tokens)?;
    suffixes_behind(bump, AtomSuffixes { read }, inner, next_spot(tokens), base)
}

#[derive(Clone, Copy)]
struct AtomSuffixes<R> {
    read: R,
}

impl<'a, R: ReadExp<'a>> ReadSuffix<'a, &'a Exp<'a>> for AtomSuffixes<R> {
    ghost sort = { Atom };

    ghost seen = { λ e. e.now };

    ghost test = { λ ts. behind_atom ts };

    ghost choose = { λ ts. atom_suffix ts };

    ghost reads = { λ s d. R.reads s.read d };

    fn begins(self, tokens: &'a [Token]) -> bool {
        goes_on_atom(tokens)
    }

    fn goes_on_tighter(self, first: &Found<'a, &'a Exp<'a>>) -> bool {
        let _first = first;
        false
    }

    fn longer(
        self,
        bump: &'a Bump,
        inner: u32,
        at: Spot,
        first: &Found<'a, &'a Exp<'a>>,
    ) -> Result<Found<'a, &'a Exp<'a>>, Stop> {
        if starts_with(first.rest, Fixed::OpenBracket) {
            index_behind(bump, self.read, inner, at, *first)
        } else if starts_with(first.rest, Fixed::Dot) {
            field_behind(bump, inner, at, *first)
        } else {
            digits_behind(bump, inner, at, *first)
        }
    }
}

fn index_behind<'a, R: ReadExp<'a>>(
    bump: &'a Bump,
    read: R,
    inner: u32,
    at: Spot,
    first: Found<'a, &'a Exp<'a>>,
) -> Result<Found<'a, &'a Exp<'a>>, Stop>
    requires law { R.reads read inner }
    requires room { (inner < 1000) × (first.height ≤ inner) }
    ensures exact { Gives tree_found result (parts_at (phrases (read_at inner)) true Atom (suffix_parts indexed) (suffix_tree indexed at (spot_of first.entry.rest.now) first.entry.tree.now) first.entry.height first.entry.rest.now) }
    ensures low { IfOk result (λ x. x.height ≤ inner + 1) }
{
    if !starts_with_tight(first.rest) {
        return Err(Stop::Fault(refused(first.rest)));
    }
    let bracket = next_spot(first.rest).place;
    match index_list(bump, read, inner, first.height, rest_of(first.rest)) {
        Ok(parts) => made_before(
            index(bump, at.place, bracket, first.tree, parts.tree),
            parts.height + 1,
            Fixed::CloseBracket,
            parts.rest,
        ),
        Err(stop) => Err(stop),
    }
}

fn field_behind<'a>(
    bump: &'a Bump,
    inner: u32,
    at: Spot,
    first: Found<'a, &'a Exp<'a>>,
) -> Result<Found<'a, &'a Exp<'a>>, Stop>
    requires dot { starts Fixed.Dot first.rest.now ≡ true }
    requires room { (inner < 1000) × (first.height ≤ inner) }
    ensures exact { Gives tree_found result (parts_at (phrases (read_at inner)) true Atom (suffix_parts field_name) (suffix_tree field_name at (spot_of first.entry.rest.now) first.entry.tree.now) first.entry.height first.entry.rest.now) }
    ensures low { IfOk result (λ x. x.height ≤ inner + 1) }
{
    let _inner = inner;
    match without_form(What::LocalOpen, first.rest) {
        Ok(()) => (),
        Err(stop) => return Err(stop),
    }
    match take_word(rest_of(first.rest)) {
        Ok((name, rest)) => made(
            field(bump, at.place, first.tree, name),
            first.height + 1,
            rest,
        ),
        Err(stop) => Err(stop),
    }
}

fn digits_behind<'a>(
    bump: &'a Bump,
    inner: u32,
    at: Spot,
    first: Found<'a, &'a Exp<'a>>,
) -> Result<Found<'a, &'a Exp<'a>>, Stop>
    requires { (inner < 1000) × (first.height ≤ inner) }
    ensures exact { Gives tree_found result (parts_at (phrases (read_at inner)) true Atom (suffix_parts field_digits) (suffix_tree field_digits at (spot_of first.entry.rest.now) first.entry.tree.now) first.entry.height first.entry.rest.now) }
    ensures low { IfOk result (λ x. x.height ≤ inner + 1) }
{
    let _inner = inner;
    match take_digits(first.rest) {
        Ok((name, rest)) => made(
            field(bump, at.place, first.tree, name),
            first.height + 1,
            rest,
        ),
        Err(stop) => Err(stop),
    }
}
