// Updates of arrays and records.
ghost use Rattle.std.specs.Prelude.{◌≡◌, ◌≤◌, ◌<◌, ◌+◌, true, IfOk, Ok};
ghost use Rattle.fut_ast.specs.ExpRows.{further_replaced, last_replaced};
ghost use Rattle.fut_ast.specs.Rows.{suffix_parts, suffix_tree, with_index};
ghost use Rattle.fut_ast.specs.Sorts.{Path, Updated};
ghost use Rattle.fut_ast.specs.Tokens.{spot_of, starts, tail};
ghost use Rattle.parse_atoms.specs.Tie.{ending_found, replacing_found};
ghost use Rattle.parse_exps.specs.Replaced.{replaced_at, unraised_at};
ghost use Rattle.fut_grammar.specs.Phrases.{phrases, read_at, with_suffix};
ghost use Rattle.fut_grammar.specs.Reading.{Gives, parts_at};
ghost use Rattle.fut_token.specs.declared.token.Fixed.TheVariants as fixed;
ghost use Rattle.fut_tree.specs.Names.{names};

use bumpalo::Bump;
use fut_ast::{Ended, Spot, What};
use fut_grammar::Stop;
use fut_scalar::NoMemory;
use fut_token::{Fixed, Token};
use parse_atoms::made::ending_made;
use parse_atoms::suffixes::ReadSuffix;
use parse_atoms::tie::{AnyExp, Ending, ExpSort, ReadExp, Replacement, read_behind};
use parse_atoms::written::written_list;
use parse_nodes::binds::path_behind;
use parse_nodes::exp_nodes::updated;
use parse_nodes::exp_tokens::goes_on_range;
use parse_nodes::replacing::with_field_replaced;
use parse_types::found::Found;
use parse_types::tokens::{
    greater, next_spot, rest_of, starts_with, take, take_word, without_form,
};

/// Updates, of an array or of a record.
#[derive(Clone, Copy)]
pub struct Updates<R> {
    pub read: R,
}

impl<'a, R: ReadExp<'a>> ReadSuffix<'a, Ending<'a>> for Updates<R> {
    ghost sort = { Updated };

    ghost seen = { λ t. (t.exp.now, t.ended) };

    ghost test = { λ ts. starts fixed.KeyWith ts };

    ghost choose = { λ ts. with_suffix ts };

    ghost reads = { λ s d. R.reads s.read d };

    fn begins(self, tokens: &'a [Token]) -> bool {
        starts_with(tokens, Fixed::KeyWith)
    }

    fn goes_on_tighter(self, first: &Found<'a, Ending<'a>>) -> bool {
        goes_on_range(first.tree.ended, first.rest)
    }

    fn longer(
        self,
        bump: &'a Bump,
        inner: u32,
        at: Spot,
        first: &Found<'a, Ending<'a>>,
    ) -> Result<Found<'a, Ending<'a>>, Stop> {
        let behind = rest_of(first.rest);
        if starts_with(behind, Fixed::OpenBracket) {
            return index_replaced(bump, self.read, inner, at, *first);
        }
        let found = replacement(bump, self.read, inner, behind)?;
        let new = found.tree;
        let node = with_field_replaced(bump, at.place, first.tree.exp, new.path, new.exp);
        let height = greater(first.height, found.height);
        ending_made(node, Ended::Update, height + 1, found.rest)
    }
}

fn index_replaced<'a, R: ReadExp<'a>>(
    bump: &'a Bump,
    read: R,
    inner: u32,
    at: Spot,
    first: Found<'a, Ending<'a>>,
) -> Result<Found<'a, Ending<'a>>, Stop>
    requires sign { starts Fixed.KeyWith first.rest.now ≡ true }
    requires bracket { starts Fixed.OpenBracket (tail first.rest.now) ≡ true }
    requires law { R.reads read inner }
    requires room { (inner < 1000) × (first.height ≤ inner) }
    ensures exact { Gives ending_found result (parts_at (phrases (read_at inner)) true Updated (suffix_parts with_index) (suffix_tree with_index at (spot_of first.entry.rest.now) (first.entry.tree.exp.now, first.entry.tree.ended)) first.entry.height first.entry.rest.now) }
    ensures low { IfOk result (λ x. x.height ≤ inner + 1) }
{
    let behind = rest_of(first.rest);
    let mark = next_spot(behind).place;
    let indices = match written_list(bump, read, inner, first.height, rest_of(behind)) {
        Ok(indices) => indices,
        Err(stop) => return Err(stop),
    };
    let rest = match take(indices.rest, Fixed::CloseBracket) {
        Ok(rest) => rest,
        Err(stop) => return Err(stop),
    };
    match read_behind(read, inner, Fixed::Equal, ExpSort::Right, rest) {
        Ok(value) => {
            let node = updated(
                bump,
                at.place,
                mark,
                first.tree.exp,
                indices.tree,
                value.tree.exp,
            );
            let height = greater(indices.height, value.height);
            ending_made(node, Ended::Update, height + 1, value.rest)
        }
        Err(stop) => Err(stop),
    }
}

/// What is replaced in a record, and by what, without a node of its own.
pub fn replacement<'a, R: ReadExp<'a>>(
    bump: &'a Bump,
    read: R,
    inner: u32,
    tokens: &'a [Token],
) -> Result<Found<'a, Replacement<'a>>, Stop>
    requires law { R.reads read inner }
    requires room { inner < 1000 }
    ensures exact { Gives replacing_found result (replaced_at (phrases (read_at inner)) tokens.now) }
    ensures low { IfOk result (λ x. x.height ≤ inner) }
{
    if starts_with(rest_of(tokens), Fixed::Dot) {
        replaced_inside(bump, read, inner, tokens)
    } else {
        replaced_here(bump, read, inner, tokens)
    }
}

fn replaced_here<'a, R: ReadExp<'a>>(
    bump: &'a Bump,
    read: R,
    inner: u32,
    tokens: &'a [Token],
) -> Result<Found<'a, Replacement<'a>>, Stop>
    requires law { R.reads read inner }
    requires room { inner < 1000 }
    ensures exact { Gives replacing_found result (unraised_at (phrases (read_at inner)) last_replaced tokens.now) }
    ensures low { IfOk result (λ x. x.height ≤ inner) }
{
    let (name, rest) = match take_word(tokens) {
        Ok(word) => word,
        Err(stop) => return Err(stop),
    };
    match read_behind(read, inner, Fixed::Equal, ExpSort::Right, rest) {
        Ok(value) => replacement_made(path_behind(bump, name, &[]), value),
        Err(stop) => Err(stop),
    }
}

fn replaced_inside<'a, R: ReadExp<'a>>(
    bump: &'a Bump,
    read: R,
    inner: u32,
    tokens: &'a [Token],
) -> Result<Found<'a, Replacement<'a>>, Stop>
    requires law { R.reads read inner }
    requires room { inner < 1000 }
    ensures exact { Gives replacing_found result (unraised_at (phrases (read_at inner)) further_replaced tokens.now) }
    ensures low { IfOk result (λ x. x.height ≤ inner) }
{
    let (name, rest) = match take_word(tokens) {
        Ok(word) => word,
        Err(stop) => return Err(stop),
    };
    match without_form(What::LocalOpen, rest) {
        Ok(()) => (),
        Err(stop) => return Err(stop),
    }
    match read_behind(read, inner, Fixed::Dot, ExpSort::Replacing, rest) {
        Ok(found) => replacement_made(path_behind(bump, name, found.tree.path), found),
        Err(stop) => Err(stop),
    }
}

// What was read replaces what the names lead to, if there was memory for them.
fn replacement_made<'a>(
    path: Result<&'a [&'a str], NoMemory>,
    found: Found<'a, AnyExp<'a>>,
) -> Result<Found<'a, Replacement<'a>>, Stop>
    ensures exact { (xs : Path) → IfOk path.entry (λ p. names p.now ≡ xs) → Gives replacing_found result (Ok ((xs, found.entry.tree.exp.now), found.entry.height, found.entry.rest.now)) }
    ensures low { IfOk result (λ x. x.height ≡ found.entry.height) }
{
    match path {
        Ok(path) => Ok(Found {
            tree: Replacement {
                path,
                exp: found.tree.exp,
            },
            height: found.height,
            rest: found.rest,
        }),
        Err(_) => Err(Stop::Memory),
    }
}
