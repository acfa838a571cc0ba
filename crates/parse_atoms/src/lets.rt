// Rows of lets.
ghost use Rattle.std.specs.Prelude.{◌≡◌, ◌≤◌, ◌<◌, ◌||◌, suc, length, false, true, IfOk};
ghost use Rattle.fut_ast.specs.Behind.{begins_pat, is_function_let, is_update_let};
ghost use Rattle.fut_ast.specs.ExpRows.{let_function, let_pattern, let_update};
ghost use Rattle.fut_ast.specs.Rows.{of_exp};
ghost use Rattle.fut_ast.specs.Sorts.{Let_item};
ghost use Rattle.fut_ast.specs.Tokens.{starts, tail};
ghost use Rattle.parse_atoms.specs.Parts.{behind_let, let_of_row};
ghost use Rattle.parse_types.specs.Found.{found_as};
ghost use Rattle.fut_grammar.specs.Phrases.{items, phrases, read_at, row_of_lets};
ghost use Rattle.fut_grammar.specs.Reading.{Gives, row_at};
ghost use Rattle.fut_tree.specs.Exps.{bind_of, binds_of};

use crate::made::bind_made;
use crate::tie::{ExpSort, ReadExp, read_behind};
use crate::written::written_list;
use bumpalo::Bump;
use bumpalo::collections::into_bump_slice;
use fut_grammar::Stop;
use fut_token::{Fixed, Token};
use fut_tree::Bind;
use parse_nodes::binds::{function_bound, update_bound};
use parse_nodes::exp_tokens::{begins_function, begins_update};
use parse_types::found::Found;
use parse_types::params::{
    heads_inside, maybe_type_inside, several_patterns_inside, size_names_inside,
};
use parse_types::patterns::whole_pattern;
use parse_types::tokens::{
    begins_pattern, greater, next_spot, next_word, refused, rest_of, starts_with, take,
};

/// A row of lets, and the `in` behind it.
pub fn lets<'a, R: ReadExp<'a>>(
    bump: &'a Bump,
    read: R,
    inner: u32,
    tokens: &'a [Token],
) -> Result<Found<'a, &'a [Bind<'a>]>, Stop>
    requires law { R.reads read inner }
    requires room { inner < 1000 }
    ensures exact { Gives (found_as (λ t. binds_of t.now)) result (row_of_lets (phrases (read_at inner)) (suc inner) (length tokens.now) 0 (tail tokens.now)) }
    ensures low { IfOk result (λ x. x.height ≤ inner) }
{
    let mut all = Vec::new(bump);
    let mut height = 0;
    let mut rest = rest_of(tokens);
    'lets: for _turn in 0..tokens.len() {
        let item = match let_of_row(bump, read, inner, rest) {
            Ok(item) => item,
            Err(stop) => return Err(stop),
        };
        match all.push(item.tree.bind) {
            Ok(()) => (),
            Err(_) => return Err(Stop::Memory),
        }
        height = greater(height, item.height);
        rest = item.rest;
        if item.tree.is_last {
            return Ok(Found {
                tree: into_bump_slice(all),
                height,
                rest,
            });
        }
    }
    Err(Stop::Fault(refused(rest)))
}

// One let of a row.
#[derive(Clone, Copy)]
struct RowLet<'a> {
    bind: Bind<'a>,
    is_last: bool,
}

// One let, and the keywords up to the next one or to the body.
fn let_of_row<'a, R: ReadExp<'a>>(
    bump: &'a Bump,
    read: R,
    inner: u32,
    tokens: &'a [Token],
) -> Result<Found<'a, RowLet<'a>>, Stop>
    requires law { R.reads read inner }
    requires room { inner < 1000 }
    ensures exact { Gives (found_as (λ t. (bind_of t.bind, t.is_last))) result (let_of_row (phrases (read_at inner)) tokens.now) }
    ensures low { IfOk result (λ x. x.height ≤ inner) }
{
    let item = match one_let_item(bump, read, inner, tokens) {
        Ok(item) => item,
        Err(stop) => return Err(stop),
    };
    match behind_let(item.rest) {
        Ok((is_last, rest)) => Ok(Found {
            tree: RowLet {
                bind: item.tree,
                is_last,
            },
            height: item.height,
            rest,
        }),
        Err(stop) => Err(stop),
    }
}

// Whether a let is the last of its row, and the tokens behind the keywords that tell.
#[tactic(auto, unfolding(crate::specs::Parts::behind_let))]
fn behind_let(tokens: &[Token]) -> Result<(bool, &[Token]), Stop>
    ensures { Gives (λ x. (x.0, x.1.now)) result (behind_let tokens.now) }
{
    if starts_with(tokens, Fixed::KeyLet) {
        return Ok((false, rest_of(tokens)));
    }
    match take(tokens, Fixed::KeyIn) {
        Ok(rest) => {
            if starts_with(rest, Fixed::KeyLet) {
                Ok((false, rest_of(rest)))
            } else {
                Ok((true, rest))
            }
        }
        Err(stop) => Err(stop),
    }
}

// Whether a let begins here, behind its keyword or another let.
fn begins_let(tokens: &[Token]) -> bool
    ensures { result ≡ (begins_pat tokens.now || starts Fixed.OpenBracket tokens.now) }
{
    begins_pattern(tokens) || starts_with(tokens, Fixed::OpenBracket)
}

fn one_let_item<'a, R: ReadExp<'a>>(
    bump: &'a Bump,
    read: R,
    inner: u32,
    tokens: &'a [Token],
) -> Result<Found<'a, Bind<'a>>, Stop>
    requires law { R.reads read inner }
    requires room { inner < 1000 }
    ensures exact { Gives (found_as bind_of) result (phrases (read_at inner) Let_item tokens.now) }
    ensures low { IfOk result (λ x. x.height ≤ inner) }
{
    if !begins_let(tokens) {
        Err(Stop::Fault(refused(tokens)))
    } else if begins_update(tokens) {
        let_update(bump, read, inner, tokens)
    } else if begins_function(tokens) {
        let_function(bump, read, inner, tokens)
    } else {
        let_pattern(bump, read, inner, tokens)
    }
}

#[tactic(auto, unfolding(fut_grammar::specs::Reading::row_at, fut_grammar::specs::Reading::parts_at, fut_grammar::specs::Reading::has_at, fut_grammar::specs::Reading::sub_at, fut_grammar::specs::Phrases::items, fut_grammar::specs::Reading::expect))]
fn let_pattern<'a, R: ReadExp<'a>>(
    bump: &'a Bump,
    read: R,
    inner: u32,
    tokens: &'a [Token],
) -> Result<Found<'a, Bind<'a>>, Stop>
    requires no_update { is_update_let tokens.now ≡ false }
    requires no_function { is_function_let tokens.now ≡ false }
    requires law { R.reads read inner }
    requires room { inner < 1000 }
    ensures exact { Gives (found_as bind_of) result (row_at (items (read_at inner)) (of_exp let_pattern) tokens.now) }
    ensures low { IfOk result (λ x. x.height ≤ inner) }
{
    let sizes = match size_names_inside(bump, inner, tokens) {
        Ok(sizes) => sizes,
        Err(stop) => return Err(stop),
    };
    let pat = match whole_pattern(bump, inner, sizes.rest) {
        Ok(pat) => pat,
        Err(stop) => return Err(stop),
    };
    match read_behind(read, inner, Fixed::Equal, ExpSort::Whole, pat.rest) {
        Ok(value) => Ok(Found {
            tree: Bind {
                sizes: sizes.tree,
                pat: pat.tree,
                is_function: false,
                heads: &[],
                value: value.tree.exp,
            },
            height: greater(greater(sizes.height, pat.height), value.height),
            rest: value.rest,
        }),
        Err(stop) => Err(stop),
    }
}

fn let_function<'a, R: ReadExp<'a>>(
    bump: &'a Bump,
    read: R,
    inner: u32,
    tokens: &'a [Token],
) -> Result<Found<'a, Bind<'a>>, Stop>
    requires form { is_function_let tokens.now ≡ true }
    requires law { R.reads read inner }
    requires room { inner < 1000 }
    ensures exact { Gives (found_as bind_of) result (row_at (items (read_at inner)) (of_exp let_function) tokens.now) }
    ensures low { IfOk result (λ x. x.height ≤ inner) }
{
    let place = next_spot(tokens).place;
    let name = next_word(tokens);
    let heads = match heads_inside(bump, inner, rest_of(tokens)) {
        Ok(heads) => heads,
        Err(stop) => return Err(stop),
    };
    let params = match several_patterns_inside(bump, inner, heads.height, heads.rest) {
        Ok(params) => params,
        Err(stop) => return Err(stop),
    };
    let ty = match maybe_type_inside(bump, inner, params.height, params.rest) {
        Ok(ty) => ty,
        Err(stop) => return Err(stop),
    };
    match read_behind(read, inner, Fixed::Equal, ExpSort::Whole, ty.rest) {
        Ok(body) => bind_made(
            function_bound(
                bump,
                place,
                name,
                heads.tree,
                params.tree,
                ty.tree,
                body.tree.exp,
            ),
            greater(ty.height, body.height),
            body.rest,
        ),
        Err(stop) => Err(stop),
    }
}

fn let_update<'a, R: ReadExp<'a>>(
    bump: &'a Bump,
    read: R,
    inner: u32,
    tokens: &'a [Token],
) -> Result<Found<'a, Bind<'a>>, Stop>
    requires form { is_update_let tokens.now ≡ true }
    requires law { R.reads read inner }
    requires room { inner < 1000 }
    ensures exact { Gives (found_as bind_of) result (row_at (items (read_at inner)) (of_exp let_update) tokens.now) }
    ensures low { IfOk result (λ x. x.height ≤ inner) }
{
    let place = next_spot(tokens).place;
    let name = next_word(tokens);
    let behind = rest_of(tokens);
    let mark = next_spot(behind).place;
    let indices = match written_list(bump, read, inner, 0, rest_of(behind)) {
        Ok(indices) => indices,
        Err(stop) => return Err(stop),
    };
    let rest = match take(indices.rest, Fixed::CloseBracket) {
        Ok(rest) => rest,
        Err(stop) => return Err(stop),
    };
    match read_behind(read, inner, Fixed::Equal, ExpSort::Whole, rest) {
        Ok(value) => bind_made(
            update_bound(bump, place, mark, name, indices.tree, value.tree.exp),
            greater(indices.height, value.height),
            value.rest,
        ),
        Err(stop) => Err(stop),
    }
}
