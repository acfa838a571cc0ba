// Forms that begin with a keyword and reach far: if, functions, loops.
ghost use Rattle.std.specs.Prelude.{◌≡◌, true, ◌≤◌, ◌<◌, ◌+◌, ◌&&◌, suc, IfOk};
ghost use Rattle.fut_ast.specs.ExpRows.{count, each, function, if_else, loop, while};
ghost use Rattle.fut_ast.specs.Rows.{of_exp};
ghost use Rattle.fut_ast.specs.Behind.{passes};
ghost use Rattle.fut_ast.specs.Parts.{no_counter};
ghost use Rattle.fut_ast.specs.Tokens.{is_word, starts, tail};
ghost use Rattle.fut_ast.specs.Sorts.{Loop_item};
ghost use Rattle.fut_grammar.specs.Phrases.{form_at, items, phrases, read_at};
ghost use Rattle.fut_grammar.specs.Reading.{Gives, row_at, start_at};
ghost use Rattle.parse_atoms.specs.Tie.{ending_found};
ghost use Rattle.parse_types.specs.Found.{found_as};
ghost use Rattle.fut_tree.specs.Exps.{loop_of};

use crate::made::{ending_made, loop_made};
use crate::tie::{Ending, ExpSort, ReadExp, read_behind};
use bumpalo::Bump;
use fut_grammar::Stop;
use fut_token::{Fixed, Token};
use fut_tree::{Exp, LoopForm, Pat};
use parse_nodes::exp_nodes::{choice, function};
use parse_nodes::loops::{for_in_loop, for_loop, looping, while_loop};
use parse_nodes::pat_exps::{exp_of_pattern, has_wildcard};
use parse_types::found::Found;
use parse_types::params::{maybe_applied_type, several_patterns, size_names};
use parse_types::patterns::whole_pattern;
use parse_types::tokens::{
    greater, next_spot, next_word, refused, rest_of, starts_with, starts_with_word, take,
};

/// A form that begins with a keyword other than `let`.
pub fn form_below<'a, R: ReadExp<'a>>(
    bump: &'a Bump,
    read: R,
    inner: u32,
    tokens: &'a [Token],
) -> Result<Found<'a, Ending<'a>>, Stop>
    requires law { R.reads read inner }
    requires room { inner < 1000 }
    ensures exact { Gives ending_found result (form_at (phrases (read_at inner)) (suc inner) tokens.now) }
    ensures low { IfOk result (λ x. x.height ≤ inner + 1) }
{
    if starts_with(tokens, Fixed::KeyIf) {
        if_else(bump, read, inner, tokens)
    } else if starts_with(tokens, Fixed::Backslash) {
        function_form(bump, read, inner, tokens)
    } else {
        loop_form(bump, read, inner, tokens)
    }
}

fn if_else<'a, R: ReadExp<'a>>(
    bump: &'a Bump,
    read: R,
    inner: u32,
    tokens: &'a [Token],
) -> Result<Found<'a, Ending<'a>>, Stop>
    requires first { starts Fixed.KeyIf tokens.now ≡ true }
    requires law { R.reads read inner }
    requires room { inner < 1000 }
    ensures exact { Gives ending_found result (row_at (phrases (read_at inner)) (of_exp if_else) tokens.now) }
    ensures low { IfOk result (λ x. x.height ≤ inner + 1) }
{
    let place = next_spot(tokens).place;
    let test = match read.read(inner, ExpSort::Whole, rest_of(tokens)) {
        Ok(test) => test,
        Err(stop) => return Err(stop),
    };
    let yes = match read_behind(read, inner, Fixed::KeyThen, ExpSort::Whole, test.rest) {
        Ok(yes) => yes,
        Err(stop) => return Err(stop),
    };
    match read_behind(read, inner, Fixed::KeyElse, ExpSort::Last, yes.rest) {
        Ok(no) => {
            let node = choice(bump, place, place, test.tree.exp, yes.tree.exp, no.tree.exp);
            let height = greater(greater(test.height, yes.height), no.height);
            ending_made(node, no.tree.ended, height + 1, no.rest)
        }
        Err(stop) => Err(stop),
    }
}

fn function_form<'a, R: ReadExp<'a>>(
    bump: &'a Bump,
    read: R,
    inner: u32,
    tokens: &'a [Token],
) -> Result<Found<'a, Ending<'a>>, Stop>
    requires first { starts Fixed.Backslash tokens.now ≡ true }
    requires law { R.reads read inner }
    requires room { inner < 1000 }
    ensures exact { Gives ending_found result (row_at (phrases (read_at inner)) (of_exp function) tokens.now) }
    ensures low { IfOk result (λ x. x.height ≤ inner + 1) }
{
    let place = next_spot(tokens).place;
    let params = match several_patterns(bump, inner, 0, rest_of(tokens)) {
        Ok(params) => params,
        Err(stop) => return Err(stop),
    };
    let ty = match maybe_applied_type(bump, inner, params.height, params.rest) {
        Ok(ty) => ty,
        Err(stop) => return Err(stop),
    };
    match read_behind(read, inner, Fixed::Arrow, ExpSort::Last, ty.rest) {
        Ok(body) => {
            let node = function(bump, place, params.tree, ty.tree, body.tree.exp);
            let height = greater(ty.height, body.height);
            ending_made(node, body.tree.ended, height + 1, body.rest)
        }
        Err(stop) => Err(stop),
    }
}

fn loop_form<'a, R: ReadExp<'a>>(
    bump: &'a Bump,
    read: R,
    inner: u32,
    tokens: &'a [Token],
) -> Result<Found<'a, Ending<'a>>, Stop>
    requires law { R.reads read inner }
    requires room { inner < 1000 }
    ensures exact { Gives ending_found result (row_at (phrases (read_at inner)) (of_exp loop) tokens.now) }
    ensures low { IfOk result (λ x. x.height ≤ inner + 1) }
{
    let place = next_spot(tokens).place;
    let behind = match take(tokens, Fixed::KeyLoop) {
        Ok(behind) => behind,
        Err(stop) => return Err(stop),
    };
    let sizes = match size_names(bump, inner, behind) {
        Ok(sizes) => sizes,
        Err(stop) => return Err(stop),
    };
    let start = match loop_start(bump, read, inner, sizes.height, sizes.rest) {
        Ok(start) => start,
        Err(stop) => return Err(stop),
    };
    let over = match loop_item(bump, read, inner, start.rest) {
        Ok(over) => over,
        Err(stop) => return Err(stop),
    };
    match read_behind(read, inner, Fixed::KeyDo, ExpSort::Last, over.rest) {
        Ok(body) => {
            let node = looping(
                bump,
                place,
                sizes.tree,
                start.tree.pat,
                start.tree.value,
                over.tree,
                body.tree.exp,
            );
            let height = greater(greater(start.height, over.height), body.height);
            ending_made(node, body.tree.ended, height + 1, body.rest)
        }
        Err(stop) => Err(stop),
    }
}

// The pattern of a loop and its first value.
#[derive(Clone, Copy)]
struct Start<'a> {
    pat: &'a Pat<'a>,
    value: &'a Exp<'a>,
}

fn loop_start<'a, R: ReadExp<'a>>(
    bump: &'a Bump,
    read: R,
    inner: u32,
    first_height: u32,
    tokens: &'a [Token],
) -> Result<Found<'a, Start<'a>>, Stop>
    requires law { R.reads read inner }
    requires room { (inner < 1000) × (first_height ≤ inner) }
    ensures exact { Gives (found_as (λ t. (t.pat.now, t.value.now))) result (start_at (phrases (read_at inner)) first_height tokens.now) }
    ensures low { IfOk result (λ x. x.height ≤ inner) }
{
    let pat = match whole_pattern(bump, inner, tokens) {
        Ok(pat) => pat,
        Err(stop) => return Err(stop),
    };
    let height = greater(first_height, pat.height);
    if starts_with(pat.rest, Fixed::Equal) {
        return match read.read(inner, ExpSort::Whole, rest_of(pat.rest)) {
            Ok(value) => Ok(Found {
                tree: Start {
                    pat: pat.tree,
                    value: value.tree.exp,
                },
                height: greater(height, value.height),
                rest: value.rest,
            }),
            Err(stop) => Err(stop),
        };
    }
    if has_wildcard(pat.tree) {
        return Err(Stop::Fault(refused(pat.rest)));
    }
    match exp_of_pattern(bump, pat.tree) {
        Ok(value) => Ok(Found {
            tree: Start {
                pat: pat.tree,
                value,
            },
            height,
            rest: pat.rest,
        }),
        Err(_) => Err(Stop::Memory),
    }
}

// Whether a name and a sign stand next, behind which a loop's bound stands.
fn begins_count(tokens: &[Token]) -> bool
    ensures { result ≡ (is_word tokens.now && starts Fixed.Less (tail tokens.now)) }
{
    starts_with_word(tokens) && starts_with(rest_of(tokens), Fixed::Less)
}

fn loop_item<'a, R: ReadExp<'a>>(
    bump: &'a Bump,
    read: R,
    inner: u32,
    tokens: &'a [Token],
) -> Result<Found<'a, &'a LoopForm<'a>>, Stop>
    requires law { R.reads read inner }
    requires room { inner < 1000 }
    ensures exact { Gives (found_as (λ t. loop_of t.now)) result (phrases (read_at inner) Loop_item tokens.now) }
    ensures low { IfOk result (λ x. x.height ≤ inner) }
{
    if starts_with(tokens, Fixed::KeyWhile) {
        as_long(bump, read, inner, tokens)
    } else if !starts_with(tokens, Fixed::KeyFor) {
        Err(Stop::Fault(refused(tokens)))
    } else if begins_count(rest_of(tokens)) {
        counted(bump, read, inner, tokens)
    } else {
        over_elements(bump, read, inner, tokens)
    }
}

fn as_long<'a, R: ReadExp<'a>>(
    bump: &'a Bump,
    read: R,
    inner: u32,
    tokens: &'a [Token],
) -> Result<Found<'a, &'a LoopForm<'a>>, Stop>
    requires first { starts Fixed.KeyWhile tokens.now ≡ true }
    requires law { R.reads read inner }
    requires room { inner < 1000 }
    ensures exact { Gives (found_as (λ t. loop_of t.now)) result (row_at (items (read_at inner)) (of_exp while) tokens.now) }
    ensures low { IfOk result (λ x. x.height ≤ inner) }
{
    match read.read(inner, ExpSort::Whole, rest_of(tokens)) {
        Ok(test) => loop_made(while_loop(bump, test.tree.exp), test.height, test.rest),
        Err(stop) => Err(stop),
    }
}

fn counted<'a, R: ReadExp<'a>>(
    bump: &'a Bump,
    read: R,
    inner: u32,
    tokens: &'a [Token],
) -> Result<Found<'a, &'a LoopForm<'a>>, Stop>
    requires first { starts Fixed.KeyFor tokens.now ≡ true }
    requires counter { (is_word (tail tokens.now) && starts Fixed.Less (tail (tail tokens.now))) ≡ true }
    requires law { R.reads read inner }
    requires room { inner < 1000 }
    ensures exact { Gives (found_as (λ t. loop_of t.now)) result (row_at (items (read_at inner)) (of_exp count) tokens.now) }
    ensures low { IfOk result (λ x. x.height ≤ inner) }
{
    let behind = rest_of(tokens);
    let name = next_word(behind);
    match read.read(inner, ExpSort::Whole, rest_of(rest_of(behind))) {
        Ok(bound) => loop_made(
            for_loop(bump, name, bound.tree.exp),
            bound.height,
            bound.rest,
        ),
        Err(stop) => Err(stop),
    }
}

fn over_elements<'a, R: ReadExp<'a>>(
    bump: &'a Bump,
    read: R,
    inner: u32,
    tokens: &'a [Token],
) -> Result<Found<'a, &'a LoopForm<'a>>, Stop>
    requires first { starts Fixed.KeyFor tokens.now ≡ true }
    requires no_counter { passes no_counter (tail tokens.now) ≡ true }
    requires law { R.reads read inner }
    requires room { inner < 1000 }
    ensures exact { Gives (found_as (λ t. loop_of t.now)) result (row_at (items (read_at inner)) (of_exp each) tokens.now) }
    ensures low { IfOk result (λ x. x.height ≤ inner) }
{
    let pat = match whole_pattern(bump, inner, rest_of(tokens)) {
        Ok(pat) => pat,
        Err(stop) => return Err(stop),
    };
    match read_behind(read, inner, Fixed::KeyIn, ExpSort::Whole, pat.rest) {
        Ok(array) => {
            let node = for_in_loop(bump, pat.tree, array.tree.exp);
            loop_made(node, greater(pat.height, array.height), array.rest)
        }
        Err(stop) => Err(stop),
    }
}
