// Patterns.
ghost use Rattle.std.specs.Prelude.{Err, ◌≡◌, ◌≤◌, ◌<◌, ◌+◌, suc, true, ℕ, IfOk};
ghost use Rattle.fut_ast.specs.PatRows.{pat_name, short_field, wild};
ghost use Rattle.fut_ast.specs.Rows.{of_pat, pat_type};
ghost use Rattle.fut_ast.specs.Sorts.{Atomic_pat, Pat_field, Tree, Whole_pat};
ghost use Rattle.fut_ast.specs.Tokens.{is_word, starts};
ghost use Rattle.parse_types.specs.Handed.{Law, ReadsPat};
ghost use Rattle.fut_grammar.specs.Phrases.{atomic_pat_at, items, once_at, phrases, read_at};
ghost use Rattle.fut_grammar.specs.Reading.{Gives, Read, row_at};
ghost use Rattle.parse_types.specs.Found.{found_as, tree_found};
ghost use Rattle.parse_types.specs.Made.{goes_on_with, read_as};
ghost use Rattle.parse_types.specs.Signs.{not_before};

use crate::found::{Found, not_before, part};
use crate::lists::{ReadItem, enclosed};
use crate::pat_nodes as node;
use crate::tokens::{
    begins_pattern, greater, next_spot, next_word, refused, rest_of, starts_with, starts_with_word,
};
use crate::types::whole_type;
use bumpalo::Bump;
use bumpalo::collections::into_bump_slice;
use fut_ast::Spot;
use fut_grammar::{Fault, Stop};
use fut_token::{Fixed, Token};
use fut_tree::{Held, Pat, PatField, PatForm};

/// The sorts of patterns that stand in productions.
#[derive(Clone, Copy)]
pub enum PatSort {
    Whole,
    /// Without a type at its top.
    Atomic,
}

/// What is read as a pattern, its height, and the tokens behind it.
pub type PatAnswer<'a> = Result<Found<'a, &'a Pat<'a>>, Stop>;

/// What reads the patterns in a production.
pub trait ReadPat<'a>: Copy {
    /// It reads them up to a height.
    ghost reads: { Self → ℕ → Type 0 };

    /// A pattern.
    fn whole(self, inner: u32, tokens: &'a [Token]) -> PatAnswer<'a>
        requires law { reads self inner }
        ensures exact { Gives tree_found result (read_at inner Whole_pat tokens.now) }
        ensures low { IfOk result (λ x. x.height ≤ inner) };
}

impl<'a, F: Fn(&'a [Token]) -> PatAnswer<'a>> ReadPat<'a> for &F {
    ghost reads = { λ f d. F.IsAlwaysCallable f.now × Law Whole_pat (F.post f.now) d };

    fn whole(self, inner: u32, tokens: &'a [Token]) -> PatAnswer<'a> {
        let _inner = inner;
        self(tokens)
    }
}

/// A pattern of a height up to the depth.
pub fn whole_pattern<'a>(bump: &'a Bump, depth: u32, tokens: &'a [Token]) -> PatAnswer<'a>
    requires { depth ≤ 1000 }
    ensures exact { Gives tree_found result (read_at depth Whole_pat tokens.now) }
    ensures low { IfOk result (λ x. x.height ≤ depth) }
{
    pattern_of(bump, depth, PatSort::Whole, tokens)
}

/// A pattern without a type at its top.
pub fn atomic_pattern<'a>(bump: &'a Bump, depth: u32, tokens: &'a [Token]) -> PatAnswer<'a>
    requires { depth ≤ 1000 }
    ensures exact { Gives tree_found result (read_at depth Atomic_pat tokens.now) }
    ensures low { IfOk result (λ x. x.height ≤ depth) }
{
    pattern_of(bump, depth, PatSort::Atomic, tokens)
}

// A pattern of the sort, of a height up to the depth.
#[cycle(patterns)]
fn pattern_of<'a>(bump: &'a Bump, depth: u32, sort: PatSort, tokens: &'a [Token]) -> PatAnswer<'a>
    requires { depth ≤ 1000 }
    ensures { ReadsPat sort depth tokens.now result }
{
    if depth == 0 {
        return Err(Stop::Fault(nothing_below(sort, tokens)));
    }
    let inner = depth - 1;
    pattern_node(
        bump,
        &|behind: &[Token]| -> PatAnswer<'_>
            requires { inner ≤ 1000 }
            ensures { ReadsPat PatSort.Whole inner behind.now result }
        { pattern_of(bump, inner, PatSort::Whole, behind) },
        inner,
        sort,
        tokens,
    )
}

// Where nothing may stand below, a token that begins a pattern is too deep.
#[tactic(auto, unfolding(fut_grammar::specs::Phrases::read_at, fut_grammar::specs::Reading::refuse_sort))]
fn nothing_below(sort: PatSort, tokens: &[Token]) -> Fault
    ensures { ReadsPat sort 0 tokens.now (Err (Stop.Fault result)) }
{
    let begins = match sort {
        PatSort::Whole | PatSort::Atomic => begins_pattern(tokens),
    };
    if begins {
        Fault::TooDeep(tokens.len())
    } else {
        refused(tokens)
    }
}

fn pattern_node<'a, F: Fn(&'a [Token]) -> PatAnswer<'a>>(
    bump: &'a Bump,
    read: &F,
    inner: u32,
    sort: PatSort,
    tokens: &'a [Token],
) -> PatAnswer<'a>
    requires callable { F.IsAlwaysCallable read.now }
    requires law { Law Whole_pat (F.post read.now) inner }
    requires room { inner < 1000 }
    ensures { ReadsPat sort (suc inner) tokens.now result }
{
    if !begins_pattern(tokens) {
        return Err(Stop::Fault(refused(tokens)));
    }
    let pattern = atomic_below(bump, read, inner, tokens);
    match sort {
        PatSort::Whole => {
            let typed = type_behind(bump, inner, next_spot(tokens), pattern);
            not_before(Fixed::Colon, typed)
        }
        PatSort::Atomic => pattern,
    }
}

#[tactic(auto, unfolding(fut_grammar::specs::Phrases::atomic_pat_at))]
fn atomic_below<'a, R: ReadPat<'a>>(
    bump: &'a Bump,
    read: R,
    inner: u32,
    tokens: &'a [Token],
) -> PatAnswer<'a>
    requires law { R.reads read inner }
    requires room { inner < 1000 }
    ensures exact { Gives tree_found result (atomic_pat_at (phrases (read_at inner)) (suc inner) tokens.now) }
    ensures low { IfOk result (λ x. x.height ≤ inner + 1) }
{
    let place = next_spot(tokens).place;
    if starts_with_word(tokens) {
        name(bump, tokens)
    } else if starts_with(tokens, Fixed::Wildcard) {
        wildcard(bump, tokens)
    } else if starts_with(tokens, Fixed::OpenParen) {
        node::round(
            bump,
            place,
            enclosed(
                bump,
                read,
                inner,
                Fixed::OpenParen,
                Fixed::CloseParen,
                tokens,
            ),
        )
    } else {
        node::fields(
            bump,
            place,
            enclosed(
                bump,
                read,
                inner,
                Fixed::OpenBrace,
                Fixed::CloseBrace,
                tokens,
            ),
        )
    }
}

// ---- lists of patterns

// Patterns in parentheses.
impl<'a, R: ReadPat<'a>> ReadItem<'a, Held<'a, Pat<'a>>> for R {
    ghost sort = { Whole_pat };

    ghost seen = { λ p. p.at.now };

    ghost reads = { λ s d. R.reads s d };

    #[tactic(auto, unfolding(fut_grammar::specs::Phrases::phrases))]
    fn item(
        self,
        bump: &'a Bump,
        inner: u32,
        tokens: &'a [Token],
    ) -> Result<Found<'a, Held<'a, Pat<'a>>>, Stop> {
        let _bump = bump;
        part(self.whole(inner, tokens))
    }
}

// Fields of a record's pattern.
impl<'a, R: ReadPat<'a>> ReadItem<'a, PatField<'a>> for R {
    ghost sort = { Pat_field };

    ghost seen = { λ f. (f.name.now, f.pat.now) };

    ghost reads = { λ s d. R.reads s d × (d < 1000) };

    fn item(
        self,
        bump: &'a Bump,
        inner: u32,
        tokens: &'a [Token],
    ) -> Result<Found<'a, PatField<'a>>, Stop> {
        if !starts_with_word(tokens) {
            return Err(Stop::Fault(refused(tokens)));
        }
        let name = next_word(tokens);
        let behind = rest_of(tokens);
        if starts_with(behind, Fixed::Equal) {
            set_field(name, self.whole(inner, rest_of(behind)))
        } else {
            short_field(bump, tokens)
        }
    }
}

// A field with the pattern that was read, behind which no equals sign stands.
fn set_field<'a>(name: &'a str, pattern: PatAnswer<'a>) -> Result<Found<'a, PatField<'a>>, Stop>
    ensures exact { (m : Read (Tree Whole_pat)) → Gives tree_found pattern.entry m → Gives (found_as {Y = Tree Pat_field} (λ f. (f.name.now, f.pat.now))) result (read_as (λ p. (name.now, p)) (not_before Fixed.Equal m)) }
    ensures low { (k : ℕ) → IfOk pattern.entry (λ x. x.height ≤ k) → IfOk result (λ x. x.height ≤ k) }
{
    match not_before(Fixed::Equal, pattern) {
        Ok(Found { tree, height, rest }) => Ok(Found {
            tree: PatField { name, pat: tree },
            height,
            rest,
        }),
        Err(stop) => Err(stop),
    }
}

// ---- what has no patterns in it

#[tactic(auto, unfolding(fut_grammar::specs::Phrases::once_at, fut_grammar::specs::Reading::expect, fut_grammar::specs::Reading::suffix_at, fut_grammar::specs::Reading::parts_at, fut_grammar::specs::Reading::has_at, fut_grammar::specs::Reading::sub_at, fut_grammar::specs::Phrases::phrases))]
fn type_behind<'a>(bump: &'a Bump, inner: u32, at: Spot, pattern: PatAnswer<'a>) -> PatAnswer<'a>
    requires { (inner < 1000) × IfOk pattern (λ x. x.height ≤ inner + 1) }
    ensures exact { (m : Read (Tree Atomic_pat)) → Gives tree_found pattern.entry m → Gives tree_found result (goes_on_with (once_at (phrases (read_at inner)) (suc inner) (starts Fixed.Colon) pat_type at (λ p. p)) m) }
    ensures low { IfOk result (λ x. x.height ≤ inner + 1) }
{
    let pattern = match pattern {
        Ok(pattern) => pattern,
        Err(stop) => return Err(stop),
    };
    if !starts_with(pattern.rest, Fixed::Colon) {
        return Ok(pattern);
    }
    if pattern.height > inner {
        return Err(Stop::Fault(Fault::TooDeep(pattern.rest.len())));
    }
    match whole_type(bump, inner, rest_of(pattern.rest)) {
        Ok(ty) => {
            let place = at.place;
            let form = PatForm::Ascribe(pattern.tree, ty.tree);
            let height = greater(pattern.height, ty.height) + 1;
            node::made(bump, Pat { place, form }, height, ty.rest)
        }
        Err(stop) => Err(stop),
    }
}

#[tactic(auto, unfolding(fut_grammar::specs::Reading::row_at, fut_grammar::specs::Reading::parts_at, fut_grammar::specs::Reading::has_at))]
fn name<'a>(bump: &'a Bump, tokens: &'a [Token]) -> PatAnswer<'a>
    requires { is_word tokens.now ≡ true }
    ensures exact { (inner : ℕ) → Gives tree_found result (row_at (phrases (read_at inner)) (of_pat pat_name) tokens.now) }
    ensures low { IfOk result (λ x. x.height ≡ 1) }
{
    let place = next_spot(tokens).place;
    let form = PatForm::Var(next_word(tokens));
    node::made(bump, Pat { place, form }, 1, rest_of(tokens))
}

#[tactic(auto, unfolding(fut_grammar::specs::Reading::row_at, fut_grammar::specs::Reading::parts_at, fut_grammar::specs::Reading::has_at, fut_grammar::specs::Reading::expect))]
fn wildcard<'a>(bump: &'a Bump, tokens: &'a [Token]) -> PatAnswer<'a>
    requires { starts Fixed.Wildcard tokens.now ≡ true }
    ensures exact { (inner : ℕ) → Gives tree_found result (row_at (phrases (read_at inner)) (of_pat wild) tokens.now) }
    ensures low { IfOk result (λ x. x.height ≡ 1) }
{
    let place = next_spot(tokens).place;
    let form = PatForm::Wild;
    node::made(bump, Pat { place, form }, 1, rest_of(tokens))
}

#[tactic(auto, unfolding(fut_grammar::specs::Reading::row_at, fut_grammar::specs::Reading::parts_at, fut_grammar::specs::Reading::has_at))]
fn short_field<'a>(bump: &'a Bump, tokens: &'a [Token]) -> Result<Found<'a, PatField<'a>>, Stop>
    requires { is_word tokens.now ≡ true }
    ensures exact { (inner : ℕ) → Gives (found_as (λ f. (f.name.now, f.pat.now))) result (row_at (items (read_at inner)) (of_pat short_field) tokens.now) }
    ensures low { IfOk result (λ x. x.height ≡ 0) }
{
    let name = next_word(tokens);
    match node::name(bump, next_spot(tokens).place, name) {
        Ok(pat) => Ok(Found {
            tree: PatField { name, pat },
            height: 0,
            rest: rest_of(tokens),
        }),
        Err(_) => Err(Stop::Memory),
    }
}
