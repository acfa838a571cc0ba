// Lists of phrases: with commas between, or as many as stand there.
ghost use Rattle.std.specs.Prelude.{◌≡◌, ◌∷◌, ◌≤◌, ◌<◌, length, map, ℕ, IfOk};
ghost use Rattle.fut_ast.specs.Behind.{begins};
ghost use Rattle.fut_ast.specs.Sorts.{Sort, Tree};
ghost use Rattle.fut_grammar.specs.Phrases.{phrases, read_at};
ghost use Rattle.fut_grammar.specs.Reading.{Gives, commas_at, many_at, several_at};
ghost use Rattle.parse_types.specs.Found.{found_as};
ghost use Rattle.parse_types.specs.Signs.{enclosed_at};
ghost use Rattle.fut_tree.specs.Names.{all};

use crate::found::{Found, closed_by};
use crate::tokens::{greater, refused, rest_of, starts_with};
use bumpalo::Bump;
use bumpalo::collections::into_bump_slice;
use fut_grammar::Stop;
use fut_token::{Fixed, Token};
use fut_tree::Held;
use std::alloc::AllocError;

/// What reads the items of a list, each a phrase of one sort.
pub trait ReadItem<'a, T>: Copy {
    /// The sort of the items.
    ghost sort: { Sort };

    /// The tree that an item stands for.
    ghost seen: { T → Tree sort };

    /// It reads items up to a height.
    ghost reads: { Self → ℕ → Type 0 };

    /// An item, which the arena holds.
    fn item(self, bump: &'a Bump, inner: u32, tokens: &'a [Token]) -> Result<Found<'a, T>, Stop>
        requires law { reads self inner }
        ensures exact { Gives (found_as seen) result (phrases (read_at inner) sort tokens.now) }
        ensures low { IfOk result (λ x. x.height ≤ inner) };
}

/// What tells whether another item stands next.
pub trait BeginItem<'a, T>: ReadItem<'a, T> {
    /// Whether an item begins here.
    fn begins(self, tokens: &'a [Token]) -> bool
        ensures { result ≡ begins Self.sort tokens.now };
}

/// One or more items with commas between, in a tree that is as high as given without them.
pub fn commas_from<'a, T: Copy, R: ReadItem<'a, T>>(
    bump: &'a Bump,
    read: R,
    inner: u32,
    first_height: u32,
    tokens: &'a [Token],
) -> Result<Found<'a, &'a [T]>, Stop>
    requires law { R.reads read inner }
    requires room { (inner < 1000) × (first_height ≤ inner) }
    ensures exact { Gives (found_as (λ t. map R.seen t.now)) result (commas_at (phrases (read_at inner)) (length tokens.now) R.sort first_height tokens.now) }
    ensures low { IfOk result (λ x. x.height ≤ inner) }
{
    let mut made = Vec::new(bump);
    let mut height = first_height;
    let mut rest = tokens;
    'items: for _turn in 0..tokens.len() {
        let item = match read.item(bump, inner, rest) {
            Ok(item) => item,
            Err(stop) => return Err(stop),
        };
        match made.push(item.tree) {
            Ok(()) => (),
            Err(_) => return Err(Stop::Memory),
        }
        height = greater(height, item.height);
        if !starts_with(item.rest, Fixed::Comma) {
            return Ok(Found {
                tree: into_bump_slice(made),
                height,
                rest: item.rest,
            });
        }
        rest = rest_of(item.rest);
    }
    Err(Stop::Fault(refused(rest)))
}

/// Items with commas between, or none, and two symbols around them.
pub fn enclosed<'a, T: Copy, R: ReadItem<'a, T>>(
    bump: &'a Bump,
    read: R,
    inner: u32,
    opening: Fixed,
    closing: Fixed,
    tokens: &'a [Token],
) -> Result<Found<'a, &'a [T]>, Stop>
    requires law { R.reads read inner }
    requires room { inner < 1000 }
    ensures exact { Gives (found_as (λ t. map R.seen t.now)) result (enclosed_at (phrases (read_at inner)) opening closing R.sort tokens.now) }
    ensures low { IfOk result (λ x. x.height ≤ inner) }
{
    if !starts_with(tokens, opening) {
        return Err(Stop::Fault(refused(tokens)));
    }
    let behind = rest_of(tokens);
    if starts_with(behind, closing) {
        return Ok(Found {
            tree: &[],
            height: 0,
            rest: rest_of(behind),
        });
    }
    closed_by(closing, commas_from(bump, read, inner, 0, behind))
}

/// Items, as many as stand there, in a tree that is as high as given without them.
pub fn many<'a, T: Copy, R: BeginItem<'a, T>>(
    bump: &'a Bump,
    read: R,
    inner: u32,
    first_height: u32,
    tokens: &'a [Token],
) -> Result<Found<'a, &'a [T]>, Stop>
    requires law { R.reads read inner }
    requires room { (inner < 1000) × (first_height ≤ inner) }
    ensures exact { Gives (found_as (λ t. map R.seen t.now)) result (many_at (phrases (read_at inner)) (length tokens.now) R.sort first_height tokens.now) }
    ensures low { IfOk result (λ x. x.height ≤ inner) }
{
    let mut made = Vec::new(bump);
    let mut height = first_height;
    let mut rest = tokens;
    'items: for _turn in 0..tokens.len() {
        if !read.begins(rest) {
            return Ok(Found {
                tree: into_bump_slice(made),
                height,
                rest,
            });
        }
        let item = match read.item(bump, inner, rest) {
            Ok(item) => item,
            Err(stop) => return Err(stop),
        };
        match made.push(item.tree) {
            Ok(()) => (),
            Err(_) => return Err(Stop::Memory),
        }
        height = greater(height, item.height);
        rest = item.rest;
    }
    if read.begins(rest) {
        return Err(Stop::Fault(refused(rest)));
    }
    Ok(Found {
        tree: into_bump_slice(made),
        height,
        rest,
    })
}

/// One or more items, in a tree that is as high as given without them.
#[tactic(auto, unfolding(fut_grammar::specs::Reading::several_at))]
pub fn several<'a, T: Copy, R: BeginItem<'a, T>>(
    bump: &'a Bump,
    read: R,
    inner: u32,
    first_height: u32,
    tokens: &'a [Token],
) -> Result<Found<'a, &'a [T]>, Stop>
    requires law { R.reads read inner }
    requires room { (inner < 1000) × (first_height ≤ inner) }
    ensures exact { Gives (found_as (λ t. map R.seen t.now)) result (several_at (phrases (read_at inner)) R.sort first_height tokens.now) }
    ensures low { IfOk result (λ x. x.height ≤ inner) }
{
    let first = match read.item(bump, inner, tokens) {
        Ok(first) => first,
        Err(stop) => return Err(stop),
    };
    let height = greater(first_height, first.height);
    match many(bump, read, inner, height, first.rest) {
        Ok(others) => match led_by(bump, first.tree, others.tree) {
            Ok(tree) => Ok(Found {
                tree,
                height: others.height,
                rest: others.rest,
            }),
            Err(_) => Err(Stop::Memory),
        },
        Err(stop) => Err(stop),
    }
}

/// Another list with one item in front.
pub fn led_by<'a, T: Copy>(bump: &'a Bump, first: T, others: &'a [T]) -> Result<&'a [T], AllocError>
    ensures { IfOk result (λ list. list.now ≡ first ∷ others.now) }
{
    let mut made = Vec::new(bump);
    match made.push(first) {
        Ok(()) => (),
        Err(_) => return Err(AllocError),
    }
    match made.extend_from_slice(others) {
        Ok(()) => Ok(into_bump_slice(made)),
        Err(_) => Err(AllocError),
    }
}

/// A list with one more in front.
pub fn in_front<'a, T>(
    bump: &'a Bump,
    first: &'a T,
    others: &'a [Held<'a, T>],
) -> Result<&'a [Held<'a, T>], AllocError>
    ensures { IfOk result (λ list. all list.now ≡ first.now ∷ all others.now) }
{
    led_by(bump, Held { at: first }, others)
}
