// What stands in the heads of functions, lets and loops: size names, parameters and their types.
ghost use Rattle.std.specs.Prelude.{◌≤◌, ◌<◌, length, IfOk};
ghost use Rattle.fut_ast.specs.Sorts.{Applied_type, Atomic_pat, Head_item, Size_item, Whole_type};
ghost use Rattle.fut_grammar.specs.Phrases.{items, phrases, read_at};
ghost use Rattle.fut_grammar.specs.Reading.{Gives, many_at, maybe_at, several_at};
ghost use Rattle.parse_types.specs.Found.{found_as, heads_found, list_found, names_found};
ghost use Rattle.fut_tree.specs.Names.{maybe};

use crate::found::{Found, part};
use crate::heads::heads;
use crate::lists::{BeginItem, ReadItem, many, several};
use crate::patterns::atomic_pattern;
use crate::tokens::{begins_pattern, greater, refused, rest_of, starts_with, take_word_before};
use crate::types::{applied_type, whole_type};
use bumpalo::Bump;
use bumpalo::collections::into_bump_slice;
use fut_grammar::Stop;
use fut_token::{Fixed, Token};
use fut_tree::{Head, Held, Pat, TypeExp};

/// Size names, as many as stand there.
pub fn size_names<'a>(
    bump: &'a Bump,
    inner: u32,
    tokens: &'a [Token],
) -> Result<Found<'a, &'a [&'a str]>, Stop>
    requires { inner < 1000 }
    ensures exact { Gives names_found result (many_at (phrases (read_at inner)) (length tokens.now) Size_item 0 tokens.now) }
    ensures low { IfOk result (λ x. x.height ≤ inner) }
{
    many(bump, SizeNames, inner, 0, tokens)
}

#[derive(Clone, Copy)]
struct SizeNames;

impl<'a> ReadItem<'a, &'a str> for SizeNames {
    ghost sort = { Size_item };

    ghost seen = { λ x. x.now };

    ghost reads = { λ s d. Unit {0} };

    fn item(
        self,
        bump: &'a Bump,
        inner: u32,
        tokens: &'a [Token],
    ) -> Result<Found<'a, &'a str>, Stop> {
        let _inner = inner;
        let _bump = bump;
        if !starts_with(tokens, Fixed::OpenBracket) {
            return Err(Stop::Fault(refused(tokens)));
        }
        match take_word_before(rest_of(tokens), Fixed::CloseBracket) {
            Ok((tree, rest)) => Ok(Found {
                tree,
                height: 0,
                rest,
            }),
            Err(stop) => Err(stop),
        }
    }
}

impl<'a> BeginItem<'a, &'a str> for SizeNames {
    fn begins(self, tokens: &'a [Token]) -> bool {
        starts_with(tokens, Fixed::OpenBracket)
    }
}

/// Parameters of a function.
#[derive(Clone, Copy)]
struct Patterns;

impl<'a> ReadItem<'a, Held<'a, Pat<'a>>> for Patterns {
    ghost sort = { Atomic_pat };

    ghost seen = { λ p. p.at.now };

    ghost reads = { λ s d. d ≤ 1000 };

    #[tactic(auto, unfolding(fut_grammar::specs::Phrases::phrases))]
    fn item(
        self,
        bump: &'a Bump,
        inner: u32,
        tokens: &'a [Token],
    ) -> Result<Found<'a, Held<'a, Pat<'a>>>, Stop> {
        part(atomic_pattern(bump, inner, tokens))
    }
}

impl<'a> BeginItem<'a, Held<'a, Pat<'a>>> for Patterns {
    fn begins(self, tokens: &'a [Token]) -> bool {
        begins_pattern(tokens)
    }
}

/// Parameters, as many as stand there.
pub fn patterns_behind<'a>(
    bump: &'a Bump,
    inner: u32,
    first_height: u32,
    tokens: &'a [Token],
) -> Result<Found<'a, &'a [Held<'a, Pat<'a>>]>, Stop>
    requires { (inner < 1000) × (first_height ≤ inner) }
    ensures exact { Gives list_found result (many_at (phrases (read_at inner)) (length tokens.now) Atomic_pat first_height tokens.now) }
    ensures low { IfOk result (λ x. x.height ≤ inner) }
{
    many(bump, Patterns, inner, first_height, tokens)
}

/// One or more parameters.
pub fn several_patterns<'a>(
    bump: &'a Bump,
    inner: u32,
    first_height: u32,
    tokens: &'a [Token],
) -> Result<Found<'a, &'a [Held<'a, Pat<'a>>]>, Stop>
    requires { (inner < 1000) × (first_height ≤ inner) }
    ensures exact { Gives list_found result (several_at (phrases (read_at inner)) Atomic_pat first_height tokens.now) }
    ensures low { IfOk result (λ x. x.height ≤ inner) }
{
    several(bump, Patterns, inner, first_height, tokens)
}

/// A colon and a type, or nothing.
#[tactic(auto, unfolding(fut_grammar::specs::Reading::maybe_at, fut_grammar::specs::Phrases::phrases))]
pub fn maybe_applied_type<'a>(
    bump: &'a Bump,
    inner: u32,
    first_height: u32,
    tokens: &'a [Token],
) -> Result<Found<'a, Option<&'a TypeExp<'a>>>, Stop>
    requires { (inner < 1000) × (first_height ≤ inner) }
    ensures exact { Gives (found_as maybe) result (maybe_at (phrases (read_at inner)) Fixed.Colon Applied_type first_height tokens.now) }
    ensures low { IfOk result (λ x. x.height ≤ inner) }
{
    if !starts_with(tokens, Fixed::Colon) {
        return Ok(Found {
            tree: None,
            height: first_height,
            rest: tokens,
        });
    }
    match applied_type(bump, inner, rest_of(tokens)) {
        Ok(Found { tree, height, rest }) => Ok(Found {
            tree: Some(tree),
            height: greater(first_height, height),
            rest,
        }),
        Err(stop) => Err(stop),
    }
}

// ---- the same in what is no node

/// Size names in a `let`.
pub fn size_names_inside<'a>(
    bump: &'a Bump,
    inner: u32,
    tokens: &'a [Token],
) -> Result<Found<'a, &'a [&'a str]>, Stop>
    requires { inner < 1000 }
    ensures exact { Gives names_found result (many_at (items (read_at inner)) (length tokens.now) Size_item 0 tokens.now) }
    ensures low { IfOk result (λ x. x.height ≤ inner) }
{
    size_names(bump, inner, tokens)
}

/// Size and type parameters in a `let` or a declaration.
pub fn heads_inside<'a>(
    bump: &'a Bump,
    inner: u32,
    tokens: &'a [Token],
) -> Result<Found<'a, &'a [Head<'a>]>, Stop>
    requires { inner < 1000 }
    ensures exact { Gives heads_found result (many_at (items (read_at inner)) (length tokens.now) Head_item 0 tokens.now) }
    ensures low { IfOk result (λ x. x.height ≤ inner) }
{
    heads(bump, inner, tokens)
}

/// Parameters in a declaration.
pub fn patterns_inside<'a>(
    bump: &'a Bump,
    inner: u32,
    first_height: u32,
    tokens: &'a [Token],
) -> Result<Found<'a, &'a [Held<'a, Pat<'a>>]>, Stop>
    requires { (inner < 1000) × (first_height ≤ inner) }
    ensures exact { Gives list_found result (many_at (items (read_at inner)) (length tokens.now) Atomic_pat first_height tokens.now) }
    ensures low { IfOk result (λ x. x.height ≤ inner) }
{
    patterns_behind(bump, inner, first_height, tokens)
}

/// One or more parameters in a `let`.
pub fn several_patterns_inside<'a>(
    bump: &'a Bump,
    inner: u32,
    first_height: u32,
    tokens: &'a [Token],
) -> Result<Found<'a, &'a [Held<'a, Pat<'a>>]>, Stop>
    requires { (inner < 1000) × (first_height ≤ inner) }
    ensures exact { Gives list_found result (several_at (items (read_at inner)) Atomic_pat first_height tokens.now) }
    ensures low { IfOk result (λ x. x.height ≤ inner) }
{
    several_patterns(bump, inner, first_height, tokens)
}

/// A colon and a type, or nothing, in a `let` or a declaration.
#[tactic(auto, unfolding(fut_grammar::specs::Reading::maybe_at, fut_grammar::specs::Phrases::items))]
pub fn maybe_type_inside<'a>(
    bump: &'a Bump,
    inner: u32,
    first_height: u32,
    tokens: &'a [Token],
) -> Result<Found<'a, Option<&'a TypeExp<'a>>>, Stop>
    requires { (inner < 1000) × (first_height ≤ inner) }
    ensures exact { Gives (found_as maybe) result (maybe_at (items (read_at inner)) Fixed.Colon Whole_type first_height tokens.now) }
    ensures low { IfOk result (λ x. x.height ≤ inner) }
{
    if !starts_with(tokens, Fixed::Colon) {
        return Ok(Found {
            tree: None,
            height: first_height,
            rest: tokens,
        });
    }
    match whole_type(bump, inner, rest_of(tokens)) {
        Ok(Found { tree, height, rest }) => Ok(Found {
            tree: Some(tree),
            height: greater(first_height, height),
            rest,
        }),
        Err(stop) => Err(stop),
    }
}
