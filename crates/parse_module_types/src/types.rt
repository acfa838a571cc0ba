// Module types: each production over what reads the module types and members in it.
ghost use Rattle.std.specs.Prelude.{◌≡◌, ◌≤◌, ◌<◌, ◌+◌, suc, false, if◌then◌else◌, true, IfOk, Ok};
ghost use Rattle.fut_ast.specs.Behind.{begins_mtype, begins_named};
ghost use Rattle.fut_ast.specs.ModRows.{mod_param, mtype_arrow, mtype_path, mtype_specs, round_mtype, with_item};
ghost use Rattle.fut_ast.specs.Rows.{far_mtype, of_mod, with_types};
ghost use Rattle.fut_ast.specs.Sorts.{Applied_type, Mod_param, Whole_type, With_item};
ghost use Rattle.fut_ast.specs.Tokens.{starts, tail};
ghost use Rattle.fut_grammar.specs.Phrases.{atomic_mtype_at, far_at, items, once_at, phrases, read_at, whole_mtype_at};
ghost use Rattle.fut_grammar.specs.Reading.{Gives, row_at, several_at, suffix_at};
ghost use Rattle.parse_module_types.specs.MtypeFound.{param_found, with_found, withs_found};
ghost use Rattle.parse_types.specs.Found.{tree_found};
ghost use Rattle.fut_tree.specs.ModTypes.{with_of};

use crate::members::Members;
use crate::tie::{ModTypeAnswer, ReadMember, ReadModType, whole_behind};
use bumpalo::Bump;
use fut_ast::Spot;
use fut_grammar::{Fault, Stop};
use fut_token::{Fixed, Token};
use fut_tree::{Label, ModType, ModTypeForm, Param, TypeExp, With};
use parse_types::found::Found;
use parse_types::lists::{BeginItem, ReadItem, many, several};
use parse_types::tokens::{
    begins_name_and_colon, greater, next_spot, refused, rest_of, starts_with, starts_with_word,
    take, take_path, take_word,
};
use parse_types::types::{applied_type, whole_type};

/// Any module type.
#[tactic(auto, unfolding(fut_grammar::specs::Phrases::whole_mtype_at))]
pub fn whole_below<'a, R: ReadModType<'a>, S: ReadMember<'a>>(
    bump: &'a Bump,
    read: R,
    read_member: S,
    inner: u32,
    arrows: bool,
    tokens: &'a [Token],
) -> ModTypeAnswer<'a>
    requires law { R.reads read inner }
    requires member_law { S.reads read_member inner }
    requires begun { begins_mtype tokens.now ≡ true }
    requires room { inner < 1000 }
    ensures exact { Gives tree_found result (whole_mtype_at (phrases (read_at inner)) (suc inner) arrows tokens.now) }
    ensures low { IfOk result (λ x. x.height ≤ inner + 1) }
{
    let first = match atomic_below(bump, read, read_member, inner, arrows, tokens) {
        Ok(first) => first,
        Err(stop) => return Err(stop),
    };
    withs_behind(
        bump,
        inner,
        arrows,
        next_spot(tokens),
        first.tree,
        first.height,
        first.rest,
    )
}

#[tactic(auto, unfolding(fut_grammar::specs::Phrases::atomic_mtype_at))]
fn atomic_below<'a, R: ReadModType<'a>, S: ReadMember<'a>>(
    bump: &'a Bump,
    read: R,
    read_member: S,
    inner: u32,
    arrows: bool,
    tokens: &'a [Token],
) -> ModTypeAnswer<'a>
    requires law { R.reads read inner }
    requires member_law { S.reads read_member inner }
    requires begun { begins_mtype tokens.now ≡ true }
    requires room { inner < 1000 }
    ensures exact { Gives tree_found result (atomic_mtype_at (phrases (read_at inner)) (suc inner) arrows tokens.now) }
    ensures low { IfOk result (λ x. x.height ≤ inner + 1) }
{
    if starts_with_word(tokens) {
        path(bump, inner, arrows, tokens)
    } else if starts_with(tokens, Fixed::OpenBrace) {
        members_in_braces(bump, read_member, inner, arrows, tokens)
    } else if begins_name_and_colon(rest_of(tokens)) {
        far_arrow(bump, read, inner, arrows, tokens)
    } else {
        round(read, inner, arrows, tokens)
    }
}

#[tactic(auto, unfolding(fut_grammar::specs::Phrases::far_at, fut_grammar::specs::Phrases::ended))]
fn far_arrow<'a, R: ReadModType<'a>>(
    bump: &'a Bump,
    read: R,
    inner: u32,
    arrows: bool,
    tokens: &'a [Token],
) -> ModTypeAnswer<'a>
    requires law { R.reads read inner }
    requires room { inner < 1000 }
    ensures exact { Gives tree_found result (far_at (far_mtype arrows) (row_at (phrases (read_at inner)) (of_mod (mtype_arrow arrows)) tokens.now)) }
    ensures low { IfOk result (λ x. x.height ≤ inner + 1) }
{
    let found = match arrow(bump, read, inner, arrows, tokens) {
        Ok(found) => found,
        Err(stop) => return Err(stop),
    };
    if starts_with(found.rest, Fixed::KeyWith) {
        return Err(Stop::Fault(refused(found.rest)));
    }
    Ok(found)
}

#[tactic(auto, unfolding(fut_grammar::specs::Reading::row_at, fut_grammar::specs::Reading::parts_at, fut_grammar::specs::Reading::has_at, fut_grammar::specs::Reading::sub_at, fut_grammar::specs::Phrases::phrases, fut_grammar::specs::Reading::expect))]
fn arrow<'a, R: ReadModType<'a>>(
    bump: &'a Bump,
    read: R,
    inner: u32,
    arrows: bool,
    tokens: &'a [Token],
) -> ModTypeAnswer<'a>
    requires law { R.reads read inner }
    requires room { inner < 1000 }
    ensures exact { Gives tree_found result (row_at (phrases (read_at inner)) (of_mod (mtype_arrow arrows)) tokens.now) }
    ensures low { IfOk result (λ x. x.height ≤ inner + 1) }
{
    let place = next_spot(tokens).place;
    let param = match parameter(read, inner, tokens) {
        Ok(param) => param,
        Err(stop) => return Err(stop),
    };
    let to = match whole_behind(read, inner, Fixed::Arrow, arrows, param.rest) {
        Ok(to) => to,
        Err(stop) => return Err(stop),
    };
    let form = ModTypeForm::Arrow(param.tree.label, param.tree.bound, to.tree);
    made(
        bump,
        ModType { place, form },
        greater(param.height, to.height) + 1,
        to.rest,
    )
}

/// A parameter of a module.
#[tactic(auto, unfolding(fut_grammar::specs::Phrases::phrases, fut_grammar::specs::Phrases::bounded, fut_grammar::specs::Phrases::ended, fut_grammar::specs::Phrases::flat_at, fut_grammar::specs::Reading::refuse_sort))]
pub fn parameter<'a, R: ReadModType<'a>>(
    read: R,
    inner: u32,
    tokens: &'a [Token],
) -> Result<Found<'a, Param<'a>>, Stop>
    requires law { R.reads read inner }
    requires room { inner < 1000 }
    ensures exact { Gives param_found result (phrases (read_at inner) Mod_param tokens.now) }
    ensures low { IfOk result (λ x. x.height ≤ inner) }
{
    if !starts_with(tokens, Fixed::OpenParen) {
        return Err(Stop::Fault(refused(tokens)));
    }
    any_parameter(read, inner, tokens)
}

#[tactic(auto, unfolding(fut_grammar::specs::Reading::row_at, fut_grammar::specs::Reading::parts_at, fut_grammar::specs::Reading::has_at, fut_grammar::specs::Reading::expect, fut_grammar::specs::Reading::sub_at, fut_grammar::specs::Phrases::items))]
fn any_parameter<'a, R: ReadModType<'a>>(
    read: R,
    inner: u32,
    tokens: &'a [Token],
) -> Result<Found<'a, Param<'a>>, Stop>
    requires law { R.reads read inner }
    requires first { starts Fixed.OpenParen tokens.now ≡ true }
    requires room { inner < 1000 }
    ensures exact { Gives param_found result (row_at (items (read_at inner)) (of_mod mod_param) tokens.now) }
    ensures low { IfOk result (λ x. x.height ≤ inner) }
{
    let rest = rest_of(tokens);
    let place = next_spot(rest).place;
    let (name, rest) = match take_word(rest) {
        Ok(found) => found,
        Err(stop) => return Err(stop),
    };
    let bound = match whole_behind(read, inner, Fixed::Colon, true, rest) {
        Ok(bound) => bound,
        Err(stop) => return Err(stop),
    };
    let rest = match take(bound.rest, Fixed::CloseParen) {
        Ok(rest) => rest,
        Err(stop) => return Err(stop),
    };
    Ok(Found {
        tree: Param {
            label: Label { name, place },
            bound: bound.tree,
        },
        height: bound.height,
        rest,
    })
}

#[tactic(auto, unfolding(fut_grammar::specs::Reading::row_at, fut_grammar::specs::Reading::parts_at, fut_grammar::specs::Reading::has_at, fut_grammar::specs::Reading::sub_at, fut_grammar::specs::Phrases::phrases))]
fn round<'a, R: ReadModType<'a>>(
    read: R,
    inner: u32,
    arrows: bool,
    tokens: &'a [Token],
) -> ModTypeAnswer<'a>
    requires law { R.reads read inner }
    requires first { starts Fixed.OpenParen tokens.now ≡ true }
    requires unnamed { begins_named (tail tokens.now) ≡ false }
    requires room { inner < 1000 }
    ensures exact { Gives tree_found result (row_at (phrases (read_at inner)) (of_mod (round_mtype arrows)) tokens.now) }
    ensures low { IfOk result (λ x. x.height ≤ inner + 1) }
{
    let _arrows = arrows;
    let found = match read.whole(inner, true, rest_of(tokens)) {
        Ok(found) => found,
        Err(stop) => return Err(stop),
    };
    match take(found.rest, Fixed::CloseParen) {
        Ok(rest) => Ok(Found {
            tree: found.tree,
            height: found.height + 1,
            rest,
        }),
        Err(stop) => Err(stop),
    }
}

#[tactic(auto, unfolding(fut_grammar::specs::Reading::row_at, fut_grammar::specs::Reading::parts_at, fut_grammar::specs::Reading::has_at, fut_grammar::specs::Reading::sub_at, fut_grammar::specs::Phrases::phrases))]
fn members_in_braces<'a, S: ReadMember<'a>>(
    bump: &'a Bump,
    read_member: S,
    inner: u32,
    arrows: bool,
    tokens: &'a [Token],
) -> ModTypeAnswer<'a>
    requires law { S.reads read_member inner }
    requires first { starts Fixed.OpenBrace tokens.now ≡ true }
    requires room { inner < 1000 }
    ensures exact { Gives tree_found result (row_at (phrases (read_at inner)) (of_mod (mtype_specs arrows)) tokens.now) }
    ensures low { IfOk result (λ x. x.height ≤ inner + 1) }
{
    let _arrows = arrows;
    let place = next_spot(tokens).place;
    let all = match many(
        bump,
        Members { read: read_member },
        inner,
        0,
        rest_of(tokens),
    ) {
        Ok(all) => all,
        Err(stop) => return Err(stop),
    };
    let form = ModTypeForm::Specs(all.tree);
    match take(all.rest, Fixed::CloseBrace) {
        Ok(rest) => made(bump, ModType { place, form }, all.height + 1, rest),
        Err(stop) => Err(stop),
    }
}

// ---- what has no module types in it

#[tactic(auto, unfolding(fut_grammar::specs::Reading::row_at, fut_grammar::specs::Reading::parts_at, fut_grammar::specs::Reading::has_at))]
fn path<'a>(bump: &'a Bump, inner: u32, arrows: bool, tokens: &'a [Token]) -> ModTypeAnswer<'a>
    requires { inner < 1000 }
    ensures exact { Gives tree_found result (row_at (phrases (read_at inner)) (of_mod (mtype_path arrows)) tokens.now) }
    ensures low { IfOk result (λ x. x.height ≤ inner + 1) }
{
    let _inner = inner;
    let _arrows = arrows;
    let place = next_spot(tokens).place;
    let (names, rest) = match take_path(bump, tokens) {
        Ok(found) => found,
        Err(stop) => return Err(stop),
    };
    let form = ModTypeForm::Path(names);
    made(bump, ModType { place, form }, 1, rest)
}

// ---- what stands behind a module type

// `with .. = ..`, as many as stand there, or nothing.
#[tactic(auto, unfolding(fut_grammar::specs::Phrases::once_at, fut_grammar::specs::Reading::suffix_at, fut_grammar::specs::Reading::parts_at, fut_grammar::specs::Reading::has_at))]
fn withs_behind<'a>(
    bump: &'a Bump,
    inner: u32,
    arrows: bool,
    at: Spot,
    first: &'a ModType<'a>,
    first_height: u32,
    tokens: &'a [Token],
) -> ModTypeAnswer<'a>
    requires { (inner < 1000) × (first_height ≤ inner + 1) }
    ensures exact { Gives tree_found result (once_at (phrases (read_at inner)) (suc inner) (starts Fixed.KeyWith) (with_types arrows) at (λ t. t) first.now first_height tokens.now) }
    ensures low { IfOk result (λ x. x.height ≤ inner + 1) }
{
    if !starts_with(tokens, Fixed::KeyWith) {
        return Ok(Found {
            tree: first,
            height: first_height,
            rest: tokens,
        });
    }
    if first_height > inner {
        return Err(Stop::Fault(Fault::TooDeep(tokens.len())));
    }
    let withs = match withs(bump, inner, arrows, first_height, tokens) {
        Ok(withs) => withs,
        Err(stop) => return Err(stop),
    };
    let place = at.place;
    let form = ModTypeForm::With(first, withs.tree);
    made(bump, ModType { place, form }, withs.height + 1, withs.rest)
}

fn withs<'a>(
    bump: &'a Bump,
    inner: u32,
    arrows: bool,
    first_height: u32,
    tokens: &'a [Token],
) -> Result<Found<'a, &'a [With<'a>]>, Stop>
    requires { (inner < 1000) × (first_height ≤ inner) }
    ensures exact { Gives withs_found result (several_at (phrases (read_at inner)) (With_item arrows) first_height tokens.now) }
    ensures low { IfOk result (λ x. x.height ≤ inner) }
{
    if arrows {
        several(bump, WithItems::<true>, inner, first_height, tokens)
    } else {
        several(bump, WithItems::<false>, inner, first_height, tokens)
    }
}

/// `with .. = ..`, where the type may have an arrow at its top, or not.
#[derive(Clone, Copy)]
struct WithItems<const ARROWS: bool>;

impl<'a, const ARROWS: bool> ReadItem<'a, With<'a>> for WithItems<ARROWS> {
    ghost sort = { With_item ARROWS };

    ghost seen = { with_of };

    ghost reads = { λ s d. d < 1000 };

    fn item(
        self,
        bump: &'a Bump,
        inner: u32,
        tokens: &'a [Token],
    ) -> Result<Found<'a, With<'a>>, Stop> {
        with(bump, inner, ARROWS, tokens)
    }
}

impl<'a, const ARROWS: bool> BeginItem<'a, With<'a>> for WithItems<ARROWS> {
    fn begins(self, tokens: &'a [Token]) -> bool {
        starts_with(tokens, Fixed::KeyWith)
    }
}

#[tactic(auto, unfolding(fut_grammar::specs::Phrases::phrases, fut_grammar::specs::Phrases::bounded, fut_grammar::specs::Phrases::ended, fut_grammar::specs::Phrases::flat_at, fut_grammar::specs::Reading::refuse_sort))]
fn with<'a>(
    bump: &'a Bump,
    inner: u32,
    arrows: bool,
    tokens: &'a [Token],
) -> Result<Found<'a, With<'a>>, Stop>
    requires { inner < 1000 }
    ensures exact { Gives with_found result (phrases (read_at inner) (With_item arrows) tokens.now) }
    ensures low { IfOk result (λ x. x.height ≤ inner) }
{
    if !starts_with(tokens, Fixed::KeyWith) {
        return Err(Stop::Fault(refused(tokens)));
    }
    any_with(bump, inner, arrows, tokens)
}

#[tactic(auto, unfolding(fut_grammar::specs::Reading::row_at, fut_grammar::specs::Reading::parts_at, fut_grammar::specs::Reading::has_at, fut_grammar::specs::Reading::sub_at, fut_grammar::specs::Phrases::items))]
fn any_with<'a>(
    bump: &'a Bump,
    inner: u32,
    arrows: bool,
    tokens: &'a [Token],
) -> Result<Found<'a, With<'a>>, Stop>
    requires first { starts Fixed.KeyWith tokens.now ≡ true }
    requires room { inner < 1000 }
    ensures exact { Gives with_found result (row_at (items (read_at inner)) (of_mod (with_item arrows)) tokens.now) }
    ensures low { IfOk result (λ x. x.height ≤ inner) }
{
    let rest = rest_of(tokens);
    let place = next_spot(rest).place;
    let (path, rest) = match take_path(bump, rest) {
        Ok(found) => found,
        Err(stop) => return Err(stop),
    };
    let rest = match take(rest, Fixed::Equal) {
        Ok(rest) => rest,
        Err(stop) => return Err(stop),
    };
    match type_of_sort(bump, inner, arrows, rest) {
        Ok(ty) => Ok(Found {
            tree: With {
                place,
                path,
                ty: ty.tree,
            },
            height: ty.height,
            rest: ty.rest,
        }),
        Err(stop) => Err(stop),
    }
}

// A type that may have an arrow at its top, or not.
fn type_of_sort<'a>(
    bump: &'a Bump,
    inner: u32,
    arrows: bool,
    tokens: &'a [Token],
) -> Result<Found<'a, &'a TypeExp<'a>>, Stop>
    requires { inner < 1000 }
    ensures exact { Gives tree_found result (if arrows then read_at inner Whole_type tokens.now else read_at inner Applied_type tokens.now) }
    ensures low { IfOk result (λ x. x.height ≤ inner) }
{
    if arrows {
        whole_type(bump, inner, tokens)
    } else {
        applied_type(bump, inner, tokens)
    }
}

// This module type was read, and the arena holds it.
fn made<'a>(bump: &'a Bump, ty: ModType<'a>, height: u32, rest: &'a [Token]) -> ModTypeAnswer<'a>
    ensures exact { Gives tree_found result (Ok (ty.entry, height, rest.now)) }
    ensures low { IfOk result (λ x. x.height ≡ height) }
{
    match bump.try_alloc(ty) {
        Ok(tree) => Ok(Found { tree, height, rest }),
        Err(_) => Err(Stop::Memory),
    }
}
