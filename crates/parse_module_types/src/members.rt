// Members of module types: each production over what reads the module types in it.
ghost use Rattle.std.specs.Prelude.{◌≡◌, ◌≤◌, ◌<◌, ◌+◌, suc, true, IfOk};
ghost use Rattle.fut_ast.specs.ModRows.{spec_include, spec_module, spec_type, spec_value};
ghost use Rattle.fut_ast.specs.Rows.{of_mod};
ghost use Rattle.fut_ast.specs.Sorts.{Spec_item, Whole_type};
ghost use Rattle.fut_ast.specs.Tokens.{starts};
ghost use Rattle.fut_grammar.specs.Phrases.{phrases, read_at, spec_at};
ghost use Rattle.fut_grammar.specs.Reading.{Gives, maybe_at, row_at};
ghost use Rattle.parse_module_types.specs.MtypeFound.{spec_found};
ghost use Rattle.parse_types.specs.Found.{found_as};
ghost use Rattle.fut_tree.specs.ModTypes.{spec_of};
ghost use Rattle.fut_tree.specs.Names.{maybe};

use crate::tie::{MemberAnswer, ReadMember, ReadModType, whole_behind};
use bumpalo::Bump;
use fut_ast::What;
use fut_grammar::Stop;
use fut_token::{Fixed, Token};
use fut_tree::{Label, Spec, SpecForm, TypeExp};
use parse_types::found::Found;
use parse_types::heads::heads;
use parse_types::lists::{BeginItem, ReadItem};
use parse_types::tokens::{
    begins_member, greater, next_spot, rest_of, starts_with, take, take_word, without_form,
};
use parse_types::types::whole_type;

/// Members of a module type, each read by what reads one.
#[derive(Clone, Copy)]
pub struct Members<S> {
    pub read: S,
}

impl<'a, S: ReadMember<'a>> ReadItem<'a, Spec<'a>> for Members<S> {
    ghost sort = { Spec_item };

    ghost seen = { spec_of };

    ghost reads = { λ s d. S.reads s.read d };

    #[tactic(auto, unfolding(fut_grammar::specs::Phrases::phrases))]
    fn item(self, bump: &'a Bump, inner: u32, tokens: &'a [Token]) -> MemberAnswer<'a> {
        let _bump = bump;
        self.read.member(inner, tokens)
    }
}

impl<'a, S: ReadMember<'a>> BeginItem<'a, Spec<'a>> for Members<S> {
    fn begins(self, tokens: &'a [Token]) -> bool {
        begins_member(tokens)
    }
}

/// A member.
#[tactic(auto, unfolding(fut_grammar::specs::Phrases::spec_at))]
pub fn member_below<'a, R: ReadModType<'a>>(
    bump: &'a Bump,
    read: R,
    inner: u32,
    tokens: &'a [Token],
) -> MemberAnswer<'a>
    requires law { R.reads read inner }
    requires room { inner < 1000 }
    ensures exact { Gives spec_found result (spec_at (phrases (read_at inner)) (suc inner) tokens.now) }
    ensures low { IfOk result (λ x. x.height ≤ inner + 1) }
{
    if starts_with(tokens, Fixed::KeyVal) {
        value(bump, inner, tokens)
    } else if starts_with(tokens, Fixed::KeyType) {
        type_name(bump, inner, tokens)
    } else if starts_with(tokens, Fixed::KeyModule) {
        module(read, inner, tokens)
    } else {
        include(read, inner, tokens)
    }
}

#[tactic(auto, unfolding(fut_grammar::specs::Reading::row_at, fut_grammar::specs::Reading::parts_at, fut_grammar::specs::Reading::has_at, fut_grammar::specs::Reading::expect, fut_grammar::specs::Reading::sub_at, fut_grammar::specs::Phrases::phrases))]
fn module<'a, R: ReadModType<'a>>(read: R, inner: u32, tokens: &'a [Token]) -> MemberAnswer<'a>
    requires law { R.reads read inner }
    requires first { starts Fixed.KeyModule tokens.now ≡ true }
    requires room { inner < 1000 }
    ensures exact { Gives spec_found result (row_at (phrases (read_at inner)) (of_mod spec_module) tokens.now) }
    ensures low { IfOk result (λ x. x.height ≤ inner + 1) }
{
    let rest = rest_of(tokens);
    let place = next_spot(rest).place;
    let (name, rest) = match take_word(rest) {
        Ok(found) => found,
        Err(stop) => return Err(stop),
    };
    let bound = match whole_behind(read, inner, Fixed::Colon, true, rest) {
        Ok(bound) => bound,
        Err(stop) => return Err(stop),
    };
    Ok(Found {
        tree: Spec {
            place: next_spot(tokens).place,
            form: SpecForm::Module(Label { name, place }, bound.tree),
        },
        height: bound.height + 1,
        rest: bound.rest,
    })
}

#[tactic(auto, unfolding(fut_grammar::specs::Reading::row_at, fut_grammar::specs::Reading::parts_at, fut_grammar::specs::Reading::has_at, fut_grammar::specs::Reading::sub_at, fut_grammar::specs::Phrases::phrases, fut_grammar::specs::Reading::expect))]
fn include<'a, R: ReadModType<'a>>(read: R, inner: u32, tokens: &'a [Token]) -> MemberAnswer<'a>
    requires law { R.reads read inner }
    requires room { inner < 1000 }
    ensures exact { Gives spec_found result (row_at (phrases (read_at inner)) (of_mod spec_include) tokens.now) }
    ensures low { IfOk result (λ x. x.height ≤ inner + 1) }
{
    let found = match whole_behind(read, inner, Fixed::KeyInclude, true, tokens) {
        Ok(found) => found,
        Err(stop) => return Err(stop),
    };
    Ok(Found {
        tree: Spec {
            place: next_spot(tokens).place,
            form: SpecForm::Include(found.tree),
        },
        height: found.height + 1,
        rest: found.rest,
    })
}

// ---- what has no module types in it

#[tactic(auto, unfolding(fut_grammar::specs::Reading::row_at, fut_grammar::specs::Reading::parts_at, fut_grammar::specs::Reading::has_at, fut_grammar::specs::Reading::expect, fut_grammar::specs::Reading::sub_at, fut_grammar::specs::Phrases::phrases))]
fn value<'a>(bump: &'a Bump, inner: u32, tokens: &'a [Token]) -> MemberAnswer<'a>
    requires room { inner < 1000 }
    requires first { starts Fixed.KeyVal tokens.now ≡ true }
    ensures exact { Gives spec_found result (row_at (phrases (read_at inner)) (of_mod spec_value) tokens.now) }
    ensures low { IfOk result (λ x. x.height ≤ inner + 1) }
{
    let rest = rest_of(tokens);
    match without_form(What::OperatorDefinition, rest) {
        Ok(()) => (),
        Err(stop) => return Err(stop),
    }
    let place = next_spot(rest).place;
    let (name, rest) = match take_word(rest) {
        Ok(found) => found,
        Err(stop) => return Err(stop),
    };
    let heads = match heads(bump, inner, rest) {
        Ok(heads) => heads,
        Err(stop) => return Err(stop),
    };
    let rest = match take(heads.rest, Fixed::Colon) {
        Ok(rest) => rest,
        Err(stop) => return Err(stop),
    };
    let ty = match whole_type(bump, inner, rest) {
        Ok(ty) => ty,
        Err(stop) => return Err(stop),
    };
    Ok(Found {
        tree: Spec {
            place: next_spot(tokens).place,
            form: SpecForm::Value(Label { name, place }, heads.tree, ty.tree),
        },
        height: greater(heads.height, ty.height) + 1,
        rest: ty.rest,
    })
}

#[tactic(auto, unfolding(fut_grammar::specs::Reading::row_at, fut_grammar::specs::Reading::parts_at, fut_grammar::specs::Reading::has_at, fut_grammar::specs::Reading::expect, fut_grammar::specs::Reading::sub_at, fut_grammar::specs::Phrases::phrases))]
fn type_name<'a>(bump: &'a Bump, inner: u32, tokens: &'a [Token]) -> MemberAnswer<'a>
    requires room { inner < 1000 }
    requires first { starts Fixed.KeyType tokens.now ≡ true }
    ensures exact { Gives spec_found result (row_at (phrases (read_at inner)) (of_mod spec_type) tokens.now) }
    ensures low { IfOk result (λ x. x.height ≤ inner + 1) }
{
    let rest = rest_of(tokens);
    match without_form(What::LiftedType, rest) {
        Ok(()) => (),
        Err(stop) => return Err(stop),
    }
    let place = next_spot(rest).place;
    let (name, rest) = match take_word(rest) {
        Ok(found) => found,
        Err(stop) => return Err(stop),
    };
    let ty = match maybe_type(bump, inner, rest) {
        Ok(ty) => ty,
        Err(stop) => return Err(stop),
    };
    Ok(Found {
        tree: Spec {
            place: next_spot(tokens).place,
            form: SpecForm::TypeName(Label { name, place }, ty.tree),
        },
        height: ty.height + 1,
        rest: ty.rest,
    })
}

// An equals sign and a type, or nothing.
#[tactic(auto, unfolding(fut_grammar::specs::Reading::maybe_at, fut_grammar::specs::Phrases::phrases))]
fn maybe_type<'a>(
    bump: &'a Bump,
    inner: u32,
    tokens: &'a [Token],
) -> Result<Found<'a, Option<&'a TypeExp<'a>>>, Stop>
    requires { inner < 1000 }
    ensures exact { Gives (found_as maybe) result (maybe_at (phrases (read_at inner)) Fixed.Equal Whole_type 0 tokens.now) }
    ensures low { IfOk result (λ x. x.height ≤ inner) }
{
    if !starts_with(tokens, Fixed::Equal) {
        return Ok(Found {
            tree: None,
            height: 0,
            rest: tokens,
        });
    }
    let ty = match whole_type(bump, inner, rest_of(tokens)) {
        Ok(ty) => ty,
        Err(stop) => return Err(stop),
    };
    Ok(Found {
        tree: Some(ty.tree),
        height: ty.height,
        rest: ty.rest,
    })
}
