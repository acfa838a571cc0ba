// Declarations: each production over what reads the modules and declarations in it.
ghost use Rattle.std.specs.Prelude.{◌≡◌, ◌≤◌, ◌<◌, ◌+◌, suc, true, IfOk};
ghost use Rattle.fut_ast.specs.ModRows.{dec_module, dec_open};
ghost use Rattle.fut_ast.specs.Rows.{of_mod};
ghost use Rattle.fut_ast.specs.Sorts.{Dec_item, Dec_rest};
ghost use Rattle.fut_ast.specs.Tokens.{starts};
ghost use Rattle.fut_grammar.specs.Phrases.{dec_at, items, other_dec_at, phrases, read_at};
ghost use Rattle.fut_grammar.specs.Reading.{Gives, row_at};
ghost use Rattle.fut_parser.specs.Private.Decs.{behind_local};
ghost use Rattle.fut_parser.specs.Private.ModFound.{dec_form_found, dec_found};
ghost use Rattle.fut_tree.specs.Mods.{dec_of};

use crate::definitions::{DecFormAnswer, definition, imported, module_type_name, type_name};
use crate::items::Items;
use crate::mod_tokens::{begins_declaration, begins_declared};
use crate::module_tie::{DecAnswer, ModSort, ReadDeclaration, ReadModule};
use bumpalo::Bump;
use fut_grammar::Stop;
use fut_token::{Fixed, Token};
use fut_tree::{Dec, DecForm, Label};
use parse_module_types::{maybe_module_type, module_params};
use parse_types::found::Found;
use parse_types::lists::{BeginItem, ReadItem};
use parse_types::tokens::{greater, next_spot, refused, rest_of, starts_with, take, take_word};

impl<'a, D: ReadDeclaration<'a>> ReadItem<'a, Dec<'a>> for Items<D> {
    ghost sort = { Dec_item };

    ghost seen = { dec_of };

    ghost reads = { λ s d. D.reads s.read d };

    #[tactic(auto, unfolding(fut_grammar::specs::Phrases::phrases))]
    fn item(self, bump: &'a Bump, inner: u32, tokens: &'a [Token]) -> DecAnswer<'a> {
        let _bump = bump;
        self.read.declaration(inner, tokens)
    }
}

impl<'a, D: ReadDeclaration<'a>> BeginItem<'a, Dec<'a>> for Items<D> {
    fn begins(self, tokens: &'a [Token]) -> bool {
        begins_declaration(tokens)
    }
}

/// A declaration.
#[tactic(auto, using(crate::proofs::DecLaws::declaration_is), unfolding(crate::specs::Private::Decs::declaration_at))]
pub fn declaration_below<'a, M: ReadModule<'a>>(
    bump: &'a Bump,
    read: M,
    inner: u32,
    tokens: &'a [Token],
) -> DecAnswer<'a>
    requires law { M.reads read inner }
    requires room { inner < 1000 }
    ensures exact { Gives dec_found result (dec_at (phrases (read_at inner)) (suc inner) tokens.now) }
    ensures low { IfOk result (λ x. x.height ≤ inner + 1) }
{
    match declared(bump, read, inner, behind_local(tokens)) {
        Ok(found) => Ok(Found {
            tree: Dec {
                place: next_spot(tokens).place,
                local: starts_with(tokens, Fixed::KeyLocal),
                form: found.tree,
            },
            height: found.height + 1,
            rest: found.rest,
        }),
        Err(stop) => Err(stop),
    }
}

// The tokens behind `local`, or all where it does not stand.
fn behind_local(tokens: &[Token]) -> &[Token]
    ensures { result.now ≡ behind_local tokens.now }
{
    if starts_with(tokens, Fixed::KeyLocal) {
        rest_of(tokens)
    } else {
        tokens
    }
}

#[tactic(auto, unfolding(fut_grammar::specs::Phrases::phrases, fut_grammar::specs::Phrases::bounded, fut_grammar::specs::Phrases::ended, fut_grammar::specs::Phrases::flat_at, fut_grammar::specs::Phrases::dec_rest_at, fut_grammar::specs::Reading::row_at, fut_grammar::specs::Reading::refuse_sort))]
fn declared<'a, M: ReadModule<'a>>(
    bump: &'a Bump,
    read: M,
    inner: u32,
    tokens: &'a [Token],
) -> DecFormAnswer<'a>
    requires law { M.reads read inner }
    requires room { inner < 1000 }
    ensures exact { Gives dec_form_found result (phrases (read_at inner) Dec_rest tokens.now) }
    ensures low { IfOk result (λ x. x.height ≤ inner) }
{
    if !begins_declared(tokens) {
        Err(Stop::Fault(refused(tokens)))
    } else if starts_with(tokens, Fixed::KeyDef) {
        definition(bump, inner, Fixed::KeyDef, false, tokens)
    } else if starts_with(tokens, Fixed::KeyLet) {
        definition(bump, inner, Fixed::KeyLet, false, tokens)
    } else if starts_with(tokens, Fixed::KeyEntry) {
        definition(bump, inner, Fixed::KeyEntry, true, tokens)
    } else {
        other_declared(bump, read, inner, tokens)
    }
}

#[tactic(auto, unfolding(fut_grammar::specs::Phrases::other_dec_at, fut_grammar::specs::Phrases::module_at))]
fn other_declared<'a, M: ReadModule<'a>>(
    bump: &'a Bump,
    read: M,
    inner: u32,
    tokens: &'a [Token],
) -> DecFormAnswer<'a>
    requires law { M.reads read inner }
    requires room { inner < 1000 }
    ensures exact { Gives dec_form_found result (other_dec_at (items (read_at inner)) tokens.now) }
    ensures low { IfOk result (λ x. x.height ≤ inner) }
{
    if starts_with(tokens, Fixed::KeyType) {
        type_name(bump, inner, tokens)
    } else if starts_with(tokens, Fixed::KeyModule) {
        if starts_with(rest_of(tokens), Fixed::KeyType) {
            module_type_name(bump, inner, tokens)
        } else {
            module_name(bump, read, inner, tokens)
        }
    } else if starts_with(tokens, Fixed::KeyOpen) {
        opened(read, inner, tokens)
    } else {
        imported(inner, tokens)
    }
}

#[tactic(auto, unfolding(fut_grammar::specs::Reading::row_at, fut_grammar::specs::Reading::parts_at, fut_grammar::specs::Reading::has_at, fut_grammar::specs::Reading::expect, fut_grammar::specs::Reading::sub_at, fut_grammar::specs::Phrases::items))]
fn module_name<'a, M: ReadModule<'a>>(
    bump: &'a Bump,
    read: M,
    inner: u32,
    tokens: &'a [Token],
) -> DecFormAnswer<'a>
    requires law { M.reads read inner }
    requires first { starts Fixed.KeyModule tokens.now ≡ true }
    requires room { inner < 1000 }
    ensures exact { Gives dec_form_found result (row_at (items (read_at inner)) (of_mod dec_module) tokens.now) }
    ensures low { IfOk result (λ x. x.height ≤ inner) }
{
    let rest = rest_of(tokens);
    let place = next_spot(rest).place;
    let (name, rest) = match take_word(rest) {
        Ok(found) => found,
        Err(stop) => return Err(stop),
    };
    let params = match module_params(bump, inner, rest) {
        Ok(params) => params,
        Err(stop) => return Err(stop),
    };
    let ty = match maybe_module_type(bump, inner, true, params.height, params.rest) {
        Ok(ty) => ty,
        Err(stop) => return Err(stop),
    };
    let rest = match take(ty.rest, Fixed::Equal) {
        Ok(rest) => rest,
        Err(stop) => return Err(stop),
    };
    let body = match read.read(inner, ModSort::Whole, rest) {
        Ok(body) => body,
        Err(stop) => return Err(stop),
    };
    Ok(Found {
        tree: DecForm::Module(
            Label { name, place },
            params.tree,
            ty.tree,
            body.tree.module,
        ),
        height: greater(ty.height, body.height),
        rest: body.rest,
    })
}

#[tactic(auto, unfolding(fut_grammar::specs::Reading::row_at, fut_grammar::specs::Reading::parts_at, fut_grammar::specs::Reading::has_at, fut_grammar::specs::Reading::expect, fut_grammar::specs::Reading::sub_at, fut_grammar::specs::Phrases::items))]
fn opened<'a, M: ReadModule<'a>>(read: M, inner: u32, tokens: &'a [Token]) -> DecFormAnswer<'a>
    requires law { M.reads read inner }
    requires first { starts Fixed.KeyOpen tokens.now ≡ true }
    requires room { inner < 1000 }
    ensures exact { Gives dec_form_found result (row_at (items (read_at inner)) (of_mod dec_open) tokens.now) }
    ensures low { IfOk result (λ x. x.height ≤ inner) }
{
    let found = match read.read(inner, ModSort::Whole, rest_of(tokens)) {
        Ok(found) => found,
        Err(stop) => return Err(stop),
    };
    Ok(Found {
        tree: DecForm::Open(found.tree.module),
        height: found.height,
        rest: found.rest,
    })
}
