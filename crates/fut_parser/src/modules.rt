// Module expressions: each production over what reads the modules and declarations in it.
ghost use Rattle.std.specs.Prelude.{◌≡◌, ◌≤◌, ◌<◌, ◌+◌, suc, false, true, [], ◌∷◌, IfOk};
ghost use Rattle.fut_ast.specs.Behind.{begins_mod_argument};
ghost use Rattle.fut_ast.specs.ModRows.{mod_at, mod_decs, mod_function, mod_import, mod_path, round_mod};
ghost use Rattle.fut_ast.specs.Parts.{Maybe, Sign, Sub};
ghost use Rattle.fut_ast.specs.Rows.{applied_mod, far_mod, of_mod, sealed};
ghost use Rattle.fut_ast.specs.Sorts.{Atomic_mod, Far_mod, Last_mod, Whole_mtype};
ghost use Rattle.fut_ast.specs.declared.module.ModForm.TheVariants.{Lambda};
ghost use Rattle.fut_ast.specs.Tokens.{starts};
ghost use Rattle.fut_grammar.specs.Phrases.{atomic_mod_at, far_at, first_mod_at, last_mod_at, once_at, phrases, read_at};
ghost use Rattle.fut_grammar.specs.Reading.{Gives, parts_at, row_at};
ghost use Rattle.fut_parser.specs.Private.ModFound.{ending_found};
ghost use Rattle.parse_types.specs.Found.{tree_found};
ghost use Rattle.fut_tree.specs.ModTypes.{label_of};

use crate::items::Items;
use crate::mod_nodes as node;
use crate::mod_tokens::{begins_module_argument, goes_on_module};
use crate::module_tie::{ModAnswer, ModEnding, ModSort, ReadDeclaration, ReadModule};
use bumpalo::Bump;
use fut_ast::Spot;
use fut_grammar::{Fault, Stop};
use fut_scalar::Place;
use fut_token::{Fixed, Token};
use fut_tree::{Held, ModExp, ModForm, Param};
use parse_module_types::{maybe_module_type, module_parameter, module_type};
use parse_types::found::Found;
use parse_types::lists::{BeginItem, ReadItem, many, several};
use parse_types::tokens::{
    greater, next_spot, refused, rest_of, starts_with, starts_with_word, take, take_path, take_text,
};

/// A module expression, its height, and the tokens behind it, where its ending is of no use.
type Module<'a> = Result<Found<'a, &'a ModExp<'a>>, Stop>;

/// Any module expression as the last part of a form.
#[tactic(auto, unfolding(fut_grammar::specs::Phrases::last_mod_at, fut_grammar::specs::Phrases::applied_mod_at))]
pub fn last_below<'a, M: ReadModule<'a>, D: ReadDeclaration<'a>>(
    bump: &'a Bump,
    read: M,
    read_dec: D,
    inner: u32,
    tokens: &'a [Token],
) -> ModAnswer<'a>
    requires law { M.reads read inner }
    requires law_dec { D.reads read_dec inner }
    requires room { inner < 1000 }
    ensures exact { Gives ending_found result (last_mod_at (phrases (read_at inner)) (suc inner) tokens.now) }
    ensures low { IfOk result (λ x. x.height ≤ inner + 1) }
{
    let at = next_spot(tokens);
    let first = match first_below(bump, read, read_dec, inner, tokens) {
        Ok(first) => first,
        Err(stop) => return Err(stop),
    };
    match arguments_behind(bump, read, inner, at, first) {
        Ok(applied) => seal_behind(bump, inner, at, applied),
        Err(stop) => Err(stop),
    }
}

#[tactic(auto, unfolding(fut_grammar::specs::Phrases::first_mod_at))]
fn first_below<'a, M: ReadModule<'a>, D: ReadDeclaration<'a>>(
    bump: &'a Bump,
    read: M,
    read_dec: D,
    inner: u32,
    tokens: &'a [Token],
) -> Module<'a>
    requires law { M.reads read inner }
    requires law_dec { D.reads read_dec inner }
    requires room { inner < 1000 }
    ensures exact { Gives tree_found result (first_mod_at (phrases (read_at inner)) (suc inner) tokens.now) }
    ensures low { IfOk result (λ x. x.height ≤ inner + 1) }
{
    if starts_with(tokens, Fixed::KeyImport) {
        imported(bump, inner, tokens)
    } else {
        argument_below(bump, read, read_dec, inner, tokens)
    }
}

/// A module expression that may be an argument.
#[tactic(auto, unfolding(fut_grammar::specs::Phrases::atomic_mod_at))]
pub fn argument_below<'a, M: ReadModule<'a>, D: ReadDeclaration<'a>>(
    bump: &'a Bump,
    read: M,
    read_dec: D,
    inner: u32,
    tokens: &'a [Token],
) -> Module<'a>
    requires law { M.reads read inner }
    requires law_dec { D.reads read_dec inner }
    requires room { inner < 1000 }
    ensures exact { Gives tree_found result (atomic_mod_at (phrases (read_at inner)) (suc inner) tokens.now) }
    ensures low { IfOk result (λ x. x.height ≤ inner + 1) }
{
    if starts_with_word(tokens) {
        path(bump, inner, tokens)
    } else if starts_with(tokens, Fixed::OpenBrace) {
        in_braces(bump, read_dec, inner, tokens)
    } else if starts_with(tokens, Fixed::OpenParen) {
        round(read, inner, tokens)
    } else {
        far_function(bump, read, inner, tokens)
    }
}

#[tactic(auto, unfolding(fut_grammar::specs::Phrases::far_at, fut_grammar::specs::Phrases::ended))]
fn far_function<'a, M: ReadModule<'a>>(
    bump: &'a Bump,
    read: M,
    inner: u32,
    tokens: &'a [Token],
) -> Module<'a>
    requires law { M.reads read inner }
    requires room { inner < 1000 }
    ensures exact { Gives tree_found result (far_at far_mod (row_at (phrases (read_at inner)) (of_mod mod_function) tokens.now)) }
    ensures low { IfOk result (λ x. x.height ≤ inner + 1) }
{
    let found = match function(bump, read, inner, tokens) {
        Ok(found) => found,
        Err(stop) => return Err(stop),
    };
    if goes_on_module(found.tree.is_sealed, found.rest) {
        return Err(Stop::Fault(refused(found.rest)));
    }
    Ok(Found {
        tree: found.tree.module,
        height: found.height,
        rest: found.rest,
    })
}

#[tactic(auto, unfolding(fut_grammar::specs::Reading::row_at, fut_grammar::specs::Reading::parts_at, fut_grammar::specs::Reading::has_at, fut_grammar::specs::Reading::sub_at, fut_grammar::specs::Phrases::phrases))]
fn function<'a, M: ReadModule<'a>>(
    bump: &'a Bump,
    read: M,
    inner: u32,
    tokens: &'a [Token],
) -> ModAnswer<'a>
    requires law { M.reads read inner }
    requires room { inner < 1000 }
    ensures exact { Gives ending_found result (row_at (phrases (read_at inner)) (of_mod mod_function) tokens.now) }
    ensures low { IfOk result (λ x. x.height ≤ inner + 1) }
{
    let rest = match take(tokens, Fixed::Backslash) {
        Ok(rest) => rest,
        Err(stop) => return Err(stop),
    };
    let param = match module_parameter(bump, inner, rest) {
        Ok(param) => param,
        Err(stop) => return Err(stop),
    };
    body_behind(
        bump,
        read,
        inner,
        next_spot(tokens).place,
        param.tree,
        greater(0, param.height),
        param.rest,
    )
}

// Behind the parameter of a function, the type of its body, an arrow and the body.
#[tactic(auto, unfolding(fut_grammar::specs::Reading::parts_at, fut_grammar::specs::Reading::has_at, fut_grammar::specs::Reading::sub_at, fut_grammar::specs::Phrases::phrases))]
fn body_behind<'a, M: ReadModule<'a>>(
    bump: &'a Bump,
    read: M,
    inner: u32,
    place: Place,
    param: Param<'a>,
    param_height: u32,
    tokens: &'a [Token],
) -> ModAnswer<'a>
    requires law { M.reads read inner }
    requires room { (inner < 1000) × (param_height ≤ inner) }
    ensures exact { Gives ending_found result (parts_at (phrases (read_at inner)) true Far_mod (Maybe Fixed.Colon (Whole_mtype false) ∷ Sign Fixed.Arrow ∷ Sub Last_mod ∷ []) (λ ty arrow m. (mod_at place (Lambda (label_of param.entry.label) param.entry.bound.now ty m.0), m.1)) param_height tokens.now) }
    ensures low { IfOk result (λ x. x.height ≤ inner + 1) }
{
    let ty = match maybe_module_type(bump, inner, false, param_height, tokens) {
        Ok(ty) => ty,
        Err(stop) => return Err(stop),
    };
    let rest = match take(ty.rest, Fixed::Arrow) {
        Ok(rest) => rest,
        Err(stop) => return Err(stop),
    };
    let body = match read.read(inner, ModSort::Last, rest) {
        Ok(body) => body,
        Err(stop) => return Err(stop),
    };
    let form = ModForm::Lambda(param.label, param.bound, ty.tree, body.tree.module);
    node::ended(
        bump,
        ModExp { place, form },
        body.tree.is_sealed,
        greater(ty.height, body.height) + 1,
        body.rest,
    )
}

#[tactic(auto, unfolding(fut_grammar::specs::Reading::row_at, fut_grammar::specs::Reading::parts_at, fut_grammar::specs::Reading::has_at, fut_grammar::specs::Reading::sub_at, fut_grammar::specs::Phrases::phrases, fut_grammar::specs::Reading::expect))]
fn round<'a, M: ReadModule<'a>>(read: M, inner: u32, tokens: &'a [Token]) -> Module<'a>
    requires first { starts Fixed.OpenParen tokens.now ≡ true }
    requires law { M.reads read inner }
    requires room { inner < 1000 }
    ensures exact { Gives tree_found result (row_at (phrases (read_at inner)) (of_mod round_mod) tokens.now) }
    ensures low { IfOk result (λ x. x.height ≤ inner + 1) }
{
    let found = match read.read(inner, ModSort::Whole, rest_of(tokens)) {
        Ok(found) => found,
        Err(stop) => return Err(stop),
    };
    if !starts_with(found.rest, Fixed::CloseParen) {
        return Err(Stop::Fault(refused(found.rest)));
    }
    Ok(Found {
        tree: found.tree.module,
        height: found.height + 1,
        rest: rest_of(found.rest),
    })
}

#[tactic(auto, unfolding(fut_grammar::specs::Reading::row_at, fut_grammar::specs::Reading::parts_at, fut_grammar::specs::Reading::has_at, fut_grammar::specs::Reading::sub_at, fut_grammar::specs::Phrases::phrases))]
fn in_braces<'a, D: ReadDeclaration<'a>>(
    bump: &'a Bump,
    read_dec: D,
    inner: u32,
    tokens: &'a [Token],
) -> Module<'a>
    requires law_dec { D.reads read_dec inner }
    requires first { starts Fixed.OpenBrace tokens.now ≡ true }
    requires room { inner < 1000 }
    ensures exact { Gives tree_found result (row_at (phrases (read_at inner)) (of_mod mod_decs) tokens.now) }
    ensures low { IfOk result (λ x. x.height ≤ inner + 1) }
{
    let place = next_spot(tokens).place;
    let all = match many(bump, Items { read: read_dec }, inner, 0, rest_of(tokens)) {
        Ok(all) => all,
        Err(stop) => return Err(stop),
    };
    let form = ModForm::Decs(all.tree);
    match take(all.rest, Fixed::CloseBrace) {
        Ok(rest) => node::made(bump, ModExp { place, form }, all.height + 1, rest),
        Err(stop) => Err(stop),
    }
}

// ---- what has no modules in it

#[tactic(auto, unfolding(fut_grammar::specs::Reading::row_at, fut_grammar::specs::Reading::parts_at, fut_grammar::specs::Reading::has_at, fut_grammar::specs::Reading::expect))]
fn imported<'a>(bump: &'a Bump, inner: u32, tokens: &'a [Token]) -> Module<'a>
    requires room { inner < 1000 }
    requires first { starts Fixed.KeyImport tokens.now ≡ true }
    ensures exact { Gives tree_found result (row_at (phrases (read_at inner)) (of_mod mod_import) tokens.now) }
    ensures low { IfOk result (λ x. x.height ≤ inner + 1) }
{
    let _inner = inner;
    let place = next_spot(tokens).place;
    let (file, rest) = match take_text(rest_of(tokens)) {
        Ok(found) => found,
        Err(stop) => return Err(stop),
    };
    let form = ModForm::Import(file);
    node::made(bump, ModExp { place, form }, 1, rest)
}

#[tactic(auto, unfolding(fut_grammar::specs::Reading::row_at, fut_grammar::specs::Reading::parts_at, fut_grammar::specs::Reading::has_at))]
fn path<'a>(bump: &'a Bump, inner: u32, tokens: &'a [Token]) -> Module<'a>
    requires { inner < 1000 }
    ensures exact { Gives tree_found result (row_at (phrases (read_at inner)) (of_mod mod_path) tokens.now) }
    ensures low { IfOk result (λ x. x.height ≤ inner + 1) }
{
    let _inner = inner;
    let place = next_spot(tokens).place;
    let (names, rest) = match take_path(bump, tokens) {
        Ok(found) => found,
        Err(stop) => return Err(stop),
    };
    let form = ModForm::Path(names);
    node::made(bump, ModExp { place, form }, 1, rest)
}

// ---- what stands behind a module

// Arguments, as many as stand there, or nothing.
#[tactic(auto, unfolding(fut_grammar::specs::Phrases::once_at, fut_grammar::specs::Reading::suffix_at, fut_grammar::specs::Reading::parts_at, fut_grammar::specs::Reading::has_at))]
fn arguments_behind<'a, M: ReadModule<'a>>(
    bump: &'a Bump,
    read: M,
    inner: u32,
    at: Spot,
    first: Found<'a, &'a ModExp<'a>>,
) -> Module<'a>
    requires law { M.reads read inner }
    requires room { (inner < 1000) × (first.height ≤ inner + 1) }
    ensures exact { Gives tree_found result (once_at (phrases (read_at inner)) (suc inner) begins_mod_argument applied_mod at (λ m. m) first.entry.tree.now first.entry.height first.entry.rest.now) }
    ensures low { IfOk result (λ x. x.height ≤ inner + 1) }
{
    if !begins_module_argument(first.rest) {
        return Ok(first);
    }
    if first.height > inner {
        return Err(Stop::Fault(Fault::TooDeep(first.rest.len())));
    }
    let all = match several(bump, Items { read }, inner, first.height, first.rest) {
        Ok(all) => all,
        Err(stop) => return Err(stop),
    };
    let place = at.place;
    let form = ModForm::Apply(first.tree, all.tree);
    node::made(bump, ModExp { place, form }, all.height + 1, all.rest)
}

impl<'a, M: ReadModule<'a>> ReadItem<'a, Held<'a, ModExp<'a>>> for Items<M> {
    ghost sort = { Atomic_mod };

    ghost seen = { λ m. m.at.now };

    ghost reads = { λ s d. M.reads s.read d };

    #[tactic(auto, unfolding(fut_grammar::specs::Phrases::phrases))]
    fn item(
        self,
        bump: &'a Bump,
        inner: u32,
        tokens: &'a [Token],
    ) -> Result<Found<'a, Held<'a, ModExp<'a>>>, Stop> {
        let _bump = bump;
        let found = match self.read.read(inner, ModSort::Argument, tokens) {
            Ok(found) => found,
            Err(stop) => return Err(stop),
        };
        Ok(Found {
            tree: Held {
                at: found.tree.module,
            },
            height: found.height,
            rest: found.rest,
        })
    }
}

impl<'a, M: ReadModule<'a>> BeginItem<'a, Held<'a, ModExp<'a>>> for Items<M> {
    fn begins(self, tokens: &'a [Token]) -> bool {
        begins_module_argument(tokens)
    }
}

// A colon and a module type, or nothing.
#[tactic(auto, unfolding(fut_grammar::specs::Phrases::once_at, fut_grammar::specs::Reading::suffix_at, fut_grammar::specs::Reading::parts_at, fut_grammar::specs::Reading::has_at, fut_grammar::specs::Reading::sub_at, fut_grammar::specs::Reading::expect, fut_grammar::specs::Phrases::phrases))]
fn seal_behind<'a>(
    bump: &'a Bump,
    inner: u32,
    at: Spot,
    first: Found<'a, &'a ModExp<'a>>,
) -> ModAnswer<'a>
    requires { (inner < 1000) × (first.height ≤ inner + 1) }
    ensures exact { Gives ending_found result (once_at (phrases (read_at inner)) (suc inner) (starts Fixed.Colon) sealed at (λ m. (m, false)) first.entry.tree.now first.entry.height first.entry.rest.now) }
    ensures low { IfOk result (λ x. x.height ≤ inner + 1) }
{
    if !starts_with(first.rest, Fixed::Colon) {
        return Ok(Found {
            tree: ModEnding {
                module: first.tree,
                is_sealed: false,
            },
            height: first.height,
            rest: first.rest,
        });
    }
    if begins_module_argument(first.rest) {
        return Err(Stop::Fault(refused(first.rest)));
    }
    if first.height > inner {
        return Err(Stop::Fault(Fault::TooDeep(first.rest.len())));
    }
    let ty = match module_type(bump, inner, true, rest_of(first.rest)) {
        Ok(ty) => ty,
        Err(stop) => return Err(stop),
    };
    let place = at.place;
    let form = ModForm::Seal(first.tree, ty.tree);
    node::ended(
        bump,
        ModExp { place, form },
        true,
        greater(first.height, ty.height) + 1,
        ty.rest,
    )
}
