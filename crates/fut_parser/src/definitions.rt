// Declarations with no modules in them.
ghost use Rattle.std.specs.Prelude.{◌≡◌, ◌≤◌, ◌<◌, ◌∷◌, false, true, IfOk};
ghost use Rattle.fut_ast.specs.ModRows.{dec_import, dec_mtype, dec_type, definition, definition_parts};
ghost use Rattle.fut_ast.specs.Parts.{Sign};
ghost use Rattle.fut_ast.specs.Rows.{of_mod};
ghost use Rattle.fut_ast.specs.Sorts.{Dec_rest};
ghost use Rattle.fut_ast.specs.Tokens.{starts, tail};
ghost use Rattle.fut_grammar.specs.Phrases.{items, read_at};
ghost use Rattle.fut_grammar.specs.Reading.{Gives, parts_at, row_at};
ghost use Rattle.fut_parser.specs.Private.ModFound.{dec_form_found};

use bumpalo::Bump;
use fut_ast::What;
use fut_grammar::Stop;
use fut_token::{Fixed, Token};
use fut_tree::{DecForm, Label};
use parse_exps::whole_expression;
use parse_module_types::module_type;
use parse_types::found::Found;
use parse_types::params::{heads_inside, maybe_type_inside, patterns_inside};
use parse_types::tokens::{greater, next_spot, rest_of, take, take_text, take_word, without_form};
use parse_types::types::whole_type;

/// What is read as a declaration without its `local`.
pub type DecFormAnswer<'a> = Result<Found<'a, DecForm<'a>>, Stop>;

/// `def`, `let` or `entry`, and a definition.
#[tactic(auto, unfolding(fut_grammar::specs::Reading::parts_at, fut_grammar::specs::Reading::has_at, fut_grammar::specs::Reading::expect, fut_grammar::specs::Reading::sub_at, fut_grammar::specs::Phrases::items))]
pub fn definition<'a>(
    bump: &'a Bump,
    inner: u32,
    word: Fixed,
    entry: bool,
    tokens: &'a [Token],
) -> DecFormAnswer<'a>
    requires room { inner < 1000 }
    requires first { starts word tokens.now ≡ true }
    ensures exact { Gives dec_form_found result (parts_at (items (read_at inner)) false Dec_rest (Sign word ∷ definition_parts) (λ at. definition entry) 0 tokens.now) }
    ensures low { IfOk result (λ x. x.height ≤ inner) }
{
    let _word = word;
    let behind = rest_of(tokens);
    match without_form(What::OperatorDefinition, behind) {
        Ok(()) => (),
        Err(stop) => return Err(stop),
    }
    let place = next_spot(behind).place;
    let (name, rest) = match take_word(behind) {
        Ok(found) => found,
        Err(stop) => return Err(stop),
    };
    let heads = match heads_inside(bump, inner, rest) {
        Ok(heads) => heads,
        Err(stop) => return Err(stop),
    };
    let params = match patterns_inside(bump, inner, heads.height, heads.rest) {
        Ok(params) => params,
        Err(stop) => return Err(stop),
    };
    let ty = match maybe_type_inside(bump, inner, params.height, params.rest) {
        Ok(ty) => ty,
        Err(stop) => return Err(stop),
    };
    let rest = match take(ty.rest, Fixed::Equal) {
        Ok(rest) => rest,
        Err(stop) => return Err(stop),
    };
    let value = match whole_expression(bump, inner, rest) {
        Ok(value) => value,
        Err(stop) => return Err(stop),
    };
    Ok(Found {
        tree: DecForm::Def {
            entry,
            label: Label { name, place },
            heads: heads.tree,
            params: params.tree,
            result: ty.tree,
            value: value.tree,
        },
        height: greater(ty.height, value.height),
        rest: value.rest,
    })
}

/// `type`, a name, its parameters and a type.
#[tactic(auto, unfolding(fut_grammar::specs::Reading::row_at, fut_grammar::specs::Reading::parts_at, fut_grammar::specs::Reading::has_at, fut_grammar::specs::Reading::expect, fut_grammar::specs::Reading::sub_at, fut_grammar::specs::Phrases::items))]
pub fn type_name<'a>(bump: &'a Bump, inner: u32, tokens: &'a [Token]) -> DecFormAnswer<'a>
    requires room { inner < 1000 }
    requires first { starts Fixed.KeyType tokens.now ≡ true }
    ensures exact { Gives dec_form_found result (row_at (items (read_at inner)) (of_mod dec_type) tokens.now) }
    ensures low { IfOk result (λ x. x.height ≤ inner) }
{
    let rest = rest_of(tokens);
    match without_form(What::LiftedType, rest) {
        Ok(()) => (),
        Err(stop) => return Err(stop),
    }
    let place = next_spot(rest).place;
    let (name, rest) = match take_word(rest) {
        Ok(found) => found,
        Err(stop) => return Err(stop),
    };
    let heads = match heads_inside(bump, inner, rest) {
        Ok(heads) => heads,
        Err(stop) => return Err(stop),
    };
    let rest = match take(heads.rest, Fixed::Equal) {
        Ok(rest) => rest,
        Err(stop) => return Err(stop),
    };
    let ty = match whole_type(bump, inner, rest) {
        Ok(ty) => ty,
        Err(stop) => return Err(stop),
    };
    Ok(Found {
        tree: DecForm::TypeName(Label { name, place }, heads.tree, ty.tree),
        height: greater(heads.height, ty.height),
        rest: ty.rest,
    })
}

/// `module type`, a name and a module type.
#[tactic(auto, unfolding(fut_grammar::specs::Reading::row_at, fut_grammar::specs::Reading::parts_at, fut_grammar::specs::Reading::has_at, fut_grammar::specs::Reading::expect, fut_grammar::specs::Reading::sub_at, fut_grammar::specs::Phrases::items))]
pub fn module_type_name<'a>(bump: &'a Bump, inner: u32, tokens: &'a [Token]) -> DecFormAnswer<'a>
    requires room { inner < 1000 }
    requires first { starts Fixed.KeyModule tokens.now ≡ true }
    requires second { starts Fixed.KeyType (tail tokens.now) ≡ true }
    ensures exact { Gives dec_form_found result (row_at (items (read_at inner)) (of_mod dec_mtype) tokens.now) }
    ensures low { IfOk result (λ x. x.height ≤ inner) }
{
    let rest = rest_of(rest_of(tokens));
    match without_form(What::LiftedType, rest) {
        Ok(()) => (),
        Err(stop) => return Err(stop),
    }
    let place = next_spot(rest).place;
    let (name, rest) = match take_word(rest) {
        Ok(found) => found,
        Err(stop) => return Err(stop),
    };
    let rest = match take(rest, Fixed::Equal) {
        Ok(rest) => rest,
        Err(stop) => return Err(stop),
    };
    let ty = match module_type(bump, inner, true, rest) {
        Ok(ty) => ty,
        Err(stop) => return Err(stop),
    };
    Ok(Found {
        tree: DecForm::ModType(Label { name, place }, ty.tree),
        height: ty.height,
        rest: ty.rest,
    })
}

/// `import` and a text.
#[tactic(auto, unfolding(fut_grammar::specs::Reading::row_at, fut_grammar::specs::Reading::parts_at, fut_grammar::specs::Reading::has_at))]
pub fn imported<'a>(inner: u32, tokens: &'a [Token]) -> DecFormAnswer<'a>
    requires { inner < 1000 }
    ensures exact { Gives dec_form_found result (row_at (items (read_at inner)) (of_mod dec_import) tokens.now) }
    ensures low { IfOk result (λ x. x.height ≤ inner) }
{
    let _inner = inner;
    let rest = match take(tokens, Fixed::KeyImport) {
        Ok(rest) => rest,
        Err(stop) => return Err(stop),
    };
    let (file, rest) = match take_text(rest) {
        Ok(found) => found,
        Err(stop) => return Err(stop),
    };
    Ok(Found {
        tree: DecForm::Import(file),
        height: 0,
        rest,
    })
}
