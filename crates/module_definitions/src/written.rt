// The values of definitions, of what is written of them.
ghost use Rattle.std.specs.Prelude.{◌≡◌, ◌∷◌, []};
ghost use Rattle.fut_tree.specs.Names.{names as texts_of};
ghost use Rattle.fut_flat.specs.Erased.{type_of};
ghost use Rattle.fut_flat.specs.Sources.{source_type, spelled};
ghost use Rattle.fut_flat.specs.Terms.{Declared, Strict, Type_use, no_arg, no_term};
ghost use Rattle.elab_nodes.specs.Built.{Built1};
ghost use Rattle.elab_nodes.specs.Held.{held_term};
ghost use Rattle.elab_scopes.specs.Answers.{Went};
ghost use Rattle.elab_scopes.specs.Declarations.{given_name, hiding_term, inner_name, named_type, same_term, sealed_term, type_term};
ghost use Rattle.elab_scopes.specs.Resolve.{resolve, resolve_type};
ghost use Rattle.module_state.specs.Written.{written_of};

use bumpalo::Bump;
use elab_exps::{definition_value, used};
use elab_nodes::{exps, typed, types};
use elab_scopes::{Names, Stop, type_of};
use elab_types::resolved_type;
use fut_flat as flat;
use fut_flat::{Act, Exp};
use fut_scalar::Place;
use fut_tree::TypeExp;
use module_state::Written;

/// The member of the module that is met, which no text names.
fn inner_path<'a>() -> &'a [&'a str]
    ensures { texts_of result.now ≡ inner_name ∷ [] }
{
    &["     "]
}

/// A type that is given for one which a module type leaves open.
fn given_path<'a>() -> &'a [&'a str]
    ensures { texts_of result.now ≡ given_name ∷ [] }
{
    &["      "]
}

// ---- types as values

/// The type of a path, which has no arguments.
fn path_type<'a>(
    path: &'a [&'a str],
    at: Place,
    bump: &'a Bump,
    names: &Names<'a>,
) -> Result<&'a flat::TypeExp<'a>, Stop<'a>>
    ensures { Went (λ t. type_of t.now) (resolve_type (Type_use (spelled (texts_of path.now) at) no_arg)) names.now names.now result }
{
    match type_of(names, path, at) {
        Ok(of) => types::named(bump, at, Ok(of), Ok(&[])),
        Err(refusal) => Err(Stop::Refused(refusal)),
    }
}

/// A type as the value of a definition, of the answer for the type.
fn type_node<'a>(
    at: Place,
    ty: Result<&'a flat::TypeExp<'a>, Stop<'a>>,
    bump: &'a Bump,
) -> Result<&'a Exp<'a>, Stop<'a>>
    ensures { Built1 (λ t x. held_term x ≡ Strict (Declared (type_of t.now)) at no_term) ty.entry result }
{
    match ty {
        Ok(ty) => exps::strict(bump, at, at, Act::Declared(ty), Ok(&[])),
        Err(stop) => Err(stop),
    }
}

/// A written type as the value of a definition.
fn type_value<'a>(
    at: Place,
    ty: &'a TypeExp<'a>,
    bump: &'a Bump,
    names: &mut Names<'a>,
) -> Result<&'a Exp<'a>, Stop<'a>>
    ensures { Went held_term (resolve (type_term at (source_type ty.now))) names.old names.new result }
{
    type_node(at, resolved_type(ty, bump, names), bump)
}

/// The type of a path as the value of a definition.
fn path_value<'a>(
    path: &'a [&'a str],
    at: Place,
    bump: &'a Bump,
    names: &Names<'a>,
) -> Result<&'a Exp<'a>, Stop<'a>>
    ensures { Went held_term (resolve (type_term at (Type_use (spelled (texts_of path.now) at) no_arg))) names.now names.now result }
{
    type_node(at, path_type(path, at, bump, names), bump)
}

// ---- members of module types

/// The value of the module that is met, as a member of a written type.
fn sealed_value<'a>(
    at: Place,
    ty: &'a TypeExp<'a>,
    bump: &'a Bump,
    names: &mut Names<'a>,
) -> Result<&'a Exp<'a>, Stop<'a>>
    ensures { Went held_term (resolve (sealed_term at ty.now)) names.old names.new result }
{
    let ty = resolved_type(ty, bump, names);
    let inner = used(inner_path(), at, bump, names);
    typed::declared(bump, at, ty, inner)
}

/// A new type that hides that of the module which is met.
fn hidden_value<'a>(at: Place, bump: &'a Bump, names: &Names<'a>) -> Result<&'a Exp<'a>, Stop<'a>>
    ensures { Went held_term (resolve (hiding_term at)) names.now names.now result }
{
    path_value(inner_path(), at, bump, names)
}

/// The type of the module that is met, which has to be a written one.
fn same_value<'a>(
    at: Place,
    ty: &'a TypeExp<'a>,
    bump: &'a Bump,
    names: &mut Names<'a>,
) -> Result<&'a Exp<'a>, Stop<'a>>
    ensures { Went held_term (resolve (same_term at (source_type ty.now))) names.old names.new result }
{
    let value = type_value(at, ty, bump, names);
    let inner = path_type(inner_path(), at, bump, names);
    typed::ascribed(bump, at, at, value, inner)
}

/// The type of the module that is met, which has to be the one that is given.
fn given_value<'a>(at: Place, bump: &'a Bump, names: &Names<'a>) -> Result<&'a Exp<'a>, Stop<'a>>
    ensures { Went held_term (resolve (same_term at (named_type given_name at))) names.now names.now result }
{
    let value = path_value(given_path(), at, bump, names);
    let inner = path_type(inner_path(), at, bump, names);
    typed::ascribed(bump, at, at, value, inner)
}

/// The value of a definition, of what is written of it.
pub fn written_value<'a>(
    value: Written<'a>,
    bump: &'a Bump,
    names: &mut Names<'a>,
) -> Result<&'a Exp<'a>, Stop<'a>>
    ensures { Went held_term (resolve (written_of value.entry)) names.old names.new result }
{
    match value {
        Written::Definition(params, ty, value) => definition_value(params, ty, value, bump, names),
        Written::Type(at, ty) => type_value(at, ty, bump, names),
        Written::Sealed(at, ty) => sealed_value(at, ty, bump, names),
        Written::Hidden(at) => hidden_value(at, bump, names),
        Written::Same(at, ty) => same_value(at, ty, bump, names),
        Written::Given(at) => given_value(at, bump, names),
    }
}
