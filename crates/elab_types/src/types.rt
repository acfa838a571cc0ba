// Written types.
ghost use Rattle.std.specs.Prelude.{◌≡◌, map, true};
ghost use Rattle.fut_flat.specs.Erased.{size_of, type_of};
ghost use Rattle.fut_flat.specs.Sources.{source_size, source_type};
ghost use Rattle.fut_flat.proofs.ErasedPatterns.{argument_of, type_field};
ghost use Rattle.fut_tree.specs.Types.{maybe_size_of};
ghost use Rattle.fut_tree.specs.Names.{names as path_names};
ghost use Rattle.fut_flat.specs.Sources.{spelled};
ghost use Rattle.elab_scopes.specs.Answers.{Answers, Went};
ghost use Rattle.elab_scopes.specs.Scopes.{type_of as type_found};
ghost use Rattle.elab_scopes.specs.Table.{bound_of, scope_of};
ghost use Rattle.elab_scopes.specs.Resolve.{resolve_size, resolve_type};
ghost use Rattle.elab_scopes.specs.Walks.{each};
ghost use Rattle.elab_types.specs.Elements.{argument_part, names_parameter, type_field_part, type_part};

use crate::lists::put;
use crate::numbers::{in_scope, numbered};
use bumpalo::Bump;
use bumpalo::collections::into_bump_slice;
use elab_nodes::types as nodes;
use elab_scopes::{Names, Stop, size_of, type_of};
use fut_flat as flat;
use fut_flat::Ref;
use fut_scalar::Place;
use fut_tree::{Held, SizeExp, SizeForm, TypeArg, TypeExp, TypeField, TypeForm};

/// A size, or a number of its own for one that is not written.
#[tactic(auto, using(crate::proofs::TypeLaws::size_rules))]
fn resolved_size<'a>(
    size: Option<SizeExp<'a>>,
    at: Place,
    names: &mut Names<'a>,
) -> Result<flat::Size, Stop<'a>>
    ensures went { Went size_of (resolve_size (source_size at (maybe_size_of size.entry))) names.old names.new result }
    ensures bound { bound_of names.new ≡ bound_of names.old }
{
    match size {
        None => match numbered("", names) {
            Ok(bind) => Ok(flat::Size {
                place: at,
                form: flat::SizeForm::Blank(bind),
            }),
            Err(stop) => Err(stop),
        },
        Some(size) => match size.form {
            SizeForm::Const(value) => Ok(flat::Size {
                place: size.place,
                form: flat::SizeForm::Const(value),
            }),
            SizeForm::Path(path) => match size_of(names, path, size.place) {
                Ok(of) => Ok(flat::Size {
                    place: size.place,
                    form: flat::SizeForm::Use(of),
                }),
                Err(refusal) => Err(Stop::Refused(refusal)),
            },
        },
    }
}

/// The type that a path names.
#[tactic(auto, using(crate::proofs::TypeLaws::use_rules))]
fn used<'a>(path: &'a [&'a str], at: Place, names: &Names<'a>) -> Result<Ref, Stop<'a>>
    ensures { Answers (type_found (scope_of names.now) (spelled (path_names path.now) at)) result }
{
    match type_of(names, path, at) {
        Ok(of) => Ok(of),
        Err(refusal) => Err(Stop::Refused(refusal)),
    }
}

/// A type with its names resolved.
#[cycle(types)]
#[tactic(auto, using(crate::proofs::HeldTypes::type_held))]
pub fn resolved_type<'a>(
    ty: &'a TypeExp<'a>,
    bump: &'a Bump,
    names: &mut Names<'a>,
) -> Result<&'a flat::TypeExp<'a>, Stop<'a>>
    ensures went { Went (λ t. type_of t.now) (resolve_type (source_type ty.now)) names.old names.new result }
    ensures bound { bound_of names.new ≡ bound_of names.old }
{
    match ty.form {
        TypeForm::Path(path, args) => {
            let of = used(path, ty.place, names);
            let args = resolved_args(args, ty.place, bump, names);
            nodes::named(bump, ty.place, of, args)
        }
        TypeForm::Array(size, row) => {
            let size = resolved_size(size, ty.place, names);
            nodes::array(bump, ty.place, size, resolved_type(row, bump, names))
        }
        TypeForm::Unique(inside) => {
            nodes::unique(bump, ty.place, resolved_type(inside, bump, names))
        }
        TypeForm::Arrow(from, to) => {
            let from = resolved_type(from, bump, names);
            nodes::arrow(bump, ty.place, from, resolved_type(to, bump, names))
        }
        TypeForm::Named(_, _, _) => resolved_named(ty, bump, names),
        TypeForm::Unit => nodes::tuple(bump, ty.place, Ok(&[])),
        TypeForm::Tuple(parts) => {
            nodes::tuple(bump, ty.place, resolved_types(parts, bump, names))
        }
        TypeForm::Record(fields) => {
            nodes::record(bump, ty.place, resolved_fields(fields, bump, names))
        }
    }
}

/// A function's type whose parameter has a name, which its result sees.
#[cycle(types)]
#[tactic(auto, using(crate::proofs::HeldTypes::type_held))]
fn resolved_named<'a>(
    ty: &'a TypeExp<'a>,
    bump: &'a Bump,
    names: &mut Names<'a>,
) -> Result<&'a flat::TypeExp<'a>, Stop<'a>>
    requires { names_parameter (source_type ty.now) ≡ true }
    ensures went { Went (λ t. type_of t.now) (resolve_type (source_type ty.now)) names.old names.new result }
    ensures bound { bound_of names.new ≡ bound_of names.old }
{
    match ty.form {
        TypeForm::Named(name, from, to) => {
            let bind = numbered(name, names);
            let from = resolved_type(from, bump, names);
            let height = names.height();
            let bind = in_scope(name, bind, names);
            let to = resolved_type(to, bump, names);
            names.leave(height);
            nodes::named_arrow(bump, ty.place, bind, from, to)
        }
        _ => unreachable!(),
    }
}

#[cycle(types)]
#[tactic(auto)]
fn resolved_types<'a>(
    parts: &'a [Held<'a, TypeExp<'a>>],
    bump: &'a Bump,
    names: &mut Names<'a>,
) -> Result<&'a [flat::TypeExp<'a>], Stop<'a>>
    ensures went { Went (λ made. map type_of made.now) (each type_part parts.now) names.old names.new result }
    ensures bound { bound_of names.new ≡ bound_of names.old }
{
    let mut made = Vec::new(bump);
    for part in parts {
        match resolved_type(part.at, bump, names) {
            Ok(ty) => match made.push(*ty) {
                Ok(()) => (),
                Err(_) => return Err(Stop::Memory),
            },
            Err(stop) => return Err(stop),
        }
    }
    Ok(into_bump_slice(made))
}

#[cycle(types)]
#[tactic(auto)]
fn resolved_fields<'a>(
    fields: &'a [TypeField<'a>],
    bump: &'a Bump,
    names: &mut Names<'a>,
) -> Result<&'a [flat::TypeField<'a>], Stop<'a>>
    ensures went { Went (λ made. map type_field made.now) (each type_field_part fields.now) names.old names.new result }
    ensures bound { bound_of names.new ≡ bound_of names.old }
{
    let mut made = Vec::new(bump);
    for field in fields {
        match resolved_type(field.ty, bump, names) {
            Ok(ty) => match made.push(flat::TypeField {
                name: field.name,
                ty: *ty,
            }) {
                Ok(()) => (),
                Err(_) => return Err(Stop::Memory),
            },
            Err(stop) => return Err(stop),
        }
    }
    Ok(into_bump_slice(made))
}

#[cycle(types)]
#[tactic(auto)]
fn resolved_arg<'a>(
    arg: &'a TypeArg<'a>,
    at: Place,
    bump: &'a Bump,
    names: &mut Names<'a>,
) -> Result<flat::TypeArg<'a>, Stop<'a>>
    ensures went { Went argument_of (argument_part at arg.now) names.old names.new result }
    ensures bound { bound_of names.new ≡ bound_of names.old }
{
    match arg {
        TypeArg::Size(size) => match resolved_size(*size, at, names) {
            Ok(size) => Ok(flat::TypeArg::Size(size)),
            Err(stop) => Err(stop),
        },
        TypeArg::Of(ty) => match resolved_type(ty, bump, names) {
            Ok(ty) => Ok(flat::TypeArg::Of(*ty)),
            Err(stop) => Err(stop),
        },
    }
}

#[cycle(types)]
#[tactic(auto)]
fn resolved_args<'a>(
    args: &'a [TypeArg<'a>],
    at: Place,
    bump: &'a Bump,
    names: &mut Names<'a>,
) -> Result<&'a [flat::TypeArg<'a>], Stop<'a>>
    ensures went { Went (λ made. map argument_of made.now) (each (argument_part at) args.now) names.old names.new result }
    ensures bound { bound_of names.new ≡ bound_of names.old }
{
    let mut made = Vec::new(bump);
    for arg in args {
        match put(resolved_arg(arg, at, bump, names), &mut made) {
            Ok(()) => (),
            Err(stop) => return Err(stop),
        }
    }
    Ok(into_bump_slice(made))
}
