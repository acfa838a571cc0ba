// Written types.
ghost use Rattle.std.specs.Prelude.{◌≡◌, IfErr, IfOk, None, Some, map};
ghost use Rattle.fut_flat.specs.Erased.{FlatType, arguments, size_of, type_of, types};
ghost use Rattle.fut_flat.specs.Terms.{Array_type, Arrow_type, Record_type, Tuple_type, Type_use, Unique_type};
ghost use Rattle.fut_flat.proofs.ErasedPatterns.{argument_of, type_field};
ghost use Rattle.fut_ast.specs.Sorts.{Text};
ghost use Rattle.elab_nodes.specs.Built.{Built1, Built2, Built3};
ghost use Rattle.elab_scopes.specs.declared.refusal.Stop.TheVariants as stop;

use crate::both::both;
use bumpalo::Bump;
use elab_scopes::Stop;
use fut_flat::{Ref, Size, TypeArg, TypeExp, TypeField, TypeForm};
use fut_scalar::{BindId, Place};

/// A type that the arena holds.
pub fn held<'a>(bump: &'a Bump, ty: TypeExp<'a>) -> Result<&'a TypeExp<'a>, Stop<'a>>
    ensures held { IfOk result (λ x. x.now ≡ ty.entry) }
    ensures memory { IfErr result (λ e. e ≡ stop.Memory) }
{
    match bump.try_alloc(ty) {
        Ok(made) => Ok(made),
        Err(_) => Err(Stop::Memory),
    }
}

/// A type by its name, with arguments.
pub fn named<'a>(
    bump: &'a Bump,
    place: Place,
    of: Result<Ref, Stop<'a>>,
    args: Result<&'a [TypeArg<'a>], Stop<'a>>,
) -> Result<&'a TypeExp<'a>, Stop<'a>>
    ensures { Built2 (λ r given x. type_of x.now ≡ Type_use r (arguments (map argument_of given.now))) of.entry args.entry result }
{
    match both(of, args) {
        Ok((of, args)) => {
            held(
                bump,
                TypeExp {
                    place,
                    form: TypeForm::Use(of, args),
                },
            )
        }
        Err(stop) => Err(stop),
    }
}

/// An array's type.
pub fn array<'a>(
    bump: &'a Bump,
    place: Place,
    size: Result<Size, Stop<'a>>,
    row: Result<&'a TypeExp<'a>, Stop<'a>>,
) -> Result<&'a TypeExp<'a>, Stop<'a>>
    ensures { Built2 (λ s t x. type_of x.now ≡ Array_type (size_of s) (type_of t.now)) size.entry row.entry result }
{
    match both(size, row) {
        Ok((size, row)) => {
            held(
                bump,
                TypeExp {
                    place,
                    form: TypeForm::Array(size, row),
                },
            )
        }
        Err(stop) => Err(stop),
    }
}

/// `*t`
pub fn unique<'a>(
    bump: &'a Bump,
    place: Place,
    ty: Result<&'a TypeExp<'a>, Stop<'a>>,
) -> Result<&'a TypeExp<'a>, Stop<'a>>
    ensures { Built1 (λ t x. type_of x.now ≡ Unique_type (type_of t.now)) ty.entry result }
{
    match ty {
        Ok(ty) => {
            held(
                bump,
                TypeExp {
                    place,
                    form: TypeForm::Unique(ty),
                },
            )
        }
        Err(stop) => Err(stop),
    }
}

/// A function's type.
pub fn arrow<'a>(
    bump: &'a Bump,
    place: Place,
    from: Result<&'a TypeExp<'a>, Stop<'a>>,
    to: Result<&'a TypeExp<'a>, Stop<'a>>,
) -> Result<&'a TypeExp<'a>, Stop<'a>>
    ensures { Built2 (λ t u x. type_of x.now ≡ Arrow_type None (type_of t.now) (type_of u.now)) from.entry to.entry result }
{
    match both(from, to) {
        Ok((from, to)) => {
            held(
                bump,
                TypeExp {
                    place,
                    form: TypeForm::Arrow(None, from, to),
                },
            )
        }
        Err(stop) => Err(stop),
    }
}

/// A function's type whose parameter has a name.
pub fn named_arrow<'a>(
    bump: &'a Bump,
    place: Place,
    bind: Result<BindId, Stop<'a>>,
    from: Result<&'a TypeExp<'a>, Stop<'a>>,
    to: Result<&'a TypeExp<'a>, Stop<'a>>,
) -> Result<&'a TypeExp<'a>, Stop<'a>>
    ensures { Built3 (λ b t u x. type_of x.now ≡ Arrow_type (Some b) (type_of t.now) (type_of u.now)) bind.entry from.entry to.entry result }
{
    match both(bind, both(from, to)) {
        Ok((bind, (from, to))) => {
            held(
                bump,
                TypeExp {
                    place,
                    form: TypeForm::Arrow(Some(bind), from, to),
                },
            )
        }
        Err(stop) => Err(stop),
    }
}

/// A tuple's type.
pub fn tuple<'a>(
    bump: &'a Bump,
    place: Place,
    parts: Result<&'a [TypeExp<'a>], Stop<'a>>,
) -> Result<&'a TypeExp<'a>, Stop<'a>>
    ensures { Built1 (λ ts x. type_of x.now ≡ Tuple_type (types (map type_of ts.now))) parts.entry result }
{
    match parts {
        Ok(parts) => {
            held(
                bump,
                TypeExp {
                    place,
                    form: TypeForm::Tuple(parts),
                },
            )
        }
        Err(stop) => Err(stop),
    }
}

/// A record's type.
pub fn record<'a>(
    bump: &'a Bump,
    place: Place,
    fields: Result<&'a [TypeField<'a>], Stop<'a>>,
) -> Result<&'a TypeExp<'a>, Stop<'a>>
    ensures { Built1 (λ fs x. type_of x.now ≡ Record_type (map (λ (f : Text × FlatType). f.0) (map type_field fs.now)) (types (map (λ (f : Text × FlatType). f.1) (map type_field fs.now)))) fields.entry result }
{
    match fields {
        Ok(fields) => {
            held(
                bump,
                TypeExp {
                    place,
                    form: TypeForm::Record(fields),
                },
            )
        }
        Err(stop) => Err(stop),
    }
}
