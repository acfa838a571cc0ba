// Patterns.
ghost use Rattle.std.specs.Prelude.{◌≡◌, map};
ghost use Rattle.fut_flat.specs.Erased.{FlatPattern, pattern_of, patterns, type_of};
ghost use Rattle.fut_flat.specs.Terms.{Bound_pattern, Record_pattern, Tuple_pattern, Typed_pattern};
ghost use Rattle.fut_flat.proofs.ErasedPatterns.{pattern_field};
ghost use Rattle.fut_ast.specs.Sorts.{Text};
ghost use Rattle.elab_nodes.specs.Built.{Built1, Built2};

use crate::both::both;
use bumpalo::Bump;
use elab_scopes::Stop;
use fut_flat::{Pat, PatField, PatForm, TypeExp};
use fut_scalar::{BindId, Place};

/// A name.
pub fn bound<'a>(place: Place, bind: Result<BindId, Stop<'a>>) -> Result<Pat<'a>, Stop<'a>>
    ensures { Built1 (λ b p. pattern_of p ≡ Bound_pattern b) bind.entry result }
{
    match bind {
        Ok(bind) => Ok(Pat {
            place,
            form: PatForm::Bound(bind),
        }),
        Err(stop) => Err(stop),
    }
}

/// A tuple's pattern.
pub fn tuple<'a>(place: Place, parts: Result<&'a [Pat<'a>], Stop<'a>>) -> Result<Pat<'a>, Stop<'a>>
    ensures { Built1 (λ ps p. pattern_of p ≡ Tuple_pattern (patterns (map pattern_of ps.now))) parts.entry result }
{
    match parts {
        Ok(parts) => Ok(Pat {
            place,
            form: PatForm::Tuple(parts),
        }),
        Err(stop) => Err(stop),
    }
}

/// A record's pattern.
pub fn record<'a>(
    place: Place,
    fields: Result<&'a [PatField<'a>], Stop<'a>>,
) -> Result<Pat<'a>, Stop<'a>>
    ensures { Built1 (λ fs p. pattern_of p ≡ Record_pattern (map (λ (f : Text × FlatPattern). f.0) (map pattern_field fs.now)) (patterns (map (λ (f : Text × FlatPattern). f.1) (map pattern_field fs.now)))) fields.entry result }
{
    match fields {
        Ok(fields) => Ok(Pat {
            place,
            form: PatForm::Record(fields),
        }),
        Err(stop) => Err(stop),
    }
}

/// A pattern with its type.
pub fn typed<'a>(
    bump: &'a Bump,
    place: Place,
    inside: Result<Pat<'a>, Stop<'a>>,
    ty: Result<&'a TypeExp<'a>, Stop<'a>>,
) -> Result<Pat<'a>, Stop<'a>>
    ensures { Built2 (λ q t p. pattern_of p ≡ Typed_pattern (pattern_of q) (type_of t.now)) inside.entry ty.entry result }
{
    match both(inside, ty) {
        Ok((inside, ty)) => match bump.try_alloc(inside) {
            Ok(inside) => Ok(Pat {
                place,
                form: PatForm::Typed(inside, ty),
            }),
            Err(_) => Err(Stop::Memory),
        },
        Err(stop) => Err(stop),
    }
}
