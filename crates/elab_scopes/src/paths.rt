// What a path of names stands for.
ghost use Rattle.std.specs.Prelude.{◌≡◌, length};
ghost use Rattle.fut_flat.specs.Sources.{spelled};
ghost use Rattle.fut_tree.specs.Names.{names};
ghost use Rattle.elab_scopes.specs.Answers.{found_of, viewed};
ghost use Rattle.elab_scopes.specs.Scopes.{size_of, type_of, value_of};
ghost use Rattle.elab_scopes.specs.Table.{scope_of};

use crate::inside::{type_behind, type_named};
use crate::refusal::Refusal;
use crate::table::Names;
use crate::values::{Found, value_named};
use fut_flat::Ref;
use fut_scalar::{Place, ScalarType};

/// What a path stands for as a value.
#[tactic(auto, unfolding(crate::specs::Scopes::value_of))]
pub fn value_of<'a>(
    scope: &Names<'a>,
    path: &'a [&'a str],
    at: Place,
) -> Result<Found<'a>, Refusal<'a>>
    ensures { viewed (found_of (length path.now)) result ≡ value_of (scope_of scope.now) (spelled (names path.now) at) }
{
    match path {
        [] => Err(Refusal::Unbound { name: "", at }),
        [first, rest @ ..] => match scope.value(*first) {
            Some(bind) => Ok(Found {
                names: Ref::Bound(bind),
                fields: rest,
            }),
            None => value_named(scope.seen(), scope.modules_seen(), at, *first, rest),
        },
    }
}

/// What a path stands for as a size.
#[tactic(auto, unfolding(crate::specs::Scopes::size_of))]
pub fn size_of<'a>(scope: &Names<'a>, path: &'a [&'a str], at: Place) -> Result<Ref, Refusal<'a>>
    ensures { viewed (λ r. r) result ≡ size_of (scope_of scope.now) (spelled (names path.now) at) }
{
    let found = value_of(scope, path, at)?;
    match found.fields {
        [] => Ok(found.names),
        _ => Ok(Ref::Scalar(ScalarType::Bool)),
    }
}

/// What a path stands for as a type.
#[tactic(auto, unfolding(crate::specs::Scopes::type_of))]
pub fn type_of<'a>(scope: &Names<'a>, path: &'a [&'a str], at: Place) -> Result<Ref, Refusal<'a>>
    ensures { viewed (λ r. r) result ≡ type_of (scope_of scope.now) (spelled (names path.now) at) }
{
    match path {
        [] => Err(Refusal::Unbound { name: "", at }),
        [name] => match scope.type_name(*name) {
            Some(bind) => Ok(Ref::Bound(bind)),
            None => type_named(scope.seen(), at, *name),
        },
        [first, name, rest @ ..] => type_behind(
            scope.seen(),
            scope.modules_seen(),
            at,
            *first,
            *name,
            rest,
        ),
    }
}
