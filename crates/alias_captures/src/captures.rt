// What is named from outside, by itself and behind an operation.
ghost use Rattle.std.specs.Prelude.{◌≡◌, ℕ, IfOk};
ghost use Rattle.fut_aliases.specs.Capturing.{capture, captures, field_capture, one_field};
ghost use Rattle.fut_flat.specs.Erased.{operation_of};
ghost use Rattle.fut_flat.specs.Terms.{Use};
ghost use Rattle.fut_scalar.specs.declared.place.Place.{Place};
ghost use Rattle.fut_types.specs.Shapes.{IsTable};
ghost use Rattle.fut_typing.specs.Names.{Names};
ghost use Rattle.alias_parts.specs.Known.{Knows};
ghost use Rattle.alias_scopes.specs.Scopes.{scope_of};
ghost use Rattle.alias_captures.specs.Captures.{capture_of};

use alias_parts::{PartNames, part_named};
use alias_program::no_alias;
use alias_scopes::{ScopeTree, value_at};
use alias_values::ValueTree;
use bumpalo::Bump;
use fut_aliases::Alias;
use fut_flat::{Act, Ref};
use fut_scalar::NoMemory;
use uniqueness::aliases;

/// What a term names from outside.
#[derive(Clone, Copy)]
pub enum Capture<'a> {
    /// A name, or a path of fields from one: that component alone.
    Path(&'a ValueTree<'a>),
    NamesOf(&'a [Alias]),
}

/// All aliases of what is named.
pub fn captures<'a>(bump: &'a Bump, found: &Capture<'a>) -> Result<&'a [Alias], NoMemory>
    ensures { IfOk result (λ set. set.now ≡ captures (capture_of found.now)) }
{
    match *found {
        Capture::Path(value) => {
            let set = aliases(bump, value)?;
            Ok(set)
        }
        Capture::NamesOf(set) => Ok(set),
    }
}

/// What a name stands for; a primitive names nothing from outside.
pub fn name_captured<'a>(bump: &'a Bump, name: Ref, scope: &ScopeTree<'a>) -> Capture<'a>
    ensures { (N : Names) (place : Place) (modules : ℕ) → capture_of result ≡ capture N (scope_of scope.now) (Use name place modules) }
{
    match name {
        Ref::Bound(bind) => match value_at(scope, bind) {
            Some(value) => Capture::Path(value),
            None => Capture::NamesOf(no_alias(bump)),
        },
        Ref::Prim(_) | Ref::Scalar(_) => Capture::NamesOf(no_alias(bump)),
    }
}

/// What a field of a path is.
fn field_captured<'a>(
    bump: &'a Bump,
    names: &PartNames<'_>,
    field: &str,
    found: &Capture<'a>,
) -> Result<Capture<'a>, NoMemory>
    requires { IsTable names.now.table.now }
    ensures { (N : Names) → Knows names.now N → IfOk result (λ c. capture_of c ≡ field_capture N field.now (capture_of found.now)) }
{
    match *found {
        Capture::Path(value) => {
            let part = part_named(bump, names, field, value)?;
            Ok(Capture::Path(part))
        }
        Capture::NamesOf(_) => Ok(*found),
    }
}

/// What an operation on one part names: only a field goes on with a path.
pub fn one_field<'a>(
    bump: &'a Bump,
    names: &PartNames<'_>,
    act: &Act<'_>,
    found: &Capture<'a>,
) -> Result<Capture<'a>, NoMemory>
    requires { IsTable names.now.table.now }
    ensures { (N : Names) → Knows names.now N → IfOk result (λ c. capture_of c ≡ one_field N (operation_of act.now) (capture_of found.now)) }
{
    match *act {
        Act::Project(field) => field_captured(bump, names, field, found),
        _ => {
            let set = captures(bump, found)?;
            Ok(Capture::NamesOf(set))
        }
    }
}
