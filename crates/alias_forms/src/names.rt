// Names where they stand.
ghost use Rattle.std.specs.Prelude.{◌≡◌, ◌+◌, IfOk, Option};
ghost use Rattle.fut_aliases.specs.Capturing.{ref_name};
ghost use Rattle.fut_aliases.specs.Looking.{bound_name};
ghost use Rattle.fut_aliases.specs.Stars.{Stars};
ghost use Rattle.fut_flat.specs.Terms.{Use};
ghost use Rattle.fut_scalar.specs.declared.place.Place.{Place};
ghost use Rattle.fut_typing.specs.Names.{Names};
ghost use Rattle.uniqueness.specs.Answers.{Stepped};
ghost use Rattle.alias_forms.specs.Seen.{SeenEnds, part_seen};
ghost use Rattle.alias_forms.specs.Walked.{look};

use crate::seen::{Seen, Site, no_held, or_function};
use alias_applications::{Told, hold};
use alias_losses::Losses;
use alias_operations::used;
use alias_program::{Part, after, type_at};
use bumpalo::Bump;
use fut_aliases::Named;
use fut_flat::Ref;
use fut_scalar::{BindId, NoMemory};
use uniqueness::Stop;

// The name that a use is by itself.
fn bound_name(name: Ref) -> Option<BindId>
    ensures { result ≡ bound_name name }
{
    match name {
        Ref::Bound(bind) => Some(bind),
        Ref::Prim(_) => None,
        Ref::Scalar(_) => None,
    }
}

fn ref_name(name: Ref) -> Option<Named>
    ensures { result ≡ ref_name name }
{
    match name {
        Ref::Bound(bind) => Some(Named::ByName(bind)),
        Ref::Prim(primitive) => Some(Named::ByPrimitive(primitive)),
        Ref::Scalar(_) => None,
    }
}

// The number behind a use, before whose name stand so many names of modules.
fn behind_use(at: u32, modules: u32) -> Result<u32, NoMemory>
    ensures { IfOk result (λ next. next ≡ at + (1 + (modules + modules))) }
{
    let once = after(at, 1)?;
    let twice = after(once, modules)?;
    let next = after(twice, modules)?;
    Ok(next)
}

/// A name where it stands: it is used where something is done with it.
pub fn name_looked<'a>(
    bump: &'a Bump,
    site: &Site<'a>,
    losses: &Losses,
    name: Ref,
    modules: u32,
    at: u32,
) -> Result<Seen<'a>, Stop>
    ensures step { (N : Names) (w : Option Stars) (place : Place) → Stepped part_seen (look N site.now (Use name place modules) at w) losses.now losses.now result }
    ensures ends { (place : Place) → IfOk result (SeenEnds (Use name place modules) at) }
{
    let Ok(next) = behind_use(at, modules) else {
        return Err(Stop::Memory);
    };
    let Ok(value) = used(bump, &site.program, site.scope, name, at) else {
        return Err(Stop::Memory);
    };
    let Ok(ty) = type_at(&site.program, at) else {
        return Err(Stop::Memory);
    };
    let first_name = ref_name(name);
    let called = or_function(first_name);
    let told = Told {
        node: at,
        called,
        first_name: called,
    };
    let head = hold(losses, told, value);
    let part = Part {
        head,
        name: bound_name(name),
        ty,
        arguments: no_held(bump),
    };
    Ok(Seen {
        part,
        called,
        first_name,
        after: next,
    })
}
