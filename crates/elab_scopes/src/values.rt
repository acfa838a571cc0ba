// What paths of names stand for as values in modules: members of them, with the fields that are left. How many modules a path
// names follows from those fields, so nothing is counted.
ghost use Rattle.std.specs.Prelude.{◌≡◌, ◌+◌, IfOk, length, ℕ};
ghost use Rattle.fut_tree.specs.Names.{names};
ghost use Rattle.elab_scopes.specs.Scopes.{by_member, by_module, by_primitive, inside, member_or, module_named, value_among};
ghost use Rattle.fut_primitives.specs.Names.{primitive_of};
ghost use Rattle.elab_scopes.specs.Answers.{found_of, modules_before, viewed};
ghost use Rattle.elab_scopes.specs.Held.{module_ref_of};
ghost use Rattle.elab_scopes.specs.Modules.{modules_of, names_seen, world};

use crate::meanings::ModuleRef;
use crate::members::Members;
use crate::modules::{Contents, meanings_seen, module_in_module, module_named, value_in_module};
use crate::refusal::Refusal;
use fut_flat::Ref;
use fut_primitives::primitive_of;
use fut_scalar::{NoMemory, Place};

/// What a path names, and the fields that are left.
#[derive(Clone, Copy)]
pub struct Found<'a> {
    pub names: Ref,
    pub fields: &'a [&'a str],
}

impl<'a> Found<'a> {
    /// How many names of the path are modules.
    pub fn modules(&self, path: &[&str]) -> Result<u32, NoMemory>
        ensures { IfOk result (λ k. k ≡ modules_before (length path.now) self.now.fields.now) }
    {
        let others = path.len().saturating_sub(self.fields.len());
        match u32::try_from(others.saturating_sub(1)) {
            Ok(count) => Ok(count),
            Err(_) => Err(NoMemory),
        }
    }
}

/// A member of a module with the fields that are left, or the refusal that there is none.
#[tactic(auto, using(crate::proofs::Insides::members))]
fn member<'a>(
    of: Option<Ref>,
    name: &'a str,
    at: Place,
    fields: &'a [&'a str],
) -> Result<Found<'a>, Refusal<'a>>
    ensures { (n : ℕ) → viewed (found_of n) result ≡ member_or at (modules_before n fields.now) name.now (names fields.now) of }
{
    match of {
        Some(names) => Ok(Found { names, fields }),
        None => Err(Refusal::NoMember { name, at }),
    }
}

/// A member of a module by a path: modules are named as far as it goes.
#[tactic(auto, using(crate::proofs::Insides::walking))]
fn value_inside<'a>(
    modules: &[Contents<'a>],
    at: Place,
    from: ModuleRef,
    first: &'a str,
    path: &'a [&'a str],
) -> Result<Found<'a>, Refusal<'a>>
    ensures { viewed (found_of (length path.now + 2)) result ≡ inside (modules_of modules.now) at 1 (module_ref_of from) first.now (names path.now) }
{
    let mut within = from;
    let mut name = first;
    let mut index = 0;
    while index < path.len() {
        match module_in_module(modules, within, name) {
            Some(deeper) => {
                within = deeper;
                name = path[index];
                index += 1;
            }
            None => return member(
                value_in_module(modules, within, name),
                name,
                at,
                &path[index..],
            ),
        }
    }
    member(value_in_module(modules, within, name), name, at, &[])
}

/// A name that is no value may be a module, whose member is named next.
fn value_of_module<'a>(
    seen: Option<&'a Members<'a>>,
    modules: &[Contents<'a>],
    at: Place,
    first: &'a str,
    rest: &'a [&'a str],
) -> Result<Found<'a>, Refusal<'a>>
    ensures { viewed (found_of (length rest.now + 1)) result ≡ by_module (modules_of modules.now) at first.now (names rest.now) (module_named (world (names_seen seen.entry) modules.now) first.now) }
{
    match rest {
        [] => Err(Refusal::Unbound { name: first, at }),
        [next, deeper @ ..] => match module_named(seen, first) {
            Some(module) => value_inside(modules, at, module, *next, deeper),
            None => Err(Refusal::Unbound { name: first, at }),
        },
    }
}

/// A name that is no member of what stands outside may be a primitive.
fn value_of_primitive<'a>(
    seen: Option<&'a Members<'a>>,
    modules: &[Contents<'a>],
    at: Place,
    first: &'a str,
    rest: &'a [&'a str],
) -> Result<Found<'a>, Refusal<'a>>
    ensures { viewed (found_of (length rest.now + 1)) result ≡ by_primitive (world (names_seen seen.entry) modules.now) at first.now (names rest.now) (primitive_of first.now) }
{
    match primitive_of(first) {
        Some(primitive) => Ok(Found {
            names: Ref::Prim(primitive),
            fields: rest,
        }),
        None => value_of_module(seen, modules, at, first, rest),
    }
}

/// The value that a first name and the rest of a path name.
pub fn value_named<'a>(
    seen: Option<&'a Members<'a>>,
    modules: &[Contents<'a>],
    at: Place,
    first: &'a str,
    rest: &'a [&'a str],
) -> Result<Found<'a>, Refusal<'a>>
    ensures { viewed (found_of (length rest.now + 1)) result ≡ by_member (world (names_seen seen.entry) modules.now) at first.now (names rest.now) (value_among (names_seen seen.entry) first.now) }
{
    match meanings_seen(seen, first).as_value {
        Some(names) => Ok(Found {
            names,
            fields: rest,
        }),
        None => value_of_primitive(seen, modules, at, first, rest),
    }
}
