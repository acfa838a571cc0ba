// What paths of names stand for: modules, types of modules and module types.
ghost use Rattle.std.specs.Prelude.{◌≡◌};
ghost use Rattle.fut_tree.specs.Names.{names};
ghost use Rattle.elab_scopes.specs.Scopes.{by_module_signature, by_module_type, member_type_or, module_at, module_inside, module_named, signature_at, signature_inside, type_among, type_inside};
ghost use Rattle.elab_scopes.specs.Answers.{viewed};
ghost use Rattle.elab_scopes.specs.Held.{module_ref_of};
ghost use Rattle.elab_scopes.specs.Modules.{modules_of, names_seen, world};
ghost use Rattle.elab_scopes.specs.Paths.{holder, holder_of};

use crate::meanings::ModuleRef;
use crate::members::Members;
use crate::modules::{
    Contents, meanings_seen, module_in_module, module_named, signature_in_module, type_in_module,
};
use crate::refusal::Refusal;
use fut_flat::Ref;
use fut_primitives::scalar_of;
use fut_scalar::Place;

/// The module that a path's last name is asked of, and that name.
#[derive(Clone, Copy)]
struct Asked<'a> {
    within: ModuleRef,
    name: &'a str,
}

/// The module that the last name of a path is asked of. All names before it are modules.
#[tactic(auto, using(crate::proofs::Ways::holding))]
fn holder<'a>(
    modules: &[Contents<'a>],
    at: Place,
    from: ModuleRef,
    first: &'a str,
    path: &'a [&'a str],
) -> Result<Asked<'a>, Refusal<'a>>
    ensures { viewed holder_of result ≡ holder (modules_of modules.now) at (module_ref_of from) first.now (names path.now) }
{
    let mut within = from;
    let mut name = first;
    for next in path {
        match module_in_module(modules, within, name) {
            Some(deeper) => {
                within = deeper;
                name = *next;
            }
            None => return Err(Refusal::NoMember { name, at }),
        }
    }
    Ok(Asked { within, name })
}

/// A module inside of another, by a path.
fn module_inside<'a>(
    modules: &[Contents<'a>],
    at: Place,
    from: ModuleRef,
    path: &'a [&'a str],
) -> Result<ModuleRef, Refusal<'a>>
    ensures { viewed module_ref_of result ≡ module_inside (modules_of modules.now) at (module_ref_of from) (names path.now) }
{
    match path {
        [] => Ok(from),
        [first, rest @ ..] => {
            let Asked { within, name } = match holder(modules, at, from, *first, rest) {
                Ok(holder) => holder,
                Err(refusal) => return Err(refusal),
            };
            match module_in_module(modules, within, name) {
                Some(module) => Ok(module),
                None => Err(Refusal::NoMember { name, at }),
            }
        }
    }
}

/// The module that a first name and the rest of a path name.
pub fn module_at<'a>(
    seen: &'a Members<'a>,
    modules: &[Contents<'a>],
    at: Place,
    first: &'a str,
    rest: &'a [&'a str],
) -> Result<ModuleRef, Refusal<'a>>
    ensures { viewed module_ref_of result ≡ module_at (world seen.now modules.now) at first.now (names rest.now) }
{
    match module_named(Some(seen), first) {
        Some(module) => module_inside(modules, at, module, rest),
        None => Err(Refusal::Unbound { name: first, at }),
    }
}

/// A type of a module by a path, all names of which but the last are modules.
#[tactic(auto, using(crate::proofs::Ways::ways))]
pub fn type_inside<'a>(
    modules: &[Contents<'a>],
    at: Place,
    from: ModuleRef,
    first: &'a str,
    path: &'a [&'a str],
) -> Result<Ref, Refusal<'a>>
    ensures { viewed (λ r. r) result ≡ type_inside (modules_of modules.now) at (module_ref_of from) first.now (names path.now) }
{
    let Asked { within, name } = match holder(modules, at, from, first, path) {
        Ok(holder) => holder,
        Err(refusal) => return Err(refusal),
    };
    match type_in_module(modules, within, name) {
        Some(of) => Ok(of),
        None => Err(Refusal::NoMember { name, at }),
    }
}

/// A module type of a module by a path, all names of which but the last are modules.
#[tactic(auto, using(crate::proofs::Ways::ways))]
fn signature_inside<'a>(
    modules: &[Contents<'a>],
    at: Place,
    from: ModuleRef,
    first: &'a str,
    path: &'a [&'a str],
) -> Result<u32, Refusal<'a>>
    ensures { viewed (λ k. k) result ≡ signature_inside (modules_of modules.now) at (module_ref_of from) first.now (names path.now) }
{
    let Asked { within, name } = match holder(modules, at, from, first, path) {
        Ok(holder) => holder,
        Err(refusal) => return Err(refusal),
    };
    match signature_in_module(modules, within, name) {
        Some(number) => Ok(number),
        None => Err(Refusal::NoMember { name, at }),
    }
}

/// The module type of a path whose first name is a module.
fn signature_behind<'a>(
    seen: &'a Members<'a>,
    modules: &[Contents<'a>],
    at: Place,
    first: &'a str,
    name: &'a str,
    rest: &'a [&'a str],
) -> Result<u32, Refusal<'a>>
    ensures { viewed (λ k. k) result ≡ by_module_signature (world seen.now modules.now) at first.now name.now (names rest.now) (module_named (world seen.now modules.now) first.now) }
{
    match module_named(Some(seen), first) {
        Some(module) => signature_inside(modules, at, module, name, rest),
        None => Err(Refusal::Unbound { name: first, at }),
    }
}

/// The module type that a path names, by its number.
#[tactic(auto, unfolding(crate::specs::Scopes::signature_at))]
pub fn signature_at<'a>(
    seen: &'a Members<'a>,
    modules: &[Contents<'a>],
    at: Place,
    path: &'a [&'a str],
) -> Result<u32, Refusal<'a>>
    ensures { viewed (λ k. k) result ≡ signature_at (world seen.now modules.now) at (names path.now) }
{
    match path {
        [] => Err(Refusal::Unbound { name: "", at }),
        [name] => match seen.named(*name).as_signature {
            Some(number) => Ok(number),
            None => Err(Refusal::Unbound { name: *name, at }),
        },
        [first, name, rest @ ..] => signature_behind(seen, modules, at, *first, *name, rest),
    }
}

/// The type of a name that is no local one.
#[tactic(auto, using(crate::proofs::Ways::types))]
pub fn type_named<'a>(
    seen: Option<&'a Members<'a>>,
    at: Place,
    name: &'a str,
) -> Result<Ref, Refusal<'a>>
    ensures { viewed (λ r. r) result ≡ member_type_or at name.now (type_among (names_seen seen.entry) name.now) }
{
    match meanings_seen(seen, name).as_type {
        Some(of) => Ok(of),
        None => match scalar_of(name) {
            Some(scalar) => Ok(Ref::Scalar(scalar)),
            None => Err(Refusal::Unbound { name, at }),
        },
    }
}

/// The type of a path whose first name is a module.
pub fn type_behind<'a>(
    seen: Option<&'a Members<'a>>,
    modules: &[Contents<'a>],
    at: Place,
    first: &'a str,
    name: &'a str,
    rest: &'a [&'a str],
) -> Result<Ref, Refusal<'a>>
    ensures { viewed (λ r. r) result ≡ by_module_type (world (names_seen seen.entry) modules.now) at first.now name.now (names rest.now) (module_named (world (names_seen seen.entry) modules.now) first.now) }
{
    match module_named(seen, first) {
        Some(module) => type_inside(modules, at, module, name, rest),
        None => Err(Refusal::Unbound { name: first, at }),
    }
}
