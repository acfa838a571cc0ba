// Modules by their numbers, and what names mean in them.
ghost use Rattle.std.specs.Prelude.{◌≡◌, map, option_map};
ghost use Rattle.fut_primitives.specs.Names.{scalar_of};
ghost use Rattle.elab_scopes.specs.Scopes.{contents_at, members_of, module_among, module_in_module, or_scalar, signature_among, signature_in_module, type_among, type_in_module, value_among, value_in_module};
ghost use Rattle.elab_scopes.specs.Held.{module_ref_of};
ghost use Rattle.elab_scopes.specs.Modules.{maybe_contents, modules_of, names_seen};

use crate::meanings::{Meanings, ModuleRef, no_meaning};
use crate::members::Members;
use fut_flat::Ref;
use fut_primitives::{member_of, scalar_of};

/// What a module is: members, or a function from modules to modules by its number.
#[derive(Clone, Copy)]
pub enum Contents<'a> {
    Members(&'a Members<'a>),
    Parametric(u32),
}

/// The module of a number. One that there is not has no members.
#[tactic(auto, using(crate::proofs::Indexes::modules))]
pub fn contents_at<'a>(modules: &[Contents<'a>], number: u32) -> Option<Contents<'a>>
    ensures { maybe_contents result ≡ contents_at (modules_of modules.now) number }
{
    let at = number as usize;
    if at < modules.len() {
        return Some(modules[at]);
    }
    None
}

/// What a name means in a module.
#[tactic(auto, using(crate::proofs::Indexes::empties))]
fn meanings_in<'a>(contents: Option<Contents<'a>>, name: &str) -> Meanings
    ensures value { value_among (members_of (maybe_contents contents.entry)) name.now ≡ result.as_value }
    ensures ty { type_among (members_of (maybe_contents contents.entry)) name.now ≡ result.as_type }
    ensures submodule { module_among (members_of (maybe_contents contents.entry)) name.now ≡ option_map module_ref_of result.as_module }
    ensures signature { signature_among (members_of (maybe_contents contents.entry)) name.now ≡ result.as_signature }
{
    if let Some(Contents::Members(members)) = contents {
        return members.named(name);
    }
    no_meaning()
}

/// What a name means among those that are seen outside of a definition, if any are.
#[tactic(auto, using(crate::proofs::Indexes::empties))]
pub fn meanings_seen<'a>(seen: Option<&'a Members<'a>>, name: &str) -> Meanings
    ensures value { value_among (names_seen seen.entry) name.now ≡ result.as_value }
    ensures ty { type_among (names_seen seen.entry) name.now ≡ result.as_type }
    ensures submodule { module_among (names_seen seen.entry) name.now ≡ option_map module_ref_of result.as_module }
    ensures signature { signature_among (names_seen seen.entry) name.now ≡ result.as_signature }
{
    match seen {
        Some(members) => members.named(name),
        None => no_meaning(),
    }
}

/// The value of a name in a module.
#[tactic(auto, unfolding(crate::specs::Scopes::value_in_module))]
pub fn value_in_module(modules: &[Contents<'_>], within: ModuleRef, name: &str) -> Option<Ref>
    ensures { result ≡ value_in_module (modules_of modules.now) (module_ref_of within) name.now }
{
    match within {
        ModuleRef::Made(number) => meanings_in(contents_at(modules, number), name).as_value,
        ModuleRef::Scalar(of) => match member_of(of, name) {
            Some(primitive) => Some(Ref::Prim(primitive)),
            None => None,
        },
    }
}

/// The type of a name in a module.
pub fn type_in_module(modules: &[Contents<'_>], within: ModuleRef, name: &str) -> Option<Ref>
    ensures { result ≡ type_in_module (modules_of modules.now) (module_ref_of within) name.now }
{
    match within {
        ModuleRef::Made(number) => meanings_in(contents_at(modules, number), name).as_type,
        ModuleRef::Scalar(_) => None,
    }
}

/// The module of a name in a module.
pub fn module_in_module(
    modules: &[Contents<'_>],
    within: ModuleRef,
    name: &str,
) -> Option<ModuleRef>
    ensures { option_map module_ref_of result ≡ module_in_module (modules_of modules.now) (module_ref_of within) name.now }
{
    match within {
        ModuleRef::Made(number) => meanings_in(contents_at(modules, number), name).as_module,
        ModuleRef::Scalar(_) => None,
    }
}

/// The module type of a name in a module.
pub fn signature_in_module(modules: &[Contents<'_>], within: ModuleRef, name: &str) -> Option<u32>
    ensures { result ≡ signature_in_module (modules_of modules.now) (module_ref_of within) name.now }
{
    match within {
        ModuleRef::Made(number) => meanings_in(contents_at(modules, number), name).as_signature,
        ModuleRef::Scalar(_) => None,
    }
}

/// The module that a name stands for where these names are seen. One that no file binds may be that of a scalar type.
pub fn module_named<'a>(seen: Option<&'a Members<'a>>, name: &str) -> Option<ModuleRef>
    ensures { option_map module_ref_of result ≡ or_scalar (module_among (names_seen seen.entry) name.now) (scalar_of name.now) }
{
    match meanings_seen(seen, name).as_module {
        Some(module) => Some(module),
        None => match scalar_of(name) {
            Some(scalar) => Some(ModuleRef::Scalar(scalar)),
            None => None,
        },
    }
}
