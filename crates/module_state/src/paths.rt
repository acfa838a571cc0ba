// What paths and numbers of modules stand for.
ghost use Rattle.std.specs.Prelude.{◌≡◌, [], cond, option_map};
ghost use Rattle.fut_tree.specs.Names.{names};
ghost use Rattle.elab_scopes.specs.Declarations.{State, function_in, hidden, shown};
ghost use Rattle.elab_scopes.specs.Imports.{item};
ghost use Rattle.elab_scopes.specs.Held.{module_ref_of};
ghost use Rattle.elab_scopes.specs.Modules.{maybe_contents, modules_of};
ghost use Rattle.module_state.specs.Standing.{Does, Stands, functor_of, here_of, meeting_of, signature_of};
ghost use Rattle.module_state.specs.Steps.{contents_in, named_signature, path_module};

use crate::state::{Declaring, Functor, Here, Meeting, Signature};
use elab_scopes::{Contents, ModuleRef, Refusal, Stop, contents_at, module_at, signature_at};
use fut_scalar::Place;

/// The module that a path names.
pub fn path_module<'a>(
    path: &'a [&'a str],
    at: Place,
    here: Here<'a>,
    state: &mut Declaring<'a>,
) -> Result<ModuleRef, Stop<'a>>
    ensures { Does module_ref_of (path_module (here_of here.entry) at (names path.now)) state.old state.new result }
{
    match path {
        [] => Err(Stop::Refused(Refusal::Unbound { name: "", at })),
        [first, rest @ ..] => {
            match module_at(here.names, state.names.modules(), at, *first, rest) {
                Ok(module) => Ok(module),
                Err(refusal) => Err(Stop::Refused(refusal)),
            }
        }
    }
}

/// The number of what is a parametric module.
fn number_in(contents: Option<Contents<'_>>) -> Option<u32>
    ensures { result ≡ function_in (maybe_contents contents.entry) }
{
    match contents {
        Some(Contents::Members(_)) => None,
        Some(Contents::Parametric(number)) => Some(number),
        None => None,
    }
}

/// The number of the parametric module that a module is.
pub fn functor_in<'a>(modules: &[Contents<'a>], of: ModuleRef) -> Option<u32>
    ensures { result ≡ function_in (contents_in (modules_of modules.now) (module_ref_of of)) }
{
    match of {
        ModuleRef::Made(number) => number_in(contents_at(modules, number)),
        ModuleRef::Scalar(_) => None,
    }
}

/// The parametric module of a number.
#[tactic(auto, using(crate::proofs::Finding::functors))]
pub fn functor_at<'a>(state: &Declaring<'a>, number: u32) -> Option<Functor<'a>>
    ensures { (s : State) → Stands state.now s → option_map functor_of result ≡ item s.functors number }
{
    let functors = state.functors.as_slice();
    let at = number as usize;
    if at < functors.len() {
        return Some(functors[at]);
    }
    None
}

/// The number of the module type that a path names.
pub fn signature_named<'a>(
    path: &'a [&'a str],
    at: Place,
    here: Here<'a>,
    state: &mut Declaring<'a>,
) -> Result<u32, Stop<'a>>
    ensures { Does (λ k. k) (named_signature (here_of here.entry) at (names path.now)) state.old state.new result }
{
    match signature_at(here.names, state.names.modules(), at, path) {
        Ok(number) => Ok(number),
        Err(refusal) => Err(Stop::Refused(refusal)),
    }
}

/// The module type of a number.
#[tactic(auto, using(crate::proofs::Finding::signatures))]
pub fn signature_numbered<'a>(state: &Declaring<'a>, number: u32) -> Option<Signature<'a>>
    ensures { (s : State) → Stands state.now s → option_map signature_of result ≡ item s.signatures number }
{
    let signatures = state.signatures.as_slice();
    let at = number as usize;
    if at < signatures.len() {
        return Some(signatures[at]);
    }
    None
}

/// What a module is where it meets a module type, with its types hidden or shown.
pub fn met_as<'a>(hides: bool, made: ModuleRef) -> Meeting<'a>
    ensures { meeting_of result ≡ cond hides (hidden (module_ref_of made) []) (shown (module_ref_of made) []) }
{
    if hides {
        Meeting::Hidden(made, &[])
    } else {
        Meeting::Shown(made, &[])
    }
}
