// What was declared so far.
ghost use Rattle.std.specs.Prelude.{◌≡◌};
ghost use Rattle.elab_scopes.specs.Declarations.{new_functor, new_module, with_signature};
ghost use Rattle.elab_scopes.specs.Held.{module_ref_of};
ghost use Rattle.elab_scopes.specs.Modules.{contents_of};
ghost use Rattle.module_state.specs.Standing.{Does, functor_of, signature_of};
ghost use Rattle.module_state.specs.Steps.{new_signature};

use bumpalo::Bump;
use elab_scopes::{Contents, Members, ModuleRef, Names, Stop};
use fut_flat::{Definition, Ref};
use fut_scalar::List;
use fut_tree::{ModExp, ModType};

/// What an application of a parametric module gives.
#[derive(Clone, Copy)]
pub enum Giving<'a> {
    /// The body declared anew, as a module of its module type.
    Body(Option<&'a ModType<'a>>, &'a ModExp<'a>),
    /// What the parametric module of this number gives, which then meets the module type; whether its types are hidden.
    Another(u32, bool, &'a ModType<'a>),
    /// Nothing but its names.
    Names,
}

/// A parametric module: its file, its parameter with its module type, what all its parts see, what an application gives, and
/// the module that it gives where names alone are looked at.
#[derive(Clone, Copy)]
pub struct Functor<'a> {
    pub file: u32,
    pub parameter: &'a str,
    pub bound: &'a ModType<'a>,
    pub names: &'a Members<'a>,
    pub gives: Giving<'a>,
    pub bare: ModuleRef,
}

/// A module type, and what it sees.
#[derive(Clone, Copy)]
pub struct Signature<'a> {
    pub tree: &'a ModType<'a>,
    pub names: &'a Members<'a>,
}

/// A file that was declared, by its number, and its module.
#[derive(Clone, Copy)]
pub struct Loaded {
    pub file: u32,
    pub module: ModuleRef,
}

/// Where a part stands: its file, whether it counts or its names alone are looked at, and the names that it sees.
#[derive(Clone, Copy)]
pub struct Here<'a> {
    pub file: u32,
    pub live: bool,
    pub names: &'a Members<'a>,
}

/// The names in scope, those that the module exports, and those that it declared itself.
#[derive(Clone, Copy)]
pub struct Block<'a> {
    pub names: &'a Members<'a>,
    pub exported: &'a Members<'a>,
    pub own: &'a Members<'a>,
}

/// A type that another gives for one which a module type leaves open: its path, and what it is.
#[derive(Clone, Copy)]
pub struct Given<'a> {
    pub path: &'a [&'a str],
    pub ty: Ref,
}

/// What meets a module type: a module whose types are hidden or shown, with types that are given, the newest first; or
/// nothing, where names alone are looked at.
#[derive(Clone, Copy)]
pub enum Meeting<'a> {
    Hidden(ModuleRef, &'a [Given<'a>]),
    Shown(ModuleRef, &'a [Given<'a>]),
    Nothing,
}

/// What later members of a module type see, and the members that were met.
#[derive(Clone, Copy)]
pub struct Specified<'a> {
    pub seen: &'a Members<'a>,
    pub met: &'a Members<'a>,
}

/// All that was declared so far. The names hold the modules by their numbers.
#[derive(Drop)]
pub struct Declaring<'a> {
    pub names: Names<'a>,
    pub functors: List<Functor<'a>>,
    pub signatures: List<Signature<'a>>,
    pub definitions: Vec<Definition<'a>, &'a Bump>,
    pub applications: u32,
    pub start: &'a Members<'a>,
    pub loaded: List<Loaded>,
}

/// One more module, which has the next number.
#[tactic(auto, using(crate::proofs::Stands::standing))]
pub fn new_module<'a>(
    contents: Contents<'a>,
    state: &mut Declaring<'a>,
) -> Result<ModuleRef, Stop<'a>>
    ensures { Does module_ref_of (new_module (contents_of contents.entry)) state.old state.new result }
{
    match state.names.add_module(contents) {
        Ok(number) => Ok(ModuleRef::Made(number)),
        Err(_) => Err(Stop::Memory),
    }
}

/// One more parametric module, and what it is.
#[tactic(auto, using(crate::proofs::Stands::standing))]
pub fn new_functor<'a>(
    functor: Functor<'a>,
    state: &mut Declaring<'a>,
) -> Result<Contents<'a>, Stop<'a>>
    ensures { Does contents_of (new_functor (functor_of functor.entry)) state.old state.new result }
{
    let Ok(number) = u32::try_from(state.functors.len()) else {
        return Err(Stop::Memory);
    };
    match state.functors.push(functor) {
        Ok(()) => Ok(Contents::Parametric(number)),
        Err(_) => Err(Stop::Memory),
    }
}

/// One more module type, by its number.
#[tactic(auto, using(crate::proofs::Stands::standing))]
pub fn new_signature<'a>(
    signature: Signature<'a>,
    state: &mut Declaring<'a>,
) -> Result<u32, Stop<'a>>
    ensures { Does (λ k. k) (new_signature (signature_of signature.entry)) state.old state.new result }
{
    let Ok(number) = u32::try_from(state.signatures.len()) else {
        return Err(Stop::Memory);
    };
    match state.signatures.push(signature) {
        Ok(()) => Ok(number),
        Err(_) => Err(Stop::Memory),
    }
}
