//! Small files with modules, and what the definition of declarations says of them.
//!
//! Each example (`specs/Examples.antt`) is a claim that the definition accepts files or answers this refusal at this place, as the
//! language has it (Futhark Language Reference, "Module System"), and is proved by computing the definition.
#![tactic(auto)]

ghost use Rattle.module_examples.specs.Examples.{Applied, BodyLookedAt, EmptySeal, Imported, IncludedLacksMember, LocalAgain, MemberOpened, ModuleTwice, NoSuchFile, NoSuchMember, NotParametric, OpenedParametric, SealLacksMember, UnboundModule};

/// Modules that are declared, and opened by a path.
#[tactic(auto, using(crate::proofs::Examples::modules))]
pub fn modules_are_declared()
    ensures twice { ModuleTwice }
    ensures local { LocalAgain }
    ensures no_member { NoSuchMember }
    ensures opened { MemberOpened }
    ensures unbound { UnboundModule }
{}

/// Seals, by a module type that has a name or includes another.
#[tactic(auto, using(crate::proofs::Examples::seals))]
pub fn seals_ask_for_members()
    ensures missing { SealLacksMember }
    ensures included { IncludedLacksMember }
    ensures empty { EmptySeal }
{}

/// Parametric modules.
#[tactic(auto, using(crate::proofs::Examples::functions))]
pub fn parametric_modules_are_applied()
    ensures applied { Applied }
    ensures not_parametric { NotParametric }
    ensures opened { OpenedParametric }
    ensures looked_at { BodyLookedAt }
{}

/// Files that import another.
#[tactic(auto, using(crate::proofs::Examples::files))]
pub fn files_are_imported()
    ensures imported { Imported }
    ensures no_file { NoSuchFile }
{}
