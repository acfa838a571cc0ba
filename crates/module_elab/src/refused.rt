// Why a set of files has no flat program.
ghost use Rattle.std.specs.Prelude.{◌≡◌};
ghost use Rattle.module_elab.specs.Elaborated.{error_of};

use elab_scopes::{Refusal, Stop};
use fut_scalar::Place;

/// Why elaboration refuses a set of files, and where.
#[derive(Clone, Copy)]
pub enum ModErr<'a> {
    /// The name has no binding in scope.
    Unbound { name: &'a str, at: Place },
    /// The name is bound before in the same pattern, or defined before in the same file.
    Twice { name: &'a str, at: Place },
    /// The module has no such member.
    NoMember { name: &'a str, at: Place },
    /// The module that a seal or a parameter asks for has no such member.
    SealMissing { name: &'a str, at: Place },
    /// Parametric modules are applied more than 1,024 times.
    TooManyApplications { at: Place },
    /// A declaration of a form that is not built yet.
    NotYet { at: Place },
    /// Memory ran out.
    Memory,
}

impl<'a> ModErr<'a> {
    /// The error of a walk that stopped.
    pub fn of(stop: Stop<'a>) -> ModErr<'a>
        ensures { result ≡ error_of stop.entry }
    {
        match stop {
            Stop::Refused(Refusal::Unbound { name, at }) => ModErr::Unbound { name, at },
            Stop::Refused(Refusal::Twice { name, at }) => ModErr::Twice { name, at },
            Stop::Refused(Refusal::NoMember { name, at }) => ModErr::NoMember { name, at },
            Stop::Refused(Refusal::SealMissing { name, at }) => ModErr::SealMissing { name, at },
            Stop::Refused(Refusal::TooManyApplications { at }) => ModErr::TooManyApplications {
                at,
            },
            Stop::Refused(Refusal::NotYet { at }) => ModErr::NotYet { at },
            Stop::Memory => ModErr::Memory,
        }
    }
}
