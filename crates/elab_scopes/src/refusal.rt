// Why a program has no flat program.
ghost use Rattle.std.specs.Prelude.{◌≡◌};

use fut_scalar::{NoMemory, Place};

/// Why a name is refused, and where.
#[derive(Clone, Copy)]
pub enum Refusal<'a> {
    /// No binding in scope; or what is opened, included or applied is not of that kind.
    Unbound { name: &'a str, at: Place },
    /// Bound before in the same pattern, or declared before in the same module and space.
    Twice { name: &'a str, at: Place },
    /// The module has no such member.
    NoMember { name: &'a str, at: Place },
    /// The module that a seal or a parameter asks for has no such member.
    SealMissing { name: &'a str, at: Place },
    /// Parametric modules are applied more than 1,024 times.
    TooManyApplications { at: Place },
    /// A declaration that is not built yet.
    NotYet { at: Place },
}

/// Why elaboration stops.
#[derive(Clone, Copy)]
pub enum Stop<'a> {
    Refused(Refusal<'a>),
    Memory,
}

impl<'a> From<NoMemory> for Stop<'a> {
    ghost use Rattle.elab_scopes.specs.declared.refusal.Stop.TheVariants.{Memory};

    ghost from_gives = { λ _ stop. stop ≡ Memory };

    fn from(_error: NoMemory) -> Stop<'a> {
        Stop::Memory
    }
}
