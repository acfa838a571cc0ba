// Why tokens could not be parsed.
ghost use Rattle.std.specs.Prelude.{◌≡◌};
ghost use Rattle.fut_grammar.specs.declared.fault.Stop.TheVariants.{Memory};

use fut_ast::What;
use fut_scalar::NoMemory;
use std::alloc::{AllocError, AllocFailed};

/// What is wrong with the tokens, and how many of them are left from the one where it stands.
#[derive(Clone, Copy, Debug, PartialEq, Eq)]
pub enum Fault {
    /// No program goes on with it.
    Syntax(usize),
    /// It stands too deep.
    TooDeep(usize),
    /// A form begins with it that this profile leaves out.
    LeftOut(usize, What),
}

/// Why reading stopped.
#[derive(Debug, Drop)]
pub enum Stop {
    Memory,
    Fault(Fault),
}

impl From<AllocError> for Stop {
    ghost from_gives = { λ _ e. e ≡ Memory };

    fn from(_error: AllocError) -> Stop {
        Stop::Memory
    }
}

impl<T: Drop> From<AllocFailed<T>> for Stop {
    ghost from_gives = { λ _ e. e ≡ Memory };

    fn from(_error: AllocFailed<T>) -> Stop {
        Stop::Memory
    }
}

impl From<NoMemory> for Stop {
    ghost from_gives = { λ _ e. e ≡ Memory };

    fn from(_error: NoMemory) -> Stop {
        Stop::Memory
    }
}
