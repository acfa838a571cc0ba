// Why a run stops early.
ghost use Rattle.std.specs.Prelude.{◌≡◌};
ghost use Rattle.core_code.specs.declared.stop.Stop.TheVariants.{Memory};

use fut_scalar::{NoMemory, Report};
use std::alloc::AllocFailed;

/// Why a run stops: by a report of the program, or since memory ran out.
#[derive(Clone, Copy, Debug, PartialEq, Eq)]
pub enum Stop {
    Failed(Report),
    Memory,
}

impl From<NoMemory> for Stop {
    ghost from_gives = { λ _ e. e ≡ Memory };

    fn from(_error: NoMemory) -> Stop {
        Stop::Memory
    }
}
