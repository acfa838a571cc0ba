// Why a run stops early.
ghost use Rattle.std.specs.Prelude.{◌≡◌};
ghost use Rattle.array_data.specs.declared.stop.Stop.TheVariants.{Memory};

use fut_scalar::{NoMemory, Report};

/// Why a run stops. `Stuck` comes only where the meaning is wrong.
#[derive(Clone, Copy, Debug, PartialEq, Eq)]
pub enum Stop {
    Failed(Report),
    Stuck,
    Memory,
}

impl From<NoMemory> for Stop {
    ghost from_gives = { λ _ e. e ≡ Memory };

    fn from(_error: NoMemory) -> Stop {
        Stop::Memory
    }
}
