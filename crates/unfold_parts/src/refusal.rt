// Why unfolding ends before its end.
ghost use Rattle.std.specs.Prelude.{◌≡◌};

use fut_scalar::NoMemory;
use std::alloc::{AllocError, AllocFailed};

/// Why unfolding ends before its end.
#[derive(Clone, Copy, Debug, PartialEq, Eq)]
pub enum Refusal {
    /// Unfolding has no way on, which no typed program comes to.
    Lost,
    /// No memory, or no name, is left, or data lies more than 1,000 deep or has more than 1,048,576 parts.
    Memory,
}

impl From<AllocError> for Refusal {
    ghost use Rattle.unfold_parts.specs.declared.refusal.Refusal.{Refusal};

    ghost from_gives = { λ _ e. e ≡ Refusal.Memory };

    fn from(_error: AllocError) -> Self {
        Refusal::Memory
    }
}

impl From<NoMemory> for Refusal {
    ghost use Rattle.unfold_parts.specs.declared.refusal.Refusal.{Refusal};

    ghost from_gives = { λ _ e. e ≡ Refusal.Memory };

    fn from(_error: NoMemory) -> Self {
        Refusal::Memory
    }
}

impl<T: Drop> From<AllocFailed<T>> for Refusal {
    ghost use Rattle.unfold_parts.specs.declared.refusal.Refusal.{Refusal};

    ghost from_gives = { λ _ e. e ≡ Refusal.Memory };

    fn from(_error: AllocFailed<T>) -> Self {
        Refusal::Memory
    }
}
