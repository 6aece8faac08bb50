//! Why a run stops early.

ghost use Rattle.std.specs.Prelude.{◌≡◌};
ghost use Rattle.qback_top.specs.declared.stop.Stop.TheVariants.{Memory, Fault};

use disk_model::Failed;
use std::alloc::{AllocError, AllocFailed};

/// Why a run stops early.
#[derive(Debug, Drop)]
pub enum Stop {
    /// There was no memory.
    Memory,
    /// A call on the outside failed.
    Fault,
}

impl From<AllocError> for Stop {
    ghost from_gives = { λ _ e. e ≡ Memory };

    fn from(_e: AllocError) -> Stop {
        Stop::Memory
    }
}

impl<T: Drop> From<AllocFailed<T>> for Stop {
    ghost from_gives = { λ _ e. e ≡ Memory };

    fn from(_e: AllocFailed<T>) -> Stop {
        Stop::Memory
    }
}

impl From<Failed> for Stop {
    ghost from_gives = { λ _ e. e ≡ Fault };

    fn from(_e: Failed) -> Stop {
        Stop::Fault
    }
}
