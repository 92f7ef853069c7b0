//! How a run ends.

use std::alloc::AllocError;
use thiserror::Error;

/// There was not enough memory for an answer.
#[derive(Clone, Copy, PartialEq, Eq, Debug, Error)]
#[error("memory")]
pub struct OutOfMemory;

impl From<AllocError> for OutOfMemory {
    fn from(_error: AllocError) -> OutOfMemory {
        OutOfMemory
    }
}

/// Why a run ended early.
#[derive(Clone, Copy, PartialEq, Eq, Debug, Error)]
pub enum RunFault {
    /// The reader failed.
    #[error("read")]
    Read,
    /// The writer failed.
    #[error("write")]
    Write,
    /// There was not enough memory.
    #[error("memory")]
    Memory,
    /// The input has more records than the limit.
    #[error("too long")]
    TooLong,
}

impl From<OutOfMemory> for RunFault {
    ghost use Rattle.std.specs.Prelude.{◌≡◌};
    ghost use Rattle.rubis_engine.specs.declared.fault.RunFault.TheVariants.{Memory};

    ghost from_gives = { λ _ fault. fault ≡ Memory };

    fn from(_error: OutOfMemory) -> RunFault {
        RunFault::Memory
    }
}

impl From<AllocError> for RunFault {
    ghost use Rattle.std.specs.Prelude.{◌≡◌};
    ghost use Rattle.rubis_engine.specs.declared.fault.RunFault.TheVariants.{Memory};

    ghost from_gives = { λ _ fault. fault ≡ Memory };

    fn from(_error: AllocError) -> RunFault {
        RunFault::Memory
    }
}

/// How many records were answered.
#[derive(Clone, Copy, PartialEq, Eq, Debug)]
pub struct Count {
    pub records: u64,
}
