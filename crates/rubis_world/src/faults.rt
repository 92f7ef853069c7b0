//! What ends a call of a world.

ghost use Rattle.std.specs.Prelude.{◌≡◌};
ghost use Rattle.rubis_world.specs.Worlds.{fault_at_site};
ghost use Rattle.rubis_world.specs.declared.faults.WorldFault.TheVariants as WorldFault;

use rubis_script::Fault;
use std::alloc::{AllocError, AllocFailed};
use thiserror::Error;

/// Why a call of a world gives no answer.
#[derive(Clone, Copy, PartialEq, Eq, Debug, Error)]
pub enum WorldFault {
    /// There is no such site.
    #[error("bad event")]
    BadEvent,
    /// No packet with that number was sent.
    #[error("no such packet")]
    NoSuchPacket,
    /// The site refuses it, or is behind.
    #[error("{0}")]
    Site(Fault),
    /// There was not enough memory.
    #[error("memory")]
    Memory,
}

impl From<AllocError> for WorldFault {
    ghost from_gives = { λ _ fault. fault ≡ WorldFault.Memory };

    fn from(_error: AllocError) -> WorldFault {
        WorldFault::Memory
    }
}

impl<T: Drop> From<AllocFailed<T>> for WorldFault {
    ghost from_gives = { λ _ fault. fault ≡ WorldFault.Memory };

    fn from(_error: AllocFailed<T>) -> WorldFault {
        WorldFault::Memory
    }
}

impl From<Fault> for WorldFault {
    ghost from_gives = { λ site fault. fault ≡ fault_at_site site };

    fn from(fault: Fault) -> WorldFault {
        match fault {
            Fault::Memory => WorldFault::Memory,
            fault => WorldFault::Site(fault),
        }
    }
}
