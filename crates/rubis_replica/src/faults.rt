//! What ends a call of a site, and what refuses a packet.

ghost use Rattle.std.specs.Prelude.{◌≡◌};
ghost use Rattle.rubis_replica.specs.State.{fault_of};
ghost use Rattle.rubis_replica.specs.declared.faults.Fault.TheVariants as Fault;

use rubis_release::IntakeFault;
use rubis_schema::Refusal;
use std::alloc::AllocError;
use thiserror::Error;

/// Why a call of a site gives no answer.
#[derive(Clone, Copy, PartialEq, Eq, Debug, Error)]
pub enum Fault {
    /// The rules refuse it.
    #[error("refused: {}", .0.name())]
    Refused(Refusal),
    /// Some but not all of a batch stands in the tables: `catch_up` goes on from there.
    #[error("behind")]
    Behind,
    /// There was not enough memory, and nothing was changed but that what was pending may be applied.
    #[error("memory")]
    Memory,
}

impl From<Refusal> for Fault {
    ghost from_gives = { λ refusal fault. fault ≡ Fault.Refused refusal };

    fn from(refusal: Refusal) -> Fault {
        Fault::Refused(refusal)
    }
}

impl From<AllocError> for Fault {
    ghost from_gives = { λ _ fault. fault ≡ Fault.Memory };

    fn from(_error: AllocError) -> Fault {
        Fault::Memory
    }
}

impl From<IntakeFault> for Fault {
    ghost from_gives = { λ intake fault. fault ≡ fault_of intake };

    fn from(fault: IntakeFault) -> Fault {
        match fault {
            IntakeFault::Refused(refusal) => Fault::Refused(refusal),
            IntakeFault::Memory(_) => Fault::Memory,
        }
    }
}
