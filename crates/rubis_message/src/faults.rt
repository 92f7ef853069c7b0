//! Why a record isn't a packet or a request.

ghost use Rattle.std.specs.Prelude.{◌≡◌};
ghost use Rattle.rubis_message.specs.declared.faults.ReadFault.TheVariants.{Memory};

use std::alloc::AllocError;

/// Why a record isn't read.
#[derive(Clone, Copy, PartialEq, Eq, Debug)]
pub enum ReadFault {
    /// It isn't in the grammar.
    BadRecord,
    /// There is no memory for what it holds.
    Memory,
}

impl From<AllocError> for ReadFault {
    ghost from_gives = { λ _ fault. fault ≡ Memory };

    fn from(_error: AllocError) -> ReadFault {
        ReadFault::Memory
    }
}
