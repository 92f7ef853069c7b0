//! Why a list of steps isn't decided.

use std::alloc::{AllocError, AllocFailed};
use thiserror::Error;

/// Why a list of steps isn't decided.
#[derive(Clone, Copy, Debug, PartialEq, Eq, Error)]
pub enum DeciderFault {
    #[error("out of memory")]
    Memory,
    #[error("a number doesn't fit 64 bits")]
    TooLarge,
}

impl From<AllocError> for DeciderFault {
    fn from(_: AllocError) -> DeciderFault {
        DeciderFault::Memory
    }
}

impl<T: Drop> From<AllocFailed<T>> for DeciderFault {
    fn from(_: AllocFailed<T>) -> DeciderFault {
        DeciderFault::Memory
    }
}
