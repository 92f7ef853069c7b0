//! Why a run that keeps its records ended early, and why a site in a folder isn't run.

use crate::setup::Setup;
use rubis_engine::{OutOfMemory, RunFault};
use std::alloc::AllocError;
use std::io;
use thiserror::Error;

/// The first line in which the answers of before and those to what was kept differ.
#[derive(Debug, Drop, Error)]
#[error("out differs at line {line}: it has {found:?}, and the answer is {answered:?}")]
pub struct Difference {
    /// The number of the line, counted from 1.
    pub line: u64,
    /// The beginning of that line as `out` has it. Empty if `out` ends before it.
    pub found: String,
    /// The beginning of that line as it is answered now. Empty if there is none.
    pub answered: String,
}

/// Why a run that keeps its records ended early. The fault of a reader or a writer has the reason that the system gave.
#[derive(Debug, Drop, Error)]
pub enum KeepFault {
    /// What was kept could not be read.
    #[error("read kept: {0}")]
    ReadKept(io::Error),
    /// The answers so far could not be read.
    #[error("read out: {0}")]
    ReadOut(io::Error),
    /// The input could not be read.
    #[error("read: {0}")]
    ReadInput(io::Error),
    /// A record could not be kept.
    #[error("write kept: {0}")]
    WriteKept(io::Error),
    /// An answer could not be written.
    #[error("write out: {0}")]
    WriteOut(io::Error),
    /// Standard output failed.
    #[error("write: {0}")]
    Show(io::Error),
    /// The line of what was kept that has this number, counted from 1, is none that a run keeps.
    #[error("kept was changed: line {0} is none that a run keeps")]
    Edited(u64),
    /// The answers so far are not those to what was kept.
    #[error("{0}")]
    Differs(Difference),
    /// There was not enough memory.
    #[error("memory")]
    Memory,
    /// There are more records than the limit.
    #[error("too long")]
    TooLong,
}

impl From<AllocError> for KeepFault {
    ghost use Rattle.std.specs.Prelude.{◌≡◌};
    ghost use Rattle.rubis_keep.specs.declared.fault.KeepFault.TheVariants.{Memory};

    ghost from_gives = { λ _ fault. fault ≡ Memory };

    fn from(_error: AllocError) -> KeepFault {
        KeepFault::Memory
    }
}

impl From<OutOfMemory> for KeepFault {
    ghost use Rattle.std.specs.Prelude.{◌≡◌};
    ghost use Rattle.rubis_keep.specs.declared.fault.KeepFault.TheVariants.{Memory};

    ghost from_gives = { λ _ fault. fault ≡ Memory };

    fn from(_error: OutOfMemory) -> KeepFault {
        KeepFault::Memory
    }
}

// A fault of a reader of a text in memory, which only memory can fail.
impl From<RunFault> for KeepFault {
    ghost use Rattle.std.specs.Prelude.{◌≡◌};
    ghost use Rattle.rubis_keep.specs.declared.fault.KeepFault.TheVariants.{Memory};

    ghost from_gives = { λ _ fault. fault ≡ Memory };

    fn from(_fault: RunFault) -> KeepFault {
        KeepFault::Memory
    }
}

/// Why a site in a folder isn't run, or ended early. A fault of a file has the reason that the system gave.
#[derive(Drop)]
pub enum FolderFault {
    /// The folder's name is empty.
    NoName,
    /// There is no site in the folder, or no such folder, and what a site kept was to be shortened.
    NoSite,
    /// A site that isn't below the number of sites was asked for, or a number that isn't within its limits.
    NotBelow,
    /// The folder is that of a site that is set up so, and something else was asked for.
    IsOther(Setup),
    /// The answers in the folder are in the text of this version.
    IsOld(u32),
    /// What was kept has records that begin with the word `key`, from when they were malformed.
    HasKeys,
    /// There are records in the folder, and nothing says of which site.
    NoSetup,
    /// Another process runs the site.
    IsRunning,
    /// The folder wasn't made.
    Folder(io::Error),
    /// The lock failed.
    Lock(io::Error),
    /// What the folder says of its site couldn't be read or written.
    Setup(io::Error),
    /// What was kept couldn't be opened.
    Kept(io::Error),
    /// The answers couldn't be opened.
    Out(io::Error),
    /// Standard output failed.
    Closed(io::Error),
    /// The run ended with a fault.
    Run(KeepFault),
}
