//! What the words of a command line may ask for.

ghost use Rattle.std.specs.Prelude.{◌≡◌};
ghost use Rattle.rubis_command.specs.declared.options.OptionFault.TheVariants.{Memory};

use clap::Error;
use clap::error::ErrorKind;
use std::alloc::AllocError;

/// What the command line asks for.
#[derive(Drop)]
pub enum Invocation {
    /// One site.
    Site(Options),
    /// Several sites in one run.
    World(SetupOptions),
    /// An audit of logs.
    Audit(AuditOptions),
    /// What each of several logs lacks of the others, or what waits at a site.
    Lack(LackOptions),
    /// A check of records.
    Check(CheckOptions),
    /// The records of an audit, widened.
    Widen(Widening),
    /// A site that keeps its records.
    Keep(KeepOptions),
}

/// Why nothing is run.
#[derive(Drop)]
pub enum OptionFault {
    /// There was not enough memory to read the command line.
    Memory,
    /// What `clap` says of it: a fault, or the help or version that was asked for.
    Words(Error),
}

impl From<Error> for OptionFault {
    ghost use Rattle.clap.specs.Words.{kind_of};
    ghost use Rattle.rubis_command.specs.CommandLine.{fault_by};

    ghost from_gives = { λ error fault. fault ≡ fault_by (kind_of error) error };

    fn from(error: Error) -> OptionFault {
        match error.kind() {
            ErrorKind::OutOfMemory => OptionFault::Memory,
            _ => OptionFault::Words(error),
        }
    }
}

impl From<AllocError> for OptionFault {
    ghost from_gives = { λ error fault. fault ≡ Memory };

    fn from(_: AllocError) -> OptionFault {
        OptionFault::Memory
    }
}

/// The numbers that say how sites are set up.
#[derive(Clone, Copy)]
pub struct SetupOptions {
    pub sites: u8,
    pub shards: u8,
    pub workers: u8,
    pub batch: u32,
    pub keep: u32,
}

/// How many sites the messages of logs count, and how many they are to count.
#[derive(Clone, Copy)]
pub struct Widening {
    pub sites: u8,
    pub to: u8,
}

/// Of how many sites the logs of an audit are, and whether its status says what it found.
#[derive(Clone, Copy)]
pub struct AuditOptions {
    pub sites: u8,
    /// The status is 0 only if the logs agree.
    pub status: bool,
}

/// Of how many sites the logs are, and whether it is asked instead what waits at a site once its input ends. Only then it may be said
/// which site it is, and how many messages it keeps: `None` where it isn't said.
#[derive(Clone, Copy)]
pub struct LackOptions {
    pub sites: u8,
    /// A site's input is read, and no logs.
    pub waiting: bool,
    pub site: Option<u8>,
    pub keep: Option<u32>,
}

/// As what records are read.
#[derive(Clone, Copy, PartialEq, Eq)]
pub enum ReadAs {
    Site,
    World,
    Audit,
}

/// As what records are checked, if it is one of the three, and of how many sites they are.
#[derive(Clone, Copy)]
pub struct CheckOptions {
    pub reading: Option<ReadAs>,
    pub sites: u8,
}

/// The numbers of one site.
#[derive(Clone, Copy)]
pub struct Options {
    pub site: u8,
    pub setup: SetupOptions,
}

/// What a site that keeps its records is asked for. Which site it is, of how many, and how many messages it keeps is `None` where
/// it wasn't given: its folder has it, unless the site is new.
#[derive(Drop)]
pub struct KeepOptions {
    /// Where the site's files are.
    pub folder: String,
    pub site: Option<u8>,
    pub sites: Option<u8>,
    pub keep: Option<u32>,
    pub shards: u8,
    pub workers: u8,
    pub batch: u32,
    /// Each record is on the disk before it is answered.
    pub sync: bool,
    /// What was kept is rewritten without the records that changed nothing, and no record is read.
    pub shorten: bool,
    /// Answers in the text of another version are written anew.
    pub upgrade: bool,
}
