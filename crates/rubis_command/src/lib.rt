//! A run of a program from its command line: what the words ask for, what is said where it goes wrong, and the status that it ends with.
//! Which words it takes is data: a table here, and the same in `specs`, in the terms of `clap`, which reads them.
#![tactic(auto)]

mod command_line;
mod commands;
mod ends;
mod options;
mod reading;
mod table;

pub use command_line::{read_site, read_words, words_of};
pub use ends::{FAULT, MISUSE, NOT_WELL, end, fail, misuse};
pub use options::{
    AuditOptions, CheckOptions, Invocation, KeepOptions, LackOptions, OptionFault, Options, ReadAs,
    SetupOptions, Widening,
};
pub use reading::read_options;
pub use rubis_engine::{Count, RunFault};
