//! What is said of a run that goes wrong, and the status that it ends with.

ghost use Rattle.std.specs.Prelude.{◌≡◌, cond, is_ok};
ghost use Rattle.std.specs.Process.{exit_status};
ghost use Rattle.rubis_command.specs.Statuses.{IsRunStatus};

use rubis_engine::{Count, RunFault};
use std::process::ExitCode;

/// The status of a run that a fault ended.
pub const FAULT: u8 = 1;

/// The status of a run that ended well and found what it looked at not to be well, where it says so by that.
pub const NOT_WELL: u8 = 1;

/// The status of an invalid command line.
pub const MISUSE: u8 = 2;

/// Says why the run ended: the status of a fault.
pub fn fail<R: Eprint>(rt: &R, fault: RunFault) -> ExitCode
    ensures { exit_status result ≡ 1 }
{
    let _ = eprintln!(rt; "run fault: {fault}");
    ExitCode::from(FAULT)
}

/// Says what is wrong with the command line: the status of a mistake.
pub fn misuse<R: Eprint>(rt: &R, text: &str) -> ExitCode
    ensures { exit_status result ≡ 2 }
{
    let _ = eprintln!(rt; "fault: {text}");
    ExitCode::from(MISUSE)
}

/// Says how a run ended, if a fault ended it: the status of the run.
pub fn end<R: Eprint>(rt: &R, ended: Result<Count, RunFault>) -> ExitCode
    ensures value { exit_status result ≡ cond (is_ok ended) 0 1 }
    ensures either { IsRunStatus (exit_status result) }
{
    match ended {
        Ok(_) => ExitCode::SUCCESS,
        Err(fault) => fail(rt, fault),
    }
}
