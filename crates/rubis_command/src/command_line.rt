//! From the words of a command line to what they ask for.

ghost use Rattle.std.specs.Prelude.{◌≡◌, [], IfErr, IfOk, map, string_bytes};
ghost use Rattle.std.specs.Process.{exit_status};
ghost use Rattle.clap.specs.Words.{fault_of, kind_of};
ghost use Rattle.rubis_replica.specs.State.{IsSetup};
ghost use Rattle.rubis_command.specs.CommandLine.{IsAsked, command_line};
ghost use Rattle.rubis_command.specs.Setups.{site_setup};
ghost use Rattle.rubis_command.specs.Statuses.{IsRefusal, IsStatus, IsStatusOf, status_by};

use crate::ends::{MISUSE, fail, misuse};
use crate::options::{Invocation, OptionFault, Options};
use crate::reading::read_options;
use clap::Error;
use rubis_engine::RunFault;
use rubis_replica::Config;
use rubis_schema::Hashes;
use std::env;
use std::env::Env;
use std::io::ErrorKind;
use std::process::ExitCode;
use std::random::RandomSource;

// Says what `clap` says: the help or the version that was asked for, or what is wrong with the command line.
fn tell<R: Print + Eprint>(rt: &R, error: &Error) -> ExitCode
    ensures { exit_status result ≡ status_by (kind_of error.now) }
{
    let _ = error.print(rt);
    match error.exit_code() {
        0 => ExitCode::SUCCESS,
        _ => ExitCode::from(MISUSE),
    }
}

/// What these words ask for, the program's name first. Where nothing is to be run, it is said why, and the error is the status.
pub fn read_words<R: Print + Eprint + AllocGlobal>(
    rt: &R,
    words: &[String],
) -> Result<Invocation, ExitCode>
    ensures asked { IfOk result (IsAsked (map string_bytes words.now)) }
    ensures fits { IfOk result (λ asked. fault_of command_line (map string_bytes words.now) ≡ []) }
    ensures status { IfErr result (λ status. IsStatusOf (map string_bytes words.now) (exit_status status)) }
{
    match read_options(rt.alloc(), words) {
        Ok(asked) => Ok(asked),
        Err(OptionFault::Memory) => Err(fail(rt, RunFault::Memory)),
        Err(OptionFault::Words(error)) => Err(tell(rt, &error)),
    }
}

/// The words of the command line of this process. Where they can't be had, it is said why, and the error is the status.
pub fn words_of<R: Eprint + AllocGlobal + Env>(rt: &R) -> Result<Vec<String>, ExitCode>
    ensures { IfErr result (λ status. IsRefusal (exit_status status)) }
{
    match env::args(rt) {
        Ok(args) => args
            .collect::<Vec<String>>(rt.alloc())
            .map_err(|_| fail(rt, RunFault::Memory)),
        Err(error) if error.kind() == ErrorKind::OutOfMemory => Err(fail(rt, RunFault::Memory)),
        Err(_) => Err(misuse(rt, "the command line isn't text")),
    }
}

/// The configuration of the site that is asked for, whose maps hash by numbers that are drawn at random. Where the options are no setup of a
/// site, it is said why, and the error is the status.
pub fn read_site<R: Eprint + RandomSource>(rt: &R, options: &Options) -> Result<Config, ExitCode>
    ensures config { IfOk result (λ config. (config ≡ site_setup options.now) × IsSetup (site_setup options.now)) }
    ensures misuse { IfErr result (λ status. (exit_status status ≡ 2) × ¬ IsSetup (site_setup options.now)) }
    ensures status { IfErr result (λ status. IsStatus (exit_status status)) }
{
    let config = Config::new(
        options.site,
        options.setup.sites,
        options.setup.shards,
        options.setup.workers,
        options.setup.batch,
        options.setup.keep,
    );
    match config {
        Some(config) => Ok(config.with_hashes(Hashes::random(rt))),
        None => Err(misuse(rt, "site must be below sites")),
    }
}
