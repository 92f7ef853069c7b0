//! `rubis site` alone: one auction site over standard input and output. It is made of fewer crates than the program with all commands, so a
//! first run of a site need not wait for the others' proofs.
#![tactic(auto)]

ghost use Rattle.std.specs.Prelude.{◌≡◌, map, string_bytes};
ghost use Rattle.std.specs.Process.{exit_status};
ghost use Rattle.rubis_reading.specs.Chunked.{OfInput};
ghost use Rattle.rubis_script.specs.Replica.{IsSetup, setup_place};
ghost use Rattle.rubis_script.specs.ByStatus.{IsRunOfStatus};
ghost use Rattle.rubis_command.specs.Setups.{site_setup};
ghost use Rattle.rubis_command.specs.Statuses.{IsRunStatus, IsStatus, IsStatusOf};

use rubis_command::{Invocation, Options, end, misuse, read_site, read_words, words_of};
use rubis_engine::Outgoing;
use rubis_reading::Chunks;
use rubis_script::{chunks_for, run_last_site};
use std::io;
use std::io::{Read, Write};
use std::process::ExitCode;
use std::random::RandomSource;
use std::sync::Wait;
use std::thread::Threads;

// Runs a site over a text that nothing was read of, and says by the status how that ended.
fn run_one<R: Eprint + AllocGlobal + RandomSource + Threads + Wait + Sync, I: Read, O: Write>(
    rt: &R,
    options: &Options,
    chunks: &mut Chunks<I>,
    writer: &mut O,
) -> ExitCode
    ensures misuse { ¬ IsSetup (site_setup options.now) → exit_status result ≡ 2 }
    ensures runs { IsSetup (site_setup options.now) → IsRunStatus (exit_status result) }
    ensures status { IsStatus (exit_status result) }
    ensures answers { IsSetup (site_setup options.now) → OfInput I.remaining chunks.old chunks.new (λ input.
        IsRunOfStatus (setup_place (site_setup options.now)) input (O.contents writer.old) (O.contents writer.new) (exit_status result)) }
{
    let config = match read_site(rt, options) {
        Ok(config) => config,
        Err(status) => return status,
    };
    let ended = run_last_site(rt, rt.alloc(), chunks, writer, &config);
    end(rt, ended)
}

// Runs a site over standard input and output.
fn run_streams<R: Print + Eprint + Input + AllocGlobal + RandomSource + Threads + Wait + Sync>(
    rt: &R,
    options: &Options,
) -> ExitCode
    ensures { IsStatus (exit_status result) }
{
    let mut chunks = chunks_for(rt.alloc(), rt.reader(), options.setup.workers);
    let mut writer = Outgoing::new(io::writer(rt));
    run_one(rt, options, &mut chunks, &mut writer)
}

// Runs what is asked for, if it is a site.
fn obey<R: Print + Eprint + Input + AllocGlobal + RandomSource + Threads + Wait + Sync>(
    rt: &R,
    asked: &Invocation,
) -> ExitCode
    ensures { IsStatus (exit_status result) }
{
    match asked {
        Invocation::Site(options) => run_streams(rt, options),
        _ => misuse(rt, "this program has the command site alone"),
    }
}

// Does what the words of the command line ask for.
#[tactic(auto, using(rubis_command::proofs::Reasons::status_of_run))]
fn start<R: Print + Eprint + Input + AllocGlobal + RandomSource + Threads + Wait + Sync>(
    rt: &R,
    words: &[String],
) -> ExitCode
    ensures { IsStatusOf (map string_bytes words.now) (exit_status result) }
{
    match read_words(rt, words) {
        Ok(asked) => obey(rt, &asked),
        Err(status) => status,
    }
}

fn main(rt: HostRuntime) -> ExitCode {
    match words_of(&rt) {
        Ok(words) => start(&rt, words.as_slice()),
        Err(status) => status,
    }
}
