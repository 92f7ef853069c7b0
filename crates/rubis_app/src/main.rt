//! `rubis`: an auction site, several in one run, an auditor of their logs, what says what these lack of each other or what waits at a
//! site, or what widens them, over standard input and output.
#![tactic(auto)]

ghost use Rattle.std.specs.Prelude.{◌≡◌, ◌⊎◌, ◌<◌, ◌≤◌, ◌==◌, ◌&&◌, IfErr, IfOk, cond, is_ok, map, string_bytes, true};
ghost use Rattle.rubis_schema.specs.declared.limits.TheConstants.{SITES_MAX};
ghost use Rattle.std.specs.Option.{SomeIff};
ghost use Rattle.std.specs.Process.{exit_status};
ghost use Rattle.rubis_reading.specs.Chunked.{OfInput};
ghost use Rattle.rubis_script.specs.Replica.{setup_place};
ghost use Rattle.rubis_script.specs.ByStatus.{IsRunOfStatus};
ghost use Rattle.rubis_world.specs.Script.{IsSetup};
ghost use Rattle.rubis_command.specs.Setups.{site_setup};
ghost use Rattle.rubis_command.specs.Statuses.{IsRunStatus, IsStatus, IsStatusOf};
ghost use Rattle.rubis_app.specs.Setups.{names_a_site, waiting_options, wanted_of, world_setup_of};
ghost use Rattle.rubis_world.specs.Worlds.{IsWorldSetup};
ghost use Rattle.rubis_app.specs.Statuses.{status_of};

use rubis_audit::{
    Auditor, Grammar, LogQuestion, Tally, Widener, run_auditor_chunks, run_check, run_widen_chunks,
};
use rubis_command::{
    CheckOptions, FAULT, Invocation, KeepOptions, LackOptions, MISUSE, NOT_WELL, Options, ReadAs,
    SetupOptions, Widening, end, fail, misuse, read_site, read_words, words_of,
};
use rubis_engine::Outgoing;
use rubis_keep::{FolderFault, FolderHistory, Setup as Place, Wanted, keep_folder};
use rubis_reading::Chunks;
use rubis_schema::{Hashes, KEEP_MAX, RECORDS_MAX, SITES_MAX};
use rubis_script::{chunks_for, run_last_site};
use rubis_serving::BLOCK;
use rubis_world::{Count, RunFault, WorldConfig, WorldDesk, run_waiting, run_world_chunks};
use std::fs::{File, Files};
use std::io::{Read, Write};
use std::process::ExitCode;
use std::random::RandomSource;
use std::rt::Clock;
use std::sync::Wait;
use std::thread::Threads;
use std::{io, mem};

// Says how what was asked of logs ended: the status is 0 only if they are well, where it is by that.
fn end_audit<R: Eprint>(rt: &R, ended: Result<Count, RunFault>, is_well: bool) -> ExitCode
    ensures value { exit_status result ≡ cond (is_ok ended && is_well) 0 1 }
    ensures either { IsRunStatus (exit_status result) }
{
    match ended {
        Ok(_) if !is_well => ExitCode::from(NOT_WELL),
        ended => end(rt, ended),
    }
}

// Runs a site over a text that nothing was read of, and says by the status how that ended.
fn run_one<R: Eprint + AllocGlobal + RandomSource + Threads + Wait + Sync, I: Read, O: Write>(
    rt: &R,
    options: &Options,
    chunks: &mut Chunks<I>,
    writer: &mut O,
) -> ExitCode
    ensures misuse { ¬ IsSetup (site_setup options.now) → exit_status result ≡ 2 }
    ensures runs { IsSetup (site_setup options.now) → IsRunStatus (exit_status result) }
    ensures status { IsStatus (exit_status result) }
    ensures answers { IsSetup (site_setup options.now) → OfInput I.remaining chunks.old chunks.new (λ input.
        IsRunOfStatus (setup_place (site_setup options.now)) input (O.contents writer.old) (O.contents writer.new) (exit_status result)) }
{
    let config = match read_site(rt, options) {
        Ok(config) => config,
        Err(status) => return status,
    };
    let ended = run_last_site(rt, rt.alloc(), chunks, writer, &config);
    end(rt, ended)
}

// Runs a site over standard input and output.
fn run_streams<R: Print + Eprint + Input + AllocGlobal + RandomSource + Threads + Wait + Sync>(
    rt: &R,
    options: &Options,
) -> ExitCode
    ensures { IsStatus (exit_status result) }
{
    let mut chunks = chunks_for(rt.alloc(), rt.reader(), options.setup.workers);
    let mut writer = Outgoing::new(io::writer(rt));
    run_one(rt, options, &mut chunks, &mut writer)
}

// The configuration of several sites, if each number is within its limits.
fn world_config_of(setup: &SetupOptions) -> Option<WorldConfig>
    ensures { SomeIff result (IsWorldSetup (world_setup_of setup.now)) (world_setup_of setup.now) }
{
    WorldConfig::new(
        setup.sites,
        setup.shards,
        setup.workers,
        setup.batch,
        setup.keep,
    )
}

// Answers the records of several sites. They aren't taken apart afterwards.
fn answer_world<R: Print + Input + AllocGlobal + Threads + Wait + Sync>(
    rt: &R,
    config: &WorldConfig,
) -> Result<Count, RunFault> {
    let mut desk = WorldDesk::new(rt, rt.alloc(), config)?;
    let mut chunks = Chunks::new(rt.alloc(), rt.reader(), BLOCK);
    let mut writer = Outgoing::new(io::writer(rt));
    let ended = run_world_chunks(rt.alloc(), &mut chunks, &mut writer, &mut desk, RECORDS_MAX);
    mem::forget(desk);
    ended
}

// Runs several sites over standard input and output.
fn run_sites<R: Print + Eprint + Input + AllocGlobal + RandomSource + Threads + Wait + Sync>(
    rt: &R,
    setup: &SetupOptions,
) -> ExitCode
    ensures misuse { ¬ IsWorldSetup (world_setup_of setup.now) → exit_status result ≡ 2 }
    ensures runs { IsWorldSetup (world_setup_of setup.now) → IsRunStatus (exit_status result) }
    ensures status { IsStatus (exit_status result) }
{
    let Some(config) = world_config_of(setup) else {
        return misuse(rt, "a number isn't within its limits");
    };
    let config = config.with_hashes(Hashes::random(rt));
    end(rt, answer_world(rt, &config))
}

// Answers what is asked of the logs of `sites` sites, from standard input to standard output, and maybe says by the status what was
// found. The auditor isn't taken apart afterwards.
fn audit_logs<R: Print + Eprint + Input + AllocGlobal + RandomSource>(
    rt: &R,
    sites: u8,
    asked: LogQuestion,
    by_status: bool,
) -> ExitCode
    ensures misuse { SITES_MAX < sites → exit_status result ≡ 2 }
    ensures runs { sites ≤ SITES_MAX → IsRunStatus (exit_status result) }
    ensures status { IsStatus (exit_status result) }
{
    if sites > SITES_MAX {
        return misuse(rt, "there are too many sites");
    }
    let mut auditor = Auditor::hashed(rt.alloc(), sites, asked, Hashes::random(rt));
    let mut chunks = Chunks::new(rt.alloc(), rt.reader(), BLOCK);
    let mut writer = Outgoing::new(io::writer(rt));
    let ended = run_auditor_chunks(rt.alloc(), &mut chunks, &mut writer, &mut auditor);
    let is_well = auditor.is_well();
    mem::forget(auditor);
    end_audit(rt, ended, is_well || !by_status)
}

// How a site is set up whose input is read for what waits: no answer, and so nothing that waits, depends on the numbers that aren't
// options.
fn waiting_options(options: &LackOptions) -> Options
    ensures { result ≡ waiting_options options.now }
{
    Options {
        site: options.site.unwrap_or(0),
        setup: SetupOptions {
            sites: options.sites,
            shards: 4,
            workers: 1,
            batch: 64,
            keep: options.keep.unwrap_or(KEEP_MAX),
        },
    }
}

// Reads the input of a site from standard input, and writes what waits at its end to standard output.
fn run_waits<R: Print + Eprint + Input + AllocGlobal + RandomSource + Threads + Wait + Sync>(
    rt: &R,
    options: &LackOptions,
) -> ExitCode
    ensures misuse { ¬ IsSetup (site_setup (waiting_options options.now)) → exit_status result ≡ 2 }
    ensures runs { IsSetup (site_setup (waiting_options options.now)) → IsRunStatus (exit_status result) }
    ensures status { IsStatus (exit_status result) }
{
    let config = match read_site(rt, &waiting_options(options)) {
        Ok(config) => config,
        Err(status) => return status,
    };
    let mut chunks = chunks_for(rt.alloc(), rt.reader(), 1);
    let mut writer = Outgoing::new(io::writer(rt));
    end(
        rt,
        run_waiting(rt, rt.alloc(), &mut chunks, &mut writer, &config),
    )
}

// Says what logs lack of each other, or what waits at a site.
fn run_lack<R: Print + Eprint + Input + AllocGlobal + RandomSource + Threads + Wait + Sync>(
    rt: &R,
    options: &LackOptions,
) -> ExitCode
    ensures misuse { names_a_site options.now ≡ true → exit_status result ≡ 2 }
    ensures status { IsStatus (exit_status result) }
{
    if options.waiting {
        return run_waits(rt, options);
    }
    if options.site.is_some() || options.keep.is_some() {
        return misuse(rt, "--site and --keep are of the site that --waiting reads");
    }
    audit_logs(rt, options.sites, LogQuestion::Lacks, true)
}

// The command whose records are checked.
fn grammar_of(reading: ReadAs) -> Grammar {
    match reading {
        ReadAs::Site => Grammar::Site,
        ReadAs::World => Grammar::World,
        ReadAs::Audit => Grammar::Audit,
    }
}

// Says how a check ended: its status is 0 only if no record is outside the grammar.
fn end_check<R: Eprint>(rt: &R, ended: Result<Tally, RunFault>) -> ExitCode
    ensures well { IfOk ended (λ tally. exit_status result ≡ cond (tally.bad == 0) 0 1) }
    ensures fault { IfErr ended (λ fault. exit_status result ≡ 1) }
    ensures either { IsRunStatus (exit_status result) }
{
    match ended {
        Ok(tally) if tally.bad > 0 => ExitCode::from(NOT_WELL),
        Ok(_) => ExitCode::SUCCESS,
        Err(fault) => fail(rt, fault),
    }
}

// Checks records, from standard input to standard output.
fn run_checker<R: Print + Eprint + Input + AllocGlobal>(rt: &R, options: &CheckOptions) -> ExitCode
    ensures { IsStatus (exit_status result) }
{
    if options.sites > SITES_MAX {
        return misuse(rt, "there are too many sites");
    }
    let Some(reading) = options.reading else {
        return misuse(rt, "only records of site, world or audit are checked");
    };
    let mut writer = io::writer(rt);
    let ended = run_check(
        rt.alloc(),
        rt.reader(),
        &mut writer,
        grammar_of(reading),
        options.sites,
    );
    end_check(rt, ended)
}

// Widens logs to more sites, from standard input to standard output.
fn run_widener<R: Print + Eprint + Input + AllocGlobal>(rt: &R, counts: &Widening) -> ExitCode
    ensures misuse { (counts.now.to < counts.now.sites) ⊎ (SITES_MAX < counts.now.to) → exit_status result ≡ 2 }
    ensures runs { counts.now.sites ≤ counts.now.to → counts.now.to ≤ SITES_MAX → IsRunStatus (exit_status result) }
    ensures status { IsStatus (exit_status result) }
{
    if counts.to < counts.sites {
        return misuse(rt, "to must not be below sites");
    }
    if counts.to > SITES_MAX {
        return misuse(rt, "there are too many sites");
    }
    let mut widener = Widener::new(rt.alloc(), counts.sites, counts.to);
    let mut chunks = Chunks::new(rt.alloc(), rt.reader(), BLOCK);
    let mut writer = Outgoing::new(io::writer(rt));
    let ended = run_widen_chunks(rt.alloc(), &mut chunks, &mut writer, &mut widener);
    end(rt, ended)
}

// What failed of a site in a folder, and why: the folder itself or a file, where that is its fault.
fn failed_part<'a>(folder: &'a str, fault: &'a FolderFault) -> Option<(&'a str, &'a io::Error)> {
    match fault {
        FolderFault::Folder(e) => Some((folder, e)),
        FolderFault::Lock(e) => Some(("lock", e)),
        FolderFault::Setup(e) => Some(("setup", e)),
        FolderFault::Kept(e) => Some(("open kept", e)),
        FolderFault::Out(e) => Some(("open out", e)),
        FolderFault::Closed(e) => Some(("write", e)),
        _ => None,
    }
}

// Says that something else was asked for than what the folder has, if that is so.
fn tell_misuse<R: Eprint>(rt: &R, folder: &str, fault: &FolderFault) -> io::Result<()> {
    match fault {
        FolderFault::NoName => eprintln!(rt; "fault: the folder has no name"),
        FolderFault::NoSite => eprintln!(rt; "fault: there is no site in {folder}"),
        FolderFault::NotBelow => eprintln!(rt; "fault: site must be below sites"),
        FolderFault::IsOther(
            Place {
                site,
                sites,
                keep,
                ..
            },
        ) => eprintln!(rt; "fault: {folder} is site {site} of {sites}, and keeps {keep}"),
        FolderFault::IsOld(version) => {
            eprintln!(rt;
                "fault: {folder} has answers of version {version}: --upgrade writes them anew"
            )
        }
        FolderFault::HasKeys => {
            eprintln!(rt; "fault: {folder} has records that begin with key: --shorten drops them")
        }
        _ => Ok(()),
    }
}

// Says why a site in a folder isn't run, or ended early.
fn tell_fault<R: Eprint>(rt: &R, folder: &str, fault: &FolderFault) -> io::Result<()> {
    if let Some((part, e)) = failed_part(folder, fault) {
        return eprintln!(rt; "run fault: {part}: {e}");
    }
    match fault {
        FolderFault::NoSetup => eprintln!(rt; "run fault: {folder} has records, and no setup"),
        FolderFault::IsRunning => eprintln!(rt; "run fault: {folder} is running"),
        FolderFault::Run(fault) => eprintln!(rt; "run fault: {fault}"),
        _ => tell_misuse(rt, folder, fault),
    }
}

// The status of a site in a folder that isn't run, or ended early: that of a command line that asks for another site, or of a fault.
fn status_of(fault: &FolderFault) -> u8
    ensures value { result ≡ status_of fault.now }
    ensures either { (result ≡ 1) ⊎ (result ≡ 2) }
{
    match fault {
        FolderFault::NoName
        | FolderFault::NoSite
        | FolderFault::NotBelow
        | FolderFault::IsOther(_)
        | FolderFault::IsOld(_)
        | FolderFault::HasKeys => MISUSE,
        _ => FAULT,
    }
}

// What is asked for of a site in a folder.
fn wanted_of(options: &KeepOptions) -> Wanted
    ensures { result ≡ wanted_of options.now }
{
    Wanted {
        site: options.site,
        sites: options.sites,
        keep: options.keep,
        shards: options.shards,
        workers: options.workers,
        batch: options.batch,
        is_synced: options.sync,
        shortens: options.shorten,
        upgrades: options.upgrade,
    }
}

// Says why a site in a folder isn't run, or ended early, and by which status.
fn fail_keep<R: Eprint>(rt: &R, folder: &str, fault: FolderFault) -> ExitCode
    ensures value { exit_status result ≡ status_of fault }
    ensures status { IsStatus (exit_status result) }
{
    let _ = tell_fault(rt, folder, &fault);
    ExitCode::from(status_of(&fault))
}

// Runs a site in a folder.
fn run_keep<
    R: Files<File = File>
        + Clock
        + Print
        + Eprint
        + Input
        + AllocGlobal
        + RandomSource
        + Threads
        + Wait
        + Sync,
>(rt: &R, options: &KeepOptions) -> ExitCode
    ensures { IsStatus (exit_status result) }
{
    let folder = options.folder.as_str();
    match keep_folder(rt, folder, &wanted_of(options), &mut FolderHistory::new()) {
        Ok(()) => ExitCode::SUCCESS,
        Err(fault) => fail_keep(rt, folder, fault),
    }
}

// Runs what is asked for.
fn obey<
    R: Files<File = File>
        + Clock
        + Print
        + Eprint
        + Input
        + AllocGlobal
        + RandomSource
        + Threads
        + Wait
        + Sync,
>(rt: &R, asked: &Invocation) -> ExitCode
    ensures { IsStatus (exit_status result) }
{
    match asked {
        Invocation::Site(options) => run_streams(rt, options),
        Invocation::World(setup) => run_sites(rt, setup),
        Invocation::Audit(options) => audit_logs(
            rt,
            options.sites,
            LogQuestion::Agreement,
            options.status,
        ),
        Invocation::Lack(options) => run_lack(rt, options),
        Invocation::Check(options) => run_checker(rt, options),
        Invocation::Widen(counts) => run_widener(rt, counts),
        Invocation::Keep(options) => run_keep(rt, options),
    }
}

// Does what the words of the command line ask for.
#[tactic(auto, using(rubis_command::proofs::Reasons::status_of_run))]
fn start<
    R: Files<File = File>
        + Clock
        + Print
        + Eprint
        + Input
        + AllocGlobal
        + RandomSource
        + Threads
        + Wait
        + Sync,
>(rt: &R, words: &[String]) -> ExitCode
    ensures { IsStatusOf (map string_bytes words.now) (exit_status result) }
{
    match read_words(rt, words) {
        Ok(asked) => obey(rt, &asked),
        Err(status) => status,
    }
}

fn main(rt: HostRuntime) -> ExitCode {
    match words_of(&rt) {
        Ok(words) => start(&rt, words.as_slice()),
        Err(status) => status,
    }
}
