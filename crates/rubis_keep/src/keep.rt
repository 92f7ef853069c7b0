//! A site in a folder, from its start to its end.

ghost use Rattle.std.specs.Prelude.{◌≡◌, ◌++◌, ◌∷◌, ◌&&◌, [], IfErr, IfOk, None, OnErr, OnOk, Some, is_none, true};
ghost use Rattle.std.specs.Option.{SomeIff};
ghost use Rattle.rubis_script.specs.Replica.{IsSetup};
ghost use Rattle.rubis_keep.specs.Deeds.{AreSettings, IsFailure, IsUnfit, KeepsFolder, KeepsFound, LeavesKeysOut, Looks, Makes, MayHaveBegun, Prepares};
ghost use Rattle.rubis_keep.specs.Deeds.{Renews, RenewsKeyless, Serves, StopsBy, service, setup_for, whole};
ghost use Rattle.rubis_keep.specs.Deeds.FolderDeed.{Answers as IsAnswered, AnswersAnew as IsAnsweredAnew, Rewrites as IsRewritten, Runs as IsRun};
ghost use Rattle.rubis_keep.specs.Deeds.FolderDeed.{SetsUp as IsSetUp};
ghost use Rattle.rubis_keep.specs.Deeds.FolderStep.{Began, Found};
ghost use Rattle.rubis_keep.specs.Setups.{GoesOn, config_of, next_setup, opening_setup, renewed};

use crate::answers::Answers;
use crate::fault::{FolderFault, KeepFault};
use crate::files::{begin, flush_names, give_name, open, take_lock};
use crate::folder_seam::{Deed, FolderHistory, find, find_keys, set_up};
use crate::run::Recording;
use crate::seam::FolderFiles;
use crate::setup::{ANSWERS, KEYLESS, Setup};
use crate::shortening::shorten;
use crate::site::keep_site;
use rubis_engine::{Records, RunFault};
use rubis_schema::{Hashes, KEEP_MAX, RECORDS_MAX, Record};
use rubis_script::Config;
use std::fs::{File, Files};
use std::io::{ErrorKind, Read};
use std::random::RandomSource;
use std::rt::Clock;
use std::sync::Wait;
use std::thread::Threads;
use std::{fs, io};

/// What is asked of a site in a folder. What is `None` is as the folder has it; where it has nothing, the site is site 0 of one, and
/// keeps as many messages as a site can.
#[derive(Clone, Copy)]
pub struct Wanted {
    pub site: Option<u8>,
    pub sites: Option<u8>,
    pub keep: Option<u32>,
    pub shards: u8,
    pub workers: u8,
    pub batch: u32,
    /// Each record is on the disk before it is answered.
    pub is_synced: bool,
    /// What was kept is rewritten without what changed nothing, and no record is read.
    pub shortens: bool,
    /// Answers in the text of another version are written anew.
    pub upgrades: bool,
}

impl Wanted {
    // How a new site is set up.
    fn opening(&self) -> Setup
        ensures { result ≡ opening_setup self.now }
    {
        Setup {
            site: self.site.unwrap_or(0),
            sites: self.sites.unwrap_or(1),
            keep: self.keep.unwrap_or(KEEP_MAX),
            answers: ANSWERS,
        }
    }

    // How a site goes on that was set up so: it may keep more. `None` if something else is asked for.
    fn goes_on(&self, setup: Setup) -> Option<Setup>
        ensures { SomeIff result (GoesOn self.now setup) (next_setup self.now setup) }
    {
        let keep = self.keep.unwrap_or(setup.keep);
        let is_same = self.site.unwrap_or(setup.site) == setup.site
            && self.sites.unwrap_or(setup.sites) == setup.sites;
        if is_same && keep >= setup.keep {
            Some(Setup { keep, ..setup })
        } else {
            None
        }
    }

    // The configuration of a site that is set up so, if each number is within its limits.
    fn config<R: RandomSource>(&self, rt: &R, setup: Setup) -> Option<Config>
        ensures { SomeIff result (IsSetup (config_of self.now setup)) (config_of self.now setup) }
    {
        let config = Config::new(
            setup.site,
            setup.sites,
            self.shards,
            self.workers,
            self.batch,
            setup.keep,
        )?;
        Some(config.with_hashes(Hashes::random(rt)))
    }

    // Whether there has to be a site, and none was found.
    fn lacks(&self, found: Option<Setup>) -> bool
        ensures { result ≡ (self.now.shortens && is_none found) }
    {
        self.shortens && found.is_none()
    }

    // How a site goes on that is set up so, or is to be.
    fn settings<R: RandomSource>(&self, rt: &R, setup: Setup) -> Result<Settings, FolderFault>
        ensures settings { IfOk result (AreSettings self.now setup) }
        ensures unfit { IfErr result (IsUnfit self.now setup) }
    {
        let Some(next) = self.goes_on(setup) else {
            return Err(FolderFault::IsOther(setup));
        };
        let Some(config) = self.config(rt, setup) else {
            return Err(FolderFault::NotBelow);
        };
        let Some(raised) = self.config(rt, next) else {
            return Err(FolderFault::NotBelow);
        };
        Ok(Settings {
            setup,
            next,
            config,
            raised,
        })
    }

    // Nothing is made for a site that can't be, or where a site's records are to be shortened: there has to be a site.
    fn allow<R: RandomSource>(&self, rt: &R, found: Option<Setup>) -> Result<(), FolderFault>
        ensures { IfErr result (StopsBy self.now (Found found ∷ [])) }
    {
        if self.lacks(found) {
            return Err(FolderFault::NoSite);
        }
        if found.is_none() {
            self.settings(rt, self.opening())?;
        }
        Ok(())
    }
}

/// How the site in a folder goes on: how it is set up, and from now on; and its configuration, set up so.
#[derive(Drop)]
pub(crate) struct Settings {
    setup: Setup,
    next: Setup,
    config: Config,
    raised: Config,
}

// What was kept in a folder, opened to be read.
fn open_kept<R: Files<File = File> + AllocGlobal>(
    rt: &R,
    folder: &str,
) -> io::Result<Recording<File, File>> {
    Ok(Recording {
        first: open(rt, folder, "kept")?,
        past: open(rt, folder, "kept")?,
    })
}

// How many records there may be where none is read: one piece may have been kept beyond the limit.
const KEPT_MAX: u64 = RECORDS_MAX + 65_536;

// Answers what was kept, and reads no record. The answers are compared with those of before, of which there are `len` bytes, and
// the others are appended.
fn complete<R: Files<File = File> + Print + AllocGlobal + Threads + Wait + Sync>(
    rt: &R,
    folder: &str,
    config: &Config,
    out: File,
    len: u64,
) -> Result<File, FolderFault>
    ensures { IfErr result IsFailure }
{
    let mut recording = open_kept(rt, folder).map_err(FolderFault::Kept)?;
    let before = open(rt, folder, "out").map_err(FolderFault::Out)?.take(len);
    let kept = open(rt, folder, "kept").map_err(FolderFault::Kept)?;
    let files = FolderFiles::new(rt, folder, kept, out, io::sink(), true, None);
    let mut answers = Answers::new(rt.alloc(), before, files);
    let mut none = io::empty();
    keep_site(
        rt,
        &mut recording,
        &mut none,
        &mut answers,
        config,
        KEPT_MAX,
    )
    .map_err(FolderFault::Run)?;
    Ok(answers.files.into_out())
}

// Writes the answers to what was kept anew, beside those of another version, and puts them in their place.
fn upgrade<R: Files<File = File> + Print + AllocGlobal + Threads + Wait + Sync>(
    rt: &R,
    folder: &str,
    config: &Config,
    history: &mut FolderHistory,
) -> Result<(), FolderFault>
    ensures ok { OnOk result (history.new.steps ≡ history.old.steps ++ whole (IsAnsweredAnew config.now ∷ [])) }
    ensures err { OnErr result (history.new.steps ≡ history.old.steps ++ Began (IsAnsweredAnew config.now) ∷ []) }
    ensures fault { IfErr result IsFailure }
{
    history.begins(&Deed::AnswersAnew(config));
    let fresh = begin(rt, folder, "out").map_err(FolderFault::Out)?;
    let fresh = complete(rt, folder, config, fresh, 0)?;
    give_name(rt, folder, "out", &fresh).map_err(FolderFault::Out)?;
    flush_names(rt, folder).map_err(FolderFault::Out)?;
    history.ends(&Deed::AnswersAnew(config));
    Ok(())
}

// Completes the answers to what was kept, as they are.
fn complete_out<R: Files<File = File> + Print + AllocGlobal + Threads + Wait + Sync>(
    rt: &R,
    folder: &str,
    config: &Config,
    history: &mut FolderHistory,
) -> Result<(), FolderFault>
    ensures ok { OnOk result (history.new.steps ≡ history.old.steps ++ whole (IsAnswered config.now ∷ [])) }
    ensures err { OnErr result (history.new.steps ≡ history.old.steps ++ Began (IsAnswered config.now) ∷ []) }
    ensures fault { IfErr result IsFailure }
{
    history.begins(&Deed::Answers(config));
    let out = open(rt, folder, "out").map_err(FolderFault::Out)?;
    let len = out.metadata().map_err(FolderFault::Out)?.len();
    complete(rt, folder, config, out, len)?;
    history.ends(&Deed::Answers(config));
    Ok(())
}

/// Whether a record of a file of a folder begins with the word `key`.
pub(crate) fn has_keys<R: Files<File = File> + AllocGlobal + Wait>(
    rt: &R,
    folder: &str,
    name: &str,
) -> io::Result<bool> {
    let mut records = Records::new(rt.alloc(), open(rt, folder, name)?);
    for _turn in rt.forever() {
        match records.advance() {
            Ok(true) if records.fields().field(0) == Some(b"key".as_slice()) => return Ok(true),
            Ok(true) => {}
            Ok(false) => return Ok(false),
            Err(RunFault::Memory) => return Err(io::Error::from(ErrorKind::OutOfMemory)),
            Err(_) => return Err(io::Error::from(ErrorKind::Other)),
        }
    }
    unreachable!()
}

// Writes what was kept beside it, without what changed nothing, and without records under keys where none is.
fn write_short<R: Files<File = File> + AllocGlobal + Threads + Wait + Sync>(
    rt: &R,
    folder: &str,
    config: &Config,
    knows_keys: bool,
) -> Result<File, FolderFault>
    ensures { IfErr result IsFailure }
{
    let mut past = open(rt, folder, "kept").map_err(FolderFault::Kept)?;
    let mut fresh = begin(rt, folder, "kept").map_err(FolderFault::Kept)?;
    shorten(rt, rt.alloc(), &mut past, &mut fresh, config, knows_keys).map_err(FolderFault::Run)?;
    Ok(fresh)
}

// Puts what was written so in the place of what was kept. It takes its name once it is on the disk, which decides: the answers are emptied
// before, since they can be given again to either.
fn put_short<R: Files<File = File> + AllocGlobal>(
    rt: &R,
    folder: &str,
    config: &Config,
    knows_keys: bool,
    fresh: &File,
    history: &mut FolderHistory,
) -> Result<(), FolderFault>
    ensures ok { OnOk result (history.new.steps ≡ history.old.steps ++ whole (IsRewritten config.now knows_keys ∷ [])) }
    ensures err { OnErr result (history.new.steps ≡ history.old.steps ++ Began (IsRewritten config.now knows_keys) ∷ []) }
    ensures fault { IfErr result IsFailure }
{
    history.begins(&Deed::Rewrites(config, knows_keys));
    let out = open(rt, folder, "out").map_err(FolderFault::Out)?;
    out.set_len(0).map_err(FolderFault::Out)?;
    out.sync_all().map_err(FolderFault::Out)?;
    give_name(rt, folder, "kept", fresh).map_err(FolderFault::Kept)?;
    flush_names(rt, folder).map_err(FolderFault::Kept)?;
    history.ends(&Deed::Rewrites(config, knows_keys));
    Ok(())
}

// Rewrites what was kept without what changed nothing.
fn rewrite<R: Files<File = File> + AllocGlobal + Threads + Wait + Sync>(
    rt: &R,
    folder: &str,
    config: &Config,
    history: &mut FolderHistory,
) -> Result<(), FolderFault>
    ensures ok { OnOk result (history.new.steps ≡ history.old.steps ++ whole (IsRewritten config.now true ∷ [])) }
    ensures err { OnErr result (MayHaveBegun (IsRewritten config.now true) history.old.steps history.new.steps) }
    ensures fault { IfErr result IsFailure }
{
    let fresh = write_short(rt, folder, config, true)?;
    put_short(rt, folder, config, true, &fresh, history)
}

// Has what was kept go on where there were no keys: records that begin with the word `key` were malformed. The folder is refused while it has
// some, and they are left out if it is to be shortened.
fn leave_keys_out<R: Files<File = File> + AllocGlobal + Threads + Wait + Sync>(
    rt: &R,
    folder: &str,
    config: &Config,
    wanted: &Wanted,
    history: &mut FolderHistory,
) -> Result<(), FolderFault>
    ensures { LeavesKeysOut wanted.now config.now history.old.steps history.new.steps result }
{
    if !find_keys(rt, folder, "kept", history)? {
        return Ok(());
    }
    if !wanted.shortens {
        return Err(FolderFault::HasKeys);
    }
    let fresh = write_short(rt, folder, config, false)?;
    // A line may have some beside a record that changed something.
    if find_keys(rt, folder, "kept.new", history)? {
        return Err(FolderFault::HasKeys);
    }
    put_short(rt, folder, config, false, &fresh, history)
}

// Has a folder go on in this version that is of the one before keys. What it says of its site is written last: until then it asks for the same
// again.
fn renew_keyless<R: Files<File = File> + AllocGlobal + Threads + Wait + Sync>(
    rt: &R,
    folder: &str,
    settings: &Settings,
    wanted: &Wanted,
    history: &mut FolderHistory,
) -> Result<(), FolderFault>
    ensures { RenewsKeyless wanted.now settings.now.config settings.now.setup history.old.steps history.new.steps result }
{
    leave_keys_out(rt, folder, &settings.config, wanted, history)?;
    set_up(rt, folder, settings.setup.renewed(), history)
}

// The same of a folder of any version.
fn renew<R: Files<File = File> + Print + AllocGlobal + Threads + Wait + Sync>(
    rt: &R,
    folder: &str,
    settings: &Settings,
    wanted: &Wanted,
    history: &mut FolderHistory,
) -> Result<(), FolderFault>
    requires { AreSettings wanted.now settings.now.setup settings.now }
    ensures { Renews wanted.now settings.now.setup history.old.steps history.new.steps result }
{
    let version = settings.setup.answers;
    if version == ANSWERS {
        return Ok(());
    }
    if version == KEYLESS {
        return renew_keyless(rt, folder, settings, wanted, history);
    }
    if !wanted.upgrades {
        return Err(FolderFault::IsOld(version));
    }
    upgrade(rt, folder, &settings.config, history)?;
    set_up(rt, folder, settings.setup.renewed(), history)
}

// Runs the site in a folder over standard input and output.
fn run<R: Files<File = File> + Print + Input + AllocGlobal + Threads + Wait + Sync>(
    rt: &R,
    folder: &str,
    config: &Config,
    is_synced: bool,
    settles: Option<Setup>,
    history: &mut FolderHistory,
) -> Result<(), FolderFault>
    ensures ok { OnOk result (history.new.steps ≡ history.old.steps ++ whole (IsRun config.now settles ∷ [])) }
    ensures err { OnErr result (history.new.steps ≡ history.old.steps ++ Began (IsRun config.now settles) ∷ []) }
    ensures fault { IfErr result IsFailure }
{
    history.begins(&Deed::Runs(config, settles));
    let mut recording = open_kept(rt, folder).map_err(FolderFault::Kept)?;
    let before = open(rt, folder, "out").map_err(FolderFault::Out)?;
    let len = before.metadata().map_err(FolderFault::Out)?.len();
    let kept = open(rt, folder, "kept").map_err(FolderFault::Kept)?;
    let out = open(rt, folder, "out").map_err(FolderFault::Out)?;
    let files = FolderFiles::new(rt, folder, kept, out, io::writer(rt), is_synced, settles);
    let mut answers = Answers::new(rt.alloc(), before.take(len), files);
    let mut live = rt.reader();
    match keep_site(
        rt,
        &mut recording,
        &mut live,
        &mut answers,
        config,
        RECORDS_MAX,
    ) {
        Ok(()) => {
            history.ends(&Deed::Runs(config, settles));
            Ok(())
        }
        Err(KeepFault::Show(e)) => Err(FolderFault::Closed(e)),
        Err(fault) => Err(FolderFault::Run(fault)),
    }
}

// Looks into a folder before it is made.
fn look<R: Files<File = File> + AllocGlobal + RandomSource>(
    rt: &R,
    folder: &str,
    wanted: &Wanted,
    history: &mut FolderHistory,
) -> Result<(), FolderFault>
    ensures { Looks wanted.now history.old.steps history.new.steps result }
{
    match find(rt, folder, history) {
        Ok(found) => wanted.allow(rt, found),
        Err(fault) if wanted.shortens => Err(fault),
        Err(_) => Ok(()),
    }
}

// Makes the folder, if there is none.
fn make_folder<R: Files<File = File> + AllocGlobal + RandomSource>(
    rt: &R,
    folder: &str,
    wanted: &Wanted,
    history: &mut FolderHistory,
) -> Result<(), FolderFault>
    ensures { Makes folder.now wanted.now history.old.steps history.new.steps result }
{
    if folder.is_empty() {
        return Err(FolderFault::NoName);
    }
    look(rt, folder, wanted, history)?;
    if wanted.shortens {
        return Ok(());
    }
    match fs::create_dir_all(rt, folder) {
        Ok(()) => Ok(()),
        Err(e) => Err(FolderFault::Folder(e)),
    }
}

// Sets a new site up. There are no records yet.
fn begin_site<R: Files<File = File> + AllocGlobal>(
    rt: &R,
    folder: &str,
    setup: Setup,
    history: &mut FolderHistory,
) -> Result<(), FolderFault>
    ensures ok { OnOk result (history.new.steps ≡ history.old.steps ++ whole (IsSetUp setup ∷ [])) }
    ensures err { OnErr result (MayHaveBegun (IsSetUp setup) history.old.steps history.new.steps) }
    ensures fault { IfErr result IsFailure }
{
    let kept = open(rt, folder, "kept").map_err(FolderFault::Kept)?;
    if kept.metadata().map_err(FolderFault::Kept)?.len() > 0 {
        return Err(FolderFault::NoSetup);
    }
    set_up(rt, folder, setup, history)
}

// Shortens what was kept. It is answered before, and its answers are given again.
fn shorten_kept<R: Files<File = File> + Print + AllocGlobal + Threads + Wait + Sync>(
    rt: &R,
    folder: &str,
    config: &Config,
    history: &mut FolderHistory,
) -> Result<(), FolderFault>
    ensures { let deeds = IsAnswered config.now ∷ IsRewritten config.now true ∷ IsAnswered config.now ∷ [] in
        Serves deeds history.old.steps history.new.steps result }
{
    complete_out(rt, folder, config, history)?;
    rewrite(rt, folder, config, history)?;
    complete_out(rt, folder, config, history)
}

// Runs a site that keeps more messages from now on. What was kept is answered first as it was told, by the configuration that the
// folder has: so the run compares the answers that it gives with all of those, and not with what a torn file has left of them.
fn raise<R: Files<File = File> + Print + Input + AllocGlobal + Threads + Wait + Sync>(
    rt: &R,
    folder: &str,
    settings: &Settings,
    is_synced: bool,
    history: &mut FolderHistory,
) -> Result<(), FolderFault>
    ensures { let deeds = IsAnswered settings.now.config ∷ IsRun settings.now.raised (Some (renewed settings.now.next)) ∷ [] in
        Serves deeds history.old.steps history.new.steps result }
{
    complete_out(rt, folder, &settings.config, history)?;
    let settles = Some(settings.next.renewed());
    run(rt, folder, &settings.raised, is_synced, settles, history)
}

// Does what is asked for in a folder of this version.
fn serve<R: Files<File = File> + Print + Input + AllocGlobal + Threads + Wait + Sync>(
    rt: &R,
    folder: &str,
    settings: &Settings,
    wanted: &Wanted,
    history: &mut FolderHistory,
) -> Result<(), FolderFault>
    requires { AreSettings wanted.now settings.now.setup settings.now }
    ensures { Serves (service wanted.now settings.now.setup) history.old.steps history.new.steps result }
{
    if wanted.shortens {
        return shorten_kept(rt, folder, &settings.config, history);
    }
    if settings.next.keep > settings.setup.keep {
        return raise(rt, folder, settings, wanted.is_synced, history);
    }
    run(
        rt,
        folder,
        &settings.config,
        wanted.is_synced,
        None,
        history,
    )
}

// Has a folder that was found so begin, or go on in this version.
fn prepare<R: Files<File = File> + Print + AllocGlobal + Threads + Wait + Sync>(
    rt: &R,
    folder: &str,
    found: Option<Setup>,
    settings: &Settings,
    wanted: &Wanted,
    history: &mut FolderHistory,
) -> Result<(), FolderFault>
    requires settings { AreSettings wanted.now settings.now.setup settings.now }
    requires found { settings.now.setup ≡ setup_for wanted.now found }
    ensures { Prepares wanted.now found history.old.steps history.new.steps result }
{
    match found {
        Some(_) => renew(rt, folder, settings, wanted, history),
        None => begin_site(rt, folder, settings.setup, history),
    }
}

// Runs the site in a folder that is locked.
fn keep_found<
    R: Files<File = File> + Print + Input + AllocGlobal + RandomSource + Threads + Wait + Sync,
>(rt: &R, folder: &str, wanted: &Wanted, history: &mut FolderHistory) -> Result<(), FolderFault>
    ensures { KeepsFound wanted.now history.old.steps history.new.steps result }
{
    let found = find(rt, folder, history)?;
    if wanted.lacks(found) {
        return Err(FolderFault::NoSite);
    }
    let settings = wanted.settings(rt, found.unwrap_or(wanted.opening()))?;
    prepare(rt, folder, found, &settings, wanted, history)?;
    serve(rt, folder, &settings, wanted, history)
}

/// Runs the site in a folder over standard input and output, until the input ends: it is made, if there is none, and otherwise goes
/// on where the last run was cut off. What it does is added to a history.
///
/// # Errors
///
/// `NoName`, `NoSite`, `NotBelow`, `IsOther` and `IsOld` if something was asked for that isn't of this folder, and `HasKeys` if it is to be shortened
/// first: nothing was changed then. Others say what failed.
pub fn keep_folder<
    R: Files<File = File>
        + Clock
        + Print
        + Input
        + AllocGlobal
        + RandomSource
        + Threads
        + Wait
        + Sync,
>(rt: &R, folder: &str, wanted: &Wanted, history: &mut FolderHistory) -> Result<(), FolderFault>
    ensures { KeepsFolder folder.now wanted.now history.old.steps history.new.steps result }
{
    make_folder(rt, folder, wanted, history)?;
    let _lock = take_lock(rt, folder)?;
    // A process that was killed may have left a rename that isn't on the disk.
    if wanted.is_synced {
        flush_names(rt, folder).map_err(FolderFault::Folder)?;
    }
    keep_found(rt, folder, wanted, history)
}
