//! The calls by which a folder is looked at and changed. Each function here makes one of them, or stands beside it, and adds what happens by it to
//! a history: that the two are the same is read, and proved nowhere.

ghost use Rattle.std.specs.Prelude.{◌≡◌, ◌∷◌, ◌++◌, [], List, IfErr, IfOk, OnErr, OnOk};
ghost use Rattle.std.specs.Borrow.{ftrue};
ghost use Rattle.rubis_keep.specs.Deeds.{FolderStep, IsFailure, whole};
ghost use Rattle.rubis_keep.specs.Deeds.FolderDeed.{SetsUp};
ghost use Rattle.rubis_keep.specs.Deeds.FolderStep.{Began as HasBegun, Ended as HasEnded, Found as WasFound, FoundKeys as WereFound};
ghost use Rattle.rubis_keep.specs.Steps.{deed_of, step_of};

use crate::fault::FolderFault;
use crate::files::flush_names;
use crate::keep::has_keys;
use crate::setup::{Setup, name_setup, read_setup};
use rubis_script::Config;
use std::fs::{File, Files};
use std::marker::{Model, PhantomData};
use std::sync::Wait;

/// What changes a folder. A site is set up by a configuration where it answers and runs.
#[derive(Clone, Copy)]
pub enum Deed<'a> {
    SetsUp(Setup),
    Answers(&'a Config),
    AnswersAnew(&'a Config),
    Rewrites(&'a Config, bool),
    Runs(&'a Config, Option<Setup>),
}

/// What happens in a folder by one call.
#[derive(Clone, Copy)]
pub enum Step<'a> {
    Found(Option<Setup>),
    FoundKeys(bool),
    Began(Deed<'a>),
    Ended(Deed<'a>),
}

/// What has happened in a folder. Only proofs read it, and it takes no memory.
#[derive(Drop)]
pub struct FolderHistory {
    of: PhantomData<()>,
    pub ghost steps: { List FolderStep },
}

impl Model for FolderHistory {
    ghost also_owns = { λ _. ftrue };
}

impl FolderHistory {
    /// Nothing.
    pub fn new() -> FolderHistory
        ensures { result.steps ≡ [] }
    {
        FolderHistory { of: PhantomData }
    }

    // This has happened too. It does nothing.
    fn add(&mut self, _what: &Step<'_>)
        ensures { self.new.steps ≡ self.old.steps ++ step_of _what.now ∷ [] }
    {}

    /// The next calls do this: it stands before the first one by which something changes.
    pub(crate) fn begins(&mut self, deed: &Deed<'_>)
        ensures { self.new.steps ≡ self.old.steps ++ HasBegun (deed_of deed.now) ∷ [] }
    {
        self.add(&Step::Began(*deed));
    }

    /// They have done it: it stands behind the last one.
    pub(crate) fn ends(&mut self, deed: &Deed<'_>)
        ensures { self.new.steps ≡ self.old.steps ++ HasEnded (deed_of deed.now) ∷ [] }
    {
        self.add(&Step::Ended(*deed));
    }
}

/// Reads how the site in a folder is set up. `None` if the folder doesn't say.
pub(crate) fn find<R: Files<File = File> + AllocGlobal>(
    rt: &R,
    folder: &str,
    history: &mut FolderHistory,
) -> Result<Option<Setup>, FolderFault>
    ensures ok { IfOk result (λ found. history.new.steps ≡ history.old.steps ++ WasFound found ∷ []) }
    ensures err { OnErr result (history.new.steps ≡ history.old.steps) }
    ensures fault { IfErr result IsFailure }
{
    let found = read_setup(rt, folder).map_err(FolderFault::Setup)?;
    history.add(&Step::Found(found));
    Ok(found)
}

/// Reads whether a record of a file of a folder begins with the word `key`.
pub(crate) fn find_keys<R: Files<File = File> + AllocGlobal + Wait>(
    rt: &R,
    folder: &str,
    name: &str,
    history: &mut FolderHistory,
) -> Result<bool, FolderFault>
    ensures ok { IfOk result (λ found. history.new.steps ≡ history.old.steps ++ WereFound found ∷ []) }
    ensures err { OnErr result (history.new.steps ≡ history.old.steps) }
    ensures fault { IfErr result IsFailure }
{
    let found = has_keys(rt, folder, name).map_err(FolderFault::Kept)?;
    history.add(&Step::FoundKeys(found));
    Ok(found)
}

/// Writes down how the site in a folder is set up, and flushes the name of the file that says so.
pub(crate) fn set_up<R: Files<File = File> + AllocGlobal>(
    rt: &R,
    folder: &str,
    setup: Setup,
    history: &mut FolderHistory,
) -> Result<(), FolderFault>
    ensures ok { OnOk result (history.new.steps ≡ history.old.steps ++ whole (SetsUp setup ∷ [])) }
    ensures err { OnErr result (history.new.steps ≡ history.old.steps ++ HasBegun (SetsUp setup) ∷ []) }
    ensures fault { IfErr result IsFailure }
{
    history.begins(&Deed::SetsUp(setup));
    name_setup(rt, folder, setup).map_err(FolderFault::Setup)?;
    flush_names(rt, folder).map_err(FolderFault::Setup)?;
    history.ends(&Deed::SetsUp(setup));
    Ok(())
}
