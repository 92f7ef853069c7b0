//! The files of a site in a folder.

ghost use Rattle.std.specs.Prelude.{IfErr, Some};
ghost use Rattle.rubis_keep.specs.Deeds.{IsFailure};

use crate::counts::kept_line;
use crate::fault::FolderFault;
use crate::seam::FolderFiles;
use crate::site_files::SiteFiles;
use std::fs::{File, Files, OpenOptions, TryLockError};
use std::io::Write;
use std::rt::Clock;
use std::time::Duration;
use std::{fs, io, thread};

// How often the lock is tried, and how many milliseconds are waited in between.
const TRIES: u32 = 50;

const WAIT: u64 = 100;

impl<R: Files<File = File> + AllocGlobal, W: Write + Drop> SiteFiles for FolderFiles<'_, R, W> {
    ghost history = { λ files. Some files.past.history };

    fn keep(&mut self, lines: &[u8]) -> io::Result<usize> {
        self.write_kept(lines)
    }

    fn flush_kept(&mut self) -> io::Result<()> {
        self.sync_kept()
    }

    fn cut_kept(&mut self, len: u64) -> io::Result<()> {
        self.truncate_kept(len)
    }

    fn tell(&mut self, text: &[u8]) -> io::Result<usize> {
        self.write_out(text)
    }

    fn settle(&mut self) -> io::Result<()> {
        self.write_setup()
    }

    fn begin(&mut self, records: u64, counts: &[u64]) -> io::Result<()> {
        let line = kept_line(self.alloc(), records, counts)?;
        self.print_begun(records, counts, line.as_str())
    }

    fn reply(&mut self, question: &[u8], text: &[u8]) -> io::Result<()> {
        self.print_reply(question, text)
    }

    fn show(&mut self, text: &[u8]) -> io::Result<()> {
        self.print_answers(text)
    }
}

/// Opens a file of a folder to read it and to append to it. It is made if there is none.
pub(crate) fn open<R: Files<File = File> + AllocGlobal>(
    rt: &R,
    folder: &str,
    name: &str,
) -> io::Result<File> {
    let path = format!(in rt.alloc(); "{folder}/{name}")?;
    OpenOptions::new()
        .read(true)
        .append(true)
        .create(true)
        .open(rt, path.as_str())
}

/// Begins a file that is to take this name.
pub(crate) fn begin<R: Files<File = File> + AllocGlobal>(
    rt: &R,
    folder: &str,
    name: &str,
) -> io::Result<File> {
    let path = format!(in rt.alloc(); "{folder}/{name}.new")?;
    File::create(rt, path.as_str())
}

/// Gives a file that was begun its name, after all of it is on the disk, so that the folder has the old file or the new one. A power failure
/// may take that back until the names are flushed.
pub(crate) fn give_name<R: Files<File = File> + AllocGlobal>(
    rt: &R,
    folder: &str,
    name: &str,
    file: &File,
) -> io::Result<()> {
    file.sync_all()?;
    let from = format!(in rt.alloc(); "{folder}/{name}.new")?;
    let to = format!(in rt.alloc(); "{folder}/{name}")?;
    fs::rename(rt, from.as_str(), to.as_str())
}

/// Flushes the names in a folder, after which a power failure takes no rename back.
pub(crate) fn flush_names<R: Files<File = File> + AllocGlobal>(
    rt: &R,
    folder: &str,
) -> io::Result<()> {
    File::open(rt, folder)?.sync_all()
}

/// Takes the lock of a folder: it is held until the file is let go. A process that ends gives it back.
pub(crate) fn take_lock<R: Files<File = File> + AllocGlobal + Clock>(
    rt: &R,
    folder: &str,
) -> Result<File, FolderFault>
    ensures { IfErr result IsFailure }
{
    let file = open(rt, folder, "lock").map_err(FolderFault::Lock)?;
    for _turn in 0..TRIES {
        match file.try_lock() {
            Ok(()) => return Ok(file),
            Err(TryLockError::WouldBlock) => thread::sleep(rt, Duration::from_millis(WAIT)),
            Err(TryLockError::Error(e)) => return Err(FolderFault::Lock(e)),
        }
    }
    Err(FolderFault::IsRunning)
}
