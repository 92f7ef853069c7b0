//! The calls by which the files of a site change. Each method of `FolderFiles` here makes one of them and adds what happens by it to a
//! history: that the two are the same is read, and proved nowhere.

ghost use Rattle.std.specs.Prelude.{◌≡◌, ◌⊎◌, ◌∷◌, ◌++◌, ◌≤◌, [], OnErr, OnOk, Some, length, take};
ghost use Rattle.std.specs.Borrow.{ftrue};
ghost use Rattle.std.specs.Io.{WritesAtMost};
ghost use Rattle.std.specs.Io.KnownBytes.{Appends};
ghost use Rattle.rubis_keep.specs.Happenings.{events_of};
ghost use Rattle.rubis_keep.specs.History.{Grows, HasDone, HasReplied, HasShown, HasWritten, History};
ghost use Rattle.rubis_keep.specs.History.FolderEvent.{Began, CutTo, Flushed, Kept, Settled, Told};
ghost use Rattle.rubis_keep.specs.KeptLine.{kept_line};

use crate::files::flush_names;
use crate::setup::{Setup, name_setup};
use std::alloc::Global;
use std::fs::{File, Files};
use std::io;
use std::io::{ErrorKind, Write};
use std::marker::{Model, PhantomData};

/// What happens to the files of a site by one call.
#[derive(Clone, Copy)]
pub enum Happening<'a> {
    Kept(&'a [u8]),
    Flushed,
    CutTo(u64),
    Told(&'a [u8]),
    Settled,
    Began(u64, &'a [u64]),
    Shown(&'a [u8]),
    Replied(&'a [u8], &'a [u8]),
}

/// What has happened to the files of a site since they were opened. Only proofs read it, and it takes no memory.
#[derive(Drop)]
pub struct FileHistory {
    of: PhantomData<()>,
    pub ghost history: { History },
}

impl Model for FileHistory {
    ghost also_owns = { λ _. ftrue };
}

impl FileHistory {
    // Nothing. How the files stand is what they had when they were opened.
    fn new() -> FileHistory
        ensures { result.history.events ≡ [] }
    {
        FileHistory { of: PhantomData }
    }

    // This has happened too. It does nothing.
    fn add(&mut self, _what: &Happening<'_>)
        ensures { self.new.history ≡ record { start = self.old.history.start; events = self.old.history.events ++ events_of _what.now } }
    {}
}

// Writes a text as far as a writer takes it: how many bytes that is, and how it ended. What a signal interrupted is written again, as
// often as can be counted.
fn print<W: Write>(writer: &mut W, text: &[u8]) -> (usize, io::Result<()>)
    ensures within { result.0 ≤ length text.now }
    ensures whole { OnOk result.1 (result.0 ≡ length text.now) }
    ensures written { Appends (W.contents writer.old) (W.contents writer.new) (take result.0 text.now) }
{
    let mut many = 0;
    for _turn in 0..u64::MAX {
        if many >= text.len() {
            return (many, Ok(()));
        }
        match writer.write(&text[many..]) {
            Ok(0) => return (many, Err(io::Error::from(ErrorKind::WriteZero))),
            Ok(taken) => many += taken,
            Err(e) if e.kind() == ErrorKind::Interrupted => {}
            Err(e) => return (many, Err(e)),
        }
    }
    (many, Err(io::Error::from(ErrorKind::Interrupted)))
}

/// The files of a folder, opened to be appended to, and an output, with what has happened to them.
#[derive(Drop)]
pub(crate) struct FolderFiles<'a, R, W> {
    rt: &'a R,
    folder: &'a str,
    kept: File,
    out: File,
    output: W,
    // Whether what was kept is on the disk before it is answered.
    is_synced: bool,
    // How the site is set up from the first new record on, if that isn't what the folder has.
    settles: Option<Setup>,
    past: FileHistory,
}

impl<'a, R: Files<File = File> + AllocGlobal, W: Write + Drop> FolderFiles<'a, R, W> {
    /// Over files that were opened just now.
    pub(crate) fn new(
        rt: &'a R,
        folder: &'a str,
        kept: File,
        out: File,
        output: W,
        is_synced: bool,
        settles: Option<Setup>,
    ) -> FolderFiles<'a, R, W>
        ensures { result.past.history.events ≡ [] }
    {
        FolderFiles {
            rt,
            folder,
            kept,
            out,
            output,
            is_synced,
            settles,
            past: FileHistory::new(),
        }
    }

    /// Gives `out` back.
    pub(crate) fn into_out(self) -> File {
        self.out
    }

    /// Where its memory is from.
    pub(crate) fn alloc(&self) -> Global {
        self.rt.alloc()
    }

    /// Appends lines to `kept`.
    pub(crate) fn write_kept(&mut self, lines: &[u8]) -> io::Result<usize>
        ensures bound { WritesAtMost result lines.now }
        ensures kept { HasWritten (λ b. Kept b) (Some self.old.past.history) (Some self.new.past.history) result lines.now }
    {
        let taken = self.kept.write(lines)?;
        self.past.add(&Happening::Kept(&lines[..taken]));
        Ok(taken)
    }

    /// Flushes `kept`, if it is to be.
    pub(crate) fn sync_kept(&mut self) -> io::Result<()>
        ensures { HasDone Flushed (Some self.old.past.history) (Some self.new.past.history) result }
    {
        if self.is_synced {
            self.kept.sync_data()?;
        }
        self.past.add(&Happening::Flushed);
        Ok(())
    }

    /// Cuts `kept` off, if it is longer or shorter.
    pub(crate) fn truncate_kept(&mut self, len: u64) -> io::Result<()>
        ensures { HasDone (CutTo len) (Some self.old.past.history) (Some self.new.past.history) result }
    {
        if self.kept.metadata()?.len() != len {
            self.kept.set_len(len)?;
        }
        self.past.add(&Happening::CutTo(len));
        Ok(())
    }

    /// Appends answers to `out`.
    pub(crate) fn write_out(&mut self, text: &[u8]) -> io::Result<usize>
        ensures bound { WritesAtMost result text.now }
        ensures told { HasWritten (λ b. Told b) (Some self.old.past.history) (Some self.new.past.history) result text.now }
    {
        let taken = self.out.write(text)?;
        self.past.add(&Happening::Told(&text[..taken]));
        Ok(taken)
    }

    /// Writes down how the site is set up, if the folder has it otherwise.
    pub(crate) fn write_setup(&mut self) -> io::Result<()>
        ensures ok { OnOk result (Grows (Some self.old.past.history) (Some self.new.past.history) (Settled ∷ [])) }
        ensures err { OnErr result (Grows (Some self.old.past.history) (Some self.new.past.history) [] ⊎ Grows (Some self.old.past.history) (Some self.new.past.history) (Settled ∷ [])) }
    {
        let Some(setup) = self.settles.take() else {
            self.past.add(&Happening::Settled);
            return Ok(());
        };
        name_setup(self.rt, self.folder, setup)?;
        self.past.add(&Happening::Settled);
        flush_names(self.rt, self.folder)
    }

    /// Shows the line that says that all that was kept is answered.
    pub(crate) fn print_begun(&mut self, records: u64, counts: &[u64], line: &str) -> io::Result<()>
        requires { line.now ≡ kept_line records counts.now }
        ensures { HasDone (Began records counts.now) (Some self.old.past.history) (Some self.new.past.history) result }
    {
        print(&mut self.output, line.as_bytes()).1?;
        self.past.add(&Happening::Began(records, counts));
        Ok(())
    }

    /// Answers a question.
    pub(crate) fn print_reply(&mut self, question: &[u8], text: &[u8]) -> io::Result<()>
        ensures { HasReplied (Some self.old.past.history) (Some self.new.past.history) result question.now text.now }
    {
        let (many, ended) = print(&mut self.output, text);
        self.past.add(&Happening::Replied(question, &text[..many]));
        ended
    }

    /// Shows answers.
    pub(crate) fn print_answers(&mut self, text: &[u8]) -> io::Result<()>
        ensures { HasShown (Some self.old.past.history) (Some self.new.past.history) result text.now }
    {
        let (many, ended) = print(&mut self.output, text);
        self.past.add(&Happening::Shown(&text[..many]));
        ended
    }
}
