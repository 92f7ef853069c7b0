//! Answers on their way to where those of before stand.

ghost use Rattle.std.specs.Prelude.{◌≡◌, ◌≤◌, [], IfErr, IfOk, IfSome, MatchResult, OnErr, OnOk, false, length, take};
ghost use Rattle.std.specs.Io.KnownBytes.{IsAtEnd, Keeps};
ghost use Rattle.rubis_keep.specs.Turns.{HasPut, HasTorn, Puts, noted_fault, met};
ghost use Rattle.rubis_keep.specs.Faults.{HasDifference, HasMore, MayDiffer, IsFailure};
ghost use Rattle.rubis_keep.specs.History.{Tells, TellsFront};

use crate::comparing::{compare, differ, ends_in};
use crate::fault::KeepFault;
use crate::site_files::SiteFiles;
use rubis_engine::{Course, InputRecord, Reply, RunFault, Service, Sink, read_through_signals};
use rubis_serving::Outlet;
use std::alloc::Global;
use std::io;
use std::io::{ErrorKind, Read};

/// Where answers go: those of before, with which they are compared as far as these go, and the files that they are appended to.
#[derive(Drop)]
pub struct Answers<O, F> {
    pub before: O,
    pub files: F,
    // Whether answers are shown: those to new records are.
    pub(crate) is_live: bool,
    text: Vec<u8>,
    // How many lines of those of before were found.
    pub(crate) lines: u64,
    // Why a text couldn't be put.
    pub(crate) fault: Option<KeepFault>,
    alloc: Global,
}

impl<O, F> Answers<O, F> {
    /// Over what stands in `before`, which is what `out` has now and no more.
    pub fn new(alloc: Global, before: O, files: F) -> Answers<O, F>
        ensures before { result.before ≡ before }
        ensures files { result.files ≡ files }
        ensures replays { result.is_live ≡ false }
    {
        Answers {
            before,
            files,
            is_live: false,
            text: Vec::new(alloc),
            lines: 0,
            fault: None,
            alloc,
        }
    }

    /// Where its memory is from.
    pub(crate) fn alloc(&self) -> Global {
        self.alloc
    }
}

// Appends as much of a text to `out` as that takes at once, and shows it then if answers are shown: how many bytes that is.
fn tell_once<F: SiteFiles>(files: &mut F, is_live: bool, text: &[u8]) -> Result<usize, KeepFault>
    ensures bound { IfOk result (λ n. n ≤ length text.now) }
    ensures told { MatchResult result (λ n. Tells is_live (F.history files.old) (F.history files.new) (take n text.now) [])
        (λ _. TellsFront is_live (F.history files.old) (F.history files.new) text.now) }
    ensures fault { IfErr result IsFailure }
{
    let taken = match files.tell(text) {
        Ok(0) => return Err(KeepFault::WriteOut(io::Error::from(ErrorKind::WriteZero))),
        Ok(taken) => taken,
        Err(e) => {
            if e.kind() == ErrorKind::Interrupted {
                return Ok(0);
            }
            return Err(KeepFault::WriteOut(e));
        }
    };
    if is_live {
        if let Err(e) = files.show(&text[..taken]) {
            return Err(KeepFault::Show(e));
        }
    }
    Ok(taken)
}

// Appends a text to `out`, and shows it if answers are shown. What a signal interrupted is written again, as often as can be counted.
fn tell_all<F: SiteFiles>(files: &mut F, is_live: bool, text: &[u8]) -> Result<(), KeepFault>
    ensures told { MatchResult result (λ _. Tells is_live (F.history files.old) (F.history files.new) text.now [])
        (λ _. TellsFront is_live (F.history files.old) (F.history files.new) text.now) }
    ensures fault { IfErr result IsFailure }
{
    let mut at = 0;
    for _turn in 0..u64::MAX {
        if at >= text.len() {
            return Ok(());
        }
        at += tell_once(files, is_live, &text[at..])?;
    }
    Err(KeepFault::WriteOut(io::Error::from(ErrorKind::Interrupted)))
}

// Finds a text in what stands there before, as far as that goes, and appends the rest. That many whole lines come before the text.
fn put<O: Read, F: SiteFiles>(
    alloc: Global,
    before: &mut O,
    files: &mut F,
    is_live: bool,
    text: &[u8],
    lines: &mut u64,
) -> Result<(), KeepFault>
    ensures put { Puts is_live (O.remaining before.old) (O.remaining before.new) lines.old lines.new (F.history files.old) (F.history files.new) text.now result }
    ensures differs { IfErr result (λ e. MayDiffer e (λ d. IfSome (O.remaining before.old) (λ old. HasDifference old text.now lines.old d))) }
{
    let found = compare(alloc, before, text, *lines)?;
    if found > 0 {
        *lines = lines.saturating_add(ends_in(&text[..found]));
    }
    tell_all(files, is_live, &text[found..])
}

impl<O: Read, F: SiteFiles> Answers<O, F> {
    // Puts the text at hand. Why that failed is noted.
    fn put_text(&mut self) -> Result<(), RunFault>
        ensures ok { OnOk result (HasPut O.remaining F.history self.old.text.items self.old self.new) }
        ensures err { OnErr result (HasTorn O.remaining F.history self.old.text.items self.old self.new) }
        ensures faults { IfErr result (λ e. e ≡ RunFault.Write) }
    {
        let Answers {
            before,
            files,
            is_live,
            text,
            lines,
            fault,
            alloc,
        } = self;
        match put(*alloc, before, files, *is_live, text, lines) {
            Ok(()) => Ok(()),
            Err(e) => {
                *fault = Some(e);
                Err(RunFault::Write)
            }
        }
    }

    // Why a text couldn't be put, or given: without a fault that was noted, memory ran out.
    fn take_fault(&mut self) -> KeepFault
        ensures fault { result ≡ noted_fault self.old.fault }
        ensures files { self.new.files ≡ self.old.files }
    {
        match self.fault.take() {
            Some(fault) => fault,
            None => KeepFault::Memory,
        }
    }

    /// Why a run of the site ended so.
    pub(crate) fn why(&mut self, fault: RunFault) -> KeepFault
        ensures fault { result ≡ met fault self.old.fault }
        ensures files { self.new.files ≡ self.old.files }
    {
        match fault {
            RunFault::TooLong => KeepFault::TooLong,
            RunFault::Read | RunFault::Memory | RunFault::Write => self.take_fault(),
        }
    }

    /// Refuses answers of before that are more than those to what was kept.
    pub(crate) fn check_end(&mut self) -> Result<(), KeepFault>
        ensures end { OnOk result (IsAtEnd (O.remaining self.new.before) × Keeps (O.remaining self.old.before) (O.remaining self.new.before)) }
        ensures files { self.new.files ≡ self.old.files }
        ensures same { (self.new.is_live ≡ self.old.is_live) × (self.new.lines ≡ self.old.lines) }
        ensures differs { IfErr result (λ e. MayDiffer e (λ d. IfSome (O.remaining self.old.before) (λ old. HasMore old self.old.lines d))) }
    {
        let mut next = [0; 256];
        match read_through_signals(&mut self.before, &mut next) {
            Ok(0) => Ok(()),
            Ok(given) => Err(differ(self.alloc, &[], 0, &next[..given], self.lines)),
            Err(e) => Err(KeepFault::ReadOut(e)),
        }
    }
}

impl<O: Read, F: SiteFiles> Outlet for Answers<O, F> {
    ghost use Rattle.rubis_keep.specs.Turns.{HasPut, HasTornOff};
    ghost use Rattle.rubis_keep.specs.Outlets.{answers_are_outlets};

    ghost puts = { HasPut O.remaining F.history };

    ghost tears = { HasTornOff O.remaining F.history };

    #[inline(always)]
    fn answer<S: Service>(
        &mut self,
        service: &mut S,
        fields: &InputRecord,
        reply: &mut Reply,
    ) -> Result<Course, RunFault> {
        self.text.clear();
        let course = service.answer(fields, reply, &mut self.text)?;
        if self.text.is_empty() {
            return Ok(course);
        }
        self.put_text()?;
        Ok(course)
    }

    #[inline(always)]
    fn put_full(&mut self, sink: &mut Sink) -> Result<(), RunFault> {
        if sink.is_full() {
            return self.put_all(sink);
        }
        Ok(())
    }

    fn put_all(&mut self, sink: &mut Sink) -> Result<(), RunFault> {
        self.text.clear();
        sink.drain(&mut self.text)?;
        self.put_text()
    }

    ghost laws = { answers_are_outlets O.remaining F.history };
}
