//! A site that keeps its records, and goes on where an earlier run was cut off.

ghost use Rattle.std.specs.Prelude.{◌≡◌, ◌∷◌, ◌⊎◌, [], IfErr, MatchResult, OnErr, OnOk, None, map};
ghost use Rattle.std.specs.List.{range_with_len};
ghost use Rattle.rubis_model.specs.Site.{counted};
ghost use Rattle.rubis_keep.specs.Turns.{HoldsNothing, clerk_at, IsAtRest, standing};
ghost use Rattle.rubis_keep.specs.Faults.{IsFailure, of_kept};
ghost use Rattle.rubis_keep.specs.History.{Grows, HasDone};
ghost use Rattle.rubis_keep.specs.History.FolderEvent.{Began, CutTo, Flushed, Settled};
ghost use Rattle.rubis_keep.specs.Runs.{Fails, GoesOn, IsKeptFailure, Replays, Runs, Unreplayed};

use crate::answers::Answers;
use crate::checking::check_kept;
use crate::counts::counts_of;
use crate::fault::KeepFault;
use crate::keeping::KeptLines;
use crate::lines::LineCutter;
use crate::pieces::answer_pieces;
use crate::site::Clerk;
use crate::site_files::SiteFiles;
use crate::unread::{PIECE, Unread};
use std::io::Read;
use std::sync::Wait;
use std::thread::Threads;

/// The file of what was kept, opened twice to be read: to be read through, and to be answered again.
#[derive(Drop)]
pub struct Recording<C, P> {
    pub first: C,
    pub past: P,
}

// A fault of the input, where the input is what was kept.
fn of_kept(fault: KeepFault) -> KeepFault
    ensures { result ≡ of_kept fault }
{
    match fault {
        KeepFault::ReadInput(e) => KeepFault::ReadKept(e),
        other => other,
    }
}

// Answers what was kept before, and finds the answers in what stands there.
fn replay<T: Threads + Wait + Sync, P: Read, O: Read, F: SiteFiles>(
    rt: &T,
    past: &mut P,
    lines: &mut KeptLines,
    clerk: &mut Clerk<'_, T>,
    answers: &mut Answers<O, F>,
) -> Result<(), KeepFault>
    requires { IsAtRest (standing P.remaining O.remaining F.history past.old lines.old clerk.old answers.old) }
    ensures { MatchResult result (λ done. Replays (standing P.remaining O.remaining F.history past.old lines.old clerk.old answers.old)
        (standing P.remaining O.remaining F.history past.new lines.new clerk.new answers.new))
        (Unreplayed (standing P.remaining O.remaining F.history past.old lines.old clerk.old answers.old) (F.history answers.new.files)) }
{
    match answer_pieces(rt, past, false, lines, clerk, answers) {
        Ok(()) => answers.check_end(),
        Err(fault) => Err(of_kept(fault)),
    }
}

// Says that all that was kept is answered.
fn tell_replayed<T, F: SiteFiles>(clerk: &Clerk<'_, T>, files: &mut F) -> Result<(), KeepFault>
    ensures ok { OnOk result (Grows (F.history files.old) (F.history files.new)
        (Settled ∷ Began clerk.now.served.answered (map (λ i. counted i clerk.now.keyed.desk.site.state.log) (range_with_len 0 clerk.now.keyed.desk.site.place.sites)) ∷ [])) }
    ensures err { OnErr result (Grows (F.history files.old) (F.history files.new) [] ⊎ Grows (F.history files.old) (F.history files.new) (Settled ∷ [])) }
    ensures fault { IfErr result IsFailure }
{
    let site = &clerk.keyed.desk.site;
    let counts = counts_of(clerk.served.alloc, site.history(), clerk.keyed.desk.sites())?;
    if let Err(e) = files.settle() {
        return Err(KeepFault::WriteOut(e));
    }
    match files.begin(clerk.served.answered, &counts) {
        Ok(()) => Ok(()),
        Err(e) => Err(KeepFault::Show(e)),
    }
}

// Returns once what was kept before is as safe as it is to be: it is answered then.
fn flush<F: SiteFiles>(files: &mut F) -> Result<(), KeepFault>
    ensures done { HasDone Flushed (F.history files.old) (F.history files.new) result }
    ensures fault { IfErr result IsKeptFailure }
{
    match files.flush_kept() {
        Ok(()) => Ok(()),
        Err(e) => Err(KeepFault::WriteKept(e)),
    }
}

// Cuts `kept` off after its first `len` bytes, and returns once that is as safe as it is to be.
fn cut_and_flush<F: SiteFiles>(files: &mut F, len: u64) -> Result<(), KeepFault>
    ensures ok { OnOk result (Grows (F.history files.old) (F.history files.new) (CutTo len ∷ Flushed ∷ [])) }
    ensures err { OnErr result (Grows (F.history files.old) (F.history files.new) [] ⊎ Grows (F.history files.old) (F.history files.new) (CutTo len ∷ [])) }
    ensures fault { IfErr result IsKeptFailure }
{
    match files.cut_kept(len) {
        Ok(()) => flush(files),
        Err(e) => Err(KeepFault::WriteKept(e)),
    }
}

// Cuts off the line that isn't whole, and then keeps and answers an input to its end.
fn go_on<T: Threads + Wait + Sync, O: Read, F: SiteFiles, R: Read>(
    rt: &T,
    live: &mut R,
    lines: &mut KeptLines,
    clerk: &mut Clerk<'_, T>,
    answers: &mut Answers<O, F>,
) -> Result<(), KeepFault>
    requires { IsAtRest (standing R.remaining O.remaining F.history live.old lines.old clerk.old answers.old) }
    ensures { MatchResult result (λ done. GoesOn (standing R.remaining O.remaining F.history live.old lines.old clerk.old answers.old) (R.remaining live.old)
        (R.remaining live.new) (F.history answers.new.files))
        (Fails (standing R.remaining O.remaining F.history live.old lines.old clerk.old answers.old) (R.remaining live.old)
        (R.remaining live.new) (F.history answers.new.files)) }
{
    cut_and_flush(&mut answers.files, lines.kept)?;
    lines.cutter = LineCutter::new(clerk.served.alloc);
    lines.unread.restart(PIECE);
    tell_replayed(clerk, &mut answers.files)?;
    answers.is_live = true;
    answer_pieces(rt, live, true, lines, clerk, answers)
}

// The run, over lines of which none came yet.
fn run_lines<T: Threads + Wait + Sync, C: Read, P: Read, O: Read, F: SiteFiles, R: Read>(
    rt: &T,
    recording: &mut Recording<C, P>,
    live: &mut R,
    lines: &mut KeptLines,
    clerk: &mut Clerk<'_, T>,
    answers: &mut Answers<O, F>,
) -> Result<(), KeepFault>
    requires none { (lines.old.cutter ≡ []) × (lines.old.unread ≡ []) × (lines.old.kept ≡ 0) × (lines.old.listed ≡ None) }
    requires idle { HoldsNothing (clerk_at O.remaining clerk.old answers.old) }
    ensures { Runs (C.remaining recording.old.first) (P.remaining recording.old.past) (clerk_at O.remaining clerk.old answers.old)
        (R.remaining live.old) (R.remaining live.new) (F.history answers.old.files) (F.history answers.new.files) result }
{
    check_kept(rt, clerk.served.alloc, &mut recording.first)?;
    flush(&mut answers.files)?;
    replay(rt, &mut recording.past, lines, clerk, answers)?;
    go_on(rt, live, lines, clerk, answers)
}

/// Answers what was kept before, as far as it isn't answered yet, and then keeps and answers an input to its end: each line is
/// kept before it is answered. A line of the input that begins with '?' is a question: it isn't kept and changes nothing, and its
/// answer stands on standard output alone, behind those to all records before.
pub(crate) fn run_kept<T: Threads + Wait + Sync, C: Read, P: Read, O: Read, F: SiteFiles, R: Read>(
    rt: &T,
    recording: &mut Recording<C, P>,
    live: &mut R,
    clerk: &mut Clerk<'_, T>,
    answers: &mut Answers<O, F>,
) -> Result<(), KeepFault>
    requires { HoldsNothing (clerk_at O.remaining clerk.old answers.old) }
    ensures { Runs (C.remaining recording.old.first) (P.remaining recording.old.past) (clerk_at O.remaining clerk.old answers.old)
        (R.remaining live.old) (R.remaining live.new) (F.history answers.old.files) (F.history answers.new.files) result }
{
    let unread = Unread::new(clerk.served.alloc, PIECE)?;
    let mut lines = KeptLines::new(clerk.served.alloc, unread);
    run_lines(rt, recording, live, &mut lines, clerk, answers)
}
