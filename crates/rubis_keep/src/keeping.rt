//! The lines of an input, kept as they come.

ghost use Rattle.std.specs.Prelude.{◌≡◌, [], IfErr, IfOk, None, true};
ghost use Rattle.std.specs.Io.KnownBytes.{Consumes};
ghost use Rattle.rubis_keep.specs.Faults.{IsFailure};
ghost use Rattle.rubis_keep.specs.History.{HasKept};
ghost use Rattle.rubis_keep.specs.Turns.{CameOrEnded, TakesLines, left_to_read};

use crate::fault::KeepFault;
use crate::lines::LineCutter;
use crate::pages::Listed;
use crate::site_files::SiteFiles;
use crate::unread::Unread;
use std::alloc::{AllocError, Global};
use std::io;
use std::io::{ErrorKind, Read};
use std::sync::Wait;

/// The lines of an input that are kept: the line that is begun, and those that came last.
#[derive(Drop)]
pub struct KeptLines {
    pub cutter: LineCutter,
    /// What was read and isn't looked at yet.
    pub unread: Unread,
    /// What is kept of what came last.
    pub chunk: Vec<u8>,
    /// The question that came last.
    pub question: Vec<u8>,
    /// The listing of which a page was asked last, until a record is answered.
    pub listed: Option<Listed>,
    /// How many bytes were kept and answered.
    pub kept: u64,
}

impl KeptLines {
    /// Before the first line of all.
    pub(crate) fn new(alloc: Global, unread: Unread) -> KeptLines
        ensures none { (result.cutter ≡ []) × (result.kept ≡ 0) × (result.listed ≡ None) }
        ensures unread { result.unread ≡ unread }
    {
        KeptLines {
            cutter: LineCutter::new(alloc),
            unread,
            chunk: Vec::new(alloc),
            question: Vec::new(alloc),
            listed: None,
            kept: 0,
        }
    }
}

/// What came of an input: whether it goes on, and whether a question ended.
#[derive(Clone, Copy)]
pub(crate) struct Came {
    pub(crate) more: bool,
    pub(crate) is_asked: bool,
}

// Keeps these lines, and returns once they are as safe as they are to be. A run that answers what was kept before keeps none.
pub(crate) fn keep_chunk<T: Wait, F: SiteFiles>(
    rt: &T,
    files: &mut F,
    keeps: bool,
    chunk: &[u8],
) -> Result<(), KeepFault>
    ensures kept { HasKept keeps (F.history files.old) (F.history files.new) result chunk.now }
    ensures fault { IfErr result IsFailure }
{
    if !keeps || chunk.is_empty() {
        return Ok(());
    }
    match keep_lines(rt, files, chunk) {
        Ok(()) => Ok(()),
        Err(e) => Err(KeepFault::WriteKept(e)),
    }
}

// Keeps these lines, and flushes them. What a signal interrupted is written again, however often that happens.
fn keep_lines<T: Wait, F: SiteFiles>(rt: &T, files: &mut F, chunk: &[u8]) -> io::Result<()>
    ensures { HasKept true (F.history files.old) (F.history files.new) result chunk.now }
{
    let mut at = 0;
    for _turn in rt.forever() {
        if at >= chunk.len() {
            return files.flush_kept();
        }
        match files.keep(&chunk[at..]) {
            Ok(0) => return Err(io::Error::from(ErrorKind::WriteZero)),
            Ok(taken) => at += taken,
            Err(e) => {
                if e.kind() != ErrorKind::Interrupted {
                    return Err(e);
                }
            }
        }
    }
    unreachable!()
}

/// Takes what comes next of an input, up to the end of its first question if it asks questions. `chunk` has then what is kept of
/// the lines that end in it, and `question` the question: of a long one the first bytes.
pub(crate) fn read_next<R: Read>(
    live: &mut R,
    lines: &mut KeptLines,
    asks: bool,
) -> Result<Came, KeepFault>
    ensures reads { IfOk result (λ came. TakesLines asks came.is_asked (left_to_read lines.old.unread (R.remaining live.old)) (left_to_read lines.new.unread (R.remaining live.new))
        lines.old.cutter lines.new.cutter lines.new.chunk.items lines.new.question.items) }
    ensures end { IfOk result (λ came. CameOrEnded came.more (left_to_read lines.old.unread (R.remaining live.old)) (left_to_read lines.new.unread (R.remaining live.new))) }
    ensures err { IfErr result (λ e. IsFailure e × Consumes (left_to_read lines.old.unread (R.remaining live.old)) (left_to_read lines.new.unread (R.remaining live.new)) []) }
    ensures others { (lines.new.kept ≡ lines.old.kept) × (lines.new.listed ≡ lines.old.listed) }
{
    let KeptLines {
        cutter,
        unread,
        chunk,
        question,
        listed: _,
        kept: _,
    } = lines;
    chunk.clear();
    let more = unread.fill(live)?;
    let cut = cutter.take(unread.bytes(), asks, chunk, question)?;
    unread.pass(cut.taken);
    Ok(Came {
        more,
        is_asked: cut.is_asked,
    })
}
