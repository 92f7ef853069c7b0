//! An input that a site keeps and answers, turn by turn.

ghost use Rattle.std.specs.Prelude.{IfOk, MatchResult};
ghost use Rattle.rubis_keep.specs.Turns.{Answered, Breaks, Broke, CameOrEnded, Ends, IsAtRest, Turn, left_to_read, standing};

use crate::answers::Answers;
use crate::fault::KeepFault;
use crate::feeding::feed_chunk;
use crate::keeping::{Came, KeptLines, keep_chunk, read_next};
use crate::pages::let_go;
use crate::replying::reply_if;
use crate::site::Clerk;
use crate::site_files::SiteFiles;
use std::io::Read;
use std::sync::Wait;
use std::thread::Threads;

// Takes what comes next of an input, up to a question, keeps it if this run keeps what it reads, and answers it, but for the question.
fn next_lines<T: Threads + Wait + Sync, R: Read, O: Read, F: SiteFiles>(
    rt: &T,
    live: &mut R,
    keeps: bool,
    lines: &mut KeptLines,
    clerk: &mut Clerk<'_, T>,
    answers: &mut Answers<O, F>,
) -> Result<Came, KeepFault>
    requires { IsAtRest (standing R.remaining O.remaining F.history live.old lines.old clerk.old answers.old) }
    ensures answered { MatchResult result (λ came. Answered keeps (standing R.remaining O.remaining F.history live.old lines.old clerk.old answers.old) (standing R.remaining O.remaining F.history live.new lines.new clerk.new answers.new)
        came.is_asked lines.new.question.items) (Broke keeps (standing R.remaining O.remaining F.history live.old lines.old clerk.old answers.old)
        (left_to_read lines.new.unread (R.remaining live.new)) (F.history answers.new.files)) }
    ensures end { IfOk result (λ came. CameOrEnded came.more (left_to_read lines.old.unread (R.remaining live.old)) (left_to_read lines.new.unread (R.remaining live.new))) }
{
    let came = read_next(live, lines, keeps)?;
    keep_chunk(rt, &mut answers.files, keeps, &lines.chunk)?;
    // Nothing is as long as that. `TooLong` would say that there are more records than the limit.
    let Some(len) = lines.kept.checked_add(lines.chunk.len() as u64) else {
        return Err(KeepFault::Memory);
    };
    let_go(&mut lines.listed, &lines.chunk);
    feed_chunk(&lines.chunk, clerk, answers)?;
    lines.kept = len;
    Ok(came)
}

// Takes what comes next of an input, up to the end of a question, keeps it if this run keeps what it reads, and answers it. Whether the
// input goes on.
fn next_piece<T: Threads + Wait + Sync, R: Read, O: Read, F: SiteFiles>(
    rt: &T,
    live: &mut R,
    keeps: bool,
    lines: &mut KeptLines,
    clerk: &mut Clerk<'_, T>,
    answers: &mut Answers<O, F>,
) -> Result<bool, KeepFault>
    requires { IsAtRest (standing R.remaining O.remaining F.history live.old lines.old clerk.old answers.old) }
    ensures turn { MatchResult result (λ more. Turn keeps (standing R.remaining O.remaining F.history live.old lines.old clerk.old answers.old) (standing R.remaining O.remaining F.history live.new lines.new clerk.new answers.new))
        (Broke keeps (standing R.remaining O.remaining F.history live.old lines.old clerk.old answers.old) (left_to_read lines.new.unread (R.remaining live.new)) (F.history answers.new.files)) }
    ensures end { IfOk result (λ more. CameOrEnded more (left_to_read lines.old.unread (R.remaining live.old)) (left_to_read lines.new.unread (R.remaining live.new))) }
{
    let came = next_lines(rt, live, keeps, lines, clerk, answers)?;
    reply_if(
        rt,
        came.is_asked,
        &lines.question,
        &mut lines.listed,
        clerk,
        answers,
    )?;
    Ok(came.more)
}

/// Reads an input to its end, keeps each piece if this run keeps what it reads, and answers it.
pub(crate) fn answer_pieces<T: Threads + Wait + Sync, R: Read, O: Read, F: SiteFiles>(
    rt: &T,
    live: &mut R,
    keeps: bool,
    lines: &mut KeptLines,
    clerk: &mut Clerk<'_, T>,
    answers: &mut Answers<O, F>,
) -> Result<(), KeepFault>
    requires { IsAtRest (standing R.remaining O.remaining F.history live.old lines.old clerk.old answers.old) }
    ensures { MatchResult result (λ over. Ends keeps (standing R.remaining O.remaining F.history live.old lines.old clerk.old answers.old) (standing R.remaining O.remaining F.history live.new lines.new clerk.new answers.new))
        (Breaks keeps (standing R.remaining O.remaining F.history live.old lines.old clerk.old answers.old) (left_to_read lines.new.unread (R.remaining live.new)) (F.history answers.new.files)) }
{
    for _turn in rt.forever() {
        if !next_piece(rt, live, keeps, lines, clerk, answers)? {
            return Ok(());
        }
    }
    unreachable!()
}
