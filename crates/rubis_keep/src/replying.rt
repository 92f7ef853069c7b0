//! A question is answered on standard output.

ghost use Rattle.std.specs.Prelude.{◌≡◌, ◌∷◌, [], IfErr, IfOk};
ghost use Rattle.rubis_keep.specs.Questions.{IsUnmoved, RepliesIf, AreListed, reply_rows, reply_text};
ghost use Rattle.rubis_keep.specs.Faults.{IsFailure};

use crate::answers::Answers;
use crate::fault::KeepFault;
use crate::pages::Listed;
use crate::questions::answer;
use crate::site::Clerk;
use crate::site_files::SiteFiles;
use rubis_engine::Sink;
use std::alloc::{AllocError, Global};
use std::io::Read;
use std::sync::Wait;
use std::thread::Threads;

// The first byte of an answer.
fn mark(alloc: Global) -> Result<Vec<u8>, AllocError>
    ensures { IfOk result (λ text. text.items ≡ 63 ∷ []) }
{
    let mut text = Vec::new(alloc);
    text.push(b'?')?;
    Ok(text)
}

// The text of an answer.
fn text_of(alloc: Global, mut rows: Sink) -> Result<Vec<u8>, KeepFault>
    ensures text { IfOk result (λ text. text.items ≡ 63 ∷ rows) }
    ensures fault { IfErr result IsFailure }
{
    let mut text = mark(alloc)?;
    match rows.drain(&mut text) {
        Ok(()) => Ok(text),
        Err(_) => Err(KeepFault::Memory),
    }
}

/// Answers a line on standard output alone, if it is a question that was asked. What is pending at the site may be applied; nothing
/// else changes.
pub(crate) fn reply_if<T: Threads + Wait + Sync, O: Read, F: SiteFiles>(
    rt: &T,
    is_asked: bool,
    question: &[u8],
    listed: &mut Option<Listed>,
    clerk: &mut Clerk<'_, T>,
    answers: &mut Answers<O, F>,
) -> Result<(), KeepFault>
    requires listed { AreListed clerk.old.keyed.desk.site.state listed.old }
    ensures same { IsUnmoved clerk.old clerk.new }
    ensures before { answers.new ≡ record answers.old { files = answers.new.files } }
    ensures listed { AreListed clerk.old.keyed.desk.site.state listed.new }
    ensures replied { RepliesIf is_asked (F.history answers.old.files) (F.history answers.new.files) result question.now
        (reply_text (reply_rows clerk.old.keyed.desk.site.place clerk.old.keyed.desk.site.state clerk.old.served.answered question.now)) }
    ensures fault { IfErr result IsFailure }
{
    if !is_asked {
        return Ok(());
    }
    // Only memory can be wanting.
    let Ok(rows) = answer(rt, clerk, listed, question) else {
        return Err(KeepFault::Memory);
    };
    let text = text_of(answers.alloc(), rows)?;
    match answers.files.reply(question, &text) {
        Ok(()) => Ok(()),
        Err(e) => Err(KeepFault::Show(e)),
    }
}
