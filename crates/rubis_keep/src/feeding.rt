//! The answers of a site to records.

ghost use Rattle.std.specs.Prelude.{◌≡◌, ◌≤◌, OnOk};
ghost use Rattle.rubis_engine.specs.Progress.{ByEnd};
ghost use Rattle.rubis_engine.specs.Text.{input_records};
ghost use Rattle.rubis_serving.specs.Serving.{Fills, Goes, IsSettled, Tears, at};
ghost use Rattle.rubis_keep.specs.Turns.{Feeds, HoldsNothing, clerk_at, kept_run};

use crate::answers::Answers;
use crate::fault::KeepFault;
use crate::site::Clerk;
use crate::site_files::SiteFiles;
use rubis_engine::RunFault;
use rubis_serving::{answer_piece, settle};
use std::io::Read;
use std::sync::Wait;
use std::thread::Threads;

// Answers the records of a text, as a run does, and takes in the messages that are held.
fn answer_chunk<T: Threads + Wait + Sync, O: Read, F: SiteFiles>(
    chunk: &[u8],
    clerk: &mut Clerk<'_, T>,
    answers: &mut Answers<O, F>,
) -> Result<(), RunFault>
    requires { clerk.old.served.answered ≤ clerk.old.limit }
    ensures limit { clerk.new.limit ≡ clerk.old.limit }
    ensures answered { let k = kept_run O.remaining F.history in
        let x = at clerk.old.keyed clerk.old.served answers.old in
        let y = at clerk.new.keyed clerk.new.served answers.new in ByEnd result
        (λ _. Goes k (input_records chunk.now) x y × IsSettled k y × (clerk.new.served.answered ≤ clerk.old.limit))
        (Fills k clerk.old.limit (input_records chunk.now) x y) ⊥ (Tears k (input_records chunk.now) x answers.new) }
{
    answer_piece(
        chunk,
        &mut clerk.keyed,
        &mut clerk.served,
        answers,
        clerk.limit,
    )?;
    settle(&mut clerk.keyed, &mut clerk.served, answers)
}

/// Answers a text of whole records.
pub(crate) fn feed_chunk<T: Threads + Wait + Sync, O: Read, F: SiteFiles>(
    chunk: &[u8],
    clerk: &mut Clerk<'_, T>,
    answers: &mut Answers<O, F>,
) -> Result<(), KeepFault>
    requires { HoldsNothing (clerk_at O.remaining clerk.old answers.old) }
    ensures fed { Feeds (input_records chunk.now) (clerk_at O.remaining clerk.old answers.old) (clerk_at O.remaining clerk.new answers.new)
        (F.history answers.old.files) (F.history answers.new.files) result }
    ensures idle { OnOk result (HoldsNothing (clerk_at O.remaining clerk.new answers.new)) }
{
    // Between two questions no record stands, and a reader takes longer to make than most questions to answer.
    if chunk.is_empty() {
        return Ok(());
    }
    answers.fault = None;
    match answer_chunk(chunk, clerk, answers) {
        Ok(()) => Ok(()),
        Err(fault) => Err(answers.why(fault)),
    }
}
