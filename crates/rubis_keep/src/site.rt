//! A site at its desk, for as long as records come, and its run from its configuration on.

ghost use Rattle.std.specs.Prelude.{◌≡◌, [], ℕ, IfSome, List, OnErr, OnOk, Some, false, IfOk};
ghost use Rattle.rubis_model.specs.Site.{opening_at};
ghost use Rattle.rubis_script.specs.Replica.{setup_place};
ghost use Rattle.rubis_engine.specs.Accounts.Ending.{AtEnd};
ghost use Rattle.rubis_keep.specs.Questions.{RepliesTo};
ghost use Rattle.rubis_keep.specs.Faults.{EndsTruly};
ghost use Rattle.rubis_keep.specs.History.{History, IsShown, StaysSafe, kept_in, now, out_in, Ended, Lived, Opens};
ghost use Rattle.rubis_keep.specs.Lives.{IsAtStart};
ghost use Rattle.rubis_keep.specs.Saying.{keyed_account, says_of};
ghost use Rattle.rubis_keys.specs.Keys.{keyed_opening, no_keys};
ghost use Rattle.rubis_keys.specs.Maps.{known_in};

use crate::answers::Answers;
use crate::fault::KeepFault;
use crate::run::{Recording, run_kept};
use crate::site_files::SiteFiles;
use rubis_keys::KeyedDesk;
use rubis_script::Config;
use rubis_serving::Served;
use std::alloc::{AllocError, Global};
use std::io::Read;
use std::mem;
use std::sync::Wait;
use std::thread::Threads;

/// A site at its desk, what waits of its answers, with how many records were answered or are held, and how many it answers.
#[derive(Drop)]
pub struct Clerk<'a, T> {
    pub keyed: KeyedDesk<'a, T>,
    pub served: Served,
    pub(crate) limit: u64,
}

impl<'a, T> Clerk<'a, T> {
    /// A site with nothing done, set up so, that answers up to `limit` records.
    pub fn new(
        rt: &'a T,
        alloc: Global,
        config: &Config,
        limit: u64,
    ) -> Result<Clerk<'a, T>, AllocError>
        ensures site { IfOk result (λ clerk. (clerk.keyed.desk.site.place ≡ setup_place config.now) × (clerk.keyed.desk.site.state ≡ opening_at config.now.site)) }
        ensures known { IfOk result (λ clerk. known_in clerk.keyed.keys ≡ no_keys) }
        ensures fresh { IfOk result (λ clerk. (clerk.keyed.desk.window.items ≡ []) × (clerk.served.reply.sink ≡ []) × (clerk.served.answered ≡ 0)) }
        ensures limit { IfOk result (λ clerk. clerk.limit ≡ limit) }
    {
        Ok(Clerk {
            keyed: KeyedDesk::new(rt, alloc, config)?,
            served: Served::new(alloc),
            limit,
        })
    }
}

/// Runs a site that keeps its records. Answers what was kept before, as far as it isn't answered yet, and then keeps and answers an input to
/// its end, up to `limit` records in all: each line is kept before it is answered. A line of the input that begins with '?' is a question: it
/// isn't kept and changes nothing, and its answer stands on standard output alone, behind those to all records before. Records may be under
/// keys: what holds then is said by `keys_hold` of rubis_keys, whatever the records, so of those that were kept, too. It is for a program that
/// ends with it: the site isn't taken apart, since the process gives its memory back at once.
///
/// # Errors
///
/// `Edited` if what was kept has a line that isn't kept as it is, and `Differs` if the answers of before aren't those to what was
/// kept, or are more: nothing was changed then. `ReadKept`, `ReadOut`, `ReadInput`, `WriteKept` or `WriteOut` if a file failed,
/// `Show` if standard output did, `Memory` if memory ran out, and `TooLong` if there are more than `limit` records. Whatever the fault, the
/// log is lines that are kept as they are, the last maybe torn, and `out` is the beginning of the answers to them; or both are as they
/// were. So the next run goes on from there.
pub fn keep_site<T: Threads + Wait + Sync, C: Read, P: Read, O: Read, F: SiteFiles, R: Read>(
    rt: &T,
    recording: &mut Recording<C, P>,
    live: &mut R,
    answers: &mut Answers<O, F>,
    config: &Config,
    limit: u64,
) -> Result<(), KeepFault>
    ensures ok { OnOk result ((kept old : List ℕ) → Opens kept old (C.remaining recording.old.first) (P.remaining recording.old.past)
        (kept_in (F.history answers.old.files)) (O.remaining answers.old.before) (out_in (F.history answers.old.files))
        → Lived (keyed_account (setup_place config.now)
        (keyed_opening config.now.site) 1) kept old (R.remaining live.old) (R.remaining live.new) (kept_in (F.history answers.new.files)) (out_in (F.history answers.new.files))) }
    ensures err { OnErr result ((kept old : List ℕ) → Opens kept old (C.remaining recording.old.first) (P.remaining recording.old.past)
        (kept_in (F.history answers.old.files)) (O.remaining answers.old.before) (out_in (F.history answers.old.files))
        → Ended (keyed_account (setup_place config.now)
        (keyed_opening config.now.site) 1) kept old (R.remaining live.old) (R.remaining live.new) (kept_in (F.history answers.new.files)) (out_in (F.history answers.new.files))) }
    ensures safe { answers.old.is_live ≡ false → (h : History) (kept old : List ℕ) → F.history answers.old.files ≡ Some h
        → Opens kept old (C.remaining recording.old.first) (P.remaining recording.old.past) (kept_in (Some h)) (O.remaining answers.old.before) (out_in (Some h))
        → IsAtStart ((keyed_account (setup_place config.now) (keyed_opening config.now.site) 1).text AtEnd) (now h)
        → StaysSafe (says_of (setup_place config.now) (keyed_opening config.now.site)) (Some h) (F.history answers.new.files) }
    ensures shown { answers.old.is_live ≡ false → (h : History) (kept old : List ℕ) → F.history answers.old.files ≡ Some h
        → Opens kept old (C.remaining recording.old.first) (P.remaining recording.old.past) (kept_in (Some h)) (O.remaining answers.old.before) (out_in (Some h))
        → IsAtStart ((keyed_account (setup_place config.now) (keyed_opening config.now.site) 1).text AtEnd) (now h)
        → OnOk result (IfSome (F.history answers.new.files) (λ h2. IsShown (now h2))) }
    ensures asked { (kept old : List ℕ) → Opens kept old (C.remaining recording.old.first) (P.remaining recording.old.past)
        (kept_in (F.history answers.old.files)) (O.remaining answers.old.before) (out_in (F.history answers.old.files))
        → RepliesTo (setup_place config.now) (keyed_opening config.now.site) kept (R.remaining live.old) (R.remaining live.new) (F.history answers.old.files)
        (F.history answers.new.files) result }
    ensures fault { (kept old : List ℕ) → Opens kept old (C.remaining recording.old.first) (P.remaining recording.old.past)
        (kept_in (F.history answers.old.files)) (O.remaining answers.old.before) (out_in (F.history answers.old.files))
        → EndsTruly limit (keyed_account (setup_place config.now) (keyed_opening config.now.site) 1) kept old (R.remaining live.old) (R.remaining live.new) result }
{
    let mut clerk = Clerk::new(rt, answers.alloc(), config, limit)?;
    answers.lines = 0;
    let ended = run_kept(rt, recording, live, &mut clerk, answers);
    mem::forget(clerk);
    ended
}
