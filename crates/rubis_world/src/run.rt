//! Several sites over a reader and a writer.

ghost use Rattle.std.specs.Prelude.{◌≡◌, ◌≤◌, ℕ, IfSome, List};
ghost use Rattle.rubis_engine.specs.Progress.{IsRun};
ghost use Rattle.rubis_engine.specs.Seam.{OfEach};
ghost use Rattle.rubis_reading.specs.Chunked.{HasWholeInput, OfInput};
ghost use Rattle.rubis_schema.specs.declared.limits.TheConstants.{COUNTED_MAX, KEEP_MAX, RECORDS_MAX};
ghost use Rattle.rubis_script.specs.Headline.{OfRead};
ghost use Rattle.rubis_world.specs.Headline.{LeadWorld, TellsARun, WorldEndsWhole};
ghost use Rattle.rubis_world.specs.Running.{answers_of_world, told_by_world};
ghost use Rattle.rubis_world.specs.Worlds.{opening_world};

use crate::config::WorldConfig;
use crate::desk::WorldDesk;
use rubis_engine::{Count, RunFault};
use rubis_reading::Chunks;
use rubis_schema::RECORDS_MAX;
use rubis_serving::{BLOCK, run_service};
use std::alloc::Global;
use std::io::{Read, Write};
use std::sync::Wait;
use std::thread::Threads;

/// Runs the desk of several sites over chunks of text until its end, or up to `limit` records of it: appends the text of their answers
/// to `writer`. Desk and chunks are lent. Unless the run ends with `Memory` or `Write`, the sites are left where the answered records
/// lead; where the reader failed, the chunks have what came and wasn't answered, in which no record ends, and the reader has the rest.
///
/// # Errors
///
/// Those of `run_world`.
pub fn run_world_chunks<T: Threads + Wait + Sync, R: Read, W: Write>(
    alloc: Global,
    chunks: &mut Chunks<R>,
    writer: &mut W,
    desk: &mut WorldDesk<'_, T>,
    limit: u64,
) -> Result<Count, RunFault>
    ensures whole { OfEach R.remaining chunks.old.reader chunks.new.reader (λ left. (input : List ℕ) → HasWholeInput left chunks.old input
        → WorldEndsWhole left chunks.new limit desk.old.world desk.new.world (W.contents writer.old) (W.contents writer.new) input result) }
    ensures run { OfInput R.remaining chunks.old chunks.new (λ input.
        IsRun (told_by_world desk.old.world 1) limit input (W.contents writer.old) (W.contents writer.new) result) }
    ensures leads { OfInput R.remaining chunks.old chunks.new (λ input.
        OfRead limit input result (λ records. LeadWorld records desk.old.world desk.new.world)) }
    ensures text { (sites keep : ℕ) → desk.old.world ≡ opening_world keep sites → 1 ≤ sites → sites ≤ COUNTED_MAX → keep ≤ KEEP_MAX
        → OfInput R.remaining chunks.old chunks.new (λ input. TellsARun sites keep limit input (W.contents writer.old) (W.contents writer.new) result) }
{
    run_service(alloc, chunks, writer, desk, limit)
}

/// Runs several sites over at most 4,000,000 records of `reader`: appends the text of their answers to `writer`. The answers
/// depend on the records, and on how many sites there are and how many messages each keeps; not on shards, workers or
/// batches.
///
/// # Errors
///
/// `Read` if the reader failed: the records that came whole before are answered then, as if there were no more. `Write` if the writer
/// failed, and `Memory` if memory ran out, or a site came to be behind: what was written is a prefix of the whole text.
/// `TooLong` if the input has more records: the first 4,000,000 are answered then.
pub fn run_world<T: Threads + Wait + Sync, R: Read + Drop, W: Write>(
    rt: &T,
    alloc: Global,
    reader: R,
    writer: &mut W,
    config: &WorldConfig,
) -> Result<Count, RunFault>
    ensures run { IfSome (R.remaining reader) (λ input. IsRun (answers_of_world config.now.sites config.now.keep) RECORDS_MAX input
        (W.contents writer.old) (W.contents writer.new) result) }
    ensures text { IfSome (R.remaining reader) (λ input. TellsARun config.now.sites config.now.keep RECORDS_MAX input
        (W.contents writer.old) (W.contents writer.new) result) }
{
    let mut desk = WorldDesk::new(rt, alloc, config)?;
    let mut chunks = Chunks::new(alloc, reader, BLOCK);
    run_world_chunks(alloc, &mut chunks, writer, &mut desk, RECORDS_MAX)
}
