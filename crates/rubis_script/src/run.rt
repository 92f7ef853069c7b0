//! A run of a site over the chunks of a text.

ghost use Rattle.std.specs.Prelude.{◌≡◌, ℕ, List};
ghost use Rattle.rubis_model.specs.Site.{opening_at};
ghost use Rattle.rubis_engine.specs.Progress.{IsRun};
ghost use Rattle.rubis_engine.specs.Seam.{OfEach};
ghost use Rattle.rubis_reading.specs.Chunked.{AreNew, HasWholeInput, OfInput};
ghost use Rattle.rubis_script.specs.Headline.{HasAnswered, OfRead, StandsAsProcess, WritesAsProcess};
ghost use Rattle.rubis_script.specs.Runs.{EndsAsSite};
ghost use Rattle.rubis_script.specs.SiteRuns.{told_by};

use crate::desk::Desk;
use crate::helped::run_helped;
use rubis_engine::{Count, RunFault};
use rubis_reading::Chunks;
use rubis_serving::{Served, run_service};
use std::alloc::Global;
use std::io::{Read, Write};
use std::sync::Wait;
use std::thread::Threads;

// How many bytes there is room for when the reader is asked for more.
const BLOCK: usize = 1_048_576;

// The same where one thread reads and answers: few enough that they are still in its cache, and enough that making a reader of CSV for
// them, which takes as long as some twenty records, hardly counts.
const BLOCK_ALONE: usize = 262_144;

/// The text of this reader, as a site with that many workers reads it.
pub fn chunks_for<R: Read + Drop>(alloc: Global, reader: R, workers: u8) -> Chunks<R>
    ensures reader { result.reader.reader ≡ reader }
    ensures none { AreNew result }
{
    let size = if workers > 1 { BLOCK } else { BLOCK_ALONE };
    Chunks::new(alloc, reader, size)
}

/// Runs the desk of a site over chunks of text until its end, or up to `limit` records of it: appends the text of its answers to
/// `writer`. If several workers are configured, the records of the next chunk are read by other threads while those before are answered;
/// with one, nothing is read ahead. Desk and chunks are lent. Unless the run ends with `Memory` or `Write`, the site is left in the state
/// to which the answered records lead; where the reader failed, the chunks have what came and wasn't answered, in which no record ends,
/// and the reader has the rest.
///
/// # Errors
///
/// `Read` if the reader failed: the records that came whole before are answered then, as if there were no more. `Write` if the writer
/// failed, and `Memory` if memory ran out: what was written is a prefix of the whole text. `TooLong` if the input has more
/// than `limit` records: the first `limit` are answered then.
pub fn run_chunks<T: Threads + Wait + Sync, R: Read, W: Write>(
    alloc: Global,
    chunks: &mut Chunks<R>,
    writer: &mut W,
    desk: &mut Desk<'_, T>,
    limit: u64,
) -> Result<Count, RunFault>
    ensures whole { OfEach R.remaining chunks.old.reader chunks.new.reader (λ left. (input : List ℕ) → HasWholeInput left chunks.old input
        → EndsAsSite left chunks.new limit desk.old.site desk.new.site (W.contents writer.old) (W.contents writer.new) input result) }
    ensures run { OfInput R.remaining chunks.old chunks.new (λ input.
        IsRun (told_by desk.old.site 1) limit input (W.contents writer.old) (W.contents writer.new) result) }
    ensures leads { OfInput R.remaining chunks.old chunks.new (λ input. OfRead limit input result (λ records.
        HasAnswered desk.old.site desk.new.site (W.contents writer.old) (W.contents writer.new) records)) }
    ensures process { desk.old.site.state ≡ opening_at desk.old.site.place.site → OfInput R.remaining chunks.old chunks.new (λ input.
        OfRead limit input result (λ records. WritesAsProcess desk.old.site.place (W.contents writer.old) (W.contents writer.new) records
        × StandsAsProcess desk.old.site.place desk.new.site.state records)) }
{
    desk.start();
    if desk.plan.helpers == 0 {
        return run_service(alloc, chunks, writer, desk, limit);
    }
    let rt = desk.rt;
    let mut run = Served::new(alloc);
    run_helped(rt, chunks, desk, &mut run, writer, limit)
}
