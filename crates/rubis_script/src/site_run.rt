//! A site over a reader and a writer, from its configuration.

ghost use Rattle.std.specs.Prelude.{IfSome};
ghost use Rattle.rubis_engine.specs.Progress.{IsRun};
ghost use Rattle.rubis_reading.specs.Chunked.{OfInput};
ghost use Rattle.rubis_replica.specs.State.{setup_place};
ghost use Rattle.rubis_schema.specs.declared.limits.TheConstants.{RECORDS_MAX};
ghost use Rattle.rubis_script.specs.Headline.{OfRead, WritesAsProcess};
ghost use Rattle.rubis_script.specs.SiteRuns.{site_answers};

use crate::desk::Desk;
use crate::gate::SiteGate;
use crate::run::{chunks_for, run_chunks};
use rubis_engine::{Count, RunFault};
use rubis_reading::Chunks;
use rubis_replica::Config;
use rubis_schema::RECORDS_MAX;
use std::alloc::Global;
use std::io::{Read, Write};
use std::mem;
use std::sync::Wait;
use std::thread::Threads;

/// Runs a site over the records of `reader` until its end, or up to `limit` of them: appends the text of its answers to
/// `writer`. The answers depend on the records, and on which site it is, of how many, and how many messages it keeps; not on
/// shards, workers, batches or the gate, under which every batch is applied.
///
/// # Errors
///
/// `Read` if the reader failed: the records that came whole before are answered then, as if there were no more. `Write` if the writer
/// failed, and `Memory` if memory ran out: what was written is a prefix of the whole text. `TooLong` if the input has more
/// than `limit` records: the first `limit` are answered then.
pub fn run_site_upto<T: Threads + Wait + Sync, R: Read + Drop, W: Write>(
    rt: &T,
    alloc: Global,
    reader: R,
    writer: &mut W,
    config: &Config,
    limit: u64,
    gate: SiteGate,
) -> Result<Count, RunFault>
    ensures run { IfSome (R.remaining reader) (λ input.
        IsRun (site_answers (setup_place config.now)) limit input (W.contents writer.old) (W.contents writer.new) result) }
    ensures process { IfSome (R.remaining reader) (λ input. OfRead limit input result (λ records.
        WritesAsProcess (setup_place config.now) (W.contents writer.old) (W.contents writer.new) records)) }
{
    let mut desk = Desk::new(rt, alloc, config, gate)?;
    let mut chunks = chunks_for(alloc, reader, config.workers());
    run_chunks(alloc, &mut chunks, writer, &mut desk, limit)
}

/// Runs a site over at most 4,000,000 records, as `run_site_upto`.
///
/// # Errors
///
/// Those of `run_site_upto`.
pub fn run_site<T: Threads + Wait + Sync, R: Read + Drop, W: Write>(
    rt: &T,
    alloc: Global,
    reader: R,
    writer: &mut W,
    config: &Config,
) -> Result<Count, RunFault>
    ensures run { IfSome (R.remaining reader) (λ input.
        IsRun (site_answers (setup_place config.now)) RECORDS_MAX input (W.contents writer.old) (W.contents writer.new) result) }
    ensures process { IfSome (R.remaining reader) (λ input. OfRead RECORDS_MAX input result (λ records.
        WritesAsProcess (setup_place config.now) (W.contents writer.old) (W.contents writer.new) records)) }
{
    let gate = SiteGate::free();
    run_site_upto(rt, alloc, reader, writer, config, RECORDS_MAX, gate)
}

/// Runs a site as `run_site` does over chunks that are lent, as the last thing that a process does: its tables and its log aren't given back,
/// row by row, before the process ends, which gives all memory back at once.
///
/// # Errors
///
/// Those of `run_site_upto`.
pub fn run_last_site<T: Threads + Wait + Sync, R: Read, W: Write>(
    rt: &T,
    alloc: Global,
    chunks: &mut Chunks<R>,
    writer: &mut W,
    config: &Config,
) -> Result<Count, RunFault>
    ensures run { OfInput R.remaining chunks.old chunks.new (λ input.
        IsRun (site_answers (setup_place config.now)) RECORDS_MAX input (W.contents writer.old) (W.contents writer.new) result) }
    ensures process { OfInput R.remaining chunks.old chunks.new (λ input. OfRead RECORDS_MAX input result (λ records.
        WritesAsProcess (setup_place config.now) (W.contents writer.old) (W.contents writer.new) records)) }
{
    let mut desk = Desk::new(rt, alloc, config, SiteGate::free())?;
    let ended = run_chunks(alloc, chunks, writer, &mut desk, RECORDS_MAX);
    mem::forget(desk);
    ended
}
