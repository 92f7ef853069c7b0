//! What waits at a site once its input ends.

ghost use Rattle.rubis_schema.specs.declared.limits.TheConstants.{RECORDS_MAX};
ghost use Rattle.rubis_engine.specs.Progress.{IsRun};
ghost use Rattle.rubis_reading.specs.Chunked.{OfInput};
ghost use Rattle.rubis_script.specs.Replica.{setup_place};
ghost use Rattle.rubis_world.specs.Running.{waiting_account};

use rubis_audit::write_waits;
use rubis_engine::{Count, RunFault, Sink};
use rubis_reading::Chunks;
use rubis_schema::RECORDS_MAX;
use rubis_script::{Config, Desk, SiteGate, run_chunks};
use std::alloc::Global;
use std::io;
use std::io::{Read, Write};
use std::sync::Wait;
use std::thread::Threads;

/// Has a site read at most 4,000,000 records of a text, as `run_site` does, lets its answers go, and appends to `writer` what each of the
/// messages that wait at the end waits for. Nothing is written before the end of the input. The chunks are lent.
///
/// # Errors
///
/// `Read` if the reader failed, and `TooLong` if the input has more records: nothing is written then. `Write` if the writer
/// failed, and `Memory` if memory ran out: what was written is a prefix of the whole text.
pub fn run_waiting<T: Threads + Wait + Sync, R: Read, W: Write>(
    rt: &T,
    alloc: Global,
    chunks: &mut Chunks<R>,
    writer: &mut W,
    config: &Config,
) -> Result<Count, RunFault>
    ensures { OfInput R.remaining chunks.old chunks.new (λ input.
        IsRun (waiting_account (setup_place config.now)) RECORDS_MAX input (W.contents writer.old) (W.contents writer.new) result) }
{
    let mut desk = Desk::new(rt, alloc, config, SiteGate::free())?;
    let mut answers = io::sink();
    let count = run_chunks(alloc, chunks, &mut answers, &mut desk, RECORDS_MAX)?;
    let mut waits = Sink::new(alloc);
    write_waits(alloc, &mut waits, desk.site.intake())?;
    waits.close(writer)?;
    Ok(count)
}
