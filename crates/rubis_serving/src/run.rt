//! A run of a service over the chunks of a text.

ghost use Rattle.std.specs.Prelude.{◌≡◌, ◌≤◌, ℕ, List, true};
ghost use Rattle.rubis_engine.specs.Seam.{OfEach};
ghost use Rattle.rubis_engine.specs.Text.{input_records};
ghost use Rattle.rubis_reading.specs.Chunked.{HasWholeInput};
ghost use Rattle.rubis_serving.specs.Serving.{EndsLed, Finishes, RecordsEnd, Turns, at, serving};

use crate::outlets::Outlet;
use crate::pieces::{Served, ask_for_more, end, settle};
use rubis_engine::{Count, Course, Records, RunFault, Service};
use rubis_reading::Chunks;
use std::alloc::Global;
use std::io::{Read, Write};

// The fault of a run that took as many pieces of its text as can be counted. Nothing says that a run ends before: empty lines are no
// records, so `limit` doesn't count them, and a reader may give them for ever. A loop without an end would need a runtime that may
// wait, which an audit doesn't have.
const PAST_ALL_PIECES: RunFault = RunFault::Memory;

/// Answers the records of a text until one ends the run, up to `limit` of all. `None` if the run goes on, otherwise how many records were
/// read.
///
/// # Errors
///
/// Those of `turn`, but for `Read`.
#[inline(never)]
pub fn answer_piece<S: Service, O: Outlet>(
    text: &[u8],
    service: &mut S,
    run: &mut Served,
    outlet: &mut O,
    limit: u64,
) -> Result<Option<Count>, RunFault>
    requires within { run.old.answered ≤ limit }
    requires shares { S.shares }
    ensures same { S.setup service.new ≡ S.setup service.old }
    ensures answered { RecordsEnd (serving S.account S.leads O.puts O.tears) limit (input_records text.now)
        (at service.old run.old outlet.old) (at service.new run.new outlet.new) result }
{
    let mut piece = Records::new(run.alloc, text);
    'records: loop {
        let Ok(found) = piece.advance() else {
            return Err(RunFault::Memory);
        };
        if !found {
            return Ok(None);
        }
        if run.answered >= limit {
            settle(service, run, outlet)?;
            return Err(RunFault::TooLong);
        }
        run.reply.number = run.answered + 1;
        let course = outlet.answer(service, piece.fields(), &mut run.reply)?;
        run.answered += 1;
        match course {
            Course::Ends => {
                outlet.put_all(&mut run.reply.sink)?;
                return Ok(Some(Count {
                    records: run.answered,
                }));
            }
            Course::GoesOn => outlet.put_full(&mut run.reply.sink)?,
        }
    }
}

// Answers what is held, which is the rest of the text, and ends the run.
fn finish<S: Service, R: Read, O: Outlet>(
    chunks: &Chunks<R>,
    service: &mut S,
    run: &mut Served,
    outlet: &mut O,
    limit: u64,
) -> Result<Count, RunFault>
    requires within { run.old.answered ≤ limit }
    requires last { chunks.now.reader.is_ended ≡ true }
    requires shares { S.shares }
    ensures same { S.setup service.new ≡ S.setup service.old }
    ensures ended { OfEach R.remaining chunks.now.reader chunks.now.reader (λ left. Finishes (serving S.account S.leads O.puts O.tears) limit left
        chunks.now (at service.old run.old outlet.old) chunks.now (at service.new run.new outlet.new) result) }
{
    if let Some(count) = answer_piece(chunks.held(), service, run, outlet, limit)? {
        return Ok(count);
    }
    end(service, run, outlet)
}

/// Takes the next step through a text. If whole records are held, these are answered, up to `most` bytes of them. Otherwise all that came is
/// answered and written out, and only then the reader is asked for more: what comes is held, so that the caller may have other threads read
/// it. At the end of the text the rest is answered, with the service's last answers. `None` if the run goes on, otherwise how many records
/// were read. A run answers at most `limit` records.
///
/// # Errors
///
/// `Read` if the reader failed: the records that came whole are answered then, as if there were no more. `Write` if the writer failed,
/// and `Memory` if memory ran out: what was written is a prefix of the whole text. `TooLong` if the text has more than `limit` records
/// and none of the first `limit` ends the run: these are answered then.
pub fn turn<S: Service, R: Read, O: Outlet>(
    chunks: &mut Chunks<R>,
    service: &mut S,
    run: &mut Served,
    outlet: &mut O,
    most: usize,
    limit: u64,
) -> Result<Option<Count>, RunFault>
    requires within { run.old.answered ≤ limit }
    requires shares { S.shares }
    ensures same { S.setup service.new ≡ S.setup service.old }
    ensures turns { OfEach R.remaining chunks.old.reader chunks.new.reader (λ left. Turns (serving S.account S.leads O.puts O.tears) limit left chunks.old
        (at service.old run.old outlet.old) chunks.new (at service.new run.new outlet.new) result) }
{
    let many = chunks.whole(most);
    if many > 1 {
        let (text, _) = chunks.held().split_at(many);
        let over = answer_piece(text, service, run, outlet, limit)?;
        chunks.pass(many);
        return Ok(over);
    }
    if ask_for_more(chunks, service, run, outlet)? {
        return Ok(None);
    }
    let count = finish(chunks, service, run, outlet, limit)?;
    Ok(Some(count))
}

/// Has a service answer the records of a text until its end, or until a record ends the run, or up to `limit` of them, and appends the
/// answers to `writer`. Of what the reader gave, each whole record is answered, and the answers are written out, before it is asked for
/// more. Service and chunks are lent: the service stands where the answered records lead it, unless the run ends with `Write` or `Memory`;
/// where the reader failed these are the records that came whole, and the chunks have what came since, in which no record ends.
///
/// # Errors
///
/// `Read` if the reader failed: the records that came whole are answered then, as if there were no more. `Write` if the writer failed,
/// and `Memory` if memory ran out, or once 2^64 pieces of the text were taken: what was written is a prefix of the whole text. `TooLong`
/// if the text has more than `limit` records and none of the first `limit` ends the run: these are answered then.
pub fn run_service<S: Service, R: Read, W: Write>(
    alloc: Global,
    chunks: &mut Chunks<R>,
    writer: &mut W,
    service: &mut S,
    limit: u64,
) -> Result<Count, RunFault>
    requires { S.shares }
    ensures { OfEach R.remaining chunks.old.reader chunks.new.reader (λ left. (input : List ℕ) → HasWholeInput left chunks.old input
        → EndsLed S.account S.leads left chunks.new limit service.old service.new (W.contents writer.old) (W.contents writer.new) input result) }
{
    let mut run = Served::new(alloc);
    'pieces: for _ in 0..u64::MAX {
        if let Some(count) = turn(chunks, service, &mut run, writer, usize::MAX, limit)? {
            return Ok(count);
        }
    }
    Err(PAST_ALL_PIECES)
}
