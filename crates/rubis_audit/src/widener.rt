//! A service that widens the records of an audit, a record in, one out; and its run over a reader and a writer.

ghost use Rattle.std.proofs.Common.{rules};
ghost use Rattle.std.specs.Prelude.{◌≡◌, ◌++◌, ◌∷◌, ◌≤◌, [], ℕ, IfSome, List, OnOk, ⊤, refl};
ghost use Rattle.rubis_schema.specs.declared.limits.TheConstants.{COUNTED_MAX, RECORDS_MAX};
ghost use Rattle.rubis_message.specs.Grammar.{message_record};
ghost use Rattle.rubis_message.specs.Message.{sites_of, widened};
ghost use Rattle.rubis_model.specs.AuditRecords.{line_record};
ghost use Rattle.rubis_model.specs.Widening.{widened_line};
ghost use Rattle.rubis_engine.specs.Progress.{IsRun};
ghost use Rattle.rubis_engine.specs.Seam.{OfEach};
ghost use Rattle.rubis_engine.specs.Text.{rows_text};
ghost use Rattle.rubis_reading.specs.Chunked.{HasWholeInput, OfInput};
ghost use Rattle.rubis_serving.specs.Serving.{EndsWhole};
ghost use Rattle.rubis_audit.specs.Running.{IsAmongLine, line_as, bad_record, widening_account, widening_from};
ghost use Rattle.rubis_audit.specs.Forms.{logs_at, place_after};
ghost use Rattle.rubis_audit.specs.declared.widener.LinePlace.TheVariants.{BeforeLogs};

use crate::lines::{Line, read_line};
use rubis_engine::{Count, Course, InputRecord, OutOfMemory, Reply, RunFault, Service, Sink};
use rubis_message::{Message, append_message};
use rubis_reading::Chunks;
use rubis_schema::{Fields, RECORDS_MAX, push_number};
use rubis_serving::{BLOCK, run_service};
use std::alloc::{AllocError, Global};
use std::io::{Read, Write};
use std::marker::Model;

/// Where the next record stands.
#[derive(Clone, Copy)]
pub enum LinePlace {
    /// No log has begun.
    BeforeLogs,
    /// Behind the site of a log or one of its messages.
    InMessages,
    /// Behind a row of a log.
    InRows,
}

impl LinePlace {
    // The place after a record that says this. `None` where it can't stand here.
    fn after(self, line: &Line) -> Option<LinePlace>
        ensures { (fields : List (List ℕ)) → result ≡ place_after self (line_as fields line.now) }
    {
        match (self, line) {
            (_, Line::Begin(_)) => Some(LinePlace::InMessages),
            (LinePlace::InMessages, Line::Next(_)) => Some(LinePlace::InMessages),
            (LinePlace::InMessages, Line::Claim) | (LinePlace::InRows, Line::Claim) => Some(
                LinePlace::InRows,
            ),
            (LinePlace::BeforeLogs, _) | (LinePlace::InRows, Line::Next(_)) => None,
        }
    }
}

/// Widens the records of an audit from `from` sites to `to`, and keeps only where the next record stands.
#[derive(Drop)]
pub struct Widener {
    from: u8,
    to: u8,
    place: LinePlace,
    alloc: Global,
}

impl Model for Widener {
    ghost use Rattle.std.specs.Prelude.{◌≤◌};
    ghost use Rattle.rubis_schema.specs.declared.limits.TheConstants.{COUNTED_MAX};
    ghost use Rattle.rubis_audit.specs.Running.{WidenerState};

    ghost Value = { WidenerState };

    ghost view = { λ w. record { from = w.from; to = w.to; place = w.place } };

    ghost invariant = { λ w. (w.from ≤ w.to) × (w.to ≤ COUNTED_MAX) };
}

// Writes a message that counts `to` sites.
fn write_widened(
    fields: &mut Fields,
    sink: &mut Sink,
    message: Message,
    to: u8,
) -> Result<(), AllocError>
    requires counted { sites_of message ≤ to }
    requires few { to ≤ COUNTED_MAX }
    ensures { OnOk result (sink.new ≡ sink.old ++ rows_text (message_record (widened to message) ∷ [])) }
{
    let Ok(wide) = message.widen(to) else {
        unreachable!()
    };
    fields.clear();
    append_message(fields, &wide)?;
    sink.write_fields(fields)
}

// Writes the record that says which record is not in the grammar.
fn write_bad_record(fields: &mut Fields, sink: &mut Sink, number: u64) -> Result<(), AllocError>
    ensures { OnOk result (sink.new ≡ sink.old ++ rows_text (bad_record number ∷ [])) }
{
    fields.clear();
    fields.push_plain(b"widen")?;
    fields.push_plain(b"BadRecord")?;
    push_number(fields, number)?;
    sink.write_fields(fields)
}

impl Widener {
    /// A widener that has read no record.
    pub fn new(alloc: Global, from: u8, to: u8) -> Widener
        requires up { from ≤ to }
        requires few { to ≤ COUNTED_MAX }
        ensures { result ≡ record { from = from; to = to; place = BeforeLogs } }
    {
        Widener {
            from,
            to,
            place: LinePlace::BeforeLogs,
            alloc,
        }
    }

    // Writes what a record says, widened: a message in its own words, and a site or a row as it is.
    fn write_line(
        &mut self,
        fields: &InputRecord,
        line: Line,
        reply: &mut Reply,
    ) -> Result<(), AllocError>
        requires among { IsAmongLine self.old.from (Some line) }
        requires written { line_record (line_as fields.now line) ≡ fields.now }
        ensures state { self.new ≡ self.old }
        ensures text { OnOk result (reply.new.sink ≡ reply.old.sink ++ rows_text (line_record (widened_line self.old.to (line_as fields.now line)) ∷ [])) }
    {
        match line {
            Line::Next(message) => write_widened(
                &mut reply.draft.fields,
                &mut reply.sink,
                message,
                self.to,
            ),
            Line::Begin(_) | Line::Claim => {
                let row = fields.to_fields(self.alloc)?;
                reply.sink.write_fields(&row)
            }
        }
    }
}

impl Service for Widener {
    ghost account = { λ s n. widening_from s.from s.to n (logs_at s.place) };

    ghost leads = { λ old n records new. ⊤ };

    ghost Setup = { ⊤ };

    ghost setup = { λ s. tt };

    ghost shares = { ⊤ };

    ghost reads_none = { λ s n. refl };

    ghost reads_next = { Prim.search rules };

    fn answer<W: Write>(
        &mut self,
        fields: &InputRecord,
        reply: &mut Reply,
        _writer: &mut W,
    ) -> Result<Course, RunFault> {
        if let Some(line) = read_line(self.alloc, fields, self.from)?
            && let Some(place) = self.place.after(&line)
        {
            self.place = place;
            self.write_line(fields, line, reply)?;
            return Ok(Course::GoesOn);
        }
        write_bad_record(&mut reply.draft.fields, &mut reply.sink, reply.number)?;
        Ok(Course::Ends)
    }

    fn answer_held(&mut self, _reply: &mut Reply) -> Result<(), OutOfMemory> {
        Ok(())
    }

    fn answer_end(&mut self, _reply: &mut Reply) -> Result<(), OutOfMemory> {
        Ok(())
    }
}

/// Has a widener widen the records of a text as `run_widen` does over a reader. Widener and chunks are lent: where the reader failed,
/// the records that came whole are widened, and the chunks have what came since, in which no record ends.
///
/// # Errors
///
/// Those of `run_widen`.
pub fn run_widen_chunks<R: Read, W: Write>(
    alloc: Global,
    chunks: &mut Chunks<R>,
    writer: &mut W,
    widener: &mut Widener,
) -> Result<Count, RunFault>
    ensures whole { OfEach R.remaining chunks.old.reader chunks.new.reader (λ left. (input : List ℕ) → HasWholeInput left chunks.old input
        → EndsWhole left chunks.new (widening_from widener.old.from widener.old.to 1 (logs_at widener.old.place))
        (λ n. widening_from widener.new.from widener.new.to n (logs_at widener.new.place))
        RECORDS_MAX (W.contents writer.old) (W.contents writer.new) input result) }
    ensures run { OfInput R.remaining chunks.old chunks.new (λ input.
        IsRun (widening_from widener.old.from widener.old.to 1 (logs_at widener.old.place)) RECORDS_MAX input
        (W.contents writer.old) (W.contents writer.new) result) }
{
    run_service(alloc, chunks, writer, widener, RECORDS_MAX)
}

/// Widens the records of an audit from `from` sites to `to`: reads at most 4,000,000 records of `reader`, and appends each
/// to `writer` as it is read, a message with counts of 0 for the further sites, and a site or a row as it is. The first
/// record `n` that is not in the grammar ends the run with `widen,BadRecord,n`.
///
/// # Errors
///
/// `Read` if the reader failed and `TooLong` if the input has more records, all of the first 4,000,000 in the grammar: the
/// records before are written. `Write` if the writer failed, and `Memory` if memory ran out: what was written is a prefix of
/// the whole text.
pub fn run_widen<R: Read + Drop, W: Write>(
    alloc: Global,
    reader: R,
    writer: &mut W,
    from: u8,
    to: u8,
) -> Result<Count, RunFault>
    requires up { from ≤ to }
    requires few { to ≤ COUNTED_MAX }
    ensures { IfSome (R.remaining reader) (λ input.
        IsRun (widening_account from to) RECORDS_MAX input (W.contents writer.old) (W.contents writer.new) result) }
{
    let mut widener = Widener::new(alloc, from, to);
    let mut chunks = Chunks::new(alloc, reader, BLOCK);
    run_widen_chunks(alloc, &mut chunks, writer, &mut widener)
}
