//! The auditor over a reader and a writer.

ghost use Rattle.std.specs.Prelude.{◌≡◌, ◌≤◌, [], ℕ, List, IfOk, IfSome};
ghost use Rattle.rubis_engine.specs.Progress.{IsRun};
ghost use Rattle.rubis_engine.specs.Seam.{OfEach};
ghost use Rattle.rubis_engine.specs.Text.{input_records};
ghost use Rattle.rubis_schema.specs.declared.limits.TheConstants.{COUNTED_MAX, RECORDS_MAX};
ghost use Rattle.rubis_audit.specs.declared.auditor.LogQuestion.TheVariants as LogQuestion;
ghost use Rattle.rubis_audit.specs.Running.{account_from, audit_account, lack_account, AgreesOnSoundLogs};
ghost use Rattle.rubis_serving.specs.Serving.{EndsWhole};
ghost use Rattle.rubis_reading.specs.Chunked.{HasWholeInput, OfInput};

use crate::auditor::{Auditor, LogQuestion};
use rubis_engine::{Count, RunFault};
use rubis_reading::Chunks;
use rubis_schema::RECORDS_MAX;
use rubis_serving::{BLOCK, run_service};
use std::alloc::Global;
use std::io::{Read, Write};

/// Has an auditor read at most 4,000,000 records of a text, until its end or the first malformed record, and appends its answer to
/// `writer`. If a fresh one is asked whether the logs agree, and that is `audit,Agree`, the logs that the input's records say are sound:
/// they causally serialize one RedBlue order, and the invariants hold over all of them. Auditor and chunks are lent: where the reader
/// failed, the auditor has read the records that came whole, and the chunks have what came since, in which no record ends.
///
/// # Errors
///
/// `Read` if the reader failed, and `TooLong` if the input has more records and none of the first 4,000,000 is
/// malformed: nothing is written then. `Write` if the writer failed, and `Memory` if memory ran out: what was written is
/// a prefix of the answer.
pub fn run_auditor_chunks<R: Read, W: Write>(
    alloc: Global,
    chunks: &mut Chunks<R>,
    writer: &mut W,
    auditor: &mut Auditor,
) -> Result<Count, RunFault>
    ensures whole { OfEach R.remaining chunks.old.reader chunks.new.reader (λ left. (input : List ℕ) → HasWholeInput left chunks.old input
        → EndsWhole left chunks.new (account_from auditor.old.asked auditor.old.sites 1 auditor.old.logs)
        (λ n. account_from auditor.new.asked auditor.new.sites n auditor.new.logs)
        RECORDS_MAX (W.contents writer.old) (W.contents writer.new) input result) }
    ensures run { OfInput R.remaining chunks.old chunks.new (λ input.
        IsRun (account_from auditor.old.asked auditor.old.sites 1 auditor.old.logs) RECORDS_MAX input (W.contents writer.old) (W.contents writer.new) result) }
    ensures sound { auditor.old.asked ≡ LogQuestion.Agreement → auditor.old.logs ≡ [] → auditor.old.sites ≤ COUNTED_MAX
        → OfInput R.remaining chunks.old chunks.new (λ input. IfOk result (λ _.
        AgreesOnSoundLogs auditor.old.sites (W.contents writer.old) (W.contents writer.new) (input_records input))) }
{
    run_service(alloc, chunks, writer, auditor, RECORDS_MAX)
}

/// Audits the logs of `sites` sites as `run_auditor_chunks`, and appends the one record of the audit.
///
/// # Errors
///
/// Those of `run_auditor_chunks`.
pub fn run_audit<R: Read + Drop, W: Write>(
    alloc: Global,
    reader: R,
    writer: &mut W,
    sites: u8,
) -> Result<Count, RunFault>
    requires { sites ≤ COUNTED_MAX }
    ensures run { IfSome (R.remaining reader) (λ input.
        IsRun (audit_account sites) RECORDS_MAX input (W.contents writer.old) (W.contents writer.new) result) }
    ensures sound { IfSome (R.remaining reader) (λ input. IfOk result (λ _.
        AgreesOnSoundLogs sites (W.contents writer.old) (W.contents writer.new) (input_records input))) }
{
    let mut auditor = Auditor::new(alloc, sites, LogQuestion::Agreement);
    let mut chunks = Chunks::new(alloc, reader, BLOCK);
    run_auditor_chunks(alloc, &mut chunks, writer, &mut auditor)
}

/// Says what each of the logs of `sites` sites lacks of the others, if they agree, and else what `run_audit` says, as
/// `run_auditor_chunks`.
///
/// # Errors
///
/// Those of `run_auditor_chunks`.
pub fn run_lack<R: Read + Drop, W: Write>(
    alloc: Global,
    reader: R,
    writer: &mut W,
    sites: u8,
) -> Result<Count, RunFault>
    requires { sites ≤ COUNTED_MAX }
    ensures { IfSome (R.remaining reader) (λ input.
        IsRun (lack_account sites) RECORDS_MAX input (W.contents writer.old) (W.contents writer.new) result) }
{
    let mut auditor = Auditor::new(alloc, sites, LogQuestion::Lacks);
    let mut chunks = Chunks::new(alloc, reader, BLOCK);
    run_auditor_chunks(alloc, &mut chunks, writer, &mut auditor)
}
