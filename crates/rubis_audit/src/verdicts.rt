//! The record of an audit.

ghost use Rattle.std.specs.Prelude.{◌≡◌, ◌++◌, ◌∷◌, [], OnOk, codes};
ghost use Rattle.rubis_message.specs.declared.answers.Verdict.TheVariants.{Found};
ghost use Rattle.rubis_model.specs.AuditRecords.{audit_record, verdict_record};
ghost use Rattle.rubis_engine.specs.Text.{rows_text};

use rubis_engine::Sink;
use rubis_message::{Kind, Verdict};
use rubis_schema::{Fields, push_number};
use std::alloc::AllocError;

// Begins the record.
fn begin(fields: &mut Fields, word: &[u8]) -> Result<(), AllocError>
    ensures { OnOk result (fields.new ≡ codes "audit" ∷ word.now ∷ []) }
{
    fields.clear();
    fields.push_plain(b"audit")?;
    fields.push(word)
}

// A fault: its kind, its log and its entry.
fn fill_found(fields: &mut Fields, kind: Kind, log: usize, entry: usize) -> Result<(), AllocError>
    ensures { OnOk result (fields.new ≡ verdict_record (Found kind log entry)) }
{
    begin(fields, kind.name().as_bytes())?;
    push_number(fields, log as u64)?;
    push_number(fields, entry as u64)
}

/// Writes the record of a verdict.
pub fn write_verdict(
    fields: &mut Fields,
    sink: &mut Sink,
    verdict: Verdict,
) -> Result<(), AllocError>
    ensures { OnOk result (sink.new ≡ sink.old ++ rows_text (verdict_record verdict ∷ [])) }
{
    match verdict {
        Verdict::Agree => begin(fields, b"Agree")?,
        Verdict::Found(kind, log, entry) => fill_found(fields, kind, log, entry)?,
    }
    sink.write_fields(fields)
}

/// Writes the record that names the first record that isn't so.
pub fn write_bad_record(fields: &mut Fields, sink: &mut Sink, number: u64) -> Result<(), AllocError>
    ensures { OnOk result (sink.new ≡ sink.old ++ rows_text (audit_record (Err number) ∷ [])) }
{
    begin(fields, b"BadRecord")?;
    push_number(fields, number)?;
    sink.write_fields(fields)
}
