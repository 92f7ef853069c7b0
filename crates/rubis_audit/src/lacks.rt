//! What logs lack of each other, as records.

ghost use Rattle.std.specs.Prelude.{◌≡◌, ◌≤◌, ◌==◌, ◌++◌, ◌∷◌, [], IfOk, OnOk, length, map};
ghost use Rattle.rubis_schema.specs.declared.limits.TheConstants.{COUNTED_MAX};
ghost use Rattle.rubis_model.specs.Audit.{AreFaultless};
ghost use Rattle.rubis_model.specs.Lack.{count_row, lack_row, lack_rows, lack_rows_from, made_at};
ghost use Rattle.rubis_engine.specs.Text.{rows_text};
ghost use Rattle.rubis_audit.specs.Running.{none_lost};
ghost use Rattle.rubis_audit.specs.Walks.{HaveMessagesAmong};

use crate::logs::Log;
use crate::walks_lacks::{lacked, merge};
use rubis_engine::Sink;
use rubis_message::{Message, append_message};
use rubis_schema::{Fields, push_number};
use std::alloc::{AllocError, Global};

// Writes how many messages the log of that number lacks, or how many are lost.
fn write_count(
    fields: &mut Fields,
    sink: &mut Sink,
    word: &[u8],
    number: usize,
    many: usize,
) -> Result<(), AllocError>
    ensures { OnOk result (sink.new ≡ sink.old ++ rows_text (count_row word.now number many ∷ [])) }
{
    fields.clear();
    fields.push(word)?;
    push_number(fields, number as u64)?;
    push_number(fields, many as u64)?;
    sink.write_fields(fields)
}

// Writes one of the messages that the log of that number lacks.
fn write_named(
    fields: &mut Fields,
    sink: &mut Sink,
    number: usize,
    message: &Message,
) -> Result<(), AllocError>
    ensures { OnOk result (sink.new ≡ sink.old ++ rows_text (lack_row number message.now ∷ [])) }
{
    fields.clear();
    fields.push_plain(b"lack")?;
    push_number(fields, number as u64)?;
    append_message(fields, message)?;
    sink.write_fields(fields)
}

// Writes all of them, in order.
fn write_all_named(
    fields: &mut Fields,
    sink: &mut Sink,
    number: usize,
    messages: &[&Message],
) -> Result<(), AllocError>
    ensures { OnOk result (sink.new ≡ sink.old ++ rows_text (map (lack_row number) (map (λ m. m.now) messages.now))) }
{
    for message in messages {
        write_named(fields, sink, number, message)?;
    }
    Ok(())
}

// How many of the messages the site made.
fn count_own(site: u8, messages: &[&Message]) -> usize
    ensures { result ≡ length (made_at site (map (λ m. m.now) messages.now)) }
{
    let mut many = 0;
    for message in messages {
        if message.id().site == site {
            many += 1;
        }
    }
    many
}

// Writes what the log of that number lacks, and says whether none of it is of the log's own site.
fn write_lack(
    fields: &mut Fields,
    sink: &mut Sink,
    number: usize,
    site: u8,
    messages: &[&Message],
) -> Result<bool, AllocError>
    ensures rows { OnOk result (sink.new ≡ sink.old ++ rows_text (lack_rows number site (map (λ m. m.now) messages.now))) }
    ensures well { IfOk result (λ well. well ≡ (length (made_at site (map (λ m. m.now) messages.now)) == 0)) }
{
    let own = count_own(site, messages);
    if own > 0 {
        write_count(fields, sink, b"lost", number, own)?;
        return Ok(false);
    }
    write_count(fields, sink, b"lacks", number, messages.len())?;
    write_all_named(fields, sink, number, messages)?;
    Ok(true)
}

/// Writes what each of these logs lacks of the others, in their order, and says whether none lacks messages of its own site.
///
/// # Errors
///
/// `AllocError` if memory runs out.
pub fn write_lacks(
    alloc: Global,
    sink: &mut Sink,
    sites: u8,
    logs: &[Log],
) -> Result<bool, AllocError>
    requires few { sites ≤ COUNTED_MAX }
    requires among { HaveMessagesAmong sites logs.now }
    requires faultless { AreFaultless logs.now }
    ensures rows { OnOk result (sink.new ≡ sink.old ++ rows_text (lack_rows_from 1 logs.now logs.now)) }
    ensures well { IfOk result (λ well. well ≡ none_lost logs.now logs.now) }
{
    let all = merge(alloc, sites, logs)?;
    let mut fields = Fields::new(alloc);
    let mut well = true;
    for (at, log) in logs.iter().enumerate() {
        let messages = lacked(alloc, sites, log, &all)?;
        well &= write_lack(&mut fields, sink, at + 1, log.site(), &messages)?;
    }
    Ok(well)
}
