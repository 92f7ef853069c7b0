//! What a message waits for, and the records that say it of the messages that wait at a site.

ghost use Rattle.std.specs.Prelude.{◌≡◌, ◌<◌, ◌+◌, ◌++◌, List, OnOk, length, map};
ghost use Rattle.std.specs.List.{flat_map};
ghost use Rattle.rubis_message.specs.Message as model;
ghost use Rattle.rubis_message.specs.Message.{sites_of};
ghost use Rattle.rubis_model.specs.Lack as lack;
ghost use Rattle.rubis_model.specs.Lack.{red_rows, waiting_rows, waits_rows};
ghost use Rattle.rubis_engine.specs.Text.{rows_text};
ghost use Rattle.rubis_release.specs.Release.{AllAmong, clock_of};
ghost use Rattle.rubis_audit.specs.Running.{for_rows};

use rubis_clock::Clock;
use rubis_engine::Sink;
use rubis_message::Message;
use rubis_release::Intake;
use rubis_schema::{Fields, Id, push_number};
use std::alloc::{AllocError, Global};

/// The first message of that site that the message counts and the clock doesn't.
pub fn awaited(clock: &Clock, message: &Message, site: u8) -> Option<Id>
    requires sites { sites_of message.now ≡ length clock.now.counts }
    requires site { site < length clock.now.counts }
    ensures { (log : List model.Message) → clock.now ≡ clock_of (sites_of message.now) log → result ≡ lack.awaited log message.now site }
{
    let count = clock.count(site);
    if count < message.deps().count(site) {
        return Some(Id {
            site,
            seq: count + 1,
        });
    }
    None
}

/// The first red number before the message's that the clock doesn't count.
pub fn awaited_red(clock: &Clock, message: &Message) -> Option<u32>
    ensures { (log : List model.Message) → clock.now ≡ clock_of (sites_of message.now) log → result ≡ lack.awaited_red log message.now }
{
    let red = clock.red();
    let number = message.red();
    if red < number && number - red > 1 {
        return Some(red + 1);
    }
    None
}

// Writes that the message waits for another one, if it does.
fn write_for(
    fields: &mut Fields,
    sink: &mut Sink,
    message: &Message,
    other: Option<Id>,
) -> Result<(), AllocError>
    ensures { OnOk result (sink.new ≡ sink.old ++ rows_text (for_rows message.now other)) }
{
    let Some(id) = other else {
        return Ok(());
    };
    fields.clear();
    fields.push_plain(b"waits")?;
    message.id().push_to(fields)?;
    fields.push_plain(b"for")?;
    id.push_to(fields)?;
    sink.write_fields(fields)
}

// Writes that the message waits for a red number, if it does.
fn write_red(
    fields: &mut Fields,
    sink: &mut Sink,
    message: &Message,
    red: Option<u32>,
) -> Result<(), AllocError>
    ensures { OnOk result (sink.new ≡ sink.old ++ rows_text (red_rows message.now red)) }
{
    let Some(number) = red else {
        return Ok(());
    };
    fields.clear();
    fields.push_plain(b"waits")?;
    message.id().push_to(fields)?;
    fields.push_plain(b"red")?;
    push_number(fields, u64::from(number))?;
    sink.write_fields(fields)
}

// Writes what a message waits for: of each site the first message that is missing, and the first red number.
fn write_message(
    fields: &mut Fields,
    sink: &mut Sink,
    clock: &Clock,
    message: &Message,
) -> Result<(), AllocError>
    requires { sites_of message.now ≡ length clock.now.counts }
    ensures { OnOk result ((log : List model.Message) → clock.now ≡ clock_of (sites_of message.now) log
        → sink.new ≡ sink.old ++ rows_text (waits_rows log message.now)) }
{
    for site in 0..message.deps().sites() {
        write_for(fields, sink, message, awaited(clock, message, site))?;
    }
    write_red(fields, sink, message, awaited_red(clock, message))
}

// Writes what each of the messages waits for, in their order.
fn write_messages(
    fields: &mut Fields,
    sink: &mut Sink,
    clock: &Clock,
    messages: &[&Message],
) -> Result<(), AllocError>
    requires { AllAmong (length clock.now.counts) (map (λ m. m.now) messages.now) }
    ensures { OnOk result ((log : List model.Message) → clock.now ≡ clock_of (length clock.now.counts) log
        → sink.new ≡ sink.old ++ rows_text (flat_map (waits_rows log) (map (λ m. m.now) messages.now))) }
{
    for message in messages {
        write_message(fields, sink, clock, message)?;
    }
    Ok(())
}

/// Writes what each of the messages that wait at a site waits for, in arrival order: of each site the first message that is
/// missing, and the first red number, if it is missing.
///
/// # Errors
///
/// `AllocError` if memory runs out.
pub fn write_waits(alloc: Global, sink: &mut Sink, intake: &Intake) -> Result<(), AllocError>
    ensures { OnOk result (sink.new ≡ sink.old ++ rows_text (waiting_rows intake.now.state)) }
{
    let mut fields = Fields::new(alloc);
    let messages = intake.waiting_messages(alloc)?;
    write_messages(&mut fields, sink, intake.clock(), &messages)
}
