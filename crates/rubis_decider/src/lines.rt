//! Steps of shops, read from lines: the kind, then numbers, each behind a comma. A packet is its numbers: three are a message, four a pass.

ghost use Rattle.std.specs.Prelude.{◌≡◌, ◌++◌, IfOk, IfSome, string_bytes};
ghost use Rattle.rubis_decider.specs.Written.{IsStepLine, Saying, commas, packet_numbers};

use rubis_carrier::{ShopEvent as Event, ShopPacket};
use std::alloc::{AllocError, Global};

fn packet_of(numbers: &[u64]) -> Option<ShopPacket>
    ensures { IfSome result (λ x. packet_numbers x ≡ numbers.now) }
{
    match *numbers {
        [site, number, ask] => Some(ShopPacket::Message(site, number, ask)),
        [site, turn, to, after] => Some(ShopPacket::Pass(site, turn, to, after)),
        _ => None,
    }
}

fn event_of(kind: &str, numbers: &[u64]) -> Option<Event>
    ensures { IfSome result (λ e. Saying e kind.now numbers.now) }
{
    let event = match (kind, numbers) {
        ("Starts", [k]) => Event::Starts(*k),
        ("Opens", [k]) => Event::Opens(*k),
        ("TakesOver", [k]) => Event::TakesOver(*k),
        ("OpensAlone", [k]) => Event::OpensAlone(*k),
        ("Closes", [k]) => Event::Closes(*k),
        ("GoesOn", [k]) => Event::GoesOn(*k),
        ("KeeperStarts", [k]) => Event::KeeperStarts(*k),
        ("IsKilled", [k]) => Event::IsKilled(*k),
        ("MachineStarts", [k]) => Event::MachineStarts(*k),
        ("Fills", [k]) => Event::Fills(*k),
        ("IsRaised", [k]) => Event::IsRaised(*k),
        ("IsAsked", [ask, life, records]) => Event::IsAsked(*ask, *life, *records),
        ("Serves", [k, ask]) => Event::Serves(*k, *ask),
        ("Gives", [k, ask]) => Event::Gives(*k, *ask),
        ("Accepts", [k, ask]) => Event::Accepts(*k, *ask),
        ("Refuses", [k, ask]) => Event::Refuses(*k, *ask),
        ("TellsOk", [k, ask, number]) => Event::TellsOk(*k, *ask, *number),
        ("TellsPublished", [k, ask, number]) => Event::TellsPublished(*k, *ask, *number),
        _ => return other_event_of(kind, numbers),
    };
    Some(event)
}

fn other_event_of(kind: &str, numbers: &[u64]) -> Option<Event>
    ensures { IfSome result (λ e. Saying e kind.now numbers.now) }
{
    let event = match (kind, numbers) {
        ("TellsNothing", [k, ask]) => Event::TellsNothing(*k, *ask),
        ("TellsUnknown", [k, ask]) => Event::TellsUnknown(*k, *ask),
        ("Yields", [site]) => Event::Yields(*site),
        ("TakesBack", [site]) => Event::TakesBack(*site),
        ("Passes", [k, to]) => Event::Passes(*k, *to),
        ("Appends", [k, packet @ ..]) => Event::Appends(*k, packet_of(packet)?),
        ("Sends", [k, packet @ ..]) => Event::Sends(*k, packet_of(packet)?),
        ("Arrives", numbers) => Event::Arrives(packet_of(numbers)?),
        ("Reads", [k, packet @ ..]) => Event::Reads(*k, packet_of(packet)?),
        ("LosesEnd", [k, count]) => Event::LosesEnd(*k, *count),
        ("IsLost", [k]) => Event::IsLost(*k),
        ("IsCopied", [k, other]) => Event::IsCopied(*k, *other),
        ("Finds", [k, packet @ ..]) => Event::Finds(*k, packet_of(packet)?),
        ("Rebuilds", [k, made]) => Event::Rebuilds(*k, *made),
        ("StreamLosesEnd", [site, count]) => Event::StreamLosesEnd(*site, *count),
        ("ServerLosesAll", []) => Event::ServerLosesAll,
        ("WritesAnew", [k]) => Event::WritesAnew(*k),
        _ => return None,
    };
    Some(event)
}

fn text_of(alloc: Global, kind: &str, numbers: &[u64]) -> Result<String, AllocError>
    ensures { IfOk result (λ text. string_bytes text ≡ kind.now ++ commas numbers.now) }
{
    let mut text = String::from_str(alloc, kind)?;
    for number in numbers {
        write!(text, ",{number}")?;
    }
    Ok(text)
}

/// The event that a line is: it is written so, and not otherwise. None where the line isn't one of those that this reads.
pub(crate) fn read_event(alloc: Global, line: &str) -> Result<Option<Event>, AllocError>
    ensures { IfOk result (λ found. IfSome found (λ event. IsStepLine event line.now)) }
{
    let mut words = line.split(',');
    let kind = words.next().unwrap_or("");
    let mut numbers = Vec::new(alloc);
    for word in words {
        numbers.push(word.parse::<u64>().unwrap_or(0))?;
    }
    let text = text_of(alloc, kind, &numbers)?;
    if text.as_bytes() != line.as_bytes() {
        return Ok(None);
    }
    Ok(event_of(kind, &numbers))
}
