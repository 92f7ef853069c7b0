//! Messages of a log, folded one after the other on the tables by the caller's thread.

ghost use Rattle.std.specs.Prelude.{◌≡◌, ◌≤◌, ◌<◌, ◌*◌, ℕ, All, OnOk, OnErr, length, take};
ghost use Rattle.std.specs.List.{flat_map};
ghost use Rattle.rubis_schema.specs.declared.limits.TheConstants.{KEEP_MAX};
ghost use Rattle.rubis_message.specs.Message.{IsMessage};
ghost use Rattle.rubis_model.specs.Log.{cores, parts_of};
ghost use Rattle.rubis_shard.specs.Holdings.{HoldsLog};
ghost use Rattle.rubis_pieces.specs.Following.{AreFurther, HoldsTo, StopWithin};
ghost use Rattle.rubis_workers.specs.Logs.{StaysWithin};

use crate::gate::Gate;
use rubis_message::Message;
use rubis_pieces::follow_one;
use rubis_shard::{LogEntry, Tables};
use std::alloc::AllocError;

/// Applies the messages of a log after message `at`, up to message `upto`, each whole or not at all; `at` then says how many
/// stand. Where memory runs out, those before the message that it was refused for stand.
pub fn apply_upto(
    tables: &mut Tables,
    log: &[Message],
    at: &mut usize,
    upto: usize,
) -> Result<(), AllocError>
    requires few { length log.now ≤ KEEP_MAX }
    requires inside { upto ≤ length log.now }
    requires on { at.old ≤ upto }
    requires some { 0 < length tables.old }
    ensures on { at.old ≤ at.new }
    ensures inside { at.new ≤ upto }
    ensures some { 0 < length tables.new }
    ensures holds { HoldsLog (length tables.old) (cores (take at.old log.now)) tables.old
        → HoldsLog (length tables.new) (cores (take at.new log.now)) tables.new }
    ensures limits { StaysWithin log.now at.old at.new }
    ensures ok { OnOk result (at.new ≡ upto) }
    ensures err { OnErr result (at.new < upto) }
    ensures many { length tables.new ≡ length tables.old }
    ensures same { at.new ≡ at.old → tables.new ≡ tables.old }
{
    for place in *at..upto {
        let entry = LogEntry::new(place as u32 + 1, &log[place]);
        tables.apply_message(&entry)?;
        *at = place + 1;
    }
    Ok(())
}

/// Goes on with a batch of a log that ends with message `upto`, shard by shard from where each stands, as far as memory goes: each shard is
/// taken first. `stops` says how far each is. No part is done twice, and none is passed over.
pub fn follow_rest<G: Gate>(
    tables: &mut Tables,
    log: &[Message],
    stops: &mut [usize],
    upto: usize,
    gate: &G,
)
    requires shards { length tables.old ≤ 255 }
    requires counts { length stops.old ≡ length tables.old }
    requires few { length log.now ≤ KEEP_MAX }
    requires on { StopWithin 0 upto stops.old }
    requires within { upto ≤ length log.now }
    ensures many { length tables.new ≡ length tables.old }
    ensures counts { length stops.new ≡ length stops.old }
    ensures on { AreFurther stops.old stops.new }
    ensures upto { StopWithin 0 upto stops.new }
    ensures holds { (shards : ℕ) → HoldsTo shards (cores log.now) stops.old tables.old → HoldsTo shards (cores log.now) stops.new tables.new }
{
    for number in 0..tables.len() {
        gate.taken(number);
        let from = stops[number];
        stops[number] = follow_one(tables, number, log, from, upto);
    }
}

/// How many parts the messages have.
pub fn count_parts(messages: &[Message]) -> u32
    requires { length messages.now ≤ KEEP_MAX }
    ensures count { result ≡ length (flat_map parts_of (cores messages.now)) }
    ensures few { result ≤ 3 * length messages.now }
    ensures conditions { All IsMessage messages.now }
{
    let mut parts = 0;
    for message in messages {
        parts += u32::from(message.shadow().count_parts());
    }
    parts
}
