//! Shards that follow a log: their parts of a batch are folded straight from its messages.

ghost use Rattle.std.specs.Prelude.{◌≡◌, ◌+◌, ◌<◌, ◌≤◌, All, length, IfOk, OnOk};
ghost use Rattle.rubis_schema.specs.declared.limits.TheConstants.{KEEP_MAX};
ghost use Rattle.rubis_message.specs.Message.{IsMessage};
ghost use Rattle.rubis_model.specs.Log.{cores};
ghost use Rattle.rubis_shard.specs.Holdings.{AreHomes};
ghost use Rattle.rubis_pieces.specs.Following.{GoesTo, IsFollowed};

use rubis_message::Message;
use rubis_shard::{LogEntry, PartHomes, Shard, Tables};
use std::alloc::{AllocError, Global};

/// The homes of the parts of each message of a batch, among at most 255 shards.
pub fn homes_of(
    alloc: Global,
    batch: &[Message],
    shards: usize,
) -> Result<Vec<PartHomes>, AllocError>
    requires some { 0 < shards }
    requires few { shards ≤ 255 }
    ensures homes { IfOk result (λ homes. AreHomes shards (cores batch.now) homes.items) }
    ensures conditions { OnOk result (All IsMessage batch.now) }
{
    let mut homes = Vec::with_capacity(alloc, batch.len())?;
    for place in 0..batch.len() {
        let entry = LogEntry::new(0, &batch[place]);
        homes.push(PartHomes::of(&entry, shards))?;
    }
    Ok(homes)
}

/// Folds on a shard the parts of a batch whose home it is, message by message, until there is no memory for those of one. The
/// answer says how many of the messages are done. `homes` has the homes of their parts, and the first of them is that entry of
/// the log, from 1.
pub fn follow(shard: &mut Shard, batch: &[Message], homes: &[PartHomes], first: u32) -> usize
    requires number { shard.old.number < shard.old.shards }
    requires entries { first + length batch.now ≤ KEEP_MAX + 1 }
    requires homes { AreHomes shard.old.shards (cores batch.now) homes.now }
    ensures { IsFollowed first (cores batch.now) shard.old result shard.new }
{
    // Most messages have no part here, and their homes say so in less memory than they themselves.
    let number = shard.number();
    for place in 0..batch.len() {
        let homes = &homes[place];
        if homes.has(number) {
            let entry = LogEntry::new(first + place as u32, &batch[place]);
            if shard.take_on(&entry, homes).is_err() {
                return place;
            }
        }
    }
    batch.len()
}

/// Folds on one shard of the tables its parts of the messages of a log after message `from`, up to message `upto`, until there is
/// no memory for those of one. The answer says up to which message they are done.
pub fn follow_one(
    tables: &mut Tables,
    number: usize,
    log: &[Message],
    from: usize,
    upto: usize,
) -> usize
    requires there { number < length tables.old }
    requires shards { length tables.old ≤ 255 }
    requires few { length log.now ≤ KEEP_MAX }
    requires on { from ≤ upto }
    requires within { upto ≤ length log.now }
    ensures from { from ≤ result }
    ensures upto { result ≤ upto }
    ensures many { length tables.new ≡ length tables.old }
    ensures holds { GoesTo number from result (cores log.now) tables.old tables.new }
{
    for place in from..upto {
        let entry = LogEntry::new(place as u32 + 1, &log[place]);
        if tables.take_on(number, &entry).is_err() {
            return place;
        }
    }
    upto
}
