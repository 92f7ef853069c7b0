//! How much of a batch isn't done.

ghost use Rattle.std.specs.Prelude.{◌≡◌, ◌+◌, ◌<◌, ◌≤◌, Option, length, filter};
ghost use Rattle.rubis_schema.specs.declared.limits.TheConstants.{KEEP_MAX};
ghost use Rattle.rubis_shadow.specs.declared.keyed_change.Effect.{Effect};
ghost use Rattle.rubis_model.specs.Log.{Core, cores, parts_of};
ghost use Rattle.rubis_shard.specs.Holdings.{home_or, AreHomesOf};
ghost use Rattle.rubis_pieces.specs.Following.{parts_behind, waits, waits_or};

use rubis_message::Message;
use rubis_shard::{LogEntry, PartHomes};

// 1 if there is a part with that home and it isn't done, else 0. It is one of the message at that place of the log, from 0.
fn count_part(home: u8, stops: &[usize], place: usize) -> u32
    requires some { 0 < length stops.now }
    ensures part { (o : Option Effect) → home ≡ home_or (length stops.now) o → result ≡ waits_or (length stops.now) stops.now place o }
    ensures few { result ≤ 1 }
{
    let home = usize::from(home);
    if home >= stops.len() {
        return 0;
    }
    if place < stops[home] {
        return 0;
    }
    1
}

// How many parts with those homes aren't done.
fn count_homes(homes: &PartHomes, stops: &[usize], place: usize) -> u32
    requires some { 0 < length stops.now }
    ensures parts { (m : Core) → AreHomesOf (length stops.now) m homes.now → result ≡ length (filter (waits (length stops.now) stops.now place) (parts_of m)) }
    ensures few { result ≤ 3 }
{
    count_part(homes.first, stops, place)
        + count_part(homes.second, stops, place)
        + count_part(homes.third, stops, place)
}

/// How many parts of these messages aren't done where each shard stands at its stop. The first of them stands at place `from` of
/// the log, from 0.
pub fn count_behind(batch: &[Message], from: usize, stops: &[usize]) -> u32
    requires some { 0 < length stops.now }
    requires shards { length stops.now ≤ 255 }
    requires few { from + length batch.now ≤ KEEP_MAX }
    ensures { result ≡ parts_behind (length stops.now) stops.now from (cores batch.now) }
{
    let mut parts = 0;
    for place in 0..batch.len() {
        let entry = LogEntry::new(0, &batch[place]);
        let homes = PartHomes::of(&entry, stops.len());
        parts += count_homes(&homes, stops, from + place);
    }
    parts
}
