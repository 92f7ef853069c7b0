//! A message on its way to the shards, with the home of each of its parts.

ghost use Rattle.std.specs.Prelude.{◌≡◌, slice_get};
ghost use Rattle.rubis_model.specs.Log.{parts_of};
ghost use Rattle.rubis_shard.specs.Holdings.{core_of, home_or};

use crate::entries::LogEntry;

/// An entry of the log, to be folded on `shards` shards, with the home of each of its parts. Where there is no part, the
/// home is `shards`.
#[derive(Clone, Copy)]
pub struct MessageParts<'a> {
    pub entry: LogEntry<'a>,
    pub shards: usize,
    pub first: usize,
    pub second: usize,
    pub third: usize,
    ghost first_home: { first ≡ home_or shards (slice_get (parts_of (core_of entry)) 0) },
    ghost second_home: { second ≡ home_or shards (slice_get (parts_of (core_of entry)) 1) },
    ghost third_home: { third ≡ home_or shards (slice_get (parts_of (core_of entry)) 2) },
}
