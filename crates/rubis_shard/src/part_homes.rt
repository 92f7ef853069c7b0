//! The homes of the parts of a message, a byte each.

ghost use Rattle.std.specs.Prelude.{◌≡◌, ◌≤◌, ◌<◌, false};
ghost use Rattle.rubis_shard.specs.Holdings.{core_of, AreHomesOf, NoneAt};

use crate::entries::LogEntry;
use crate::messages::home_at;

/// The home of each part of a message, among at most 255 shards. Where there is no part, it is the number of shards.
#[derive(Clone, Copy)]
pub struct PartHomes {
    pub first: u8,
    pub second: u8,
    pub third: u8,
}

impl PartHomes {
    /// The homes of the parts of this entry.
    #[inline(always)]
    pub fn of(entry: &LogEntry<'_>, shards: usize) -> PartHomes
        requires some { 0 < shards }
        requires few { shards ≤ 255 }
        ensures { AreHomesOf shards (core_of entry.now) result }
    {
        PartHomes {
            first: home_at(entry, shards, 0) as u8,
            second: home_at(entry, shards, 1) as u8,
            third: home_at(entry, shards, 2) as u8,
        }
    }

    /// Whether one of the parts has its home at shard `number`.
    #[tactic(auto, using(crate::proofs::Homes::none_of_homes))]
    #[inline(always)]
    pub fn has(&self, number: usize) -> bool
        ensures { result ≡ false → NoneAt number self.now }
    {
        usize::from(self.first) == number
            || usize::from(self.second) == number
            || usize::from(self.third) == number
    }
}
