//! The parts of a message that are a shard's own, folded from where the message lies.

ghost use Rattle.std.specs.Prelude.{◌≡◌, ℕ, ◌+◌, ◌<◌, ◌≤◌, [], length, slice_get, IfOk, OnOk, OnErr};
ghost use Rattle.rubis_shadow.specs.Tables.{HasBoxedRow};
ghost use Rattle.rubis_model.specs.Log.{fold_on, parts_of};
ghost use Rattle.rubis_shard.specs.Holdings.{core_of, numbered_of, home_or, parts_at, AreInOrder, at_place, FoldsFrom, AreHomesOf};
ghost use Rattle.rubis_shard.specs.States.{held_by, HasRoom};

use crate::entries::LogEntry;
use crate::message_parts::MessageParts;
use crate::part_homes::PartHomes;
use crate::shard_store::Store;
use crate::shards::Shard;
use rubis_schema::{Row, shard_of};
use rubis_shadow::Shadow;
use std::alloc::{AllocError, Global};

// The home of the entry's part at this place, or the number of shards where there is none.
#[inline(always)]
pub(crate) fn home_at(entry: &LogEntry<'_>, shards: usize, place: u8) -> usize
    requires { 0 < shards }
    ensures home { result ≡ home_or shards (slice_get (parts_of (core_of entry.now)) place) }
    ensures within { result ≤ shards }
{
    match entry.shadow.key(entry.id, place) {
        Some(key) => shard_of(&key, shards),
        None => shards,
    }
}

impl<'a> MessageParts<'a> {
    /// The parts of this entry, on that many shards.
    pub fn new(entry: &LogEntry<'a>, shards: usize) -> MessageParts<'a>
        requires { 0 < shards }
        ensures entry { result.entry ≡ entry.now }
        ensures shards { result.shards ≡ shards }
    {
        MessageParts {
            entry: *entry,
            shards,
            first: home_at(entry, shards, 0),
            second: home_at(entry, shards, 1),
            third: home_at(entry, shards, 2),
        }
    }

    /// The same, where the homes of its parts are known.
    #[inline(always)]
    pub fn with(entry: &LogEntry<'a>, shards: usize, homes: &PartHomes) -> MessageParts<'a>
        requires { AreHomesOf shards (core_of entry.now) homes.now }
        ensures entry { result.entry ≡ entry.now }
        ensures shards { result.shards ≡ shards }
    {
        MessageParts {
            entry: *entry,
            shards,
            first: usize::from(homes.first),
            second: usize::from(homes.second),
            third: usize::from(homes.third),
        }
    }

    // The home of the part at this place, or the number of shards where there is none.
    #[inline(always)]
    fn home(&self, place: u8) -> usize
        requires { place < 3 }
        ensures { result ≡ home_or self.now.shards (slice_get (parts_of (core_of self.now.entry)) place) }
    {
        match place {
            0 => self.first,
            1 => self.second,
            _ => self.third,
        }
    }

    // The home of the part at this place, if it is at least `from` and less than `least`; else `least`.
    #[inline(always)]
    fn home_from(&self, place: u8, from: usize, least: usize) -> usize
        requires place { place < 3 }
        requires low { from ≤ least }
        requires within { least ≤ self.now.shards }
        ensures from { from ≤ result }
        ensures least { result ≤ least }
        ensures none { (k : ℕ) → from ≤ k → k < result → parts_at self.now.shards k (at_place self.now.entry place) ≡ [] }
    {
        let home = self.home(place);
        if from <= home && home < least {
            home
        } else {
            least
        }
    }

    /// The least home of a part that is at least `from`, or the number of shards.
    #[inline(always)]
    pub fn next_home(&self, from: usize) -> usize
        requires { from ≤ self.now.shards }
        ensures from { from ≤ result }
        ensures within { result ≤ self.now.shards }
        ensures none { (k : ℕ) → from ≤ k → k < result → parts_at self.now.shards k (numbered_of self.now.entry) ≡ [] }
    {
        let first = self.home_from(0, from, self.shards);
        let second = self.home_from(1, from, first);
        self.home_from(2, from, second)
    }

    /// The row of the first part that is in a box or shared, where it has one, if its home is the shard.
    #[inline(always)]
    pub fn boxed_row(&self, alloc: Global, at: usize) -> Result<Option<Row>, AllocError>
        requires { at < self.now.shards }
        ensures { IfOk result (λ row. self.now.first ≡ at → HasBoxedRow (slice_get (parts_of (core_of self.now.entry)) 0) row) }
    {
        if self.first != at {
            return Ok(None);
        }
        self.entry.shadow.boxed_row(alloc)
    }

    // Folds the part at this place on, if its home is the shard.
    #[inline(always)]
    fn fold_place(&self, store: &mut Store, at: usize, place: u8, row: Option<Row>)
        requires at { at < self.now.shards }
        requires place { place < 3 }
        requires room { HasRoom store.old 1 }
        requires row { home_or self.now.shards (slice_get (parts_of (core_of self.now.entry)) place) ≡ at
            → HasBoxedRow (slice_get (parts_of (core_of self.now.entry)) place) row }
        ensures folded { held_by store.new ≡ fold_on (held_by store.old) (parts_at self.now.shards at (at_place self.now.entry place)) }
        ensures room { (n : ℕ) → HasRoom store.old (n + 1) → HasRoom store.new n }
    {
        if self.home(place) != at {
            return;
        }
        let entry = &self.entry;
        let Some(effect) = entry.shadow.effect(entry.id, entry.red, place) else {
            return;
        };
        store.fold_part(entry, place + 1, effect.own_with(row));
    }

    // Folds the parts on whose home is the shard, whatever the shadow is, with that row for the first. It is long, and one copy
    // of it serves all callers: a second one would no longer fit a processor's first cache.
    #[inline(never)]
    fn fold_any(&self, store: &mut Store, at: usize, row: Option<Row>)
        requires at { at < self.now.shards }
        requires room { HasRoom store.old 3 }
        requires row { self.now.first ≡ at → HasBoxedRow (slice_get (parts_of (core_of self.now.entry)) 0) row }
        ensures { held_by store.new ≡ fold_on (held_by store.old) (parts_at self.now.shards at (numbered_of self.now.entry)) }
    {
        self.fold_place(store, at, 0, row);
        self.fold_place(store, at, 1, None);
        self.fold_place(store, at, 2, None);
    }

    /// Folds the parts on whose home is the shard, with that row for the first. Bids and purchases, of which there are most, are
    /// folded as what they are. For comments too it would take fewer instructions, but more misses of a processor's first cache.
    #[inline(always)]
    pub fn fold_at(&self, store: &mut Store, at: usize, row: Option<Row>)
        requires at { at < self.now.shards }
        requires room { HasRoom store.old 3 }
        requires row { self.now.first ≡ at → HasBoxedRow (slice_get (parts_of (core_of self.now.entry)) 0) row }
        ensures { held_by store.new ≡ fold_on (held_by store.old) (parts_at self.now.shards at (numbered_of self.now.entry)) }
    {
        match self.entry.shadow {
            Shadow::Bid(bid) => self.fold_bid(store, at, bid),
            Shadow::Buy(purchase) => self.fold_purchase(store, at, purchase),
            _ => self.fold_any(store, at, row),
        }
    }
}

// Folds the parts whose home is the shard `at` or one after it. No shard changes before each has room.
fn fold_homes(
    alloc: Global,
    list: &mut [Shard],
    message: &MessageParts<'_>,
    at: usize,
) -> Result<(), AllocError>
    requires shards { message.now.shards ≡ length list.old }
    requires order { AreInOrder list.old }
    requires within { at < length list.old }
    ensures ok { OnOk result (FoldsFrom at list.old (numbered_of message.now.entry) list.new) }
    ensures err { OnErr result (list.new ≡ list.old) }
{
    let row = message.boxed_row(alloc, at)?;
    let next = message.next_home(at + 1);
    if next == list.len() {
        return list[at].fold_message(message, row);
    }
    let mut store = list[at].take_store(3)?;
    if let Err(refused) = fold_homes(alloc, list, message, next) {
        list[at].put_store(store);
        return Err(refused);
    }
    message.fold_at(store.get_mut(), at, row);
    list[at].put_store(store);
    Ok(())
}

/// Folds all parts of a message, each on its home shard, or none of them when out of memory.
#[inline(always)]
pub fn fold_parts(alloc: Global, list: &mut [Shard], entry: &LogEntry<'_>) -> Result<(), AllocError>
    requires order { AreInOrder list.old }
    requires some { 0 < length list.old }
    ensures ok { OnOk result (FoldsFrom 0 list.old (numbered_of entry.now) list.new) }
    ensures err { OnErr result (list.new ≡ list.old) }
{
    if list.len() == 1 {
        return list[0].fold_whole(entry);
    }
    let message = MessageParts::new(entry, list.len());
    let first = message.next_home(0);
    if first == list.len() {
        return Ok(());
    }
    fold_homes(alloc, list, &message, first)
}
