//! A shard: the rows of the keys that are at home on it.

ghost use Rattle.std.specs.Prelude.{◌≡◌, ◌+◌, ◌++◌, ◌<◌, ◌≤◌, ◌∷◌, [], length, slice_get, slice_range, map as each, IfOk, IfSome, OnOk, OnErr, option_copied};
ghost use Rattle.std.specs.List.{All};
ghost use Rattle.std.specs.List.Sorted.{IsPermutation};
ghost use Rattle.std.specs.FinMap as map;
ghost use Rattle.std.specs.Map.{keys_of};
ghost use Rattle.rubis_shadow.specs.Tables.{opening, rows_of, HasBoxedRow};
ghost use Rattle.rubis_model.specs.Shares.{part_of};
ghost use Rattle.rubis_model.specs.Log.{parts_of};
ghost use Rattle.rubis_shard.specs.Listed.{recorded_of, categories_of, listed_of, table_with};
ghost use Rattle.rubis_shard.specs.States.{opening_shard, with_parts, IsHomeOf, HoldsOwnRows, held_by, HasRoom};
ghost use Rattle.rubis_shard.specs.Holdings.{core_of, numbered_of, emptied, parts_at, AreHomesOf};
ghost use Rattle.rubis_shard.specs.Rows.{tables_in};
ghost use Rattle.rubis_shard.specs.Chains.{lent_row};

use crate::counts::{count_recorded, most_recorded};
use crate::entries::LogEntry;
use crate::listed_rows::ListedRow;
use crate::message_parts::MessageParts;
use crate::orders::put_in_order;
use crate::part_homes::PartHomes;
use crate::picks::{pick_categories, pick_rows, with_room};
use crate::row_map::Rows;
use crate::shard_store::Store;
use crate::shares::Share;
use crate::table_rows::rows_in_order;
use rubis_schema::{
    Boxed, CATEGORIES, CatRow, Hashes, IdTable, Listing, Row, RowKey, Table, shard_of,
};
use rubis_shadow::Misfit;
use std::alloc::{AllocError, Global};
use std::marker::Model;

/// One shard of a set: the rows whose home it is, and the misfits that were met there. Contracts see its number, how
/// many shards its set has, and what is folded on it.
pub struct Shard {
    number: usize,
    shards: usize,
    // In a box, so that it is taken out and put back at no cost. While it is out there are no rows and no misfits.
    store: Option<Boxed<Store>>,
    hashes: Hashes,
    alloc: Global,
}

impl Drop for Shard {
    // Proved here, once: a derived drop is proved anew in each crate that lets a shard go.
    fn drop(self) {
        let Shard {
            number: _,
            shards: _,
            store: _,
            hashes: _,
            alloc: _,
        } = self;
    }
}

impl Model for Shard {
    ghost use Rattle.std.specs.Prelude.{◌≡◌};
    ghost use Rattle.rubis_model.specs.Shares.{part_of};
    ghost use Rattle.rubis_shard.specs.States.{ShardState, shard_state_code, held_in};

    ghost Value = { ShardState };

    ghost coded = { shard_state_code };

    ghost view = { λ s. record { number = s.number; shards = s.shards; folded = held_in s.store } };

    ghost invariant = { λ s. part_of s.shards s.number (held_in s.store).tables ≡ (held_in s.store).tables };
}

/// How many of a share's parts are done.
#[derive(Clone, Copy)]
pub struct Applied {
    pub done: usize,
}

impl Shard {
    /// Shard `number` of `shards`, with the opening rows whose home it is and no misfits, hashed the same way in every
    /// run.
    pub fn new(alloc: Global, number: usize, shards: usize) -> Result<Shard, AllocError>
        requires { number < shards }
        ensures { IfOk result (λ shard. shard ≡ opening_shard shards number) }
    {
        Shard::hashed(alloc, number, shards, Hashes::fixed())
    }

    /// The same, which hashes by this.
    pub fn hashed(
        alloc: Global,
        number: usize,
        shards: usize,
        hashes: Hashes,
    ) -> Result<Shard, AllocError>
        requires { number < shards }
        ensures { IfOk result (λ shard. shard ≡ opening_shard shards number) }
    {
        let store = Store::of(alloc, opening_rows(alloc, number, shards, hashes)?);
        Ok(Shard {
            number,
            shards,
            store: Some(Boxed::new(alloc, store)?),
            hashes,
            alloc,
        })
    }

    /// Its number in its set, from 0.
    pub fn number(&self) -> usize
        ensures { result ≡ self.now.number }
    {
        self.number
    }

    /// How many shards its set has.
    pub fn shards(&self) -> usize
        ensures { result ≡ self.now.shards }
    {
        self.shards
    }

    /// The row at the key, if it is here.
    pub fn row(&self, key: &RowKey) -> Option<&Row>
        ensures row { option_copied result ≡ map.get self.now.folded.tables key.now }
        ensures own { HoldsOwnRows self.now }
    {
        match &self.store {
            Some(store) => store.rows.row(key),
            None => None,
        }
    }

    /// Links the rows that came since the last call into their chains. Contracts see nothing of it.
    pub fn link_rows(&mut self) -> Result<(), AllocError>
        ensures { self.new ≡ self.old }
    {
        self.link_with(IdTable::User)?;
        self.link_with(IdTable::Item)
    }

    // The same in the map that has the table's rows.
    pub(crate) fn link_with(&mut self, table: IdTable) -> Result<(), AllocError>
        ensures { self.new ≡ self.old }
    {
        let mut store = self.take_store(0)?;
        let linked = store.get_mut().link_rows(table);
        self.put_store(store);
        linked
    }

    /// The parts that didn't fit, in the order in which they were met.
    pub fn misfits(&self) -> &[Misfit]
        ensures { result.now ≡ self.now.folded.misfits }
    {
        match &self.store {
            Some(store) => store.misfits.as_slice(),
            None => &[],
        }
    }

    /// The rows of one table with their keys, in key order.
    pub fn rows(&self, alloc: Global, table: Table) -> Result<Vec<(RowKey, &Row)>, AllocError>
        ensures rows { IfOk result (λ rows. each lent_row rows.items ≡ rows_of table self.now.folded.tables) }
        ensures own { HoldsOwnRows self.now }
    {
        match &self.store {
            Some(store) => rows_in_order(alloc, &store.rows, table),
            None => Ok(Vec::new(alloc)),
        }
    }

    // Adds the rows of one table that match a listing, in any order.
    pub(crate) fn pick<'a>(
        &'a self,
        picked: &mut Vec<ListedRow<'a>>,
        table: IdTable,
        listing: &Listing,
    ) -> Result<(), AllocError>
        ensures rows { OnOk result (IsPermutation (picked.old.items ++ listed_of listing.now (table_with table) self.now.folded.tables) picked.new.items) }
        ensures own { HoldsOwnRows self.now }
    {
        match &self.store {
            Some(store) => pick_rows(picked, &store.rows, table, listing),
            None => Ok(()),
        }
    }

    /// The rows of one table that match a listing, with their keys, in key order.
    pub fn listed(
        &self,
        alloc: Global,
        table: IdTable,
        listing: &Listing,
    ) -> Result<Vec<ListedRow<'_>>, AllocError>
        ensures rows { IfOk result (λ rows. rows.items ≡ listed_of listing.now (table_with table) self.now.folded.tables) }
        ensures own { HoldsOwnRows self.now }
    {
        let mut picked = with_room(alloc, listing, self.len_with(table))?;
        self.pick(&mut picked, table, listing)?;
        put_in_order(alloc, &mut picked)?;
        Ok(picked)
    }

    // Adds the categories that listings show, in any order.
    pub(crate) fn pick_categories<'a>(
        &'a self,
        picked: &mut Vec<ListedRow<'a>>,
    ) -> Result<(), AllocError>
        ensures rows { OnOk result (IsPermutation (picked.old.items ++ categories_of self.now.folded.tables) picked.new.items) }
        ensures own { HoldsOwnRows self.now }
    {
        match &self.store {
            Some(store) => pick_categories(picked, &store.rows),
            None => Ok(()),
        }
    }

    // How many rows there are in the map that has the table's.
    pub(crate) fn len_with(&self, table: IdTable) -> usize
        ensures { HoldsOwnRows self.now }
    {
        match &self.store {
            Some(store) => store.rows.with_table(table).rows.len(),
            None => 0,
        }
    }

    // Counts on with the rows that have a record, of the tables from that number on.
    pub(crate) fn count_recorded(&self, first: u8, counted: usize) -> usize
        requires { counted + recorded_of first self.now ≤ 18446744073709551615 }
        ensures { result ≡ counted + recorded_of first self.now }
    {
        match &self.store {
            Some(store) => count_recorded(&store.rows, first, counted),
            None => counted,
        }
    }

    // A number that isn't less than these and those rows that have a record, if there is one.
    pub(crate) fn most_recorded(&self, most: usize) -> Option<usize>
        ensures { IfSome result (λ all. most + recorded_of 0 self.now ≤ all) }
    {
        match &self.store {
            Some(store) => most_recorded(&store.rows, most),
            None => Some(most),
        }
    }

    /// The keys of the rows of one table, in order.
    pub fn keys(&self, alloc: Global, table: Table) -> Result<Vec<RowKey>, AllocError>
        ensures { IfOk result (λ keys. keys.items ≡ keys_of (rows_of table self.now.folded.tables)) }
    {
        let rows = self.rows(alloc, table)?;
        let mut keys = Vec::new(alloc);
        for row in &rows {
            keys.push(row.0)?;
        }
        Ok(keys)
    }

    /// Folds the part at `from` on. Where memory is refused, nothing changes.
    pub fn apply_next(&mut self, share: &Share, from: usize) -> Result<(), AllocError>
        requires here { self.old.number ≡ share.now.number }
        requires home { All (IsHomeOf self.old) share.now.effects }
        requires some { from < length share.now.effects }
        ensures ok { OnOk result (IfSome (slice_get share.now.effects from) (λ part. self.new ≡ with_parts self.old (part ∷ []))) }
        ensures err { OnErr result (self.new ≡ self.old) }
    {
        let part = share.effects.as_slice()[from].copy()?;
        let mut store = self.take_store(1)?;
        store.get_mut().fold(part);
        self.put_store(store);
        Ok(())
    }

    /// Folds the parts from `from` on, until one finds no room. The answer says how many of the share's parts are done.
    pub fn apply(&mut self, share: &Share, from: usize) -> Applied
        requires here { self.old.number ≡ share.now.number }
        requires home { All (IsHomeOf self.old) share.now.effects }
        requires begun { from ≤ length share.now.effects }
        ensures from { from ≤ result.done }
        ensures to { result.done ≤ length share.now.effects }
        ensures folded { self.new ≡ with_parts self.old (slice_range share.now.effects from result.done) }
    {
        for at in from..share.effects.len() {
            if self.apply_next(share, at).is_err() {
                return Applied { done: at };
            }
        }
        Applied {
            done: share.effects.len(),
        }
    }

    // Folds those parts of a message on whose home it is, with that row for the first. Without memory nothing
    // changes.
    #[inline(always)]
    pub(crate) fn fold_message(
        &mut self,
        message: &MessageParts<'_>,
        row: Option<Row>,
    ) -> Result<(), AllocError>
        requires at { self.old.number < message.now.shards }
        requires shards { message.now.shards ≡ self.old.shards }
        requires row { message.now.first ≡ self.old.number → HasBoxedRow (slice_get (parts_of (core_of message.now.entry)) 0) row }
        ensures ok { OnOk result (self.new ≡ with_parts self.old (parts_at message.now.shards self.old.number (numbered_of message.now.entry))) }
        ensures err { OnErr result (self.new ≡ self.old) }
    {
        let mut store = self.take_store(3)?;
        message.fold_at(store.get_mut(), self.number, row);
        self.put_store(store);
        Ok(())
    }

    // Folds all parts of an entry of the log, as the only shard. Without memory nothing changes.
    #[inline(always)]
    pub(crate) fn fold_whole(&mut self, entry: &LogEntry<'_>) -> Result<(), AllocError>
        requires number { self.old.number ≡ 0 }
        requires shards { self.old.shards ≡ 1 }
        ensures ok { OnOk result (self.new ≡ with_parts self.old (numbered_of entry.now)) }
        ensures err { OnErr result (self.new ≡ self.old) }
    {
        let mut store = self.take_store(3)?;
        let folded = store.get_mut().fold_whole(self.alloc, entry);
        self.put_store(store);
        folded
    }

    /// Folds those parts of an entry of the log whose home is this shard; `homes` are the homes of all its parts. Without memory
    /// nothing changes.
    #[inline(always)]
    pub fn take_on(&mut self, entry: &LogEntry<'_>, homes: &PartHomes) -> Result<(), AllocError>
        requires number { self.old.number < self.old.shards }
        requires homes { AreHomesOf self.old.shards (core_of entry.now) homes.now }
        ensures ok { OnOk result (self.new ≡ with_parts self.old (parts_at self.old.shards self.old.number (numbered_of entry.now))) }
        ensures err { OnErr result (self.new ≡ self.old) }
    {
        let at = self.number;
        if !homes.has(at) {
            return Ok(());
        }
        let message = MessageParts::with(entry, self.shards, homes);
        let row = message.boxed_row(self.alloc, at)?;
        self.fold_message(&message, row)
    }

    // What is held, or an empty store where it is out. It is apart from `take_store`, in which the room of the empty store would be
    // cleared at every call.
    #[inline(always)]
    fn store_or_empty(&mut self) -> Result<Boxed<Store>, AllocError>
        ensures taken { IfOk result (λ store. held_by store ≡ self.old.folded) }
        ensures own { HoldsOwnRows self.old }
        ensures left { OnOk result (self.new ≡ emptied self.old) }
        ensures err { OnErr result (self.new ≡ self.old) }
    {
        match self.store.take() {
            Some(store) => Ok(store),
            None => Boxed::new(self.alloc, Store::new(self.alloc, self.hashes)),
        }
    }

    // Takes the rows and misfits out, with room for `parts` more parts, and leaves none.
    #[inline(always)]
    pub(crate) fn take_store(&mut self, parts: usize) -> Result<Boxed<Store>, AllocError>
        ensures taken { IfOk result (λ store. held_by store ≡ self.old.folded) }
        ensures room { IfOk result (λ store. HasRoom store parts) }
        ensures own { HoldsOwnRows self.old }
        ensures left { OnOk result (self.new ≡ emptied self.old) }
        ensures err { OnErr result (self.new ≡ self.old) }
    {
        let mut store = self.store_or_empty()?;
        if let Err(refused) = store.get_mut().make_room(parts) {
            self.put_store(store);
            return Err(refused);
        }
        Ok(store)
    }

    // Puts rows and misfits in the place of what is there.
    #[inline(always)]
    pub(crate) fn put_store(&mut self, store: Boxed<Store>)
        requires { part_of self.old.shards self.old.number (held_by store).tables ≡ (held_by store).tables }
        ensures { self.new ≡ record { number = self.old.number; shards = self.old.shards; folded = held_by store } }
    {
        self.store = Some(store);
    }
}

// The opening rows whose home is the shard.
fn opening_rows(
    alloc: Global,
    number: usize,
    shards: usize,
    hashes: Hashes,
) -> Result<Rows, AllocError>
    requires { number < shards }
    ensures { IfOk result (λ rows. tables_in rows ≡ part_of shards number opening) }
{
    let mut rows = Rows::new(alloc, hashes);
    for cat in (0..CATEGORIES).rev() {
        let key = RowKey::Cat(cat);
        if shard_of(&key, shards) != number {
            continue;
        }
        rows.make_room(1)?;
        rows.put_new(key, Row::Cat(CatRow { items: 0, live: 0 }));
    }
    Ok(rows)
}
