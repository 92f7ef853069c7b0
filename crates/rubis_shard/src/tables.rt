//! The tables: the shards of a site, together.

ghost use Rattle.std.specs.Prelude.{◌≡◌, ◌+◌, ◌<◌, ◌≤◌, [], map as each, length, nat_eq, true, false, IfOk, IfErr, IfSome, OnOk, OnErr};
ghost use Rattle.std.specs.FinMap as map;
ghost use Rattle.rubis_schema.specs.Keys.{home};
ghost use Rattle.rubis_shadow.specs.Tables.{rows_of};
ghost use Rattle.rubis_shard.specs.Holdings.{AreInOrder, FoldsAtHome, FoldsOn, HoldsLog, IsSet, TakesOn, parts_at, union, core_of, numbered_of};
ghost use Rattle.rubis_shard.specs.Groups.{group_of};
ghost use Rattle.rubis_shard.specs.Listed.{number_of_table, recorded_from, categories_of, listed_of, table_with};
ghost use Rattle.rubis_shard.specs.Chains.{lent_row};

use crate::chains::chain_with;
use crate::counts::number_of;
use crate::entries::LogEntry;
use crate::groups::Group;
use crate::listed_rows::ListedRow;
use crate::messages::fold_parts;
use crate::orders::{put_in_order, put_rows_in_order};
use crate::part_homes::PartHomes;
use crate::picks::with_room;
use crate::shards::{Applied, Shard};
use crate::shares::Share;
use rubis_schema::{Hashes, IdTable, Items, Listing, Row, RowKey, Table, View, shard_of};
use std::alloc::{AllocError, Global};
use std::marker::Model;
use std::mem;

/// The tables of a site, as all shards of a set in order of number. Contracts see the list of the shards, which may be
/// empty where the shards were taken out.
pub struct Tables {
    shards: Vec<Shard>,
}

impl Drop for Tables {
    // Proved here, once: a derived drop is proved anew in each crate that lets tables go.
    fn drop(self) {
        let Tables { shards: _ } = self;
    }
}

impl Model for Tables {
    ghost use Rattle.std.specs.Prelude.{List};
    ghost use Rattle.std.specs.Coded.{coded_list};
    ghost use Rattle.rubis_shard.specs.States.{ShardState, shard_state_code};
    ghost use Rattle.rubis_shard.specs.Holdings.{AreInOrder};

    ghost Value = { List ShardState };

    ghost coded = { coded_list shard_state_code };

    ghost view = { λ t. t.shards.items };

    ghost invariant = { λ t. AreInOrder t.shards.items };
}

// Whether these are all the shards of one set, in order of number.
fn is_set(shards: &[Shard]) -> bool
    ensures yes { result ≡ true → IsSet shards.now }
    ensures no { result ≡ false → IsSet shards.now → ⊥ }
{
    for at in 0..shards.len() {
        let shard = &shards[at];
        if shard.number() != at || shard.shards() != shards.len() {
            return false;
        }
    }
    !shards.is_empty()
}

// The home shard of a key, among `shards` shards. Where there is one, nothing of the key is looked at.
#[inline(always)]
fn home_of(key: &RowKey, shards: usize) -> usize
    requires { 0 < shards }
    ensures home { result ≡ home shards key.now }
    ensures below { result < shards }
{
    if shards == 1 {
        return 0;
    }
    shard_of(key, shards)
}

// Links the rows of each shard that came since the last call, in the map that has the table's.
fn link_all(shards: &mut [Shard], table: IdTable) -> Result<(), AllocError>
    ensures { shards.new ≡ shards.old }
{
    for at in 0..shards.len() {
        shards[at].link_with(table)?;
    }
    Ok(())
}

impl Tables {
    /// Tables of `shards` shards, with the opening rows, hashed the same way in every run.
    pub fn new(alloc: Global, shards: usize) -> Result<Tables, AllocError>
        requires { 0 < shards }
        ensures { IfOk result (λ tables. HoldsLog shards [] tables) }
    {
        Tables::hashed(alloc, shards, Hashes::fixed())
    }

    /// Tables of `shards` shards, with the opening rows, hashed by `hashes`.
    pub fn hashed(alloc: Global, shards: usize, hashes: Hashes) -> Result<Tables, AllocError>
        requires { 0 < shards }
        ensures { IfOk result (λ tables. HoldsLog shards [] tables) }
    {
        let mut list = Vec::new(alloc);
        for number in 0..shards {
            list.push(Shard::hashed(alloc, number, shards, hashes)?)?;
        }
        Ok(Tables { shards: list })
    }

    /// How many shards there are: none where they were taken out.
    pub fn len(&self) -> usize
        ensures { result ≡ length self.now }
    {
        self.shards.len()
    }

    pub fn is_empty(&self) -> bool
        ensures { result ≡ nat_eq (length self.now) 0 }
    {
        self.shards.is_empty()
    }

    /// The shards, in order of number.
    pub fn shards(&self) -> &[Shard]
        ensures list { result.now ≡ self.now }
        ensures order { AreInOrder self.now }
    {
        self.shards.as_slice()
    }

    /// Gives the shards away.
    pub fn into_shards(self) -> Vec<Shard>
        ensures list { result.items ≡ self }
        ensures order { AreInOrder self }
    {
        let Tables { shards } = self;
        shards
    }

    /// Takes the shards out, and leaves none.
    pub fn take(&mut self) -> Vec<Shard>
        ensures list { result.items ≡ self.old }
        ensures order { AreInOrder self.old }
        ensures left { self.new ≡ [] }
    {
        let alloc = *self.shards.allocator();
        mem::replace(&mut self.shards, Vec::new(alloc))
    }

    /// Tables of these shards. Fails, and returns the shards, if and only if they aren't all the shards of one set, in
    /// order of number.
    pub fn from_shards(shards: Vec<Shard>) -> Result<Tables, Vec<Shard>>
        ensures ok { IfOk result (λ tables. tables ≡ shards.items) }
        ensures set { IfOk result (λ tables. IsSet shards.items) }
        ensures back { IfErr result (λ back. back ≡ shards) }
        ensures fault { IfErr result (λ back. IsSet shards.items → ⊥) }
    {
        if is_set(&shards) {
            Ok(Tables { shards })
        } else {
            Err(shards)
        }
    }

    /// Links the rows that came since the last call into their chains, where a listing is found along one. Without it, the
    /// listing has the same rows, and looks at each row that isn't linked. Contracts see nothing of it.
    pub fn link_rows(&mut self, listing: &Listing) -> Result<(), AllocError>
        ensures { self.new ≡ self.old }
    {
        if let Some(chain) = chain_with(listing) {
            return link_all(&mut self.shards, chain.table);
        }
        Ok(())
    }

    /// The rows of one table of all shards with their keys, in key order.
    pub fn rows(&self, alloc: Global, table: Table) -> Result<Vec<(RowKey, &Row)>, AllocError>
        ensures { IfOk result (λ rows. each lent_row rows.items ≡ rows_of table (union self.now)) }
    {
        let mut all = Vec::new(alloc);
        for shard in &self.shards {
            let mut rows = shard.rows(alloc, table)?;
            all.append(&mut rows)?;
        }
        put_rows_in_order(alloc, &mut all)?;
        Ok(all)
    }

    // How many rows there are in the maps that have the table's.
    fn len_with(&self, table: IdTable) -> usize {
        let mut rows: usize = 0;
        for shard in &self.shards {
            rows = rows.saturating_add(shard.len_with(table));
        }
        rows
    }

    /// The rows of one table of all shards that match a listing, with their keys, in key order.
    pub fn listed(
        &self,
        alloc: Global,
        table: IdTable,
        listing: &Listing,
    ) -> Result<Vec<ListedRow<'_>>, AllocError>
        ensures { IfOk result (λ rows. rows.items ≡ listed_of listing.now (table_with table) (union self.now)) }
    {
        let mut picked = with_room(alloc, listing, self.len_with(table))?;
        for shard in &self.shards {
            shard.pick(&mut picked, table, listing)?;
        }
        put_in_order(alloc, &mut picked)?;
        Ok(picked)
    }

    /// The categories of all shards that listings show, with their keys, in key order: those that have items, or live ones.
    pub fn categories(&self, alloc: Global) -> Result<Vec<ListedRow<'_>>, AllocError>
        ensures { IfOk result (λ rows. rows.items ≡ categories_of (union self.now)) }
    {
        let mut picked = Vec::new(alloc);
        for shard in &self.shards {
            shard.pick_categories(&mut picked)?;
        }
        put_in_order(alloc, &mut picked)?;
        Ok(picked)
    }

    /// Counts on with the rows that have a record, of one table and those after it in the order of keys.
    pub fn count_recorded(&self, first: Table, counted: usize) -> usize
        requires { counted + length (recorded_from (number_of_table first) (map.entries (union self.now))) ≤ 18446744073709551615 }
        ensures { result ≡ counted + length (recorded_from (number_of_table first) (map.entries (union self.now))) }
    {
        let first = number_of(first);
        let mut count = counted;
        for shard in &self.shards {
            count = shard.count_recorded(first, count);
        }
        count
    }

    /// A number that isn't less than how many rows have a record, if there is one.
    pub fn most_recorded(&self) -> Option<usize>
        ensures { IfSome result (λ most. length (recorded_from 0 (map.entries (union self.now))) ≤ most) }
    {
        let mut most: usize = 0;
        for shard in &self.shards {
            let Some(all) = shard.most_recorded(most) else {
                return None;
            };
            most = all;
        }
        Some(most)
    }

    /// The keys of the rows of a group, in key order.
    pub fn group(&self, alloc: Global, group: &Group) -> Result<Items<RowKey>, AllocError>
        ensures { IfOk result (λ keys. keys ≡ group_of group.now (union self.now)) }
    {
        let rows = self.listed(alloc, group.table(), &group.listing())?;
        let mut keys = Vec::new(alloc);
        for row in &rows {
            keys.push(row.key())?;
        }
        Ok(Items::from(keys))
    }

    /// Folds the parts of this entry of a log whose home is shard `number`: all of them, or none where memory is refused.
    pub fn take_on(&mut self, number: usize, entry: &LogEntry<'_>) -> Result<(), AllocError>
        requires there { number < length self.old }
        requires few { length self.old ≤ 255 }
        ensures ok { OnOk result (FoldsOn number (parts_at (length self.old) number (numbered_of entry.now)) self.old self.new) }
        ensures err { OnErr result (self.new ≡ self.old) }
    {
        let homes = PartHomes::of(entry, self.shards.len());
        self.shards[number].take_on(entry, &homes)
    }

    /// Folds all parts of the message that is this entry of a log, each on its home shard: done whole, or not at all where
    /// memory is refused.
    pub fn apply_message(&mut self, entry: &LogEntry<'_>) -> Result<(), AllocError>
        requires { 0 < length self.old }
        ensures ok { OnOk result (FoldsAtHome self.old (numbered_of entry.now) self.new) }
        ensures log { OnOk result (TakesOn (core_of entry.now) entry.now.number self.old self.new) }
        ensures err { OnErr result (self.new ≡ self.old) }
    {
        let alloc = *self.shards.allocator();
        fold_parts(alloc, &mut self.shards, entry)
    }
}

impl View for Tables {
    ghost use Rattle.rubis_shard.specs.Holdings.{union};

    ghost tables = { λ t. union t };

    fn row(&self, key: &RowKey) -> Option<&Row> {
        if self.shards.is_empty() {
            return None;
        }
        let at = home_of(key, self.shards.len());
        self.shards[at].row(key)
    }
}
