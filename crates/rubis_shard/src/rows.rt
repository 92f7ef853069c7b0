//! The rows of a shard: looked up, entered and changed.

ghost use Rattle.std.specs.Prelude.{◌≡◌, ◌≢◌, ℕ, ◌+◌, [], is_none, option_copied, OnOk};
ghost use Rattle.std.specs.Bool.{MatchBool};
ghost use Rattle.std.specs.FinMap as map;
ghost use Rattle.std.specs.List.{IsDistinct};
ghost use Rattle.std.specs.Map.{keys_of};
ghost use Rattle.rubis_schema.specs.Keys.{key_eq};
ghost use Rattle.rubis_schema.specs.declared.rows.Row.{Row};
ghost use Rattle.rubis_shadow.specs.Changes as model;
ghost use Rattle.rubis_shadow.specs.Changes.{after_part, misfit_of, with_row};
ghost use Rattle.rubis_shadow.specs.Freed.{FreesOnlyNicks};
ghost use Rattle.rubis_shadow.specs.declared.changes.Change.TheVariants.{Insert};
ghost use Rattle.rubis_shard.specs.Rows.{entries_of, kept_of, linked_of, rows_with, tables_in, HasRoomForRows};

use crate::map_keys::{MapPlace, place_of};
use crate::map_rows::{alter_in, change_in, put_in};
use crate::row_map::{LinkedRows, Rows};
use indexmap::IndexMap;
use rubis_schema::{Hashes, IdTable, Row, RowKey};
use rubis_shadow::{Change, Effect, MisfitKind};
use std::alloc::{AllocError, Global};

impl Rows {
    /// No rows.
    pub fn new(alloc: Global, hashes: Hashes) -> Rows
        ensures { entries_of result ≡ [] }
    {
        Rows {
            users: LinkedRows::new(alloc, hashes.keys),
            others: LinkedRows::new(alloc, hashes.keys),
            nicks: IndexMap::with_hasher(alloc, hashes.nicks),
            cats: IndexMap::new(alloc),
        }
    }

    /// Makes room for n rows more.
    pub fn make_room(&mut self, n: usize) -> Result<(), AllocError>
        ensures same { entries_of self.new ≡ entries_of self.old }
        ensures room { OnOk result (HasRoomForRows self.new n) }
    {
        self.users.make_room(n)?;
        self.others.make_room(n)?;
        self.nicks.reserve(n)?;
        self.cats.reserve(n)?;
        Ok(())
    }

    /// The map that has the rows of a table.
    #[inline(always)]
    pub fn with_table(&self, table: IdTable) -> &LinkedRows
        ensures { result.now ≡ rows_with table self.now }
    {
        match table {
            IdTable::User => &self.users,
            _ => &self.others,
        }
    }

    /// Links the rows after those that are linked, in the map that has the table's. When out of memory, some of them may be
    /// linked.
    pub fn link(&mut self, table: IdTable) -> Result<(), AllocError>
        ensures same { entries_of self.new ≡ entries_of self.old }
        ensures all { OnOk result (linked_of (rows_with table self.new) ≡ kept_of (rows_with table self.new)) }
        ensures room { (n : ℕ) → HasRoomForRows self.old n → HasRoomForRows self.new n }
    {
        match table {
            IdTable::User => self.users.link(),
            _ => self.others.link(),
        }
    }

    /// How many rows there are in each map.
    pub fn lens(&self) -> (usize, usize, usize, usize)
        ensures { IsDistinct key_eq (keys_of (entries_of self.now)) }
    {
        let with_ids = (self.users.rows.len(), self.others.rows.len());
        (with_ids.0, with_ids.1, self.nicks.len(), self.cats.len())
    }

    /// The row at the key, if there is one.
    pub fn row(&self, key: &RowKey) -> Option<&Row>
        ensures { option_copied result ≡ map.get (tables_in self.now) key.now }
    {
        match place_of(key) {
            MapPlace::User(id) => self.users.rows.get(&id),
            MapPlace::Other(id) => self.others.rows.get(&id),
            MapPlace::Nick(nick) => self.nicks.get(&nick),
            MapPlace::Cat(cat) => self.cats.get(&cat),
        }
    }

    /// Puts the row at the key where none is there, and says whether it did. There is room for it.
    #[inline(always)]
    pub fn put_new(&mut self, key: RowKey, row: Row) -> bool
        requires { HasRoomForRows self.old 1 }
        ensures free { result ≡ is_none (map.get (tables_in self.old) key) }
        ensures put { MatchBool result (tables_in self.new ≡ map.insert (tables_in self.old) key row) (entries_of self.new ≡ entries_of self.old) }
        ensures room { (n : ℕ) → HasRoomForRows self.old (n + 1) → HasRoomForRows self.new n }
    {
        match place_of(&key) {
            MapPlace::User(id) => self.users.put(id, row),
            MapPlace::Other(id) => self.others.put(id, row),
            MapPlace::Nick(nick) => put_in(&mut self.nicks, nick, row),
            MapPlace::Cat(cat) => put_in(&mut self.cats, cat, row),
        }
    }

    // Does a change of a row, where the row is. Only a nickname's row is ever removed, so that the rows with ids stay linked.
    #[inline(always)]
    fn change_row(&mut self, key: &RowKey, change: &Change) -> Option<MisfitKind>
        requires insert { (row : Row) → change.now ≢ Insert row }
        requires frees { FreesOnlyNicks key.now change.now }
        ensures tables { tables_in self.new ≡ with_row (tables_in self.old) key.now (model.change_row change.now (map.get (tables_in self.old) key.now)).row }
        ensures misfit { result ≡ (model.change_row change.now (map.get (tables_in self.old) key.now)).misfit }
        ensures room { (n : ℕ) → HasRoomForRows self.old n → HasRoomForRows self.new n }
    {
        match place_of(key) {
            MapPlace::User(id) => self.users.alter(&id, change).misfit,
            MapPlace::Other(id) => self.others.alter(&id, change).misfit,
            MapPlace::Nick(nick) => change_in(&mut self.nicks, &nick, change).misfit,
            MapPlace::Cat(cat) => alter_in(&mut self.cats, &cat, change).misfit,
        }
    }

    /// Does one part, for which there is room.
    #[inline(always)]
    pub fn put_effect(&mut self, effect: Effect) -> Option<MisfitKind>
        requires { HasRoomForRows self.old 1 }
        ensures tables { tables_in self.new ≡ after_part (tables_in self.old) effect }
        ensures misfit { result ≡ misfit_of (tables_in self.old) effect }
        ensures room { (n : ℕ) → HasRoomForRows self.old (n + 1) → HasRoomForRows self.new n }
    {
        let Effect { key, change } = effect;
        if let Change::Insert(row) = change {
            if self.put_new(key, row) {
                return None;
            }
            return Some(MisfitKind::RowThere);
        }
        self.change_row(&key, &change)
    }
}
