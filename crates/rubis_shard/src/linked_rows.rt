//! The rows with ids of one map: entered, changed and linked.

ghost use Rattle.std.specs.Prelude.{◌≡◌, ◌+◌, ◌<◌, ◌≤◌, [], Some, None, is_none, cond, true, false, OnOk};
ghost use Rattle.indexmap.specs.IndexMap.{get, insert_entry, spare};
ghost use Rattle.rubis_schema.specs.Keys.{row_key, same_id_key};
ghost use Rattle.rubis_schema.specs.declared.id_keys.IdKey.{IdKey};
ghost use Rattle.rubis_schema.specs.declared.rows.Row.{Row};
ghost use Rattle.rubis_shadow.specs.Freed.{FreesOnlyNicks};
ghost use Rattle.rubis_shard.specs.Rows.{kept_of, linked_of, no_row, IsAltered};

use crate::chains::Chains;
use crate::map_rows::alter_in;
use crate::row_map::LinkedRows;
use indexmap::IndexMap;
use indexmap::map::Entry;
use rubis_schema::{IdKey, KeyHashes, Row};
use rubis_shadow::{Change, Fate};
use std::alloc::{AllocError, Global};

impl LinkedRows {
    /// No rows.
    pub fn new(alloc: Global, hashes: KeyHashes) -> LinkedRows
        ensures { result.rows.entries ≡ [] }
    {
        LinkedRows {
            rows: IndexMap::with_hasher(alloc, hashes),
            chains: Chains::new(alloc, hashes),
        }
    }

    /// Makes room for n rows more.
    pub fn make_room(&mut self, n: usize) -> Result<(), AllocError>
        ensures same { self.new.rows.entries ≡ self.old.rows.entries }
        ensures room { OnOk result (n ≤ spare self.new.rows) }
    {
        self.rows.reserve(n)
    }

    /// Links the rows after those that are linked, so that a listing needn't look at each of them. When out of memory, some
    /// of them may be linked.
    pub fn link(&mut self) -> Result<(), AllocError>
        ensures same { self.new.rows ≡ self.old.rows }
        ensures all { OnOk result (linked_of self.new ≡ kept_of self.new) }
    {
        self.chains.link(&self.rows)
    }

    /// Puts the row at the key where none is there, and says whether it did: it looks for the key only once. There is room for it.
    #[inline(always)]
    pub fn put(&mut self, key: IdKey, row: Row) -> bool
        requires { 0 < spare self.old.rows }
        ensures free { result ≡ is_none (get same_id_key self.old.rows key) }
        ensures put { result ≡ true → self.new.rows.entries ≡ insert_entry same_id_key self.old.rows.entries key row }
        ensures found { result ≡ true → (q : IdKey) → get same_id_key self.new.rows q ≡ cond (same_id_key key q) (Some row) (get same_id_key self.old.rows q) }
        ensures same { result ≡ false → self.new.rows.entries ≡ self.old.rows.entries }
        ensures room { spare self.old.rows ≤ spare self.new.rows + 1 }
    {
        let Ok(entry) = self.rows.entry(key) else {
            unreachable!()
        };
        match entry {
            Entry::Occupied(_) => false,
            Entry::Vacant(vacant) => {
                vacant.insert(row);
                true
            }
        }
    }

    /// Changes the row at the key where it stands, if there is one. No row is removed, so that the rows stay linked.
    #[inline(always)]
    pub fn alter(&mut self, key: &IdKey, change: &Change) -> Fate
        requires { FreesOnlyNicks (row_key key.now) change.now }
        ensures none { get same_id_key self.old.rows key.now ≡ None → (self.new.rows.entries ≡ self.old.rows.entries) × (result ≡ no_row) }
        ensures some { (was : Row) → get same_id_key self.old.rows key.now ≡ Some was
            → IsAltered same_id_key self.old.rows.entries self.new.rows.entries key.now change.now was result }
        ensures room { spare self.new.rows ≡ spare self.old.rows }
    {
        alter_in(&mut self.rows, key, change)
    }
}
