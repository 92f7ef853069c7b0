//! What parts are folded on.

ghost use Rattle.std.specs.Prelude.{◌≡◌, ℕ, ◌+◌, [], OnOk};
ghost use Rattle.rubis_model.specs.Log.{step};
ghost use Rattle.rubis_shard.specs.Rows.{tables_in};
ghost use Rattle.rubis_shard.specs.States.{held_by, HasRoom};
ghost use Rattle.std.specs.FinMap as map;

use crate::entries::LogEntry;
use crate::row_map::Rows;
use crate::shard_store::Store;
use rubis_schema::{Hashes, IdTable};
use rubis_shadow::{Effect, Misfit, Numbered};
use std::alloc::{AllocError, Global};

// For how many parts a store makes room at a time, so that it seldom has to.
const PARTS_AT_A_TIME: usize = 64;

impl Store {
    /// No rows and no misfits.
    pub fn new(alloc: Global, hashes: Hashes) -> Store
        ensures { held_by result ≡ record { tables = map.from_entries []; misfits = [] } }
    {
        Store::of(alloc, Rows::new(alloc, hashes))
    }

    /// These rows and no misfits.
    pub fn of(alloc: Global, rows: Rows) -> Store
        ensures { held_by result ≡ record { tables = tables_in rows; misfits = [] } }
    {
        Store {
            rows,
            misfits: Vec::new(alloc),
            spare: 0,
        }
    }

    /// Makes room for `parts` more parts.
    #[inline(always)]
    pub fn make_room(&mut self, parts: usize) -> Result<(), AllocError>
        ensures same { held_by self.new ≡ held_by self.old }
        ensures room { OnOk result (HasRoom self.new parts) }
    {
        if parts <= self.spare {
            return Ok(());
        }
        self.make_more_room(parts)
    }

    // Makes room for many parts, or at least for `parts` where there isn't memory for many.
    #[inline(never)]
    fn make_more_room(&mut self, parts: usize) -> Result<(), AllocError>
        ensures same { held_by self.new ≡ held_by self.old }
        ensures room { OnOk result (HasRoom self.new parts) }
    {
        match self.reserve(parts.max(PARTS_AT_A_TIME)) {
            Ok(()) => Ok(()),
            Err(_) => self.reserve(parts),
        }
    }

    // Makes room for `parts` parts, and counts it. When out of memory, no room is counted.
    fn reserve(&mut self, parts: usize) -> Result<(), AllocError>
        ensures same { held_by self.new ≡ held_by self.old }
        ensures room { OnOk result (HasRoom self.new parts) }
    {
        self.spare = 0;
        self.rows.make_room(parts)?;
        self.misfits.reserve(parts)?;
        self.spare = parts;
        Ok(())
    }

    /// Links the rows that came since the last call into their chains, in the map that has the table's.
    pub fn link_rows(&mut self, table: IdTable) -> Result<(), AllocError>
        ensures { held_by self.new ≡ held_by self.old }
    {
        self.rows.link(table)
    }

    /// Folds part number `part` of an entry on, from 1, for which there is room.
    #[inline(always)]
    pub fn fold_part(&mut self, entry: &LogEntry<'_>, part: u8, effect: Effect)
        requires { HasRoom self.old 1 }
        ensures folded { held_by self.new ≡ step (held_by self.old)
            (record { entry = entry.now.number; part = part; id = entry.now.id; effect = effect }) }
        ensures room { (n : ℕ) → HasRoom self.old (n + 1) → HasRoom self.new n }
    {
        self.fold(Numbered {
            entry: entry.number,
            part,
            id: entry.id,
            effect,
        });
    }

    /// Folds a part on, for which there is room.
    #[inline(always)]
    pub fn fold(&mut self, part: Numbered)
        requires { HasRoom self.old 1 }
        ensures folded { held_by self.new ≡ step (held_by self.old) part }
        ensures room { (n : ℕ) → HasRoom self.old (n + 1) → HasRoom self.new n }
    {
        let (entry, place, id) = (part.entry, part.part, part.id);
        self.spare -= 1;
        if let Some(kind) = self.rows.put_effect(part.into_effect()) {
            self.misfits.push_reserved(Misfit {
                entry,
                part: place,
                id,
                kind,
            });
        }
    }
}
