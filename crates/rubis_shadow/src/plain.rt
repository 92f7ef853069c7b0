//! Tables as one plain map, folded shadow by shadow.

ghost use Rattle.std.specs.Prelude.{◌≡◌, IfOk, OnOk, OnErr, is_none, map as each};
ghost use Rattle.std.specs.Bool.{MatchBool};
ghost use Rattle.std.specs.FinMap as map;
ghost use Rattle.std.specs.Map.Iter.{deref_pair};
ghost use Rattle.rubis_schema.specs.Keys.{key_order};
ghost use Rattle.rubis_shadow.specs.Tables.{opening, rows_of};
ghost use Rattle.rubis_shadow.specs.Changes.{after_part, misfit_of};

use crate::changes::{Change, MisfitKind};
use crate::keyed_change::Effect;
use crate::listing::rows_in_order;
use indexmap::IndexMap;
use indexmap::map::Entry;
use rubis_schema::{CATEGORIES, CatRow, Row, RowKey, Table, View};
use std::alloc::{AllocError, Global};
use std::marker::Model;

/// The tables of a site in one map. Contracts see the finite map.
#[derive(Drop)]
pub struct PlainTables {
    rows: IndexMap<RowKey, Row>,
}

impl Model for PlainTables {
    ghost use Rattle.std.specs.FinMap as map;
    ghost use Rattle.rubis_schema.specs.Tables.{Tables};
    ghost use Rattle.rubis_schema.specs.contracts.row_keys.RowKey as key;
    ghost use Rattle.rubis_schema.specs.contracts.rows.Row as row;

    ghost Value = { Tables };

    ghost coded = { map.code key.the_row.coded row.the_row.coded };

    ghost view = { λ t. map.from_entries t.rows.entries };
}

// Puts the row at the key.
fn put_row(rows: &mut IndexMap<RowKey, Row>, key: RowKey, row: Row) -> Result<(), AllocError>
    ensures ok { OnOk result (map.from_entries {R = key_order} rows.new.entries ≡ map.insert (map.from_entries rows.old.entries) key row) }
    ensures err { OnErr result (rows.new.entries ≡ rows.old.entries) }
{
    rows.insert(key, row)?;
    Ok(())
}

// Puts the row at the key where none is there, and says whether it did.
#[tactic(auto, using(crate::proofs::Rows::tables_of_update))]
fn put_new(rows: &mut IndexMap<RowKey, Row>, key: RowKey, row: Row) -> Result<bool, AllocError>
    ensures free { IfOk result (λ put. put ≡ is_none (map.get (map.from_entries {R = key_order} rows.old.entries) key)) }
    ensures put { IfOk result (λ put. MatchBool put (map.from_entries {R = key_order} rows.new.entries ≡ map.insert
        (map.from_entries rows.old.entries) key row) (rows.new.entries ≡ rows.old.entries)) }
    ensures err { OnErr result (rows.new.entries ≡ rows.old.entries) }
{
    match rows.entry(key)? {
        Entry::Occupied(_) => Ok(false),
        Entry::Vacant(vacant) => {
            vacant.insert(row);
            Ok(true)
        }
    }
}

// Removes the row at the key.
#[tactic(auto, using(crate::proofs::Rows::tables_of_remove))]
fn remove_row(rows: &mut IndexMap<RowKey, Row>, key: &RowKey)
    ensures { map.from_entries {R = key_order} rows.new.entries ≡ map.remove (map.from_entries rows.old.entries) key.now }
{
    rows.swap_remove(key);
}

impl PlainTables {
    /// The tables before any message: the categories, without items.
    pub fn new(alloc: Global) -> Result<PlainTables, AllocError>
        ensures { IfOk result (λ tables. tables ≡ opening) }
    {
        let mut rows = IndexMap::new(alloc);
        for cat in (0..CATEGORIES).rev() {
            let row = Row::Cat(CatRow { items: 0, live: 0 });
            put_row(&mut rows, RowKey::Cat(cat), row)?;
        }
        Ok(PlainTables { rows })
    }

    /// The rows of one table with their keys, in key order.
    pub fn rows(&self, alloc: Global, table: Table) -> Result<Vec<(&RowKey, &Row)>, AllocError>
        ensures { IfOk result (λ rows. each deref_pair rows.items ≡ rows_of table self.now) }
    {
        rows_in_order(alloc, &self.rows, table)
    }

    /// Does one part: changes its row, or says why the part doesn't fit.
    pub fn apply(&mut self, effect: &Effect) -> Result<Option<MisfitKind>, AllocError>
        ensures tables { IfOk result (λ misfit. self.new ≡ after_part self.old effect.now) }
        ensures misfit { IfOk result (λ misfit. misfit ≡ misfit_of self.old effect.now) }
        ensures err { OnErr result (self.new ≡ self.old) }
    {
        if let Change::Insert(row) = &effect.change {
            if put_new(&mut self.rows, effect.key, row.copy()?)? {
                return Ok(None);
            }
            return Ok(Some(MisfitKind::RowThere));
        }
        let Some(row) = self.rows.get_mut(&effect.key) else {
            return Ok(Some(MisfitKind::NoRow));
        };
        let fate = effect.change.alter(row);
        if !fate.stays {
            remove_row(&mut self.rows, &effect.key);
            return Ok(fate.misfit);
        }
        Ok(fate.misfit)
    }
}

impl View for PlainTables {
    ghost tables = { λ t. t };

    fn row(&self, key: &RowKey) -> Option<&Row> {
        self.rows.get(key)
    }
}
