//! Tables as rows in order, listed.

ghost use Rattle.std.specs.Prelude.{◌≡◌, IfOk, OnOk, length, map as each};
ghost use Rattle.std.specs.FinMap as map;
ghost use Rattle.std.specs.List.Sorted.{IsPermutation, IsSortedByKey};
ghost use Rattle.std.specs.Map.Iter.{deref_pair};
ghost use Rattle.rubis_schema.specs.Keys.{key_order};
ghost use Rattle.rubis_shadow.specs.Tables.{rows_of};

use indexmap::IndexMap;
use rubis_schema::{Row, RowKey, Table, key_cmp};
use std::alloc::{AllocError, Global};
use std::cmp::Ordering;

/// Puts rows into key order. Rows that come as a few runs in order, such as those of shards, are merged.
pub fn put_in_order<'a>(alloc: Global, rows: &mut [(&'a RowKey, &'a Row)]) -> Result<(), AllocError>
    ensures permutation { IsPermutation (each deref_pair rows.old) (each deref_pair rows.new) }
    ensures sorted { OnOk result (IsSortedByKey (λ e. e.0) key_order (each deref_pair rows.new)) }
    ensures len { length rows.new ≡ length rows.old }
{
    rows.sort_by(
        alloc,
        |a: &(&RowKey, &Row), b: &(&RowKey, &Row)| -> Ordering
            ensures { result ≡ key_order a.now.0.now b.now.0.now }
        { key_cmp(a.0, b.0) },
    )?;
    Ok(())
}

/// The rows of one table with their keys, in key order, of a map of rows.
pub fn rows_in_order<'a>(
    alloc: Global,
    all: &'a IndexMap<RowKey, Row>,
    table: Table,
) -> Result<Vec<(&'a RowKey, &'a Row)>, AllocError>
    ensures { IfOk result (λ rows. each deref_pair rows.items ≡ rows_of table (map.from_entries all.now.entries)) }
{
    let mut rows = Vec::new(alloc);
    for (key, row) in all.iter() {
        if table.holds(key) {
            rows.push((key, row))?;
        }
    }
    put_in_order(alloc, &mut rows)?;
    Ok(rows)
}
