//! The rows of one table of a shard.

ghost use Rattle.std.specs.Prelude.{◌≡◌, IfOk, map as each};
ghost use Rattle.rubis_schema.specs.declared.listings.Listing.TheVariants as Shown;
ghost use Rattle.rubis_shadow.specs.Tables.{rows_of};
ghost use Rattle.rubis_shard.specs.Listed.{listed_among};
ghost use Rattle.rubis_shard.specs.Rows.{entries_of, tables_in};
ghost use Rattle.rubis_shard.specs.Chains.{lent_row, chain_written};

use crate::map_keys::MapKey;
use crate::orders::put_rows_in_order;
use crate::row_map::Rows;
use indexmap::IndexMap;
use rubis_schema::{Row, RowKey, Table};
use std::alloc::{AllocError, Global};
use std::hash::BuildHasher;

// The rows of one table, looked for among all rows of a map.
fn rows_among<'a, K: MapKey, S: BuildHasher>(
    alloc: Global,
    all: &'a IndexMap<K, Row, S>,
    table: Table,
) -> Result<Vec<(RowKey, &'a Row)>, AllocError>
    ensures { IfOk result (λ rows. each lent_row rows.items ≡ listed_among Shown.Tables table (chain_written K.row_key all.now.entries)) }
{
    let mut rows = Vec::new(alloc);
    for (key, row) in all.iter() {
        let key = key.row_key();
        if table.holds(&key) {
            rows.reserve(1)?;
            rows.push_reserved((key, row));
        }
    }
    Ok(rows)
}

// The rows of one table, in any order, looked for in the map that has the table's.
fn rows_of_map<'a>(
    alloc: Global,
    rows: &'a Rows,
    table: Table,
) -> Result<Vec<(RowKey, &'a Row)>, AllocError>
    ensures { IfOk result (λ found. each lent_row found.items ≡ listed_among Shown.Tables table (entries_of rows.now)) }
{
    match table {
        Table::Nicks => rows_among(alloc, &rows.nicks, table),
        Table::Cats => rows_among(alloc, &rows.cats, table),
        Table::Users => rows_among(alloc, &rows.users.rows, table),
        _ => rows_among(alloc, &rows.others.rows, table),
    }
}

/// The rows of one table with their keys, in key order. Only these are sorted.
pub fn rows_in_order<'a>(
    alloc: Global,
    rows: &'a Rows,
    table: Table,
) -> Result<Vec<(RowKey, &'a Row)>, AllocError>
    ensures { IfOk result (λ found. each lent_row found.items ≡ rows_of table (tables_in rows.now)) }
{
    let _lens = rows.lens();
    let mut found = rows_of_map(alloc, rows, table)?;
    put_rows_in_order(alloc, &mut found)?;
    Ok(found)
}
