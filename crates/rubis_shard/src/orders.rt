//! Rows put into key order.

ghost use Rattle.std.specs.Prelude.{◌≡◌, OnOk, length, map as each};
ghost use Rattle.std.specs.List.Sorted.{IsPermutation, IsSortedByKey};
ghost use Rattle.rubis_schema.specs.Keys.{key_order};
ghost use Rattle.rubis_shard.specs.Chains.{lent_row};

use crate::listed_rows::ListedRow;
use rubis_schema::{Row, RowKey, key_cmp};
use std::alloc::{AllocError, Global};
use std::cmp::Ordering;

/// Puts the rows of a listing into key order. Rows that come as a few runs in order, such as those of shards, are merged.
pub fn put_in_order(alloc: Global, rows: &mut [ListedRow<'_>]) -> Result<(), AllocError>
    ensures permutation { IsPermutation rows.old rows.new }
    ensures sorted { OnOk result (IsSortedByKey (λ e. e.0) key_order rows.new) }
    ensures len { length rows.new ≡ length rows.old }
{
    rows.sort_by(
        alloc,
        |a: &ListedRow<'_>, b: &ListedRow<'_>| -> Ordering
            ensures { result ≡ key_order a.now.0 b.now.0 }
        { a.order(b) },
    )?;
    Ok(())
}

/// The same for rows with keys of any table.
pub fn put_rows_in_order<'a>(
    alloc: Global,
    rows: &mut [(RowKey, &'a Row)],
) -> Result<(), AllocError>
    ensures permutation { IsPermutation (each lent_row rows.old) (each lent_row rows.new) }
    ensures sorted { OnOk result (IsSortedByKey (λ e. e.0) key_order (each lent_row rows.new)) }
    ensures len { length rows.new ≡ length rows.old }
{
    rows.sort_by(
        alloc,
        |a: &(RowKey, &Row), b: &(RowKey, &Row)| -> Ordering
            ensures { result ≡ key_order a.now.0 b.now.0 }
        { key_cmp(&a.0, &b.0) },
    )?;
    Ok(())
}
