//! How many rows have a record.

ghost use Rattle.std.specs.Prelude.{◌≡◌, ◌+◌, ◌≤◌, ◌&&◌, IfSome, length};
ghost use Rattle.std.specs.FinMap as map;
ghost use Rattle.rubis_shard.specs.Listed.{has_record, is_recorded, number_of_table, recorded_from};
ghost use Rattle.rubis_shard.specs.Rows.{tables_in};
ghost use Rattle.rubis_shard.specs.Chains.{chain_written};

use crate::map_keys::MapKey;
use crate::row_map::Rows;
use crate::selections::has_record;
use indexmap::IndexMap;
use rubis_schema::{Row, RowKey, Table, table_number};
use std::hash::BuildHasher;

// The place of a table in the order of keys.
pub fn number_of(table: Table) -> u8
    ensures { result ≡ number_of_table table }
{
    match table {
        Table::Users => 0,
        Table::Items => 1,
        Table::Bids => 2,
        Table::Purchases => 3,
        Table::Comments => 4,
        Table::Nicks => 5,
        Table::Cats => 6,
    }
}

// Whether the row has a record, and its table is that of this number or comes later.
#[inline(always)]
fn is_counted(first: u8, key: &RowKey, row: &Row) -> bool
    ensures { result ≡ is_recorded first (key.now, row.now) }
{
    first <= table_number(key) && has_record(key, row)
}

// Counts on with those rows of a map that have a record, of the tables from that number on.
fn count_among<K: MapKey, S: BuildHasher>(
    all: &IndexMap<K, Row, S>,
    first: u8,
    counted: usize,
) -> usize
    requires { counted + length (recorded_from first (chain_written K.row_key all.now.entries)) ≤ 18446744073709551615 }
    ensures { result ≡ counted + length (recorded_from first (chain_written K.row_key all.now.entries)) }
{
    let mut count = counted;
    for (key, row) in all.iter() {
        let key = key.row_key();
        if is_counted(first, &key, row) {
            count += 1;
        }
    }
    count
}

/// Counts on with the rows that have a record, of the tables from that number on.
pub fn count_recorded(rows: &Rows, first: u8, counted: usize) -> usize
    requires { counted + length (recorded_from first (map.entries (tables_in rows.now))) ≤ 18446744073709551615 }
    ensures { result ≡ counted + length (recorded_from first (map.entries (tables_in rows.now))) }
{
    let _lens = rows.lens();
    let users = count_among(&rows.users.rows, first, counted);
    let others = count_among(&rows.others.rows, first, users);
    count_among(&rows.cats, first, others)
}

// The sum of two numbers, if it is one.
fn sum_of(a: usize, b: usize) -> Option<usize>
    ensures { IfSome result (λ sum. sum ≡ a + b) }
{
    a.checked_add(b)
}

/// A number that isn't less than these and those rows that have a record, if there is one.
pub fn most_recorded(rows: &Rows, most: usize) -> Option<usize>
    ensures { IfSome result (λ all. most + length (recorded_from 0 (map.entries (tables_in rows.now))) ≤ all) }
{
    let _lens = rows.lens();
    let Some(users) = sum_of(most, rows.users.rows.len()) else {
        return None;
    };
    let Some(others) = sum_of(users, rows.others.rows.len()) else {
        return None;
    };
    sum_of(others, rows.cats.len())
}
