//! The rows of a shard that match a listing.

ghost use Rattle.std.specs.Prelude.{◌≡◌, ◌++◌, ◌&&◌, ◌∷◌, [], Some, IfOk, OnOk, drop};
ghost use Rattle.std.specs.List.Sorted.{IsPermutation};
ghost use Rattle.rubis_schema.specs.Keys.{row_key, holds};
ghost use Rattle.rubis_schema.specs.declared.row_keys.RowKey.TheVariants as key;
ghost use Rattle.rubis_model.specs.Listings.{is_of};
ghost use Rattle.rubis_shard.specs.Chains.{chain_with, chain_written};
ghost use Rattle.rubis_shard.specs.Listed.{categories_of, listed_among, listed_of, shown_among, shows, table_with};
ghost use Rattle.rubis_shard.specs.Rows.{kept_of, linked_of, tables_in};

use crate::chains::chain_with;
use crate::listed_rows::ListedRow;
use crate::row_map::{LinkedRows, Rows};
use crate::selections::selects;
use indexmap::IndexMap;
use rubis_schema::{IdKey, IdTable, Listing, Row};
use std::alloc::{AllocError, Global};

// Whether the key is one of the table's.
#[inline(always)]
fn is_in(table: IdTable, key: &IdKey) -> bool
    ensures { result ≡ holds (table_with table) (row_key key.now) }
{
    match (table, key.table) {
        (IdTable::User, IdTable::User) => true,
        (IdTable::Item, IdTable::Item) => true,
        (IdTable::Bid, IdTable::Bid) => true,
        (IdTable::Purchase, IdTable::Purchase) => true,
        (IdTable::Comment, IdTable::Comment) => true,
        _ => false,
    }
}

// Whether the row is one of the table's and matches the listing.
#[inline(always)]
fn picks(listing: &Listing, table: IdTable, key: &IdKey, row: &Row) -> bool
    ensures { result ≡ (is_of listing.now (row_key key.now) row.now && holds (table_with table) (row_key key.now)) }
{
    is_in(table, key) && selects(listing, &key.row_key(), row)
}

// For how many rows of a map to make room at once: a listing of all tables shows most of them, and any other finds few.
fn room_of(listing: &Listing, rows: usize) -> usize {
    match listing {
        Listing::Tables => rows,
        _ => 0,
    }
}

/// An empty list for the rows of a listing, with room at once if it shows most of the `rows` rows there are.
pub fn with_room<'a>(
    alloc: Global,
    listing: &Listing,
    rows: usize,
) -> Result<Vec<ListedRow<'a>>, AllocError>
    ensures { IfOk result (λ made. made.items ≡ []) }
{
    let mut made = Vec::new(alloc);
    made.reserve(room_of(listing, rows))?;
    Ok(made)
}

// Adds a row, if it is one of the table's and matches the listing.
#[inline(always)]
fn pick<'a>(
    picked: &mut Vec<ListedRow<'a>>,
    table: IdTable,
    listing: &Listing,
    key: &IdKey,
    row: &'a Row,
) -> Result<(), AllocError>
    ensures { OnOk result (picked.new.items ≡ picked.old.items ++ listed_among listing.now (table_with table) ((row_key key.now, row.now) ∷ [])) }
{
    if !picks(listing, table, key, row) {
        return Ok(());
    }
    picked.reserve(1)?;
    picked.push_reserved(ListedRow::with_id(key, row));
    Ok(())
}

// Adds the rows of one table that match the listing, among those of a map from a place on.
fn pick_from<'a>(
    picked: &mut Vec<ListedRow<'a>>,
    rows: &'a LinkedRows,
    from: usize,
    table: IdTable,
    listing: &Listing,
) -> Result<(), AllocError>
    ensures { OnOk result (picked.new.items ≡ picked.old.items ++ listed_among listing.now (table_with table) (drop from (kept_of rows.now))) }
{
    for at in from..rows.rows.len() {
        let Some((key, row)) = rows.rows.get_index(at) else {
            unreachable!()
        };
        pick(picked, table, listing, key, row)?;
    }
    Ok(())
}

// Adds those of the linked rows of one table that match the listing, found along the chain that has them, from its last row on.
fn pick_of_chain<'a>(
    picked: &mut Vec<ListedRow<'a>>,
    rows: &'a LinkedRows,
    chain: &IdKey,
    table: IdTable,
    listing: &Listing,
) -> Result<(), AllocError>
    requires { chain_with listing.now ≡ Some chain.now }
    ensures { OnOk result (IsPermutation (picked.old.items ++ listed_among listing.now (table_with table) (linked_of rows.now)) picked.new.items) }
{
    let mut place = rows.chains.last(chain);
    while place > 0 {
        let Some((key, row)) = rows.rows.get_index(place - 1) else {
            unreachable!()
        };
        pick(picked, table, listing, key, row)?;
        place = rows.chains.before(place - 1);
    }
    Ok(())
}

/// Adds the rows of one table that match the listing, in any order.
pub fn pick_rows<'a>(
    picked: &mut Vec<ListedRow<'a>>,
    rows: &'a Rows,
    table: IdTable,
    listing: &Listing,
) -> Result<(), AllocError>
    ensures { OnOk result (IsPermutation (picked.old.items ++ listed_of listing.now (table_with table) (tables_in rows.now)) picked.new.items) }
{
    let _lens = rows.lens();
    let kept = rows.with_table(table);
    match chain_with(listing) {
        Some(chain) => {
            pick_of_chain(picked, kept, &chain, table, listing)?;
            pick_from(picked, kept, kept.chains.len(), table, listing)
        }
        None => pick_from(picked, kept, 0, table, listing),
    }
}

// Whether listings show the row: they leave out a category with neither items nor live ones.
fn shows(row: &Row) -> bool
    ensures { result ≡ shows row.now }
{
    match row {
        Row::Cat(cat) => !cat.shows_nothing(),
        _ => true,
    }
}

// Adds the categories that listings show, in the order of their map.
fn pick_shown<'a>(
    picked: &mut Vec<ListedRow<'a>>,
    cats: &'a IndexMap<u16, Row>,
) -> Result<(), AllocError>
    ensures { OnOk result (picked.new.items ≡ picked.old.items ++ shown_among (chain_written key.Cat cats.now.entries)) }
{
    for (cat, row) in cats.iter() {
        if shows(row) {
            picked.reserve(1)?;
            picked.push_reserved(ListedRow::with_cat(*cat, row));
        }
    }
    Ok(())
}

/// Adds the categories that listings show, in any order.
pub fn pick_categories<'a>(
    picked: &mut Vec<ListedRow<'a>>,
    rows: &'a Rows,
) -> Result<(), AllocError>
    ensures { OnOk result (IsPermutation (picked.old.items ++ categories_of (tables_in rows.now)) picked.new.items) }
{
    let _lens = rows.lens();
    pick_shown(picked, &rows.cats)
}
