//! The listings of the tables.

ghost use Rattle.std.specs.Prelude.{◌≡◌, ◌≤◌, ◌∷◌, ◌++◌, [], IfOk, OnOk, length, slice_range};
ghost use Rattle.rubis_schema.specs.declared.listings.Listing.TheVariants as Shown;
ghost use Rattle.rubis_shadow.specs.Tables.{rows_of};
ghost use Rattle.rubis_model.specs.Listings.{records_of, table_rows};
ghost use Rattle.rubis_shard.specs.Holdings.{union};
ghost use Rattle.rubis_listing.specs.Parts.{tables_of};

use crate::records::put_record;
use rubis_schema::{Fields, Id, IdTable, Items, Listing, Row, RowKey, RowSink, Table};
use rubis_shard::{ListedRow, Tables, has_record, selects};
use std::alloc::{AllocError, Global};

// Adds the row at a key, if it matches the listing and has a record.
fn put_row<S: RowSink>(
    sink: &mut S,
    record: &mut Fields,
    listing: &Listing,
    key: &RowKey,
    row: &Row,
) -> Result<(), AllocError>
    ensures { OnOk result (S.adds (records_of listing.now ((key.now, row.now) ∷ [])) sink.old sink.new) }
{
    if selects(listing, key, row) && put_record(record, key, row)? {
        sink.put(record)?;
    }
    Ok(())
}

// Adds those of some rows that match the listing.
pub fn put_rows<S: RowSink>(
    alloc: Global,
    sink: &mut S,
    listing: &Listing,
    rows: &[ListedRow<'_>],
) -> Result<(), AllocError>
    ensures { OnOk result (S.adds (records_of listing.now rows.now) sink.old sink.new) }
{
    let mut record = Fields::new(alloc);
    for row in rows {
        put_row(sink, &mut record, listing, &row.key(), row.row())?;
    }
    Ok(())
}

// Adds those of the rows from a place on, up to another, that match the listing.
pub fn put_rows_between<S: RowSink>(
    alloc: Global,
    sink: &mut S,
    listing: &Listing,
    rows: &[ListedRow<'_>],
    from: usize,
    upto: usize,
) -> Result<(), AllocError>
    requires from { from ≤ upto }
    requires upto { upto ≤ length rows.now }
    ensures { OnOk result (S.adds (records_of listing.now (slice_range rows.now from upto)) sink.old sink.new) }
{
    put_rows(alloc, sink, listing, &rows[from..upto])
}

// How many records the row at a key has in the listing: one or none.
fn count_row(listing: &Listing, key: &RowKey, row: &Row) -> usize
    ensures count { result ≡ length (records_of listing.now ((key.now, row.now) ∷ [])) }
    ensures one { result ≤ 1 }
{
    if selects(listing, key, row) && has_record(key, row) {
        1
    } else {
        0
    }
}

// How many of some rows match the listing and have a record.
pub fn count_rows(listing: &Listing, rows: &[ListedRow<'_>]) -> usize
    ensures { result ≡ length (records_of listing.now rows.now) }
{
    let mut count = 0;
    for row in rows {
        count += count_row(listing, &row.key(), row.row());
    }
    count
}

// The tables whose rows a listing shows, in the order of their keys.
fn tables_of(listing: &Listing) -> &'static [Table]
    ensures { result.now ≡ tables_of listing.now }
{
    match listing {
        Listing::Users => &[Table::Users],
        Listing::Items(_) => &[Table::Items],
        Listing::Bids(_) => &[Table::Bids],
        Listing::Purchases(_) => &[Table::Purchases],
        Listing::Comments(_) => &[Table::Comments],
        Listing::Categories => &[Table::Cats],
        Listing::Tables => &[
            Table::Users,
            Table::Items,
            Table::Bids,
            Table::Purchases,
            Table::Comments,
            Table::Cats,
        ],
        Listing::Log | Listing::Misfits => &[],
    }
}

// The rows of one table that a listing shows, and maybe others that have no record there, in key order. Of the categories only
// those are looked up that have a record, so that the others need not be put in order.
pub fn rows_in<'a>(
    alloc: Global,
    table: Table,
    listing: &Listing,
    tables: &'a Tables,
) -> Result<Vec<ListedRow<'a>>, AllocError>
    ensures { IfOk result (λ rows. records_of listing.now rows.items ≡ records_of listing.now (rows_of table (union tables.now))) }
{
    match table {
        Table::Users => tables.listed(alloc, IdTable::User, listing),
        Table::Items => tables.listed(alloc, IdTable::Item, listing),
        Table::Bids => tables.listed(alloc, IdTable::Bid, listing),
        Table::Purchases => tables.listed(alloc, IdTable::Purchase, listing),
        Table::Comments => tables.listed(alloc, IdTable::Comment, listing),
        Table::Nicks => Ok(Vec::new(alloc)),
        Table::Cats => tables.categories(alloc),
    }
}

// Some rows, and others after them.
fn with_rows<'a>(
    rows: Vec<ListedRow<'a>>,
    others: Vec<ListedRow<'a>>,
) -> Result<Vec<ListedRow<'a>>, AllocError>
    ensures { IfOk result (λ all. all.items ≡ rows.entry.items ++ others.entry.items) }
{
    if rows.is_empty() {
        return Ok(others);
    }
    let (mut all, mut others) = (rows, others);
    all.append(&mut others)?;
    Ok(all)
}

// The rows of all tables that a listing shows, and maybe others that have no record there, in key order.
pub fn rows_of_all<'a>(
    alloc: Global,
    listing: &Listing,
    tables: &'a Tables,
) -> Result<Vec<ListedRow<'a>>, AllocError>
    ensures { IfOk result (λ rows. records_of listing.now rows.items ≡ table_rows listing.now (union tables.now)) }
{
    let mut all = Vec::new(alloc);
    for table in tables_of(listing) {
        let rows = rows_in(alloc, *table, listing, tables)?;
        all = with_rows(all, rows)?;
    }
    Ok(all)
}

// Adds the rows of a listing of the tables.
fn put_listed<S: RowSink>(
    alloc: Global,
    sink: &mut S,
    listing: &Listing,
    tables: &Tables,
) -> Result<(), AllocError>
    ensures { OnOk result (S.adds (table_rows listing.now (union tables.now)) sink.old sink.new) }
{
    let shown = rows_of_all(alloc, listing, tables)?;
    put_rows(alloc, sink, listing, &shown)
}

// The rows of a listing of the tables as a list.
fn listed(alloc: Global, listing: Listing, tables: &Tables) -> Result<Items<Fields>, AllocError>
    ensures { IfOk result (λ rows. rows ≡ table_rows listing (union tables.now)) }
{
    let mut rows = Items::new(alloc);
    put_listed(alloc, &mut rows, &listing, tables)?;
    Ok(rows)
}

/// All users.
pub fn users(alloc: Global, tables: &Tables) -> Result<Items<Fields>, AllocError>
    ensures { IfOk result (λ rows. rows ≡ table_rows Shown.Users (union tables.now)) }
{
    listed(alloc, Listing::Users, tables)
}

/// The items of a category.
pub fn items(alloc: Global, tables: &Tables, cat: u16) -> Result<Items<Fields>, AllocError>
    ensures { IfOk result (λ rows. rows ≡ table_rows (Shown.Items cat) (union tables.now)) }
{
    listed(alloc, Listing::Items(cat), tables)
}

/// The bids on an item.
pub fn bids(alloc: Global, tables: &Tables, item: Id) -> Result<Items<Fields>, AllocError>
    ensures { IfOk result (λ rows. rows ≡ table_rows (Shown.Bids item) (union tables.now)) }
{
    listed(alloc, Listing::Bids(item), tables)
}

/// The purchases of an item.
pub fn purchases(alloc: Global, tables: &Tables, item: Id) -> Result<Items<Fields>, AllocError>
    ensures { IfOk result (λ rows. rows ≡ table_rows (Shown.Purchases item) (union tables.now)) }
{
    listed(alloc, Listing::Purchases(item), tables)
}

/// The comments to a user.
pub fn comments(alloc: Global, tables: &Tables, user: Id) -> Result<Items<Fields>, AllocError>
    ensures { IfOk result (λ rows. rows ≡ table_rows (Shown.Comments user) (union tables.now)) }
{
    listed(alloc, Listing::Comments(user), tables)
}

/// The categories that have items, or live ones.
pub fn categories(alloc: Global, tables: &Tables) -> Result<Items<Fields>, AllocError>
    ensures { IfOk result (λ rows. rows ≡ table_rows Shown.Categories (union tables.now)) }
{
    listed(alloc, Listing::Categories, tables)
}

/// All users, items, bids, purchases and comments, and the categories as `categories` lists them.
pub fn tables(alloc: Global, tables: &Tables) -> Result<Items<Fields>, AllocError>
    ensures { IfOk result (λ rows. rows ≡ table_rows Shown.Tables (union tables.now)) }
{
    listed(alloc, Listing::Tables, tables)
}

/// Adds the rows that `tables` lists, one after the other.
///
/// # Errors
///
/// `AllocError` if memory runs out: some of them may have been added.
pub fn list_tables<S: RowSink>(
    alloc: Global,
    sink: &mut S,
    tables: &Tables,
) -> Result<(), AllocError>
    ensures { OnOk result (S.adds (table_rows Shown.Tables (union tables.now)) sink.old sink.new) }
{
    put_listed(alloc, sink, &Listing::Tables, tables)
}
