//! A row with its key, as a listing keeps it.

ghost use Rattle.std.specs.Prelude.{◌≡◌};
ghost use Rattle.rubis_schema.specs.Keys.{row_key, key_order};
ghost use Rattle.rubis_schema.specs.declared.row_keys.RowKey.TheVariants as key;
ghost use Rattle.rubis_shard.specs.Listed.{key_number, listed_with, place_of, IsListed};

use rubis_schema::{Id, IdKey, IdTable, Row, RowKey};
use std::cmp::Ordering;
use std::marker::Model;

/// One of the six tables whose rows listings show.
#[derive(Clone, Copy)]
pub enum ListedTable {
    User,
    Item,
    Bid,
    Purchase,
    Comment,
    Cat,
}

impl ListedTable {
    #[inline(always)]
    fn with_ids(table: IdTable) -> ListedTable
        ensures { result ≡ listed_with table }
    {
        match table {
            IdTable::User => ListedTable::User,
            IdTable::Item => ListedTable::Item,
            IdTable::Bid => ListedTable::Bid,
            IdTable::Purchase => ListedTable::Purchase,
            IdTable::Comment => ListedTable::Comment,
        }
    }

    // The place of the table among those that are listed.
    #[inline(always)]
    fn place(self) -> u64
        ensures { result ≡ place_of self }
    {
        match self {
            ListedTable::User => 0,
            ListedTable::Item => 1,
            ListedTable::Bid => 2,
            ListedTable::Purchase => 3,
            ListedTable::Comment => 4,
            ListedTable::Cat => 5,
        }
    }
}

/// A row that a listing shows, with its key, in sixteen bytes. Contracts see the key and the row.
#[derive(Drop)]
pub struct ListedRow<'a> {
    // The number of an id or of a category.
    number: u32,
    // The site of an id, and 0 for a category.
    site: u8,
    table: ListedTable,
    row: &'a Row,
}

impl<'a> Model for ListedRow<'a> {
    ghost use Rattle.rubis_schema.specs.declared.row_keys.RowKey.{RowKey};
    ghost use Rattle.rubis_schema.specs.declared.rows.Row.{Row};
    ghost use Rattle.rubis_shard.specs.Listed.{listed_key, FitsKey};

    ghost Value = { RowKey × Row };

    ghost view = { λ r. (listed_key r.table r.site r.number, r.row.now) };

    ghost invariant = { λ r. FitsKey r.table r.site r.number };
}

impl<'a> ListedRow<'a> {
    /// A row with an id.
    #[inline(always)]
    pub fn with_id(key: &IdKey, row: &'a Row) -> ListedRow<'a>
        ensures { result ≡ (row_key key.now, row.now) }
    {
        ListedRow {
            number: key.seq,
            site: key.site,
            table: ListedTable::with_ids(key.table),
            row,
        }
    }

    /// The row of a category.
    pub fn with_cat(cat: u16, row: &'a Row) -> ListedRow<'a>
        ensures { result ≡ (key.Cat cat, row.now) }
    {
        ListedRow {
            number: u32::from(cat),
            site: 0,
            table: ListedTable::Cat,
            row,
        }
    }

    /// The key.
    #[inline(always)]
    pub fn key(&self) -> RowKey
        ensures { result ≡ self.now.0 }
    {
        let id = Id {
            site: self.site,
            seq: self.number,
        };
        match self.table {
            ListedTable::User => RowKey::User(id),
            ListedTable::Item => RowKey::Item(id),
            ListedTable::Bid => RowKey::Bid(id),
            ListedTable::Purchase => RowKey::Purchase(id),
            ListedTable::Comment => RowKey::Comment(id),
            ListedTable::Cat => RowKey::Cat(self.number as u16),
        }
    }

    /// The row.
    #[inline(always)]
    pub fn row(&self) -> &'a Row
        ensures { result.now ≡ self.now.1 }
    {
        self.row
    }

    // The key as one number.
    #[inline(always)]
    fn key_number(&self) -> u64
        ensures number { result ≡ key_number self.now.0 }
        ensures listed { IsListed self.now.0 }
    {
        let table = self.table.place();
        table * (1 << 40) + u64::from(self.site) * (1 << 32) + u64::from(self.number)
    }

    /// The order of two rows by their keys.
    #[inline(always)]
    pub fn order(&self, other: &ListedRow<'_>) -> Ordering
        ensures { result ≡ key_order self.now.0 other.now.0 }
    {
        self.key_number().cmp(&other.key_number())
    }
}
