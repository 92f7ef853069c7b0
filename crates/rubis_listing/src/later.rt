//! The tables that come later in the listing of all tables.

ghost use Rattle.std.specs.Prelude.{◌≡◌, ◌+◌, ◌≤◌, ◌++◌, IfOk, length};
ghost use Rattle.rubis_schema.specs.declared.listings.Listing.TheVariants as Shown;
ghost use Rattle.rubis_shadow.specs.Tables.{rows_of};
ghost use Rattle.rubis_model.specs.Listings.{records_of};
ghost use Rattle.rubis_shard.specs.Holdings.{union};
ghost use Rattle.rubis_listing.specs.Parts.{following_table, later_rows, rows_of_later, rows_from};

use crate::listings::rows_in;
use crate::sources::Source;
use rubis_schema::{Listing, Table};
use rubis_shard::Tables;
use std::alloc::{AllocError, Global};

/// A table and those after it, in the listing of all tables.
#[derive(Clone, Copy)]
pub struct Later<'a> {
    pub tables: &'a Tables,
    pub first: Table,
}

// The table that is listed after another: nicknames are listed with their users.
fn after(table: Table) -> Option<Table>
    ensures { result ≡ following_table table }
{
    match table {
        Table::Users => Some(Table::Items),
        Table::Items => Some(Table::Bids),
        Table::Bids => Some(Table::Purchases),
        Table::Purchases => Some(Table::Comments),
        Table::Comments | Table::Nicks => Some(Table::Cats),
        Table::Cats => None,
    }
}

impl<'a> Later<'a> {
    /// Counts on with their rows.
    pub fn count(&self, counted: usize) -> usize
        requires { counted + length (rows_of_later self.now) ≤ 18446744073709551615 }
        ensures { result ≡ counted + length (rows_of_later self.now) }
    {
        self.tables.count_recorded(self.first, counted)
    }

    /// What the rows of the first of them are made of.
    pub fn source(&self, alloc: Global) -> Result<Source<'a>, AllocError>
        ensures { IfOk result (λ source. rows_from source 0 ≡ records_of Shown.Tables (rows_of self.now.first (union self.now.tables.now))) }
    {
        let rows = rows_in(alloc, self.first, &Listing::Tables, self.tables)?;
        Ok(Source::Rows(&Listing::Tables, rows))
    }

    /// Those after the first.
    pub fn next(&self) -> Option<Later<'a>>
        ensures { rows_of_later self.now ≡ records_of Shown.Tables (rows_of self.now.first (union self.now.tables.now)) ++ later_rows result }
    {
        match after(self.first) {
            Some(first) => Some(Later {
                tables: self.tables,
                first,
            }),
            None => None,
        }
    }
}
