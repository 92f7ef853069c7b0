//! The rows of a listing, some at a time.

ghost use Rattle.std.specs.Prelude.{◌≡◌, [], IfOk, OnOk, false, length};
ghost use Rattle.rubis_schema.specs.declared.listings.Listing.TheVariants as Shown;
ghost use Rattle.rubis_model.specs.Listings.{log_rows, misfit_rows, table_rows};
ghost use Rattle.rubis_shard.specs.Holdings.{union};
ghost use Rattle.rubis_listing.specs.Parts.{AddsFirst, rows_from};

use crate::later::Later;
use crate::listings::rows_of_all;
use crate::shared::put_shared;
use crate::sources::Source;
use rubis_message::Message;
use rubis_schema::{Listing, SharedSink, Table};
use rubis_shadow::Misfit;
use rubis_shard::Tables;
use std::alloc::{AllocError, Global};
use std::marker::Model;
use std::thread::Threads;

// The rows of at most this many are made at a time by several threads, and by one: the text of more takes memory, and saves no time.
const SHARED_RANGE: usize = 16_384;

const RANGE: usize = 2_048;

/// The rows of a listing that are left to be made, in order. Contracts see these rows.
#[derive(Drop)]
pub struct ListingRows<'a> {
    source: Source<'a>,
    // The place of the first that is left.
    at: usize,
    // The tables whose rows come after these, in a listing of all tables.
    later: Option<Later<'a>>,
    // Whether several threads make them.
    is_shared: bool,
    alloc: Global,
}

impl<'a> Model for ListingRows<'a> {
    ghost use Rattle.std.specs.Prelude.{◌≤◌, ◌++◌, ℕ, List};
    ghost use Rattle.rubis_listing.specs.Parts.{later_rows, AreCountable, rows_from, size_of};

    ghost Value = { List (List (List ℕ)) };

    ghost view = { λ r. rows_from r.source r.at ++ later_rows r.later };

    ghost invariant = { λ r. (r.at ≤ size_of r.source) × AreCountable (rows_from r.source r.at) r.later };
}

impl<'a> ListingRows<'a> {
    // All rows that are made of these.
    fn of(alloc: Global, source: Source<'a>, is_shared: bool) -> ListingRows<'a>
        ensures { result ≡ rows_from source.entry 0 }
    {
        ListingRows {
            source,
            at: 0,
            later: None,
            is_shared,
            alloc,
        }
    }

    // Those of all tables. Where they can't be counted, there isn't memory for them either.
    fn of_all(
        alloc: Global,
        tables: &'a Tables,
        is_shared: bool,
    ) -> Result<ListingRows<'a>, AllocError>
        ensures { IfOk result (λ rows. rows ≡ table_rows Shown.Tables (union tables.now)) }
    {
        let Some(_most) = tables.most_recorded() else {
            return Err(AllocError);
        };
        Ok(ListingRows {
            source: Source::Log(&[]),
            at: 0,
            later: Some(Later {
                tables,
                first: Table::Users,
            }),
            is_shared,
            alloc,
        })
    }

    /// Those of a listing of the tables, in key order. A listing of the log or of misfits shows no rows of tables. If they are to be
    /// shared, as many threads as there are processors make them, where there are SHARED_MIN or more.
    pub fn of_tables(
        alloc: Global,
        listing: &'a Listing,
        tables: &'a Tables,
        is_shared: bool,
    ) -> Result<ListingRows<'a>, AllocError>
        ensures { IfOk result (λ rows. rows ≡ table_rows listing.now (union tables.now)) }
    {
        if let Listing::Tables = listing {
            return ListingRows::of_all(alloc, tables, is_shared);
        }
        let rows = rows_of_all(alloc, listing, tables)?;
        Ok(ListingRows::of(alloc, Source::Rows(listing, rows), is_shared))
    }

    /// Those of a log, in its order, with entries from 1; shared as those of tables.
    pub fn of_log(alloc: Global, log: &'a [Message], is_shared: bool) -> ListingRows<'a>
        ensures { result ≡ log_rows log.now }
    {
        ListingRows::of(alloc, Source::Log(log), is_shared)
    }

    /// Those of misfits, in their order; shared as those of tables.
    pub fn of_misfits(alloc: Global, misfits: Vec<Misfit>, is_shared: bool) -> ListingRows<'a>
        ensures { result ≡ misfit_rows misfits.items }
    {
        ListingRows::of(alloc, Source::Misfits(misfits), is_shared)
    }

    /// How many are left.
    pub fn count(&self) -> usize
        ensures { result ≡ length self.now }
    {
        let count = self.source.count(self.at);
        match &self.later {
            Some(later) => later.count(count),
            None => count,
        }
    }

    /// Adds the next of them, some thousands at most, and says whether there may be more.
    ///
    /// # Errors
    ///
    /// `AllocError` if memory runs out: some of them may have been added.
    pub fn put_next<S: SharedSink, R: Threads + Sync>(
        &mut self,
        rt: &R,
        sink: &mut S,
    ) -> Result<bool, AllocError>
        ensures next { OnOk result (AddsFirst S.adds self.old self.new sink.old sink.new) }
        ensures last { IfOk result (λ more. more ≡ false → self.new ≡ []) }
    {
        let end = self.source.len();
        let (threads, range) = if self.is_shared {
            (Some(rt), SHARED_RANGE)
        } else {
            (None, RANGE)
        };
        let upto = self.at + range.min(end - self.at);
        put_shared(threads, self.alloc, sink, &self.source, self.at, upto)?;
        self.at = upto;
        if upto < end {
            return Ok(true);
        }
        let Some(later) = self.later else {
            return Ok(false);
        };
        // The list of a table is let go before the next is made.
        self.source = Source::Log(&[]);
        self.at = 0;
        self.source = later.source(self.alloc)?;
        self.later = later.next();
        Ok(true)
    }

    /// Adds all of them.
    ///
    /// # Errors
    ///
    /// `AllocError` if memory runs out: some of them may have been added.
    pub fn put_all<S: SharedSink, R: Threads + Sync>(
        &mut self,
        rt: &R,
        sink: &mut S,
    ) -> Result<(), AllocError>
        ensures { OnOk result (S.adds self.old sink.old sink.new) }
    {
        'parts: for _ in 0..u64::MAX {
            if !self.put_next(rt, sink)? {
                return Ok(());
            }
        }
        Err(AllocError)
    }
}
