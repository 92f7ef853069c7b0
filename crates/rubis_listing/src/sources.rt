//! What the rows of a listing are made of.

ghost use Rattle.std.specs.Prelude.{◌≡◌, ◌≤◌, OnOk, length};
ghost use Rattle.rubis_listing.specs.Parts.{between, rows_from, size_of};

use crate::listings::{count_rows, put_rows_between};
use crate::logs::{put_entries, put_misfits};
use rubis_message::Message;
use rubis_schema::{Listing, RowSink};
use rubis_shadow::Misfit;
use rubis_shard::ListedRow;
use std::alloc::{AllocError, Global};

/// What the rows of a listing are made of, in order.
#[derive(Drop)]
pub enum Source<'a> {
    /// Rows of tables, with their keys: those that match the listing, and have a record.
    Rows(&'a Listing, Vec<ListedRow<'a>>),
    /// The messages of a log, which are its entries from 1.
    Log(&'a [Message]),
    Misfits(Vec<Misfit>),
}

impl<'a> Source<'a> {
    /// How many there are to make rows of.
    pub fn len(&self) -> usize
        ensures { result ≡ size_of self.now }
    {
        match self {
            Source::Rows(_, rows) => rows.len(),
            Source::Log(log) => log.len(),
            Source::Misfits(misfits) => misfits.len(),
        }
    }

    /// How many rows are made of those from a place on.
    pub fn count(&self, from: usize) -> usize
        requires { from ≤ size_of self.now }
        ensures { result ≡ length (rows_from self.now from) }
    {
        match self {
            Source::Rows(listing, rows) => count_rows(listing, &rows[from..rows.len()]),
            Source::Log(log) => log.len() - from,
            Source::Misfits(misfits) => misfits.len() - from,
        }
    }

    /// Adds the rows that are made of those from a place on, up to another.
    pub fn put<S: RowSink>(
        &self,
        alloc: Global,
        sink: &mut S,
        from: usize,
        upto: usize,
    ) -> Result<(), AllocError>
        requires from { from ≤ upto }
        requires upto { upto ≤ size_of self.now }
        ensures { OnOk result (S.adds (between self.now from upto) sink.old sink.new) }
    {
        match self {
            Source::Rows(listing, rows) => {
                put_rows_between(alloc, sink, listing, rows, from, upto)
            }
            Source::Log(log) => put_entries(alloc, sink, log, from, upto),
            Source::Misfits(misfits) => put_misfits(alloc, sink, &misfits[from..upto]),
        }
    }
}
