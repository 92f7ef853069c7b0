//! The rows that a log claims, beside those of its messages.

ghost use Rattle.std.specs.Prelude.{◌≡◌, ◌↔◌, [], IfOk, IsTrue, Some, false, not, option_map};
ghost use Rattle.std.specs.Option.{option_map_or};
ghost use Rattle.rubis_schema.specs.declared.listings.Listing.TheVariants as Shown;
ghost use Rattle.rubis_model.specs.Listings.{table_rows};
ghost use Rattle.rubis_model.specs.Verdict.{same_rows};
ghost use Rattle.rubis_shard.specs.Holdings.{union};
ghost use Rattle.rubis_audit.specs.Claimed as model;

use crate::logs::Log;
use rubis_listing::list_tables;
use rubis_schema::{Fields, RowSink};
use rubis_shard::Tables;
use std::alloc::{AllocError, Global};

// Rows that are claimed, with which others are compared as they come.
#[derive(Drop)]
struct Claimed<'a> {
    // Those for which none has come, if each that came was the next of them.
    rest: Option<&'a [Fields]>,
}

// The claimed rows behind this one, if it is the first of them.
fn behind<'a>(claimed: &'a [Fields], row: &Fields) -> Option<&'a [Fields]>
    ensures { option_map (λ r. r.now) result ≡ model.behind_row row.now claimed.now }
{
    let Some((first, rest)) = claimed.split_first() else {
        return None;
    };
    if first.is_same(row) { Some(rest) } else { None }
}

impl<'a> RowSink for Claimed<'a> {
    ghost use Rattle.std.specs.Prelude.{◌≡◌};
    ghost use Rattle.rubis_audit.specs.Claimed.{behind_rows, rest_for_next};

    ghost adds = { λ rows old new. rest_for_next new ≡ behind_rows rows (rest_for_next old) };

    fn put(&mut self, row: &Fields) -> Result<(), AllocError> {
        let Some(claimed) = self.rest else {
            return Ok(());
        };
        self.rest = behind(claimed, row);
        Ok(())
    }

    ghost adds_none = { model.none_came };

    ghost adds_more = { model.more_came };
}

impl<'a> Claimed<'a> {
    // Whether all rows have come, and no others.
    fn is_done(&self) -> bool
        ensures { IsTrue result ↔ (model.rest_for_next self.now ≡ Some []) }
    {
        match self.rest {
            Some(rest) => rest.is_empty(),
            None => false,
        }
    }
}

/// Whether rows are claimed that aren't those of the tables.
pub fn wrong_rows(alloc: Global, log: &Log, shards: &Tables) -> Result<bool, AllocError>
    ensures { IfOk result (λ wrong. wrong ≡ option_map_or (λ rows. not (same_rows rows (table_rows Shown.Tables (union shards.now)))) log.now.rows false) }
{
    let Some(claimed) = log.rows() else {
        return Ok(false);
    };
    let mut rows = Claimed {
        rest: Some(claimed),
    };
    list_tables(alloc, &mut rows, shards)?;
    Ok(!rows.is_done())
}
