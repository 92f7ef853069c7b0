//! Rows that are counted on their way.

ghost use Rattle.std.specs.Prelude.{◌≡◌};

use crate::field_list::Fields;
use crate::row_sinks::{RowSink, SharedSink};
use std::alloc::{AllocError, Global};

/// A row sink and the number of rows it took, at most 2^64 - 1. One row more is refused as out of memory.
#[derive(Drop)]
pub struct Counted<S: Drop> {
    pub rows: S,
    pub count: u64,
}

impl<S: Drop> Counted<S> {
    /// None taken yet.
    pub fn new(rows: S) -> Counted<S>
        ensures rows { result.rows ≡ rows }
        ensures count { result.count ≡ 0 }
    {
        Counted { rows, count: 0 }
    }
}

impl<S: RowSink + Drop> RowSink for Counted<S> {
    ghost use Rattle.std.specs.Prelude.{◌≡◌, ◌+◌, length};
    ghost use Rattle.rubis_schema.specs.Tables.{counted_more, counted_none};

    ghost adds = { λ rows old new. S.adds rows old.rows new.rows × (new.count ≡ old.count + length rows) };

    fn put(&mut self, row: &Fields) -> Result<(), AllocError> {
        let Some(count) = self.count.checked_add(1) else {
            return Err(AllocError);
        };
        self.rows.put(row)?;
        self.count = count;
        Ok(())
    }

    ghost adds_none = { λ s. (S.adds_none s.rows, counted_none s.count) };

    ghost adds_more = { λ xs ys a b c f g. (S.adds_more xs ys a.rows b.rows c.rows f.0 g.0, counted_more xs ys a.count b.count c.count f.1 g.1) };
}

impl<S: SharedSink> SharedSink for Counted<S> {
    ghost use Rattle.std.specs.Prelude.{◌≡◌, length};
    ghost use Rattle.rubis_schema.specs.Tables.{count_held};

    ghost holds = { λ rows s. S.holds rows s.rows × (s.count ≡ length rows) };

    fn empty(alloc: Global) -> Counted<S> {
        Counted::new(S::empty(alloc))
    }

    fn append(&mut self, part: Counted<S>) -> Result<(), AllocError> {
        let Some(count) = self.count.checked_add(part.count) else {
            return Err(AllocError);
        };
        self.rows.append(part.rows)?;
        self.count = count;
        Ok(())
    }

    ghost holds_more = { λ xs ys a b h f. (S.holds_more xs ys a.rows b.rows h.0 f.0, count_held xs ys a.count b.count h.1 f.1) };
}
