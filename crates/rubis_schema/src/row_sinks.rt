//! What takes the rows of a listing.

ghost use Rattle.std.specs.Prelude.{◌≡◌, ◌++◌, ◌∷◌, [], ℕ, List, OnOk};

use crate::field_list::Fields;
use crate::lists::Items;
use std::alloc::{AllocError, Global};

/// What takes the rows of a listing, one after the other.
pub trait RowSink {
    /// What it comes to where these rows are added.
    ghost adds: { List (List (List ℕ)) → Self → Self → Type 0 };

    /// Adds a row.
    fn put(&mut self, row: &Fields) -> Result<(), AllocError>
        ensures { OnOk result (adds (row.now ∷ []) self.old self.new) };

    ghost adds_none: { (s : Self) → adds [] s s };

    ghost adds_more: { (xs ys : List (List (List ℕ))) (a b c : Self) → adds xs a b → adds ys b c → adds (xs ++ ys) a c };
}

/// A row sink that can be filled in parts, each by a thread of its own.
pub trait SharedSink: RowSink + Drop + Send {
    /// It has these rows, and no others.
    ghost holds: { List (List (List ℕ)) → Self → Type 0 };

    /// A sink with no rows.
    fn empty(alloc: Global) -> Self
        ensures { holds [] result };

    /// Adds the rows of another sink.
    fn append(&mut self, part: Self) -> Result<(), AllocError>
        ensures { OnOk result ((rows : List (List (List ℕ))) → holds rows part → Self.adds rows self.old self.new) };

    ghost holds_more: { (xs ys : List (List (List ℕ))) (a b : Self) → holds xs a → Self.adds ys a b → holds (xs ++ ys) b };
}

impl RowSink for Items<Fields> {
    ghost use Rattle.std.specs.Prelude.{◌≡◌, ◌++◌};
    ghost use Rattle.rubis_schema.specs.Tables.{added_more, added_none};

    ghost adds = { λ rows old new. new ≡ old ++ rows };

    fn put(&mut self, row: &Fields) -> Result<(), AllocError> {
        self.push(row.copy()?)?;
        Ok(())
    }

    ghost adds_none = { added_none };

    ghost adds_more = { added_more };
}

impl SharedSink for Items<Fields> {
    ghost use Rattle.std.specs.Prelude.{◌≡◌};
    ghost use Rattle.rubis_schema.specs.Tables.{held_more};

    ghost holds = { λ rows items. items ≡ rows };

    fn empty(alloc: Global) -> Items<Fields> {
        Items::new(alloc)
    }

    fn append(&mut self, part: Items<Fields>) -> Result<(), AllocError> {
        let rows: Vec<Fields> = part.into();
        for row in rows {
            self.push(row)?;
        }
        Ok(())
    }

    ghost holds_more = { held_more };
}
