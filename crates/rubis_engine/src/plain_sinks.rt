//! What takes rows that are made in place.

ghost use Rattle.std.specs.Prelude.{◌≤◌, ◌∷◌, [], OnOk, length};
ghost use Rattle.rubis_engine.specs.declared.plain_sinks.TheConstants.{FRONT_ROOM};

use rubis_schema::{PlainRow, RowSink};
use std::alloc::AllocError;

/// The most bytes that a sink puts before a row, with a comma for each field.
pub const FRONT_ROOM: usize = 24;

/// A row sink that takes rows made in place, too: what answers are written to.
pub trait PlainSink: RowSink {
    /// Adds a row of two fields or more. It may have more fields in front afterwards.
    fn put_plain(&mut self, row: &mut PlainRow) -> Result<(), AllocError>
        requires some { 2 ≤ length row.old.fields }
        requires room { FRONT_ROOM ≤ row.old.left }
        ensures { OnOk result (Self.adds (row.old.fields ∷ []) self.old self.new) };
}
