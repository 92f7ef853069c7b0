//! What a decision looks up in a set of tables.

ghost use Rattle.std.specs.Prelude.{◌≡◌, option_copied};
ghost use Rattle.std.specs.FinMap as map;
ghost use Rattle.rubis_schema.specs.Tables.{Tables};

use crate::row_keys::RowKey;
use crate::rows::Row;

/// A set of tables, as decisions and listings read it: a finite map from keys to rows.
pub trait View {
    ghost tables: { Self → Tables };

    /// The row at the key.
    fn row(&self, key: &RowKey) -> Option<&Row>
        ensures { option_copied result ≡ map.get (tables self.now) key.now };
}
