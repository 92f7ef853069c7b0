//! The rows that answer a question.

ghost use Rattle.std.specs.Prelude.{◌≡◌, ◌∷◌, [], ℕ, List, IfOk, codes, decimal, length, true};
ghost use Rattle.rubis_schema.specs.FieldList.{is_plain};
ghost use Rattle.rubis_engine.specs.Text.{rows_text};
ghost use Rattle.rubis_keep.specs.Questions.{counted_rows, refused_as};

use rubis_engine::Sink;
use rubis_schema::{Counted, Fields, RowSink};
use std::alloc::{AllocError, Global};

/// One row.
pub(crate) fn row(alloc: Global, fields: &Fields) -> Result<Sink, AllocError>
    ensures { IfOk result (λ sink. sink ≡ rows_text (fields.now ∷ [])) }
{
    let mut sink = Sink::new(alloc);
    sink.put(fields)?;
    Ok(sink)
}

/// Refuses a question.
pub(crate) fn refuse(alloc: Global, reason: &[u8]) -> Result<Sink, AllocError>
    requires { is_plain reason.now ≡ true }
    ensures { IfOk result (λ sink. sink ≡ rows_text (refused_as reason.now)) }
{
    let mut fields = Fields::new(alloc);
    fields.push_plain(b"refused")?;
    fields.push_plain(reason)?;
    row(alloc, &fields)
}

/// Says how many rows there are.
pub(crate) fn show_count(alloc: Global, count: u64) -> Result<Sink, AllocError>
    ensures { IfOk result (λ sink. sink ≡ rows_text ((codes "rows" ∷ decimal count ∷ []) ∷ [])) }
{
    let mut fields = Fields::new(alloc);
    fields.push_plain(b"rows")?;
    fields.push_number(count)?;
    row(alloc, &fields)
}

/// Shows how many rows there are, and the rows.
pub(crate) fn show_counted(alloc: Global, listing: Counted<Sink>) -> Result<Sink, AllocError>
    ensures { IfOk result (λ sink. (rows : List (List (List ℕ))) → listing.rows ≡ rows_text rows → listing.count ≡ length rows
        → sink ≡ rows_text (counted_rows rows)) }
{
    let mut sink = show_count(alloc, listing.count)?;
    sink.add_text(listing.rows)?;
    Ok(sink)
}
