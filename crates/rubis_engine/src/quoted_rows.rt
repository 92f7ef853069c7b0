//! Rows in which some field may need quotes, written by `csv`.

ghost use Rattle.std.specs.Prelude.{◌≡◌, ◌++◌, ◌∷◌, [], ℕ, List, OnOk, false, map};
ghost use Rattle.csv.specs.Writing.{fields_written, has_written, row_text, writer_setup, writer_under};
ghost use Rattle.rubis_engine.specs.Rows.{HasBegunRow, IsBetweenRows, held};
ghost use Rattle.rubis_engine.specs.Text.{plain_writer};

use csv::{Writer, WriterBuilder};
use rubis_schema::{Boxed, Fields};
use std::alloc::{AllocError, Global};

// A writer that holds at least this many bytes of text isn't used again.
const MUCH: usize = 65_536;

// Appends one field to the current row.
fn put_field(rows: &mut Writer<Vec<u8>>, field: &[u8]) -> Result<(), AllocError>
    ensures { OnOk result ((start : List ℕ) (done : List (List ℕ)) → HasBegunRow start rows.old done → HasBegunRow start rows.new (done ++ field.now ∷ [])) }
{
    if rows.write_field(field).is_err() {
        return Err(AllocError);
    }
    Ok(())
}

// Appends these fields to the current row.
fn put_slices(rows: &mut Writer<Vec<u8>>, fields: &[&[u8]]) -> Result<(), AllocError>
    ensures { OnOk result ((start : List ℕ) (done : List (List ℕ)) → HasBegunRow start rows.old done
        → HasBegunRow start rows.new (done ++ map (λ f. f.now) fields.now)) }
{
    for field in fields {
        put_field(rows, field)?;
    }
    Ok(())
}

// Appends the fields of a record to the current row.
fn put_fields(rows: &mut Writer<Vec<u8>>, fields: &Fields) -> Result<(), AllocError>
    ensures { OnOk result ((start : List ℕ) (done : List (List ℕ)) → HasBegunRow start rows.old done → HasBegunRow start rows.new (done ++ fields.now)) }
{
    for place in 0..fields.len() {
        if let Some(field) = fields.field(place) {
            put_field(rows, field)?;
        }
    }
    Ok(())
}

// Ends a row.
fn end_row(rows: &mut Writer<Vec<u8>>) -> Result<(), AllocError>
    ensures text { OnOk result ((start : List ℕ) (done : List (List ℕ)) → HasBegunRow start rows.old done
        → held rows.new ≡ start ++ row_text plain_writer done) }
    ensures setup { OnOk result (writer_setup rows.new ≡ writer_setup rows.old) }
    ensures fields { OnOk result (fields_written rows.new ≡ 0) }
    ensures wrote { OnOk result (has_written rows.new ≡ false) }
{
    match rows.end_record() {
        Ok(()) => Ok(()),
        Err(_) => Err(AllocError),
    }
}

// Writes a row that begins with `first` and goes on with the fields of a record.
fn put_row(rows: &mut Writer<Vec<u8>>, first: &[&[u8]], fields: &Fields) -> Result<(), AllocError>
    ensures { OnOk result ((start : List ℕ) → HasBegunRow start rows.old []
        → (held rows.new ≡ start ++ row_text plain_writer (map (λ f. f.now) first.now ++ fields.now))
        × (writer_setup rows.new ≡ plain_writer) × (fields_written rows.new ≡ 0) × (has_written rows.new ≡ false)) }
{
    put_slices(rows, first)?;
    put_fields(rows, fields)?;
    end_row(rows)
}

// Writes a row and flushes it into the underlying text.
fn put_whole_row(
    rows: &mut Writer<Vec<u8>>,
    first: &[&[u8]],
    fields: &Fields,
) -> Result<(), AllocError>
    requires { IsBetweenRows rows.old }
    ensures text { OnOk result ((writer_under rows.new).items ≡ (writer_under rows.old).items ++ row_text plain_writer
        (map (λ f. f.now) first.now ++ fields.now)) }
    ensures between { OnOk result (IsBetweenRows rows.new) }
{
    put_row(rows, first, fields)?;
    match rows.flush() {
        Ok(()) => Ok(()),
        Err(_) => Err(AllocError),
    }
}

/// A writer for rows in which some field needs quotes, with the text of the rows that it wrote. It is reused from row to
/// row, since making a `csv` writer clears its large buffer.
#[derive(Drop)]
pub struct QuotedRows {
    rows: Boxed<Writer<Vec<u8>>>,
    ghost between: { IsBetweenRows rows },
}

impl QuotedRows {
    /// No row is written yet.
    #[cold]
    #[inline(never)]
    pub fn new(alloc: Global) -> Result<QuotedRows, AllocError> {
        let rows = WriterBuilder::new()
            .flexible(true)
            .from_writer(Vec::new(alloc));
        Ok(QuotedRows {
            rows: Boxed::new(alloc, rows)?,
        })
    }

    /// Appends to `text` a row that begins with the fields `first` and goes on with those of a record. Returns the writer for
    /// reuse, unless it holds `MUCH` bytes of text or more by now.
    pub fn add_to(
        self,
        text: &mut Vec<u8>,
        first: &[&[u8]],
        fields: &Fields,
    ) -> Result<Option<QuotedRows>, AllocError>
        ensures { OnOk result (text.new.items ≡ text.old.items ++ row_text plain_writer (map (λ f. f.now) first.now ++ fields.now)) }
    {
        let mut rows = self.rows;
        let start = rows.get_ref().len();
        put_whole_row(rows.get_mut(), first, fields)?;
        let written = rows.get_ref().as_slice();
        text.extend_from_slice(&written[start..])?;
        if written.len() < MUCH {
            Ok(Some(QuotedRows { rows }))
        } else {
            Ok(None)
        }
    }
}
