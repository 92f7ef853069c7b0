//! Lines that are written as rows are, without quotes: they are read by their commas.

ghost use Rattle.std.specs.Prelude.{◌≡◌, ◌≤◌, ◌++◌, ◌∷◌, [], IfOk, IfSome, drop, length, true};
ghost use Rattle.csv.specs.Writing.{row_text};
ghost use Rattle.rubis_engine.specs.Text.{input_records, plain_writer};

use crate::lines::MARK;
use rubis_schema::Fields;
use std::alloc::{AllocError, Global};

/// A text without its first byte.
pub(crate) fn behind_first(text: &[u8]) -> &[u8]
    ensures { result.now ≡ drop 1 text.now }
{
    if text.is_empty() { text } else { &text[1..] }
}

// What stands between the commas of a line.
fn split(alloc: Global, line: &[u8]) -> Result<Fields, AllocError> {
    let mut fields = Fields::new(alloc);
    let mut start = 0;
    for place in 0..line.len() {
        if line[place] == b',' {
            fields.push(&line[start..place])?;
            start = place + 1;
        }
    }
    fields.push(&line[start..])?;
    Ok(fields)
}

// Whether a line is what is written of these fields, of which there are two or more.
fn is_written(fields: &Fields, line: &[u8]) -> bool
    ensures { result ≡ true → (row_text plain_writer fields.now ≡ line.now ++ 10 ∷ []) × (2 ≤ length fields.now) }
{
    if fields.len() < 2 {
        return false;
    }
    match fields.plain_text() {
        Some(text) => behind_first(text) == line,
        None => false,
    }
}

/// The one record of a line, if it is written as a row of two fields or more is, without quotes.
pub(crate) fn read_plain(alloc: Global, line: &[u8]) -> Result<Option<Fields>, AllocError>
    ensures { IfOk result (λ found. IfSome found (λ fields. input_records (line.now ++ 10 ∷ []) ≡ fields ∷ [])) }
{
    if line.first() == Some(&MARK) {
        return Ok(None);
    }
    let fields = split(alloc, line)?;
    if is_written(&fields, line) {
        return Ok(Some(fields));
    }
    Ok(None)
}
