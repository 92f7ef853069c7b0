//! The text of rows, on its way to a writer.

ghost use Rattle.std.specs.Prelude.{◌≡◌, ◌<◌, ◌≤◌, ◌++◌, [], IfErr, IfSome, OnErr, OnOk, length, map, true};
ghost use Rattle.std.specs.Io.KnownBytes.{Appends};
ghost use Rattle.csv.specs.Writing.{row_text};
ghost use Rattle.rubis_schema.specs.FieldList.{all_plain};
ghost use Rattle.rubis_engine.specs.Progress.{AppendsFront, IsWrittenOrWaits};
ghost use Rattle.rubis_engine.specs.Rows.{plain_row, prefix_text};
ghost use Rattle.rubis_engine.specs.Text.{plain_writer};

use crate::fault::RunFault;
use crate::plain_sinks::PlainSink;
use crate::quoted_rows::QuotedRows;
use crate::streams::write_front;
use rubis_schema::{Fields, PlainRow, RowSink, SharedSink, is_plain, make_room, push_bytes};
use std::alloc::{AllocError, Global};
use std::io::Write;
use std::marker::Model;
use std::mem;

// How many bytes of text are written out at once.
const CHUNK: usize = 65_536;

/// The text of rows that waits to be written. It is emptied without giving its room back.
pub struct Sink {
    // What stands before the text, where a long text was added whole.
    before: Vec<u8>,
    text: Vec<u8>,
    // What wrote the last row with quotes.
    quoted: Option<QuotedRows>,
}

impl Drop for Sink {
    // Proved here, once: a derived drop is proved anew in each crate that lets a sink go.
    fn drop(self) {
        let Sink {
            before: _,
            text: _,
            quoted: _,
        } = self;
    }
}

impl Model for Sink {
    ghost use Rattle.std.specs.Prelude.{ℕ, List, ◌++◌};

    ghost Value = { List ℕ };

    ghost view = { λ s. s.before.items ++ s.text.items };
}

// Whether none of these fields calls for quotes.
fn are_plain(fields: &[&[u8]]) -> bool
    ensures { result ≡ all_plain (map (λ f. f.now) fields.now) }
{
    for field in fields {
        if !is_plain(field) {
            return false;
        }
    }
    true
}

// The fields of a record, each with a comma before it, if they make a plain row after those of `first`: if no field calls for
// quotes, and there is more than one.
fn plain_text<'a>(first: &[&[u8]], fields: &'a Fields) -> Option<&'a [u8]>
    ensures row { IfSome result (λ text. row_text plain_writer (map (λ f. f.now) first.now ++ fields.now) ≡ plain_row (map (λ f. f.now) first.now) text.now) }
    ensures some { IfSome result (λ text. 0 < length text.now) }
{
    if fields.len() < 2 || !are_plain(first) {
        return None;
    }
    fields.plain_text()
}

// Adds fields with a comma after each.
fn push_first(text: &mut Vec<u8>, first: &[&[u8]]) -> Result<(), AllocError>
    ensures { OnOk result (text.new.items ≡ text.old.items ++ prefix_text (map (λ f. f.now) first.now)) }
{
    for field in first {
        make_room(text, field.len() + 1)?;
        push_bytes(text, field);
        text.push_reserved(b',');
    }
    Ok(())
}

// Adds a plain row that begins with the fields `first`.
fn push_plain(text: &mut Vec<u8>, first: &[&[u8]], plain: &[u8]) -> Result<(), AllocError>
    requires { 0 < length plain.now }
    ensures { OnOk result (text.new.items ≡ text.old.items ++ plain_row (map (λ f. f.now) first.now) plain.now) }
{
    push_first(text, first)?;
    text.extend_from_slice(&plain[1..])?;
    text.push(b'\n')?;
    Ok(())
}

// Adds a row in which some field calls for quotes, by what is kept for such rows.
#[cold]
fn push_quoted(
    text: &mut Vec<u8>,
    kept: &mut Option<QuotedRows>,
    first: &[&[u8]],
    fields: &Fields,
) -> Result<(), AllocError>
    ensures { OnOk result (text.new.items ≡ text.old.items ++ row_text plain_writer (map (λ f. f.now) first.now ++ fields.now)) }
{
    let rows = match kept.take() {
        Some(rows) => rows,
        None => QuotedRows::new(*text.allocator())?,
    };
    *kept = rows.add_to(text, first, fields)?;
    Ok(())
}

// Adds two texts. Without memory for both nothing is added.
fn add_both(text: &mut Vec<u8>, first: &[u8], second: &[u8]) -> Result<(), AllocError>
    ensures ok { OnOk result (text.new.items ≡ text.old.items ++ (first.now ++ second.now)) }
    ensures err { OnErr result (text.new.items ≡ text.old.items) }
{
    text.reserve(first.len().saturating_add(second.len()))?;
    let (Ok(()), Ok(())) = (
        text.extend_from_slice(first),
        text.extend_from_slice(second),
    ) else {
        unreachable!()
    };
    Ok(())
}

// Writes a text out. Where the writer fails, a prefix of it was written.
fn write_text<W: Write>(writer: &mut W, text: &[u8]) -> Result<(), RunFault>
    ensures ok { OnOk result (Appends (W.contents writer.old) (W.contents writer.new) text.now) }
    ensures err { OnErr result (AppendsFront (W.contents writer.old) (W.contents writer.new) text.now) }
    ensures faults { IfErr result (λ e. e ≡ RunFault.Write) }
{
    match write_front(writer, text) {
        Ok(()) => Ok(()),
        Err(_) => Err(RunFault::Write),
    }
}

// Writes two texts out. Where the writer fails, a prefix of them was written.
fn write_both<W: Write>(writer: &mut W, first: &[u8], second: &[u8]) -> Result<(), RunFault>
    ensures ok { OnOk result (Appends (W.contents writer.old) (W.contents writer.new) (first.now ++ second.now)) }
    ensures err { OnErr result (AppendsFront (W.contents writer.old) (W.contents writer.new) (first.now ++ second.now)) }
    ensures faults { IfErr result (λ e. e ≡ RunFault.Write) }
{
    write_text(writer, first)?;
    write_text(writer, second)
}

impl Sink {
    /// No text. It takes no memory yet.
    pub fn new(alloc: Global) -> Sink
        ensures { result ≡ [] }
    {
        Sink {
            before: Vec::new(alloc),
            text: Vec::new(alloc),
            quoted: None,
        }
    }

    /// Adds a record as a row. Without memory for it no text is left.
    pub fn write_fields(&mut self, fields: &Fields) -> Result<(), AllocError>
        ensures ok { OnOk result (self.new ≡ self.old ++ row_text plain_writer fields.now) }
        ensures err { OnErr result (self.new ≡ []) }
    {
        self.write_after(&[], fields)
    }

    /// Adds a row of two fields or more that was made in place. Without memory for it no text is left.
    #[inline(always)]
    pub fn write_plain(&mut self, row: &PlainRow) -> Result<(), AllocError>
        requires { 2 ≤ length row.now.fields }
        ensures ok { OnOk result (self.new ≡ self.old ++ row_text plain_writer row.now.fields) }
        ensures err { OnErr result (self.new ≡ []) }
    {
        let fields = &row.text()[1..];
        if self.text.extend_from_slice(fields).is_err() || self.text.push(b'\n').is_err() {
            self.clear();
            return Err(AllocError);
        }
        Ok(())
    }

    /// Adds a row that begins with the fields `first` and goes on with those of a record. Without memory for it no
    /// text is left.
    pub fn write_after(&mut self, first: &[&[u8]], fields: &Fields) -> Result<(), AllocError>
        ensures ok { OnOk result (self.new ≡ self.old ++ row_text plain_writer (map (λ f. f.now) first.now ++ fields.now)) }
        ensures err { OnErr result (self.new ≡ []) }
    {
        let added = match plain_text(first, fields) {
            Some(text) => push_plain(&mut self.text, first, text),
            None => push_quoted(&mut self.text, &mut self.quoted, first, fields),
        };
        if added.is_err() {
            self.clear();
        }
        added
    }

    // No text is left, but for its room.
    fn clear(&mut self)
        ensures { self.new ≡ [] }
    {
        self.before.clear();
        self.text.clear();
    }

    /// Adds all text of another. Without memory for it the text stays as it was.
    pub fn add_text(&mut self, more: Sink) -> Result<(), AllocError>
        ensures ok { OnOk result (self.new ≡ self.old ++ more) }
        ensures err { OnErr result (self.new ≡ self.old) }
    {
        if self.before.is_empty() && more.before.is_empty() && more.is_full() {
            // So long a text isn't copied: it becomes this one's, after what was here.
            let Sink {
                before: _,
                text,
                quoted: _,
            } = more;
            self.before = mem::replace(&mut self.text, text);
            return Ok(());
        }
        add_both(&mut self.text, more.before.as_slice(), more.text.as_slice())
    }

    /// Another one, with no text.
    pub fn another(&self) -> Sink
        ensures { result ≡ [] }
    {
        Sink::new(*self.text.allocator())
    }

    /// Whether there is so much text, of 64 KiB or more, that it is time to write it out.
    pub fn is_full(&self) -> bool
        ensures { result ≡ true → 65536 ≤ length self.now }
    {
        self.text.len() >= CHUNK
    }

    /// Writes all text out, and is empty then.
    ///
    /// # Errors
    ///
    /// `Write` where the writer failed: it has a prefix of the text then.
    pub fn drain<W: Write>(&mut self, writer: &mut W) -> Result<(), RunFault>
        ensures ok { OnOk result (Appends (W.contents writer.old) (W.contents writer.new) self.old) }
        ensures empty { self.new ≡ [] }
        ensures err { OnErr result (AppendsFront (W.contents writer.old) (W.contents writer.new) self.old) }
        ensures faults { IfErr result (λ e. e ≡ RunFault.Write) }
    {
        let written = write_both(writer, self.before.as_slice(), self.text.as_slice());
        self.clear();
        written
    }

    /// Writes all text out where there is so much of it that it is time to, and is empty then: otherwise it waits on.
    ///
    /// # Errors
    ///
    /// `Write` where the writer failed: it has a prefix of the text then.
    pub fn drain_full<W: Write>(&mut self, writer: &mut W) -> Result<(), RunFault>
        ensures ok { OnOk result (IsWrittenOrWaits self.old self.new (W.contents writer.old) (W.contents writer.new)) }
        ensures err { OnErr result (AppendsFront (W.contents writer.old) (W.contents writer.new) self.old) }
        ensures faults { IfErr result (λ e. e ≡ RunFault.Write) }
    {
        if self.is_full() {
            return self.drain(writer);
        }
        Ok(())
    }

    /// Writes all text out, and flushes the writer.
    ///
    /// # Errors
    ///
    /// `Write` where the writer failed: it has a prefix of the text then.
    pub fn close<W: Write>(&mut self, writer: &mut W) -> Result<(), RunFault>
        ensures ok { OnOk result (Appends (W.contents writer.old) (W.contents writer.new) self.old) }
        ensures empty { self.new ≡ [] }
        ensures err { OnErr result (AppendsFront (W.contents writer.old) (W.contents writer.new) self.old) }
        ensures faults { IfErr result (λ e. e ≡ RunFault.Write) }
    {
        self.drain(writer)?;
        match writer.flush() {
            Ok(()) => Ok(()),
            Err(_) => Err(RunFault::Write),
        }
    }
}

impl RowSink for Sink {
    ghost use Rattle.std.specs.Prelude.{◌≡◌, ◌++◌};
    ghost use Rattle.rubis_engine.specs.Rows.{more_written, none_written};
    ghost use Rattle.rubis_engine.specs.Text.{rows_text};

    ghost adds = { λ rows old new. new ≡ old ++ rows_text rows };

    fn put(&mut self, row: &Fields) -> Result<(), AllocError> {
        self.write_fields(row)
    }

    ghost adds_none = { none_written };

    ghost adds_more = { more_written };
}

impl PlainSink for Sink {
    #[inline(always)]
    fn put_plain(&mut self, row: &mut PlainRow) -> Result<(), AllocError> {
        self.write_plain(row)
    }
}

impl SharedSink for Sink {
    ghost use Rattle.std.specs.Prelude.{◌≡◌};
    ghost use Rattle.rubis_engine.specs.Rows.{rows_held_more};
    ghost use Rattle.rubis_engine.specs.Text.{rows_text};

    ghost holds = { λ rows s. s ≡ rows_text rows };

    fn empty(alloc: Global) -> Sink {
        Sink::new(alloc)
    }

    fn append(&mut self, part: Sink) -> Result<(), AllocError> {
        self.add_text(part)
    }

    ghost holds_more = { rows_held_more };
}
