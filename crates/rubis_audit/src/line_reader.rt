//! The records of an input, and the lines in which they stand.

ghost use Rattle.std.specs.Prelude.{◌≡◌, ◌⊎◌, ◌≤◌, IfErr, IfOk, IfSome};
ghost use Rattle.rubis_engine.specs.Reading.{HasToGive, ReadsNext};
ghost use Rattle.rubis_engine.specs.Text.{input_records};
ghost use Rattle.rubis_audit.specs.Checking.{recent};

use crate::reasons::Lines;
use csv::{Reader, ReaderBuilder};
use rubis_engine::{InputRecord, RunFault};
use rubis_schema::Record;
use std::alloc::Global;
use std::io;
use std::io::Read;

// How many of the bytes before those that it gave last a reader still remembers: as many as tell whether a quote was closed.
const TAIL: usize = 4;

/// A reader that remembers the bytes that it gave last, and a few before them.
#[derive(Drop)]
pub struct Recent<R> {
    inner: R,
    last: Vec<u8>,
    // How many bytes it gave.
    given: u64,
    // Whether memory for what it gave was refused.
    is_refused: bool,
}

impl<R> Recent<R> {
    // Remembers these bytes, if there are any.
    fn remember(&mut self, bytes: &[u8])
        ensures { self.new.inner ≡ self.old.inner }
    {
        if bytes.is_empty() {
            return;
        }
        self.given = self.given.saturating_add(bytes.len() as u64);
        let old = self.last.len().saturating_sub(TAIL);
        self.last.drain(..old);
        if self.last.extend_from_slice(bytes).is_err() {
            self.is_refused = true;
        }
    }

    // The byte before the place `end` of all that it gave, if it remembers that.
    fn byte_before(&self, end: u64) -> Option<u8> {
        let first = self.given.saturating_sub(self.last.len() as u64);
        let place = end.checked_sub(1)?.checked_sub(first)?;
        self.last.get(place as usize).copied()
    }
}

impl<R: Read> Read for Recent<R> {
    ghost remaining = { recent R.remaining };

    fn read(&mut self, buf: &mut [u8]) -> io::Result<usize> {
        let given = self.inner.read(buf)?;
        self.remember(&buf[..given]);
        Ok(given)
    }
}

/// The records of a reader, each with any number of fields, and no header row. A byte order mark at the start is removed.
#[derive(Drop)]
pub struct LineReader<R> {
    reader: Reader<Recent<R>>,
    // The one that was read last.
    row: InputRecord,
    // The line in which the reader stood before it, and how many bytes it had read.
    before: u64,
    start: u64,
}

// How many line feeds there are.
fn line_feeds(bytes: &[u8]) -> u64 {
    bytes.iter().filter(|byte| **byte == b'\n').count() as u64
}

impl<R: Read> LineReader<R> {
    /// The records of this reader, before the first.
    pub fn new(alloc: Global, reader: R) -> LineReader<R>
        ensures { IfSome (R.remaining reader) (λ input. HasToGive (recent R.remaining) result.reader (input_records input)) }
    {
        let recent = Recent {
            inner: reader,
            last: Vec::new(alloc),
            given: 0,
            is_refused: false,
        };
        let reader = ReaderBuilder::new()
            .has_headers(false)
            .flexible(true)
            .from_reader(alloc, recent);
        LineReader {
            reader,
            row: InputRecord::new(alloc),
            before: 1,
            start: 0,
        }
    }

    /// Goes on to the next record, and says whether there was one.
    ///
    /// # Errors
    ///
    /// `Read` if the reader failed, and `Memory` if there wasn't enough memory for the record.
    pub fn advance(&mut self) -> Result<bool, RunFault>
        ensures takes { IfOk result (λ found. ReadsNext (recent R.remaining) self.old.reader self.new.reader found self.new.row) }
        ensures faults { IfErr result (λ e. (e ≡ RunFault.Read) ⊎ (e ≡ RunFault.Memory)) }
    {
        let position = self.reader.position();
        self.before = position.line();
        self.start = position.byte();
        let found = self.row.read_from(&mut self.reader)?;
        if self.reader.get_ref().is_refused {
            return Err(RunFault::Memory);
        }
        Ok(found)
    }

    /// The record that was read last.
    pub fn row(&self) -> &InputRecord
        ensures { result.now ≡ self.now.row }
    {
        &self.row
    }

    // How many line feeds stand in the fields from the place `first` up to `end`.
    fn feeds_in(&self, first: usize, end: usize) -> u64 {
        let mut feeds: u64 = 0;
        for place in first..end {
            if let Some(field) = self.row.field(place) {
                feeds = feeds.saturating_add(line_feeds(field));
            }
        }
        feeds
    }

    // The byte before the last `behind` that were read, if it is remembered.
    fn byte_behind(&self, behind: u64) -> Option<u8> {
        let end = self.reader.position().byte();
        self.reader.get_ref().byte_before(end.checked_sub(behind)?)
    }

    // Whether the last field, which ends in a line feed, is in a quote that was closed: then that quote and the line end of the
    // record follow the line feed. A quote that follows another byte belongs to the field; before a field that is a line feed
    // alone it opened the field, which is closed only if a second one of this record stands two bytes further.
    fn is_closed(&self, field: &[u8]) -> bool {
        if self.byte_behind(0) != Some(b'\n') {
            return true;
        }
        if self.byte_behind(1) != Some(b'"') || self.byte_behind(2) != Some(b'\n') {
            return false;
        }
        let read = self.reader.position().byte().saturating_sub(self.start);
        field.len() > 1 || (read > 3 && self.byte_behind(3) == Some(b'"'))
    }

    // Whether the last field is in a quote that the end of the input left open behind a line feed.
    fn is_left_open(&self) -> bool {
        match self.row.field(self.row.len().saturating_sub(1)) {
            Some(field) => field.last() == Some(&b'\n') && !self.is_closed(field),
            None => false,
        }
    }

    // The line in which the record that was read last begins.
    fn first_line(&self, is_left_open: bool) -> u64
        ensures { self.now.before ≤ result }
    {
        let end = self.reader.position();
        let is_ended = !is_left_open
            && self.reader.get_ref().byte_before(end.byte()) == Some(b'\n');
        end.line()
            .saturating_sub(self.feeds_in(0, self.row.len()))
            .saturating_sub(u64::from(is_ended))
            .max(self.before)
    }

    /// The line in which the record that was read last begins, and those in which the field with that number does and ends. A
    /// line is what ends in a line feed.
    pub fn lines(&self, field: usize) -> Lines
        ensures before { self.now.before ≤ result.first }
        ensures opened { result.first ≤ result.opened }
        ensures closed { result.opened ≤ result.closed }
    {
        let is_left_open = self.is_left_open();
        let first = self.first_line(is_left_open);
        let place = field.saturating_sub(1);
        let opened = first.saturating_add(self.feeds_in(0, place));
        let is_cut = is_left_open && field == self.row.len();
        let feeds = self
            .feeds_in(place, field)
            .saturating_sub(u64::from(is_cut));
        Lines {
            first,
            opened,
            closed: opened.saturating_add(feeds),
        }
    }
}
