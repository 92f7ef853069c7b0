//! A source of chunks of text, each of whole records, over a reader.

ghost use Rattle.std.specs.Prelude.{◌≡◌, ◌≤◌, ◌<◌, ◌-◌, [], drop, false, length, take, true, IfOk};
ghost use Rattle.rubis_reading.specs.Streams.{EndsNoRecord, IsWhole, NoWholeAfter};
ghost use Rattle.rubis_engine.specs.Seam.{Lefts, OfEach};
ghost use Rattle.rubis_reading.specs.Chunked.{AreNew, AsksOn, ComesNearer, KeepsCome, TakesOff, held_text};

use crate::buffer::{Buffer, ChunkFault};
use crate::cuts::{Looked, look_for_end, whole_end};
use rubis_engine::{Incoming, Sink};
use std::alloc::Global;
use std::io::Read;

// Of fewer bytes it isn't known whether they begin with a byte order mark.
const MARKED: usize = 3;

/// The text of a reader, by chunks.
#[derive(Drop)]
pub struct Chunks<R> {
    reader: Incoming<R>,
    // What came from the reader and was not handed on. The byte that ends what was handed on stays as its first one, so no byte
    // order mark can stand there.
    held: Buffer,
    // How many bytes are asked for at a time.
    size: usize,
}

impl<R: Read + Drop> Chunks<R> {
    /// The text of this reader, of which at least `size` bytes are asked for at a time.
    pub fn new(alloc: Global, reader: R, size: usize) -> Chunks<R>
        ensures reader { result.reader.reader ≡ reader }
        ensures none { AreNew result }
    {
        Chunks {
            reader: Incoming::new(reader),
            held: Buffer::new(alloc),
            size,
        }
    }
}

impl<R: Read> Chunks<R> {
    /// The bytes that came and were not handed on.
    pub fn held(&self) -> &[u8]
        ensures { result.now ≡ held_text self.now }
    {
        self.held.bytes()
    }

    /// Asks the reader for more until a record ends in what is held, and says whether there was any. Where there was none the bytes that
    /// are held are the rest. No byte is looked at again when more come, however long a record is.
    ///
    /// A reader may wait for its next bytes until it has the answers to those before. So it is asked only where no record ends in what is
    /// held, and no answer waits in `answers`, the sink from which they are written.
    ///
    /// # Errors
    ///
    /// `Read` if the reader failed: what came is held. `Memory` if there is no room for more.
    pub fn fill(&mut self, _answers: &Sink) -> Result<bool, ChunkFault>
        requires none { EndsNoRecord (held_text self.old) }
        requires written { _answers.now ≡ [] }
        ensures more { IfOk result (λ more. more ≡ true → length (held_text self.old) < length (held_text self.new)) }
        ensures last { IfOk result (λ more. more ≡ false → self.new.reader.is_ended ≡ true) }
        ensures asked { OfEach R.remaining self.old.reader self.new.reader (λ left. AsksOn left self.old self.new result) }
    {
        let mut looked = Looked::none();
        'asks: loop {
            if !self.held.fill(&mut self.reader, self.size)? {
                return Ok(false);
            }
            let held = self.held.bytes();
            if held.len() < MARKED {
                return Ok(true);
            }
            looked = look_for_end(looked, held);
            if looked.ends() {
                return Ok(true);
            }
        }
    }

    /// How many of the bytes that are held are whole records: as many as lie within `most` bytes, if a record ends there.
    pub fn whole(&self, most: usize) -> usize
        ensures within { result ≤ length (held_text self.now) }
        ensures whole { 0 < result → IsWhole (take result (held_text self.now)) }
        ensures none { result ≤ 1 → NoWholeAfter (held_text self.now) 1 }
        ensures begun { result ≤ 1 → EndsNoRecord (held_text self.now) }
    {
        let held = self.held();
        let front = whole_end(&held[..most.min(held.len())]);
        if front > 1 { front } else { whole_end(held) }
    }

    /// Hands on that many bytes, which are whole records.
    pub fn pass(&mut self, many: usize)
        requires some { 0 < many }
        requires within { many ≤ length (held_text self.old) }
        requires whole { IsWhole (take many (held_text self.old)) }
        ensures reader { self.new.reader ≡ self.old.reader }
        ensures held { held_text self.new ≡ drop (many - 1) (held_text self.old) }
        ensures takes { (left : Lefts R) → TakesOff left self.old self.new (take many (held_text self.old)) }
        ensures come { (left : Lefts R) → KeepsCome left self.old self.new }
        ensures nearer { (left : Lefts R) → ComesNearer (many - 1) left self.old self.new }
    {
        self.held.pass(many - 1);
    }
}
