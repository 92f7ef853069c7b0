//! The calls by which a run reads and writes. Each method here makes one of them and adds what came or went by it to a history: that the
//! two are the same is read, where no contract knows what the reader has or the writer holds.

ghost use Rattle.std.specs.Prelude.{◌≡◌, ◌++◌, ◌<◌, [], ℕ, List, IfOk, Some, false, length, true};
ghost use Rattle.std.specs.Borrow.{ftrue};
ghost use Rattle.std.specs.Io.{ReadsAtMost};
ghost use Rattle.std.specs.Io.KnownBytes.{ReadConsumes};

use crate::streams::read_through_signals;
use std::io;
use std::io::{Read, Write};
use std::marker::{Model, PhantomData};

/// The bytes that came or went so far. Only proofs read them, and they take no memory.
#[derive(Drop)]
pub struct ByteHistory {
    of: PhantomData<()>,
    pub ghost bytes: { List ℕ },
}

impl Model for ByteHistory {
    ghost also_owns = { λ _. ftrue };
}

impl ByteHistory {
    // None.
    fn new() -> ByteHistory
        ensures { result.bytes ≡ [] }
    {
        ByteHistory { of: PhantomData }
    }

    // These too. It does nothing.
    fn add(&mut self, _bytes: &[u8])
        ensures { self.new.bytes ≡ self.old.bytes ++ _bytes.now }
    {}
}

/// A reader, and what came from it. It isn't asked again once it gave nothing.
#[derive(Drop)]
pub struct Incoming<R> {
    reader: R,
    // Whether it gave nothing when it was asked.
    is_ended: bool,
    came: ByteHistory,
}

impl<R: Read> Incoming<R> {
    ghost use Rattle.rubis_engine.specs.Seam.{OfEach};

    /// Nothing came yet.
    pub fn new(reader: R) -> Incoming<R>
        ensures reader { result.reader ≡ reader }
        ensures none { result.came.bytes ≡ [] }
        ensures begun { result.is_ended ≡ false }
    {
        Incoming {
            reader,
            is_ended: false,
            came: ByteHistory::new(),
        }
    }

    /// Reads once; what a signal interrupted is read again.
    #[inline(always)]
    pub fn read(&mut self, buf: &mut [u8]) -> io::Result<usize>
        requires { 0 < length buf.old }
        ensures bound { ReadsAtMost result buf.new }
        ensures ended { IfOk result (λ n. n ≡ 0 → self.new.is_ended ≡ true) }
        ensures bytes { OfEach R.remaining self.old self.new (λ left. ReadConsumes (left self.old) (left self.new) result buf.new) }
    {
        if self.is_ended {
            return Ok(0);
        }
        let given = read_through_signals(&mut self.reader, buf)?;
        self.came.add(&buf[..given]);
        self.is_ended = given == 0;
        Ok(given)
    }
}

/// A writer, and what went to it.
#[derive(Drop)]
pub struct Outgoing<W> {
    writer: W,
    went: ByteHistory,
}

impl<W: Write> Outgoing<W> {
    /// Nothing went yet.
    pub fn new(writer: W) -> Outgoing<W>
        ensures { result.went.bytes ≡ [] }
    {
        Outgoing {
            writer,
            went: ByteHistory::new(),
        }
    }
}

impl<W: Write> Write for Outgoing<W> {
    ghost contents = { λ w. Some w.went.bytes };

    #[inline(always)]
    fn write(&mut self, buf: &[u8]) -> io::Result<usize> {
        let taken = self.writer.write(buf)?;
        self.went.add(&buf[..taken]);
        Ok(taken)
    }

    #[inline(always)]
    fn flush(&mut self) -> io::Result<()> {
        self.writer.flush()
    }
}
