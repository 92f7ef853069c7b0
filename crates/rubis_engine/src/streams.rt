//! Reads and writes that a signal may interrupt, and bytes that are written as far as the writer takes them.

ghost use Rattle.std.specs.Io.{ReadsAtMost, WritesAtMost};
ghost use Rattle.std.specs.Io.KnownBytes.{ReadConsumes, WriteAppends, Appends};
ghost use Rattle.std.specs.Prelude.{OnErr, OnOk};
ghost use Rattle.rubis_engine.specs.Progress.{AppendsFront};

use std::io;
use std::io::{ErrorKind, Read, Write};

// How often what a signal interrupted is done again.
const AGAIN: u32 = u32::MAX;

/// Reads once; what a signal interrupted is read again.
pub fn read_through_signals<R: Read>(reader: &mut R, buf: &mut [u8]) -> io::Result<usize>
    ensures bound { ReadsAtMost result buf.new }
    ensures bytes { ReadConsumes (R.remaining reader.old) (R.remaining reader.new) result buf.new }
{
    for _ in 0..AGAIN {
        match reader.read(buf) {
            Err(e) if e.kind() == ErrorKind::Interrupted => {}
            ended => return ended,
        }
    }
    reader.read(buf)
}

// Writes once; what a signal interrupted is written again.
fn write_through_signals<W: Write>(writer: &mut W, bytes: &[u8]) -> io::Result<usize>
    ensures bound { WritesAtMost result bytes.now }
    ensures bytes { WriteAppends (W.contents writer.old) (W.contents writer.new) result bytes.now }
{
    for _ in 0..AGAIN {
        match writer.write(bytes) {
            Err(e) if e.kind() == ErrorKind::Interrupted => {}
            ended => return ended,
        }
    }
    writer.write(bytes)
}

/// Writes these bytes. `write_all` says nothing of a writer that failed: here it has a prefix of them.
pub fn write_front<W: Write>(writer: &mut W, bytes: &[u8]) -> io::Result<()>
    ensures ok { OnOk result (Appends (W.contents writer.old) (W.contents writer.new) bytes.now) }
    ensures err { OnErr result (AppendsFront (W.contents writer.old) (W.contents writer.new) bytes.now) }
{
    let mut at = 0;
    'writes: while at < bytes.len() {
        let taken = write_through_signals(writer, &bytes[at..])?;
        if taken == 0 {
            return Err(io::Error::from(ErrorKind::WriteZero));
        }
        at += taken;
    }
    Ok(())
}
