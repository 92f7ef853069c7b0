//! A desk writes the rows of a listing out while they are made.

ghost use Rattle.std.specs.Prelude.{◌++◌};
ghost use Rattle.rubis_engine.specs.Text.{rows_text};
ghost use Rattle.rubis_script.specs.Windows.{WritesFront, WritesOff};
ghost use Rattle.rubis_engine.specs.Progress.{ByEnd};

use rubis_engine::{RunFault, Sink};
use rubis_replica::ListingRows;
use std::io::Write;
use std::sync::Wait;
use std::thread::Threads;

/// Adds the rows of a listing that are left, and writes out what comes to much: at the end the last of the text waits in the sink.
///
/// # Errors
///
/// `Write` where the writer failed, and `Memory` if memory ran out: the first of the text was written then.
pub(crate) fn write_rows<T: Threads + Wait + Sync, W: Write>(
    rt: &T,
    rows: &mut ListingRows<'_>,
    sink: &mut Sink,
    writer: &mut W,
) -> Result<(), RunFault>
    ensures { let text = sink.old ++ rows_text rows.old in
        ByEnd result (λ _. WritesOff text sink.new (W.contents writer.old) (W.contents writer.new)) ⊥ ⊥
        (WritesFront text (W.contents writer.old) (W.contents writer.new)) }
{
    for _ in rt.forever() {
        let more = rows.put_next(rt, sink)?;
        sink.drain_full(writer)?;
        if !more {
            return Ok(());
        }
    }
    unreachable!()
}
