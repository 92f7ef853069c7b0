//! Messages that a run holds, to take them in together.

ghost use Rattle.std.specs.Prelude.{◌≡◌, ◌≤◌, ◌+◌, ◌++◌, ◌^◌, OnOk, length};
ghost use Rattle.rubis_engine.specs.Text.{rows_text};
ghost use Rattle.rubis_script.specs.Windows.{arrivals_rows};

use crate::replies::{write_arrival, write_refusal};
use rubis_engine::Sink;
use rubis_message::Arrival;
use rubis_replica::Config;
use rubis_schema::{PlainRow, Refusal};
use std::alloc::AllocError;

/// How many messages are taken in together, where they are read one by one: as many as a batch has. With one worker each is taken
/// in as it comes.
pub(crate) fn window_of(config: &Config) -> usize
    ensures { result ≤ config.now.batch }
{
    let batch = config.batch() as usize;
    if config.workers() > 1 { batch } else { 1 }
}

/// Says what became of messages that arrived together, the first of which is the record with that number.
pub(crate) fn write_arrivals(
    row: &mut PlainRow,
    sink: &mut Sink,
    first: u64,
    answers: &[Result<Arrival, Refusal>],
) -> Result<(), AllocError>
    requires { first + length answers.now ≤ 2 ^ 64 }
    ensures { OnOk result (sink.new ≡ sink.old ++ rows_text (arrivals_rows first answers.now)) }
{
    for (at, answer) in answers.iter().enumerate() {
        let number = first + at as u64;
        match answer {
            Ok(arrival) => write_arrival(row, sink, number, *arrival)?,
            Err(refusal) => write_refusal(row, sink, number, *refusal)?,
        }
    }
    Ok(())
}
