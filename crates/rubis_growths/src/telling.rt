//! What a scenario tells, and why it stops.

use rubis_message::ReadFault;
use rubis_schema::{Fields, Items};
use std::alloc::AllocError;
use std::io::Print;
use std::sync::Wait;
use std::thread::Threads;

/// What a scenario runs on: output, memory and threads.
pub trait Host: Print + AllocGlobal + Threads + Wait + Sync {}

impl<R: Print + AllocGlobal + Threads + Wait + Sync> Host for R {}

/// How often a scenario is run where memory is refused.
pub const TRIES: u32 = 3;

/// Why a scenario didn't come to its end.
#[derive(Clone, Copy)]
pub enum Stop {
    /// A call that changes nothing was refused memory: the scenario is to be run again.
    Refused,
    /// A call was refused memory in each try, or answered what it may not.
    GaveUp,
}

impl From<AllocError> for Stop {
    fn from(_: AllocError) -> Stop {
        Stop::Refused
    }
}

impl From<ReadFault> for Stop {
    fn from(_: ReadFault) -> Stop {
        Stop::Refused
    }
}

/// Tells what a call found, and whether what it may change is as it was. Lines of this kind begin with an exclamation mark.
pub fn tell_fault(rt: &impl Host, name: &str, fault: &str, same: bool) {
    let state = if same { "unchanged" } else { "changed" };
    let _ = println!(rt; "! {name}: {fault}, {state}");
}

/// Tells that a call was refused memory, and whether what it may change is as it was.
pub fn tell_refused(rt: &impl Host, name: &str, same: bool) {
    tell_fault(rt, name, "memory", same);
}

/// Tells the fields of a row, with commas between them.
pub fn tell_row(rt: &impl Host, row: &Fields) {
    for place in 0..row.len() {
        let comma: &[u8] = if place == 0 { b"" } else { b"," };
        let _ = rt.write_all(comma);
        let _ = rt.write_all(row.field(place).unwrap_or(b""));
    }
    let _ = rt.write_all(b"\n");
}

/// Tells the rows of a listing that record `number` asked for.
pub fn tell_rows(rt: &impl Host, number: u32, rows: &Items<Fields>) {
    let count = rows.len();
    let _ = println!(rt; "reply,{number},rows,{count}");
    for row in rows.as_slice() {
        tell_row(rt, row);
    }
}
