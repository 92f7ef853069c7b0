//! What a run from bytes to bytes is made of: records that are read, a service that answers them, rows that are written.
#![tactic(auto)]

mod fault;
mod input_record;
mod lines;
mod plain_sinks;
mod quoted_rows;
mod record_list;
mod seam;
mod service;
mod sink;
mod streams;

pub use fault::{Count, OutOfMemory, RunFault};
pub use input_record::InputRecord;
pub use lines::sent_lines_are_read_as_sent;
pub use plain_sinks::{FRONT_ROOM, PlainSink};
pub use record_list::Records;
pub use seam::{ByteHistory, Incoming, Outgoing};
pub use service::{Course, Draft, Reply, Service};
pub use sink::Sink;
pub use streams::{read_through_signals, write_front};
