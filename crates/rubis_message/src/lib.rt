//! Messages, tokens and requests, and their records.
#![tactic(auto)]

mod answers;
mod faults;
mod inputs;
mod kinds;
mod laws;
mod messages;
mod packets;
mod readers;
mod requests;
mod row_writers;
mod stamps;
mod tokens;
mod words;
mod world_inputs;
mod writers;

pub use answers::{Arrival, Happened, Kind, Taken, Verdict};
pub use faults::ReadFault;
pub use inputs::{Input, read_input};
pub use kinds::RecordKind;
pub use laws::{records_are_read_as_written, records_have_one_reading};
pub use messages::Message;
pub use packets::read_packet;
pub use requests::{Request, read_request};
pub use row_writers::{MESSAGE_ROOM, TOKEN_ROOM, put_message, put_token};
pub use tokens::{Packet, Token};
pub use words::Shown;
pub use world_inputs::{WorldInput, read_world_input};
pub use writers::{append_message, write_message, write_token};
