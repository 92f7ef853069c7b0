//! What a record is to a site.

ghost use Rattle.std.specs.Prelude.{◌≡◌, ◌≤◌, IfOk};
ghost use Rattle.rubis_message.specs.Inputs.{IsInput};

use crate::faults::ReadFault;
use crate::readers::Reader;
use crate::requests::{Request, read_request};
use crate::tokens::Packet;
use crate::words::says;
use rubis_schema::{COUNTED_MAX, Record};
use std::alloc::{AllocError, Global};

/// What a record is to a site.
#[derive(Drop)]
pub enum Input {
    /// What another site sends.
    Came(Packet),
    /// What a user asks.
    Asked(Request),
    /// Neither.
    Neither,
}

// What a record is that isn't read: neither, if memory didn't run out.
fn unread(fault: ReadFault) -> Result<Input, AllocError>
    ensures { IfOk result (λ input. (input ≡ Input.Neither) × (fault ≡ ReadFault.BadRecord)) }
{
    match fault {
        ReadFault::BadRecord => Ok(Input::Neither),
        ReadFault::Memory => Err(AllocError),
    }
}

/// What a record is to one of `sites` sites. Its first field decides: one that says `msg` or `token` is read as a packet alone, and
/// any other as a request alone.
///
/// # Errors
///
/// If out of memory for a name or a text.
#[inline(always)]
pub fn read_input<F: Record>(alloc: Global, fields: &F, sites: u8) -> Result<Input, AllocError>
    requires { sites ≤ COUNTED_MAX }
    ensures { IfOk result (IsInput sites (F.fields fields.now)) }
{
    let mut reader = Reader::new(fields);
    let Ok(word) = reader.field() else {
        return Ok(Input::Neither);
    };
    if says(word, b"msg") {
        match reader.message_left(alloc, sites) {
            Ok(message) => Ok(Input::Came(Packet::Msg(message))),
            Err(fault) => unread(fault),
        }
    } else if says(word, b"token") {
        match reader.token_left(sites) {
            Ok(token) => Ok(Input::Came(Packet::Token(token))),
            Err(fault) => unread(fault),
        }
    } else {
        match read_request(alloc, fields, sites) {
            Ok(request) => Ok(Input::Asked(request)),
            Err(fault) => unread(fault),
        }
    }
}
