//! Records of tests and scenarios, and the requests and messages that they are.

ghost use Rattle.std.specs.Prelude.{◌≡◌, ◌≤◌, All, IfOk};
ghost use Rattle.rubis_schema.specs.declared.limits.TheConstants.{COUNTED_MAX};
ghost use Rattle.rubis_message.specs.Grammar.{IsRequest};
ghost use Rattle.rubis_message.specs.Message.{sites_of};

use rubis_message::{Message, Packet, ReadFault, Request, read_packet, read_request};
use rubis_schema::Fields;
use std::alloc::{AllocError, Global};

pub const ANN: &str = "msg,1,0,1,1,0:0,user,ann";

pub const BOB: &str = "msg,1,0,2,2,1:0,user,bob";

/// An item that user 0.1 offers.
pub const CUP: &str = "msg,1,0,3,0,2:0,item,0.1,cup,9,3,50,80";

/// A bid at the second of two sites, first before it has all red messages, and then after the sale is closed.
pub const LATE_BID: &[u8] = b"\
at,0,user,ann
at,0,user,bob
at,0,item,0.1,lamp,7,1,100,0
at,0,close,0.3,0.1
at,0,pass,1
deliver,1,1
deliver,1,2
deliver,1,3
deliver,1,5
at,1,bid,0.3,0.2,500
deliver,1,4
at,1,bid,0.3,0.2,500
audit
";

// The record of these fields, which have commas between them.
fn record(alloc: Global, text: &str) -> Result<Fields, AllocError> {
    let mut fields = Fields::new(alloc);
    for field in text.split(',') {
        fields.push(field.as_bytes())?;
    }
    Ok(fields)
}

/// The message written as `text`, to one of `sites` sites. Anything else than a message is a bad record.
pub fn message(alloc: Global, text: &str, sites: u8) -> Result<Message, ReadFault>
    requires { sites ≤ COUNTED_MAX }
    ensures { IfOk result (λ message. sites_of message ≡ sites) }
{
    match read_packet(alloc, &record(alloc, text)?, sites)? {
        Packet::Msg(message) => Ok(message),
        Packet::Token(_) => Err(ReadFault::BadRecord),
    }
}

/// The request written as `text`, to one of `sites` sites.
pub fn request(alloc: Global, text: &str, sites: u8) -> Result<Request, ReadFault>
    ensures { IfOk result (IsRequest sites) }
{
    read_request(alloc, &record(alloc, text)?, sites)
}

/// Messages to one of two sites.
#[derive(Drop)]
pub struct Window {
    pub messages: Vec<Message>,
    ghost two: { All (λ m. sites_of m ≡ 2) messages.items },
}

impl Window {
    /// A window with no message.
    pub fn new(alloc: Global) -> Window {
        let messages = Vec::new(alloc);
        Window { messages }
    }

    /// The messages written as `texts`.
    pub fn of(alloc: Global, texts: &[&str]) -> Result<Window, ReadFault> {
        let mut window = Window::new(alloc);
        for text in texts {
            window.push(alloc, text)?;
        }
        Ok(window)
    }

    /// Appends the message written as `text`.
    pub fn push(&mut self, alloc: Global, text: &str) -> Result<(), ReadFault> {
        let message = message(alloc, text, 2)?;
        Ok(self.messages.push(message).or(Err(AllocError))?)
    }
}
