//! What a record says to the auditor.

ghost use Rattle.std.specs.Prelude.{◌≡◌, ◌≤◌, IfOk, option_map};
ghost use Rattle.rubis_schema.specs.declared.limits.TheConstants.{COUNTED_MAX};
ghost use Rattle.rubis_model.specs.AuditRecords.{line_of};
ghost use Rattle.rubis_audit.specs.Running.{IsAmongLine, begin_of, is_row, line_as};

use rubis_engine::InputRecord;
use rubis_message::{Message, Packet, ReadFault, read_packet};
use rubis_schema::{Record, read_number};
use std::alloc::{AllocError, Global};

/// What a record says.
#[derive(Drop)]
pub enum Line {
    /// A log of that site begins.
    Begin(u8),
    /// The next message of the log.
    Next(Message),
    /// One of the rows that the log claims: the record itself.
    Claim,
}

// The site whose log begins, if one does.
fn read_begin(fields: &InputRecord, sites: u8) -> Option<u8>
    ensures { result ≡ begin_of sites fields.now }
{
    if fields.len() != 2 {
        return None;
    }
    let word = fields.field(0)?;
    let site = fields.field(1)?;
    if word != b"site".as_slice() {
        return None;
    }
    let site = read_number(site, u64::from(u8::MAX))?;
    if site < u64::from(sites) {
        Some(site as u8)
    } else {
        None
    }
}

// Whether it is a row of tables.
fn is_row(fields: &InputRecord) -> bool
    ensures { result ≡ is_row fields.now }
{
    match fields.field(0) {
        Some(word) => word == b"row".as_slice(),
        None => false,
    }
}

/// What a record says, if anything.
///
/// # Errors
///
/// `AllocError` if memory runs out.
pub fn read_line(alloc: Global, fields: &InputRecord, sites: u8) -> Result<Option<Line>, AllocError>
    requires { sites ≤ COUNTED_MAX }
    ensures line { IfOk result (λ line. option_map (line_as fields.now) line ≡ line_of sites fields.now) }
    ensures among { IfOk result (IsAmongLine sites) }
{
    if let Some(site) = read_begin(fields, sites) {
        return Ok(Some(Line::Begin(site)));
    }
    if is_row(fields) {
        return Ok(Some(Line::Claim));
    }
    match read_packet(alloc, fields, sites) {
        Ok(Packet::Msg(message)) => Ok(Some(Line::Next(message))),
        Ok(Packet::Token(_)) => Ok(None),
        Err(ReadFault::BadRecord) => Ok(None),
        Err(ReadFault::Memory) => Err(AllocError),
    }
}
