//! What a record is to several sites in one run.

ghost use Rattle.std.specs.Prelude.{◌≡◌, ℕ, IfOk};
ghost use Rattle.rubis_message.specs.Readings.{Takes, whole};
ghost use Rattle.rubis_message.specs.WorldReadings.{IsWorldInput, Reads, request_at, take_at, take_audit, take_delivery, take_word, world_input};

use crate::faults::ReadFault;
use crate::readers::Reader;
use crate::requests::Request;
use crate::words::says;
use rubis_schema::{RECORDS_MAX, Record};
use std::alloc::{AllocError, Global};

/// What a record is to several sites in one run.
#[derive(Drop)]
pub enum WorldInput {
    /// A request at a site, or what is none.
    Asked(u8, Option<Request>),
    /// The delivery of the packet with that number, up to `RECORDS_MAX`, to a site.
    Delivered(u8, u64),
    /// An audit of all logs.
    Audit,
    /// None of these.
    Neither,
}

impl<'a, F: Record> Reader<'a, F> {
    // A field with exactly that word.
    fn word(&mut self, word: &[u8]) -> Result<(), ReadFault>
        ensures { Takes (take_word word.now) self.old self.new result }
    {
        if says(self.field()?, word) {
            Ok(())
        } else {
            Err(ReadFault::BadRecord)
        }
    }

    // `at`, and the number of a site.
    #[tactic(auto, unfolding(crate::specs::WorldReadings::take_at))]
    fn at(&mut self, sites: u8) -> Result<u8, ReadFault>
        ensures { Takes (take_at sites) self.old self.new result }
    {
        self.word(b"at")?;
        self.site(sites)
    }

    // `deliver`, the number of a site, and that of a packet.
    #[tactic(auto, unfolding(crate::specs::WorldReadings::take_delivery))]
    fn delivery(&mut self, sites: u8) -> Result<WorldInput, ReadFault>
        ensures form { Takes (take_delivery sites) self.old self.new result }
        ensures limits { IfOk result (IsWorldInput sites) }
    {
        self.word(b"deliver")?;
        let site = self.site(sites)?;
        let which = self.number(RECORDS_MAX)?;
        Ok(WorldInput::Delivered(site, which))
    }

    // `audit`.
    #[tactic(auto, unfolding(crate::specs::WorldReadings::take_audit))]
    fn audit(&mut self) -> Result<WorldInput, ReadFault>
        ensures form { Takes take_audit self.old self.new result }
        ensures limits { IfOk result (λ input. (sites : ℕ) → IsWorldInput sites input) }
    {
        self.word(b"audit")?;
        Ok(WorldInput::Audit)
    }
}

// A request at a site.
#[tactic(auto, unfolding(crate::specs::WorldReadings::request_at))]
fn read_request_at<F: Record>(alloc: Global, fields: &F, sites: u8) -> Result<WorldInput, ReadFault>
    ensures input { Reads (request_at sites (F.fields fields.now)) result }
    ensures limits { IfOk result (IsWorldInput sites) }
{
    let mut reader = Reader::new(fields);
    let site = reader.at(sites)?;
    if reader.is_empty() {
        return Err(ReadFault::BadRecord);
    }
    match reader.request_left(alloc, sites) {
        Ok(request) => Ok(WorldInput::Asked(site, Some(request))),
        Err(ReadFault::BadRecord) => Ok(WorldInput::Asked(site, None)),
        Err(ReadFault::Memory) => Err(ReadFault::Memory),
    }
}

// The delivery of a packet.
fn read_delivery<F: Record>(fields: &F, sites: u8) -> Result<WorldInput, ReadFault>
    ensures input { Reads (whole (take_delivery sites) (F.fields fields.now)) result }
    ensures limits { IfOk result (IsWorldInput sites) }
{
    let mut reader = Reader::new(fields);
    let delivery = reader.delivery(sites)?;
    reader.end()?;
    Ok(delivery)
}

// An audit.
fn read_audit<F: Record>(fields: &F) -> Result<WorldInput, ReadFault>
    ensures input { Reads (whole take_audit (F.fields fields.now)) result }
    ensures limits { IfOk result (λ input. (sites : ℕ) → IsWorldInput sites input) }
{
    let mut reader = Reader::new(fields);
    let audit = reader.audit()?;
    reader.end()?;
    Ok(audit)
}

/// Reads a record as an input to `sites` sites. `AllocError` if out of memory for a name or a text.
pub fn read_world_input<F: Record>(
    alloc: Global,
    fields: &F,
    sites: u8,
) -> Result<WorldInput, AllocError>
    ensures input { IfOk result (λ input. input ≡ world_input sites (F.fields fields.now)) }
    ensures limits { IfOk result (IsWorldInput sites) }
{
    match read_request_at(alloc, fields, sites) {
        Ok(input) => return Ok(input),
        Err(ReadFault::BadRecord) => {}
        Err(ReadFault::Memory) => return Err(AllocError),
    }
    match read_delivery(fields, sites) {
        Ok(input) => return Ok(input),
        Err(ReadFault::BadRecord) => {}
        Err(ReadFault::Memory) => return Err(AllocError),
    }
    match read_audit(fields) {
        Ok(input) => Ok(input),
        Err(ReadFault::BadRecord) => Ok(WorldInput::Neither),
        Err(ReadFault::Memory) => Err(AllocError),
    }
}
