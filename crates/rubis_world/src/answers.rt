//! The records that answer what happens at one of several sites.

ghost use Rattle.std.specs.Prelude.{◌≡◌, ◌++◌, ◌∷◌, [], OnOk, Some, map};
ghost use Rattle.rubis_model.specs.Site.{refused_row};
ghost use Rattle.rubis_model.specs.WorldRecords.{happened_rows, refusal_row, sent_rows, site_row, world_row};
ghost use Rattle.rubis_engine.specs.Text.{rows_text};

use crate::sites::packet;
use itoa::Buffer;
use rubis_engine::{Draft, PlainSink, Reply, Sink};
use rubis_message::{Happened, Packet};
use rubis_schema::{Fields, PlainRow, Refusal, RowSink, push_number};
use rubis_script::{
    write_arrival, write_listed, write_passed, write_refusal, write_sent, write_taken,
};
use std::alloc::AllocError;

// What takes the records that a site gives, and writes each with `at` and the site in front.
#[derive(Drop)]
struct SiteRows<'a> {
    sink: &'a mut Sink,
    site: u8,
}

impl RowSink for SiteRows<'_> {
    ghost use Rattle.std.specs.Prelude.{◌≡◌, refl};
    ghost use Rattle.std.proofs.Common.{◌∙◌};
    ghost use Rattle.rubis_world.specs.Running.{text_grows_by, more_told, none_told};

    // The reference stays the same.
    ghost adds = { λ rows old new. (new.sink.ghost_name ≡ old.sink.ghost_name) × text_grows_by rows old.sink.now old.site new.sink.now new.site };

    fn put(&mut self, row: &Fields) -> Result<(), AllocError> {
        let mut buffer = Buffer::new();
        let site = buffer.format(self.site).as_bytes();
        self.sink.write_after(&[b"at".as_slice(), site], row)
    }

    ghost adds_none = { λ s. (refl, none_told s.sink.now s.site) };

    ghost adds_more = { λ xs ys a b c e f. (f.0 ∙ e.0, more_told xs ys a.sink.now b.sink.now c.sink.now a.site b.site c.site e.1 f.1) };
}

impl PlainSink for SiteRows<'_> {
    fn put_plain(&mut self, row: &mut PlainRow) -> Result<(), AllocError> {
        row.put_number(u64::from(self.site));
        row.put_plain(b"at");
        self.sink.write_plain(row)
    }
}

/// Says that the world refuses the record.
pub fn write_no_event(reply: &mut Reply, refusal: Refusal) -> Result<(), AllocError>
    ensures { OnOk result (reply.new.sink ≡ reply.old.sink ++ rows_text (world_row reply.old.number refusal ∷ [])) }
{
    let fields = &mut reply.draft.fields;
    fields.clear();
    fields.push_plain(b"world")?;
    push_number(fields, reply.number)?;
    fields.push_plain(b"refused")?;
    push_number(fields, u64::from(refusal.code()))?;
    fields.push(refusal.name().as_bytes())?;
    reply.sink.write_fields(fields)
}

// The packet that answers a request.
fn write_packet<S: PlainSink>(
    draft: &mut Draft,
    sink: &mut S,
    number: u64,
    packet: &Packet,
) -> Result<(), AllocError>
    ensures { OnOk result (S.adds (sent_rows number (Some packet.now)) sink.old sink.new) }
{
    match packet {
        Packet::Msg(message) => write_sent(draft, sink, number, message),
        Packet::Token(token) => write_passed(&mut draft.row, sink, number, token),
    }
}

// What a site gives where something happened; all packets that were sent are at hand.
fn write_happened<S: PlainSink>(
    draft: &mut Draft,
    sink: &mut S,
    number: u64,
    sent: &[Packet],
    happened: Happened,
) -> Result<(), AllocError>
    ensures { OnOk result (S.adds (happened_rows number sent.now happened) sink.old sink.new) }
{
    match happened {
        Happened::Sent(which) => match packet(sent, which) {
            Some(packet) => write_packet(draft, sink, number, packet),
            None => Ok(()),
        },
        Happened::Came(arrival) => write_arrival(&mut draft.row, sink, number, arrival),
        Happened::Token(taken) => write_taken(&mut draft.row, sink, number, taken),
        Happened::Rows(rows) => write_listed(&mut draft.row, sink, number, &rows),
    }
}

/// Says what happened at a site; all packets that were sent are at hand.
pub fn write_event(
    draft: &mut Draft,
    sink: &mut Sink,
    number: u64,
    site: u8,
    sent: &[Packet],
    happened: Happened,
) -> Result<(), AllocError>
    ensures { OnOk result (sink.new ≡ sink.old ++ rows_text (map (site_row site) (happened_rows number sent.now happened))) }
{
    let mut rows = SiteRows { sink, site };
    write_happened(draft, &mut rows, number, sent, happened)
}

// Says that a site refuses the record.
fn write_site_refusal(
    row: &mut PlainRow,
    sink: &mut Sink,
    number: u64,
    site: u8,
    refusal: Refusal,
) -> Result<(), AllocError>
    ensures { OnOk result (sink.new ≡ sink.old ++ rows_text (site_row site (refused_row number refusal) ∷ [])) }
{
    let mut rows = SiteRows { sink, site };
    write_refusal(row, &mut rows, number, refusal)
}

/// Says why a record is refused: by the world if it is no event, and otherwise by the site.
pub fn write_refused(reply: &mut Reply, site: u8, refusal: Refusal) -> Result<(), AllocError>
    ensures { OnOk result (reply.new.sink ≡ reply.old.sink ++ rows_text (refusal_row reply.old.number site refusal ∷ [])) }
{
    match refusal {
        Refusal::BadEvent => write_no_event(reply, Refusal::BadEvent),
        Refusal::NoSuchPacket => write_no_event(reply, Refusal::NoSuchPacket),
        refusal => write_site_refusal(
            &mut reply.draft.row,
            &mut reply.sink,
            reply.number,
            site,
            refusal,
        ),
    }
}
