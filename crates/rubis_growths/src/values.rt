//! Fields, records, and the parts of a message on plain tables.

use crate::telling::{Host, Stop, tell_refused, tell_row};
use rubis_message::{Message, Request, Token, write_message, write_token};
use rubis_schema::{Fields, Id, Name, Table, Text};
use rubis_shadow::{Ask, PlainTables};
use rubis_tests::records::{CUP, message, request};

// Adds a field, again where memory is refused.
fn push(rt: &impl Host, fields: &mut Fields, text: &[u8]) -> Result<(), Stop> {
    let len = fields.len();
    if fields.push(text).is_err() {
        tell_refused(rt, "Fields::push", fields.len() == len);
        fields.push(text)?;
    }
    Ok(())
}

// Adds an id, a name and a text.
fn push_three(rt: &impl Host, fields: &mut Fields) -> Result<(), Stop> {
    let id = Id {
        site: 7,
        seq: 1_000_000,
    };
    push(rt, fields, &id.write(rt.alloc())?)?;
    let name = Name::read(rt.alloc(), b"a ~")?.ok_or(Stop::GaveUp)?;
    push(rt, fields, name.as_bytes())?;
    let text = Text::read(rt.alloc(), b"late")?.ok_or(Stop::GaveUp)?;
    push(rt, fields, text.as_bytes())
}

/// Fields of a record, each of which takes memory.
pub fn fields(rt: &impl Host) -> Result<(), Stop> {
    let mut fields = Fields::with_room(rt.alloc(), 20, 3)?;
    push_three(rt, &mut fields)?;
    tell_row(rt, &fields.copy()?);
    Ok(())
}

// A message, read, copied and written; and a token, written.
fn tell_packets(rt: &impl Host) -> Result<(), Stop> {
    let copy = message(rt.alloc(), CUP, 2)?.copy()?;
    tell_row(rt, &write_message(rt.alloc(), &copy)?);
    let token = Token {
        turn: 1,
        to: 1,
        issued: 0,
    };
    tell_row(rt, &write_token(rt.alloc(), &token)?);
    Ok(())
}

/// Records, read and written.
pub fn records(rt: &impl Host) -> Result<(), Stop> {
    tell_packets(rt)?;
    match request(rt.alloc(), "bid,0.3,0.2,500", 2)? {
        Request::Ask(Ask::Bid(bid)) => {
            let amount = bid.amount;
            let _ = println!(rt; "bid {amount}");
            Ok(())
        }
        _ => Err(Stop::GaveUp),
    }
}

// Applies the parts of a message, each again where memory is refused.
fn apply_parts(rt: &impl Host, tables: &mut PlainTables, message: &Message) -> Result<(), Stop> {
    let stamp = message.stamp();
    for place in 0..3 {
        let Some(part) = message.shadow().effect(stamp.id, stamp.red, place) else {
            continue;
        };
        let effect = part.own(rt.alloc())?;
        let mut misfit = tables.apply(&effect);
        if misfit.is_err() {
            tell_refused(rt, "PlainTables::apply", true);
            misfit = tables.apply(&effect);
        }
        let misfit = misfit?;
        let _ = println!(rt; "part {place}: {misfit:?}");
    }
    Ok(())
}

/// The parts of a new item, applied to plain tables.
pub fn plain_tables(rt: &impl Host) -> Result<(), Stop> {
    let message = message(rt.alloc(), CUP, 2)?;
    let mut tables = PlainTables::new(rt.alloc())?;
    apply_parts(rt, &mut tables, &message)?;
    let items = tables.rows(rt.alloc(), Table::Items)?.len();
    let _ = println!(rt; "items {items}");
    Ok(())
}
