//! Tests of single calls, of what no scenario and no conversation shows: of sinks, messages, plain tables, and decisions over them.

ghost use Rattle.std.specs.Prelude.{◌≡◌};
ghost use Rattle.rubis_message.specs.Message.{sites_of};

use crate::records::{ANN, BOB, message};
use crate::rigs::Rig;
use rubis_audit::{Clock, awaited, awaited_red};
use rubis_engine::Sink;
use rubis_generate::{Standing, decide};
use rubis_message::{Message, write_message};
use rubis_schema::{Fields, Id, Refusal, Row, RowKey, Table, View};
use rubis_shadow::{Ask, MisfitKind, NewBid, PlainTables};
use std::alloc::Global;
use std::test::Fail;

const ID_OF_ANN: Id = Id { site: 0, seq: 1 };

const ID_OF_BOB: Id = Id { site: 0, seq: 2 };

const ID_OF_LAMP: Id = Id { site: 0, seq: 3 };

#[test]
fn much_text_is_time_to_write(rt: HostRuntime) -> Result<(), Fail> {
    let mut sink = Sink::new(rt.alloc());
    let mut row = Fields::new(rt.alloc());
    row.push(b"a row of 32 bytes")?;
    row.push(b"with its end.")?;
    assert!(rt; !sink.is_full());
    for _ in 0..4000 {
        sink.write_fields(&row)?;
    }
    assert!(rt; sink.is_full());
    let mut out = Vec::new(rt.alloc());
    assert!(rt; sink.drain(&mut out).is_ok());
    assert_eq!(rt; out.len(), 128_000);
    assert!(rt; !sink.is_full());
    Ok(())
}

// Whether a message that counts two sites was widened to `sites`, and the counts of what came of it.
fn widen(alloc: Global, sites: u8) -> Result<(bool, Vec<u8>), Fail> {
    let (is_wide, message) = match message(alloc, ANN, 2)?.widen(sites) {
        Ok(wide) => (true, wide),
        Err(same) => (false, same),
    };
    let record = write_message(alloc, &message)?;
    let mut counts = Vec::new(alloc);
    counts.extend_from_slice(record.field(5).unwrap_or(b""))?;
    Ok((is_wide, counts))
}

#[test]
fn a_message_is_widened_to_no_fewer_and_at_most_sixteen_sites(rt: HostRuntime) -> Result<(), Fail> {
    for (sites, widens, counts) in [
        (1, false, b"0:0".as_slice()),
        (2, true, b"0:0"),
        (4, true, b"0:0:0:0"),
        (17, false, b"0:0"),
    ] {
        let (is_wide, written) = widen(rt.alloc(), sites)?;
        assert!(rt;
            is_wide == widens && written.as_slice() == counts,
            "to {sites}"
        );
    }
    Ok(())
}

// What a message to one of two sites waits for of each of them, and the red number that it waits for, where nothing was released.
fn waits_of(message: &Message) -> (Option<Id>, Option<Id>, Option<u32>)
    requires { sites_of message.now ≡ 2 }
{
    let clock = Clock::new(2);
    (
        awaited(&clock, message, 0),
        awaited(&clock, message, 1),
        awaited_red(&clock, message),
    )
}

// Bob's message counts ann's, and has the red number after hers.
#[test]
fn a_message_waits_for_the_first_that_is_lacking(rt: HostRuntime) -> Result<(), Fail> {
    let ann = message(rt.alloc(), ANN, 2)?;
    let bob = message(rt.alloc(), BOB, 2)?;
    assert!(rt; waits_of(&ann) == (None, None, None));
    assert!(rt; waits_of(&bob) == (Some(ID_OF_ANN), None, Some(1)));
    Ok(())
}

const LAMP: &str = "msg,1,0,3,0,2:0,item,0.1,lamp,7,1,100,0";

// Of the lamp, with no bid.
const CLOSE: &str = "msg,1,0,4,3,3:0,close,0.3,7,none";

// Applies all parts of a message, each of which fits.
fn apply_whole(rt: &impl Rig, tables: &mut PlainTables, text: &str) -> Result<(), Fail> {
    let message = message(rt.alloc(), text, 2)?;
    let stamp = message.stamp();
    for part in message.shadow().effects(stamp.id, stamp.red) {
        assert_eq!(rt; tables.apply(&part.own(rt.alloc())?)?, None);
    }
    Ok(())
}

// Tables to which these messages were applied.
fn tables_of(rt: &impl Rig, texts: &[&str]) -> Result<PlainTables, Fail> {
    let mut tables = PlainTables::new(rt.alloc())?;
    for text in texts {
        apply_whole(rt, &mut tables, text)?;
    }
    Ok(tables)
}

#[test]
fn a_nickname_stays_with_the_first(rt: HostRuntime) -> Result<(), Fail> {
    let mut tables = tables_of(&rt, &[ANN])?;
    let message = message(rt.alloc(), ANN, 2)?;
    let second = message.shadow().effect(ID_OF_BOB, 2, 1).ok_or("a part")?;
    let misfit = tables.apply(&second.own(rt.alloc())?)?;
    assert_eq!(rt; misfit, Some(MisfitKind::RowThere));
    let row = tables.row(&second.key());
    assert!(rt; matches!(row, Some(Row::Nick(id)) if *id == ID_OF_ANN));
    Ok(())
}

#[test]
fn tables_have_a_thousand_categories(rt: HostRuntime) -> Result<(), Fail> {
    let tables = PlainTables::new(rt.alloc())?;
    assert_eq!(rt; tables.rows(rt.alloc(), Table::Cats)?.len(), 1000);
    assert!(rt; tables.row(&RowKey::Cat(999)).is_some());
    assert!(rt; tables.row(&RowKey::Cat(1000)).is_none());
    Ok(())
}

#[test]
fn rows_are_listed_in_key_order(rt: HostRuntime) -> Result<(), Fail> {
    let tables = tables_of(&rt, &[BOB, ANN])?;
    let rows = tables.rows(rt.alloc(), Table::Users)?;
    let keys = rows.iter().map(|entry| *entry.0);
    assert!(rt; keys.eq([RowKey::User(ID_OF_ANN), RowKey::User(ID_OF_BOB)]));
    Ok(())
}

#[test]
fn red_behind_comes_before_closed(rt: HostRuntime) -> Result<(), Fail> {
    let tables = tables_of(&rt, &[ANN, BOB, LAMP, CLOSE])?;
    for (current, want) in [(false, Refusal::RedBehind), (true, Refusal::Closed)] {
        let ask = Ask::Bid(NewBid {
            item: ID_OF_LAMP,
            bidder: ID_OF_BOB,
            amount: 500,
        });
        let standing = Standing {
            full: false,
            holds: true,
            current,
        };
        match decide(ask, &tables, &standing) {
            Err(refusal) => assert_eq!(rt; refusal, want),
            Ok(_) => assert!(rt; false, "accepted"),
        }
    }
    Ok(())
}
