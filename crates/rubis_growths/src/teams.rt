//! Shares that several workers fold, and the machine of every schedule.

ghost use Rattle.std.specs.Prelude.{◌<◌, ◌≤◌, length};
ghost use Rattle.rubis_pieces.specs.Batches.{Belong};
ghost use Rattle.rubis_shard.specs.Holdings.{AreInOrder};

use crate::records::shop;
use crate::telling::{Host, Stop, TRIES, tell_refused, tell_rows};
use rubis_board::Poster;
use rubis_listing::tables as list_tables;
use rubis_message::Message;
use rubis_pieces::{Left, Places, count_behind, gather};
use rubis_pool_core::{Event, Pool, run};
use rubis_shard::Tables;
use rubis_tests::purchases::{SCHEDULE, both_pieces, has_purchase, piece, two_shares};
use rubis_workers::{
    Free, LogBatch, Pace, Unstarted, Worked, Workers, apply_all, apply_batch, apply_beside,
    follow_rest,
};
use std::sync::Arc;

// Whether a share of the list is that shard's.
fn is_left(left: &[Left], number: usize) -> bool {
    left.iter().any(|rest| rest.share.number == number)
}

// Whether these are both shards, each with its purchase if none of its share is left.
fn accounts_for_both(worked: &Worked) -> bool {
    let left = worked.left.as_slice();
    match worked.shards.as_slice() {
        [first, second] => {
            has_purchase(first, 0) != is_left(left, 0)
                && has_purchase(second, 1) != is_left(left, 1)
        }
        _ => false,
    }
}

// Tells what two workers made of two shares: whether all was done.
fn tell_worked(rt: &impl Host, worked: &Worked) -> Result<bool, Stop> {
    if !accounts_for_both(worked) {
        return Err(Stop::GaveUp);
    }
    let parts = worked.left.len();
    let _ = if parts == 0 {
        println!(rt; "two shares are done")
    } else {
        println!(rt; "! apply_beside: {parts} parts")
    };
    Ok(parts == 0)
}

// Whether both shards and both shares came back.
fn are_both_back(back: &Unstarted) -> bool {
    back.shards.len() == 2 && back.shares.len() == 2
}

/// Two shares that two workers fold while a closure runs. If no memory is there to begin, both lists come back.
pub fn two_shares_beside(rt: &impl Host) -> Result<(), Stop> {
    for _ in 0..TRIES {
        let (shards, shares) = two_shares(rt.alloc())?;
        let (worked, seven) = apply_beside(rt, rt.alloc(), shards, shares, 2, &Free, || 7);
        match worked {
            Ok(worked) => {
                if tell_worked(rt, &worked)? {
                    let _ = println!(rt; "{seven}");
                    return Ok(());
                }
            }
            Err(back) => tell_refused(rt, "apply_beside", are_both_back(&back) && seven == 7),
        }
    }
    Err(Stop::GaveUp)
}

// Has two workers fold what came back.
fn apply_again(rt: &impl Host, back: Unstarted) -> Result<Worked, Stop>
    requires some { 0 < length back.shards }
    requires order { AreInOrder back.shards }
    requires belong { Belong back.shards back.shares }
{
    tell_refused(rt, "apply_all", are_both_back(&back));
    let (shards, shares) = (back.shards.into(), back.shares.into());
    apply_all(rt, rt.alloc(), shards, shares, 2, &Free).or(Err(Stop::GaveUp))
}

/// Two shares that two workers fold, which are given again if no memory is there to begin.
pub fn two_shares_again(rt: &impl Host) -> Result<(), Stop> {
    for _ in 0..TRIES {
        let (shards, shares) = two_shares(rt.alloc())?;
        let worked = match apply_all(rt, rt.alloc(), shards, shares, 2, &Free) {
            Ok(worked) => worked,
            Err(back) => apply_again(rt, back)?,
        };
        if tell_worked(rt, &worked)? {
            return Ok(());
        }
    }
    Err(Stop::GaveUp)
}

// Has workers apply messages, and goes on with them where memory is refused.
fn apply_shared(rt: &impl Host, tables: &mut Tables, messages: &[Message]) -> Result<(), Stop>
    requires some { 0 < length tables.old }
    requires shards { length tables.old ≤ 255 }
    requires few { length messages.now ≤ 1000 }
{
    let alloc = rt.alloc();
    let mut stops = Vec::with_capacity(alloc, tables.len())?;
    let mut workers = Workers {
        most: 4,
        pace: Pace::new(),
        gate: Arc::new(alloc, Free).or(Err(Stop::Refused))?,
        alloc,
    };
    let batch = LogBatch {
        log: messages,
        from: 0,
        upto: messages.len(),
    };
    if apply_batch(rt, &mut workers, tables, &batch, &mut stops).is_ok() {
        return Ok(());
    }
    let parts = count_behind(messages, 0, &stops);
    let _ = println!(rt; "! apply_batch: {parts} parts");
    follow_rest(tables, messages, &mut stops, batch.upto, &*workers.gate);
    if count_behind(messages, 0, &stops) == 0 {
        Ok(())
    } else {
        Err(Stop::GaveUp)
    }
}

/// A batch of a log, applied by workers.
pub fn shared_batch(rt: &impl Host) -> Result<(), Stop> {
    let messages = shop(rt.alloc())?.messages;
    if messages.len() > 1000 {
        return Err(Stop::GaveUp);
    }
    let mut tables = Tables::new(rt.alloc(), 5)?;
    apply_shared(rt, &mut tables, &messages)?;
    tell_rows(rt, 1, &list_tables(rt.alloc(), &tables)?);
    Ok(())
}

// Posts both pieces.
fn post_both(rt: &impl Host, pool: &mut Pool) -> Result<(), Stop> {
    for number in 0..2usize {
        pool.post(piece(rt.alloc(), number)?).or(Err(Stop::GaveUp))?;
    }
    Ok(())
}

// Performs an event, again where memory is refused.
fn step(rt: &impl Host, pool: &mut Pool, event: Event) -> Result<bool, Stop> {
    if let Ok(done) = pool.step(event) {
        return Ok(done);
    }
    tell_refused(rt, "Pool::step", true);
    Ok(pool.step(event)?)
}

/// The machine of every schedule, event by event, of each of which it is told whether it was done; what it returns is gathered.
pub fn pool(rt: &impl Host) -> Result<(), Stop> {
    let mut pool = Pool::new(rt.alloc(), 2, 2)?;
    post_both(rt, &mut pool)?;
    for event in SCHEDULE {
        let done = step(rt, &mut pool, event)?;
        let _ = println!(rt; "{done}");
    }
    let places = Places::new(rt.alloc(), 2)?;
    let gathered = gather(pool.into_back(), places).or(Err(Stop::GaveUp))?;
    let (shards, left) = (gathered.shards.len(), gathered.left.len());
    let _ = println!(rt; "shards {shards}, left {left}");
    Ok(())
}

/// The machine of every schedule, at once; and the board of two pieces.
pub fn schedule_and_board(rt: &impl Host) -> Result<(), Stop> {
    let pieces = both_pieces(rt.alloc())?;
    let returned = run(rt.alloc(), pieces, 2, &SCHEDULE)?.into_back().len();
    let _ = println!(rt; "returned {returned}");
    let mut poster = Poster::new(rt.alloc(), 2)?;
    let posted = poster.post(rt, piece(rt.alloc(), 1)?).is_ok();
    let _ = println!(rt; "posted {posted}");
    Ok(())
}
