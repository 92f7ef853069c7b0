//! Tests of a batch of three users over five shards, one that several threads split, and shards that come back.

use crate::arrivals::many_messages;
use crate::records::{ANN, BOB, Window};
use rubis_pieces::{Done, FaultKind, Places, SPLIT_MIN, gather, split, split_alone};
use rubis_schema::Items;
use rubis_shard::{Shard, Share};
use std::alloc::Global;
use std::test::Fail;

// Whether the parts of the share stand at these places: entries and parts.
fn has(share: Option<&Share>, places: &[(u32, u8)]) -> bool {
    let Some(share) = share else {
        return false;
    };
    share.effects.len() == places.len()
        && share.effects.as_slice().iter().zip(places).all(|(part, place)| part.entry == place.0
            && part.part == place.1)
}

#[test]
fn each_part_goes_to_its_home(rt: HostRuntime) -> Result<(), Fail> {
    let texts = [ANN, BOB, "msg,1,0,3,3,2:0,user,cat"];
    let batch = Window::of(rt.alloc(), &texts)?.messages;
    if batch.len() != 3 {
        return Err(Fail::from("not three"));
    }
    let shares = split(&rt, rt.alloc(), &batch, 1, 5)?;
    assert!(rt; has(shares.first(), &[]));
    assert!(rt; has(shares.get(1), &[(1, 1)]));
    assert!(rt; has(shares.get(2), &[(1, 2), (2, 1), (2, 2), (3, 2)]));
    assert!(rt; has(shares.get(3), &[(3, 1)]));
    assert!(rt; has(shares.get(4), &[]));
    Ok(())
}

// The shards of these numbers of three, each with an empty share, of which so much is said to be done: a mark by which it is known
// again.
fn shards_of(alloc: Global, marks: &[(usize, usize)]) -> Result<Vec<Done>, Fail> {
    let mut list = Vec::new(alloc);
    for (number, done) in marks.iter().copied() {
        if number > 2 {
            return Err(Fail::from("no such shard"));
        }
        let share = Share {
            number,
            effects: Items::new(alloc),
        };
        let shard = Shard::new(alloc, number, 3)?;
        list.push(Done { shard, share, done })?;
    }
    Ok(list)
}

// Whether the list has these shards and marks, each with its own share.
fn has_shards(list: &[Done], marks: &[(usize, usize)]) -> bool {
    list.len() == marks.len()
        && list.iter().zip(marks).all(|(done, mark)| done.shard.number() == mark.0
            && done.share.number == mark.0
            && done.done == mark.1)
}

#[test]
fn shards_are_gathered_by_number(rt: HostRuntime) -> Result<(), Fail> {
    let list = shards_of(rt.alloc(), &[(1, 7), (0, 8)])?;
    let gathered = gather(list, Places::new(rt.alloc(), 2)?).or(Err("not gathered"))?;
    let numbers = gathered.shards.as_slice().iter().map(Shard::number);
    assert!(rt; numbers.eq(0..2) && gathered.left.is_empty());
    Ok(())
}

// All of them come back as they came.
#[test]
fn shards_that_are_no_set_come_back(rt: HostRuntime) -> Result<(), Fail> {
    for (marks, kind) in [
        ([(0, 7), (0, 8)].as_slice(), FaultKind::Twice(0)),
        (&[(0, 7), (2, 8)], FaultKind::Stranger(2)),
        (&[(0, 7)], FaultKind::Missing(1)),
    ] {
        let list = shards_of(rt.alloc(), marks)?;
        let Err(fault) = gather(list, Places::new(rt.alloc(), 2)?) else {
            return Err(Fail::new(format_args!("gathered: {kind:?}")));
        };
        assert!(rt; fault.kind == kind, "{kind:?}");
        assert!(rt; has_shards(fault.back.as_slice(), marks), "{kind:?}");
    }
    Ok(())
}

// Whether two shares have the same parts of the same entries.
fn are_same(share: &Share, other: &Share) -> bool {
    let (parts, others) = (share.effects.as_slice(), other.effects.as_slice());
    share.number == other.number
        && parts.len() == others.len()
        && parts.iter().zip(others).all(|(part, other)| part.entry == other.entry
            && part.part == other.part
            && part.effect.key == other.effect.key)
}

// From SPLIT_MIN messages on, several threads make the shares, if there are as many processors as shards; one there always is.
#[test]
fn a_large_batch_is_split_as_by_one_thread(rt: HostRuntime) -> Result<(), Fail> {
    let batch = many_messages(rt.alloc(), SPLIT_MIN as u32)?.messages;
    if batch.len() > 1_000_000 {
        return Err(Fail::from("too many"));
    }
    for shards in [1, 2, 4] {
        let shared = split(&rt, rt.alloc(), &batch, 1, shards)?;
        let alone = split_alone(rt.alloc(), &batch, 1, shards)?;
        let same = shared
            .iter()
            .zip(&alone)
            .all(|(share, other)| are_same(share, other));
        assert!(rt; shared.len() == shards && alone.len() == shards && same);
    }
    Ok(())
}
