//! Tests of two pieces on the machine of every schedule, event by event, and folded by two workers.

ghost use Rattle.std.specs.Prelude.{◌<◌};

use crate::purchases::{SCHEDULE, both_pieces, has_purchase, piece, two_shares};
use rubis_pieces::{Done, Places, gather};
use rubis_pool_core::{Event, Pool, run};
use rubis_shard::Shard;
use rubis_workers::{Free, apply_beside};
use std::test::Fail;

// What the worker that had this piece returned: its one part is done.
fn is_returned(done: &Done, number: usize) -> bool
    requires { number < 2 }
{
    done.done == 1 && has_purchase(&done.shard, number)
}

// Piece 1 was returned first, and then piece 0.
fn is_in_order_of_return(back: &[Done]) -> bool {
    match back {
        [first, second] => is_returned(first, 1) && is_returned(second, 0),
        _ => false,
    }
}

#[test]
fn two_workers_return_out_of_order(rt: HostRuntime) -> Result<(), Fail> {
    let pieces = both_pieces(rt.alloc())?;
    let mut pool = run(rt.alloc(), pieces, 2, &SCHEDULE)?;
    assert_eq!(rt; pool.step(Event::Take(0))?, false);
    let back = pool.into_back();
    assert!(rt; is_in_order_of_return(back.as_slice()));
    let gathered = gather(back, Places::new(rt.alloc(), 2)?).or(Err("not one set"))?;
    let numbers = gathered.shards.as_slice().iter().map(Shard::number);
    assert!(rt; numbers.eq(0..2) && gathered.left.is_empty());
    Ok(())
}

#[test]
fn each_step_says_that_it_was_done(rt: HostRuntime) -> Result<(), Fail> {
    let mut pool = Pool::new(rt.alloc(), 2, 2)?;
    for (number, fits) in [(0_usize, true), (1, true), (1, false)] {
        assert!(rt; pool.post(piece(rt.alloc(), number)?).is_ok() == fits);
    }
    for event in SCHEDULE {
        assert!(rt; pool.step(event)?);
    }
    assert!(rt; is_in_order_of_return(pool.into_back().as_slice()));
    Ok(())
}

#[test]
fn two_shares_are_folded_while_a_closure_runs(rt: HostRuntime) -> Result<(), Fail> {
    let (shards, shares) = two_shares(rt.alloc())?;
    let (worked, seven) = apply_beside(&rt, rt.alloc(), shards, shares, 2, &Free, || 7);
    assert_eq!(rt; seven, 7);
    let worked = worked.or(Err("no room"))?;
    assert!(rt; worked.left.is_empty());
    match worked.shards.as_slice() {
        [first, second] => assert!(rt; has_purchase(first, 0) && has_purchase(second, 1)),
        _ => assert!(rt; false, "not two shards"),
    }
    Ok(())
}
