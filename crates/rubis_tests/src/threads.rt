//! Tests in which several threads work: that they really work at once, in each call that applies a batch, how often they call the
//! gate, and how many of them a batch gets.

ghost use Rattle.std.specs.Prelude.{◌<◌, ◌≤◌, IfOk, length};
ghost use Rattle.rubis_pieces.specs.Batches.{Belong};
ghost use Rattle.rubis_schema.specs.declared.limits.TheConstants.{WORKERS_MAX};
ghost use Rattle.rubis_shard.specs.Holdings.{AreInOrder};

use crate::arrivals::{Twin, comment_behind, many_messages, two_comments};
use crate::gates::{Halves, Holders, HoldsTwo, Numbers};
use crate::records::{ANN, BOB, CUP, request};
use crate::rigs::Rig;
use crate::runs::{add_line, run_watched};
use rubis_message::{Arrival, Request};
use rubis_pieces::split;
use rubis_schema::Listing;
use rubis_shard::{Shard, Share};
use rubis_workers::{
    LogBatch, Pace, Tables, Worked, Workers, apply_all, apply_batch, apply_beside, follow_rest,
};
use rubis_world::{Gate, SiteGate, Watch};
use std::alloc::Global;
use std::sync::Arc;
use std::test::Fail;

// A set of `shards` shards, and an empty share for each.
fn empty_batch(rt: &impl Rig, shards: usize) -> Result<(Vec<Shard>, Vec<Share>), Fail>
    requires { 0 < shards }
    ensures some { IfOk result (λ both. 0 < length both.0.items) }
    ensures order { IfOk result (λ both. AreInOrder both.0.items) }
    ensures belong { IfOk result (λ both. Belong both.0.items both.1.items) }
{
    let tables = Tables::new(rt.alloc(), shards)?;
    let shares = split(rt, rt.alloc(), &[], 1, shards)?;
    Ok((tables.into_shards(), shares))
}

// Applies an empty batch to `shards` shards with `workers` workers.
fn apply_none(
    rt: &impl Rig,
    shards: usize,
    workers: usize,
    gate: &impl Gate,
) -> Result<Worked, Fail>
    requires shards { 0 < shards }
    requires workers { (0 < workers) × (workers ≤ WORKERS_MAX) }
{
    let (set, shares) = empty_batch(rt, shards)?;
    Ok(apply_all(rt, rt.alloc(), set, shares, workers, gate).or(Err("no room"))?)
}

// Whether all of `shards` shards came back, in order of number, with no share left.
fn are_whole(worked: &Worked, shards: usize) -> bool {
    let numbers = worked.shards.as_slice().iter().map(Shard::number);
    worked.left.is_empty() && numbers.eq(0..shards)
}

#[test]
fn two_workers_meet(rt: HostRuntime) -> Result<(), Fail> {
    let holders = Holders::new(2);
    let worked = apply_none(&rt, 2, 2, &&holders)?;
    assert_eq!(rt; (holders.most(), holders.taken()), (2, 2));
    assert!(rt; are_whole(&worked, 2));
    Ok(())
}

#[test]
fn sixteen_workers_take_each_shard_once(rt: HostRuntime) -> Result<(), Fail> {
    let numbers = Numbers::default();
    let worked = apply_none(&rt, 64, 16, &numbers)?;
    assert!(rt; numbers.are_all_seen_once());
    assert!(rt; are_whole(&worked, 64));
    Ok(())
}

#[test]
fn two_workers_take_no_third_piece(rt: HostRuntime) -> Result<(), Fail> {
    let gate = HoldsTwo::default();
    let worked = apply_none(&rt, 64, 2, &gate)?;
    assert_eq!(rt; gate.held(), 2);
    assert!(rt; are_whole(&worked, 64));
    Ok(())
}

#[test]
fn intake_meets_workers(rt: HostRuntime) -> Result<(), Fail> {
    let halves = Halves::default();
    let (set, shares) = empty_batch(&rt, 2)?;
    let (worked, met) = apply_beside(&rt, rt.alloc(), set, shares, 2, &halves, || halves.run());
    assert!(rt; met && !halves.is_late());
    assert!(rt; are_whole(&worked.or(Err("no room"))?, 2));
    Ok(())
}

// The second of two sites, with two shards, two workers and batches of that size, after two users and an item arrived.
fn twin_that_meets<'a>(
    rt: &impl Rig,
    batch: u32,
    holders: &'a Holders,
) -> Result<Twin<&'a Holders>, Fail> {
    let mut twin = Twin::new(rt.alloc(), 1, 2, 2, batch, 100, holders)?;
    assert_eq!(rt; twin.arrive_three(rt)?, [Arrival::Released(1); 3]);
    Ok(twin)
}

#[test]
fn two_workers_meet_in_a_cut(rt: HostRuntime) -> Result<(), Fail> {
    let holders = Holders::new(2);
    let mut twin = twin_that_meets(&rt, 64, &holders)?;
    assert_eq!(rt; twin.site.cut(&rt)?, 3);
    assert_eq!(rt; holders.most(), 2);
    Ok(())
}

#[test]
fn two_workers_meet_in_a_listing(rt: HostRuntime) -> Result<(), Fail> {
    let holders = Holders::new(2);
    let mut twin = twin_that_meets(&rt, 64, &holders)?;
    assert_eq!(rt; twin.site.list(&rt, &Listing::Users)?.len(), 2);
    assert_eq!(rt; holders.most(), 2);
    Ok(())
}

#[test]
fn two_workers_meet_in_a_request(rt: HostRuntime) -> Result<(), Fail> {
    let holders = Holders::new(2);
    let mut twin = twin_that_meets(&rt, 64, &holders)?;
    let Request::Ask(comment) = request(rt.alloc(), "comment,0.3,0.2,0.1,5,x", 2)? else {
        return Err(Fail::from("no ask"));
    };
    let made = twin.site.request(&rt, comment)?.id();
    assert_eq!(rt; (made.site, made.seq), (1, 1));
    assert_eq!(rt; holders.most(), 2);
    Ok(())
}

#[test]
fn two_workers_meet_in_the_third_arrival(rt: HostRuntime) -> Result<(), Fail> {
    let holders = Holders::new(2);
    twin_that_meets(&rt, 3, &holders)?;
    assert_eq!(rt; holders.most(), 2);
    Ok(())
}

// Two messages of which the second came first, with repeats of both, and a listing.
const SAID: &str = "msg,1,0,2,2,1:0,user,bob\nmsg,1,0,2,2,1:0,user,bob\nmsg,1,0,1,1,0:0,user,ann\n\
msg,1,0,2,2,1:0,user,bob\nmsg,1,0,1,1,0:0,user,ann\nlist,users\n";

const HEARD: &str =
    "reply,1,held\nreply,2,repeat\nreply,3,released,2\nreply,4,repeat\nreply,5,repeat\nreply,6,rows,2\n\
row,user,0.1,ann,0,0,0,0\nrow,user,0.2,bob,0,0,0,0\n";

#[test]
fn two_workers_meet_in_a_run(rt: HostRuntime) -> Result<(), Fail> {
    let (watch, out) = run_watched(&rt, SAID, 6, 2, 2, 64, 2)?;
    assert!(rt; out.as_slice() == HEARD.as_bytes());
    assert_eq!(rt; watch.most(), 2);
    Ok(())
}

#[test]
fn two_workers_meet_in_arrivals(rt: HostRuntime) -> Result<(), Fail> {
    let holders = Holders::new(2);
    let mut twin = twin_that_meets(&rt, 64, &holders)?;
    let arrived = twin.site.arrive_all(&rt, Vec::new(rt.alloc()));
    assert!(rt; arrived.fault.is_none());
    assert_eq!(rt; holders.most(), 2);
    Ok(())
}

// The three messages are applied while the window arrives, and the cut applies the window.
#[test]
fn two_workers_meet_while_a_window_arrives(rt: HostRuntime) -> Result<(), Fail> {
    let holders = Holders::new(2);
    let mut twin = twin_that_meets(&rt, 64, &holders)?;
    let window = two_comments(rt.alloc())?;
    let arrived = twin.site.arrive_all(&rt, window.messages);
    let pending = twin.site.cut(&rt)?;
    assert_eq!(rt; (arrived.answers.len(), pending), (2, 2));
    assert_eq!(rt; (holders.most(), holders.taken()), (2, 4));
    Ok(())
}

// `count` messages, of two users, an item, and comments on it.
fn messages(alloc: Global, count: u32) -> Result<String, Fail> {
    let mut text = String::new(alloc);
    add_line(&mut text, ANN)?;
    add_line(&mut text, BOB)?;
    add_line(&mut text, CUP)?;
    for before in 3..count {
        add_line(&mut text, &comment_behind(alloc, before)?)?;
    }
    Ok(text)
}

// How often the gate was called for each of five shards. Several workers share five shards; one worker has one.
fn counts_of(watch: &Watch) -> [u64; 5] {
    [0, 1, 2, 3, 4].map(|shard| watch.count(shard))
}

// The counts in a run over 601 records with that many workers.
fn count_calls(rt: &impl Rig, records: &str, batch: u32, workers: u8) -> Result<[u64; 5], Fail> {
    let (watch, _) = run_watched(rt, records, 601, 5, workers, batch, 1)?;
    Ok(counts_of(&watch))
}

// The listing wants all messages applied. With one worker a batch is applied once it is there. Several workers read the records, some
// 26 KB, in two pieces, and what a piece brings is applied together, whatever a batch is: no more often than with one.
#[test]
fn the_gate_is_called_for_each_shard_in_every_application(rt: HostRuntime) -> Result<(), Fail> {
    let mut records = messages(rt.alloc(), 600)?;
    add_line(&mut records, "list,users")?;
    for (batch, batches) in [(1, 600), (3, 200), (200, 3)] {
        let one = count_calls(&rt, &records, batch, 1)?;
        assert_eq!(rt; one, [batches, 0, 0, 0, 0], "batches of {batch}");
        let two = count_calls(&rt, &records, batch, 2)?;
        let applied = two[0];
        assert_eq!(rt; two, [applied; 5], "batches of {batch}");
        let sixteen = count_calls(&rt, &records, batch, 16)?;
        assert_eq!(rt; sixteen, [applied; 5], "batches of {batch}");
        assert!(rt; (1..=batches).contains(&applied), "batches of {batch}");
    }
    Ok(())
}

// They are more messages than are pending when helpers fold them, and fewer than a batch, at which the site would apply them itself.
// The caller's thread and the helper each hold a shard of one batch. No listing asks for the tables, so nothing but the helpers' fold
// applies a message here: a fold that does nothing leaves no count, and one that the caller's thread does alone meets nobody.
#[test]
fn a_helper_folds_beside_the_callers_thread(rt: HostRuntime) -> Result<(), Fail> {
    let records = messages(rt.alloc(), 8000)?;
    let (watch, _) = run_watched(&rt, &records, 8000, 4, 2, 8192, 2)?;
    let applied = watch.count(0);
    assert!(rt; applied > 0);
    assert_eq!(rt; counts_of(&watch), [applied, applied, applied, applied, 0]);
    assert_eq!(rt; watch.most(), 2);
    Ok(())
}

// Has three messages arrive, then a window of two, then one more, and cuts. Returns how often the gate was called before the window,
// after it, before the cut and after it, and how many messages the cut applied.
fn count_calls_of_a_window(
    rt: &impl Rig,
    twin: &mut Twin<SiteGate>,
    watch: &Watch,
) -> Result<([[u64; 5]; 4], u32), Fail> {
    twin.arrive_three(rt)?;
    let pending = counts_of(watch);
    let window = two_comments(rt.alloc())?;
    twin.site.arrive_all(rt, window.messages);
    let arrived = counts_of(watch);
    twin.arrive_comment(rt, 5)?;
    let before = counts_of(watch);
    let cut = twin.site.cut(rt)?;
    Ok(([pending, arrived, before, counts_of(watch)], cut))
}

// Three messages are pending when a window of two comes, so these are applied then: each shard is taken once. The window stays
// pending as a batch of its own, and the message after it is another: the cut applies both, and tells the sum. So the gate is
// called three times for each shard; where a follower forgot where the window ends, it would be twice.
#[test]
fn a_window_is_a_batch_of_its_own(rt: HostRuntime) -> Result<(), Fail> {
    for (workers, once, thrice) in [(1, [1, 0, 0, 0, 0], [3, 0, 0, 0, 0]), (4, [1; 5], [3; 5])] {
        let watch = Arc::new(rt.alloc(), Watch::new(rt.alloc(), 5, 1)?)?;
        let gate = SiteGate::watched(Arc::try_clone(&watch).or(Err("an owner"))?);
        let mut twin = Twin::new(rt.alloc(), 1, 5, workers, 64, 100, gate)?;
        let (counts, cut) = count_calls_of_a_window(&rt, &mut twin, &watch)?;
        assert_eq!(rt; counts, [[0; 5], once, once, thrice], "{workers} workers");
        assert_eq!(rt; cut, 3, "{workers} workers");
    }
    Ok(())
}

// Has three comments arrive that follow the first `before` messages.
fn arrive_comments(rt: &impl Rig, twin: &mut Twin<&Holders>, before: u32) -> Result<(), Fail> {
    for more in 0..3 {
        twin.arrive_comment(rt, before.saturating_add(more))?;
    }
    Ok(())
}

// A batch of three messages gets at most three of the four workers.
#[test]
fn a_batch_too_small_for_threads_has_the_next_one_done_alone(rt: HostRuntime) -> Result<(), Fail> {
    let holders = Holders::new(3);
    let mut twin = Twin::new(rt.alloc(), 1, 4, 4, 3, 100, &holders)?;
    twin.arrive_three(&rt)?;
    let first = holders.most();
    arrive_comments(&rt, &mut twin, 3)?;
    let second = holders.most();
    arrive_comments(&rt, &mut twin, 6)?;
    assert_eq!(rt; (first, second, holders.most()), (3, 1, 3));
    Ok(())
}

// How many messages the caller's thread goes on with alone after a batch of that many, which four threads applied, each on one of
// four shards.
fn rest_after(rt: &impl Rig, count: u32) -> Result<usize, Fail> {
    let alloc = rt.alloc();
    let (holders, log) = (Holders::new(4), many_messages(alloc, count)?.messages);
    if log.len() > 1_000_000 {
        return Err(Fail::from("too many"));
    }
    let mut tables = Tables::new(alloc, 4)?;
    let mut stops = Vec::with_capacity(alloc, 4)?;
    let mut workers = Workers {
        most: 4,
        pace: Pace::new(),
        gate: Arc::new(alloc, &holders)?,
        alloc,
    };
    let batch = LogBatch {
        log: &log,
        from: 0,
        upto: log.len(),
    };
    apply_batch(rt, &mut workers, &mut tables, &batch, &mut stops)?;
    Ok(workers.pace.alone)
}

// The three other threads take three of the four shards, and so apply some 320 messages each, for which they are worth their start,
// or 319. Where the workers told of one shard more or less that others took, one of these would be as the other.
#[test]
fn the_pace_knows_how_many_shards_others_took(rt: HostRuntime) -> Result<(), Fail> {
    let (worth, less) = (rest_after(&rt, 1_280)?, rest_after(&rt, 1_276)?);
    assert_eq!(rt; (worth, less), (0, 1));
    Ok(())
}

// Nothing of the batch is done on any of the shards, as after an application that found no room to begin.
#[test]
fn the_rest_of_a_batch_calls_the_gate_for_each_shard(rt: HostRuntime) -> Result<(), Fail> {
    let (alloc, mut stops) = (rt.alloc(), [0_usize; 5]);
    let log = many_messages(alloc, 10)?.messages;
    if log.len() > 1_000_000 {
        return Err(Fail::from("too many"));
    }
    let watch = Arc::new(alloc, Watch::new(alloc, 5, 1)?)?;
    let gate = SiteGate::watched(Arc::try_clone(&watch).or(Err("an owner"))?);
    let mut tables = Tables::new(alloc, 5)?;
    follow_rest(&mut tables, &log, &mut stops, log.len(), &gate);
    assert_eq!(rt; (counts_of(&watch), stops), ([1; 5], [10; 5]));
    Ok(())
}
