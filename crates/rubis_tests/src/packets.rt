//! Tests of messages that arrive at a site.

use crate::arrivals::Twin;
use crate::records::{ANN, BOB, Window};
use crate::rigs::Rig;
use rubis_message::Arrival;
use rubis_schema::{Nick, Refusal};
use rubis_shadow::Ask;
use rubis_world::Free;
use std::alloc::Global;
use std::test::Fail;

const CAT: &str = "msg,1,0,3,3,2:0,user,cat";

// A site of two that applies batches of `batch` messages and keeps `keep`.
fn twin_of(alloc: Global, site: u8, batch: u32, keep: u32) -> Result<Twin<Free>, Fail> {
    Twin::new(alloc, site, 4, 2, batch, keep, Free)
}

#[test]
fn three_messages_are_cut_at_once(rt: HostRuntime) -> Result<(), Fail> {
    let mut twin = twin_of(rt.alloc(), 1, 64, 1_000_000)?;
    assert_eq!(rt; twin.arrive_three(&rt)?, [Arrival::Released(1); 3]);
    assert_eq!(rt; (twin.site.cut(&rt)?, twin.site.cut(&rt)?), (3, 0));
    assert_eq!(rt; twin.site.catch_up()?, 0);
    Ok(())
}

// Bob, ann, cat, and ann again.
fn four_users(alloc: Global) -> Result<Window, Fail> {
    Ok(Window::of(alloc, &[BOB, ANN, CAT, ANN])?)
}

#[test]
fn four_messages_arrive_together_where_two_are_kept(rt: HostRuntime) -> Result<(), Fail> {
    let mut twin = twin_of(rt.alloc(), 1, 64, 2)?;
    let arrived = twin.site.arrive_all(&rt, four_users(rt.alloc())?.messages);
    let answers = [
        Ok(Arrival::Held),
        Ok(Arrival::Released(2)),
        Err(Refusal::Full),
        Ok(Arrival::Repeat),
    ];
    assert!(rt; arrived.answers.as_slice() == answers.as_slice());
    assert!(rt; arrived.rest.is_empty() && arrived.fault.is_none());
    assert_eq!(rt; twin.site.cut(&rt)?, 2);
    Ok(())
}

// Has the four arrive twice, while fewer than `most` may be pending, and cuts. Returns the number of messages that the cut applied.
fn take_twice_and_cut(rt: &impl Rig, most: usize) -> Result<u32, Fail> {
    let mut twin = twin_of(rt.alloc(), 1, 64, 2)?;
    let (first, second) = (four_users(rt.alloc())?, four_users(rt.alloc())?);
    twin.site.arrive_within(rt, first.messages, most);
    twin.site.arrive_within(rt, second.messages, most);
    Ok(twin.site.cut(rt)?)
}

#[test]
fn pending_messages_wait_where_they_are_fewer_than_may(rt: HostRuntime) -> Result<(), Fail> {
    assert_eq!(rt; take_twice_and_cut(&rt, 3)?, 2);
    Ok(())
}

#[test]
fn pending_messages_are_applied_before_where_they_are_as_many_as_may(
    rt: HostRuntime,
) -> Result<(), Fail> {
    assert_eq!(rt; take_twice_and_cut(&rt, 2)?, 0);
    Ok(())
}

#[test]
fn a_batch_is_applied_at_the_third_arrival(rt: HostRuntime) -> Result<(), Fail> {
    let mut twin = twin_of(rt.alloc(), 1, 3, 1_000_000)?;
    assert_eq!(rt; twin.arrive_three(&rt)?, [Arrival::Released(1); 3]);
    assert_eq!(rt; twin.site.cut(&rt)?, 0);
    Ok(())
}

// Of the other site; each waits for a message of this one.
const COMMENTS: [&str; 2] = [
    "msg,1,1,1,0,1:0,comment,0.1,0.1,0.1,1,x",
    "msg,1,1,2,0,1:1,comment,0.1,0.1,0.1,1,y",
];

#[test]
fn a_batch_is_applied_at_a_request_that_releases_three(rt: HostRuntime) -> Result<(), Fail> {
    let mut twin = twin_of(rt.alloc(), 0, 3, 1_000_000)?;
    for comment in COMMENTS {
        assert_eq!(rt; twin.arrive(&rt, comment)?, Arrival::Held);
    }
    let nick = Nick::read(b"ann").ok_or("a nickname")?;
    assert_eq!(rt; twin.site.request(&rt, Ask::User(nick))?.id().seq, 1);
    assert_eq!(rt; twin.site.history().len(), 3);
    assert_eq!(rt; twin.site.cut(&rt)?, 0);
    Ok(())
}
