//! Tests of several sites in one run: each call once, with enough memory, and streams that fail.

use crate::failing_streams::{read_until_each_byte, write_until_each_call};
use crate::records::LATE_BID;
use crate::rigs::Rig;
use rubis_engine::Count;
use rubis_message::{Arrival, Request, Taken};
use rubis_schema::{Listing, Nick, Refusal};
use rubis_shadow::Ask;
use rubis_world::{Fault, Happened, World, WorldConfig, WorldFault, run_world};
use std::alloc::Global;
use std::test::Fail;

// How two sites are set up.
fn config_of_two() -> Result<WorldConfig, Fail> {
    Ok(WorldConfig::new(2, 4, 2, 64, 1_000_000).ok_or("a configuration")?)
}

/// Two sites with nothing done.
pub fn two_sites(alloc: Global) -> Result<World, Fail> {
    let config = config_of_two()?;
    Ok(World::new(alloc, &config)?)
}

// A user is registered at the first site, and the token handed on.
fn send_two(rt: &impl Rig, world: &mut World) -> Result<(), Fail> {
    let ann = Nick::read(b"ann").ok_or("a nickname")?;
    let user = world.at(rt, 0, Request::Ask(Ask::User(ann)))?;
    assert!(rt; matches!(user, Happened::Sent(1)));
    let token = world.at(rt, 0, Request::Pass(1))?;
    assert!(rt; matches!(token, Happened::Sent(2)));
    Ok(())
}

// The token comes to the second site, once and again.
fn take_token_twice(rt: &impl Rig, world: &mut World) -> Result<(), Fail> {
    let first = world.deliver(rt, 1, 2)?;
    assert!(rt; matches!(first, Happened::Token(Taken::Holding)));
    let second = world.deliver(rt, 1, 2)?;
    assert!(rt; matches!(second, Happened::Token(Taken::Repeat)));
    Ok(())
}

// The user comes to the second site, and is listed there.
fn list_user(rt: &impl Rig, world: &mut World) -> Result<(), Fail> {
    let came = world.deliver(rt, 1, 1)?;
    assert!(rt; matches!(came, Happened::Came(Arrival::Released(1))));
    let listed = world.at(rt, 1, Request::List(Listing::Users))?;
    assert!(rt; matches!(&listed, Happened::Rows(rows) if rows.len() == 1));
    Ok(())
}

#[test]
fn a_message_and_the_token_cross(rt: HostRuntime) -> Result<(), Fail> {
    let mut world = two_sites(rt.alloc())?;
    send_two(&rt, &mut world)?;
    take_token_twice(&rt, &mut world)?;
    list_user(&rt, &mut world)?;
    assert_eq!(rt; world.packets().len(), 2);
    Ok(())
}

// Packets that nobody sent, and a site that isn't there.
fn deliver_wrongly(rt: &impl Rig, world: &mut World) {
    let faults = [
        world.deliver(rt, 0, 9).err(),
        world.deliver(rt, 0, 0).err(),
        world.deliver(rt, 7, 1).err(),
    ];
    let unsent = Some(WorldFault::NoSuchPacket);
    assert_eq!(rt; faults, [unsent, unsent, Some(WorldFault::BadEvent)]);
}

// A site that isn't there, and one that doesn't hold the token.
fn pass_wrongly(rt: &impl Rig, world: &mut World) {
    let nowhere = world.at(rt, 2, Request::Pass(1)).err();
    assert_eq!(rt; nowhere, Some(WorldFault::BadEvent));
    let no_token = world.at(rt, 1, Request::Pass(0)).err();
    assert_eq!(rt;
        no_token,
        Some(WorldFault::Site(Fault::Refused(Refusal::NoToken)))
    );
}

#[test]
fn what_is_no_event_is_refused(rt: HostRuntime) -> Result<(), Fail> {
    let mut world = two_sites(rt.alloc())?;
    deliver_wrongly(&rt, &mut world);
    pass_wrongly(&rt, &mut world);
    Ok(())
}

// A user of two sites, who comes to the second.
const RECORDS: &[u8] = b"at,0,user,ann\ndeliver,1,1\naudit\n";

const ANSWERS: &[u8] =
    b"at,0,reply,1,ok,0.1\nat,0,send,msg,1,0,1,1,0:0,user,ann\nat,1,reply,2,released,1\naudit,Agree\n";

#[test]
fn a_run_of_two_sites(rt: HostRuntime) -> Result<(), Fail> {
    let config = config_of_two()?;
    let mut out = Vec::new(rt.alloc());
    let end = run_world(&rt, rt.alloc(), RECORDS, &mut out, &config);
    assert!(rt; end == Ok(Count { records: 3 }));
    assert!(rt; out.as_slice() == ANSWERS);
    Ok(())
}

const LATE_BID_ANSWERED: &[u8] = b"\
at,0,reply,1,ok,0.1
at,0,send,msg,1,0,1,1,0:0,user,ann
at,0,reply,2,ok,0.2
at,0,send,msg,1,0,2,2,1:0,user,bob
at,0,reply,3,ok,0.3
at,0,send,msg,1,0,3,0,2:0,item,0.1,lamp,7,1,100,0
at,0,reply,4,ok,0.4
at,0,send,msg,1,0,4,3,3:0,close,0.3,7,none
at,0,reply,5,passed
at,0,send,token,1,1,1,3
at,1,reply,6,released,1
at,1,reply,7,released,1
at,1,reply,8,released,1
at,1,reply,9,holding
at,1,reply,10,refused,4,RedBehind
at,1,reply,11,released,1
at,1,reply,12,refused,8,Closed
audit,Agree
";

#[test]
fn a_failing_reader(rt: HostRuntime) -> Result<(), Fail> {
    let config = config_of_two()?;
    let (text, answers) = (LATE_BID, LATE_BID_ANSWERED);
    read_until_each_byte(&rt, text, answers, text.len(), answers, |reader, out| {
        run_world(&rt, rt.alloc(), reader, out, &config)
    });
    Ok(())
}

#[test]
fn a_failing_writer(rt: HostRuntime) -> Result<(), Fail> {
    let config = config_of_two()?;
    write_until_each_call(&rt, LATE_BID_ANSWERED, |writer| {
        run_world(&rt, rt.alloc(), LATE_BID, writer, &config)
    });
    Ok(())
}
