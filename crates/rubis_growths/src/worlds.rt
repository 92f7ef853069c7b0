//! The calls of several sites.

use crate::telling::{Host, Stop, TRIES, tell_fault, tell_refused};
use rubis_message::{Happened, Request};
use rubis_schema::{Listing, Nick};
use rubis_shadow::Ask;
use rubis_world::{Fault, World, WorldConfig, WorldFault};

/// How many users are registered before the second site applies any.
const USERS: u64 = 20;

// Two sites, each with `workers` workers and batches of `batch` messages.
fn two_sites(rt: &impl Host, workers: u8, batch: u32) -> Result<World, Stop> {
    let config = WorldConfig::new(2, 5, workers, batch, 1000).ok_or(Stop::GaveUp)?;
    Ok(World::new(rt.alloc(), &config)?)
}

// Tells what happened.
fn tell(rt: &impl Host, happened: &Happened) {
    let _ = match happened {
        Happened::Sent(number) => println!(rt; "sent {number}"),
        Happened::Came(arrival) => println!(rt; "{arrival:?}"),
        Happened::Token(taken) => println!(rt; "{taken:?}"),
        Happened::Rows(rows) => {
            let count = rows.len();
            println!(rt; "rows {count}")
        }
    };
}

/// What happens at a site.
#[derive(Clone, Copy)]
enum WorldEvent {
    User(Nick),
    Pass(u8),
    ListUsers,
    Deliver(u64),
}

// Has an event happen at a site.
fn happen(
    rt: &impl Host,
    world: &mut World,
    site: u8,
    event: &WorldEvent,
) -> Result<Happened, WorldFault> {
    match event {
        WorldEvent::User(nick) => world.at(rt, site, Request::Ask(Ask::User(*nick))),
        WorldEvent::Pass(to) => world.at(rt, site, Request::Pass(*to)),
        WorldEvent::ListUsers => world.at(rt, site, Request::List(Listing::Users)),
        WorldEvent::Deliver(number) => world.deliver(rt, site, *number),
    }
}

// Has an event happen at a site, and tells what came of it: whether it was answered. Else the site is behind, and stays so.
fn tell_event(
    rt: &impl Host,
    world: &mut World,
    site: u8,
    event: &WorldEvent,
) -> Result<bool, Stop> {
    for _ in 0..TRIES {
        let sent = world.packets().len();
        let answer = happen(rt, world, site, event);
        let same = world.packets().len() == sent;
        match answer {
            Ok(happened) => {
                tell(rt, &happened);
                return Ok(true);
            }
            Err(WorldFault::Memory) => tell_refused(rt, "World", same),
            Err(WorldFault::Site(Fault::Behind)) => {
                tell_fault(rt, "World", "behind", same);
                return Ok(false);
            }
            Err(_) => return Err(Stop::GaveUp),
        }
    }
    Err(Stop::GaveUp)
}

// Has events happen at sites, each of which is answered.
fn tell_events(rt: &impl Host, world: &mut World, events: &[(u8, WorldEvent)]) -> Result<(), Stop> {
    for (site, event) in events {
        if !tell_event(rt, world, *site, event)? {
            return Err(Stop::GaveUp);
        }
    }
    Ok(())
}

// Tells the auditor's verdict, which is asked for again where memory is refused.
fn tell_check(rt: &impl Host, world: &mut World) -> Result<(), Stop> {
    let mut verdict = world.check(rt);
    if verdict == Err(WorldFault::Memory) {
        tell_refused(rt, "World::check", true);
        verdict = world.check(rt);
    }
    let verdict = verdict.or(Err(Stop::GaveUp))?;
    let _ = println!(rt; "{verdict:?}");
    Ok(())
}

// The user of that nickname.
fn user(nick: &[u8]) -> Result<WorldEvent, Stop> {
    Ok(WorldEvent::User(Nick::read(nick).ok_or(Stop::GaveUp)?))
}

/// Each call of a world whose sites apply each message as it comes, so that none is ever behind.
pub fn world_calls(rt: &impl Host) -> Result<(), Stop> {
    let mut world = two_sites(rt, 1, 1)?;
    let events = [
        (0, user(b"ann")?),
        (0, WorldEvent::Pass(1)),
        (1, WorldEvent::Deliver(1)),
        (1, WorldEvent::Deliver(2)),
        (1, user(b"bob")?),
        (0, WorldEvent::Deliver(3)),
        (0, WorldEvent::ListUsers),
    ];
    tell_events(rt, &mut world, &events)?;
    tell_check(rt, &mut world)
}

/// A site to which many messages came decides an ask: first it applies them, in shares. If memory for a part is refused then,
/// the site is behind, sends nothing, and answers no more.
pub fn world_behind(rt: &impl Host) -> Result<(), Stop> {
    let mut world = two_sites(rt, 4, 1000)?;
    for number in 0..USERS {
        let nick = user(&[b'u', b'a'.saturating_add(number as u8)])?;
        let events = [(0, nick), (1, WorldEvent::Deliver(number + 1))];
        tell_events(rt, &mut world, &events)?;
    }
    let events = [
        (0, WorldEvent::Pass(1)),
        (1, WorldEvent::Deliver(USERS + 1)),
    ];
    tell_events(rt, &mut world, &events)?;
    if tell_event(rt, &mut world, 1, &user(b"zed")?)? {
        return tell_check(rt, &mut world);
    }
    match tell_event(rt, &mut world, 1, &WorldEvent::ListUsers)? {
        true => Err(Stop::GaveUp),
        false => Ok(()),
    }
}
