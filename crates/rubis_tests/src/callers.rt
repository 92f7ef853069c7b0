//! A caller of each of the three: a site, several sites, and an audit. The page for callers shows these functions.

ghost use Rattle.std.specs.Prelude.{◌≡◌, ◌≤◌, IfOk, Ok, length, true};
ghost use Rattle.rubis_schema.specs.declared.limits.TheConstants.{COUNTED_MAX};
ghost use Rattle.rubis_audit.specs.Walks.{HaveMessagesAmong};
ghost use Rattle.rubis_model.specs.Audit.{AreSound};
ghost use Rattle.rubis_model.specs.Laws.{InRun};
ghost use Rattle.rubis_model.specs.Site.{asked, opening_at};
ghost use Rattle.rubis_world.specs.Script.{setup_place};
ghost use Rattle.rubis_shadow.specs.Shadows.{IsAsk};
ghost use Rattle.rubis_shadow.specs.declared.shadows.Ask.TheVariants as Ask;

use crate::worlds::two_sites;
use rubis_audit::{Log, Verdict, audit};
use rubis_message::{Arrival, Message, Request};
use rubis_schema::Nick;
use rubis_shadow::Ask;
use rubis_world::{Config, Fault, Free, Happened, Site, World, WorldFault};
use std::alloc::{AllocError, Global};
use std::sync::Wait;
use std::test::Fail;
use std::thread::Threads;

/// The message with which the first user of a new site is registered, to be sent to the other sites.
pub fn first_user<R: Threads + Wait + Sync>(
    rt: &R,
    alloc: Global,
    config: &Config,
    nick: Nick,
) -> Result<Message, Fault>
    ensures { IfOk result (λ message. (asked (setup_place config.now) (opening_at config.now.site) (Ask.User nick)).1 ≡ Ok message) }
{
    let mut site = Site::new(alloc, config, Free)?;
    site.request(rt, Ask::User(nick))
}

/// What an ask at one site came to, and where it was accepted, what became of its message at another site. Whatever happened,
/// all that is proved of every run holds of the sites.
pub fn ask_and_deliver<R: Threads + Wait + Sync>(
    rt: &R,
    world: &mut World,
    from: u8,
    ask: Ask,
    to: u8,
) -> Result<Happened, WorldFault>
    requires { IsAsk (length world.old.world.sites) ask }
    ensures { InRun world.new.world }
{
    match world.at(rt, from, Request::Ask(ask))? {
        Happened::Sent(number) => world.deliver(rt, to, number),
        answer => Ok(answer),
    }
}

/// Whether the auditor finds no fault in these logs of `sites` sites. If so, they causally serialize one RedBlue order, and the
/// invariants hold over all of them.
pub fn are_in_order(alloc: Global, logs: &[Log], sites: u8) -> Result<bool, AllocError>
    requires few { sites ≤ COUNTED_MAX }
    requires among { HaveMessagesAmong sites logs.now }
    ensures { IfOk result (λ agrees. agrees ≡ true → AreSound logs.now) }
{
    match audit(alloc, logs, sites)? {
        Verdict::Agree => Ok(true),
        _ => Ok(false),
    }
}

#[test]
fn a_first_user_is_registered(rt: HostRuntime) -> Result<(), Fail> {
    let ann = Nick::read(b"ann").ok_or("a nickname")?;
    let config = Config::new(0, 2, 4, 2, 64, 1000).ok_or("a configuration")?;
    let message = first_user(&rt, rt.alloc(), &config, ann)?;
    assert_eq!(rt; message.id().seq, 1);
    Ok(())
}

#[test]
fn an_ask_is_delivered(rt: HostRuntime) -> Result<(), Fail> {
    let ann = Nick::read(b"ann").ok_or("a nickname")?;
    let mut world = two_sites(rt.alloc())?;
    let happened = ask_and_deliver(&rt, &mut world, 0, Ask::User(ann), 1)?;
    assert!(rt; matches!(happened, Happened::Came(Arrival::Released(1))));
    Ok(())
}

#[test]
fn no_logs_are_in_order(rt: HostRuntime) -> Result<(), Fail> {
    assert!(rt; are_in_order(rt.alloc(), &[], 2)?);
    Ok(())
}
