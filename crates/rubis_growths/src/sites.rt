//! Each call of a site, alone.

ghost use Rattle.std.specs.Prelude.{◌≡◌};

use crate::peers::{Peer, tell_arrival};
use crate::records::window;
use crate::telling::{Host, Stop, TRIES, tell_refused, tell_rows};
use rubis_message::Request;
use rubis_schema::Listing;
use rubis_tests::records::request;
use rubis_world::{Config, Fault, Free, Site};

/// A site alone.
#[derive(Drop)]
struct Single {
    site: Site,
    ghost one: { site.place.sites ≡ 1 },
}

impl Single {
    // Asks for what a record says: the number of its message.
    fn ask(&mut self, rt: &impl Host, text: &str) -> Result<u32, Stop> {
        for _ in 0..TRIES {
            let Request::Ask(ask) = request(rt.alloc(), text, 1)? else {
                return Err(Stop::GaveUp);
            };
            let released = self.site.history().len();
            match self.site.request(rt, ask) {
                Ok(message) => return Ok(message.id().seq),
                Err(Fault::Memory) => {
                    tell_refused(rt, "Site::request", self.site.history().len() == released);
                }
                Err(_) => return Err(Stop::GaveUp),
            }
        }
        Err(Stop::GaveUp)
    }
}

/// Requests at a site with one worker, which is never behind.
pub fn site_request(rt: &impl Host) -> Result<(), Stop> {
    let config = Config::new(0, 1, 5, 1, 64, 100).ok_or(Stop::GaveUp)?;
    let site = Site::new(rt.alloc(), &config, Free)?;
    let mut single = Single { site };
    for text in [
        "user,ann",
        "user,bob",
        "item,0.1,lamp,7,1,100,0",
        "bid,0.3,0.2,500",
        "comment,0.3,0.2,0.1,5,good",
        "close,0.3,0.1",
        "rename,0.2,bo",
    ] {
        let seq = single.ask(rt, text)?;
        let _ = println!(rt; "message {seq}");
    }
    Ok(())
}

/// A site to which the first messages came, in batches of that many; what became of each is told.
pub fn peer_with(rt: &impl Host, batch: u32, messages: u32) -> Result<Peer, Stop> {
    let mut peer = Peer::new(rt, batch)?;
    for place in 0..messages {
        let arrival = peer.arrive(rt, place)?;
        tell_arrival(rt, place.saturating_add(1), arrival);
    }
    Ok(peer)
}

// Lists the users, as record 41.
fn list_users(rt: &impl Host, peer: &mut Peer) -> Result<(), Stop> {
    tell_rows(rt, 41, &peer.list(rt, &Listing::Users)?);
    Ok(())
}

/// A cut of what is pending, in a batch that workers share.
pub fn site_cut(rt: &impl Host) -> Result<(), Stop> {
    let mut peer = peer_with(rt, 1000, 40)?;
    peer.cut(rt)?;
    let rest = peer.cut(rt)?;
    let _ = println!(rt; "pending {rest}");
    list_users(rt, &mut peer)
}

/// A listing, before which what is pending is applied.
pub fn site_list(rt: &impl Host) -> Result<(), Stop> {
    let mut peer = peer_with(rt, 1000, 40)?;
    list_users(rt, &mut peer)
}

/// Messages that arrive together at a site with messages pending.
pub fn site_arrive_all(rt: &impl Host) -> Result<(), Stop> {
    let mut peer = peer_with(rt, 1000, 20)?;
    peer.arrive_all(rt, window(rt.alloc(), 20, 40)?, 21)?;
    list_users(rt, &mut peer)
}
