//! Several sites, and all packets that they sent: each call is one step of the model.

ghost use Rattle.std.specs.Prelude.{◌≡◌, ◌<◌, ◌≤◌, IfOk, Err, None, Some, ℕ, length, nat_lt, option_map};
ghost use Rattle.rubis_schema.specs.declared.limits.TheConstants.{KEEP_MAX, SITES_MAX};
ghost use Rattle.rubis_shadow.specs.Shadows.{IsAsk};
ghost use Rattle.rubis_message.specs.declared.requests.Request.TheVariants as Request;
ghost use Rattle.rubis_message.specs.declared.tokens.Packet.{Packet as Sent};
ghost use Rattle.rubis_message.specs.declared.tokens.Packet.TheVariants as Packet;
ghost use Rattle.rubis_model.specs.System.{AllDeliverable, IsDeliverable, IsEvent, coming, happens, packet_at, requested, start, site as site_of};
ghost use Rattle.rubis_model.specs.System.Event.{At, Deliver};
ghost use Rattle.rubis_script.specs.Replica.{IsCount};
ghost use Rattle.rubis_script.specs.Replica.fault_variants as Fault;
ghost use Rattle.rubis_world.specs.Worlds.{Asks, IsNotBehind, StepsWorld, StepsAlone, left_behind, opening_world};
ghost use Rattle.rubis_world.specs.declared.faults.WorldFault.TheVariants as WorldFault;

use crate::config::WorldConfig;
use crate::faults::WorldFault;
use rubis_message::{Happened, Message, Packet, Request};
use rubis_schema::Listing;
use rubis_script::{Fault, Free, Site};
use rubis_shadow::Ask;
use std::alloc::{AllocError, Global};
use std::marker::Model;
use std::sync::Wait;
use std::thread::Threads;

/// The packet with that number, counted from 1, if it was sent.
pub fn packet(sent: &[Packet], number: u64) -> Option<&Packet>
    ensures { option_map (λ p. p.now) result ≡ packet_at sent.now number }
{
    if number == 0 {
        return None;
    }
    sent.get(number as usize - 1)
}

// A copy of the packet.
fn packet_copy(packet: &Packet) -> Result<Packet, AllocError>
    ensures { IfOk result (λ copy. copy ≡ packet.now) }
{
    match packet {
        Packet::Msg(message) => Ok(Packet::Msg(message.copy()?)),
        Packet::Token(token) => Ok(Packet::Token(*token)),
    }
}

/// Sites, and all packets that they ever sent.
#[derive(Drop)]
pub struct Sites {
    sites: Vec<Site>,
    packets: Vec<Packet>,
    keep: u32,
}

impl Model for Sites {
    ghost use Rattle.std.specs.Prelude.{map};
    ghost use Rattle.rubis_script.specs.Replica.{SiteState, left_of};
    ghost use Rattle.rubis_world.specs.Worlds.{AreAtPlaces, WorldState};

    ghost Value = { WorldState };

    ghost view = { λ s. record {
      keep = s.keep;
      world = record { sites = map (λ (x : SiteState). x.state) s.sites.items; sent = s.packets.items };
      left = map (λ (x : SiteState). left_of x.progress) s.sites.items;
    } };

    ghost invariant = { λ s. AreAtPlaces s.keep s.sites.items };
}

impl Sites {
    /// Sites with nothing done, set up so.
    pub fn new(alloc: Global, config: &WorldConfig) -> Result<Sites, AllocError>
        ensures start { IfOk result (λ sites. sites ≡ opening_world config.now.keep config.now.sites) }
        ensures limits { IfOk result (λ sites. IsCount config.now.sites SITES_MAX × IsCount config.now.keep KEEP_MAX) }
    {
        let mut sites = Vec::new(alloc);
        'sites: for site in 0..config.sites() {
            sites.push(Site::new(alloc, &config.site(site), Free)?)?;
        }
        Ok(Sites {
            sites,
            packets: Vec::new(alloc),
            keep: config.keep(),
        })
    }

    /// How many sites there are.
    pub fn len(&self) -> usize
        ensures { result ≡ length self.now.world.sites }
    {
        self.sites.len()
    }

    /// All packets that were sent, in the order in which they were sent.
    pub fn packets(&self) -> &[Packet]
        ensures { result.now ≡ self.now.world.sent }
    {
        self.packets.as_slice()
    }

    /// Whether a site has begun a batch that isn't whole.
    pub fn is_behind(&self, site: usize) -> bool
        requires { site < length self.now.world.sites }
        ensures { result ≡ nat_lt 0 (left_behind self.now site) }
    {
        self.sites[site].is_behind()
    }

    // A site decides an ask.
    fn ask<R: Threads + Wait + Sync>(
        &mut self,
        rt: &R,
        site: usize,
        ask: Ask,
    ) -> Result<Happened, WorldFault>
        requires ready { IsNotBehind site self.old }
        requires ask { IsAsk (length self.old.world.sites) ask }
        ensures { StepsAlone site self.old self.new (requested self.old.keep self.old.world site (Request.Ask ask)) result }
    {
        self.packets.reserve(1)?;
        let message = self.sites[site].request(rt, ask)?;
        self.packets.push_reserved(Packet::Msg(message));
        Ok(Happened::Sent(self.packets.len() as u64))
    }

    // A site hands the token on.
    fn pass(&mut self, site: usize, to: u8) -> Result<Happened, WorldFault>
        requires { IsNotBehind site self.old }
        ensures step { StepsAlone site self.old self.new (requested self.old.keep self.old.world site (Request.Pass to)) result }
        ensures never { result ≡ Err (WorldFault.Site Fault.Behind) → ⊥ }
    {
        self.packets.reserve(1)?;
        let token = self.sites[site].pass(to)?;
        self.packets.push_reserved(Packet::Token(token));
        Ok(Happened::Sent(self.packets.len() as u64))
    }

    /// A site shows rows.
    pub fn list<R: Threads + Wait + Sync>(
        &mut self,
        rt: &R,
        site: usize,
        listing: &Listing,
    ) -> Result<Happened, WorldFault>
        requires site { site < length self.old.world.sites }
        requires ready { left_behind self.old site ≡ 0 }
        ensures step { StepsWorld self.old self.new (requested self.old.keep self.old.world site (Request.List listing.now)) result }
        ensures tables { Asks site self.old self.new result }
    {
        let rows = self.sites[site].list(rt, listing)?;
        Ok(Happened::Rows(rows))
    }

    /// The log of a site, in release order.
    pub fn history(&self, site: usize) -> &[Message]
        requires { site < length self.now.world.sites }
        ensures { result.now ≡ (site_of self.now.world site).log }
    {
        self.sites[site].history()
    }

    /// A request at a site.
    pub fn at<R: Threads + Wait + Sync>(
        &mut self,
        rt: &R,
        site: u8,
        request: Request,
    ) -> Result<Happened, WorldFault>
        requires { IsEvent (length self.old.world.sites) (At site request) }
        ensures step { StepsWorld self.old self.new (happens self.old.keep self.old.world (At site request)) result }
        ensures tables { site < length self.old.world.sites → Asks site self.old self.new result }
        ensures absent { length self.old.world.sites ≤ site → (result ≡ Err WorldFault.BadEvent) × (self.new ≡ self.old) }
        ensures pass { (to : ℕ) → request ≡ Request.Pass to → result ≡ Err (WorldFault.Site Fault.Behind) → 0 < left_behind self.old site }
    {
        let site = usize::from(site);
        if site >= self.sites.len() {
            return Err(WorldFault::BadEvent);
        }
        if self.is_behind(site) {
            return Err(WorldFault::Site(Fault::Behind));
        }
        match request {
            Request::Ask(ask) => self.ask(rt, site, ask),
            Request::Pass(to) => self.pass(site, to),
            Request::List(listing) => self.list(rt, site, &listing),
        }
    }

    // A packet comes to a site.
    fn bring<R: Threads + Wait + Sync>(
        &mut self,
        rt: &R,
        site: usize,
        packet: Packet,
    ) -> Result<Happened, WorldFault>
        requires ready { IsNotBehind site self.old }
        requires fits { IsDeliverable (length self.old.world.sites) packet }
        ensures step { StepsAlone site self.old self.new (coming self.old.keep self.old.world site (Some packet)) result }
        ensures never { result ≡ Err (WorldFault.Site Fault.Behind) → ⊥ }
    {
        match packet {
            Packet::Msg(message) => {
                let arrival = self.sites[site].arrive(rt, message)?;
                Ok(Happened::Came(arrival))
            }
            Packet::Token(token) => {
                let taken = self.sites[site].token(token)?;
                Ok(Happened::Token(taken))
            }
        }
    }

    /// The delivery of packet `number`, counted from 1, to a site.
    pub fn deliver<R: Threads + Wait + Sync>(
        &mut self,
        rt: &R,
        site: u8,
        number: u64,
    ) -> Result<Happened, WorldFault>
        requires { AllDeliverable (length self.old.world.sites) self.old.world.sent }
        ensures step { StepsWorld self.old self.new (happens self.old.keep self.old.world (Deliver site number)) result }
        ensures tables { site < length self.old.world.sites → (p : Sent) → packet_at self.old.world.sent number ≡ Some p → Asks site self.old self.new result }
        ensures absent { length self.old.world.sites ≤ site → (result ≡ Err WorldFault.BadEvent) × (self.new ≡ self.old) }
        ensures unsent { site < length self.old.world.sites → packet_at self.old.world.sent number ≡ None → (result ≡ Err WorldFault.NoSuchPacket)
            × (self.new ≡ self.old) }
        ensures behind { result ≡ Err (WorldFault.Site Fault.Behind) → 0 < left_behind self.old site }
    {
        let site = usize::from(site);
        if site >= self.sites.len() {
            return Err(WorldFault::BadEvent);
        }
        let Some(packet) = packet(self.packets.as_slice(), number) else {
            return Err(WorldFault::NoSuchPacket);
        };
        if self.is_behind(site) {
            return Err(WorldFault::Site(Fault::Behind));
        }
        let packet = packet_copy(packet)?;
        self.bring(rt, site, packet)
    }
}
