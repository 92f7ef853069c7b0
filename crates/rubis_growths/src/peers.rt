//! A site that is called again where memory is refused, and caught up where it is behind.

ghost use Rattle.std.specs.Prelude.{◌≡◌};

use crate::records::packet;
use crate::telling::{Host, Stop, TRIES, tell_fault, tell_refused};
use rubis_message::Arrival;
use rubis_schema::{Fields, Items, Listing, Refusal};
use rubis_tests::records::Window;
use rubis_world::{Arrived, Config, Fault, Site, SiteGate, Watch};
use std::alloc::Global;
use std::sync::Arc;

/// The second of two sites, and what is seen at its gate.
#[derive(Drop)]
pub struct Peer {
    pub site: Site<SiteGate>,
    watch: Arc<Watch, Global>,
    ghost two: { site.place.sites ≡ 2 },
}

impl Peer {
    /// A site with five shards and four workers, and batches of that many messages.
    pub fn new(rt: &impl Host, batch: u32) -> Result<Peer, Stop> {
        let config = Config::new(1, 2, 5, 4, batch, 1000).ok_or(Stop::GaveUp)?;
        let watch = Arc::new(rt.alloc(), Watch::new(rt.alloc(), 5, 1)?).or(Err(Stop::Refused))?;
        let gate = SiteGate::watched(Arc::try_clone(&watch).or(Err(Stop::GaveUp))?);
        let site = Site::new(rt.alloc(), &config, gate)?;
        Ok(Peer { site, watch })
    }

    // How much the site has taken in.
    fn released(&self) -> usize {
        self.site.history().len()
    }

    // How often the gate was called for each of the shards.
    fn calls(&self) -> [u64; 5] {
        [0, 1, 2, 3, 4].map(|shard| self.watch.count(shard))
    }

    // Applies what is left of a batch, and tells how many parts that were. The gate is called once for each shard.
    fn catch_up(&mut self, rt: &impl Host) -> Result<(), Stop> {
        let once_more = self.calls().map(|count| count.saturating_add(1));
        let parts = self.site.catch_up().or(Err(Stop::GaveUp))?;
        if self.calls() != once_more {
            let _ = println!(rt; "? Site::catch_up: the gate wasn't called once for each shard");
            return Err(Stop::GaveUp);
        }
        let _ = println!(rt; "! Site::catch_up: {parts} parts");
        Ok(())
    }

    // Tells what a fault left of a site that had released that many messages, and applies what is left if the site is behind.
    fn overcome(
        &mut self,
        rt: &impl Host,
        name: &str,
        released: usize,
        fault: Fault,
    ) -> Result<(), Stop> {
        let same = self.released() == released;
        match fault {
            Fault::Memory => tell_refused(rt, name, same && !self.site.is_behind()),
            Fault::Behind => {
                tell_fault(rt, name, "behind", same);
                self.catch_up(rt)?;
            }
            Fault::Refused(_) => return Err(Stop::GaveUp),
        }
        Ok(())
    }

    /// Has the message at a place arrive.
    pub fn arrive(&mut self, rt: &impl Host, place: u32) -> Result<Arrival, Stop> {
        for _ in 0..TRIES {
            let message = packet(rt.alloc(), place)?;
            let released = self.released();
            match self.site.arrive(rt, message) {
                Ok(arrival) => return Ok(arrival),
                Err(fault) => self.overcome(rt, "Site::arrive", released, fault)?,
            }
        }
        Err(Stop::GaveUp)
    }

    /// The rows of a listing.
    pub fn list(&mut self, rt: &impl Host, listing: &Listing) -> Result<Items<Fields>, Stop> {
        for _ in 0..TRIES {
            let released = self.released();
            match self.site.list(rt, listing) {
                Ok(rows) => return Ok(rows),
                Err(fault) => self.overcome(rt, "Site::list", released, fault)?,
            }
        }
        Err(Stop::GaveUp)
    }

    /// Applies what is pending: how many messages that were.
    pub fn cut(&mut self, rt: &impl Host) -> Result<u32, Stop> {
        for _ in 0..TRIES {
            let released = self.released();
            match self.site.cut(rt) {
                Ok(count) => return Ok(count),
                Err(fault) => self.overcome(rt, "Site::cut", released, fault)?,
            }
        }
        Err(Stop::GaveUp)
    }

    // Has messages arrive together: the answers, those that weren't taken in, and why not.
    fn take_in(
        &mut self,
        rt: &impl Host,
        window: Window,
    ) -> (Items<Result<Arrival, Refusal>>, Window, Option<Fault>) {
        let Window { messages } = window;
        let Arrived {
            answers,
            rest,
            fault,
        } = self.site.arrive_all(rt, messages);
        let messages = rest.into();
        (answers, Window { messages }, fault)
    }

    /// Has messages arrive together, and those that weren't taken in again. The first is record `first`; the answer to each is
    /// told.
    pub fn arrive_all(&mut self, rt: &impl Host, window: Window, first: u32) -> Result<(), Stop> {
        let (mut window, mut number) = (window, first);
        for _ in 0..TRIES {
            let released = self.released();
            let (answers, rest, fault) = self.take_in(rt, window);
            window = rest;
            let more = tell_all(rt, &mut number, answers.as_slice());
            let Some(fault) = fault else {
                return Ok(());
            };
            self.overcome(rt, "Site::arrive_all", released.saturating_add(more), fault)?;
        }
        Err(Stop::GaveUp)
    }
}

/// Tells what became of the message that was record `number`.
pub fn tell_arrival(rt: &impl Host, number: u32, arrival: Arrival) {
    let _ = match arrival {
        Arrival::Released(count) => println!(rt; "reply,{number},released,{count}"),
        Arrival::Held => println!(rt; "reply,{number},held"),
        Arrival::Repeat => println!(rt; "reply,{number},repeat"),
    };
}

// Tells what became of messages, and counts their records on: how many messages they released.
fn tell_all(rt: &impl Host, number: &mut u32, answers: &[Result<Arrival, Refusal>]) -> usize {
    let mut released: usize = 0;
    for answer in answers {
        if let Ok(arrival) = answer {
            tell_arrival(rt, *number, *arrival);
            if let Arrival::Released(count) = arrival {
                released = released.saturating_add(*count as usize);
            }
        }
        *number = number.saturating_add(1);
    }
    released
}
