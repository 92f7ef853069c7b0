//! Several sites in one run, with all packets that they send, and what each record did.

ghost use Rattle.std.specs.Prelude.{◌≡◌, ◌<◌, ◌≤◌, Err, IfErr, IfOk, ℕ, length};
ghost use Rattle.rubis_model.specs.Laws.{InRun};
ghost use Rattle.rubis_model.specs.System.{IsEvent};
ghost use Rattle.rubis_model.specs.System.Event.{At};
ghost use Rattle.rubis_schema.specs.declared.limits.TheConstants.{KEEP_MAX, SITES_MAX};
ghost use Rattle.rubis_message.specs.declared.answers.Verdict.TheVariants.{Agree};
ghost use Rattle.rubis_model.specs.Verdict.{verdict};
ghost use Rattle.rubis_model.specs.WorldRecords.{logs_of};
ghost use Rattle.rubis_script.specs.Replica.{IsCount};
ghost use Rattle.rubis_script.specs.Replica.fault_variants as Fault;
ghost use Rattle.rubis_world.specs.Worlds.{AnswersDelivery, AnswersRequest, ComesToWorld, left_behind, opening_world, IsCheckFault};
ghost use Rattle.rubis_world.specs.declared.faults.WorldFault.TheVariants as WorldFault;

use crate::checks::check;
use crate::config::WorldConfig;
use crate::faults::WorldFault;
use crate::sites::Sites;
use rubis_message::{Happened, Packet, Request, Verdict};
use rubis_schema::Hashes;
use std::alloc::{AllocError, Global};
use std::marker::Model;
use std::sync::Wait;
use std::thread::Threads;

/// Several sites in one run, with all packets that they ever sent. After every call their logs causally serialize one
/// RedBlue order, and the invariants hold over all of them.
#[derive(Drop)]
pub struct World {
    sites: Sites,
    hashes: Hashes,
    alloc: Global,
}

impl Model for World {
    ghost use Rattle.rubis_world.specs.Worlds.{WorldState, IsWorld};

    ghost Value = { WorldState };

    ghost view = { λ w. w.sites };

    ghost invariant = { λ w. IsWorld w.sites };
}

impl World {
    /// Sites with nothing done, set up so.
    pub fn new(alloc: Global, config: &WorldConfig) -> Result<World, AllocError>
        ensures start { IfOk result (λ world. world ≡ opening_world config.now.keep config.now.sites) }
        ensures run { IfOk result (λ world. InRun world.world) }
        ensures limits { IfOk result (λ _. IsCount config.now.sites SITES_MAX × IsCount config.now.keep KEEP_MAX) }
    {
        Ok(World {
            sites: Sites::new(alloc, config)?,
            hashes: config.hashes(),
            alloc,
        })
    }

    /// How many sites there are, 1 to 16.
    pub fn sites(&self) -> u8
        ensures value { result ≡ length self.now.world.sites }
        ensures few { result ≤ SITES_MAX }
    {
        self.sites.len() as u8
    }

    /// A request at a site. What the site sends is the last packet then, and the answer has its number. After a fault, out
    /// of memory included, the logs, the waiting messages, the token and the packets are as they were.
    pub fn at<R: Threads + Wait + Sync>(
        &mut self,
        rt: &R,
        site: u8,
        request: Request,
    ) -> Result<Happened, WorldFault>
        requires { IsEvent (length self.old.world.sites) (At site request) }
        ensures answers { AnswersRequest site request self.old self.new result }
        ensures run { InRun self.new.world }
    {
        self.sites.at(rt, site, request)
    }

    /// The delivery of packet `number`, counted from 1 over all sites, to a site. A packet is never used up: it may be
    /// delivered again, to that site and to any other. A fault changes nothing, as with `at`.
    pub fn deliver<R: Threads + Wait + Sync>(
        &mut self,
        rt: &R,
        site: u8,
        number: u64,
    ) -> Result<Happened, WorldFault>
        ensures answers { AnswersDelivery site number self.old self.new result }
        ensures run { InRun self.new.world }
    {
        self.sites.deliver(rt, site, number)
    }

    /// The auditor's verdict on the logs of all sites, each with its tables: in a run it is always Agree. All that is
    /// pending at a site is applied first. A site that is behind has no tables to show, and its world no verdict.
    pub fn check<R: Threads + Wait + Sync>(&mut self, rt: &R) -> Result<Verdict, WorldFault>
        ensures same { ComesToWorld self.old self.new self.old.world }
        ensures verdict { IfOk result (λ found. found ≡ verdict (logs_of self.old.world)) }
        ensures agrees { IfOk result (λ found. found ≡ Agree) }
        ensures waits { (i : ℕ) → i < length self.old.world.sites → 0 < left_behind self.old i → (result ≡ Err (WorldFault.Site Fault.Behind))
            × (self.new ≡ self.old) }
        ensures faults { IfErr result (IsCheckFault self.new) }
        ensures run { InRun self.new.world }
    {
        check(rt, self.alloc, &mut self.sites, self.hashes)
    }

    /// All packets that were sent, in the order in which they were sent.
    pub fn packets(&self) -> &[Packet]
        ensures value { result.now ≡ self.now.world.sent }
        ensures run { InRun self.now.world }
    {
        self.sites.packets()
    }
}
