//! Messages by origin and number, and those that become ready as others are released.

ghost use Rattle.std.specs.Prelude.{◌≡◌, ◌≤◌, ◌++◌, [], ◌∷◌, false, length, IfErr, OnOk, OnErr};
ghost use Rattle.std.specs.List.{list_any};
ghost use Rattle.rubis_schema.specs.declared.limits.TheConstants.{COUNTED_MAX};
ghost use Rattle.rubis_schema.specs.Keys.{same_id};
ghost use Rattle.rubis_clock.specs.Clocks.{IsReady};
ghost use Rattle.rubis_model.specs.Site.{Settles};
ghost use Rattle.rubis_release.specs.Release.{IsAmong, clock_of, HaveSettled};
ghost use Rattle.rubis_release.specs.Release as model;

use crate::waiting::Waiting;
use rubis_clock::Clock;
use rubis_message::Message;
use rubis_schema::Hashes;
use std::alloc::{AllocError, AllocFailed, Global};
use std::marker::Model;

// The messages of a site: those that it released, and those that wait to be released.
#[derive(Drop)]
pub struct Messages {
    // Those released, in release order. It has room for all that wait.
    log: Vec<Message>,
    waiting: Waiting,
    // What the waiting messages are hashed by.
    hashes: Hashes,
    // The clock that counts the log.
    clock: Clock,
}

impl Model for Messages {
    ghost use Rattle.std.specs.Prelude.{length};
    ghost use Rattle.rubis_release.specs.Release as model;
    ghost use Rattle.rubis_release.specs.Release.{AreCounted};

    ghost Value = { model.Messages };

    ghost view = { λ s. record { sites = length s.clock.counts; log = s.log.items; waiting = s.waiting } };

    ghost invariant = { λ s. AreCounted s.log s.waiting s.clock };
}

impl Messages {
    // No messages, of at most 16 sites. Those that come to wait are hashed by `hashes`.
    #[inline(always)]
    pub fn new(alloc: Global, sites: u8, hashes: Hashes) -> Messages
        requires { sites ≤ COUNTED_MAX }
        ensures { result ≡ record { sites = sites; log = []; waiting = [] } }
    {
        Messages {
            log: Vec::new(alloc),
            waiting: Waiting::new(alloc, hashes),
            hashes,
            clock: Clock::new(sites),
        }
    }

    // No messages, of at most 16 sites, with the allocator and the hashes of these.
    #[inline(always)]
    pub fn fresh(&self, sites: u8) -> Messages
        requires { sites ≤ COUNTED_MAX }
        ensures { result ≡ record { sites = sites; log = []; waiting = [] } }
    {
        Messages::new(*self.log.allocator(), sites, self.hashes)
    }

    // The released messages, in release order.
    #[inline(always)]
    pub fn log(&self) -> &[Message]
        ensures { result.now ≡ self.now.log }
    {
        self.log.as_slice()
    }

    // How many messages of each site were released, and how many red ones.
    #[inline(always)]
    pub fn clock(&self) -> &Clock
        ensures { result.now ≡ clock_of self.now.sites self.now.log }
    {
        &self.clock
    }

    // Those that wait, in arrival order.
    #[inline(always)]
    pub fn waiting(&self) -> &Waiting
        ensures { result.now ≡ self.now.waiting }
    {
        &self.waiting
    }

    // Takes a message in where none that waits is ready. One that is ready is released, and then what else is; one that
    // isn't waits after the others. Without memory nothing has changed.
    #[inline(always)]
    pub fn take_in(&mut self, message: Message) -> Result<(), AllocFailed<Message>>
        requires site { IsAmong self.old.sites message }
        requires settled { HaveSettled self.old }
        requires new { list_any (λ m. same_id message.stamp.id m.stamp.id) self.old.waiting ≡ false }
        ensures sites { self.new.sites ≡ self.old.sites }
        ensures settles { OnOk result (Settles self.old.log (self.old.waiting ++ message ∷ []) self.new.log self.new.waiting) }
        ensures settled { HaveSettled self.new }
        ensures err { OnErr result (self.new ≡ self.old) }
        ensures back { IfErr result (λ e. e.value ≡ message) }
    {
        if message.is_ready(&self.clock) {
            return self.release(message);
        }
        let Ok(_) = self.log.reserve(self.waiting.len() + 1) else {
            return Err(AllocFailed { value: message });
        };
        self.waiting.push(message)?;
        Ok(())
    }

    // Releases a message where none that waits is ready, and then what else is. Without memory nothing has changed.
    #[inline(always)]
    pub fn release(&mut self, message: Message) -> Result<(), AllocFailed<Message>>
        requires site { IsAmong self.old.sites message }
        requires ready { IsReady (clock_of self.old.sites self.old.log) message.stamp }
        requires settled { HaveSettled self.old }
        ensures sites { self.new.sites ≡ self.old.sites }
        ensures settles { OnOk result (Settles (self.old.log ++ message ∷ []) self.old.waiting self.new.log self.new.waiting) }
        ensures settled { HaveSettled self.new }
        ensures err { OnErr result (self.new ≡ self.old) }
        ensures back { IfErr result (λ e. e.value ≡ message) }
    {
        let Ok(_) = self.log.reserve(self.waiting.len() + 1) else {
            return Err(AllocFailed { value: message });
        };
        message.count_in(&mut self.clock);
        self.log.push_reserved(message);
        self.settle();
        Ok(())
    }

    // Releases what is ready, the earliest first, until nothing is.
    #[inline(always)]
    fn settle(&mut self)
        ensures sites { self.new.sites ≡ self.old.sites }
        ensures settles { Settles self.old.log self.old.waiting self.new.log self.new.waiting }
        ensures settled { HaveSettled self.new }
    {
        while let Some(message) = self.waiting.take_ready(&self.clock) {
            message.count_in(&mut self.clock);
            self.log.push_reserved(message);
        }
    }
}
