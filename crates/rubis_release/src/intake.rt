//! What a site has taken in: its log, the messages that wait, and the token.

ghost use Rattle.std.specs.Prelude.{◌≡◌, ◌<◌, ◌≤◌, ◌-◌, true, false, Ok, Err, IfOk, IfErr, OnErr, length, map};
ghost use Rattle.rubis_schema.specs.declared.limits.TheConstants.{COUNTED_MAX, KEEP_MAX};
ghost use Rattle.rubis_message.specs.Message.{sites_of};
ghost use Rattle.rubis_message.specs.declared.answers.Arrival.TheVariants as Arrival;
ghost use Rattle.rubis_shadow.specs.Shadows.{InLimits, is_red};
ghost use Rattle.rubis_model.specs.Site.{opening_at, made, after_made, arrived, standing_of, is_full, is_current, is_repeat, not_ours};
ghost use Rattle.rubis_release.specs.declared.intake.IntakeFault.TheVariants.{Memory, Refused};
ghost use Rattle.rubis_release.specs.Release as model;
ghost use Rattle.rubis_release.specs.Release.{IsIntake, IsAmong, clock_of, IsFaultOf};

mod tokens;

use crate::messages::Messages;
use rubis_clock::{Clock, Stamp};
use rubis_generate::Standing;
use rubis_message::{Arrival, Message};
use rubis_schema::{Hashes, Id, Refusal};
use rubis_shadow::{Colour, Shadow};
use std::alloc::{AllocError, AllocFailed, Global};
use std::marker::Model;
use std::mem;
pub use tokens::Held;

/// Why an intake doesn't take a message in.
#[derive(Drop)]
pub enum IntakeFault {
    /// The message is refused.
    Refused(Refusal),
    /// There is no memory for the message, which comes back.
    Memory(Message),
}

impl From<AllocFailed<Message>> for IntakeFault {
    ghost from_gives = { λ failed fault. fault ≡ Memory failed.value };

    fn from(failed: AllocFailed<Message>) -> IntakeFault {
        IntakeFault::Memory(failed.value)
    }
}

/// What a site has taken in: the log of released messages, those that wait, and the token.
pub struct Intake {
    messages: Messages,
    // How many red numbers were issued, if the site holds the token.
    held: Option<u32>,
    // The greatest turn that the site took.
    last: u32,
    site: u8,
    sites: u8,
    keep: u32,
}

impl Drop for Intake {
    // Proved here, once: a derived drop is proved anew in each crate that lets an intake go.
    fn drop(self) {
        let Intake {
            messages: _,
            held: _,
            last: _,
            site: _,
            sites: _,
            keep: _,
        } = self;
    }
}

impl Model for Intake {
    ghost use Rattle.rubis_release.specs.Release as model;
    ghost use Rattle.rubis_release.specs.Release.{IsUpToDate};

    ghost Value = { model.Intake };

    ghost view = { λ s. record {
      place = record { site = s.site; sites = s.sites; keep = s.keep };
      state = record { log = s.messages.log; waiting = s.messages.waiting; held = s.held; last = s.last };
    } };

    ghost invariant = { λ s. IsUpToDate (record {
      place = record { site = s.site; sites = s.sites; keep = s.keep };
      state = record { log = s.messages.log; waiting = s.messages.waiting; held = s.held; last = s.last };
    })
        s.messages.sites };
}

impl Intake {
    /// A site with nothing done, of 1 to 16 sites, that keeps 1 to 1,000,000 messages. Its waiting messages are hashed alike in
    /// each run.
    pub fn new(alloc: Global, site: u8, sites: u8, keep: u32) -> Result<Intake, AllocError>
        requires sites { sites ≤ COUNTED_MAX }
        requires site { site < sites }
        requires some { 1 ≤ keep }
        requires keep { keep ≤ KEEP_MAX }
        ensures { IfOk result (λ intake. intake ≡ record { place = record { site = site; sites = sites; keep = keep }; state = opening_at site }) }
    {
        Intake::hashed(alloc, site, sites, keep, Hashes::fixed())
    }

    /// The same, with these hashes for its waiting messages.
    pub fn hashed(
        alloc: Global,
        site: u8,
        sites: u8,
        keep: u32,
        hashes: Hashes,
    ) -> Result<Intake, AllocError>
        requires sites { sites ≤ COUNTED_MAX }
        requires site { site < sites }
        requires some { 1 ≤ keep }
        requires keep { keep ≤ KEEP_MAX }
        ensures { IfOk result (λ intake. intake ≡ record { place = record { site = site; sites = sites; keep = keep }; state = opening_at site }) }
    {
        Ok(Intake {
            messages: Messages::new(alloc, sites, hashes),
            held: if site == 0 { Some(0) } else { None },
            last: 0,
            site,
            sites,
            keep,
        })
    }

    /// The released messages, in release order.
    pub fn log(&self) -> &[Message]
        ensures value { result.now ≡ self.now.state.log }
        ensures conditions { IsIntake self.now }
    {
        self.messages.log()
    }

    /// How many messages of each site were released, and how many red ones.
    pub fn clock(&self) -> &Clock
        ensures counts { result.now ≡ clock_of self.now.place.sites self.now.state.log }
        ensures conditions { IsIntake self.now }
    {
        self.messages.clock()
    }

    /// How many messages wait.
    pub fn waiting(&self) -> usize
        ensures value { result ≡ length self.now.state.waiting }
        ensures conditions { IsIntake self.now }
    {
        self.messages.waiting().len()
    }

    /// The messages that wait, in arrival order.
    ///
    /// # Errors
    ///
    /// `AllocError` if memory runs out.
    pub fn waiting_messages<'a>(&'a self, alloc: Global) -> Result<Vec<&'a Message>, AllocError>
        ensures value { IfOk result (λ messages. map (λ m. m.now) messages.items ≡ self.now.state.waiting) }
        ensures conditions { IsIntake self.now }
    {
        self.messages.waiting().messages(alloc)
    }

    /// Which site it is.
    pub fn site(&self) -> u8
        ensures value { result ≡ self.now.place.site }
        ensures conditions { IsIntake self.now }
    {
        self.site
    }

    /// What a decision has to know of the site.
    pub fn standing(&self) -> Standing
        ensures value { result ≡ standing_of self.now.place.keep self.now.state }
        ensures conditions { IsIntake self.now }
    {
        Standing {
            full: self.is_full(),
            holds: self.held.is_some(),
            current: self.held == Some(self.messages.clock().red()),
        }
    }

    /// Takes the intake out, and leaves one with nothing done and the same hashes in its place.
    pub fn take(&mut self) -> Intake
        ensures taken { result ≡ self.old }
        ensures left { self.new ≡ record { place = self.old.place; state = opening_at self.old.place.site } }
    {
        let fresh = Intake {
            messages: self.messages.fresh(self.sites),
            held: if self.site == 0 { Some(0) } else { None },
            last: 0,
            site: self.site,
            sites: self.sites,
            keep: self.keep,
        };
        mem::replace(self, fresh)
    }

    /// Takes a message in that arrived. It waits until it is ready, and all that is ready then is released.
    ///
    /// A message that says that this site made it, and it didn't, is refused, and one that comes where the site is
    /// full. One that came before is a repeat. After an error nothing has changed.
    #[inline(always)]
    pub fn arrive(&mut self, message: Message) -> Result<Arrival, IntakeFault>
        requires { sites_of message ≡ self.old.place.sites }
        ensures place { self.new.place ≡ self.old.place }
        ensures step { IfOk result (λ answer. (self.new.state, Ok answer) ≡ arrived self.old.place self.old.state message) }
        ensures err { OnErr result (self.new ≡ self.old) }
        ensures fault { IfErr result (IsFaultOf self.old.place self.old.state message) }
    {
        if self.is_not_ours(&message) {
            return Err(IntakeFault::Refused(Refusal::NotOurs));
        }
        if self.is_repeat(&message) {
            return Ok(Arrival::Repeat);
        }
        if self.is_full() {
            return Err(IntakeFault::Refused(Refusal::Full));
        }
        let before = self.messages.log().len();
        self.messages.take_in(message)?;
        let released = (self.messages.log().len() - before) as u32;
        if released == 0 {
            return Ok(Arrival::Held);
        }
        Ok(Arrival::Released(released))
    }

    /// Makes the site's next message of a shadow and releases it, and all that is ready then. Without memory nothing
    /// has changed.
    #[inline(always)]
    pub fn generated(&mut self, shadow: Shadow) -> Result<Message, AllocError>
        requires room { is_full self.old.place.keep self.old.state ≡ false }
        requires right { is_red shadow ≡ true → is_current self.old.state ≡ true }
        requires limits { InLimits self.old.place.sites shadow }
        ensures place { self.new.place ≡ self.old.place }
        ensures made { IfOk result (λ m. m ≡ made self.old.place self.old.state shadow) }
        ensures state { IfOk result (λ m. self.new.state ≡ after_made self.old.place self.old.state shadow) }
        ensures err { OnErr result (self.new ≡ self.old) }
    {
        let message = Message::new(self.next_stamp(&shadow), shadow);
        let copy = message.copy()?;
        self.messages.release(message)?;
        let red = copy.red();
        self.held = if red == 0 { self.held } else { Some(red) };
        Ok(copy)
    }

    // Whether released and waiting messages are as many as the site keeps.
    #[inline(always)]
    fn is_full(&self) -> bool
        ensures { result ≡ is_full self.now.place.keep self.now.state }
    {
        self.messages.log().len() + self.messages.waiting().len() >= self.keep as usize
    }

    // Whether the message says that this site made it, and it didn't.
    #[inline(always)]
    fn is_not_ours(&self, message: &Message) -> bool
        ensures { result ≡ not_ours self.now.place self.now.state message.now }
    {
        let id = message.id();
        id.site == self.site && id.seq > self.messages.clock().count(self.site)
    }

    // Whether a message with that id is released or waits.
    #[inline(always)]
    fn is_repeat(&self, message: &Message) -> bool
        requires { sites_of message.now ≡ self.now.place.sites }
        ensures value { result ≡ is_repeat self.now.state message.now }
        ensures site { IsAmong self.now.place.sites message.now }
    {
        let id = message.id();
        id.seq <= self.messages.clock().count(id.site) || self.messages.waiting().has(&id)
    }

    // The stamp of the message that the site makes of the shadow.
    #[inline(always)]
    fn next_stamp(&self, shadow: &Shadow) -> Stamp
        requires room { is_full self.now.place.keep self.now.state ≡ false }
        requires right { is_red shadow.now ≡ true → is_current self.now.state ≡ true }
        ensures { result ≡ (made self.now.place self.now.state shadow.now).stamp }
    {
        let clock = self.messages.clock();
        let red = match shadow.colour() {
            Colour::Red => clock.red() + 1,
            Colour::Blue => 0,
        };
        Stamp {
            id: Id {
                site: self.site,
                seq: clock.count(self.site) + 1,
            },
            red,
            deps: clock.deps(),
        }
    }
}
