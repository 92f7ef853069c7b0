//! A message: a shadow with its stamp.

ghost use Rattle.std.specs.Prelude.{◌≡◌, ◌↔◌, ◌<◌, IfOk, IsTrue, length};
ghost use Rattle.rubis_clock.specs.Clocks.{IsReady, advanced};
ghost use Rattle.rubis_message.specs.Message as model;
ghost use Rattle.rubis_message.specs.Message.{IsMessage, sites_of, message_of, widening};

use rubis_clock::{Clock, PackedDeps, Stamp};
use rubis_schema::Id;
use rubis_shadow::Shadow;
use std::alloc::AllocError;
use std::marker::Model;

/// A shadow with its stamp, which meets the conditions of its record: the stamp has a count for each site, that of
/// the origin is one less than the message's number, the red number is 0 if and only if the shadow is blue, and all ids
/// and numbers are within their limits.
#[derive(Clone)]
pub struct Message {
    // What the stamp is made of, so that logs stay small. The id's number is one more than the count of its site.
    red: u32,
    deps: PackedDeps,
    site: u8,
    shadow: Shadow,
}

impl Drop for Message {
    // Proved here, once: a derived drop is proved anew in each crate that lets a message go.
    fn drop(self) {
        let Message {
            red: _,
            deps: _,
            site: _,
            shadow: _,
        } = self;
    }
}

impl Model for Message {
    ghost use Rattle.rubis_message.specs.Message as model;
    ghost use Rattle.rubis_message.specs.Message.{IsMessage, message_of};

    ghost Value = { model.Message };

    ghost view = { λ m. message_of m.red m.deps m.site m.shadow };

    ghost invariant = { λ m. IsMessage (message_of m.red m.deps m.site m.shadow) };
}

impl Message {
    /// The shadow with that stamp.
    #[inline(always)]
    #[tactic(auto, using(crate::proofs::Widening::message_is, crate::proofs::Widening::parts_meet))]
    pub fn new(stamp: Stamp, shadow: Shadow) -> Message
        requires { IsMessage (record { stamp = stamp; shadow = shadow }) }
        ensures { result ≡ record { stamp = stamp; shadow = shadow } }
    {
        Message {
            red: stamp.red,
            deps: PackedDeps::pack(&stamp.deps),
            site: stamp.id.site,
            shadow,
        }
    }

    /// The shadow with a stamp of these parts.
    #[inline(always)]
    pub(crate) fn of(site: u8, red: u32, deps: PackedDeps, shadow: Shadow) -> Message
        requires { IsMessage (message_of red deps site shadow) }
        ensures { result ≡ message_of red deps site shadow }
    {
        Message {
            red,
            deps,
            site,
            shadow,
        }
    }

    /// The id, the red number and the counts.
    pub fn stamp(&self) -> Stamp
        ensures value { result ≡ self.now.stamp }
        ensures conditions { IsMessage self.now }
    {
        Stamp {
            id: self.id(),
            red: self.red,
            deps: self.deps.unpack(),
        }
    }

    /// The id.
    #[inline(always)]
    pub fn id(&self) -> Id
        ensures value { result ≡ self.now.stamp.id }
        ensures conditions { IsMessage self.now }
    {
        Id {
            site: self.site,
            seq: self.deps.count(self.site) + 1,
        }
    }

    /// The red number, 0 for a blue shadow.
    #[inline(always)]
    pub fn red(&self) -> u32
        ensures value { result ≡ self.now.stamp.red }
        ensures conditions { IsMessage self.now }
    {
        self.red
    }

    /// The counts.
    #[inline(always)]
    pub fn deps(&self) -> &PackedDeps
        ensures value { result.now ≡ self.now.stamp.deps }
        ensures conditions { IsMessage self.now }
    {
        &self.deps
    }

    /// Whether the clock is ready for the message.
    #[inline(always)]
    pub fn is_ready(&self, clock: &Clock) -> bool
        requires { sites_of self.now ≡ length clock.now.counts }
        ensures { IsTrue result ↔ IsReady clock.now self.now.stamp }
    {
        clock.ready_packed(self.id(), self.red, &self.deps)
    }

    /// Has the clock count the message.
    #[inline(always)]
    pub fn count_in(&self, clock: &mut Clock)
        requires origin { self.now.stamp.id.site < length clock.old.counts }
        requires ready { IsReady clock.old self.now.stamp }
        ensures { clock.new ≡ advanced clock.old self.now.stamp }
    {
        clock.advance_by(self.id(), self.red());
    }

    /// What the message does.
    pub fn shadow(&self) -> &Shadow
        ensures value { result.now ≡ self.now.shadow }
        ensures conditions { IsMessage self.now }
    {
        &self.shadow
    }

    /// The message with counts of 0 for the further sites, `sites` in all. It takes no memory.
    ///
    /// # Errors
    ///
    /// The message itself, if it counts more than `sites` or if `sites` is above 16.
    pub fn widen(self, sites: u8) -> Result<Message, Message>
        ensures { result ≡ widening sites self }
    {
        let stamp = self.stamp();
        let Message {
            red: _,
            deps: _,
            site: _,
            shadow,
        } = self;
        match stamp.widen(sites) {
            Ok(stamp) => Ok(Message::new(stamp, shadow)),
            Err(stamp) => Err(Message::new(stamp, shadow)),
        }
    }

    /// An equal message.
    #[inline(always)]
    pub fn copy(&self) -> Result<Message, AllocError>
        ensures { IfOk result (λ message. message ≡ self.now) }
    {
        Ok(Message {
            red: self.red,
            deps: self.deps.copy(),
            site: self.site,
            shadow: self.shadow.copy()?,
        })
    }
}

impl PartialEq for Message {
    ghost use Rattle.rubis_message.specs.Equal.{same_message, same_message_equiv};
    ghost use Rattle.std.specs.Cmp.{partial_equiv_from_equiv};

    ghost eq = { same_message };

    ghost laws = { partial_equiv_from_equiv same_message_equiv };

    fn eq(&self, other: &Message) -> bool {
        self.id() == other.id()
            && self.red == other.red
            && self.deps == other.deps
            && self.shadow == other.shadow
    }
}

impl Eq for Message {
    ghost use Rattle.rubis_message.specs.Equal.{same_message_equiv};

    ghost laws = { same_message_equiv };
}
