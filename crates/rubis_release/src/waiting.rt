//! The messages that wait for others.

ghost use Rattle.std.specs.Prelude.{◌≡◌, ◌<◌, ◌++◌, [], ◌∷◌, false, true, length, is_some, map, None, IfErr, IfOk, MatchOption, OnOk, OnErr};
ghost use Rattle.rubis_message.specs.Message as model;
ghost use Rattle.std.specs.Bool.{MatchBool};
ghost use Rattle.std.specs.List.{list_any};
ghost use Rattle.rubis_schema.specs.Keys.{same_id};
ghost use Rattle.rubis_release.specs.Release.{AllAmong};
ghost use Rattle.rubis_release.specs.Waiting.{NoneTaken, TakesFirstReady, IsFirstOf, IsReadySlot, HasNoReady, HaveTheirIds, AreApart, AreSlots};
ghost use Rattle.rubis_release.specs.Waiting.{lesser_place, somes};
ghost use Rattle.indexmap.specs.IndexMap.{get};

use indexmap::IndexMap;
use rubis_clock::Clock;
use rubis_message::Message;
use rubis_schema::{Hashes, Id, KeyHashes};
use std::alloc::{AllocError, AllocFailed, Global};
use std::marker::Model;

// Up to this many slots are looked at one by one, which takes less than a look-up for each site.
const FEW: usize = 16;

// The messages that wait to be released, by id, in arrival order; none where one was taken out.
#[derive(Drop)]
pub struct Waiting {
    slots: IndexMap<Id, Option<Message>, KeyHashes>,
    // How many were taken out and still have a slot.
    gone: usize,
}

impl Model for Waiting {
    ghost use Rattle.std.specs.Prelude.{List};
    ghost use Rattle.rubis_message.specs.Message as model;
    ghost use Rattle.rubis_release.specs.Waiting.{AreSlots, somes};

    ghost Value = { List model.Message };

    ghost view = { λ w. somes w.slots.entries };

    ghost invariant = { λ w. AreSlots w.slots.entries w.gone };
}

impl Waiting {
    // No messages, found by this.
    pub fn new(alloc: Global, hashes: Hashes) -> Waiting
        ensures { result ≡ [] }
    {
        Waiting {
            slots: IndexMap::with_hasher(alloc, hashes.keys),
            gone: 0,
        }
    }

    // How many wait.
    #[inline(always)]
    pub fn len(&self) -> usize
        ensures { result ≡ length self.now }
    {
        self.slots.len() - self.gone
    }

    // Those that wait, in arrival order.
    pub fn messages<'a>(&'a self, alloc: Global) -> Result<Vec<&'a Message>, AllocError>
        ensures { IfOk result (λ messages. map (λ m. m.now) messages.items ≡ self.now) }
    {
        let mut messages = Vec::new(alloc);
        for slot in self.slots.values() {
            if let Some(message) = slot {
                messages.reserve(1)?;
                messages.push_reserved(message);
            }
        }
        Ok(messages)
    }

    // Whether a message with that id waits.
    #[inline(always)]
    pub fn has(&self, id: &Id) -> bool
        ensures { result ≡ list_any (λ m. same_id id.now m.stamp.id) self.now }
    {
        // Mostly nothing waits.
        if self.slots.is_empty() {
            return false;
        }
        match self.slots.get(id) {
            Some(slot) => slot.is_some(),
            None => false,
        }
    }

    // Puts a message last, or hands it back.
    pub fn push(&mut self, message: Message) -> Result<(), AllocFailed<Message>>
        requires { list_any (λ m. same_id message.stamp.id m.stamp.id) self.old ≡ false }
        ensures ok { OnOk result (self.new ≡ self.old ++ message ∷ []) }
        ensures err { OnErr result (self.new ≡ self.old) }
        ensures back { IfErr result (λ e. e.value ≡ message) }
    {
        let id = message.id();
        self.gone = make_place(&mut self.slots, self.gone, &id);
        if self.slots.reserve(1).is_err() {
            return Err(AllocFailed { value: message });
        }
        let Ok(_) = self.slots.insert(id, Some(message)) else {
            unreachable!()
        };
        Ok(())
    }

    // Takes the earliest message that is ready out, if one is. The others keep their order.
    #[inline(always)]
    pub fn take_ready(&mut self, clock: &Clock) -> Option<Message>
        requires { AllAmong (length clock.now.counts) self.old }
        ensures { MatchOption result (NoneTaken clock.now self.old self.new) (λ m. TakesFirstReady clock.now self.old m self.new) }
    {
        let slots = self.slots.len();
        if slots == 0 {
            return None;
        }
        let at = first_ready(&self.slots, clock)?;
        let Some(slot) = self.slots.get_index_mut(at) else {
            unreachable!()
        };
        let Some(message) = slot.take() else {
            unreachable!()
        };
        self.gone += 1;
        self.close_many_gaps();
        Some(message)
    }

    // Closes a gap at the end, and all gaps where they are more than half of the slots.
    #[inline(always)]
    fn close_many_gaps(&mut self)
        ensures { self.new ≡ self.old }
    {
        self.gone = drop_last(&mut self.slots, self.gone);
        if self.gone > self.slots.len() / 2 {
            self.close_gaps();
        }
    }

    // Lets the slots of those that were taken out go.
    #[inline(never)]
    fn close_gaps(&mut self)
        ensures { self.new ≡ self.old }
    {
        let none = self.gone == self.slots.len();
        close(&mut self.slots, none);
        self.gone = 0;
    }
}

// Lets an empty slot of that id go, with all others. Answers how many empty slots there are. Where there is none, it isn't
// looked for.
fn make_place(slots: &mut IndexMap<Id, Option<Message>, KeyHashes>, gone: usize, id: &Id) -> usize
    requires none { list_any (λ m. same_id id.now m.stamp.id) (somes slots.old.entries) ≡ false }
    requires slots { AreSlots slots.old.entries gone }
    ensures same { somes slots.new.entries ≡ somes slots.old.entries }
    ensures slots { AreSlots slots.new.entries result }
    ensures absent { get same_id slots.new id.now ≡ None }
{
    if gone == 0 || !slots.contains_key(id) {
        return gone;
    }
    let none = gone == slots.len();
    close(slots, none);
    0
}

// Lets the last slot go, if it is empty. Answers how many empty slots there are.
#[inline(always)]
fn drop_last(slots: &mut IndexMap<Id, Option<Message>, KeyHashes>, gone: usize) -> usize
    requires { AreSlots slots.old.entries gone }
    ensures same { somes slots.new.entries ≡ somes slots.old.entries }
    ensures slots { AreSlots slots.new.entries result }
{
    let Some((_id, None)) = slots.last() else {
        return gone;
    };
    slots.truncate(slots.len() - 1);
    gone - 1
}

// Gives room back where there is much more than is used.
fn give_room_back(slots: &mut IndexMap<Id, Option<Message>, KeyHashes>)
    ensures { slots.new.entries ≡ slots.old.entries }
{
    let len = slots.len();
    if slots.capacity() > 1024 && slots.capacity() / 8 > len {
        slots.shrink_to(2 * len);
    }
}

// Lets empty slots go: all slots, where none has a message.
fn close(slots: &mut IndexMap<Id, Option<Message>, KeyHashes>, none: bool)
    requires { none ≡ true → somes slots.old.entries ≡ [] }
    ensures same { somes slots.new.entries ≡ somes slots.old.entries }
    ensures own { HaveTheirIds slots.old.entries → HaveTheirIds slots.new.entries }
    ensures apart { AreApart slots.new.entries }
    ensures full { length (somes slots.new.entries) ≡ length slots.new.entries }
{
    if none {
        // In the time of what is removed, where `clear` and `retain` clear the whole table.
        slots.truncate(0);
        return;
    }
    slots.retain(
        |_id: &Id, slot: &mut Option<Message>| -> bool
            ensures { (result ≡ is_some slot.old) × (slot.new ≡ slot.old) }
        { slot.is_some() },
    );
    give_room_back(slots);
}

// The slot of the message of a site that is ready, if one is.
#[inline(always)]
fn ready_of(
    slots: &IndexMap<Id, Option<Message>, KeyHashes>,
    clock: &Clock,
    site: u8,
) -> Option<usize>
    requires site { site < length clock.now.counts }
    requires among { AllAmong (length clock.now.counts) (somes slots.now.entries) }
    requires own { HaveTheirIds slots.now.entries }
    requires apart { AreApart slots.now.entries }
    ensures { IsFirstOf clock.now slots.now.entries (λ j. j ≡ site) result }
{
    let id = Id {
        site,
        seq: clock.count(site).saturating_add(1),
    };
    let Some((at, _key, slot)) = slots.get_full(&id) else {
        return None;
    };
    let Some(message) = slot else {
        return None;
    };
    if !message.is_ready(clock) {
        return None;
    }
    Some(at)
}

// The lesser of two places, where there are two.
#[inline(always)]
fn earlier(a: Option<usize>, b: Option<usize>) -> Option<usize>
    ensures { result ≡ lesser_place a b }
{
    match (a, b) {
        (Some(i), Some(j)) => Some(i.min(j)),
        (Some(i), None) => Some(i),
        (None, other) => other,
    }
}

// Whether the slot at that place has a message that is ready.
#[inline(always)]
fn is_ready_at(slots: &IndexMap<Id, Option<Message>, KeyHashes>, clock: &Clock, at: usize) -> bool
    requires { AllAmong (length clock.now.counts) (somes slots.now.entries) }
    ensures { MatchBool result (IsReadySlot clock.now slots.now.entries at) (HasNoReady clock.now slots.now.entries at) }
{
    let Some((_key, slot)) = slots.get_index(at) else {
        return false;
    };
    let Some(message) = slot else {
        return false;
    };
    message.is_ready(clock)
}

// The first slot with a message that is ready, if one is: each slot is looked at.
fn first_among(slots: &IndexMap<Id, Option<Message>, KeyHashes>, clock: &Clock) -> Option<usize>
    requires { AllAmong (length clock.now.counts) (somes slots.now.entries) }
    ensures { IsFirstOf clock.now slots.now.entries (λ j. j < length clock.now.counts) result }
{
    for at in 0..slots.len() {
        if is_ready_at(slots, clock, at) {
            return Some(at);
        }
    }
    None
}

// The slot of the earliest message that is ready, if one is.
fn first_ready(slots: &IndexMap<Id, Option<Message>, KeyHashes>, clock: &Clock) -> Option<usize>
    requires among { AllAmong (length clock.now.counts) (somes slots.now.entries) }
    requires own { HaveTheirIds slots.now.entries }
    requires apart { AreApart slots.now.entries }
    ensures { IsFirstOf clock.now slots.now.entries (λ j. j < length clock.now.counts) result }
{
    if slots.len() <= FEW {
        return first_among(slots, clock);
    }
    // The next message of each site is looked up.
    let mut first = None;
    for site in 0..clock.deps().len() {
        first = earlier(first, ready_of(slots, clock, site as u8));
    }
    first
}
