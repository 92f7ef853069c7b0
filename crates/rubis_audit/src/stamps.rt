//! The checks of an entry by its stamp.

ghost use Rattle.std.specs.Prelude.{◌≡◌, List, false, length, option_copied};
ghost use Rattle.std.specs.Option.{option_map_or};
ghost use Rattle.rubis_message.specs.Message as model;
ghost use Rattle.rubis_message.specs.Message.{sites_of};
ghost use Rattle.rubis_audit.specs.Walks.{by_message_id, clash_by_id, differs_by, early_by, exceeds, forgets_by_id, gap_by, order_by, taken_by_red, Sees};
ghost use Rattle.rubis_audit.specs.Walks.{id_in};
ghost use Rattle.rubis_audit.specs.declared.seen.Seen.{Seen};

use crate::contents::is_counted;
use crate::seen::Seen;
use rubis_clock::Clock;
use rubis_message::Message;
use rubis_schema::Id;

/// Whether another message has the id of `v`. `known` is what was seen with that id.
pub fn clashes(known: Option<&Message>, v: &Message) -> bool
    ensures { (seen : Seen) (all : List model.Message) → option_copied known.entry ≡ id_in seen v.now.stamp.id → Sees seen all
        → result ≡ clash_by_id all v.now }
{
    match known {
        Some(u) => u != v,
        None => false,
    }
}

// Whether `u` counts more of some site than `v` does.
fn exceeds(v: &Message, u: &Message) -> bool
    ensures { result ≡ exceeds v.now u.now }
{
    let mine = v.deps();
    let theirs = u.deps();
    for j in 0..mine.sites() {
        if j < theirs.sites() && mine.count(j) < theirs.count(j) {
            return true;
        }
    }
    false
}

// Whether the message with that id, if there is one, counts more of some site than `v` does. None has number 0.
fn last_exceeds(seen: &Seen, last: Id, v: &Message) -> bool
    ensures { (all : List model.Message) → Sees seen.now all → result ≡ option_map_or (exceeds v.now) (by_message_id last all) false }
{
    if last.seq == 0 {
        return false;
    }
    match seen.with_id(last) {
        Some(u) => exceeds(v, u),
        None => false,
    }
}

// Whether what `v` counts last of some site counts more than `v` does.
fn forgets(seen: &Seen, v: &Message) -> bool
    ensures { (all : List model.Message) → Sees seen.now all → result ≡ forgets_by_id all v.now }
{
    let mine = v.deps();
    for j in 0..mine.sites() {
        let last = Id {
            site: j,
            seq: mine.count(j),
        };
        if last_exceeds(seen, last, v) {
            return true;
        }
    }
    false
}

// Whether `v` counts a message of another origin that isn't counted.
fn is_early(counts: &[u32], v: &Message) -> bool
    requires { sites_of v.now ≡ length counts.now }
    ensures { result ≡ early_by counts.now v.now }
{
    let origin = v.id().site;
    let mine = v.deps();
    for j in 0..mine.sites() {
        if j != origin && counts[usize::from(j)] < mine.count(j) {
            return true;
        }
    }
    false
}

// Whether `v` doesn't count exactly what is counted.
fn differs(counts: &[u32], v: &Message) -> bool
    requires { sites_of v.now ≡ length counts.now }
    ensures { result ≡ differs_by counts.now v.now }
{
    let mine = v.deps();
    for j in 0..mine.sites() {
        if mine.count(j) != counts[usize::from(j)] {
            return true;
        }
    }
    false
}

/// Whether `v` isn't in order in a log of `site`, of which `clock` counts the messages so far.
pub fn out_of_order(site: u8, seen: &Seen, clock: &Clock, v: &Message) -> bool
    requires { sites_of v.now ≡ length clock.now.counts }
    ensures { (all : List model.Message) → Sees seen.now all → result ≡ order_by site clock.now.counts all v.now }
{
    let id = v.id();
    let counts = clock.deps();
    clock.count(id.site) != id.seq - 1
        || is_early(counts.as_slice(), v)
        || (id.site == site && differs(counts.as_slice(), v))
        || forgets(seen, v)
}

// Whether another message has the red number of `v`.
fn is_taken(seen: &Seen, v: &Message) -> bool
    ensures { (all : List model.Message) → Sees seen.now all → result ≡ taken_by_red all v.now }
{
    match seen.with_red(v.red()) {
        Some(u) => u.id() != v.id(),
        None => false,
    }
}

/// Whether `v` is red and hasn't the next red number, or another message has it, or the last red one before it doesn't
/// precede it.
pub fn leaves_gap(seen: &Seen, clock: &Clock, last: Option<&Message>, v: &Message) -> bool
    ensures { (all : List model.Message) → Sees seen.now all → result ≡ gap_by clock.now.red (option_copied last.entry) all v.now }
{
    let red = v.red();
    if red == 0 {
        return false;
    }
    if clock.red() != red - 1 || is_taken(seen, v) {
        return true;
    }
    match last {
        Some(u) => !is_counted(u.id(), v),
        None => false,
    }
}
