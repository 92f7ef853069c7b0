//! A clock: how many messages of each site were released, and which stamps it is ready for.

ghost use Rattle.std.specs.Prelude.{◌≡◌, ◌≢◌, ◌↔◌, ◌<◌, ◌≤◌, ◌+◌, ℕ, List, IsTrue, length, slice_index};
ghost use Rattle.rubis_clock.specs.Clocks.{IsReady, StampPrecedes, advanced, opening_clock};

use crate::counts::Deps;
use crate::packed::PackedDeps;
use crate::stamps::Stamp;
use rubis_schema::{COUNTED_MAX, Id};
use std::marker::Model;

/// How many messages of each site a log has, and how many red ones.
#[derive(Clone, Copy)]
pub struct Clock {
    counts: Deps,
    red: u32,
}

impl Model for Clock {
    ghost use Rattle.rubis_clock.specs.Clocks.{MessageCounts};

    ghost Value = { MessageCounts };

    ghost view = { λ c. record { counts = c.counts; red = c.red } };

    ghost inverse = { λ v. record { counts = v.counts; red = v.red } };
}

// Whether each count but the origin's is at most the clock's.
#[inline(always)]
fn others_released(deps: &[u32], counts: &[u32], origin: usize) -> bool
    requires { length deps.now ≡ length counts.now }
    ensures { IsTrue result ↔ ((j : ℕ) → j < length deps.now → j ≢ origin → slice_index deps.now j ≤ slice_index counts.now j) }
{
    for (site, dep) in deps.iter().enumerate() {
        if site != origin && *dep > counts[site] {
            return false;
        }
    }
    true
}

impl Clock {
    /// A clock for `sites` sites, with nothing counted yet.
    pub fn new(sites: u8) -> Clock
        requires { sites ≤ COUNTED_MAX }
        ensures { result ≡ opening_clock sites }
    {
        let mut counts = Deps::new();
        for _ in 0..sites {
            counts.push(0);
        }
        Clock { counts, red: 0 }
    }

    /// How many messages of the site were counted.
    pub fn count(&self, site: u8) -> u32
        requires { site < length self.now.counts }
        ensures { result ≡ slice_index self.now.counts site }
    {
        self.counts.count(site)
    }

    /// How many red messages were counted.
    pub fn red(&self) -> u32
        ensures { result ≡ self.now.red }
    {
        self.red
    }

    /// The counts, as a new message names them.
    pub fn deps(&self) -> Deps
        ensures { result ≡ self.now.counts }
    {
        self.counts
    }

    // Whether a message is the next one of its origin, and a red one has the next red number.
    #[inline(always)]
    fn is_next(&self, id: Id, red: u32) -> bool
        requires { id.site < length self.now.counts }
        ensures { IsTrue result ↔ ((id.seq ≡ slice_index self.now.counts id.site + 1) × (0 < red → red ≡ self.now.red + 1)) }
    {
        let next = u64::from(self.counts.count(id.site)) + 1;
        let next_red = u64::from(self.red()) + 1;
        u64::from(id.seq) == next && (red == 0 || u64::from(red) == next_red)
    }

    /// Whether the message with that stamp can be released: it is the next one of its origin, all that the origin had
    /// released of other sites was counted, and a red one has the next red number.
    #[inline(always)]
    pub fn ready(&self, stamp: &Stamp) -> bool
        requires sites { length stamp.now.deps ≡ length self.now.counts }
        requires origin { stamp.now.id.site < length self.now.counts }
        ensures { IsTrue result ↔ IsReady self.now stamp.now }
    {
        self.is_next(stamp.id, stamp.red)
            && others_released(
                stamp.deps.as_slice(),
                self.counts.as_slice(),
                usize::from(stamp.id.site),
            )
    }

    /// The same for a message with that id, that red number and those counts, without a stamp made of them.
    #[inline(always)]
    pub fn ready_packed(&self, id: Id, red: u32, deps: &PackedDeps) -> bool
        requires sites { length deps.now ≡ length self.now.counts }
        requires origin { id.site < length self.now.counts }
        ensures { IsTrue result ↔ IsReady self.now (record { id = id; red = red; deps = deps.now }) }
    {
        if !self.is_next(id, red) {
            return false;
        }
        let counts = self.counts.as_slice();
        for site in 0..deps.sites() {
            if site != id.site && deps.count(site) > counts[usize::from(site)] {
                return false;
            }
        }
        true
    }

    /// Counts the message with that stamp.
    #[inline(always)]
    pub fn advance(&mut self, stamp: &Stamp)
        requires origin { stamp.now.id.site < length self.old.counts }
        requires ready { IsReady self.old stamp.now }
        ensures { self.new ≡ advanced self.old stamp.now }
    {
        self.advance_by(stamp.id, stamp.red);
    }

    /// Counts the message with that id and that red number, whatever its stamp counts.
    #[inline(always)]
    pub fn advance_by(&mut self, id: Id, red: u32)
        requires origin { id.site < length self.old.counts }
        requires next { id.seq ≡ slice_index self.old.counts id.site + 1 }
        requires number { 0 < red → red ≡ self.old.red + 1 }
        ensures { (deps : List ℕ) → self.new ≡ advanced self.old (record { id = id; red = red; deps = deps }) }
    {
        self.counts.set(id.site, id.seq);
        if red != 0 {
            self.red = red;
        }
    }
}

/// Whether the message with the stamp `v` was made where that with the stamp `u` had been released.
pub fn precedes(u: &Stamp, v: &Stamp) -> bool
    ensures { IsTrue result ↔ StampPrecedes u.now v.now }
{
    match v.deps.as_slice().get(usize::from(u.id.site)) {
        Some(count) => u.id.seq <= *count,
        None => u.id.seq == 0,
    }
}
