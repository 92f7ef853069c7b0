//! Counts of messages in less memory.

ghost use Rattle.std.specs.Prelude.{◌≡◌, ◌<◌, ◌≤◌, ◌+◌, ◌*◌, ◌/◌, ◌%◌, ◌++◌, ◌∷◌, [], All, cond, length, slice_index};
ghost use Rattle.rubis_schema.specs.declared.limits.TheConstants.{COUNT_MAX, COUNTED_MAX};

use crate::counts::Deps;
use rubis_schema::COUNTED_MAX;
use std::marker::Model;

/// What `Deps` holds, in less memory, where no count is above 1,000,000. Contracts see the list of the counts.
#[derive(Drop, Clone)]
pub struct PackedDeps {
    // The lower 16 bits of each count.
    low: [u16; COUNTED_MAX],
    // The four bits above them, two counts to a byte.
    high: [u8; COUNTED_MAX / 2],
    used: u8,
}

impl Model for PackedDeps {
    ghost use Rattle.std.specs.Prelude.{List, ℕ, ◌≤◌, take};
    ghost use Rattle.rubis_clock.specs.Counts.{counts_of};

    ghost Value = { List ℕ };

    ghost view = { λ d. take d.used (counts_of d.low d.high) };

    ghost invariant = { λ d. d.used ≤ 16 };
}

// The first or the second half of a byte.
#[inline(always)]
fn half(pair: u8, first: bool) -> u8
    ensures { result ≡ cond first (pair % 16) (pair / 16) }
{
    if first { pair % 16 } else { pair / 16 }
}

// The byte with that in its first or its second half.
#[inline(always)]
fn with_half(pair: u8, first: bool, upper: u8) -> u8
    requires { upper < 16 }
    ensures { result ≡ cond first (pair / 16 * 16 + upper) (pair % 16 + 16 * upper) }
{
    if first {
        pair / 16 * 16 + upper
    } else {
        pair % 16 + 16 * upper
    }
}

impl PackedDeps {
    /// No counts.
    #[inline(always)]
    pub fn new() -> PackedDeps
        ensures { result ≡ [] }
    {
        PackedDeps {
            low: [0; COUNTED_MAX],
            high: [0; COUNTED_MAX / 2],
            used: 0,
        }
    }

    /// Puts the count of the next site last.
    #[inline(always)]
    pub fn push(&mut self, count: u32)
        requires room { length self.old < COUNTED_MAX }
        requires limit { count ≤ COUNT_MAX }
        ensures { self.new ≡ self.old ++ count ∷ [] }
    {
        let place = usize::from(self.used);
        let upper = (count / 65536) as u8;
        self.low[place] = (count % 65536) as u16;
        self.high[place / 2] = with_half(self.high[place / 2], place % 2 == 0, upper);
        self.used += 1;
    }

    /// The counts of `deps`.
    #[inline(always)]
    pub fn pack(deps: &Deps) -> PackedDeps
        requires { All (λ n. n ≤ COUNT_MAX) deps.now }
        ensures { result ≡ deps.now }
    {
        let counts = deps.as_slice();
        let mut packed = PackedDeps::new();
        for count in counts {
            packed.push(*count);
        }
        packed
    }

    /// The counts, as a row of numbers.
    pub fn unpack(&self) -> Deps
        ensures { result ≡ self.now }
    {
        let mut deps = Deps::new();
        for site in 0..self.sites() {
            deps.push(self.count(site));
        }
        deps
    }

    /// Equal counts.
    #[inline(always)]
    pub fn copy(&self) -> PackedDeps
        ensures { result ≡ self.now }
    {
        PackedDeps {
            low: self.low,
            high: self.high,
            used: self.used,
        }
    }

    /// Of how many sites there are counts.
    #[inline(always)]
    pub fn sites(&self) -> u8
        ensures value { result ≡ length self.now }
        ensures few { length self.now ≤ COUNTED_MAX }
    {
        self.used
    }

    /// The count of a site.
    #[inline(always)]
    pub fn count(&self, site: u8) -> u32
        requires { site < length self.now }
        ensures { result ≡ slice_index self.now site }
    {
        let place = usize::from(site);
        let upper = half(self.high[place / 2], place % 2 == 0);
        u32::from(self.low[place]) + 65536 * u32::from(upper)
    }
}

impl PartialEq for PackedDeps {
    ghost use Rattle.std.specs.Prelude.{nat_eq};
    ghost use Rattle.std.specs.Cmp.Lexicographic.{pointwise, nat_list_eq_equiv};
    ghost use Rattle.std.specs.Cmp.{partial_equiv_from_equiv};

    ghost eq = { pointwise nat_eq };

    ghost laws = { partial_equiv_from_equiv nat_list_eq_equiv };

    #[inline(always)]
    fn eq(&self, other: &PackedDeps) -> bool {
        if self.sites() != other.sites() {
            return false;
        }
        for site in 0..self.sites() {
            if self.count(site) != other.count(site) {
                return false;
            }
        }
        true
    }
}

impl Eq for PackedDeps {
    ghost use Rattle.std.specs.Cmp.Lexicographic.{nat_list_eq_equiv};

    ghost laws = { nat_list_eq_equiv };
}
