//! Counts of messages, one for each site.

ghost use Rattle.std.specs.Prelude.{◌≡◌, ◌==◌, ◌<◌, ◌≤◌, ◌+◌, [], ◌∷◌, ◌++◌, length, slice_index, slice_set};

use rubis_schema::COUNTED_MAX;
use std::marker::Model;

/// For each site, in site order, how many of its messages had been released. Contracts see the list of the counts.
#[derive(Clone, Copy)]
pub struct Deps {
    // The counts, and zeros after them.
    counts: [u32; COUNTED_MAX],
    used: u8,
}

impl Model for Deps {
    ghost use Rattle.std.specs.Prelude.{List, ℕ, take, length};
    ghost use Rattle.rubis_clock.specs.Counts.{filled, IsFilled, filled_take, length_take_filled};

    ghost Value = { List ℕ };

    ghost view = { λ d. take d.used d.counts };

    ghost invariant = { λ d. IsFilled d.counts d.used };

    ghost inverse = { λ n. record { counts = filled n; used = length n } };

    ghost inverse_ok = { λ a h. λ i. record { counts = filled_take a.counts a.used h i; used = length_take_filled a.counts a.used h i } };
}

impl Deps {
    /// No counts.
    pub fn new() -> Deps
        ensures { result ≡ [] }
    {
        Deps {
            counts: [0; COUNTED_MAX],
            used: 0,
        }
    }

    /// Puts the count of the next site last.
    pub fn push(&mut self, count: u32)
        requires { length self.old < COUNTED_MAX }
        ensures { self.new ≡ self.old ++ count ∷ [] }
    {
        self.counts[usize::from(self.used)] = count;
        self.used += 1;
    }

    /// The counts, in site order.
    pub fn as_slice(&self) -> &[u32]
        ensures value { result.now ≡ self.now }
        ensures few { length self.now ≤ COUNTED_MAX }
    {
        &self.counts[..usize::from(self.used)]
    }

    /// Of how many sites there are counts.
    pub fn len(&self) -> usize
        ensures value { result ≡ length self.now }
        ensures few { length self.now ≤ COUNTED_MAX }
    {
        usize::from(self.used)
    }

    /// The count of a site.
    pub fn count(&self, site: u8) -> u32
        requires { site < length self.now }
        ensures { result ≡ slice_index self.now site }
    {
        self.as_slice()[usize::from(site)]
    }

    /// Whether the site's message number `seq` is the next one after those that are counted.
    #[inline(always)]
    pub fn is_next(&self, site: u8, seq: u64) -> bool
        requires { site < length self.now }
        ensures { result ≡ (seq == slice_index self.now site + 1) }
    {
        u64::from(self.count(site)) + 1 == seq
    }

    /// Sets the count of a site.
    pub fn set(&mut self, site: u8, count: u32)
        requires { site < length self.old }
        ensures { self.new ≡ slice_set self.old site count }
    {
        self.counts[usize::from(site)] = count;
    }
}

impl PartialEq for Deps {
    ghost use Rattle.std.specs.Prelude.{nat_eq};
    ghost use Rattle.std.specs.Cmp.Lexicographic.{pointwise, nat_list_eq_equiv};
    ghost use Rattle.std.specs.Cmp.{partial_equiv_from_equiv};

    ghost eq = { pointwise nat_eq };

    ghost laws = { partial_equiv_from_equiv nat_list_eq_equiv };

    fn eq(&self, other: &Deps) -> bool {
        self.as_slice() == other.as_slice()
    }
}

impl Eq for Deps {
    ghost use Rattle.std.specs.Cmp.Lexicographic.{nat_list_eq_equiv};

    ghost laws = { nat_list_eq_equiv };
}
