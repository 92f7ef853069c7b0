//! Nicknames.

ghost use Rattle.std.specs.Prelude.{◌≡◌};
ghost use Rattle.std.specs.List.{list_all};
ghost use Rattle.rubis_schema.specs.FieldForms.{nick_of, IsNick, is_nick, is_nick_byte, is_small_letter};

use crate::limits::NICK_MAX;
use std::cmp::Ordering;
use std::hash::{Hash, Hasher};
use std::marker::Model;

/// A nickname: 1 to 20 of `a-z`, `0-9` and `_`, the first a letter. Contracts see its bytes, by which nicknames are
/// ordered.
#[derive(Clone, Copy)]
pub struct Nick {
    // The bytes, and zeros after them.
    bytes: [u8; NICK_MAX],
    len: u8,
}

impl Model for Nick {
    ghost use Rattle.std.specs.Prelude.{List, ℕ, ◌≡◌, take, length};
    ghost use Rattle.rubis_schema.specs.FieldForms.{IsNick, padded, IsPadded};

    ghost Value = { List ℕ };

    ghost view = { λ n. take n.len n.bytes };

    ghost invariant = { λ n. IsPadded n.bytes n.len };

    ghost inverse = { λ n. record { bytes = padded n; len = length n } };

    ghost use Rattle.rubis_schema.specs.FieldForms.{padded_take, length_take_padded};

    ghost inverse_ok = { λ a h. λ i. record { bytes = padded_take a.bytes a.len h i; len = length_take_padded a.bytes a.len h i } };
}

fn is_small(byte: u8) -> bool
    ensures { result ≡ is_small_letter byte }
{
    byte >= b'a' && byte <= b'z'
}

fn is_inner(byte: u8) -> bool
    ensures { result ≡ is_nick_byte byte }
{
    is_small(byte) || (byte >= b'0' && byte <= b'9') || byte == b'_'
}

fn all_inner(text: &[u8]) -> bool
    ensures { result ≡ list_all is_nick_byte text.now }
{
    text.iter().all(|byte| is_inner(*byte))
}

fn is_nick(text: &[u8]) -> bool
    ensures { result ≡ is_nick text.now }
{
    match text.first() {
        Some(byte) => is_small(*byte) && text.len() <= NICK_MAX && all_inner(text),
        None => false,
    }
}

impl Nick {
    /// The nickname of these bytes, if they are one.
    #[tactic(auto, unfolding(crate::specs::FieldForms::nick_of))]
    pub fn read(text: &[u8]) -> Option<Nick>
        ensures { result ≡ nick_of text.now }
    {
        if !is_nick(text) {
            return None;
        }
        let mut bytes = [0; NICK_MAX];
        bytes[..text.len()].copy_from_slice(text);
        Some(Nick {
            bytes,
            len: text.len() as u8,
        })
    }

    /// The bytes, in order.
    pub fn as_bytes(&self) -> &[u8]
        ensures value { result.now ≡ self.now }
        ensures grammar { IsNick self.now }
    {
        &self.bytes[..usize::from(self.len)]
    }
}

impl PartialEq for Nick {
    ghost use Rattle.std.specs.Prelude.{nat_eq};
    ghost use Rattle.std.specs.Cmp.Lexicographic.{pointwise, nat_list_eq_equiv};
    ghost use Rattle.std.specs.Cmp.{partial_equiv_from_equiv};

    ghost eq = { pointwise nat_eq };

    ghost laws = { partial_equiv_from_equiv nat_list_eq_equiv };

    fn eq(&self, other: &Nick) -> bool {
        self.as_bytes() == other.as_bytes()
    }
}

impl Eq for Nick {
    ghost use Rattle.std.specs.Cmp.Lexicographic.{nat_list_eq_equiv};

    ghost laws = { nat_list_eq_equiv };
}

impl Hash for Nick {
    ghost use Rattle.std.specs.Prelude.{[], ◌∷◌};
    ghost use Rattle.std.specs.Hash.{same_Alike};
    ghost use Rattle.std.specs.Cmp.Lexicographic.{bytes_decides};
    ghost use Rattle.rubis_schema.specs.FieldForms.{padded};

    ghost hash_input = { λ n. padded n ∷ [] };

    ghost respects_eq = { (same_Alike (λ n. padded n ∷ []) bytes_decides).fed };

    // With the zeros, so that it is as many bytes for each nickname.
    #[inline(always)]
    fn hash<H: Hasher>(&self, state: &mut H) {
        state.write(&self.bytes);
    }
}

impl PartialOrd for Nick {
    ghost use Rattle.std.specs.Prelude.{Some};
    ghost use Rattle.std.specs.Ordering.{nat_cmp};
    ghost use Rattle.std.specs.Cmp.Lexicographic.{slice_cmp, texts_po};

    ghost partial_cmp = { λ a b. Some (slice_cmp nat_cmp a b) };

    ghost laws = { texts_po };

    fn partial_cmp(&self, other: &Nick) -> Option<Ordering> {
        Some(self.cmp(other))
    }
}

impl Ord for Nick {
    ghost use Rattle.std.proofs.Common.{rules};
    ghost use Rattle.std.specs.Ordering.{nat_cmp};
    ghost use Rattle.std.specs.Cmp.Lexicographic.{slice_cmp, texts_ties, nat_list_cmp_total};

    ghost cmp = { slice_cmp nat_cmp };

    ghost total = { nat_list_cmp_total };

    ghost matches_partial_cmp = { Prim.search rules };

    ghost matches_eq = { texts_ties };

    fn cmp(&self, other: &Nick) -> Ordering {
        self.as_bytes().cmp(&other.as_bytes())
    }
}
