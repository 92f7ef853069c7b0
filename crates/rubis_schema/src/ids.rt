//! Ids: a site and a number that it counted.

ghost use Rattle.std.specs.Prelude.{◌≡◌, ◌≢◌, ◌≤◌, ◌<◌, ◌+◌, ◌++◌, ◌∷◌, [], IfOk, OnErr, OnOk, length, slice_index, true};
ghost use Rattle.rubis_schema.specs.FieldList.{is_plain};
ghost use Rattle.rubis_schema.specs.FieldForms.{id_of};
ghost use Rattle.rubis_schema.specs.Ids.{id_text};
ghost use Rattle.rubis_schema.specs.NumberForms.{number_of};

use crate::field_list::Fields;
use crate::limits::{ID_TEXT_MAX, SEQ_MAX};
use crate::short_texts::ShortText;
use crate::splits::read_number_before;
use rubis_numbers::read_number;
use std::alloc::{AllocError, Global};
use std::hash::{Hash, Hasher};

/// The id of a shadow, and of the row that it inserts: the site that made it, and its number there, from 1.
#[derive(Clone, Copy, PartialEq, Eq, PartialOrd, Ord, Debug)]
pub struct Id {
    pub site: u8,
    pub seq: u32,
}

impl Hash for Id {
    ghost use Rattle.std.specs.Hash.{same_Alike};
    ghost use Rattle.std.specs.Hash as fed;
    ghost use Rattle.rubis_schema.specs.Keys.{id_word};
    ghost use Rattle.rubis_schema.specs.KeyLaws.{Decides-same_id};

    ghost hash_input = { λ i. fed.u64 (id_word i) };

    ghost respects_eq = { (same_Alike (λ i. fed.u64 (id_word i)) Decides-same_id).fed };

    #[inline(always)]
    fn hash<H: Hasher>(&self, state: &mut H) {
        state.write_u64(u64::from(self.site) * (1 << 32) + u64::from(self.seq));
    }
}

// The number up to `SEQ_MAX` that at most seven digits write, the first of which isn't 0. The compiler writes the seven steps out.
#[inline(always)]
fn read_few_digits(digits: &[u8]) -> Option<u32>
    requires few { (0 < length digits.now) × (length digits.now ≤ 7) }
    requires first { slice_index digits.now 0 ≢ 48 }
    ensures { result ≡ number_of SEQ_MAX digits.now }
{
    let mut number: u32 = 0;
    for byte in digits {
        if *byte < b'0' || *byte > b'9' {
            return None;
        }
        number = number * 10 + u32::from(*byte - b'0');
    }
    if number <= SEQ_MAX {
        Some(number)
    } else {
        None
    }
}

// The id whose site is one digit and whose number is at most seven: most are written so.
#[inline(always)]
fn read_short(bytes: &[u8], sites: u8) -> Option<Id>
    requires short { (2 < length bytes.now) × (length bytes.now < 10) }
    requires point { slice_index bytes.now 1 ≡ 46 }
    requires first { slice_index bytes.now 2 ≢ 48 }
    ensures { result ≡ id_of sites bytes.now }
{
    let byte = bytes[0];
    if byte < b'0' || byte > b'9' {
        return None;
    }
    let site = byte - b'0';
    let seq = read_few_digits(&bytes[2..])?;
    if site >= sites {
        return None;
    }
    Some(Id { site, seq })
}

impl Id {
    /// Parses an id whose site is below `sites`. `None` if `bytes` isn't one.
    pub fn read(bytes: &[u8], sites: u8) -> Option<Id>
        ensures { result ≡ id_of sites bytes.now }
    {
        if bytes.len() > 2 && bytes.len() < 10 && bytes[1] == b'.' && bytes[2] != b'0' {
            return read_short(bytes, sites);
        }
        let (site, digits) = read_number_before(bytes, b'.', u64::from(u8::MAX))?;
        let seq = read_number(digits, u64::from(SEQ_MAX))?;
        if site >= u64::from(sites) || seq == 0 {
            return None;
        }
        Some(Id {
            site: site as u8,
            seq: seq as u32,
        })
    }

    fn text(&self) -> ShortText<ID_TEXT_MAX>
        ensures value { result ≡ id_text self.now }
        ensures plain { is_plain result ≡ true }
    {
        let mut text = ShortText::new();
        text.put_number(self.seq);
        text.put_byte(b'.');
        text.put_number(u32::from(self.site));
        text
    }

    /// The id as it is written.
    pub fn write(&self, alloc: Global) -> Result<Vec<u8>, AllocError>
        ensures { IfOk result (λ bytes. bytes.items ≡ id_text self.now) }
    {
        Vec::from_slice(alloc, self.text().as_bytes())
    }

    /// Adds the id as a field. Without memory for it the record stays as it was.
    pub fn push_to(&self, fields: &mut Fields) -> Result<(), AllocError>
        ensures ok { OnOk result (fields.new ≡ fields.old ++ id_text self.now ∷ []) }
        ensures err { OnErr result (fields.new ≡ fields.old) }
    {
        fields.push_numbers(u64::from(self.site), u64::from(self.seq))
    }
}
