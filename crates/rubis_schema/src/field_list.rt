//! One record: a list of fields, each of any bytes.

ghost use Rattle.std.specs.Prelude.{◌≡◌, ◌==◌, ◌↔◌, ◌<◌, ◌+◌, ◌++◌, ◌∷◌, [], IfOk, IfSome, IsTrue, OnErr, OnOk, decimal, get_or};
ghost use Rattle.std.specs.Prelude.{length, option_map, slice_get, true};
ghost use Rattle.rubis_schema.specs.FieldList.{IsLaidOut, all_plain, joined, pieces};
ghost use Rattle.rubis_schema.specs.FieldList as model;

use crate::limits::{NUMBER_TEXT_MAX, NUMBERS_TEXT_MAX};
use crate::number_texts::{push_digits, push_numbers};
use crate::spare_room::{make_room, push_bytes};
use std::alloc::{AllocError, Global};
use std::marker::Model;

/// One record, as the list of its fields. It is cleared and filled again without giving its room back.
pub struct Fields {
    // The bytes of all fields, each with a comma before it.
    text: Vec<u8>,
    // Where each field ends in them.
    ends: Vec<usize>,
    // Whether it is known that no field calls for quotes.
    plain: bool,
}

impl Drop for Fields {
    // Proved here, once: a derived drop is proved anew in each crate that lets fields go.
    fn drop(self) {
        let Fields {
            text: _,
            ends: _,
            plain: _,
        } = self;
    }
}

impl Model for Fields {
    ghost use Rattle.std.specs.Prelude.{◌≡◌, ℕ, List, true};
    ghost use Rattle.rubis_schema.specs.FieldList.{IsLaidOut, all_plain, pieces};

    ghost Value = { List (List ℕ) };

    ghost view = { λ f. pieces 0 f.ends.items f.text.items };

    ghost invariant = { λ f. IsLaidOut f.ends.items f.text.items × (f.plain ≡ true → all_plain (pieces 0 f.ends.items f.text.items) ≡ true) };
}

// Where the field at this place starts and ends.
#[inline(always)]
fn span(ends: &[usize], place: usize) -> (usize, usize)
    requires place { place < length ends.now }
    requires order { get_or (0 ∷ ends.now) place 0 < get_or ends.now place 0 }
    ensures start { result.0 ≡ get_or (0 ∷ ends.now) place 0 + 1 }
    ensures end { result.1 ≡ get_or ends.now place 0 }
{
    let before = if place == 0 { 0 } else { ends[place - 1] };
    (before + 1, ends[place])
}

// Whether a byte of a field calls for quotes where fields are separated by commas.
#[inline(always)]
fn is_mark(byte: u8) -> bool
    ensures { result ≡ model.is_mark byte }
{
    byte == b',' || byte == b'"' || byte == b'\r' || byte == b'\n'
}

/// Whether a field calls for no quotes where fields are separated by commas: whether it has no comma, no quote and no line end.
#[inline(always)]
pub fn is_plain(field: &[u8]) -> bool
    ensures { result ≡ model.is_plain field.now }
{
    for byte in field {
        if is_mark(*byte) {
            return false;
        }
    }
    true
}

// Adds a field at the end. Without memory for it nothing changes.
#[inline(always)]
fn add(text: &mut Vec<u8>, ends: &mut Vec<usize>, field: &[u8]) -> Result<(), AllocError>
    requires { IsLaidOut ends.old.items text.old.items }
    ensures laid { OnOk result (IsLaidOut ends.new.items text.new.items) }
    ensures ok { OnOk result (pieces 0 ends.new.items text.new.items ≡ pieces 0 ends.old.items text.old.items ++ field.now ∷ []) }
    ensures err { OnErr result ((ends.new.items ≡ ends.old.items) × (text.new.items ≡ text.old.items)) }
{
    make_room(ends, 1)?;
    make_room(text, field.len() + 1)?;
    text.push_reserved(b',');
    let Ok(()) = text.extend_from_slice(field) else {
        unreachable!()
    };
    ends.push_reserved(text.len());
    Ok(())
}

impl Fields {
    /// A record with no fields. It takes no memory yet.
    pub fn new(alloc: Global) -> Fields
        ensures { result ≡ [] }
    {
        Fields {
            text: Vec::new(alloc),
            ends: Vec::new(alloc),
            plain: true,
        }
    }

    /// A record with no fields, and room for this many fields with this many bytes in all.
    pub fn with_room(alloc: Global, bytes: usize, fields: usize) -> Result<Fields, AllocError>
        ensures { IfOk result (λ made. made ≡ []) }
    {
        Ok(Fields {
            text: Vec::with_capacity(alloc, bytes.saturating_add(fields))?,
            ends: Vec::with_capacity(alloc, fields)?,
            plain: true,
        })
    }

    /// Adds a field at the end. Without memory for it the record stays as it was.
    #[inline(always)]
    pub fn push(&mut self, field: &[u8]) -> Result<(), AllocError>
        ensures ok { OnOk result (self.new ≡ self.old ++ field.now ∷ []) }
        ensures err { OnErr result (self.new ≡ self.old) }
    {
        let plain = self.plain && is_plain(field);
        add(&mut self.text, &mut self.ends, field)?;
        self.plain = plain;
        Ok(())
    }

    /// Adds a field that calls for no quotes, most often a word, at the end. Without memory for it the record stays as it was.
    #[inline(always)]
    pub fn push_plain(&mut self, field: &[u8]) -> Result<(), AllocError>
        requires { model.is_plain field.now ≡ true }
        ensures ok { OnOk result (self.new ≡ self.old ++ field.now ∷ []) }
        ensures err { OnErr result (self.new ≡ self.old) }
    {
        make_room(&mut self.ends, 1)?;
        make_room(&mut self.text, field.len() + 1)?;
        self.text.push_reserved(b',');
        push_bytes(&mut self.text, field);
        self.ends.push_reserved(self.text.len());
        Ok(())
    }

    /// Adds a number as a field at the end. Without memory for it the record stays as it was.
    #[inline(always)]
    pub fn push_number(&mut self, number: u64) -> Result<(), AllocError>
        ensures ok { OnOk result (self.new ≡ self.old ++ decimal number ∷ []) }
        ensures err { OnErr result (self.new ≡ self.old) }
    {
        make_room(&mut self.ends, 1)?;
        make_room(&mut self.text, NUMBER_TEXT_MAX + 1)?;
        self.text.push_reserved(b',');
        push_digits(&mut self.text, number);
        self.ends.push_reserved(self.text.len());
        Ok(())
    }

    /// Adds two numbers with a point between them as a field at the end. Without memory for it the record stays as it was.
    #[inline(always)]
    pub fn push_numbers(&mut self, first: u64, second: u64) -> Result<(), AllocError>
        ensures ok { OnOk result (self.new ≡ self.old ++ (decimal first ++ 46 ∷ decimal second) ∷ []) }
        ensures err { OnErr result (self.new ≡ self.old) }
    {
        make_room(&mut self.ends, 1)?;
        make_room(&mut self.text, NUMBERS_TEXT_MAX + 1)?;
        self.text.push_reserved(b',');
        push_numbers(&mut self.text, first, second);
        self.ends.push_reserved(self.text.len());
        Ok(())
    }

    /// Adds a field of a record that is read, and so not to be written, at the end: it isn't looked at. Without memory for it the
    /// record stays as it was.
    #[inline(always)]
    pub fn push_read(&mut self, field: &[u8]) -> Result<(), AllocError>
        ensures ok { OnOk result (self.new ≡ self.old ++ field.now ∷ []) }
        ensures err { OnErr result (self.new ≡ self.old) }
    {
        self.plain = false;
        add(&mut self.text, &mut self.ends, field)
    }

    /// All fields, each with a comma before it, where it is known that none of them calls for quotes.
    pub fn plain_text(&self) -> Option<&[u8]>
        ensures text { IfSome result (λ text. text.now ≡ joined self.now) }
        ensures plain { IfSome result (λ text. all_plain self.now ≡ true) }
    {
        if self.plain {
            Some(self.text.as_slice())
        } else {
            None
        }
    }

    /// How many fields there are.
    pub fn len(&self) -> usize
        ensures { result ≡ length self.now }
    {
        self.ends.len()
    }

    /// Whether there is no field.
    pub fn is_empty(&self) -> bool
        ensures { result ≡ (length self.now == 0) }
    {
        self.ends.is_empty()
    }

    /// The field at this place, counted from 0, or `None` past the last.
    #[inline(always)]
    pub fn field(&self, place: usize) -> Option<&[u8]>
        ensures { option_map (λ s. s.now) result ≡ slice_get self.now place }
    {
        if place >= self.ends.len() {
            return None;
        }
        let (start, end) = span(self.ends.as_slice(), place);
        Some(&self.text.as_slice()[start..end])
    }

    /// Whether both records have the same fields.
    pub fn is_same(&self, other: &Fields) -> bool
        ensures { IsTrue result ↔ (self.now ≡ other.now) }
    {
        self.text.as_slice() == other.text.as_slice()
            && self.ends.as_slice() == other.ends.as_slice()
    }

    /// Takes all fields away, and keeps the room that they had.
    pub fn clear(&mut self)
        ensures { self.new ≡ [] }
    {
        self.text.clear();
        self.ends.clear();
        self.plain = true;
    }

    /// The same fields once more.
    pub fn copy(&self) -> Result<Fields, AllocError>
        ensures { IfOk result (λ same. same ≡ self.now) }
    {
        let alloc = *self.text.allocator();
        Ok(Fields {
            text: Vec::from_slice(alloc, self.text.as_slice())?,
            ends: Vec::from_slice(alloc, self.ends.as_slice())?,
            plain: self.plain,
        })
    }
}
