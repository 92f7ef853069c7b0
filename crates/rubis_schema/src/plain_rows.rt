//! A row whose fields call for no quotes, in place.

ghost use Rattle.std.specs.Prelude.{◌≡◌, ◌≤◌, ◌<◌, ◌+◌, ◌++◌, ◌∷◌, [], ℕ, List, IsTrue, decimal, false, length, true};
ghost use Rattle.rubis_schema.specs.FieldList.{all_plain, is_mark, joined};
ghost use Rattle.rubis_schema.specs.FieldList as model;
ghost use Rattle.rubis_schema.specs.Ids.{id_text};
ghost use Rattle.rubis_schema.specs.declared.limits.TheConstants.{ID_TEXT_MAX, NUMBER_TEXT_MAX, PLAIN_ROW_MAX};

use crate::field_list::is_plain;
use crate::ids::Id;
use crate::limits::PLAIN_ROW_MAX;
use crate::short_texts::ShortText;
use std::marker::Model;

/// A row of fields that call for no quotes, written from its last field to its first, in place: it takes no memory. It has room
/// for 640 bytes, with a comma for each field. Contracts see its fields, and how many bytes are left.
#[derive(Drop)]
pub struct PlainRow {
    // The fields, each with a comma before it.
    text: ShortText<PLAIN_ROW_MAX>,
}

impl Model for PlainRow {
    ghost use Rattle.rubis_schema.specs.FieldList as model;
    ghost use Rattle.rubis_schema.specs.FieldList.{IsPlainText, row_of_text};
    ghost use Rattle.rubis_schema.specs.declared.limits.TheConstants.{PLAIN_ROW_MAX};

    ghost Value = { model.PlainRow };

    ghost view = { λ r. row_of_text PLAIN_ROW_MAX r.text };

    ghost invariant = { λ r. IsPlainText PLAIN_ROW_MAX r.text };
}

impl PlainRow {
    /// A row with no fields.
    pub fn new() -> PlainRow
        ensures { result ≡ record { fields = []; left = PLAIN_ROW_MAX } }
    {
        PlainRow {
            text: ShortText::new(),
        }
    }

    /// Takes all fields away.
    #[inline(always)]
    pub fn clear(&mut self)
        ensures { self.new ≡ record { fields = []; left = PLAIN_ROW_MAX } }
    {
        self.text.clear();
    }

    /// Puts a field that calls for no quotes first, most often a word.
    #[inline(always)]
    pub fn put_plain(&mut self, field: &[u8])
        requires plain { model.is_plain field.now ≡ true }
        requires room { length field.now + 1 ≤ self.old.left }
        ensures fields { self.new.fields ≡ field.now ∷ self.old.fields }
        ensures left { self.new.left + (length field.now + 1) ≡ self.old.left }
    {
        self.text.put_bytes(field);
        self.text.put_byte(b',');
    }

    /// Puts a field first if it calls for no quotes, and says whether it did. Otherwise nothing changes.
    #[inline(always)]
    pub fn put(&mut self, field: &[u8]) -> bool
        requires room { length field.now + 1 ≤ self.old.left }
        ensures fields { IsTrue result → self.new.fields ≡ field.now ∷ self.old.fields }
        ensures left { IsTrue result → self.new.left + (length field.now + 1) ≡ self.old.left }
        ensures plain { result ≡ model.is_plain field.now }
        ensures none { result ≡ false → self.new ≡ self.old }
    {
        let plain = is_plain(field);
        if plain {
            self.put_plain(field);
        }
        plain
    }

    /// Puts a number first.
    #[inline(always)]
    pub fn put_number(&mut self, number: u64)
        requires room { NUMBER_TEXT_MAX + 1 ≤ self.old.left }
        ensures fields { self.new.fields ≡ decimal number ∷ self.old.fields }
        ensures left { self.old.left ≤ self.new.left + (NUMBER_TEXT_MAX + 1) }
    {
        self.text.put_long(number);
        self.text.put_byte(b',');
    }

    /// Puts an id first, as a field.
    #[inline(always)]
    pub fn put_id(&mut self, id: Id)
        requires room { ID_TEXT_MAX + 1 ≤ self.old.left }
        ensures fields { self.new.fields ≡ id_text id ∷ self.old.fields }
        ensures left { self.old.left ≤ self.new.left + (ID_TEXT_MAX + 1) }
    {
        self.text.put_number(id.seq);
        self.text.put_byte(b'.');
        self.text.put_number(u32::from(id.site));
        self.text.put_byte(b',');
    }

    /// Puts a mark before the first field, as a part of it.
    #[inline(always)]
    pub fn put_mark(&mut self, mark: u8)
        requires mark { is_mark mark ≡ false }
        requires some { 0 < length self.old.fields }
        requires room { 1 ≤ self.old.left }
        ensures fields { (f : List ℕ) (fs : List (List ℕ)) → self.old.fields ≡ f ∷ fs → self.new.fields ≡ (mark ∷ f) ∷ fs }
        ensures left { self.new.left + 1 ≡ self.old.left }
    {
        self.text.drop_first();
        self.text.put_byte(mark);
        self.text.put_byte(b',');
    }

    /// Puts a number of up to ten digits and a mark before the first field, as a part of it.
    #[inline(always)]
    pub fn put_before(&mut self, mark: u8, number: u32)
        requires mark { is_mark mark ≡ false }
        requires some { 0 < length self.old.fields }
        requires room { 11 ≤ self.old.left }
        ensures fields { (f : List ℕ) (fs : List (List ℕ)) → self.old.fields ≡ f ∷ fs → self.new.fields ≡ (decimal number ++ mark ∷ f) ∷ fs }
        ensures left { self.old.left ≤ self.new.left + 11 }
    {
        self.text.drop_first();
        self.text.put_byte(mark);
        self.text.put_number(number);
        self.text.put_byte(b',');
    }

    /// All fields, each with a comma before it. None of them calls for quotes.
    #[inline(always)]
    pub fn text(&self) -> &[u8]
        ensures text { result.now ≡ joined self.now.fields }
        ensures plain { all_plain self.now.fields ≡ true }
    {
        self.text.as_bytes()
    }
}
