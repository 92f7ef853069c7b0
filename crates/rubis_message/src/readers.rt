//! A record that is read field by field.

ghost use Rattle.std.specs.Prelude.{◌≡◌, ◌≤◌, ◌==◌, ℕ, List, [], ◌∷◌, IfOk, MatchResult, length};
ghost use Rattle.rubis_message.specs.Readings.{Takes, at_end, take_id, take_name, take_nick, take_number, take_positive, take_rating, take_text, take_winner};
ghost use Rattle.rubis_message.specs.Readings.{take_kind, take_shown};

use crate::faults::ReadFault;
use crate::kinds::RecordKind;
use crate::words::{Shown, says};
use rubis_schema::{Id, Name, Nick, Record, Text, read_number, read_rating};
use std::alloc::Global;
use std::marker::Model;

/// The fields of a record that are still to be read. Contracts see their list.
#[derive(Drop)]
pub struct Reader<'a, F: Record> {
    fields: &'a F,
    next: usize,
}

impl<'a, F: Record> Model for Reader<'a, F> {
    ghost use Rattle.std.specs.Prelude.{ℕ, List, drop, length, ◌≤◌};

    ghost Value = { List (List ℕ) };

    ghost view = { λ r. drop r.next (F.fields r.fields.now) };

    ghost invariant = { λ r. r.next ≤ length (F.fields r.fields.now) };
}

impl<'a, F: Record> Reader<'a, F> {
    /// Nothing is read yet.
    pub fn new(fields: &'a F) -> Reader<'a, F>
        ensures { result ≡ F.fields fields.now }
    {
        Reader { fields, next: 0 }
    }

    /// The next field.
    #[inline(always)]
    pub fn field(&mut self) -> Result<&'a [u8], ReadFault>
        ensures { MatchResult result (λ f. self.old ≡ f.now ∷ self.new) (λ e. (e ≡ ReadFault.BadRecord) × (self.old ≡ [])) }
    {
        if self.next >= self.fields.len() {
            return Err(ReadFault::BadRecord);
        }
        let field = self.fields.field(self.next);
        self.next += 1;
        field.ok_or(ReadFault::BadRecord)
    }

    /// Whether nothing is left to read.
    pub fn is_empty(&self) -> bool
        ensures { result ≡ (length self.now == 0) }
    {
        self.next == self.fields.len()
    }

    /// Nothing is left to read.
    pub fn end(&self) -> Result<(), ReadFault>
        ensures { Takes at_end self.now self.now result }
    {
        if self.next < self.fields.len() {
            return Err(ReadFault::BadRecord);
        }
        Ok(())
    }

    /// A word for a kind.
    #[tactic(auto, unfolding(crate::specs::Readings::take_kind))]
    pub fn kind(&mut self) -> Result<RecordKind, ReadFault>
        ensures { Takes take_kind self.old self.new result }
    {
        RecordKind::read(self.field()?).ok_or(ReadFault::BadRecord)
    }

    /// A word for what a listing shows.
    #[tactic(auto, unfolding(crate::specs::Readings::take_shown))]
    pub fn shown(&mut self) -> Result<Shown, ReadFault>
        ensures { Takes take_shown self.old self.new result }
    {
        Shown::read(self.field()?).ok_or(ReadFault::BadRecord)
    }

    /// A number up to `max`.
    #[inline(always)]
    pub fn number(&mut self, max: u64) -> Result<u64, ReadFault>
        ensures form { Takes (take_number max) self.old self.new result }
        ensures small { IfOk result (λ n. n ≤ max) }
    {
        read_number(self.field()?, max).ok_or(ReadFault::BadRecord)
    }

    /// A number from 1 to `max`.
    #[tactic(auto, unfolding(crate::specs::Readings::take_positive))]
    #[inline(always)]
    pub fn positive(&mut self, max: u64) -> Result<u64, ReadFault>
        ensures form { Takes (take_positive max) self.old self.new result }
        ensures small { IfOk result (λ n. n ≤ max) }
    {
        match self.number(max)? {
            0 => Err(ReadFault::BadRecord),
            number => Ok(number),
        }
    }

    /// A rating.
    pub fn rating(&mut self) -> Result<i8, ReadFault>
        ensures { Takes take_rating self.old self.new result }
    {
        read_rating(self.field()?).ok_or(ReadFault::BadRecord)
    }

    /// An id whose site is below `sites`.
    #[inline(always)]
    pub fn id(&mut self, sites: u8) -> Result<Id, ReadFault>
        ensures { Takes (take_id sites) self.old self.new result }
    {
        Id::read(self.field()?, sites).ok_or(ReadFault::BadRecord)
    }

    /// An id whose site is below `sites`, or `none`.
    #[tactic(auto, unfolding(crate::specs::Readings::id_or_none))]
    pub fn winner(&mut self, sites: u8) -> Result<Option<Id>, ReadFault>
        ensures { Takes (take_winner sites) self.old self.new result }
    {
        let field = self.field()?;
        if says(field, b"none") {
            return Ok(None);
        }
        match Id::read(field, sites) {
            Some(id) => Ok(Some(id)),
            None => Err(ReadFault::BadRecord),
        }
    }

    /// A nickname.
    pub fn nick(&mut self) -> Result<Nick, ReadFault>
        ensures { Takes take_nick self.old self.new result }
    {
        Nick::read(self.field()?).ok_or(ReadFault::BadRecord)
    }

    /// An item's name.
    pub fn name(&mut self, alloc: Global) -> Result<Name, ReadFault>
        ensures { Takes take_name self.old self.new result }
    {
        Name::read(alloc, self.field()?)?.ok_or(ReadFault::BadRecord)
    }

    /// A comment's text.
    pub fn text(&mut self, alloc: Global) -> Result<Text, ReadFault>
        ensures { Takes take_text self.old self.new result }
    {
        Text::read(alloc, self.field()?)?.ok_or(ReadFault::BadRecord)
    }
}
