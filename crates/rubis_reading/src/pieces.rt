//! Pieces of a text that are given to a crew, and what it reads in them, in order.

ghost use Rattle.std.specs.Prelude.{◌≡◌, ◌≤◌, ◌<◌, ℕ, List, IfOk, length, true};
ghost use Rattle.rubis_crew.specs.States.{new_helper, new_lead};
ghost use Rattle.rubis_reading.specs.Chunked.{IsChunk};

use crate::cuts::whole_end;
use crate::readings::Reading;
use crate::stretches::Stretch;
use crate::worth::Worth;
use rubis_crew::{Back, Crew, Helper, Lead};
use rubis_engine::OutOfMemory;
use std::alloc::Global;
use std::collections::VecDeque;
use std::sync::Wait;
use std::thread;

// How long a piece is at least and at most, where so much is at hand.
const PIECE_MIN: usize = 16_384;

const PIECE_MAX: usize = 65_536;

/// A piece that was given: how many bytes of the text it is, and what its records are, once they are read.
#[derive(Drop)]
pub struct GivenPiece {
    many: usize,
    read: Option<Result<Vec<Stretch>, OutOfMemory>>,
}

/// What the records of the first bytes of a text are, and how many bytes.
#[derive(Drop)]
pub struct ReadPiece {
    pub many: usize,
    pub list: Vec<Stretch>,
}

/// The pieces of a text that were given to a crew, in order, and the permission to give more.
pub struct Pieces<'a> {
    crew: &'a Crew<Reading>,
    lead: Lead<Reading>,
    given: VecDeque<GivenPiece>,
    // The number of the first of them.
    first: u64,
    // Where in the text the next piece begins.
    from: usize,
    sites: u8,
    window: usize,
    worth: Worth,
    ghost same: { lead.crew ≡ crew.now.id },
    ghost few: { sites ≤ 16 },
}

// How many of the first bytes are whole records: as many as lie within `most` bytes, if a record ends there.
fn first_records(text: &[u8], most: usize) -> usize
    ensures { 1 < result → IsChunk result text.now }
{
    let front = whole_end(&text[..most.min(text.len())]);
    if front > 1 { front } else { whole_end(text) }
}

impl<'a> Pieces<'a> {
    ghost use Rattle.rubis_reading.specs.Readings.{AreFor, AreOf, IsReadingOver, IsPut, KeepFor, TakesPiece};

    /// None yet, of a crew to which nothing was given.
    pub fn new(
        alloc: Global,
        crew: &'a Crew<Reading>,
        lead: Lead<Reading>,
        sites: u8,
        window: usize,
    ) -> Pieces<'a>
        requires fresh { lead ≡ new_lead crew.now.id }
        requires few { sites ≤ 16 }
        ensures none { (text : List ℕ) → AreOf text result }
        ensures setup { AreFor crew.now.id sites window result }
    {
        Pieces {
            crew,
            lead,
            given: VecDeque::new(alloc),
            first: 0,
            from: 0,
            sites,
            window,
            worth: Worth::new(),
        }
    }

    /// The crew to which they are given.
    pub fn crew(&self) -> &'a Crew<Reading>
        ensures { result.now.id ≡ self.now.lead.crew }
    {
        self.crew
    }

    /// What the first helper needs.
    pub fn helper(&mut self) -> Helper<Reading>
        ensures helper { result ≡ new_helper self.old.lead.crew }
        ensures setup { KeepFor self.old self.new }
        ensures pieces { (text : List ℕ) → AreOf text self.old → AreOf text self.new }
    {
        self.crew.helper(&mut self.lead)
    }

    // Gives the next piece of a text, if a record ends in what is left of it and there is room. Whether it did.
    fn give<T: Wait>(&mut self, rt: &T, text: &[u8]) -> Result<bool, OutOfMemory>
        requires { AreOf text.now self.old }
        ensures setup { KeepFor self.old self.new }
        ensures pieces { AreOf text.now self.new }
        ensures more { IfOk result (λ more. more ≡ true → length self.old.lead.given < length self.new.lead.given) }
    {
        let (_, rest) = text.split_at(self.from);
        let most = (rest.len() / 4).max(PIECE_MIN).min(PIECE_MAX);
        let many = first_records(rest, most);
        if many < 2 {
            return Ok(false);
        }
        let (piece, _) = rest.split_at(many);
        let alloc = *self.given.allocator();
        self.given.try_reserve(1)?;
        let reading = Reading {
            text: Vec::from_slice(alloc, piece)?,
            sites: self.sites,
            window: self.window,
        };
        let Ok(_) = self.crew.give(rt, &mut self.lead, reading) else {
            return Ok(false);
        };
        self.given
            .push_back_reserved(GivenPiece { many, read: None });
        self.from += many - 1;
        Ok(true)
    }

    /// Gives further pieces of a text, while there is room and records end in what is left of it, if helpers are worth it.
    pub fn give_all<T: Wait>(&mut self, rt: &T, text: &[u8]) -> Result<(), OutOfMemory>
        requires { AreOf text.now self.old }
        ensures setup { KeepFor self.old self.new }
        ensures pieces { AreOf text.now self.new }
    {
        if !self.worth.feeds() {
            return Ok(());
        }
        for _ in rt.forever() {
            if !self.give(rt, text)? {
                return Ok(());
            }
        }
        unreachable!()
    }

    // Puts a result where its piece is, of those the first of which has that number.
    fn put(
        given: &mut VecDeque<GivenPiece>,
        first: u64,
        back: Back<Result<Vec<Stretch>, OutOfMemory>>,
    )
        ensures { IsPut first given.old.items back given.new.items }
    {
        let Some(place) = back.number.checked_sub(first) else {
            return;
        };
        let place = place as usize;
        if place < given.len() {
            let many = given[place].many;
            given[place] = GivenPiece {
                many,
                read: Some(back.result),
            };
        }
    }

    // Takes a result back, or reads the first piece that no helper has taken, if there is one.
    fn work<T: Wait>(&mut self, rt: &T)
        ensures setup { KeepFor self.old self.new }
        ensures pieces { (text : List ℕ) → AreOf text self.old → AreOf text self.new }
    {
        if let Some(back) = self.crew.take_back(rt, &mut self.lead) {
            self.worth.count(false);
            Pieces::put(&mut self.given, self.first, back);
            return;
        }
        match self.crew.work(rt, &mut self.lead) {
            Some(back) => {
                self.worth.count(true);
                Pieces::put(&mut self.given, self.first, back);
            }
            None => thread::yield_now(),
        }
    }

    /// What the records of the first piece are, once it is read. `None` where no piece is given.
    pub fn next<T: Wait>(&mut self, rt: &T) -> Result<Option<ReadPiece>, OutOfMemory>
        requires { (text : List ℕ) × AreOf text self.old }
        ensures setup { KeepFor self.old self.new }
        ensures first { IfOk result (λ piece. (text : List ℕ) → AreOf text self.old → TakesPiece text piece self.new) }
    {
        for _ in rt.forever() {
            let Some(GivenPiece { many, read }) = self.given.pop_front() else {
                return Ok(None);
            };
            if let Some(list) = read {
                self.first += 1;
                self.from -= many - 1;
                return Ok(Some(ReadPiece { many, list: list? }));
            }
            self.given
                .push_front_reserved(GivenPiece { many, read: None });
            self.work(rt);
        }
        unreachable!()
    }

    /// Lets all go that is given, and tells the helpers that no more comes.
    pub fn end<T: Wait>(&mut self, rt: &T)
        ensures { IsReadingOver self.old.lead.crew self.new.lead }
    {
        self.crew.drain(rt, &mut self.lead);
        self.crew.end(rt, &mut self.lead);
    }

    /// Lets the pieces go, and gives the permission back.
    pub fn into_lead(self) -> Lead<Reading>
        ensures { result ≡ self.entry.lead }
    {
        let Pieces {
            crew: _,
            lead,
            given: _,
            first: _,
            from: _,
            sites: _,
            window: _,
            worth: _,
        } = self;
        lead
    }
}
