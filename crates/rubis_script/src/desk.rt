//! A site as a service: a record in, its answers out.

ghost use Rattle.std.proofs.Common.{rules};
ghost use Rattle.std.specs.Prelude.{◌≡◌, ◌≤◌, ◌<◌, ◌+◌, ◌++◌, ◌∷◌, ◌^◌, [], All, IfOk, OnOk, length, max, refl};
ghost use Rattle.rubis_schema.specs.declared.limits.TheConstants.{COUNTED_MAX};
ghost use Rattle.rubis_shadow.specs.Shadows.{IsAsk};
ghost use Rattle.rubis_message.specs.Grammar.{IsPacket};
ghost use Rattle.rubis_message.specs.Message.{sites_of};
ghost use Rattle.rubis_message.specs.declared.requests.Request.TheVariants as Request;
ghost use Rattle.rubis_message.specs.declared.tokens.Packet.TheVariants as Packet;
ghost use Rattle.rubis_model.specs.Site.{refused_row, Place, opening_at};
ghost use Rattle.rubis_message.specs.Inputs.{FitsIn, IsInput};
ghost use Rattle.rubis_message.specs.declared.inputs.Input.TheVariants.{Asked, Came};
ghost use Rattle.std.specs.Thread.{IsSync};
ghost use Rattle.rubis_replica.specs.State.{setup_place};
ghost use Rattle.rubis_script.specs.Windows.{WritesFront, WritesOff, listed_behind};
ghost use Rattle.rubis_script.specs.declared.plan.Plan.{Plan};
ghost use Rattle.rubis_script.specs.declared.plan.TheConstants.{WINDOW_MIN};
ghost use Rattle.rubis_script.specs.Inputs.{IsAnswered, IsRefusedBy};
ghost use Rattle.rubis_engine.specs.Progress.{ByEnd};
ghost use Rattle.rubis_engine.specs.Text.{rows_text};

use crate::gate::SiteGate;
use crate::plan::Plan;
use crate::replies::{
    write_arrival, write_listed_text, write_number, write_passed, write_refusal, write_sent,
    write_taken,
};
use crate::rows_out::write_rows;
use crate::windows::{window_of, write_arrivals};
use rubis_engine::{Course, InputRecord, OutOfMemory, Reply, RunFault, Service};
use rubis_message::{Input, Message, Packet, Request, Token, read_input};
use rubis_replica::{Config, Fault, Site};
use rubis_schema::{Counted, Listing, Record, Refusal};
use rubis_shadow::Ask;
use std::alloc::{AllocError, Global};
use std::io::Write;
use std::mem;
use std::sync::Wait;
use std::thread::Threads;

// Refuses a record.
#[inline(always)]
fn refuse(reply: &mut Reply, refusal: Refusal) -> Result<(), OutOfMemory>
    ensures { OnOk result (reply.new.sink ≡ reply.old.sink ++ rows_text (refused_row reply.old.number refusal ∷ [])) }
{
    Ok(write_refusal(&mut reply.draft.row, &mut reply.sink, reply.number, refusal)?)
}

/// Answers what a site gave no answer to: with its refusal, or without memory, or where the site is behind, not at all.
///
/// # Errors
///
/// If out of memory, or if the site is behind.
#[inline(always)]
pub fn answer_fault(reply: &mut Reply, fault: Fault) -> Result<(), OutOfMemory>
    ensures { OnOk result (IsRefusedBy reply.old.number fault reply.old.sink reply.new.sink) }
{
    match fault {
        Fault::Refused(refusal) => refuse(reply, refusal),
        Fault::Behind | Fault::Memory => Err(OutOfMemory),
    }
}

// Answers a request for a listing. The rows are buffered: the reply line before them carries their count.
#[inline(never)]
fn answer_list<R: Threads + Wait + Sync>(
    rt: &R,
    site: &mut Site<SiteGate>,
    reply: &mut Reply,
    listing: &Listing,
) -> Result<(), OutOfMemory>
    ensures place { site.new.place ≡ site.old.place }
    ensures answered { OnOk result (IsAnswered reply.old.number (Asked (Request.List listing.now)) site.old site.new reply.old.sink reply.new.sink) }
{
    let mut rows = Counted::new(reply.sink.another());
    match site.list_into(rt, listing, &mut rows) {
        Ok(()) => Ok(write_listed_text(&mut reply.draft.row, &mut reply.sink, reply.number, rows)?),
        Err(fault) => answer_fault(reply, fault),
    }
}

// Answers a packet.
#[inline(always)]
fn answer_packet<R: Threads + Wait + Sync>(
    rt: &R,
    site: &mut Site<SiteGate>,
    reply: &mut Reply,
    packet: Packet,
) -> Result<(), OutOfMemory>
    requires { IsPacket site.old.place.sites packet }
    ensures place { site.new.place ≡ site.old.place }
    ensures answered { OnOk result (IsAnswered reply.old.number (Came packet) site.old site.new reply.old.sink reply.new.sink) }
{
    match packet {
        Packet::Msg(message) => match site.arrive(rt, message) {
            Ok(arrival) => Ok(write_arrival(
                &mut reply.draft.row,
                &mut reply.sink,
                reply.number,
                arrival,
            )?),
            Err(fault) => answer_fault(reply, fault),
        },
        Packet::Token(token) => match site.token(token) {
            Ok(taken) => Ok(write_taken(
                &mut reply.draft.row,
                &mut reply.sink,
                reply.number,
                taken,
            )?),
            Err(fault) => answer_fault(reply, fault),
        },
    }
}

// Answers an ask.
#[inline(always)]
fn answer_ask<R: Threads + Wait + Sync>(
    rt: &R,
    site: &mut Site<SiteGate>,
    reply: &mut Reply,
    ask: Ask,
) -> Result<(), OutOfMemory>
    requires { IsAsk site.old.place.sites ask }
    ensures place { site.new.place ≡ site.old.place }
    ensures answered { OnOk result (IsAnswered reply.old.number (Asked (Request.Ask ask)) site.old site.new reply.old.sink reply.new.sink) }
{
    match site.request(rt, ask) {
        Ok(message) => Ok(write_sent(&mut reply.draft, &mut reply.sink, reply.number, &message)?),
        Err(fault) => answer_fault(reply, fault),
    }
}

// Answers what a record was read as. It is a call of its own, so that the values of records that aren't asks have no room at the desk, which
// would be cleared for each record.
#[inline(never)]
fn answer<R: Threads + Wait + Sync>(
    rt: &R,
    site: &mut Site<SiteGate>,
    reply: &mut Reply,
    read: Input,
) -> Result<(), OutOfMemory>
    requires { FitsIn site.old.place.sites read }
    ensures place { site.new.place ≡ site.old.place }
    ensures answered { OnOk result (IsAnswered reply.old.number read site.old site.new reply.old.sink reply.new.sink) }
{
    match read {
        Input::Came(packet) => answer_packet(rt, site, reply, packet),
        Input::Asked(Request::Ask(ask)) => answer_ask(rt, site, reply, ask),
        Input::Asked(Request::Pass(to)) => match site.pass(to) {
            Ok(token) => Ok(write_passed(
                &mut reply.draft.row,
                &mut reply.sink,
                reply.number,
                &token,
            )?),
            Err(fault) => answer_fault(reply, fault),
        },
        Input::Asked(Request::List(listing)) => answer_list(rt, site, reply, &listing),
        Input::Neither => refuse(reply, Refusal::BadRecord),
    }
}

// Answers a request for a listing. Its rows are written out while they are made: at the end the last of them wait in the reply.
fn list_rows<R: Threads + Wait + Sync, W: Write>(
    rt: &R,
    site: &mut Site<SiteGate>,
    reply: &mut Reply,
    listing: &Listing,
    writer: &mut W,
) -> Result<(), RunFault>
    ensures place { site.new.place ≡ site.old.place }
    ensures state { site.new.state ≡ site.old.state }
    ensures listed { let text = listed_behind reply.old.sink site.old reply.old.number listing.now in
        ByEnd result (λ _. WritesOff text reply.new.sink (W.contents writer.old) (W.contents writer.new)) ⊥ ⊥
        (WritesFront text (W.contents writer.old) (W.contents writer.new)) }
{
    if site.prepare(rt, listing).is_err() {
        return Err(RunFault::Memory);
    }
    let mut rows = site.rows(listing)?;
    let count = rows.count() as u64;
    write_number(
        &mut reply.draft.row,
        &mut reply.sink,
        reply.number,
        b"rows",
        count,
    )?;
    write_rows(rt, &mut rows, &mut reply.sink, writer)
}

/// A site with what it needs to read records and to write its answers.
#[derive(Drop)]
pub struct Desk<'a, T> {
    /// What its answers may share with other threads.
    pub rt: &'a T,
    pub site: Site<SiteGate>,
    sites: u8,
    // How many messages are taken in together, where they are read one by one.
    together: usize,
    // How many messages may wait to be applied where others are taken in: in a run fewer than a window, which its helpers fold.
    may_wait: usize,
    /// How it reads ahead.
    pub plan: Plan,
    /// The messages that it holds, to take them in together: they came one after the other.
    pub window: Vec<Message>,
    /// The number of the first of them.
    pub first: u64,
    alloc: Global,
    ghost same: { sites ≡ site.place.sites },
    ghost few: { sites ≤ COUNTED_MAX },
    ghost some: { 0 < plan.window },
    ghost most: { together ≤ plan.window },
    ghost held: { All (λ m. sites_of m ≡ sites) window.items },
    ghost fits: { length window.items ≤ plan.window },
    ghost numbered: { first + length window.items ≤ 2 ^ 64 },
}

impl<'a, T> Desk<'a, T> {
    /// A site with nothing done, set up so, whose batches are applied under the gate.
    pub fn new(
        rt: &'a T,
        alloc: Global,
        config: &Config,
        gate: SiteGate,
    ) -> Result<Desk<'a, T>, AllocError>
        ensures site { IfOk result (λ desk. (desk.site.place ≡ setup_place config.now) × (desk.site.state ≡ opening_at config.now.site)) }
        ensures helpers { IfOk result (λ desk. desk.plan.helpers + 1 ≡ config.now.workers) }
        ensures window { IfOk result (λ desk. desk.plan.window ≡ max config.now.batch WINDOW_MIN) }
        ensures batch { IfOk result (λ desk. desk.site.batch ≡ config.now.batch) }
        ensures fresh { IfOk result (λ desk. desk.window.items ≡ []) }
    {
        Ok(Desk {
            rt,
            site: Site::new(alloc, config, gate)?,
            sites: config.sites(),
            together: window_of(config),
            may_wait: 0,
            plan: Plan::of(config),
            window: Vec::new(alloc),
            first: 1,
            alloc,
        })
    }

    /// How many sites there are.
    pub fn sites(&self) -> u8
        ensures same { result ≡ self.now.site.place.sites }
        ensures few { result ≤ COUNTED_MAX }
    {
        self.sites
    }

    /// What a record is.
    #[inline(always)]
    pub fn read(&self, fields: &InputRecord) -> Result<Input, OutOfMemory>
        ensures { IfOk result (λ read. IsInput self.now.site.place.sites fields.now read) }
    {
        Ok(read_input(self.alloc, fields, self.sites)?)
    }
}

impl<T: Threads + Wait + Sync> Desk<'_, T> {
    ghost use Rattle.rubis_script.specs.Desks.{KeepsSetup, TakesHeld, TakesNext, WritesNext, WritesPrefixFrom};

    /// Begins a run: it holds nothing.
    pub fn start(&mut self)
        ensures site { self.new.site ≡ self.old.site }
        ensures plan { self.new.plan ≡ self.old.plan }
        ensures fresh { self.new.window.items ≡ [] }
    {
        self.may_wait = self.plan.window;
        self.window = Vec::new(self.alloc);
        self.first = 1;
    }

    /// Takes in the messages that are held, and answers them, if there are any.
    #[inline(always)]
    pub fn flush(&mut self, reply: &mut Reply) -> Result<(), OutOfMemory>
        ensures same { KeepsSetup self.old self.new }
        ensures number { reply.new.number ≡ reply.old.number }
        ensures empty { self.new.window.items ≡ [] }
        ensures flushed { OnOk result (TakesHeld self.old self.new reply.old.sink reply.new.sink) }
    {
        if self.window.is_empty() {
            return Ok(());
        }
        self.take_in(reply)
    }

    // Takes in the messages that are held, and answers them.
    #[inline(never)]
    #[tactic(auto, using(crate::proofs::DeskFacts::held_as))]
    fn take_in(&mut self, reply: &mut Reply) -> Result<(), OutOfMemory>
        ensures same { KeepsSetup self.old self.new }
        ensures number { reply.new.number ≡ reply.old.number }
        ensures empty { self.new.window.items ≡ [] }
        ensures flushed { OnOk result (TakesHeld self.old self.new reply.old.sink reply.new.sink) }
    {
        let messages = mem::replace(&mut self.window, Vec::new(self.alloc));
        let arrived = self.site.arrive_within(self.rt, messages, self.may_wait);
        write_arrivals(
            &mut reply.draft.row,
            &mut reply.sink,
            self.first,
            arrived.answers.as_slice(),
        )?;
        if arrived.fault.is_some() {
            return Err(OutOfMemory);
        }
        Ok(())
    }

    // Takes in the messages that are held, unless there is room behind them for the next record, whose number the reply has.
    fn make_room(&mut self, reply: &mut Reply) -> Result<(), OutOfMemory>
        ensures same { KeepsSetup self.old self.new }
        ensures number { reply.new.number ≡ reply.old.number }
        ensures room { length self.new.window.items < self.new.plan.window }
        ensures next { OnOk result ((self.new.first + length self.new.window.items ≡ reply.old.number) × (reply.old.number < 2 ^ 64)) }
        ensures kept { OnOk result (TakesHeld self.old self.new reply.old.sink reply.new.sink) }
    {
        let many = self.window.len();
        let number = reply.number;
        if many < self.together && self.first <= number && number - self.first == many as u64 {
            return Ok(());
        }
        self.flush(reply)?;
        self.first = number;
        Ok(())
    }

    // Holds one more message. Where there is no room for it, those that are held are taken in before.
    #[inline(always)]
    fn hold_next(&mut self, reply: &mut Reply, message: Message) -> Result<(), OutOfMemory>
        requires { sites_of message ≡ self.old.site.place.sites }
        ensures same { KeepsSetup self.old self.new }
        ensures takes { OnOk result (TakesNext (Came (Packet.Msg message)) reply.old.number self.old self.new reply.old.sink reply.new.sink) }
    {
        self.make_room(reply)?;
        if self.window.push(message).is_err() {
            return Err(OutOfMemory);
        }
        Ok(())
    }

    // Takes in the messages that are held, and answers a request for a listing, the next record. Its rows are written out while they
    // are made: at the end the last of them wait in the reply.
    fn list_out<W: Write>(
        &mut self,
        reply: &mut Reply,
        listing: &Listing,
        writer: &mut W,
    ) -> Result<(), RunFault>
        ensures same { KeepsSetup self.old self.new }
        ensures listed { let asked = Asked (Request.List listing.now) in
            ByEnd result
            (λ _. WritesNext asked reply.old.number self.old self.new reply.old.sink reply.new.sink (W.contents writer.old) (W.contents writer.new)) ⊥ ⊥
            (WritesPrefixFrom asked reply.old.number self.old reply.old.sink (W.contents writer.old) (W.contents writer.new)) }
    {
        self.flush(reply)?;
        list_rows(self.rt, &mut self.site, reply, listing, writer)
    }

    /// Holds what the next record was read as, whose number the reply has, if it is a message and messages are held at all, at most as
    /// many as the plan says; otherwise takes in those that are held, and answers it. The rows of a listing are written out while they are
    /// made: at the end the last of them wait in the reply.
    ///
    /// # Errors
    ///
    /// `Write` where the writer failed, and `Memory` if memory ran out or the site is behind: a prefix of the text was written then.
    #[inline(always)]
    pub fn take<W: Write>(
        &mut self,
        reply: &mut Reply,
        read: Input,
        writer: &mut W,
    ) -> Result<(), RunFault>
        requires { FitsIn self.old.site.place.sites read }
        ensures same { KeepsSetup self.old self.new }
        ensures takes { ByEnd result
            (λ _. WritesNext read reply.old.number self.old self.new reply.old.sink reply.new.sink (W.contents writer.old) (W.contents writer.new)) ⊥ ⊥
            (WritesPrefixFrom read reply.old.number self.old reply.old.sink (W.contents writer.old) (W.contents writer.new)) }
    {
        match read {
            Input::Asked(Request::List(listing)) => self.list_out(reply, &listing, writer),
            Input::Came(Packet::Msg(message)) if self.together > 1 => {
                Ok(self.hold_next(reply, message)?)
            }
            Input::Asked(Request::Ask(ask)) => {
                self.flush(reply)?;
                Ok(answer_ask(self.rt, &mut self.site, reply, ask)?)
            }
            other => {
                self.flush(reply)?;
                Ok(answer(self.rt, &mut self.site, reply, other)?)
            }
        }
    }
}

impl<T: Threads + Wait + Sync> Service for Desk<'_, T> {
    ghost use Rattle.rubis_script.specs.Desks.{LeadsSite, left_at, setup_of};

    ghost account = { left_at };

    ghost leads = { LeadsSite };

    ghost Setup = { Place × Plan };

    ghost setup = { setup_of };

    ghost shares = { IsSync T.row };

    ghost reads_none = { λ s n. refl };

    ghost reads_next = { Prim.search rules };

    #[inline(always)]
    fn answer<W: Write>(
        &mut self,
        fields: &InputRecord,
        reply: &mut Reply,
        writer: &mut W,
    ) -> Result<Course, RunFault> {
        let Ok(read) = read_input(self.alloc, fields, self.sites) else {
            return Err(RunFault::Memory);
        };
        self.take(reply, read, writer)?;
        Ok(Course::GoesOn)
    }

    fn answer_held(&mut self, reply: &mut Reply) -> Result<(), OutOfMemory> {
        self.flush(reply)
    }

    fn answer_end(&mut self, reply: &mut Reply) -> Result<(), OutOfMemory> {
        self.flush(reply)
    }
}
