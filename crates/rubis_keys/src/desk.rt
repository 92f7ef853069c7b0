//! A desk whose records may be under keys.

ghost use Rattle.std.proofs.Common.{rules};
ghost use Rattle.std.specs.Prelude.{◌≡◌, ◌++◌, [], IfOk, Ok, OnOk, refl};
ghost use Rattle.std.specs.Thread.{IsSync};
ghost use Rattle.rubis_message.specs.Message.{sites_of};
ghost use Rattle.rubis_model.specs.Site.{Place, opening_at};
ghost use Rattle.rubis_engine.specs.Text.{rows_text};
ghost use Rattle.rubis_script.specs.Replica.{setup_place};
ghost use Rattle.rubis_script.specs.declared.plan.Plan.{Plan};
ghost use Rattle.rubis_shadow.specs.Shadows.{IsAsk};
ghost use Rattle.rubis_keys.specs.Desks.{HoldsAsBefore, IsKeyedInput, Steps};
ghost use Rattle.rubis_keys.specs.Keys.{asked_under_rows, known_rows, no_keys};
ghost use Rattle.rubis_keys.specs.Maps.{known_in};
ghost use Rattle.rubis_keys.specs.declared.inputs.KeyedInput.TheVariants.{AskedUnder, CameUnder};

use crate::inputs::{KeyedInput, read_under};
use crate::keys::{KeyMaps, Known};
use rubis_engine::{Course, InputRecord, OutOfMemory, PlainSink, Reply, RunFault, Service};
use rubis_message::{Arrival, Message, append_message};
use rubis_schema::{Items, Record, RowSink};
use rubis_script::{Config, Desk, SiteGate, answer_fault, put_reply, write_arrival};
use rubis_shadow::Ask;
use std::alloc::{AllocError, Global};
use std::io::Write;
use std::sync::Wait;
use std::thread::Threads;

// Answers an ask by what is known: gives the id of the message, or says that another ask was accepted under the key.
fn write_known(reply: &mut Reply, known: &Known, ask: &Ask) -> Result<(), AllocError>
    ensures { OnOk result (reply.new.sink ≡ reply.old.sink ++ rows_text (known_rows reply.old.number known.now ask.now)) }
{
    let row = &mut reply.draft.row;
    row.clear();
    if known.answers(ask) {
        row.put_id(known.id);
        put_reply(row, reply.number, b"again");
        return reply.sink.put_plain(row);
    }
    row.put_plain(b"KeyTaken");
    row.put_plain(b"40");
    put_reply(row, reply.number, b"refused");
    reply.sink.put_plain(row)
}

// Gives the id of an accepted ask, and sends its message under its key.
#[tactic(auto, using(crate::proofs::RowFacts::two_rows))]
fn write_made(reply: &mut Reply, key: &[u8], message: &Message) -> Result<(), AllocError>
    ensures { OnOk result (reply.new.sink ≡ reply.old.sink ++ rows_text (asked_under_rows reply.old.number key.now (Ok message.now))) }
{
    let row = &mut reply.draft.row;
    row.clear();
    row.put_id(message.id());
    put_reply(row, reply.number, b"ok");
    reply.sink.put_plain(row)?;
    let fields = &mut reply.draft.fields;
    fields.clear();
    fields.push_plain(b"send")?;
    fields.push_plain(b"key")?;
    fields.push(key)?;
    append_message(fields, message)?;
    reply.sink.put(fields)
}

/// A site at its desk, and what it knows under keys.
#[derive(Drop)]
pub struct KeyedDesk<'a, T> {
    pub desk: Desk<'a, T>,
    pub keys: KeyMaps,
    alloc: Global,
}

impl<'a, T> KeyedDesk<'a, T> {
    /// A site with nothing done, set up so, that knows nothing.
    pub fn new(rt: &'a T, alloc: Global, config: &Config) -> Result<KeyedDesk<'a, T>, AllocError>
        ensures site { IfOk result (λ d. (d.desk.site.place ≡ setup_place config.now) × (d.desk.site.state ≡ opening_at config.now.site)) }
        ensures fresh { IfOk result (λ d. (d.desk.window.items ≡ []) × (known_in d.keys ≡ no_keys)) }
    {
        Ok(KeyedDesk {
            desk: Desk::new(rt, alloc, config, SiteGate::free())?,
            keys: KeyMaps::new(alloc),
            alloc,
        })
    }

    /// What a record is.
    #[inline(always)]
    pub fn read(&self, fields: &InputRecord) -> Result<KeyedInput, OutOfMemory>
        ensures { IfOk result (IsKeyedInput self.now.desk.site.place.sites fields.now) }
    {
        match (fields.field(0), fields.field(1)) {
            (Some(word), Some(key)) if word == b"key".as_slice() => {
                Ok(read_under(self.alloc, fields, key, self.desk.sites())?)
            }
            _ => Ok(KeyedInput::Plain(self.desk.read(fields)?)),
        }
    }
}

impl<T: Threads + Wait + Sync> KeyedDesk<'_, T> {
    /// Answers an ask under a key by what is known, or else has the site decide it: what it makes is known from then on. Whether it made a
    /// message. What is held stays held.
    #[inline(never)]
    pub fn ask(&mut self, reply: &mut Reply, key: Items<u8>, ask: Ask) -> Result<bool, OutOfMemory>
        requires { IsAsk self.old.desk.site.place.sites ask }
        ensures same { HoldsAsBefore self.old self.new }
        ensures asked { IfOk result (Steps (AskedUnder key ask) reply.old.number self.old self.new reply.old.sink reply.new.sink) }
    {
        if let Some(known) = self.keys.known(key.as_slice(), &ask) {
            write_known(reply, known, &ask)?;
            return Ok(false);
        }
        let desk = &mut self.desk;
        match desk.site.request(desk.rt, ask) {
            Ok(message) => {
                write_made(reply, key.as_slice(), &message)?;
                self.keys.note(key, Known::of(&message)?)?;
                Ok(true)
            }
            Err(fault) => {
                answer_fault(reply, fault)?;
                Ok(false)
            }
        }
    }

    /// Has a message come under a key: if it is new at the site, it is known from then on. Whether it is new. What is held stays held.
    #[inline(never)]
    pub fn receive(
        &mut self,
        reply: &mut Reply,
        key: Items<u8>,
        message: Message,
    ) -> Result<bool, OutOfMemory>
        requires { sites_of message ≡ self.old.desk.site.place.sites }
        ensures same { HoldsAsBefore self.old self.new }
        ensures came { IfOk result (Steps (CameUnder key message) reply.old.number self.old self.new reply.old.sink reply.new.sink) }
    {
        let known = Known::of(&message)?;
        let desk = &mut self.desk;
        match desk.site.arrive(desk.rt, message) {
            Ok(arrival) => {
                write_arrival(&mut reply.draft.row, &mut reply.sink, reply.number, arrival)?;
                if matches!(arrival, Arrival::Repeat) {
                    return Ok(false);
                }
                self.keys.note(key, known)?;
                Ok(true)
            }
            Err(fault) => {
                answer_fault(reply, fault)?;
                Ok(false)
            }
        }
    }
}

impl<T: Threads + Wait + Sync> Service for KeyedDesk<'_, T> {
    ghost use Rattle.rubis_keys.specs.Desks.{LeadsKeyed, keyed_left_at, setup_of};

    ghost account = { keyed_left_at };

    ghost leads = { LeadsKeyed };

    ghost Setup = { Place × Plan };

    ghost setup = { setup_of };

    ghost shares = { IsSync T.row };

    ghost reads_none = { λ s n. refl };

    ghost reads_next = { Prim.search rules };

    #[inline(always)]
    fn answer<W: Write>(
        &mut self,
        fields: &InputRecord,
        reply: &mut Reply,
        writer: &mut W,
    ) -> Result<Course, RunFault> {
        match self.read(fields)? {
            KeyedInput::Plain(read) => self.desk.take(reply, read, writer)?,
            KeyedInput::AskedUnder(key, ask) => {
                self.desk.flush(reply)?;
                self.ask(reply, key, ask)?;
            }
            KeyedInput::CameUnder(key, message) => {
                self.desk.flush(reply)?;
                self.receive(reply, key, message)?;
            }
        }
        Ok(Course::GoesOn)
    }

    fn answer_held(&mut self, reply: &mut Reply) -> Result<(), OutOfMemory> {
        self.desk.flush(reply)
    }

    fn answer_end(&mut self, reply: &mut Reply) -> Result<(), OutOfMemory> {
        self.desk.flush(reply)
    }
}
