//! All messages so far, found by id and by red number.

ghost use Rattle.std.specs.Prelude.{◌≡◌, ◌++◌, ◌∷◌, [], List, IfOk, None, OnOk, false, nat_eq, option_copied};
ghost use Rattle.std.specs.HashMap as hash;
ghost use Rattle.rubis_schema.specs.Keys.{same_id};
ghost use Rattle.rubis_message.specs.Message as model;
ghost use Rattle.rubis_message.specs.Message.{IsMessage};
ghost use Rattle.rubis_audit.specs.Walks.{clash_by_id, FirstById, FirstByRed, Sees, id_in, red_in};

use rubis_message::Message;
use rubis_schema::{Hashes, Id};
use std::alloc::{AllocError, Global};
use std::collections::HashMap;

/// The messages of some logs, each found by its id, and a red one by its number. The tables of a log that is walked over are
/// hashed by `hashes`.
#[derive(Drop)]
pub struct Seen<'a> {
    by_id: HashMap<Id, &'a Message>,
    by_red: HashMap<u32, &'a Message>,
    pub(crate) hashes: Hashes,
}

// Files the message under its id, under which there is none.
fn note_id<'a>(map: &mut HashMap<Id, &'a Message>, message: &'a Message) -> Result<(), AllocError>
    requires { hash.get same_id map.old message.now.stamp.id ≡ None }
    ensures { OnOk result (FirstById (hash.get same_id map.old) message.now (hash.get same_id map.new)) }
{
    map.insert(message.id(), message)?;
    Ok(())
}

// Files the message under its red number (0 if it is blue), unless there is one under it already.
fn note_red<'a>(map: &mut HashMap<u32, &'a Message>, message: &'a Message) -> Result<(), AllocError>
    ensures { OnOk result (FirstByRed (hash.get nat_eq map.old) message.now (hash.get nat_eq map.new)) }
{
    if map.get(&message.red()).is_none() {
        map.insert(message.red(), message)?;
    }
    Ok(())
}

impl<'a> Seen<'a> {
    /// No messages. It takes no memory yet.
    pub fn new(alloc: Global, hashes: Hashes) -> Seen<'a>
        ensures { Sees result [] }
    {
        Seen {
            by_id: HashMap::new(alloc),
            by_red: HashMap::new(alloc),
            hashes,
        }
    }

    /// No messages, with room for this many.
    pub(crate) fn with_room(
        alloc: Global,
        hashes: Hashes,
        many: usize,
    ) -> Result<Seen<'a>, AllocError>
        ensures { IfOk result (λ seen. Sees seen []) }
    {
        Ok(Seen {
            by_id: HashMap::with_capacity(alloc, many)?,
            by_red: HashMap::with_capacity(alloc, many)?,
            hashes,
        })
    }

    // The first message with that id.
    pub(crate) fn with_id(&self, id: Id) -> Option<&'a Message>
        ensures { option_copied result ≡ id_in self.now id }
    {
        self.by_id.get(&id).copied()
    }

    // The first message with that red number.
    pub(crate) fn with_red(&self, red: u32) -> Option<&'a Message>
        ensures { option_copied result ≡ red_in self.now red }
    {
        self.by_red.get(&red).copied()
    }

    // Appends a message to those seen, of which `known` has its id. It is the same message, so there is nothing to file.
    pub(crate) fn note(
        &mut self,
        known: Option<&Message>,
        message: &'a Message,
    ) -> Result<(), AllocError>
        requires conditions { IsMessage message.now }
        requires known { option_copied known ≡ id_in self.old message.now.stamp.id }
        ensures { OnOk result ((all : List model.Message) → Sees self.old all → clash_by_id all message.now ≡ false
            → Sees self.new (all ++ message.now ∷ [])) }
    {
        if known.is_some() {
            return Ok(());
        }
        note_id(&mut self.by_id, message)?;
        note_red(&mut self.by_red, message)
    }
}
