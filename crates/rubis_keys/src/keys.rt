//! The messages that a site knows under keys.

ghost use Rattle.std.specs.Prelude.{◌≡◌, IfOk, OnOk, option_copied};
ghost use Rattle.rubis_keys.specs.Keys.{answers_ask, is_red_ask, known_of, no_keys, noted};
ghost use Rattle.rubis_keys.specs.Maps.{Puts, known_in};

use rubis_message::Message;
use rubis_schema::{Id, Items};
use rubis_shadow::{Ask, Colour, Shadow};
use std::alloc::{AllocError, Global};
use std::collections::BTreeMap;

/// What a site knows under a key: the id of a message, and what it does. Items and comments share their memory with the message.
#[derive(Drop)]
pub struct Known {
    pub id: Id,
    pub shadow: Shadow,
}

impl Known {
    /// What is known of a message.
    pub fn of(message: &Message) -> Result<Known, AllocError>
        ensures { IfOk result (λ known. known ≡ known_of message.now) }
    {
        Ok(Known {
            id: message.id(),
            shadow: message.shadow().copy()?,
        })
    }

    /// Whether the message answers this ask, whoever asks for a close or a restock: the message doesn't say who.
    pub fn answers(&self, ask: &Ask) -> bool
        ensures { result ≡ answers_ask self.now.shadow ask.now }
    {
        match (&self.shadow, ask) {
            (Shadow::User(nick), Ask::User(asked)) => nick == asked,
            (Shadow::Item(item), Ask::Item(asked)) => item == asked,
            (Shadow::Bid(bid), Ask::Bid(asked)) => bid == asked,
            (Shadow::Buy(purchase), Ask::Buy(asked)) => purchase == asked,
            (Shadow::Close(close), Ask::Close(asked)) => close.item == asked.item,
            (Shadow::Comment(comment), Ask::Comment(asked)) => comment == asked,
            (Shadow::Restock(restock), Ask::Restock(asked)) => {
                restock.item == asked.item && restock.quantity == asked.quantity
            }
            (Shadow::Rename(rename), Ask::Rename(asked)) => {
                rename.user() == asked.user() && rename.to() == asked.nick()
            }
            _ => false,
        }
    }
}

// Puts a message under a key, unless one is there.
#[tactic(auto, using(crate::proofs::MapFacts::put_there, crate::proofs::MapFacts::put_new))]
fn put(map: &mut BTreeMap<Vec<u8>, Known>, key: Vec<u8>, new: Known) -> Result<(), AllocError>
    ensures { OnOk result (Puts map.old map.new key.items new) }
{
    if map.contains_key(&key) {
        return Ok(());
    }
    match map.insert(key, new) {
        Ok(_) => Ok(()),
        Err(_) => Err(AllocError),
    }
}

/// The messages that are known under keys, red and blue ones apart.
#[derive(Drop)]
pub struct KeyMaps {
    red: BTreeMap<Vec<u8>, Known>,
    blue: BTreeMap<Vec<u8>, Known>,
}

impl KeyMaps {
    /// Nothing is known.
    pub fn new(alloc: Global) -> KeyMaps
        ensures { known_in result ≡ no_keys }
    {
        KeyMaps {
            red: BTreeMap::new(alloc),
            blue: BTreeMap::new(alloc),
        }
    }

    /// The message that is known under a key of the colour of an ask, if one is.
    pub fn known(&self, key: &[u8], ask: &Ask) -> Option<&Known>
        ensures { option_copied result ≡ known_in self.now key.now (is_red_ask ask.now) }
    {
        match ask {
            Ask::Item(_) | Ask::Comment(_) | Ask::Restock(_) => self.blue.get(key),
            _ => self.red.get(key),
        }
    }

    /// Notes a message under a key. The first one of its colour stays.
    pub fn note(&mut self, key: Items<u8>, new: Known) -> Result<(), AllocError>
        ensures { OnOk result (known_in self.new ≡ noted (known_in self.old) key new) }
    {
        match new.shadow.colour() {
            Colour::Red => put(&mut self.red, Vec::from(key), new),
            Colour::Blue => put(&mut self.blue, Vec::from(key), new),
        }
    }
}
