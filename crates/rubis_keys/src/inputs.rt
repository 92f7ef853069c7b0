//! What a record is to a site that knows keys.

ghost use Rattle.std.specs.Prelude.{◌≡◌, ◌≤◌, IfOk, drop};
ghost use Rattle.std.specs.List.{list_all};
ghost use Rattle.rubis_schema.specs.FieldForms.{is_printable};
ghost use Rattle.rubis_schema.specs.declared.limits.TheConstants.{COUNTED_MAX};
ghost use Rattle.rubis_keys.specs.Desks.{IsUnder};
ghost use Rattle.rubis_keys.specs.Keys.{is_key};

use rubis_engine::InputRecord;
use rubis_message::{Input, Message, Packet, Request, read_input};
use rubis_schema::{Items, Record};
use rubis_shadow::Ask;
use std::alloc::{AllocError, Global};

/// The most bytes of a key; the least is 1.
pub const KEY_MAX: usize = 255;

/// What a record is to a site that knows keys: 1 to `KEY_MAX` bytes from space to `~`.
#[derive(Drop)]
pub enum KeyedInput {
    /// A record without a key.
    Plain(Input),
    /// An ask under a key.
    AskedUnder(Items<u8>, Ask),
    /// A message of another site, under the key that it was asked under there.
    CameUnder(Items<u8>, Message),
}

/// The fields of a record without the first ones.
#[derive(Clone, Copy)]
pub struct LaterFields<'a, R> {
    pub record: &'a R,
    pub first: usize,
}

impl<R: Record> Record for LaterFields<'_, R> {
    ghost use Rattle.std.specs.Prelude.{drop};

    ghost fields = { λ r. drop r.first (R.fields r.record.now) };

    fn len(&self) -> usize {
        self.record.len().saturating_sub(self.first)
    }

    fn field(&self, place: usize) -> Option<&[u8]> {
        if place >= self.record.len().saturating_sub(self.first) {
            return None;
        }
        self.record.field(self.first + place)
    }
}

fn are_printable(text: &[u8]) -> bool
    ensures { result ≡ list_all is_printable text.now }
{
    text.iter().all(|byte| *byte >= b' ' && *byte <= b'~')
}

fn is_key(text: &[u8]) -> bool
    ensures { result ≡ is_key text.now }
{
    !text.is_empty() && text.len() <= KEY_MAX && are_printable(text)
}

/// What a record is that begins with the word `key` and this field: only an ask or a message has a key.
pub(crate) fn read_under(
    alloc: Global,
    fields: &InputRecord,
    key: &[u8],
    sites: u8,
) -> Result<KeyedInput, AllocError>
    requires { sites ≤ COUNTED_MAX }
    ensures { IfOk result (IsUnder sites key.now (drop 2 fields.now)) }
{
    if !is_key(key) {
        return Ok(KeyedInput::Plain(Input::Neither));
    }
    let later = LaterFields {
        record: fields,
        first: 2,
    };
    let key = Items::from(Vec::from_slice(alloc, key)?);
    match read_input(alloc, &later, sites)? {
        Input::Asked(Request::Ask(ask)) => Ok(KeyedInput::AskedUnder(key, ask)),
        Input::Came(Packet::Msg(message)) => Ok(KeyedInput::CameUnder(key, message)),
        _ => Ok(KeyedInput::Plain(Input::Neither)),
    }
}
