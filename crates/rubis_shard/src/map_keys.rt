//! The keys of the maps of a shard.

ghost use Rattle.std.specs.Prelude.{◌≡◌};
ghost use Rattle.rubis_schema.specs.declared.row_keys.RowKey.{RowKey};
ghost use Rattle.rubis_shard.specs.Chains.{key_at, IsPlaced};

use rubis_schema::{IdKey, IdTable, Nick, RowKey};
use std::hash::Hash;

/// A key of a map that stands for the key of a row.
pub trait MapKey: Eq + Hash {
    /// The key of the row.
    ghost row_key: { Self → RowKey };

    /// The key of the row.
    fn row_key(&self) -> RowKey
        ensures { result ≡ row_key self.now };
}

impl MapKey for IdKey {
    ghost use Rattle.rubis_schema.specs.Keys as keys;

    ghost row_key = { keys.row_key };

    #[inline(always)]
    fn row_key(&self) -> RowKey {
        self.row_key()
    }
}

impl MapKey for Nick {
    ghost use Rattle.rubis_schema.specs.declared.row_keys.RowKey.TheVariants as key;

    ghost row_key = { λ n. key.Nick n };

    fn row_key(&self) -> RowKey {
        RowKey::Nick(*self)
    }
}

impl MapKey for u16 {
    ghost use Rattle.rubis_schema.specs.declared.row_keys.RowKey.TheVariants as key;

    ghost row_key = { λ k. key.Cat k };

    fn row_key(&self) -> RowKey {
        RowKey::Cat(*self)
    }
}

/// The map that a key belongs to, and its key there.
pub enum MapPlace {
    /// The map of users.
    User(IdKey),
    /// The map of items, bids, purchases and comments.
    Other(IdKey),
    Nick(Nick),
    Cat(u16),
}

/// Where the row of a key is.
#[inline(always)]
pub fn place_of(key: &RowKey) -> MapPlace
    ensures key { key_at result ≡ key.now }
    ensures placed { IsPlaced result }
{
    match key {
        RowKey::User(id) => MapPlace::User(IdKey::new(IdTable::User, *id)),
        RowKey::Item(id) => MapPlace::Other(IdKey::new(IdTable::Item, *id)),
        RowKey::Bid(id) => MapPlace::Other(IdKey::new(IdTable::Bid, *id)),
        RowKey::Purchase(id) => MapPlace::Other(IdKey::new(IdTable::Purchase, *id)),
        RowKey::Comment(id) => MapPlace::Other(IdKey::new(IdTable::Comment, *id)),
        RowKey::Nick(nick) => MapPlace::Nick(*nick),
        RowKey::Cat(cat) => MapPlace::Cat(*cat),
    }
}
