//! The keys of rows, and their order within a listing.

ghost use Rattle.std.specs.Prelude.{◌≡◌, ◌<◌};
ghost use Rattle.rubis_schema.specs.Keys.{holds, key_order, table_of};

use crate::ids::Id;
use crate::nicks::Nick;
use std::cmp::Ordering;
use std::hash::{Hash, Hasher};

/// The key of a row: its table, and the id, nickname or category that it has there. Keys are ordered by table, then
/// by site and number, by the nickname's bytes, or by the category.
#[derive(Clone, Copy)]
pub enum RowKey {
    User(Id),
    Item(Id),
    Bid(Id),
    Purchase(Id),
    Comment(Id),
    Nick(Nick),
    Cat(u16),
}

/// One of the seven tables.
#[derive(Clone, Copy)]
pub enum Table {
    Users,
    Items,
    Bids,
    Purchases,
    Comments,
    Nicks,
    Cats,
}

impl Table {
    /// Whether the key is one of this table's.
    pub fn holds(self, key: &RowKey) -> bool
        ensures { result ≡ holds self key.now }
    {
        match (self, key) {
            (Table::Users, RowKey::User(_)) => true,
            (Table::Items, RowKey::Item(_)) => true,
            (Table::Bids, RowKey::Bid(_)) => true,
            (Table::Purchases, RowKey::Purchase(_)) => true,
            (Table::Comments, RowKey::Comment(_)) => true,
            (Table::Nicks, RowKey::Nick(_)) => true,
            (Table::Cats, RowKey::Cat(_)) => true,
            _ => false,
        }
    }
}

/// The order of two keys.
#[tactic(auto, unfolding(crate::specs::Keys::key_order))]
pub fn key_cmp(a: &RowKey, b: &RowKey) -> Ordering
    ensures { result ≡ key_order a.now b.now }
{
    match (a, b) {
        (RowKey::User(i), RowKey::User(j)) => i.cmp(j),
        (RowKey::Item(i), RowKey::Item(j)) => i.cmp(j),
        (RowKey::Bid(i), RowKey::Bid(j)) => i.cmp(j),
        (RowKey::Purchase(i), RowKey::Purchase(j)) => i.cmp(j),
        (RowKey::Comment(i), RowKey::Comment(j)) => i.cmp(j),
        (RowKey::Nick(m), RowKey::Nick(n)) => m.cmp(n),
        (RowKey::Cat(k), RowKey::Cat(l)) => k.cmp(l),
        _ => table_number(a).cmp(&table_number(b)),
    }
}

/// The place of a key's table in the order of keys, from 0.
#[inline(always)]
pub fn table_number(key: &RowKey) -> u8
    ensures { result ≡ table_of key.now }
{
    match key {
        RowKey::User(_) => 0,
        RowKey::Item(_) => 1,
        RowKey::Bid(_) => 2,
        RowKey::Purchase(_) => 3,
        RowKey::Comment(_) => 4,
        RowKey::Nick(_) => 5,
        RowKey::Cat(_) => 6,
    }
}

impl PartialEq for RowKey {
    ghost use Rattle.rubis_schema.specs.Keys.{key_eq};
    ghost use Rattle.rubis_schema.specs.KeyLaws.{key_eq_equiv};
    ghost use Rattle.std.specs.Cmp.{partial_equiv_from_equiv};

    ghost eq = { key_eq };

    ghost laws = { partial_equiv_from_equiv key_eq_equiv };

    fn eq(&self, other: &RowKey) -> bool {
        match (self, other) {
            (RowKey::User(i), RowKey::User(j)) => i == j,
            (RowKey::Item(i), RowKey::Item(j)) => i == j,
            (RowKey::Bid(i), RowKey::Bid(j)) => i == j,
            (RowKey::Purchase(i), RowKey::Purchase(j)) => i == j,
            (RowKey::Comment(i), RowKey::Comment(j)) => i == j,
            (RowKey::Nick(m), RowKey::Nick(n)) => m == n,
            (RowKey::Cat(k), RowKey::Cat(l)) => k == l,
            _ => false,
        }
    }
}

impl Eq for RowKey {
    ghost use Rattle.rubis_schema.specs.KeyLaws.{key_eq_equiv};

    ghost laws = { key_eq_equiv };
}

impl Hash for RowKey {
    ghost use Rattle.std.specs.Hash.{same_Alike};
    ghost use Rattle.rubis_schema.specs.Keys.{key_writes};
    ghost use Rattle.rubis_schema.specs.KeyLaws.{Decides-key_eq};

    ghost hash_input = { key_writes };

    ghost respects_eq = { (same_Alike key_writes Decides-key_eq).fed };

    #[inline(always)]
    fn hash<H: Hasher>(&self, state: &mut H) {
        state.write_u8(table_number(self));
        match self {
            RowKey::User(id)
            | RowKey::Item(id)
            | RowKey::Bid(id)
            | RowKey::Purchase(id)
            | RowKey::Comment(id) => {
                state.write_u8(id.site);
                state.write_u32(id.seq);
            }
            RowKey::Nick(nick) => state.write(nick.as_bytes()),
            RowKey::Cat(cat) => state.write_u16(*cat),
        }
    }
}
