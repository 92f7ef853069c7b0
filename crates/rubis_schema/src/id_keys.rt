//! Keys of rows as one word, for maps.

ghost use Rattle.std.specs.Prelude.{◌≡◌, ◌<◌, ◌+◌, ◌*◌};
ghost use Rattle.rubis_schema.specs.Keys.{row_key, same_id_key, table_place};

use crate::ids::Id;
use crate::row_keys::RowKey;
use std::hash::{Hash, Hasher};

/// One of the five tables whose rows have ids.
#[derive(Clone, Copy)]
pub enum IdTable {
    User,
    Item,
    Bid,
    Purchase,
    Comment,
}

impl IdTable {
    // The place of the table in the order of keys.
    #[inline(always)]
    fn place(self) -> u64
        ensures { result ≡ table_place self }
    {
        match self {
            IdTable::User => 0,
            IdTable::Item => 1,
            IdTable::Bid => 2,
            IdTable::Purchase => 3,
            IdTable::Comment => 4,
        }
    }
}

/// The key of a row with an id, in eight bytes.
#[derive(Clone, Copy)]
pub struct IdKey {
    pub seq: u32,
    pub site: u8,
    pub table: IdTable,
}

impl IdKey {
    /// The key of the row with that id in a table.
    #[inline(always)]
    pub fn new(table: IdTable, id: Id) -> IdKey
        ensures { result ≡ record { seq = id.seq; site = id.site; table = table } }
    {
        IdKey {
            seq: id.seq,
            site: id.site,
            table,
        }
    }

    /// The key as that of a row of any table.
    #[inline(always)]
    pub fn row_key(&self) -> RowKey
        ensures { result ≡ row_key self.now }
    {
        let id = Id {
            site: self.site,
            seq: self.seq,
        };
        match self.table {
            IdTable::User => RowKey::User(id),
            IdTable::Item => RowKey::Item(id),
            IdTable::Bid => RowKey::Bid(id),
            IdTable::Purchase => RowKey::Purchase(id),
            IdTable::Comment => RowKey::Comment(id),
        }
    }
}

impl PartialEq for IdKey {
    ghost use Rattle.rubis_schema.specs.Keys.{same_id_key};
    ghost use Rattle.rubis_schema.specs.IdKeyLaws.{same_id_key_equiv};
    ghost use Rattle.std.specs.Cmp.{partial_equiv_from_equiv};

    ghost eq = { same_id_key };

    ghost laws = { partial_equiv_from_equiv same_id_key_equiv };

    #[inline(always)]
    fn eq(&self, other: &IdKey) -> bool {
        self.table.place() == other.table.place()
            && self.site == other.site
            && self.seq == other.seq
    }
}

impl Eq for IdKey {
    ghost use Rattle.rubis_schema.specs.IdKeyLaws.{same_id_key_equiv};

    ghost laws = { same_id_key_equiv };
}

impl Hash for IdKey {
    ghost use Rattle.std.specs.Hash.{same_Alike};
    ghost use Rattle.std.specs.Hash as fed;
    ghost use Rattle.rubis_schema.specs.Keys.{key_word};
    ghost use Rattle.rubis_schema.specs.IdKeyLaws.{Decides-same_id_key};

    ghost hash_input = { λ k. fed.u64 (key_word k) };

    ghost respects_eq = { (same_Alike (λ k. fed.u64 (key_word k)) Decides-same_id_key).fed };

    // The last two bits of the number and the table stand in the highest byte of the word. After the multiplication they are in the
    // highest byte of the hash alone, which tells the keys of one group of a map's index from each other; the rest of the hash says
    // which group it is. So four ids that follow each other have one group, whatever their tables, and rows that are entered one
    // after the other are found in few lines of memory.
    #[inline(always)]
    fn hash<H: Hasher>(&self, state: &mut H) {
        let id = u64::from(self.site) * (1 << 32) + u64::from(self.seq);
        state.write_u64((self.table.place() * (1 << 58) + id).rotate_right(2));
    }
}
