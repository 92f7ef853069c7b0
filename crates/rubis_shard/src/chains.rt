//! Rows in chains, so that a listing of rows that belong together needn't look at the others.

ghost use Rattle.std.specs.Prelude.{◌≡◌, ◌<◌, ◌++◌, ◌∷◌, [], None, Some, cond, List, IfOk, OnOk, OnErr, length, slice_index};
ghost use Rattle.rubis_schema.specs.Keys.{row_key, same_id_key};
ghost use Rattle.rubis_schema.specs.declared.id_keys.IdKey.{IdKey};
ghost use Rattle.indexmap.specs.IndexMap.{get};
ghost use Rattle.rubis_shard.specs.Chains.{chains_of, is_in, last_noted, IsLinkedSoFar, Links, chain_written};
ghost use Rattle.rubis_shard.specs.Chains as model;

use indexmap::IndexMap;
use rubis_schema::{IdKey, IdTable, KeyHashes, Listing, Row};
use std::alloc::{AllocError, Global};

/// The greatest place that a row can have.
const PLACE_MAX: usize = 4294967295;

// The chain of the items of a category: the category's number stands in the place of an id.
fn chain_of_items(cat: u16) -> IdKey
    ensures { result ≡ model.chain_of_items cat }
{
    IdKey {
        seq: u32::from(cat),
        site: 0,
        table: IdTable::Item,
    }
}

// The chain of all users. Zeros stand in the place of an id.
fn chain_of_users() -> IdKey
    ensures { result ≡ model.chain_of_users }
{
    IdKey {
        seq: 0,
        site: 0,
        table: IdTable::User,
    }
}

// The chain of a row, named by its table and by the item, the user or the category by which the row is listed. Other rows
// are in none.
fn chain_of_row(row: &Row) -> Option<IdKey>
    ensures { result ≡ model.chain_of_row row.now }
{
    match row {
        Row::Item(item) => Some(chain_of_items(item.cat)),
        Row::Bid(bid) => Some(IdKey::new(IdTable::Bid, bid.item())),
        Row::Purchase(purchase) => Some(IdKey::new(IdTable::Purchase, purchase.item)),
        Row::Comment(comment) => Some(IdKey::new(IdTable::Comment, comment.to)),
        Row::User(_) | Row::Nick(_) | Row::Cat(_) => None,
    }
}

/// The chain of the row at a key: that of all users, or the one of the rows that are listed with it. Other rows are in no
/// chain.
pub fn chain_of(key: &IdKey, row: &Row) -> Option<IdKey>
    ensures { result ≡ model.chain_of (row_key key.now) row.now }
{
    match key.table {
        IdTable::User => Some(chain_of_users()),
        _ => chain_of_row(row),
    }
}

/// The chain that has all rows of a listing, if it is of users or of rows that belong together.
pub fn chain_with(listing: &Listing) -> Option<IdKey>
    ensures { result ≡ model.chain_with listing.now }
{
    match listing {
        Listing::Users => Some(chain_of_users()),
        Listing::Items(cat) => Some(chain_of_items(*cat)),
        Listing::Bids(item) => Some(IdKey::new(IdTable::Bid, *item)),
        Listing::Purchases(item) => Some(IdKey::new(IdTable::Purchase, *item)),
        Listing::Comments(user) => Some(IdKey::new(IdTable::Comment, *user)),
        _ => None,
    }
}

/// For rows in the order in which they came, each linked to the one before it in its chain. A place counts from 1, and
/// 0 is none.
#[derive(Drop)]
pub struct Chains {
    /// The place of the last row of each chain.
    pub last: IndexMap<IdKey, u32, KeyHashes>,
    /// For each row the place of the one before it in its chain.
    pub before: Vec<u32>,
}

// Notes a place as the last one of its chain, and answers the one that was noted before, or 0. Where there is no chain, it
// notes nothing.
fn note_last(
    last: &mut IndexMap<IdKey, u32, KeyHashes>,
    chain: Option<IdKey>,
    place: u32,
) -> Result<u32, AllocError>
    ensures before { IfOk result (λ before. before ≡ last_noted chain last.old.entries) }
    ensures noted { OnOk result ((k : IdKey) → get same_id_key last.new k ≡ cond (is_in chain k) (Some place) (get same_id_key last.old k)) }
    ensures err { OnErr result (last.new.entries ≡ last.old.entries) }
{
    let Some(chain) = chain else {
        return Ok(0);
    };
    let before = last.insert(chain, place)?;
    Ok(before.unwrap_or(0))
}

impl Chains {
    /// The chains of no rows. They take no memory yet.
    pub fn new(alloc: Global, hashes: KeyHashes) -> Chains
        ensures { Links [] result }
    {
        Chains {
            last: IndexMap::with_hasher(alloc, hashes),
            before: Vec::new(alloc),
        }
    }

    // Appends a row to the others, in that chain. When out of memory, nothing changes.
    fn push(&mut self, chain: Option<IdKey>) -> Result<(), AllocError>
        ensures ok { OnOk result ((cs : List _) → Links cs self.old → Links (cs ++ chain ∷ []) self.new) }
        ensures err { OnErr result ((cs : List _) → Links cs self.old → Links cs self.new) }
    {
        let rows = self.before.len();
        if rows >= PLACE_MAX {
            return Err(AllocError);
        }
        self.before.reserve(1)?;
        let before = note_last(&mut self.last, chain, rows as u32 + 1)?;
        self.before.push_reserved(before);
        Ok(())
    }

    /// How many rows are linked.
    pub fn len(&self) -> usize
        ensures { result ≡ length self.now.before.items }
    {
        self.before.len()
    }

    /// Links the rows after those that are linked. When out of memory, some of them may be linked.
    pub fn link(&mut self, rows: &IndexMap<IdKey, Row, KeyHashes>) -> Result<(), AllocError>
        requires { IsLinkedSoFar (chains_of (chain_written row_key rows.now.entries)) self.old }
        ensures linked { IsLinkedSoFar (chains_of (chain_written row_key rows.now.entries)) self.new }
        ensures all { OnOk result (length self.new.before.items ≡ length rows.now.entries) }
    {
        for at in self.len()..rows.len() {
            let Some((key, row)) = rows.get_index(at) else {
                unreachable!()
            };
            self.push(chain_of(key, row))?;
        }
        Ok(())
    }

    /// The place of the last row of a chain, or 0.
    pub fn last(&self, chain: &IdKey) -> usize
        ensures { result ≡ last_noted (Some chain.now) self.now.last.entries }
    {
        match self.last.get(chain) {
            Some(place) => *place as usize,
            None => 0,
        }
    }

    /// The place of the row before that one in its chain, or 0.
    pub fn before(&self, row: usize) -> usize
        requires { row < length self.now.before.items }
        ensures { result ≡ slice_index self.now.before.items row }
    {
        self.before[row] as usize
    }
}
