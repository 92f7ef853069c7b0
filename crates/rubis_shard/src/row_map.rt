//! The maps of a shard from keys to rows, and the chains of rows that are listed together.

ghost use Rattle.std.proofs.Props.{props};
ghost use Rattle.rubis_schema.specs.Keys.{row_key};
ghost use Rattle.rubis_shard.specs.Chains.{chains_of, IsLinkedSoFar, AreOthers, AreUsers, chain_written};

use crate::chains::Chains;
use indexmap::IndexMap;
use rubis_schema::{IdKey, KeyHashes, Nick, NickHashes, Row};

/// Rows with ids, the first of them in chains by what they are listed by.
#[derive(Drop)]
pub struct LinkedRows {
    pub rows: IndexMap<IdKey, Row, KeyHashes>,
    pub chains: Chains,
    ghost linked: { IsLinkedSoFar (chains_of (chain_written row_key rows.entries)) chains },
}

/// The rows of a shard: the users, which one listing shows all; the other rows with ids, of which there are most; those of
/// nicknames; and those of categories.
#[derive(Drop)]
pub struct Rows {
    pub users: LinkedRows,
    pub others: LinkedRows,
    pub nicks: IndexMap<Nick, Row, NickHashes>,
    pub cats: IndexMap<u16, Row>,
    ghost are_users: { AreUsers users.rows.entries } by { Prim.hlevel props },
    ghost are_others: { AreOthers others.rows.entries } by { Prim.hlevel props },
}
