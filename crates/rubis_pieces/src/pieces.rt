//! A piece of a batch: a shard and its share, before and after it is folded.

use rubis_shard::{Shard, Share};

/// A shard with its share of a batch.
#[derive(Drop)]
pub struct Piece {
    pub shard: Shard,
    pub share: Share,
}

/// A shard with its share of a batch, of which `done` parts are folded on the shard.
#[derive(Drop)]
pub struct Done {
    pub shard: Shard,
    pub share: Share,
    pub done: usize,
}

/// A share of which `done` parts, but not all, are folded on its shard.
#[derive(Drop)]
pub struct Left {
    pub share: Share,
    pub done: usize,
}
