//! The workers that apply the batches of a log, and such a batch.

use crate::pace::Pace;
use rubis_message::Message;
use std::alloc::Global;
use std::sync::Arc;

/// Who applies batches, and what they need for it.
#[derive(Drop)]
pub struct Workers<G> {
    /// The most threads that take part, the caller's included, from 1 to 16.
    pub most: u8,
    /// How many of them the next batch is worth.
    pub pace: Pace,
    /// What each of them calls for a shard that it takes.
    pub gate: Arc<G, Global>,
    pub alloc: Global,
}

/// How a team is set up for one batch.
pub struct TeamSetup<'a, G> {
    /// The most threads that take part, the caller's included, from 1 to 16.
    pub most: usize,
    /// What each of them calls for a shard that it takes.
    pub gate: &'a G,
    pub alloc: Global,
}

impl<'a, G> Drop for TeamSetup<'a, G> {
    fn drop(self) {
        let TeamSetup {
            most: _,
            gate: _,
            alloc: _,
        } = self;
    }
}

/// The messages of a log after message `from`, up to message `upto`.
#[derive(Clone, Copy, Drop)]
pub struct LogBatch<'a> {
    pub log: &'a [Message],
    pub from: usize,
    pub upto: usize,
}
