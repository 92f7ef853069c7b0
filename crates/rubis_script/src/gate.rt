//! The gate of a site at its desk, and what is seen there.

use rubis_replica::Gate;
use std::alloc::{AllocError, Global};
use std::sync::Arc;
use std::sync::atomic::{AtomicBool, AtomicU64, Ordering};
use std::thread;

// For how many turns a shard is held, at most, and how many of them yield: on a loaded machine a yield can last as long as ten thousand
// loads.
const HELD: u64 = 100_000_000;

const YIELDING: u64 = 4096;

/// What was seen at a gate: how often each shard was taken, and how many threads held one at once.
#[derive(Drop)]
pub struct Watch {
    counts: Vec<AtomicU64>,
    holding: AtomicU64,
    most: AtomicU64,
    in_vain: AtomicBool,
    threads: u64,
}

impl Watch {
    /// Nothing was seen of that many shards. Each is held until that many threads hold one, or until a wait for them was in vain.
    pub fn new(alloc: Global, shards: usize, threads: u64) -> Result<Watch, AllocError> {
        let mut counts = Vec::new(alloc);
        for _ in 0..shards {
            counts.push(AtomicU64::new(0))?;
        }
        Ok(Watch {
            counts,
            holding: AtomicU64::new(0),
            most: AtomicU64::new(0),
            in_vain: AtomicBool::new(false),
            threads,
        })
    }

    /// How often a shard was taken.
    pub fn count(&self, shard: usize) -> u64 {
        match self.counts.get(shard) {
            Some(count) => count.load(Ordering::SeqCst),
            None => 0,
        }
    }

    /// The greatest number of threads that held a shard at once.
    pub fn most(&self) -> u64 {
        self.most.load(Ordering::SeqCst)
    }

    // Waits until enough threads hold a shard. After a wait in vain the others don't wait.
    fn wait(&self) {
        for turn in 0..HELD {
            if self.most() >= self.threads || self.in_vain.load(Ordering::SeqCst) {
                return;
            }
            if turn % YIELDING == 0 {
                thread::yield_now();
            }
        }
        self.in_vain.store(true, Ordering::SeqCst);
    }
}

/// The gate of a site at its desk: one that is watched, or one where nobody looks. The desk has no gate of its caller's: it answers by a
/// trait's methods, and what these share with other threads can't rest on a bound of their block.
#[derive(Drop)]
pub struct SiteGate {
    watch: Option<Arc<Watch, Global>>,
}

impl SiteGate {
    /// Where nobody looks.
    pub fn free() -> SiteGate {
        SiteGate { watch: None }
    }

    /// One that is watched.
    pub fn watched(watch: Arc<Watch, Global>) -> SiteGate {
        SiteGate { watch: Some(watch) }
    }
}

impl Gate for SiteGate {
    fn taken(&self, piece: usize) {
        let Some(watch) = &self.watch else {
            return;
        };
        if let Some(count) = watch.counts.get(piece) {
            count.fetch_add(1, Ordering::SeqCst);
        }
        let holding = watch.holding.fetch_add(1, Ordering::SeqCst);
        watch
            .most
            .fetch_max(holding.saturating_add(1), Ordering::SeqCst);
        watch.wait();
        watch.holding.fetch_sub(1, Ordering::SeqCst);
    }
}
