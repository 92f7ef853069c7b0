//! For tests: gates that hold a worker between taking a shard and folding its share, or record what was taken.

use rubis_world::Gate;
use std::sync::atomic::{AtomicBool, AtomicU64, Ordering};
use std::thread;

/// For how many turns a worker waits for a flag that will be set.
const TURNS: u64 = 50_000_000;

/// For how many turns a shard is held when nothing may happen meanwhile. Most of these turns don't yield: on a loaded machine a
/// yield can last as long as ten thousand loads.
const HELD: u64 = 100_000_000;

/// Waits until the flag is set, for at most TURNS turns. Returns whether it was.
pub fn is_set_in_time(flag: &AtomicBool) -> bool {
    for _ in 0..TURNS {
        if flag.load(Ordering::SeqCst) {
            return true;
        }
        thread::yield_now();
    }
    false
}

// One turn of a hold: yields every 4096th time.
fn hold_on(turn: u64) {
    if turn % 4096 == 0 {
        thread::yield_now();
    }
}

/// Which of 64 shards were taken, as bits, and how often the gate was called.
#[derive(Default, Drop)]
pub struct Numbers {
    seen: AtomicU64,
    calls: AtomicU64,
}

impl Numbers {
    /// Whether each of the 64 numbers came once: all came, in 64 calls.
    pub fn are_all_seen_once(&self) -> bool {
        self.seen.load(Ordering::SeqCst) == u64::MAX && self.calls.load(Ordering::SeqCst) == 64
    }
}

// The bit for `number`, or 0 if it isn't below 64.
fn bit_of(number: usize) -> u64 {
    match u32::try_from(number) {
        Ok(place) => 1_u64.checked_shl(place).unwrap_or(0),
        Err(_) => 0,
    }
}

impl Gate for Numbers {
    fn taken(&self, piece: usize) {
        self.seen.fetch_or(bit_of(piece), Ordering::SeqCst);
        self.calls.fetch_add(1, Ordering::SeqCst);
    }
}

/// Holds the first two shards that are taken until both are taken, and then for HELD turns.
#[derive(Default, Drop)]
pub struct HoldsTwo {
    taken: AtomicU64,
    both: AtomicBool,
    released: AtomicBool,
}

impl HoldsTwo {
    /// How many shards were taken before the first one was let go.
    pub fn held(&self) -> u64 {
        self.taken.load(Ordering::SeqCst)
    }
}

impl Gate for HoldsTwo {
    fn taken(&self, _piece: usize) {
        if self.released.load(Ordering::SeqCst) {
            return;
        }
        if self.taken.fetch_add(1, Ordering::SeqCst) > 0 {
            self.both.store(true, Ordering::SeqCst);
        }
        if is_set_in_time(&self.both) {
            for turn in 0..HELD {
                hold_on(turn);
            }
        }
        self.released.store(true, Ordering::SeqCst);
    }
}

/// How many shards were taken, and the greatest number of threads that held one at once. Each shard is held until `threads` threads
/// hold one, or until a wait for them was in vain.
#[derive(Drop)]
pub struct Holders {
    threads: u64,
    taken: AtomicU64,
    now: AtomicU64,
    most: AtomicU64,
    waited: AtomicBool,
}

impl Holders {
    pub fn new(threads: u64) -> Holders {
        Holders {
            threads,
            taken: AtomicU64::new(0),
            now: AtomicU64::new(0),
            most: AtomicU64::new(0),
            waited: AtomicBool::new(false),
        }
    }

    /// How many shards were taken.
    pub fn taken(&self) -> u64 {
        self.taken.load(Ordering::SeqCst)
    }

    /// The greatest number of threads that held a shard at once since the last call.
    pub fn most(&self) -> u64 {
        self.waited.store(false, Ordering::SeqCst);
        self.most.swap(0, Ordering::SeqCst)
    }

    // Waits until enough threads hold a shard, for at most HELD turns. After a wait in vain the others don't wait.
    fn wait(&self) {
        for turn in 0..HELD {
            if self.most.load(Ordering::SeqCst) >= self.threads
                || self.waited.load(Ordering::SeqCst)
            {
                return;
            }
            hold_on(turn);
        }
        self.waited.store(true, Ordering::SeqCst);
    }
}

impl<'a> Gate for &'a Holders {
    fn taken(&self, _piece: usize) {
        self.taken.fetch_add(1, Ordering::SeqCst);
        let now = self.now.fetch_add(1, Ordering::SeqCst);
        self.most.fetch_max(now.saturating_add(1), Ordering::SeqCst);
        self.wait();
        self.now.fetch_sub(1, Ordering::SeqCst);
    }
}

/// Whether the caller's closure ran while a worker held a shard. Each shard is held until it has run.
#[derive(Default, Drop)]
pub struct Halves {
    taken: AtomicBool,
    ran: AtomicBool,
    late: AtomicBool,
}

impl Halves {
    /// Runs as the closure. Returns whether a worker took a shard meanwhile.
    pub fn run(&self) -> bool {
        let met = is_set_in_time(&self.taken);
        self.ran.store(true, Ordering::SeqCst);
        met
    }

    /// Whether a worker waited for the closure in vain.
    pub fn is_late(&self) -> bool {
        self.late.load(Ordering::SeqCst)
    }
}

impl Gate for Halves {
    fn taken(&self, _piece: usize) {
        self.taken.store(true, Ordering::SeqCst);
        if !is_set_in_time(&self.ran) {
            self.late.store(true, Ordering::SeqCst);
        }
    }
}
