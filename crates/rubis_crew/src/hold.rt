//! A hook at which a test holds a helper up before it announces that it sleeps.

use std::sync::atomic::{AtomicBool, Ordering};
use std::thread;

// For how many turns a helper is held up, at most.
const HELD: u64 = 50_000_000;

/// Holds the first helper that comes until it is let go. It has no part in what is done.
#[derive(Default, Drop)]
pub struct Hold {
    came: AtomicBool,
    gone: AtomicBool,
}

impl Hold {
    /// Whether a helper came.
    pub fn has_one(&self) -> bool {
        self.came.load(Ordering::SeqCst)
    }

    /// Lets it go, and holds no other.
    pub fn let_go(&self) {
        self.gone.store(true, Ordering::SeqCst);
    }

    // Held up until it is let go.
    pub(crate) fn come(&self) {
        self.came.store(true, Ordering::SeqCst);
        for _ in 0..HELD {
            if self.gone.load(Ordering::SeqCst) {
                return;
            }
            thread::yield_now();
        }
    }
}
