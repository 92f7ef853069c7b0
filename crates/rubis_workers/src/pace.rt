//! How many threads a batch is worth.

ghost use Rattle.std.specs.Prelude.{◌≡◌, ◌<◌, ◌≤◌, ◌*◌};
ghost use Rattle.rubis_schema.specs.declared.limits.TheConstants.{WORKERS_MAX};
ghost use Rattle.rubis_workers.specs.Pace.{longer, ready, shorter, threads};

/// A thread is worth starting where it applies this many messages: the start, some 50 microseconds, costs as much as some 150 of
/// them, and waiting for the thread as much again or more.
pub const WORTH: usize = 320;

/// The most messages that the caller's thread applies alone before the other workers are called again.
pub const ALONE_MAX: usize = 65_536;

/// How many threads a batch gets, as the batches before it tell: where the threads other than the caller's applied fewer than
/// WORTH messages each, the caller's thread applies the next ones alone, about twice as many each time.
#[derive(Drop, Clone, Copy)]
pub struct Pace {
    /// How many messages the caller's thread still applies alone.
    pub alone: usize,
    /// How many they were when it last began to.
    pub pause: usize,
}

impl Pace {
    /// The next batch gets all its workers.
    pub fn new() -> Pace
        ensures { result ≡ ready }
    {
        Pace { alone: 0, pause: 0 }
    }

    /// How many threads the next batch gets, the caller's included: one while the caller's thread has messages to apply alone; else
    /// as many as it has work for, no more than the workers, nor than its messages or the shards, and at least one.
    pub fn threads(&self, workers: usize, shards: usize, messages: usize) -> usize
        requires { 0 < workers }
        ensures threads { result ≡ threads self.now workers shards messages }
        ensures some { 0 < result }
        ensures workers { result ≤ workers }
        ensures few { 1 < result → (result ≤ shards) × (result ≤ messages) }
        ensures alone { 0 < self.now.alone → result ≡ 1 }
    {
        if self.alone > 0 {
            1
        } else {
            workers.min(shards).min(messages).max(1)
        }
    }

    /// The caller's thread applies a batch of that many messages alone.
    pub fn rest(&mut self, messages: usize)
        ensures { self.new ≡ shorter messages self.old }
    {
        self.alone = self.alone.saturating_sub(messages);
    }

    /// A batch was applied with that many threads beside the caller's, and they applied about that many messages.
    pub fn learn(&mut self, threads: usize, messages: usize)
        requires { threads ≤ WORKERS_MAX }
        ensures worth { WORTH * threads ≤ messages → self.new ≡ ready }
        ensures not_worth { messages < WORTH * threads → self.new ≡ longer self.old }
    {
        if messages >= WORTH * threads {
            *self = Pace::new();
            return;
        }
        let pause = self
            .pause
            .saturating_mul(2)
            .saturating_add(1)
            .min(ALONE_MAX);
        *self = Pace {
            alone: pause,
            pause,
        };
    }
}
