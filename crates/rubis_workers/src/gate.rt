//! The gate: what workers call for each shard that they take, by which a test may hold them up before they fold it.

ghost use Rattle.std.specs.Prelude.{◌≡◌};

/// Called by a worker with the number of each shard that it takes, before it folds the shard's parts: each shard of a batch
/// is taken once. It may hold the worker up; it has no part in what is done.
pub trait Gate: Sync + Send {
    fn taken(&self, piece: usize);
}

/// The word of a worker that the gate was told of its shard. What is done with a shard wants it, so that the gate comes first.
#[derive(Drop)]
pub struct Told {
    shard: usize,
}

/// What a worker tells of a shard. That it is shared among threads isn't said here: a job of a crew, which works by a trait's method, can't
/// pass it on.
pub trait Tells {
    fn tell(&self, shard: usize) -> Told
        ensures { result.shard ≡ shard };
}

/// A gate that is told.
pub struct Teller<'a, G> {
    pub gate: &'a G,
}

impl<'a, G> Drop for Teller<'a, G> {
    fn drop(self) {
        let Teller { gate: _ } = self;
    }
}

impl<'a, G: Gate> Tells for Teller<'a, G> {
    fn tell(&self, shard: usize) -> Told {
        self.gate.taken(shard);
        Told { shard }
    }
}

/// The gate that does nothing.
#[derive(Drop, Clone, Copy)]
pub struct Free;

impl Gate for Free {
    fn taken(&self, _piece: usize) {}
}
