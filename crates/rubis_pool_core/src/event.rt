//! What a worker of the machine does.

/// What a worker does. Workers are numbered from 0.
#[derive(Clone, Copy)]
pub enum Event {
    /// The worker, being free, takes the first posted piece.
    Take(usize),
    /// It folds the next part of its share on its shard.
    Apply(usize),
    /// It returns its piece, all of whose share is done.
    Back(usize),
}
