//! Jobs, and what comes of them.

use std::sync::Wait;

/// A job that any thread may do.
pub trait Job: Drop + Send {
    type Output: Drop + Send;

    ghost Fits: { Self → Type 0 };

    ghost Worked: { Self → Self.Output → Type 0 };

    /// Does it.
    fn work<R: Wait>(self, rt: &R) -> Self::Output
        requires { Fits self }
        ensures { Worked self result };
}

/// A job under the number by which its result comes back.
#[derive(Drop)]
pub struct Given<J> {
    pub number: u64,
    pub job: J,
}

/// A result under the number of its job.
#[derive(Drop)]
pub struct Back<R> {
    pub number: u64,
    pub result: R,
}
