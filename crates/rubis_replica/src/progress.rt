//! How far tables are in the log that they follow.

ghost use Rattle.std.specs.Prelude.{◌≡◌};
ghost use Rattle.rubis_replica.specs.Follow.{end_of, left_of, resting_at};

/// How many messages are applied, those of a begun batch aside, and what is with the batch after them.
#[derive(Clone, Copy, PartialEq, Eq)]
pub struct Progress {
    pub applied: usize,
    pub stage: Stage,
    /// Whether memory ran out when what is pending was to be applied last.
    pub ran_short: bool,
}

/// What is with the next batch.
#[derive(Clone, Copy, PartialEq, Eq)]
pub enum Stage {
    /// It is all that is pending.
    Level,
    /// What is pending up to message `upto` is kept as a batch of its own.
    Keeping { upto: usize },
    /// It ends with message `upto` and has begun: `left` of its parts aren't done, because memory ran out.
    Begun { upto: usize, left: u32 },
}

impl Progress {
    /// All up to message `upto` is applied.
    pub(crate) fn resting_at(upto: usize) -> Progress
        ensures { result ≡ resting_at upto }
    {
        Progress {
            applied: upto,
            stage: Stage::Level,
            ran_short: false,
        }
    }

    /// The message that ends the batch that is kept or has begun, or else what is applied.
    pub(crate) fn end(&self) -> usize
        ensures { result ≡ end_of self.now }
    {
        match self.stage {
            Stage::Level => self.applied,
            Stage::Keeping { upto } | Stage::Begun { upto, .. } => upto,
        }
    }

    /// How many parts of the begun batch aren't done; 0 if none has begun.
    pub(crate) fn left(&self) -> u32
        ensures { result ≡ left_of self.now }
    {
        match self.stage {
            Stage::Begun { left, .. } => left,
            _ => 0,
        }
    }
}
