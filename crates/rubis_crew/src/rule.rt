//! The rule of the jobs that are given to a crew, and the steps that passes take under it. No value of any type but `JobEntry` is ever made.

use crate::job::{Given, Job};
use crossbeam_queue::protocol::{Join, Lesson, Outcome, Protocol, Split};
use std::collections::LinkedList;

/// What lies in the queue of jobs.
#[derive(Drop)]
pub enum JobEntry<J> {
    /// A job that no pass has taken yet.
    Work(Given<J>),
    /// No more jobs come.
    Over,
}

/// What a pass knows.
pub struct JobView<J> {
    /// Whether it is the one that gives jobs.
    pub leads: bool,
    /// The number of the next job that it gives.
    pub next: u64,
    /// The jobs that it gave and that aren't back.
    pub given: LinkedList<Given<J>>,
    /// How often it said that no more come.
    pub overs: u64,
    /// The jobs that it took and that aren't paid for.
    pub held: LinkedList<Given<J>>,
    /// All jobs that it ever took.
    pub taken: LinkedList<Given<J>>,
    /// Whether it goes back with a result.
    pub pays: bool,
    /// How often it took that no more come.
    pub heard: u64,
}

/// The rule.
pub struct JobRule;

impl<J: Job> Protocol<JobEntry<J>, JobView<J>> for JobRule {
    ghost use Rattle.rubis_crew.specs.Rule.{JobsRuled, first_view};

    ghost holds = { JobsRuled J.Fits };

    ghost first = { first_view };
}

/// A job is given.
pub struct Giving;

impl<J> Outcome<JobEntry<J>, JobView<J>> for Giving {
    ghost use Rattle.rubis_crew.specs.Rule.{HasPut};

    ghost then = { HasPut };
}

impl<J> Lesson<JobEntry<J>, JobView<J>> for Giving {
    ghost use Rattle.rubis_crew.specs.Rule.{AreFew};

    ghost fact = { AreFew };
}

/// What is first in the queue is taken.
pub struct Fetching;

impl<J: Job> Outcome<JobEntry<J>, JobView<J>> for Fetching {
    ghost use Rattle.rubis_crew.specs.Rule.{HasTaken};

    ghost then = { HasTaken J.Fits };
}

impl<J> Lesson<JobEntry<J>, JobView<J>> for Fetching {
    ghost use Rattle.std.specs.Prelude.{⊤};

    ghost fact = { λ v items. ⊤ };
}

/// A new pass is made, for a helper.
pub struct Hiring;

impl<J> Split<JobView<J>> for Hiring {
    ghost use Rattle.rubis_crew.specs.Rule.{idle};

    ghost left = { λ v. v };

    ghost right = { λ v. idle };
}

/// What a pass holds goes to a new pass, which goes back with the result.
pub struct Handing;

impl<J> Split<JobView<J>> for Handing {
    ghost use Rattle.rubis_crew.specs.Rule.{emptied, token_view};

    ghost left = { emptied };

    ghost right = { token_view };
}

/// What came back with a result is held by the pass that takes it back.
pub struct Receiving;

impl<J> Join<JobView<J>> for Receiving {
    ghost use Rattle.rubis_crew.specs.Rule.{together, idle};

    ghost both = { together };

    ghost spent = { idle };
}

/// A pass looks at the jobs that it gave, where it holds one.
pub struct Owning;

impl<J> Lesson<JobEntry<J>, JobView<J>> for Owning {
    ghost use Rattle.rubis_crew.specs.Rule.{HoldsAGivenOne};

    ghost fact = { λ v items. HoldsAGivenOne v };
}

/// The job that it holds is back.
pub struct Settling;

impl<J> Split<JobView<J>> for Settling {
    ghost use Rattle.rubis_crew.specs.Rule.{settled, idle};

    ghost left = { settled };

    ghost right = { λ v. idle };
}
