//! The rule of the results that come back to a crew, and the steps that passes take under it. No value but of `Slip` and `Payment` is ever made.
ghost use Rattle.std.specs.Prelude.{◌≡◌};

use crate::job::{Given, Job};
use crate::rule::{JobEntry, JobView};
use crossbeam_queue::Pass;
use crossbeam_queue::protocol::{Lesson, Outcome, Protocol, Split};
use std::collections::LinkedList;
use std::marker::Model;

/// The pass that goes back with a result: it holds the job.
pub type JobPass<J> = Pass<JobEntry<J>, JobView<J>>;

/// A result on its way back.
#[derive(Drop)]
pub struct Payment<J, R> {
    pub number: u64,
    pub result: R,
    pub token: JobPass<J>,
}

/// What lies in the queue of results.
#[derive(Drop)]
pub enum Slip<J, R> {
    /// A token of the jobs whose results come back here. It is put in first.
    Name(JobPass<J>),
    /// A result.
    Pay(Payment<J, R>),
}

/// Which queue of jobs it is.
pub struct QueueName {
    pub words: u64,
}

impl Model for QueueName {
    ghost use Rattle.std.specs.Prelude.{[]};
    ghost use Rattle.atomic_table.specs.Seated.{TableId, table_id_coded};

    ghost Value = { TableId };

    ghost coded = { table_id_coded };

    ghost view = { λ q. record { words = q.words; slots = 0; views_name = 0; atom = 0; block = 0; offset = 0; slot_names = [] } };
}

/// What a pass of the results knows.
pub struct ResultView<J> {
    /// Whose results these are.
    pub of: Option<QueueName>,
    /// The jobs for whose results it paid.
    pub paid: LinkedList<Given<J>>,
}

/// The rule.
pub struct ResultRule;

impl<J: Job> Protocol<Slip<J, J::Output>, ResultView<J>> for ResultRule {
    ghost use Rattle.rubis_crew.specs.Rule.{AreResults, unnamed};

    ghost holds = { AreResults J.Worked };

    ghost first = { unnamed };
}

/// The queue is told whose results come back here.
pub struct Naming;

impl<J, R> Outcome<Slip<J, R>, ResultView<J>> for Naming {
    ghost use Rattle.rubis_crew.specs.Rule.{HasNamed};

    ghost then = { HasNamed };
}

impl<J, R> Lesson<Slip<J, R>, ResultView<J>> for Naming {
    ghost use Rattle.std.specs.Prelude.{[]};

    ghost fact = { λ v slips. slips ≡ [] };
}

/// A result is paid.
pub struct Paying;

impl<J, R> Outcome<Slip<J, R>, ResultView<J>> for Paying {
    ghost use Rattle.rubis_crew.specs.Rule.{HasPaid};

    ghost then = { HasPaid };
}

impl<J, R> Lesson<Slip<J, R>, ResultView<J>> for Paying {
    ghost use Rattle.std.specs.Prelude.{⊤};

    ghost fact = { λ v slips. ⊤ };
}

/// The first result is taken out.
pub struct Collecting;

impl<J: Job> Outcome<Slip<J, J::Output>, ResultView<J>> for Collecting {
    ghost use Rattle.rubis_crew.specs.Rule.{HasCollected};

    ghost then = { HasCollected J.Worked };
}

impl<J, R> Lesson<Slip<J, R>, ResultView<J>> for Collecting {
    ghost use Rattle.std.specs.Prelude.{⊤};

    ghost fact = { λ v slips. ⊤ };
}

/// A new pass is made, for a helper.
pub struct Joining;

impl<J> Split<ResultView<J>> for Joining {
    ghost use Rattle.rubis_crew.specs.Rule.{newcomer};

    ghost left = { λ v. v };

    ghost right = { newcomer };
}
