//! The laws of the rules, stated in specs/Laws.

ghost use Rattle.rubis_crew.specs.Laws.{EveryListOfStepsAccounts, JobStepsKeepTheRule, ResultStepsKeepTheRule};

use crate::job::Job;

/// The rules of the jobs and of the results hold when a crew is made, and each step of each pass keeps them.
pub fn every_step_keeps_the_rules<J: Job>()
    ensures jobs { JobStepsKeepTheRule J.Fits }
    ensures results { ResultStepsKeepTheRule J.Worked }
{}

/// Whatever the steps, in whatever order passes take them, gifts among takes: what is given waits, is out with a pass, or is on its
/// way back with its result, each job once and under its own number.
pub fn every_list_of_steps_accounts<J: Job>()
    ensures { EveryListOfStepsAccounts J.Fits }
{}
