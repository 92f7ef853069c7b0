//! A batch of an intake's log, and the parts of a board as jobs, for a crew whose helpers fold it on the shards that they take there.

use rubis_board::{Board, Pass};
use rubis_crew::Job;
use rubis_pieces::Done;
use rubis_release::Intake;
use rubis_shard::PartHomes;
use rubis_workers::{FollowBatch, Gate, TeamJob, Teller, work};
use std::alloc::Global;
use std::sync::{Arc, Wait};

/// The messages of a log after message `from`, up to message `upto`.
#[derive(Clone, Copy)]
pub struct Span {
    pub from: usize,
    pub upto: usize,
}

/// Messages of an intake's log, with the homes of the parts of each. All who fold them share it.
pub struct SharedBatch {
    pub intake: Intake,
    pub homes: Vec<PartHomes>,
    pub span: Span,
}

impl Drop for SharedBatch {
    // Proved here, once: a derived drop is proved anew in each crate that lets a batch go.
    fn drop(self) {
        let SharedBatch {
            intake: _,
            homes: _,
            span: _,
        } = self;
    }
}

/// A helper's part of a board: with it the helper takes shards there and folds the batch on each, until none is left, and tells the gate of each
/// before. `room` is for what it makes of them.
pub struct Part<G: Gate + Drop> {
    pub(crate) board: Board,
    pub(crate) batch: Arc<SharedBatch, Global>,
    pub(crate) gate: Arc<G, Global>,
    pub(crate) pass: Pass,
    pub(crate) room: Vec<Done>,
}

impl<G: Gate + Drop> Drop for Part<G> {
    // Proved here, once: a derived drop is proved anew in each crate that lets a job go.
    fn drop(self) {
        let Part {
            board: _,
            batch: _,
            gate: _,
            pass: _,
            room: _,
        } = self;
    }
}

/// What came of a part: its pass, and what was done with each of the shards that it took.
#[derive(Drop)]
pub struct PartDone {
    pub pass: Pass,
    pub list: Vec<Done>,
}

impl SharedBatch {
    ghost use Rattle.std.specs.Prelude.{◌≡◌, ◌+◌};
    ghost use Rattle.rubis_replica.specs.Folding.{IsSpan, messages_of};

    /// What is done with each shard.
    pub fn task(&self) -> FollowBatch<'_>
        requires { IsSpan self.now.intake.state.log self.now.span }
        ensures batch { result.batch.now ≡ messages_of self.now }
        ensures homes { result.homes.now ≡ self.now.homes.items }
        ensures first { result.first ≡ self.now.span.from + 1 }
    {
        let Span { from, upto } = self.span;
        FollowBatch {
            batch: &self.intake.log()[from..upto],
            homes: &self.homes,
            first: from as u32 + 1,
        }
    }

    /// The intake whose log it shared.
    pub fn into_intake(self) -> Intake
        ensures { result ≡ self.intake }
    {
        let SharedBatch {
            intake,
            homes: _,
            span: _,
        } = self;
        intake
    }
}

impl<G: Gate + Drop> Part<G> {
    ghost use Rattle.std.specs.Prelude.{◌≡◌};

    /// What comes of it where no helper takes it: its pass as it was, and nothing done.
    pub(crate) fn untaken(self) -> PartDone
        ensures pass { result.pass ≡ self.pass }
        ensures list { result.list ≡ self.room }
    {
        let Part {
            board: _,
            batch: _,
            gate: _,
            pass,
            room,
        } = self;
        PartDone { pass, list: room }
    }
}

impl<G: Gate + Drop> Job for Part<G> {
    type Output = PartDone;

    ghost use Rattle.rubis_replica.specs.Folding.{HasFolded, IsFoldable};

    ghost Fits = { λ part. IsFoldable part };

    ghost Worked = { λ part done. HasFolded part done };

    fn work<R: Wait>(self, rt: &R) -> PartDone {
        let Part {
            board,
            batch,
            gate,
            pass,
            room,
        } = self;
        let job = TeamJob {
            board: &board,
            task: &batch.task(),
            gate: &Teller { gate: &*gate },
        };
        let (pass, list) = work(rt, &job, pass, room);
        PartDone { pass, list }
    }
}
