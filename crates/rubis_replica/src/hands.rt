//! Helpers that stay for a run, and a batch that they and the caller's thread fold on the shards of a board.

ghost use Rattle.std.specs.Prelude.{◌≡◌, ◌+◌, ◌<◌, ◌≤◌, [], length, true, vec_len, IfSome, IfNone};
ghost use Rattle.std.specs.Arc.{arc_value};
ghost use Rattle.std.specs.List.{All};
ghost use Rattle.rubis_crew.specs.States.{new_helper, new_lead};
ghost use Rattle.rubis_workers.specs.Work.{IsRoom};
ghost use Rattle.rubis_workers.specs.Logs.{WereFolded};
ghost use Rattle.rubis_replica.specs.Folding.{AreOut, CanShare, FitsSet, HasWorked, IsIdle, ReturnsPart};

use crate::folding::{Part, PartDone, SharedBatch};
use rubis_board::{Board, Pass};
use rubis_crew::{Crew, Helper, Lead};
use rubis_pieces::{CountedShards, Done};
use rubis_schema::{Items, WORKERS_MAX};
use rubis_shard::Shard;
use rubis_workers::{
    Gate, ShardBoard, TeamJob, Teamwork, Teller, gather_shards, joined, open_shards, work,
};
use std::alloc::Global;
use std::sync::{Arc, Wait};
use std::thread;

/// A crew to which parts of a board are given, and the permission to give them. Between two calls none is given.
pub struct Hands<'a, G: Gate + Drop> {
    crew: &'a Crew<Part<G>>,
    lead: Lead<Part<G>>,
    ghost same: { lead.crew ≡ crew.now.id },
    ghost none: { length lead.given ≡ 0 },
}

// The board of a batch, and what those who work at it need.
struct BoardWork<'a, G> {
    board: &'a Board,
    batch: &'a Arc<SharedBatch, Global>,
    gate: &'a Arc<G, Global>,
}

impl<'a, G> Drop for BoardWork<'a, G> {
    fn drop(self) {
        let BoardWork {
            board: _,
            batch: _,
            gate: _,
        } = self;
    }
}

// Gives a part of the board, one of those that the pass has. Where it can't be given the pass keeps it.
fn give<G: Gate + Drop, R: Wait>(
    rt: &R,
    crew: &Crew<Part<G>>,
    lead: &mut Lead<Part<G>>,
    job: &BoardWork<'_, G>,
    pass: Pass,
    room: Vec<Done>,
) -> Pass
    requires pass { CanShare job.now.board.now (arc_value job.now.batch.now) pass × (1 < pass.parts) × IsRoom (length pass.posted) room }
    requires out { AreOut crew.now.id job.now.board.now (arc_value job.now.batch.now) pass lead.old }
    ensures pass { CanShare job.now.board.now (arc_value job.now.batch.now) result × (result.posted ≡ pass.posted) × (pass.parts ≤ result.parts + 1) }
    ensures out { AreOut crew.now.id job.now.board.now (arc_value job.now.batch.now) result lead.new
        × (result.parts + length lead.new.given ≡ pass.parts + length lead.old.given) }
{
    let (Some(board), Ok(batch), Ok(gate)) = (
        job.board.share(),
        Arc::try_clone(job.batch),
        Arc::try_clone(job.gate),
    ) else {
        return pass;
    };
    let (mine, pass) = job.board.split(pass);
    let part = Part {
        board,
        batch,
        gate,
        pass,
        room,
    };
    match crew.give(rt, lead, part) {
        Ok(_) => mine,
        Err(part) => job.board.join(mine, part.untaken().pass),
    }
}

// Gives a part of the board with each of these rooms.
fn give_all<G: Gate + Drop, R: Wait>(
    rt: &R,
    crew: &Crew<Part<G>>,
    lead: &mut Lead<Part<G>>,
    job: &BoardWork<'_, G>,
    mut pass: Pass,
    mut rooms: Vec<Vec<Done>>,
) -> Pass
    requires lead { IsIdle crew.now.id lead.old }
    requires pass { CanShare job.now.board.now (arc_value job.now.batch.now) pass × (vec_len rooms < pass.parts) × All (IsRoom (length pass.posted)) rooms.items }
    ensures pass { CanShare job.now.board.now (arc_value job.now.batch.now) result × (result.posted ≡ pass.posted) }
    ensures out { AreOut crew.now.id job.now.board.now (arc_value job.now.batch.now) result lead.new × (result.parts + length lead.new.given ≡ pass.parts) }
{
    for _ in 0..rooms.len() {
        let Some(room) = rooms.pop() else {
            unreachable!()
        };
        pass = give(rt, crew, lead, job, pass, room);
    }
    pass
}

// What came of a part that was given: of the first that no helper has taken nothing, or else of one that came back.
fn next_back<G: Gate + Drop, R: Wait>(
    rt: &R,
    crew: &Crew<Part<G>>,
    lead: &mut Lead<Part<G>>,
) -> Option<PartDone>
    requires crew { lead.old.crew ≡ crew.now.id }
    ensures back { IfSome result (λ done. ReturnsPart lead.old done lead.new) }
    ensures none { IfNone result (lead.new ≡ lead.old) }
{
    let Some(given) = crew.take_unworked(rt, lead) else {
        let back = crew.take_back(rt, lead)?;
        return Some(back.result);
    };
    Some(given.job.untaken())
}

// Takes back what came of the parts that were given, until all are back.
fn take_all<G: Gate + Drop, R: Wait>(
    rt: &R,
    crew: &Crew<Part<G>>,
    lead: &mut Lead<Part<G>>,
    job: &BoardWork<'_, G>,
    mut team: Teamwork<()>,
) -> Teamwork<()>
    requires out { AreOut crew.now.id job.now.board.now (arc_value job.now.batch.now) team.pass lead.old }
    requires worked { HasWorked (arc_value job.now.batch.now) team }
    ensures back { IsIdle crew.now.id lead.new × (result.pass.board ≡ team.pass.board) × (result.pass.posted ≡ team.pass.posted)
        × (result.pass.parts ≡ team.pass.parts + length lead.old.given) }
    ensures worked { HasWorked (arc_value job.now.batch.now) result }
{
    for _ in rt.forever() {
        if lead.out() == 0 {
            return team;
        }
        match next_back(rt, crew, lead) {
            Some(done) => {
                let PartDone { pass, list } = done;
                team = joined(job.board, team, pass, list);
            }
            None => thread::yield_now(),
        }
    }
    unreachable!()
}

// Works at a board until no shard is left there, with a helper for each further room.
fn fan_out<G: Gate + Drop, R: Wait>(
    rt: &R,
    crew: &Crew<Part<G>>,
    lead: &mut Lead<Part<G>>,
    job: &BoardWork<'_, G>,
    pass: Pass,
    room: Vec<Done>,
    rooms: Vec<Vec<Done>>,
) -> Teamwork<()>
    requires pass { IsIdle crew.now.id lead.old × CanShare job.now.board.now (arc_value job.now.batch.now) pass }
    requires parts { vec_len rooms < pass.parts }
    requires rooms { IsRoom (length pass.posted) room × All (IsRoom (length pass.posted)) rooms.items }
    ensures { IsIdle crew.now.id lead.new × (result.pass.board ≡ pass.board) × (result.pass.posted ≡ pass.posted) × (result.pass.parts ≡ pass.parts)
        × HasWorked (arc_value job.now.batch.now) result }
{
    let pass = give_all(rt, crew, lead, job, pass, rooms);
    let mine = TeamJob {
        board: job.board,
        task: &job.batch.task(),
        gate: &Teller { gate: &**job.gate },
    };
    let (pass, list) = work(rt, &mine, pass, room);
    let team = Teamwork {
        pass,
        list,
        others: 0,
        answer: (),
    };
    take_all(rt, crew, lead, job, team)
}

// Folds a batch on the shards of a set, by the crew and the caller's thread, as far as memory goes. Where there is no room to begin, the
// shards come back.
fn fold_all<G: Gate + Drop, R: Wait>(
    rt: &R,
    crew: &Crew<Part<G>>,
    lead: &mut Lead<Part<G>>,
    batch: &Arc<SharedBatch, Global>,
    gate: &Arc<G, Global>,
    shards: Vec<Shard>,
) -> Result<CountedShards, Items<Shard>>
    requires lead { IsIdle crew.now.id lead.old }
    requires set { FitsSet (arc_value batch.now) shards.items }
    ensures lead { IsIdle crew.now.id lead.new }
    ensures folded { WereFolded (arc_value batch.now).intake.state.log (arc_value batch.now).span.from (arc_value batch.now).span.upto shards.items result }
{
    let alloc = *shards.allocator();
    let most = usize::from(WORKERS_MAX).min(shards.len());
    let workers = crew.helpers().min(most - 1) + 1;
    let ShardBoard {
        board,
        pass,
        mine,
        others,
        places,
        dones,
    } = open_shards(rt, alloc, shards, workers)?;
    let Teamwork {
        pass,
        list,
        others: _,
        answer: (),
    } = fan_out(
        rt,
        crew,
        lead,
        &BoardWork {
            board: &board,
            batch,
            gate,
        },
        pass,
        mine,
        others,
    );
    Ok(gather_shards(board, pass, list, places, dones))
}

impl<'a, G: Gate + Drop> Hands<'a, G> {
    /// Those of a crew to which nothing was given.
    pub fn new(crew: &'a Crew<Part<G>>, lead: Lead<Part<G>>) -> Hands<'a, G>
        requires { lead ≡ new_lead crew.now.id }
        ensures { result.lead ≡ new_lead crew.now.id }
    {
        Hands { crew, lead }
    }

    /// The crew to which parts of boards are given.
    pub fn crew(&self) -> &'a Crew<Part<G>>
        ensures { result.now.id ≡ self.now.lead.crew }
    {
        self.crew
    }

    /// What the first helper needs.
    pub fn helper(&mut self) -> Helper<Part<G>>
        ensures helper { result ≡ new_helper self.old.lead.crew }
        ensures same { self.new.lead ≡ self.old.lead }
    {
        self.crew.helper(&mut self.lead)
    }

    /// Folds a batch on the shards of a set, by the helpers and the caller's thread, as far as memory goes, and tells the gate of each
    /// shard before. Where there is no room to begin, the shards come back.
    pub fn fold<R: Wait>(
        &mut self,
        rt: &R,
        batch: &Arc<SharedBatch, Global>,
        gate: &Arc<G, Global>,
        shards: Vec<Shard>,
    ) -> Result<CountedShards, Items<Shard>>
        requires set { FitsSet (arc_value batch.now) shards.items }
        ensures crew { self.new.lead.crew ≡ self.old.lead.crew }
        ensures folded { WereFolded (arc_value batch.now).intake.state.log (arc_value batch.now).span.from (arc_value batch.now).span.upto shards.items result }
    {
        fold_all(rt, self.crew, &mut self.lead, batch, gate, shards)
    }

    /// Tells the helpers that no more comes.
    pub fn end<R: Wait>(&mut self, rt: &R)
        ensures { (self.new.lead.crew ≡ self.old.lead.crew) × (self.new.lead.ended ≡ true) × (self.new.lead.given ≡ []) }
    {
        self.crew.end(rt, &mut self.lead);
    }

    /// Gives the permission back.
    pub fn into_lead(self) -> Lead<Part<G>>
        ensures { result ≡ self.entry.lead }
    {
        let Hands { crew: _, lead } = self;
        lead
    }
}
