//! Tables that follow a log, batch by batch.

ghost use Rattle.std.specs.Prelude.{◌≡◌, ◌≤◌, ◌<◌, ◌⊎◌, [], All, IfNone, IfOk, IfSome, OnOk, OnErr, length};
ghost use Rattle.rubis_schema.specs.declared.limits.TheConstants.{KEEP_MAX, WORKERS_MAX};
ghost use Rattle.rubis_message.specs.Message.{sites_of};
ghost use Rattle.rubis_model.specs.Listings.{log_rows, misfit_rows, table_rows};
ghost use Rattle.rubis_workers.specs.Shard.{HoldsLog, union};
ghost use Rattle.rubis_replica.specs.State.{IsStop, TakesFirst};
ghost use Rattle.rubis_replica.specs.Follow.{CanFollow, ComesTo, FollowsLog, GoesOnTo, IsTriedTo, HasBegun, IsAhead, IsBetweenBatches, is_behind, left_of, resting_at};
ghost use Rattle.rubis_replica.specs.Counts.{IsCount};

use crate::arriving::{Arrived, take_all};
use crate::folding::Span;
use crate::hands::Hands;
use crate::progress::{Progress, Stage};
use crate::shared_batches::apply_by_hands;
use rubis_listing::ListingRows;
use rubis_message::Message;
use rubis_release::Intake;
use rubis_schema::{Hashes, Listing};
use rubis_shadow::Misfit;
use rubis_workers::{
    Gate, LogBatch, Pace, Tables, Workers, apply_batch, count_behind, count_parts, follow_rest,
};
use std::alloc::{AllocError, Global};
use std::marker::Model;
use std::sync::{Arc, Wait};
use std::thread::Threads;

/// The tables, and how much of the log they have. Pending messages are applied in batches: a batch that has begun and
/// isn't whole, because it ran out of memory, is finished before another begins.
pub struct Follower<G: Gate> {
    tables: Tables,
    // Who applies the batches.
    workers: Workers<G>,
    progress: Progress,
    // How many messages of the log stand in each shard, where a batch has begun. It has room for each.
    stops: Vec<usize>,
}

impl<G: Gate + Drop> Drop for Follower<G> {
    // Proved here, once: a derived drop is proved anew in each crate that lets a follower go.
    fn drop(self) {
        let Follower {
            tables: _,
            workers: _,
            progress: _,
            stops: _,
        } = self;
    }
}

impl<G: Gate> Model for Follower<G> {
    ghost use Rattle.std.specs.Prelude.{length};
    ghost use Rattle.std.specs.Coded.{codes};
    ghost use Rattle.std.specs.Vec.{vec_capacity};
    ghost use Rattle.rubis_workers.specs.Shard.Tables as shards;
    ghost use Rattle.rubis_schema.specs.declared.limits.TheConstants.{WORKERS_MAX};
    ghost use Rattle.rubis_replica.specs.Follow as model;
    ghost use Rattle.rubis_replica.specs.Counts.{HasWorkersAndRoom};

    ghost Value = { model.Follower };

    ghost coded = { Prim.hlevel (codes, shards.the_row.coded) };

    ghost view = { λ f. record {
      progress = f.progress;
      stops = f.stops.items;
      tables = f.tables;
    } };

    ghost invariant = { λ f. HasWorkersAndRoom f.workers.most WORKERS_MAX (length f.tables) (vec_capacity f.stops) };
}

impl<G: Gate + Drop> Follower<G> {
    /// The tables before any message, in `shards` shards with these hashes, which `workers` workers bring up to date.
    pub fn new(
        alloc: Global,
        shards: u8,
        hashes: Hashes,
        workers: u8,
        gate: G,
    ) -> Result<Follower<G>, AllocError>
        requires shards { 0 < shards }
        requires workers { IsCount workers WORKERS_MAX }
        ensures progress { IfOk result (λ follower. follower.progress ≡ resting_at 0) }
        ensures some { IfOk result (λ follower. 0 < length follower.tables) }
        ensures tables { IfOk result (λ follower. HoldsLog (length follower.tables) [] follower.tables) }
    {
        Ok(Follower {
            tables: Tables::hashed(alloc, usize::from(shards), hashes)?,
            workers: Workers {
                most: workers,
                pace: Pace::new(),
                gate: Arc::new(alloc, gate)?,
                alloc,
            },
            progress: Progress::resting_at(0),
            stops: Vec::with_capacity(alloc, usize::from(shards))?,
        })
    }

    // The same as `follow_upto` for the log of an intake, by helpers that stay for a run.
    fn follow_upto_by<R: Wait>(
        &mut self,
        rt: &R,
        hands: &mut Hands<'_, G>,
        intake: &mut Intake,
        upto: usize,
    ) -> Result<(), AllocError>
        requires { CanFollow intake.old.state.log upto self.old }
        ensures follows { ComesTo intake.old.state.log upto self.old self.new result }
        ensures intake { intake.new ≡ intake.old }
        ensures crew { hands.new.lead.crew ≡ hands.old.lead.crew }
    {
        let span = Span {
            from: self.progress.applied,
            upto,
        };
        if span.from == upto {
            self.progress = Progress::resting_at(upto);
            return Ok(());
        }
        let ended = apply_by_hands(
            rt,
            hands,
            &self.workers,
            &mut self.tables,
            intake,
            &span,
            &mut self.stops,
        );
        self.note(intake.log(), upto, ended)
    }

    /// Applies all that is pending of an intake's log, as `follow` does, by helpers that stay for a run.
    pub fn follow_by<R: Wait>(
        &mut self,
        rt: &R,
        hands: &mut Hands<'_, G>,
        intake: &mut Intake,
    ) -> Result<(), AllocError>
        requires rests { left_of self.old.progress ≡ 0 }
        requires follows { FollowsLog intake.old.state.log self.old }
        ensures follows { FollowsLog intake.old.state.log self.new }
        ensures ok { OnOk result (self.new.progress ≡ resting_at (length intake.old.state.log)) }
        ensures err { OnErr result (HasBegun intake.old.state.log self.old.progress self.new.progress ⊎ IsBetweenBatches self.old.progress self.new.progress) }
        ensures intake { intake.new ≡ intake.old }
        ensures crew { hands.new.lead.crew ≡ hands.old.lead.crew }
    {
        let end = self.progress.end();
        let upto = intake.log().len();
        self.follow_upto_by(rt, hands, intake, end)?;
        self.follow_upto_by(rt, hands, intake, upto)
    }
}

impl<G: Gate> Follower<G> {
    /// Links the rows that came since the last call into their chains, where a listing is found along one.
    pub fn link_rows(&mut self, listing: &Listing) -> Result<(), AllocError>
        ensures { self.new ≡ self.old }
    {
        self.tables.link_rows(listing)
    }

    // Whether several threads make the rows of a long listing: unless one worker is configured.
    fn is_shared(&self) -> bool {
        self.workers.most > 1
    }

    /// The rows of a listing of the tables as far as they are.
    pub fn rows<'a>(&'a self, listing: &'a Listing) -> Result<ListingRows<'a>, AllocError>
        ensures { IfOk result (λ rows. rows ≡ table_rows listing.now (union self.now.tables)) }
    {
        ListingRows::of_tables(self.workers.alloc, listing, &self.tables, self.is_shared())
    }

    /// The rows of a log.
    pub fn log_rows<'a>(&self, log: &'a [Message]) -> ListingRows<'a>
        ensures { result ≡ log_rows log.now }
    {
        ListingRows::of_log(self.workers.alloc, log, self.is_shared())
    }

    /// The rows of misfits.
    pub fn misfit_rows<'a>(&self, misfits: Vec<Misfit>) -> ListingRows<'a>
        ensures { result ≡ misfit_rows misfits.items }
    {
        ListingRows::of_misfits(self.workers.alloc, misfits, self.is_shared())
    }

    /// Whether a batch has begun and isn't whole.
    pub fn is_behind(&self) -> bool
        ensures { result ≡ is_behind self.now.progress }
    {
        self.progress.left() != 0
    }

    /// How many messages are applied, those of the begun batch aside.
    pub fn applied(&self) -> usize
        ensures { result ≡ self.now.progress.applied }
    {
        self.progress.applied
    }

    /// How many parts of the begun batch aren't done.
    pub fn left(&self) -> u32
        ensures { result ≡ left_of self.now.progress }
    {
        self.progress.left()
    }

    /// The tables as far as they are.
    pub fn tables(&self) -> &Tables
        ensures { result.now ≡ self.now.tables }
    {
        &self.tables
    }

    // Applies the batch that ends with message `upto`, and notes how far it came.
    fn follow_upto<R: Threads + Wait + Sync>(
        &mut self,
        rt: &R,
        log: &[Message],
        upto: usize,
    ) -> Result<(), AllocError>
        requires few { length log.now ≤ KEEP_MAX }
        requires rests { left_of self.old.progress ≡ 0 }
        requires follows { FollowsLog log.now self.old }
        requires on { self.old.progress.applied ≤ upto }
        requires within { upto ≤ length log.now }
        ensures { ComesTo log.now upto self.old self.new result }
    {
        let from = self.progress.applied;
        if from == upto {
            self.progress = Progress::resting_at(upto);
            return Ok(());
        }
        let batch = LogBatch { log, from, upto };
        let ended = apply_batch(
            rt,
            &mut self.workers,
            &mut self.tables,
            &batch,
            &mut self.stops,
        );
        self.note(log, upto, ended)
    }

    // Notes how far the batch came that ends with message `upto` and was applied.
    fn note(
        &mut self,
        log: &[Message],
        upto: usize,
        ended: Result<(), AllocError>,
    ) -> Result<(), AllocError>
        requires tried { IsTriedTo log.now upto self.old ended }
        ensures { ComesTo log.now upto self.old self.new result }
    {
        if ended.is_ok() {
            self.progress = Progress::resting_at(upto);
            return Ok(());
        }
        let from = self.progress.applied;
        let left = count_behind(&log[from..upto], from, &self.stops);
        if left == 0 {
            self.progress = Progress::resting_at(upto);
            return Ok(());
        }
        self.progress.ran_short = true;
        if left == count_parts(&log[from..upto]) {
            return Err(AllocError);
        }
        self.progress.stage = Stage::Begun { upto, left };
        Err(AllocError)
    }

    /// Applies all that is pending: what is kept as a batch of its own, and then what is pending besides. Where memory runs out
    /// one of them has begun, or nothing of it is done.
    pub fn follow<R: Threads + Wait + Sync>(
        &mut self,
        rt: &R,
        log: &[Message],
    ) -> Result<(), AllocError>
        requires few { length log.now ≤ KEEP_MAX }
        requires rests { left_of self.old.progress ≡ 0 }
        requires follows { FollowsLog log.now self.old }
        ensures follows { FollowsLog log.now self.new }
        ensures ok { OnOk result (self.new.progress ≡ resting_at (length log.now)) }
        ensures err { OnErr result (HasBegun log.now self.old.progress self.new.progress ⊎ IsBetweenBatches self.old.progress self.new.progress) }
    {
        if let Stage::Keeping { upto } = self.progress.stage {
            self.follow_upto(rt, log, upto)?;
        }
        self.follow_upto(rt, log, log.len())
    }

    /// Takes messages in that arrived together, one after the other, into the intake whose log these tables follow. What is
    /// pending before is applied first; what is released by the messages is kept as the next batch, where all before it is
    /// applied. A message for which there is no memory comes back with all that follow it.
    pub fn take_in<R: Threads + Wait + Sync>(
        &mut self,
        rt: &R,
        intake: &mut Intake,
        messages: Vec<Message>,
    ) -> Arrived
        requires sites { All (λ m. sites_of m ≡ intake.old.place.sites) messages.items }
        requires rests { left_of self.old.progress ≡ 0 }
        requires follows { FollowsLog intake.old.state.log self.old }
        ensures follows { FollowsLog intake.new.state.log self.new }
        ensures place { intake.new.place ≡ intake.old.place }
        ensures first { TakesFirst intake.old.place intake.old.state intake.new.state messages.items result.answers result.rest }
        ensures none { IfNone result.fault (result.rest ≡ []) }
        ensures fault { IfSome result.fault (IsStop (left_of self.old.progress) result.rest) }
        ensures progress { IsAhead intake.old.state.log intake.new.state.log self.old.progress self.new.progress }
    {
        let before = intake.log().len();
        let _ = self.follow(rt, intake.log());
        let arrived = take_all(self.workers.alloc, intake, messages);
        let upto = intake.log().len();
        if before < upto && self.progress == Progress::resting_at(before) {
            self.progress.stage = Stage::Keeping { upto };
        }
        arrived
    }

    /// Goes on with the batch that has begun, on this thread.
    pub fn finish(&mut self, log: &[Message]) -> Result<(), AllocError>
        requires few { length log.now ≤ KEEP_MAX }
        requires begun { 0 < left_of self.old.progress }
        requires follows { FollowsLog log.now self.old }
        ensures { GoesOnTo log.now self.old self.new result }
    {
        let from = self.progress.applied;
        let upto = self.progress.end();
        let gate: &G = &self.workers.gate;
        follow_rest(&mut self.tables, log, &mut self.stops, upto, gate);
        let left = count_behind(&log[from..upto], from, &self.stops);
        if left == 0 {
            self.progress = Progress::resting_at(upto);
            return Ok(());
        }
        self.progress = Progress {
            applied: from,
            stage: Stage::Begun { upto, left },
            ran_short: true,
        };
        Err(AllocError)
    }
}
