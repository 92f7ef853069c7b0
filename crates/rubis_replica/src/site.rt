//! One site, and its calls.

ghost use Rattle.std.specs.Prelude.{◌≡◌, ◌≤◌, ◌<◌, ◌⊎◌, [], All, IfOk, IfErr, IfNone, IfSome, IsErrOf, Ok, OnOk, Some, length, option_copied};
ghost use Rattle.rubis_shadow.specs.Shadows.{IsAsk};
ghost use Rattle.rubis_message.specs.Message.{sites_of};
ghost use Rattle.rubis_model.specs.Log.{cores, fold_of};
ghost use Rattle.rubis_model.specs.Site.{listed, listing_rows, arrived, asked, opening_at, passed, rows_at, took};
ghost use Rattle.rubis_release.specs.Release.{IsAdmitted};
ghost use Rattle.rubis_replica.specs.State.{IsStop, TakesFirst, setup_place, AddsRows, AnswersAsTheStep, IsCutFault, IsReadFault, IsReadyFor, IsRefreshed};
ghost use Rattle.rubis_replica.specs.State.{Lists, NeedsNoTables, TakesIn, WaitsBehind, pending, with_all_applied};
ghost use Rattle.rubis_replica.specs.Follow.{BatchGoesOn, IsAhead, IsBatched, IsProgress, end_of, is_behind, left_of, resting_at};

use crate::arriving::{Arrived, take_all};
use crate::config::Config;
use crate::faults::Fault;
use crate::follower::Follower;
use crate::hands::Hands;
use rubis_generate::decide;
use rubis_listing::ListingRows;
use rubis_message::{Arrival, Message, Taken, Token};
use rubis_release::Intake;
use rubis_schema::{Fields, Items, Listing, Row, RowKey, SharedSink, View};
use rubis_shadow::{Ask, Shadow};
use rubis_workers::{Free, Gate, misfits};
use std::alloc::{AllocError, Global};
use std::marker::Model;
use std::sync::Wait;
use std::thread::Threads;

/// One site: what it has taken in, and its tables, which follow its log. Released shadows are pending until they are
/// applied to the tables: as one batch once `batch` are pending, or more if `arrive_within` lets them wait, and before any decision or listing.
pub struct Site<G: Gate = Free> {
    intake: Intake,
    follower: Follower<G>,
    batch: u32,
    alloc: Global,
}

impl<G: Gate + Drop> Drop for Site<G> {
    // Proved here, once: a derived drop is proved anew in each crate that lets a site go.
    fn drop(self) {
        let Site {
            intake: _,
            follower: _,
            batch: _,
            alloc: _,
        } = self;
    }
}

impl<G: Gate> Model for Site<G> {
    ghost use Rattle.rubis_replica.specs.Follow.{FollowsLog};
    ghost use Rattle.rubis_replica.specs.State.{SiteState};

    ghost Value = { SiteState };

    ghost view = { λ s. record { place = s.intake.place; state = s.intake.state; progress = s.follower.progress; batch = s.batch } };

    ghost invariant = { λ s. FollowsLog s.intake.state.log s.follower };
}

impl<G: Gate + Drop> Site<G> {
    /// A site with nothing done and this configuration. Whenever a batch is applied, the gate is called for each shard, by the
    /// worker that takes it and before it folds the shard's part of the batch. The caller's thread is the only worker of a
    /// batch of one message, where one worker is configured, and while starting threads hasn't paid.
    pub fn new(alloc: Global, config: &Config, gate: G) -> Result<Site<G>, AllocError>
        ensures { IfOk result (λ site.
            site ≡ record { place = setup_place config.now; state = opening_at config.now.site; progress = resting_at 0; batch = config.now.batch }) }
    {
        Ok(Site {
            intake: Intake::hashed(
                alloc,
                config.site(),
                config.sites(),
                config.keep(),
                config.hashes(),
            )?,
            follower: Follower::new(
                alloc,
                config.shards_needed(),
                config.hashes(),
                config.workers(),
                gate,
            )?,
            batch: config.batch(),
            alloc,
        })
    }

    // Applies all that is pending, by helpers that stay for a run.
    fn refresh_by<R: Wait>(&mut self, rt: &R, hands: &mut Hands<'_, G>) -> Result<(), Fault>
        ensures site { IsRefreshed self.old self.new result }
        ensures waits { WaitsBehind self.old self.new result }
        ensures fault { IfErr result (IsCutFault self.old self.new) }
        ensures crew { hands.new.lead.crew ≡ hands.old.lead.crew }
    {
        if self.follower.is_behind() {
            return Err(Fault::Behind);
        }
        if self.follower.follow_by(rt, hands, &mut self.intake).is_ok() {
            return Ok(());
        }
        if self.follower.is_behind() {
            return Err(Fault::Behind);
        }
        Err(Fault::Memory)
    }

    /// Applies all that is pending as `cut` does, by helpers that stay for a run, to which its shards are given.
    pub fn cut_by_crew<R: Wait>(&mut self, rt: &R, hands: &mut Hands<'_, G>) -> Result<u32, Fault>
        ensures place { self.new.place ≡ self.old.place }
        ensures batch { self.new.batch ≡ self.old.batch }
        ensures state { self.new.state ≡ self.old.state }
        ensures waits { WaitsBehind self.old self.new result }
        ensures ok { IfOk result (λ count. (count ≡ pending self.old) × (self.new ≡ with_all_applied self.old)) }
        ensures fault { IfErr result (IsCutFault self.old self.new) }
        ensures crew { hands.new.lead.crew ≡ hands.old.lead.crew }
    {
        let pending = self.intake.log().len() - self.follower.applied();
        self.refresh_by(rt, hands)?;
        Ok(pending as u32)
    }
}

impl<G: Gate> Site<G> {
    // Applies all that is pending, as one batch.
    fn refresh<R: Threads + Wait + Sync>(&mut self, rt: &R) -> Result<(), Fault>
        ensures place { self.new.place ≡ self.old.place }
        ensures batch { self.new.batch ≡ self.old.batch }
        ensures state { self.new.state ≡ self.old.state }
        ensures waits { WaitsBehind self.old self.new result }
        ensures ok { OnOk result (self.new ≡ with_all_applied self.old) }
        ensures fault { IfErr result (IsCutFault self.old self.new) }
    {
        if self.follower.is_behind() {
            return Err(Fault::Behind);
        }
        if self.follower.follow(rt, self.intake.log()).is_ok() {
            return Ok(());
        }
        if self.follower.is_behind() {
            return Err(Fault::Behind);
        }
        Err(Fault::Memory)
    }

    // Applies what is pending where that is a batch.
    fn apply_batch<R: Threads + Wait + Sync>(&mut self, rt: &R)
        requires { left_of self.old.progress ≡ 0 }
        ensures place { self.new.place ≡ self.old.place }
        ensures batch { self.new.batch ≡ self.old.batch }
        ensures state { self.new.state ≡ self.old.state }
        ensures batched { IsBatched self.old.batch self.old.state.log self.old.progress self.new.progress }
    {
        let pending = self.intake.log().len() - self.follower.applied();
        if pending >= self.batch as usize {
            let _ = self.follower.follow(rt, self.intake.log());
        }
    }

    /// Decides an ask against the tables of the log, all of which is applied first, and makes the message of its shadow.
    #[inline(always)]
    pub fn request<R: Threads + Wait + Sync>(&mut self, rt: &R, ask: Ask) -> Result<Message, Fault>
        requires { IsAsk self.old.place.sites ask }
        ensures place { self.new.place ≡ self.old.place }
        ensures batch { self.new.batch ≡ self.old.batch }
        ensures waits { WaitsBehind self.old self.new result }
        ensures step { AnswersAsTheStep self.old self.new (asked self.old.place self.old.state ask) result }
        ensures ok { OnOk result (IsBatched self.old.batch self.new.state.log (resting_at (length self.old.state.log)) self.new.progress) }
        ensures fault { IfErr result (IsReadFault self.old self.new) }
    {
        self.refresh(rt)?;
        let standing = self.intake.standing();
        let shadow = decide(ask, self.follower.tables(), &standing)?;
        let Ok(message) = self.intake.generated(shadow) else {
            return Err(Fault::Memory);
        };
        self.apply_batch(rt);
        Ok(message)
    }

    /// Takes a message in that arrived from another site; all that is ready then is released.
    #[inline(always)]
    pub fn arrive<R: Threads + Wait + Sync>(
        &mut self,
        rt: &R,
        message: Message,
    ) -> Result<Arrival, Fault>
        requires { sites_of message ≡ self.old.place.sites }
        ensures place { self.new.place ≡ self.old.place }
        ensures batch { self.new.batch ≡ self.old.batch }
        ensures waits { WaitsBehind self.old self.new result }
        ensures step { AnswersAsTheStep self.old self.new (arrived self.old.place self.old.state message) result }
        ensures progress { TakesIn self.old self.new result }
        ensures memory { IsErrOf result Fault.Memory → IsAdmitted self.old.place self.old.state message }
    {
        if self.follower.is_behind() {
            return Err(Fault::Behind);
        }
        let arrival = self.intake.arrive(message)?;
        if let Arrival::Released(_) = arrival {
            self.apply_batch(rt);
        }
        Ok(arrival)
    }

    /// Takes messages in that arrived from other sites, one after the other, each as `arrive` does. What is pending is applied
    /// before, by the workers; what is released by the messages is kept as the next batch, where all before it is applied.
    pub fn arrive_all<R: Threads + Wait + Sync>(
        &mut self,
        rt: &R,
        messages: Vec<Message>,
    ) -> Arrived
        requires { All (λ m. sites_of m ≡ self.old.place.sites) messages.items }
        ensures place { self.new.place ≡ self.old.place }
        ensures batch { self.new.batch ≡ self.old.batch }
        ensures waits { 0 < left_of self.old.progress → (self.new ≡ self.old) × (result.answers ≡ []) × (result.rest ≡ messages.items)
            × (result.fault ≡ Some Fault.Behind) }
        ensures first { TakesFirst self.old.place self.old.state self.new.state messages.items result.answers result.rest }
        ensures none { IfNone result.fault (result.rest ≡ []) }
        ensures fault { IfSome result.fault (IsStop (left_of self.old.progress) result.rest) }
        ensures progress { left_of self.old.progress ≡ 0 → IsAhead self.old.state.log self.new.state.log self.old.progress self.new.progress }
    {
        if self.follower.is_behind() {
            return Arrived {
                answers: Items::new(self.alloc),
                rest: messages.into(),
                fault: Some(Fault::Behind),
            };
        }
        self.follower.take_in(rt, &mut self.intake, messages)
    }

    /// The same, but what is pending is applied before only where that is at least `most` messages: fewer of them wait, with what is
    /// released by the messages.
    pub fn arrive_within<R: Threads + Wait + Sync>(
        &mut self,
        rt: &R,
        messages: Vec<Message>,
        most: usize,
    ) -> Arrived
        requires { All (λ m. sites_of m ≡ self.old.place.sites) messages.items }
        ensures place { self.new.place ≡ self.old.place }
        ensures batch { self.new.batch ≡ self.old.batch }
        ensures waits { 0 < left_of self.old.progress → (self.new ≡ self.old) × (result.answers ≡ []) × (result.rest ≡ messages.items)
            × (result.fault ≡ Some Fault.Behind) }
        ensures first { TakesFirst self.old.place self.old.state self.new.state messages.items result.answers result.rest }
        ensures none { IfNone result.fault (result.rest ≡ []) }
        ensures fault { IfSome result.fault (IsStop (left_of self.old.progress) result.rest) }
        ensures few { left_of self.old.progress ≡ 0 → pending self.old < most → self.new.progress ≡ self.old.progress }
        ensures many { left_of self.old.progress ≡ 0 → most ≤ pending self.old
            → IsAhead self.old.state.log self.new.state.log self.old.progress self.new.progress }
    {
        let pending = self.intake.log().len() - self.follower.applied();
        if pending >= most || self.follower.is_behind() {
            return self.arrive_all(rt, messages);
        }
        take_all(self.alloc, &mut self.intake, messages)
    }

    /// Takes a token that arrived.
    pub fn token(&mut self, token: Token) -> Result<Taken, Fault>
        ensures place { self.new.place ≡ self.old.place }
        ensures batch { self.new.batch ≡ self.old.batch }
        ensures waits { WaitsBehind self.old self.new result }
        ensures step { AnswersAsTheStep self.old self.new (took self.old.place self.old.state token) result }
        ensures progress { NeedsNoTables self.old self.new result }
    {
        if self.follower.is_behind() {
            return Err(Fault::Behind);
        }
        Ok(self.intake.take_token(token)?)
    }

    /// Hands the token on to a site.
    pub fn pass(&mut self, to: u8) -> Result<Token, Fault>
        ensures place { self.new.place ≡ self.old.place }
        ensures batch { self.new.batch ≡ self.old.batch }
        ensures waits { WaitsBehind self.old self.new result }
        ensures step { AnswersAsTheStep self.old self.new (passed self.old.place self.old.state to) result }
        ensures progress { NeedsNoTables self.old self.new result }
    {
        if self.follower.is_behind() {
            return Err(Fault::Behind);
        }
        Ok(self.intake.pass_token(to)?)
    }

    /// Applies all that is pending and links the rows that came, if a listing reads the tables: one of the log doesn't. After that
    /// `rows` gives its rows. A site that is behind is left as it is.
    pub fn prepare<R: Threads + Wait + Sync>(
        &mut self,
        rt: &R,
        listing: &Listing,
    ) -> Result<(), Fault>
        ensures place { self.new.place ≡ self.old.place }
        ensures batch { self.new.batch ≡ self.old.batch }
        ensures state { self.new.state ≡ self.old.state }
        ensures waits { WaitsBehind self.old self.new result }
        ensures ready { OnOk result (IsReadyFor listing.now self.new) }
        ensures faults { IfErr result (λ fault. (fault ≡ Fault.Behind) ⊎ (fault ≡ Fault.Memory)) }
        ensures progress { Lists listing.now self.old self.new result }
    {
        if let Listing::Log = listing {
            if self.follower.is_behind() {
                return Err(Fault::Behind);
            }
            return Ok(());
        }
        self.refresh(rt)?;
        Ok(self.follower.link_rows(listing)?)
    }

    /// The rows of a listing that the site is ready for, as `prepare` leaves it.
    ///
    /// # Errors
    ///
    /// `AllocError` if there is no memory to put them in order.
    pub fn rows<'a>(&'a self, listing: &'a Listing) -> Result<ListingRows<'a>, AllocError>
        requires { IsReadyFor listing.now self.now }
        ensures { IfOk result (λ rows. rows ≡ listing_rows self.now.state.log (fold_of (cores self.now.state.log)) listing.now) }
    {
        match listing {
            Listing::Log => Ok(self.follower.log_rows(self.intake.log())),
            Listing::Misfits => {
                let misfits = misfits(self.alloc, self.follower.tables())?;
                Ok(self.follower.misfit_rows(misfits))
            }
            _ => self.follower.rows(listing),
        }
    }

    /// The row at a key in the tables of the log, all of which is applied, as `cut` leaves it: one look-up.
    pub fn row(&self, key: &RowKey) -> Option<&Row>
        requires { self.now.progress ≡ resting_at (length self.now.state.log) }
        ensures { option_copied result ≡ rows_at self.now.state.log key.now }
    {
        self.follower.tables().row(key)
    }

    /// Adds the rows of a listing to what takes them, one after the other. The listing of the log reads no tables and applies
    /// nothing; before any other all that is pending is applied. A site that is behind has no rows. Where memory runs out,
    /// some of the rows may have been added.
    pub fn list_into<S: SharedSink, R: Threads + Wait + Sync>(
        &mut self,
        rt: &R,
        listing: &Listing,
        sink: &mut S,
    ) -> Result<(), Fault>
        ensures place { self.new.place ≡ self.old.place }
        ensures batch { self.new.batch ≡ self.old.batch }
        ensures waits { WaitsBehind self.old self.new result }
        ensures none { IsErrOf result Fault.Behind → sink.new ≡ sink.old }
        ensures step { AddsRows (λ rows. S.adds rows sink.old sink.new) self.old self.new (listed self.old.state listing.now) result }
        ensures progress { Lists listing.now self.old self.new result }
    {
        self.prepare(rt, listing)?;
        let mut rows = self.rows(listing)?;
        Ok(rows.put_all(rt, sink)?)
    }

    /// The rows of a listing, as `list_into` adds them.
    pub fn list<R: Threads + Wait + Sync>(
        &mut self,
        rt: &R,
        listing: &Listing,
    ) -> Result<Items<Fields>, Fault>
        ensures place { self.new.place ≡ self.old.place }
        ensures batch { self.new.batch ≡ self.old.batch }
        ensures waits { WaitsBehind self.old self.new result }
        ensures step { AnswersAsTheStep self.old self.new (listed self.old.state listing.now) result }
        ensures progress { Lists listing.now self.old self.new result }
    {
        let mut rows = Items::new(self.alloc);
        self.list_into(rt, listing, &mut rows)?;
        Ok(rows)
    }

    /// Applies all that is pending, and returns how many messages that was. If memory runs out with a batch begun, the site is
    /// behind; if it runs out with none begun, nothing was applied, or exactly the kept batch.
    pub fn cut<R: Threads + Wait + Sync>(&mut self, rt: &R) -> Result<u32, Fault>
        ensures place { self.new.place ≡ self.old.place }
        ensures batch { self.new.batch ≡ self.old.batch }
        ensures state { self.new.state ≡ self.old.state }
        ensures waits { WaitsBehind self.old self.new result }
        ensures ok { IfOk result (λ count. (count ≡ pending self.old) × (self.new ≡ with_all_applied self.old)) }
        ensures fault { IfErr result (IsCutFault self.old self.new) }
    {
        let pending = self.intake.log().len() - self.follower.applied();
        self.refresh(rt)?;
        Ok(pending as u32)
    }

    /// Applies what a site that is behind has left of its batch, and says how many parts that were; 0 where it isn't
    /// behind. Where memory runs out again, the site stays behind, and what was applied is not applied again.
    pub fn catch_up(&mut self) -> Result<u32, Fault>
        ensures place { self.new.place ≡ self.old.place }
        ensures batch { self.new.batch ≡ self.old.batch }
        ensures state { self.new.state ≡ self.old.state }
        ensures ready { left_of self.old.progress ≡ 0 → (result ≡ Ok 0) × (self.new ≡ self.old) }
        ensures ok { 0 < left_of self.old.progress → IfOk result (λ parts.
            (parts ≡ left_of self.old.progress) × (self.new.progress ≡ resting_at (end_of self.old.progress))) }
        ensures fault { IfErr result (λ fault. (fault ≡ Fault.Behind) × BatchGoesOn self.old.progress self.new.progress) }
    {
        if !self.follower.is_behind() {
            return Ok(0);
        }
        let left = self.follower.left();
        if self.follower.finish(self.intake.log()).is_err() {
            return Err(Fault::Behind);
        }
        Ok(left)
    }

    /// Whether some but not all of a batch stands in the tables.
    pub fn is_behind(&self) -> bool
        ensures value { result ≡ is_behind self.now.progress }
        ensures conditions { IsProgress self.now.state.log self.now.progress }
    {
        self.follower.is_behind()
    }

    /// What the site has taken in: its log, the messages that wait, and the token.
    pub fn intake(&self) -> &Intake
        ensures { result.now ≡ record { place = self.now.place; state = self.now.state } }
    {
        &self.intake
    }

    /// The released messages, in release order.
    pub fn history(&self) -> &[Message]
        ensures value { result.now ≡ self.now.state.log }
        ensures sites { All (λ m. sites_of m ≡ self.now.place.sites) result.now }
        ensures few { length result.now ≤ self.now.place.keep }
    {
        self.intake.log()
    }
}
