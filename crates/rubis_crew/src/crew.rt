//! The crew: how jobs are given and taken, and how their results come back.

ghost use Rattle.std.specs.Prelude.{◌≡◌, ◌+◌, ◌-◌, ◌<◌, ◌≤◌, ◌^◌, [], ◌∷◌, ◌++◌, length, true, false, Some, IfOk, IfErr, OnOk, IfSome, IfNone};
ghost use Rattle.crossbeam_queue.specs.Passes.{view, ruled_capacity, IsPassOf, IsSamePass};
ghost use Rattle.rubis_crew.specs.declared.job.Given.{Given};
ghost use Rattle.rubis_crew.specs.Rule.{IsPaid, jobs_held, AreBelow};
ghost use Rattle.atomic_table.specs.Seated.{TableId};
ghost use Rattle.rubis_crew.specs.States.{drained, ended, new_lead, new_helper, given_too, HasNoRoom, IsBack, HasHelped, ComesBack, Settles, HasAllBack};
ghost use Rattle.rubis_crew.specs.States.{TellsAll};

use crate::hold::Hold;
use crate::job::{Back, Given, Job};
use crate::results::{
    Collecting, JobPass, Joining, Naming, Paying, Payment, ResultRule, ResultView, Slip,
};
use crate::rule::{
    Fetching, Giving, Handing, Hiring, JobEntry, JobRule, JobView, Owning, Receiving, Settling,
};
use crossbeam_queue::{Pass, RuledArrayQueue};
use crossbeam_utils::sync::{EventCount, Key};
use std::alloc::{AllocError, Global};
use std::marker::Model;
use std::sync::{Arc, Wait};
use std::thread;

type Jobs<J> = RuledArrayQueue<JobEntry<J>, JobView<J>, JobRule>;

type Results<J> = RuledArrayQueue<Slip<J, <J as Job>::Output>, ResultView<J>, ResultRule>;

type ResultPass<J> = Pass<Slip<J, <J as Job>::Output>, ResultView<J>>;

/// Jobs and results, shared by the one who gives jobs and the helpers. It ends by `close`, and can't be let go before. To a contract it
/// is its identity, how many jobs may be given and not back, and how many helpers it has.
pub struct Crew<J: Job> {
    jobs: Jobs<J>,
    results: Results<J>,
    room: usize,
    // How many helpers are told that no more jobs come.
    helpers: usize,
    // By which helpers that sleep are told of a job, and that no more come. A crew beside this one has the same.
    calls: Arc<EventCount>,
    // Where a helper is held up before it announces that it sleeps.
    hold: Option<Arc<Hold, Global>>,
}

impl<J: Job> Model for Crew<J> {
    ghost use Rattle.std.specs.Prelude.{◌+◌, ◌≤◌};
    ghost use Rattle.crossbeam_queue.specs.Passes.{ruled_capacity};
    ghost use Rattle.rubis_crew.specs.States.{CrewState, crew_code};

    ghost Value = { CrewState };

    ghost coded = { crew_code };

    ghost view = { λ c. record {
      id = record { jobs = c.jobs.table.shared.table_id; results = c.results.table.shared.table_id };
      room = c.room;
      helpers = c.helpers;
    } };

    ghost invariant = { λ c. c.room + c.helpers ≤ ruled_capacity c.jobs };
}

/// What the one who gives jobs knows of a crew, and its permission to give them.
#[derive(Drop)]
pub struct Lead<J: Job> {
    seat: JobPass<J>,
    desk: ResultPass<J>,
    next: u64,
    // How many jobs are given and not back.
    count: usize,
    ended: bool,
}

impl<J: Job> Model for Lead<J> {
    ghost use Rattle.rubis_crew.specs.States.{LeadState, AreALead, lead_of, lead_code};

    ghost Value = { LeadState J };

    ghost coded = { lead_code J.code };

    ghost view = { λ l. lead_of l.ended l.seat l.desk };

    ghost invariant = { λ l. AreALead l.next l.count l.ended l.seat l.desk };
}

/// What a helper knows of a crew, and its permission to take jobs.
#[derive(Drop)]
pub struct Helper<J: Job> {
    seat: JobPass<J>,
    desk: ResultPass<J>,
}

impl<J: Job> Model for Helper<J> {
    ghost use Rattle.rubis_crew.specs.States.{HelperState, AreAPair, helper_of, helper_code};

    ghost Value = { HelperState J };

    ghost coded = { helper_code J.code };

    ghost view = { λ h. helper_of h.seat h.desk };

    ghost invariant = { λ h. AreAPair h.seat h.desk };
}

/// What a helper found.
#[derive(Clone, Copy, Debug, PartialEq, Eq)]
pub enum Found {
    /// A job, whose result it paid.
    AJob,
    /// None, and more may come.
    Nothing,
    /// None, and no more come.
    Over,
}

// The job that the pass holds is back: it is one of those that the pass gave, and given no more.
fn settle<J: Job>(jobs: &Jobs<J>, seat: &mut JobPass<J>)
    requires queue { IsPassOf jobs.now seat.old }
    requires leads { (view seat.old).leads ≡ true }
    requires one { (x : Given J) × ((view seat.old).held ≡ x ∷ []) }
    ensures { Settles seat.old seat.new }
{
    jobs.learn_as::<Owning>(seat);
    let _ = jobs.another::<Settling>(seat);
}

// Puts a result into the queue, as soon as there is room.
fn pay<J: Job, R: Wait>(
    rt: &R,
    results: &Results<J>,
    desk: &mut ResultPass<J>,
    payment: Payment<J, J::Output>,
)
    requires queue { IsPassOf results.now desk.old }
    requires paid { (queue : TableId) × ((view desk.old).of ≡ Some queue) × IsPaid J.Worked queue payment }
    ensures queue { IsSamePass desk.old desk.new }
    ensures paid { view desk.new ≡ record (view desk.old) { paid = (view desk.old).paid ++ jobs_held payment.token } }
{
    let mut slip = Slip::Pay(payment);
    for _ in rt.forever() {
        match results.push_as::<Paying, R>(rt, desk, slip) {
            Ok(()) => return,
            Err(back) => slip = back,
        }
        thread::yield_now();
    }
    unreachable!()
}

// Tells each helper that no more jobs come.
fn say_over<J: Job, R: Wait>(rt: &R, jobs: &Jobs<J>, seat: &mut JobPass<J>, helpers: usize)
    requires queue { IsPassOf jobs.now seat.old }
    requires back { HasAllBack (view seat.old) }
    requires room { helpers ≤ ruled_capacity jobs.now }
    ensures { TellsAll helpers seat.old seat.new }
{
    for _ in 0..helpers {
        match jobs.push_as::<Giving, R>(rt, seat, JobEntry::Over) {
            Ok(()) => {}
            Err(_) => unreachable!(),
        }
    }
}

impl<J: Job> Lead<J> {
    /// How many jobs are given and not back.
    pub fn out(&self) -> usize
        ensures { result ≡ length self.now.given }
    {
        self.count
    }
}

impl<J: Job> Crew<J> {
    // A crew whose helpers are called so.
    fn called_by<R: Wait>(
        rt: &R,
        alloc: Global,
        room: usize,
        helpers: usize,
        calls: Arc<EventCount>,
    ) -> Result<(Crew<J>, Lead<J>), AllocError>
        requires { (0 < room) × (room + helpers < 2 ^ 63) }
        ensures room { IfOk result (λ made. made.0.room ≡ room) }
        ensures helpers { IfOk result (λ made. made.0.helpers ≡ helpers) }
        ensures lead { IfOk result (λ made. made.1 ≡ new_lead made.0.id) }
    {
        let (jobs, mut seat) = Jobs::<J>::ruled(alloc, room + helpers)?;
        let (results, mut desk) = Results::<J>::ruled(alloc, room)?;
        let token = jobs.another::<Hiring>(&mut seat);
        match results.push_as::<Naming, R>(rt, &mut desk, Slip::Name(token)) {
            Ok(()) => {}
            Err(_) => unreachable!(),
        }
        let _ = results.pop_as::<Collecting, R>(rt, &mut desk);
        let crew = Crew {
            jobs,
            results,
            room,
            helpers,
            calls,
            hold: None,
        };
        let lead = Lead {
            seat,
            desk,
            next: 0,
            count: 0,
            ended: false,
        };
        Ok((crew, lead))
    }

    /// A crew for `helpers` helpers, with room for `room` jobs that are given and not back. None is given yet.
    pub fn new<R: Wait>(
        rt: &R,
        alloc: Global,
        room: usize,
        helpers: usize,
    ) -> Result<(Crew<J>, Lead<J>), AllocError>
        requires { (0 < room) × (room + helpers < 2 ^ 63) }
        ensures room { IfOk result (λ made. made.0.room ≡ room) }
        ensures helpers { IfOk result (λ made. made.0.helpers ≡ helpers) }
        ensures lead { IfOk result (λ made. made.1 ≡ new_lead made.0.id) }
    {
        let calls = Arc::new(alloc, EventCount::new())?;
        Crew::called_by(rt, alloc, room, helpers, calls)
    }

    /// A crew for the helpers of another one: as many, and one that sleeps at both is called by a job of either. `Both` is such a helper.
    pub fn beside<K: Job, R: Wait>(
        rt: &R,
        alloc: Global,
        room: usize,
        other: &Crew<K>,
    ) -> Result<(Crew<J>, Lead<J>), AllocError>
        requires { (0 < room) × (room + other.now.helpers < 2 ^ 63) }
        ensures room { IfOk result (λ made. made.0.room ≡ room) }
        ensures helpers { IfOk result (λ made. made.0.helpers ≡ other.now.helpers) }
        ensures lead { IfOk result (λ made. made.1 ≡ new_lead made.0.id) }
    {
        let calls = other.calls.clone()?;
        Crew::called_by(rt, alloc, room, other.helpers, calls)
    }

    /// How many helpers it has.
    pub fn helpers(&self) -> usize
        ensures { result ≡ self.now.helpers }
    {
        self.helpers
    }

    /// The same crew, whose helpers are held up there.
    pub fn held_up(self, hold: Arc<Hold, Global>) -> Crew<J>
        ensures { result ≡ self }
    {
        let Crew {
            jobs,
            results,
            room,
            helpers,
            calls,
            hold: _,
        } = self;
        Crew {
            jobs,
            results,
            room,
            helpers,
            calls,
            hold: Some(hold),
        }
    }

    // Announces that the caller looks for a job, and sleeps then if there is none.
    pub(crate) fn prepare_wait(&self) -> Key<'_> {
        if let Some(hold) = &self.hold {
            hold.come();
        }
        self.calls.prepare_wait()
    }

    /// What a new helper needs, for its thread.
    pub fn helper(&self, lead: &mut Lead<J>) -> Helper<J>
        requires { lead.old.crew ≡ self.now.id }
        ensures helper { result ≡ new_helper self.now.id }
        ensures same { lead.new ≡ lead.old }
    {
        let seat = self.jobs.another::<Hiring>(&mut lead.seat);
        let desk = self.results.another::<Joining>(&mut lead.desk);
        Helper { seat, desk }
    }

    /// What one more helper needs, for its thread.
    pub fn another(&self, helper: &mut Helper<J>) -> Helper<J>
        requires { helper.old.crew ≡ self.now.id }
        ensures helper { result ≡ new_helper self.now.id }
        ensures same { helper.new ≡ helper.old }
    {
        let seat = self.jobs.another::<Hiring>(&mut helper.seat);
        let desk = self.results.another::<Joining>(&mut helper.desk);
        Helper { seat, desk }
    }

    /// Gives a job, and tells the number by which its result comes back. Returns the job if and only if there is no room, or the crew was
    /// ended.
    pub fn give<R: Wait>(&self, rt: &R, lead: &mut Lead<J>, job: J) -> Result<u64, J>
        requires crew { lead.old.crew ≡ self.now.id }
        requires fits { J.Fits job }
        ensures number { IfOk result (λ number. (number ≡ lead.old.next) × (number < 18446744073709551615) × AreBelow number lead.old.given) }
        ensures given { OnOk result ((length lead.old.given < self.now.room) × (lead.new ≡ given_too lead.old job)) }
        ensures full { IfErr result (λ back. (back ≡ job) × HasNoRoom self.now.room lead.old × (lead.new ≡ lead.old)) }
    {
        if lead.ended || lead.count >= self.room || lead.next == u64::MAX {
            return Err(job);
        }
        let number = lead.next;
        let item = JobEntry::Work(Given { number, job });
        match self.jobs.push_as::<Giving, R>(rt, &mut lead.seat, item) {
            Ok(()) => {
                self.calls.notify_one();
                lead.next += 1;
                lead.count += 1;
                Ok(number)
            }
            Err(_) => unreachable!(),
        }
    }

    /// A result that came back, if one did.
    pub fn take_back<R: Wait>(&self, rt: &R, lead: &mut Lead<J>) -> Option<Back<J::Output>>
        requires crew { lead.old.crew ≡ self.now.id }
        ensures back { IfSome result (λ back. ComesBack J.Worked lead.old back lead.new) }
        ensures none { IfNone result (lead.new ≡ lead.old) }
    {
        match self.results.pop_as::<Collecting, R>(rt, &mut lead.desk) {
            Some(Slip::Pay(payment)) => {
                let Payment {
                    number,
                    result,
                    token,
                } = payment;
                self.jobs.absorb::<Receiving>(&mut lead.seat, token);
                settle(&self.jobs, &mut lead.seat);
                lead.count -= 1;
                Some(Back { number, result })
            }
            Some(Slip::Name(_)) | None => None,
        }
    }

    /// The first job that no helper has taken, if there is one. It comes back as it was given.
    pub fn take_unworked<R: Wait>(&self, rt: &R, lead: &mut Lead<J>) -> Option<Given<J>>
        requires crew { lead.old.crew ≡ self.now.id }
        ensures job { IfSome result (λ given. IsBack lead.old given lead.new) }
        ensures fits { IfSome result (λ given. J.Fits given.job) }
        ensures none { IfNone result (lead.new ≡ lead.old) }
    {
        // Only helpers take what says that no more jobs come.
        if lead.count == 0 {
            return None;
        }
        match self.jobs.pop_as::<Fetching, R>(rt, &mut lead.seat) {
            Some(JobEntry::Work(given)) => {
                settle(&self.jobs, &mut lead.seat);
                lead.count -= 1;
                Some(given)
            }
            Some(JobEntry::Over) | None => None,
        }
    }

    /// Does the first job that no helper has taken, if there is one, and returns its result.
    pub fn work<R: Wait>(&self, rt: &R, lead: &mut Lead<J>) -> Option<Back<J::Output>>
        requires crew { lead.old.crew ≡ self.now.id }
        ensures back { IfSome result (λ back. ComesBack J.Worked lead.old back lead.new) }
        ensures none { IfNone result (lead.new ≡ lead.old) }
    {
        let Given { number, job } = self.take_unworked(rt, lead)?;
        Some(Back {
            number,
            result: job.work(rt),
        })
    }

    /// Lets go what is given: a job that no helper has taken unworked, and else its result. Nothing else changes.
    pub fn drain<R: Wait>(&self, rt: &R, lead: &mut Lead<J>)
        requires { lead.old.crew ≡ self.now.id }
        ensures { lead.new ≡ drained lead.old }
    {
        for _ in rt.forever() {
            if lead.out() == 0 {
                return;
            }
            if self.take_unworked(rt, lead).is_none() && self.take_back(rt, lead).is_none() {
                thread::yield_now();
            }
        }
        unreachable!()
    }

    /// Tells each of the helpers that no more jobs come, once. All that was given is back.
    pub fn end<R: Wait>(&self, rt: &R, lead: &mut Lead<J>)
        requires crew { lead.old.crew ≡ self.now.id }
        requires none { lead.old.given ≡ [] }
        ensures ended { lead.new ≡ ended lead.new.told lead.old }
        ensures told { lead.old.ended ≡ false → lead.new.told ≡ self.now.helpers }
    {
        if lead.ended {
            return;
        }
        say_over(rt, &self.jobs, &mut lead.seat, self.helpers);
        self.calls.notify_all();
        lead.ended = true;
    }

    /// Lets the crew go, once it was ended. Returns how many jobs were given: all of them are back.
    pub fn close(self, lead: Lead<J>) -> u64
        requires crew { lead.crew ≡ self.id }
        requires ended { (lead.ended ≡ true) × (lead.given ≡ []) }
        ensures { result ≡ lead.next }
    {
        let Crew {
            jobs: _,
            results: _,
            room: _,
            helpers: _,
            calls: _,
            hold: _,
        } = self;
        lead.next
    }

    /// Takes the first job, if there is one, does it, and pays its result.
    pub fn help<R: Wait>(&self, rt: &R, me: &mut Helper<J>) -> Found
        requires { me.old.crew ≡ self.now.id }
        ensures { HasHelped result me.old me.new }
    {
        match self.jobs.pop_as::<Fetching, R>(rt, &mut me.seat) {
            Some(JobEntry::Work(given)) => {
                let Given { number, job } = given;
                let result = job.work(rt);
                let token = self.jobs.another::<Handing>(&mut me.seat);
                let payment = Payment {
                    number,
                    result,
                    token,
                };
                pay(rt, &self.results, &mut me.desk, payment);
                Found::AJob
            }
            Some(JobEntry::Over) => Found::Over,
            None => Found::Nothing,
        }
    }

    // Helps, or sleeps until a job is given or no more come, if there is none.
    fn help_or_sleep<R: Wait>(&self, rt: &R, me: &mut Helper<J>) -> Found
        requires { me.old.crew ≡ self.now.id }
        ensures { HasHelped result me.old me.new }
    {
        let call = self.prepare_wait();
        let found = self.help(rt, me);
        if found == Found::Nothing {
            call.wait(rt);
        }
        found
    }

    /// Helps until no more jobs come, which it is told once, and sleeps while there is none. What was taken is paid for.
    pub fn stay<R: Wait>(&self, rt: &R, me: &mut Helper<J>)
        requires crew { me.old.crew ≡ self.now.id }
        requires owes { me.old.paid ≡ me.old.taken }
        ensures crew { me.new.crew ≡ me.old.crew }
        ensures owes { me.new.paid ≡ me.new.taken }
        ensures heard { me.new.heard ≡ me.old.heard + 1 }
    {
        for _ in rt.forever() {
            let found = match self.help(rt, me) {
                Found::Nothing => self.help_or_sleep(rt, me),
                other => other,
            };
            if found == Found::Over {
                return;
            }
        }
    }
}
