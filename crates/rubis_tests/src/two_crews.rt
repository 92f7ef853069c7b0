//! Tests of helpers of two crews, each of which has an end of its own: that they wake, work at once, and leave.

ghost use Rattle.std.specs.Prelude.{◌≡◌, true, [], IfOk};
ghost use Rattle.rubis_crew.specs.Both.{IsAt};

use crate::gates::Holders;
use crate::rigs::Rig;
use rubis_crew::{Both, Crew, Found, Helper, Hold, Job, Lead};
use rubis_world::Gate;
use std::alloc::{AllocError, Global};
use std::sync::atomic::{AtomicBool, Ordering};
use std::sync::{Arc, Wait};
use std::test::Fail;
use std::thread;
use std::time::Duration;

// For how many naps the one who gives jobs waits for what a helper does: for some ten seconds.
const NAPS: u32 = 60_000;

// How many jobs are given to each crew, and as many to the second once the first is ended.
const JOBS: u32 = 10;

// A number to be doubled.
#[derive(Drop)]
pub(crate) struct Doubling {
    pub(crate) number: u32,
}

impl Job for Doubling {
    type Output = u64;

    ghost use Rattle.std.specs.Prelude.{◌≡◌, ◌*◌, ⊤};

    ghost Fits = { λ double. ⊤ };

    ghost Worked = { λ double result. result ≡ 2 * double.number };

    fn work<R: Wait>(self, _rt: &R) -> u64 {
        2 * u64::from(self.number)
    }
}

// A job at which a helper is held as at a gate.
#[derive(Drop)]
struct Holding {
    holders: Arc<Holders, Global>,
}

impl Job for Holding {
    type Output = ();

    ghost use Rattle.std.specs.Prelude.{⊤};

    ghost Fits = { λ holding. ⊤ };

    ghost Worked = { λ holding result. ⊤ };

    fn work<R: Wait>(self, _rt: &R) {
        let holders: &Holders = &self.holders;
        Gate::taken(&holders, 0);
    }
}

// A crew that doubles numbers, and the permission to give it jobs.
type Doublers = Crew<Doubling>;

type Giver = Lead<Doubling>;

// The permissions to give jobs to two crews.
#[derive(Drop)]
struct Leads<J: Job> {
    first: Lead<J>,
    second: Lead<J>,
}

// Two crews for two helpers, of which the second was made beside the first.
fn two_crews<J: Job>(rt: &impl Rig) -> Result<(Crew<J>, Crew<J>, Leads<J>), AllocError>
    ensures { IfOk result (λ made. (made.2.first.crew ≡ made.0.id) × (made.2.second.crew ≡ made.1.id)) }
{
    let (first, mut lead) = Crew::new(rt, rt.alloc(), 2, 2)?;
    match Crew::beside(rt, rt.alloc(), 2, &first) {
        Ok((second, other)) => {
            let leads = Leads {
                first: lead,
                second: other,
            };
            Ok((first, second, leads))
        }
        Err(fault) => {
            first.end(rt, &mut lead);
            first.close(lead);
            Err(fault)
        }
    }
}

// Lets the helpers run.
fn nap(rt: &impl Rig) {
    thread::sleep(rt, Duration::from_micros(100));
}

// Waits for a result, which comes before any helper leaves.
fn wait_for_one<J: Job>(
    rt: &impl Rig,
    crew: &Crew<J>,
    lead: &mut Lead<J>,
    left: &AtomicBool,
) -> J::Output
    requires { lead.old.crew ≡ crew.now.id }
    ensures { lead.new.crew ≡ crew.now.id }
{
    for _ in 0..NAPS {
        if let Some(back) = crew.take_back(rt, lead) {
            return back.result;
        }
        assert!(rt; !left.load(Ordering::SeqCst), "the helpers left");
        nap(rt);
    }
    panic!(rt; "no helper came for a job")
}

// Waits until the helpers left.
fn wait_for_the_end(rt: &impl Rig, left: &AtomicBool) {
    for _ in 0..NAPS {
        if left.load(Ordering::SeqCst) {
            return;
        }
        nap(rt);
    }
    panic!(rt; "a helper was told of no end")
}

// Leaves the helpers time to find no job, and to fall asleep.
fn let_them_sleep(rt: &impl Rig) {
    thread::sleep(rt, Duration::from_millis(2));
}

// Gives a job to helpers that sleep, and returns the result.
fn wake(rt: &impl Rig, crew: &Doublers, lead: &mut Giver, left: &AtomicBool, number: u32) -> u64
    requires { lead.old.crew ≡ crew.now.id }
    ensures { lead.new.crew ≡ crew.now.id }
{
    let_them_sleep(rt);
    assert!(rt; crew.give(rt, lead, Doubling { number }).is_ok());
    wait_for_one(rt, crew, lead, left)
}

// Gives jobs to the crew one by one, and returns the sum of the results.
fn wake_often(rt: &impl Rig, crew: &Doublers, lead: &mut Giver, left: &AtomicBool) -> u64
    requires { lead.old.crew ≡ crew.now.id }
    ensures { lead.new.crew ≡ crew.now.id }
{
    let mut sum = 0_u64;
    for number in 0..JOBS {
        sum = sum.wrapping_add(wake(rt, crew, lead, left, number));
    }
    sum
}

// Gives jobs to both crews in turn, and returns the sum of the results.
fn wake_in_turn(
    rt: &impl Rig,
    first: &Doublers,
    second: &Doublers,
    leads: &mut Leads<Doubling>,
    left: &AtomicBool,
) -> u64
    requires { (leads.old.first.crew ≡ first.now.id) × (leads.old.second.crew ≡ second.now.id) }
    ensures { (leads.new.first.crew ≡ first.now.id) × (leads.new.second.crew ≡ second.now.id) }
{
    let mut sum = 0_u64;
    for number in 0..JOBS {
        let one = wake(rt, first, &mut leads.first, left, number);
        let other = wake(rt, second, &mut leads.second, left, number);
        sum = sum.wrapping_add(one).wrapping_add(other);
    }
    sum
}

// Ends a crew to which all results came back, and whose helpers sleep.
fn end<J: Job>(rt: &impl Rig, crew: &Crew<J>, lead: &mut Lead<J>)
    requires { lead.old.crew ≡ crew.now.id }
    ensures { (lead.new.crew ≡ crew.now.id) × (lead.new.ended ≡ true) × (lead.new.given ≡ []) }
{
    assert!(rt; lead.out() == 0);
    let_them_sleep(rt);
    crew.end(rt, lead);
}

// Gives jobs to both crews in turn, ends the first, gives jobs to the second, and ends it. Returns the sum of the results.
fn lead_both(
    rt: &impl Rig,
    first: &Doublers,
    second: &Doublers,
    mut leads: Leads<Doubling>,
    left: &AtomicBool,
) -> (u64, Leads<Doubling>)
    requires { (leads.first.crew ≡ first.now.id) × (leads.second.crew ≡ second.now.id) }
    ensures first { (result.1.first.crew ≡ first.now.id) × (result.1.first.ended ≡ true) × (result.1.first.given ≡ []) }
    ensures second { (result.1.second.crew ≡ second.now.id) × (result.1.second.ended ≡ true) × (result.1.second.given ≡ []) }
{
    let both = wake_in_turn(rt, first, second, &mut leads, left);
    end(rt, first, &mut leads.first);
    let more = wake_often(rt, second, &mut leads.second, left);
    end(rt, second, &mut leads.second);
    wait_for_the_end(rt, left);
    (both.wrapping_add(more), leads)
}

// Has the helper stay, alone or with all others, and says when they left.
fn stay<J: Job>(
    rt: &impl Rig,
    first: &Crew<J>,
    second: &Crew<J>,
    mut helper: Both<J, J>,
    all: bool,
    left: &AtomicBool,
)
    requires { IsAt first.now.id second.now.id helper }
{
    if all {
        helper.stay_all(rt, first, second);
    } else {
        helper.stay(rt, first, second);
    }
    left.store(true, Ordering::SeqCst);
}

#[test]
fn helpers_stay_until_both_crews_are_ended(rt: HostRuntime) -> Result<(), Fail> {
    let (first, second, mut leads) = two_crews(&rt)?;
    let helper = Both::new(
        first.helper(&mut leads.first),
        second.helper(&mut leads.second),
    );
    let left = AtomicBool::new(false);
    let ((), (sum, leads)) = thread::join(
        &rt,
        || stay(&rt, &first, &second, helper, true, &left),
        || lead_both(&rt, &first, &second, leads, &left),
    );
    let jobs = (first.close(leads.first), second.close(leads.second));
    assert_eq!(rt; (jobs, sum), ((10, 20), 270));
    Ok(())
}

// Ends the first crew, gives jobs to the second, and ends it. Another helper, of the first crew alone, finds its end there, after the
// helper of both looked for jobs ten times more.
fn lead_beside(
    rt: &impl Rig,
    first: &Doublers,
    second: &Doublers,
    mut leads: Leads<Doubling>,
    mut own: Helper<Doubling>,
    left: &AtomicBool,
) -> Leads<Doubling>
    requires leads { (leads.first.crew ≡ first.now.id) × (leads.second.crew ≡ second.now.id) }
    requires own { own.crew ≡ first.now.id }
    ensures first { (result.first.crew ≡ first.now.id) × (result.first.ended ≡ true) × (result.first.given ≡ []) }
    ensures second { (result.second.crew ≡ second.now.id) × (result.second.ended ≡ true) × (result.second.given ≡ []) }
{
    end(rt, first, &mut leads.first);
    wake_often(rt, second, &mut leads.second, left);
    assert_eq!(rt; first.help(rt, &mut own), Found::Over);
    end(rt, second, &mut leads.second);
    wait_for_the_end(rt, left);
    leads
}

#[test]
fn a_helper_of_two_crews_takes_one_end_of_each(rt: HostRuntime) -> Result<(), Fail> {
    let (first, second, mut leads) = two_crews(&rt)?;
    let own = first.helper(&mut leads.first);
    let helper = Both::new(
        first.helper(&mut leads.first),
        second.helper(&mut leads.second),
    );
    let left = AtomicBool::new(false);
    let ((), leads) = thread::join(
        &rt,
        || stay(&rt, &first, &second, helper, false, &left),
        || lead_beside(&rt, &first, &second, leads, own, &left),
    );
    let jobs = (first.close(leads.first), second.close(leads.second));
    assert_eq!(rt; jobs, (0, 10));
    Ok(())
}

// Gives the jobs to the first crew, does none of them, and ends both crews.
fn lead_holding(
    rt: &impl Rig,
    first: &Crew<Holding>,
    second: &Crew<Holding>,
    mut leads: Leads<Holding>,
    jobs: (Holding, Holding),
    left: &AtomicBool,
) -> Leads<Holding>
    requires { (leads.first.crew ≡ first.now.id) × (leads.second.crew ≡ second.now.id) }
    ensures first { (result.first.crew ≡ first.now.id) × (result.first.ended ≡ true) × (result.first.given ≡ []) }
    ensures second { (result.second.crew ≡ second.now.id) × (result.second.ended ≡ true) × (result.second.given ≡ []) }
{
    assert!(rt; first.give(rt, &mut leads.first, jobs.0).is_ok());
    assert!(rt; first.give(rt, &mut leads.first, jobs.1).is_ok());
    wait_for_one(rt, first, &mut leads.first, left);
    wait_for_one(rt, first, &mut leads.first, left);
    end(rt, first, &mut leads.first);
    end(rt, second, &mut leads.second);
    leads
}

// A job at which these hold a helper.
fn hold(holders: &Arc<Holders, Global>) -> Result<Holding, Fail> {
    Ok(Holding {
        holders: Arc::try_clone(holders).or(Err("an owner"))?,
    })
}

// Each of two jobs holds its helper until the other is at work too.
#[test]
fn both_helpers_of_two_crews_work_at_once(rt: HostRuntime) -> Result<(), Fail> {
    let holders = Arc::new(rt.alloc(), Holders::new(2))?;
    let jobs = (hold(&holders)?, hold(&holders)?);
    let (first, second, mut leads) = two_crews(&rt)?;
    let helper = Both::new(
        first.helper(&mut leads.first),
        second.helper(&mut leads.second),
    );
    let left = AtomicBool::new(false);
    let ((), leads) = thread::join(
        &rt,
        || stay(&rt, &first, &second, helper, true, &left),
        || lead_holding(&rt, &first, &second, leads, jobs, &left),
    );
    first.close(leads.first);
    second.close(leads.second);
    assert_eq!(rt; holders.most(), 2);
    Ok(())
}

// The helper looks for a job only after the one who gives jobs has looked for one that nobody took.
#[test]
fn an_end_is_left_to_the_helper(rt: HostRuntime) -> Result<(), Fail> {
    let (crew, mut lead) = Doublers::new(&rt, rt.alloc(), 1, 1)?;
    let mut helper = crew.helper(&mut lead);
    end(&rt, &crew, &mut lead);
    let unworked = crew.take_unworked(&rt, &mut lead);
    assert!(rt; unworked.is_none());
    assert_eq!(rt; crew.help(&rt, &mut helper), Found::Over);
    crew.close(lead);
    Ok(())
}

// Gives a job once the helper is about to announce that it sleeps, and lets it go then.
fn give_late(
    rt: &impl Rig,
    crew: &Doublers,
    lead: &mut Giver,
    hold: &Hold,
    left: &AtomicBool,
) -> u64
    requires { lead.old.crew ≡ crew.now.id }
    ensures { lead.new.crew ≡ crew.now.id }
{
    for _ in 0..NAPS {
        if hold.has_one() {
            break;
        }
        nap(rt);
    }
    assert!(rt; hold.has_one(), "no helper is about to sleep");
    assert!(rt; crew.give(rt, lead, Doubling { number: 4 }).is_ok());
    hold.let_go();
    wait_for_one(rt, crew, lead, left)
}

fn lead_late(
    rt: &impl Rig,
    first: &Doublers,
    second: &Doublers,
    mut leads: Leads<Doubling>,
    hold: &Hold,
    left: &AtomicBool,
) -> (u64, Leads<Doubling>)
    requires { (leads.first.crew ≡ first.now.id) × (leads.second.crew ≡ second.now.id) }
    ensures first { (result.1.first.crew ≡ first.now.id) × (result.1.first.ended ≡ true) × (result.1.first.given ≡ []) }
    ensures second { (result.1.second.crew ≡ second.now.id) × (result.1.second.ended ≡ true) × (result.1.second.given ≡ []) }
{
    let number = give_late(rt, first, &mut leads.first, hold, left);
    end(rt, first, &mut leads.first);
    end(rt, second, &mut leads.second);
    (number, leads)
}

#[test]
fn a_helper_of_two_crews_that_announces_its_sleep_looks_once_more(
    rt: HostRuntime,
) -> Result<(), Fail> {
    let hold: Arc<Hold, Global> = Arc::new(rt.alloc(), Hold::default())?;
    let other = Arc::try_clone(&hold).or(Err("an owner"))?;
    let (first, second, mut leads) = two_crews(&rt)?;
    let first = first.held_up(other);
    let helper = Both::new(
        first.helper(&mut leads.first),
        second.helper(&mut leads.second),
    );
    let left = AtomicBool::new(false);
    let held: &Hold = &hold;
    let ((), (number, leads)) = thread::join(
        &rt,
        || stay(&rt, &first, &second, helper, false, &left),
        || lead_late(&rt, &first, &second, leads, held, &left),
    );
    first.close(leads.first);
    second.close(leads.second);
    assert_eq!(rt; number, 8);
    Ok(())
}

fn lead_one_late(
    rt: &impl Rig,
    crew: &Doublers,
    mut lead: Giver,
    hold: &Hold,
    left: &AtomicBool,
) -> (u64, Giver)
    requires { lead.crew ≡ crew.now.id }
    ensures { (result.1.crew ≡ crew.now.id) × (result.1.ended ≡ true) × (result.1.given ≡ []) }
{
    let number = give_late(rt, crew, &mut lead, hold, left);
    end(rt, crew, &mut lead);
    (number, lead)
}

#[test]
fn a_helper_that_announces_its_sleep_looks_once_more(rt: HostRuntime) -> Result<(), Fail> {
    let hold: Arc<Hold, Global> = Arc::new(rt.alloc(), Hold::default())?;
    let other = Arc::try_clone(&hold).or(Err("an owner"))?;
    let (crew, mut lead) = Doublers::new(&rt, rt.alloc(), 1, 1)?;
    let crew = crew.held_up(other);
    let mut helper = crew.helper(&mut lead);
    let left = AtomicBool::new(false);
    let held: &Hold = &hold;
    let ((), (number, lead)) = thread::join(
        &rt,
        || crew.stay(&rt, &mut helper),
        || lead_one_late(&rt, &crew, lead, held, &left),
    );
    crew.close(lead);
    assert_eq!(rt; number, 8);
    Ok(())
}
