//! A test of one crew, whose jobs are given while two helpers work.

ghost use Rattle.std.specs.Prelude.{◌≡◌, true, []};

use crate::two_crews::Doubling;
use rubis_crew::{Crew, Helper, Lead};
use std::sync::Wait;
use std::test::*;
use std::thread;
use std::thread::Threads;

// How many results came back, and their sum.
#[derive(Drop)]
struct Returned {
    count: u32,
    sum: u64,
}

// Counts a result that came back, or that of a job that no helper has taken.
fn count_one<R: Wait>(
    rt: &R,
    crew: &Crew<Doubling>,
    lead: &mut Lead<Doubling>,
    tally: &mut Returned,
)
    requires { lead.old.crew ≡ crew.now.id }
    ensures { lead.new.crew ≡ crew.now.id }
{
    let back = match crew.take_back(rt, lead) {
        Some(back) => Some(back),
        None => crew.work(rt, lead),
    };
    match back {
        Some(back) => {
            tally.count = tally.count.wrapping_add(1);
            tally.sum = tally.sum.wrapping_add(back.result);
        }
        None => thread::yield_now(),
    }
}

// Gives a job, as soon as there is room.
fn give_one<R: Wait>(
    rt: &R,
    crew: &Crew<Doubling>,
    lead: &mut Lead<Doubling>,
    number: u32,
    tally: &mut Returned,
)
    requires { lead.old.crew ≡ crew.now.id }
    ensures { lead.new.crew ≡ crew.now.id }
{
    for _ in rt.forever() {
        if crew.give(rt, lead, Doubling { number }).is_ok() {
            return;
        }
        count_one(rt, crew, lead, tally);
    }
}

// Gives that many jobs, and counts their results until all are back.
fn give_all<R: Wait>(
    rt: &R,
    crew: &Crew<Doubling>,
    mut lead: Lead<Doubling>,
    jobs: u32,
) -> (Returned, Lead<Doubling>)
    requires { lead.crew ≡ crew.now.id }
    ensures { (result.1.crew ≡ crew.now.id) × (result.1.ended ≡ true) × (result.1.given ≡ []) }
{
    let mut tally = Returned { count: 0, sum: 0 };
    for number in 0..jobs {
        give_one(rt, crew, &mut lead, number, &mut tally);
    }
    for _ in rt.forever() {
        if lead.out() == 0 {
            break;
        }
        count_one(rt, crew, &mut lead, &mut tally);
    }
    crew.end(rt, &mut lead);
    (tally, lead)
}

// Two helpers at work, until no more jobs come.
fn help_both<R: Threads + Wait + Sync>(
    rt: &R,
    crew: &Crew<Doubling>,
    mut first: Helper<Doubling>,
    mut second: Helper<Doubling>,
)
    requires first { (first.crew ≡ crew.now.id) × (first.paid ≡ first.taken) }
    requires second { (second.crew ≡ crew.now.id) × (second.paid ≡ second.taken) }
{
    thread::join(
        rt,
        move ||
            requires { (first.crew ≡ crew.now.id) × (first.paid ≡ first.taken) }
        { crew.stay(rt, &mut first) },
        move ||
            requires { (second.crew ≡ crew.now.id) × (second.paid ≡ second.taken) }
        { crew.stay(rt, &mut second) },
    );
}

#[test]
fn each_result_comes_back_once(rt: HostRuntime) -> Result<(), Fail> {
    let (crew, mut lead) = Crew::<Doubling>::new(&rt, rt.alloc(), 8, 2)?;
    let mut first = crew.helper(&mut lead);
    let second = crew.another(&mut first);
    let ((), (tally, lead)) = thread::join(
        &rt,
        || help_both(&rt, &crew, first, second),
        || give_all(&rt, &crew, lead, 1000),
    );
    let jobs = crew.close(lead);
    assert_eq!(rt; (jobs, tally.count, tally.sum), (1000, 1000, 999_000));
    Ok(())
}
