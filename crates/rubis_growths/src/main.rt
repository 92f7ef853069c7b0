//! Scenarios over the public calls of the crates, to be run with memory refused at one call after another. Each argument names
//! one; they are run in turn. A call that is refused memory is made again, or, if it changes nothing, its scenario is run again.
//! So the answers of the last time are the same in every run, and lines that begin with an exclamation mark tell which call, or
//! which scenario, was refused memory, and what that left.
#![tactic(auto)]

mod audits;
mod intakes;
mod long;
mod peers;
mod records;
mod shards;
mod sites;
mod teams;
mod telling;
mod values;
mod worlds;

use std::process::ExitCode;
use std::{env, io};
use telling::{Host, Stop, TRIES, tell_refused};

// Runs the scenario of that name.
fn run(rt: &impl Host, name: &str) -> Result<(), Stop> {
    match name {
        "every_growth_site" => long::every_growth_site(rt),
        "every_growth_windows" => long::every_growth_windows(rt),
        "every_growth_script" => long::every_growth_script(rt),
        "whole_world" => long::whole_world(rt),
        "whole_audit" => long::whole_audit(rt),
        "fields" => values::fields(rt),
        "records" => values::records(rt),
        "plain_tables" => values::plain_tables(rt),
        "shard" => shards::shard(rt),
        "short_apply" => shards::short_apply(rt),
        "tables" => shards::tables(rt),
        "nine_listings" => shards::nine_listings(rt),
        "batch_in_shares" => shards::batch_in_shares(rt),
        "pool" => teams::pool(rt),
        "schedule_and_board" => teams::schedule_and_board(rt),
        "two_shares_again" => teams::two_shares_again(rt),
        "two_shares_beside" => teams::two_shares_beside(rt),
        "shared_batch" => teams::shared_batch(rt),
        "intake" => intakes::intake(rt),
        "own_messages" => intakes::own_messages(rt),
        "site_request" => sites::site_request(rt),
        "site_cut" => sites::site_cut(rt),
        "site_list" => sites::site_list(rt),
        "site_arrive_all" => sites::site_arrive_all(rt),
        "audit" => audits::audit_of_a_shop(rt),
        "world_calls" => worlds::world_calls(rt),
        "world_behind" => worlds::world_behind(rt),
        _ => Err(Stop::GaveUp),
    }
}

// Runs the scenario of that name, and again where a call that changes nothing was refused memory.
fn run_to_end(rt: &impl Host, name: &str) -> Result<(), Stop> {
    for _ in 0..TRIES {
        let _ = println!(rt; "scenario {name}");
        match run(rt, name) {
            Err(Stop::Refused) => tell_refused(rt, name, true),
            ended => return ended,
        }
    }
    Err(Stop::GaveUp)
}

// Runs scenarios in turn, as long as each comes to its end.
fn run_all(rt: &impl Host, names: &[String]) -> Result<(), Stop> {
    for name in names {
        run_to_end(rt, name)?;
    }
    Ok(())
}

// The arguments, without the program's name.
fn names(rt: &HostRuntime) -> io::Result<Vec<String>> {
    Ok(env::args(rt)?.skip(1).collect(rt.alloc())?)
}

fn main(rt: HostRuntime) -> ExitCode {
    for _ in 0..TRIES {
        match names(&rt) {
            Ok(names) if run_all(&rt, &names).is_ok() => return ExitCode::SUCCESS,
            Ok(_) => break,
            Err(_) => tell_refused(&rt, "args", true),
        }
    }
    let _ = println!(&rt; "? gave up");
    ExitCode::from(1)
}
