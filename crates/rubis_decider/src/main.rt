//! Reads lists of steps of shops, each behind a line `Files` or `Server`, and says of each whether it is a run of the model: `run`, or the
//! number of the first step that may not happen, counted from 1.
#![tactic(auto)]

mod lines;

use anyhow::{Result, bail};
use lines::read_event;
use rubis_carrier::{Carrier, ShopEvent as Event};
use rubis_steps::decide;
use std::alloc::Global;
use std::io::{BufRead, BufReader};

// Says what a list is, if it is one.
fn tell(rt: &impl Print, alloc: Global, carrier: Option<Carrier>, events: &[Event]) -> Result<()> {
    let Some(carrier) = carrier else {
        return Ok(());
    };
    match decide(alloc, carrier, events)? {
        None => println!(rt; "run")?,
        Some(at) => println!(rt; "{}", at as u64 + 1)?,
    }
    Ok(())
}

fn carrier_of(line: &str) -> Option<Carrier> {
    match line {
        "Files" => Some(Carrier::Files),
        "Server" => Some(Carrier::Server),
        _ => None,
    }
}

fn main(rt: HostRuntime) -> Result<()> {
    let alloc = rt.alloc();
    let (mut carrier, mut events) = (None, Vec::new(alloc));
    for line in BufReader::new(alloc, rt.reader())?.lines(alloc) {
        let line = line?;
        if let Some(next) = carrier_of(&line) {
            tell(&rt, alloc, carrier, &events)?;
            carrier = Some(next);
            events.clear();
            continue;
        }
        match read_event(alloc, &line)? {
            Some(event) if carrier.is_some() => events.push(event)?,
            _ => bail!("{line} is no step, or stands before `Files` or `Server`"),
        }
    }
    tell(&rt, alloc, carrier, &events)
}
