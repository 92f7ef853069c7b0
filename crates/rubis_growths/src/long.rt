//! Long scenarios: two hundred messages out of order and three listings, and whole runs of several sites and of an auditor.

use crate::peers::Peer;
use crate::records::{MESSAGES, all_records, window};
use crate::sites::peer_with;
use crate::telling::{Host, Stop, tell_rows};
use rubis_audit::run_audit;
use rubis_schema::Listing;
use rubis_tests::records::LATE_BID;
use rubis_world::{Config, Count, RunFault, WorldConfig, run_site, run_world};
use std::io;

/// How many messages arrive together, and how many make a batch.
const WINDOW: u32 = 7;

// Lists the tables, the log and the misfits.
fn list_three(rt: &impl Host, peer: &mut Peer) -> Result<(), Stop> {
    let mut number = MESSAGES;
    for listing in [Listing::Tables, Listing::Log, Listing::Misfits] {
        number = number.saturating_add(1);
        tell_rows(rt, number, &peer.list(rt, &listing)?);
    }
    Ok(())
}

/// The messages arrive one by one.
pub fn every_growth_site(rt: &impl Host) -> Result<(), Stop> {
    let mut peer = peer_with(rt, WINDOW, MESSAGES)?;
    list_three(rt, &mut peer)
}

/// The messages arrive in windows.
pub fn every_growth_windows(rt: &impl Host) -> Result<(), Stop> {
    let mut peer = Peer::new(rt, WINDOW)?;
    for turn in 0..MESSAGES.div_ceil(WINDOW) {
        let from = turn.saturating_mul(WINDOW);
        let to = MESSAGES.min(from.saturating_add(WINDOW));
        let arriving = window(rt.alloc(), from, to)?;
        peer.arrive_all(rt, arriving, from.saturating_add(1))?;
    }
    list_three(rt, &mut peer)
}

// Tells of the fault that ended a run.
fn tell_end(rt: &impl Host, ended: Result<Count, RunFault>) -> Result<(), Stop> {
    if let Err(fault) = ended {
        let _ = println!(rt; "! run fault: {fault}");
    }
    Ok(())
}

/// A run over the same records.
pub fn every_growth_script(rt: &impl Host) -> Result<(), Stop> {
    let config = Config::new(1, 2, 5, 4, WINDOW, 1000).ok_or(Stop::GaveUp)?;
    let records = all_records(rt.alloc())?;
    let (records, mut writer) = (records.as_bytes(), io::writer(rt));
    let ended = run_site(rt, rt.alloc(), records, &mut writer, &config);
    tell_end(rt, ended)
}

/// A run of two sites, with batches of two messages.
pub fn whole_world(rt: &impl Host) -> Result<(), Stop> {
    let config = WorldConfig::new(2, 5, 4, 2, 1000).ok_or(Stop::GaveUp)?;
    let ended = run_world(rt, rt.alloc(), LATE_BID, &mut io::writer(rt), &config);
    tell_end(rt, ended)
}

// The log of a sale.
const SALE: &[u8] = b"\
site,0
msg,1,0,1,1,0:0,user,ann
msg,1,0,2,2,1:0,user,bob
msg,1,0,3,0,2:0,item,0.1,cup,9,3,50,80
msg,1,0,4,3,3:0,bid,0.3,0.2,60
msg,1,0,5,4,4:0,close,0.3,9,0.4
";

/// An audit of the log of a sale.
pub fn whole_audit(rt: &impl Host) -> Result<(), Stop> {
    tell_end(rt, run_audit(rt.alloc(), SALE, &mut io::writer(rt), 2))
}
