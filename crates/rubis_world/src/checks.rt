//! What an auditor says of the sites of a world.

ghost use Rattle.std.specs.Prelude.{◌≡◌, ◌<◌, ◌≤◌, IfErr, IfOk, Err, Some, ℕ, false, length, true};
ghost use Rattle.rubis_schema.specs.declared.limits.TheConstants.{SITES_MAX};
ghost use Rattle.rubis_model.specs.Verdict.{verdict};
ghost use Rattle.rubis_model.specs.WorldRecords.{log_of, logs_of};
ghost use Rattle.rubis_audit.specs.Walks.{HaveMessagesAmong};
ghost use Rattle.rubis_script.specs.Replica.fault_variants as Fault;
ghost use Rattle.rubis_world.specs.Worlds.{ComesToWorld, left_behind, IsCheckFault, SomeBehind};
ghost use Rattle.rubis_world.specs.declared.faults.WorldFault.TheVariants as WorldFault;

use crate::faults::WorldFault;
use crate::sites::Sites;
use rubis_audit::{Log, MessagePool, audit_hashed};
use rubis_message::{Happened, Verdict};
use rubis_schema::{Fields, Hashes, Items, Listing};
use rubis_script::Fault;
use std::alloc::{AllocError, Global};
use std::sync::Wait;
use std::thread::Threads;

// Whether some site has begun a batch that isn't whole.
fn some_behind(sites: &Sites) -> bool
    ensures some { result ≡ true → SomeBehind sites.now }
    ensures none { result ≡ false → (i : ℕ) → i < length sites.now.world.sites → left_behind sites.now i ≡ 0 }
{
    'places: for site in 0..sites.len() {
        if sites.is_behind(site) {
            return true;
        }
    }
    false
}

// The rows of a site's tables.
fn tables<R: Threads + Wait + Sync>(
    rt: &R,
    sites: &mut Sites,
    site: usize,
) -> Result<Items<Fields>, WorldFault>
    requires { site < length sites.old.world.sites }
    ensures same { ComesToWorld sites.old sites.new sites.old.world }
    ensures rows { IfOk result (λ rows. Some rows ≡ (log_of sites.old.world site).rows) }
    ensures faults { IfErr result (IsCheckFault sites.new) }
{
    if sites.is_behind(site) {
        return Err(WorldFault::Site(Fault::Behind));
    }
    match sites.list(rt, site, &Listing::Tables)? {
        Happened::Rows(rows) => Ok(rows),
        _ => unreachable!(),
    }
}

// The log of a site, with its tables.
fn log<R: Threads + Wait + Sync>(
    rt: &R,
    pool: &mut MessagePool,
    sites: &mut Sites,
    site: u8,
) -> Result<Log, WorldFault>
    requires { site < length sites.old.world.sites }
    ensures same { ComesToWorld sites.old sites.new sites.old.world }
    ensures log { IfOk result (λ log. log ≡ log_of sites.old.world site) }
    ensures faults { IfErr result (IsCheckFault sites.new) }
{
    let rows = tables(rt, sites, usize::from(site))?;
    let messages = pool.share_all(sites.history(usize::from(site)))?;
    Ok(Log::new(site, messages, Some(rows)))
}

// The logs of all sites, each with its tables.
fn logs<R: Threads + Wait + Sync>(
    rt: &R,
    alloc: Global,
    sites: &mut Sites,
) -> Result<Vec<Log>, WorldFault>
    requires { length sites.old.world.sites ≤ SITES_MAX }
    ensures same { ComesToWorld sites.old sites.new sites.old.world }
    ensures logs { IfOk result (λ logs. logs.items ≡ logs_of sites.old.world) }
    ensures faults { IfErr result (IsCheckFault sites.new) }
{
    let mut pool = MessagePool::new(alloc);
    let mut logs = Vec::new(alloc);
    'places: for site in 0..sites.len() as u8 {
        logs.push(log(rt, &mut pool, sites, site)?)?;
    }
    Ok(logs)
}

/// The auditor's verdict on the logs of all sites, each with its tables. The auditor hashes by `hashes`.
pub fn check<R: Threads + Wait + Sync>(
    rt: &R,
    alloc: Global,
    sites: &mut Sites,
    hashes: Hashes,
) -> Result<Verdict, WorldFault>
    requires few { length sites.old.world.sites ≤ SITES_MAX }
    requires among { HaveMessagesAmong (length sites.old.world.sites) (logs_of sites.old.world) }
    ensures same { ComesToWorld sites.old sites.new sites.old.world }
    ensures verdict { IfOk result (λ found. found ≡ verdict (logs_of sites.old.world)) }
    ensures waits { (i : ℕ) → i < length sites.old.world.sites → 0 < left_behind sites.old i → (result ≡ Err (WorldFault.Site Fault.Behind))
        × (sites.new ≡ sites.old) }
    ensures faults { IfErr result (IsCheckFault sites.new) }
{
    if some_behind(sites) {
        return Err(WorldFault::Site(Fault::Behind));
    }
    let logs = logs(rt, alloc, sites)?;
    Ok(audit_hashed(alloc, &logs, sites.len() as u8, hashes)?)
}
