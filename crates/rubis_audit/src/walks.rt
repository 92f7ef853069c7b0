//! The walk over a log, entry by entry.

ghost use Rattle.std.specs.Prelude.{◌≡◌, ◌<◌, ◌≤◌, [], List, None, IfOk, OnOk, length, option_copied, option_map, take};
ghost use Rattle.rubis_schema.specs.declared.limits.TheConstants.{COUNTED_MAX};
ghost use Rattle.rubis_clock.specs.Clocks.{IsReady, opening_clock};
ghost use Rattle.rubis_message.specs.Message as model;
ghost use Rattle.rubis_message.specs.Message.{IsMessage, sites_of};
ghost use Rattle.rubis_model.specs.Verdict.{first_of};
ghost use Rattle.rubis_shard.specs.Holdings.{HoldsLog, union};
ghost use Rattle.rubis_audit.specs.Walks.{checks_by, Sees, id_in, HaveMessagesAmong, IsWalked, TakesEntry, Walked};

use crate::contents::{nick_taken, stock_short, wrong_reference, wrong_winner};
use crate::logs::Log;
use crate::rows::wrong_rows;
use crate::seen::Seen;
use crate::stamps::{clashes, leaves_gap, out_of_order};
use rubis_clock::Clock;
use rubis_message::{Kind, Message};
use rubis_schema::Hashes;
use rubis_shadow::Colour;
use rubis_shard::{LogEntry, Tables};
use std::alloc::{AllocError, Global};
use std::ops::Deref;

// What stands before an entry of a log: its clock, its last red message, its tables.
#[derive(Drop)]
struct Past<'a> {
    clock: Clock,
    last_red: Option<&'a Message>,
    tables: Tables,
}

impl<'a> Past<'a> {
    // Nothing stands before it.
    fn new(alloc: Global, sites: u8, hashes: Hashes) -> Result<Past<'a>, AllocError>
        requires { sites ≤ COUNTED_MAX }
        ensures { IfOk result (λ past. (past.clock ≡ opening_clock sites) × (option_copied past.last_red ≡ None) × HoldsLog 1 [] past.tables) }
    {
        Ok(Past {
            clock: Clock::new(sites),
            last_red: None,
            tables: Tables::hashed(alloc, 1, hashes)?,
        })
    }

    // The first fault of the next entry of a log of that site, where `known` has its id.
    fn fault_of(&self, site: u8, seen: &Seen, known: Option<&Message>, v: &Message) -> Option<Kind>
        requires sites { sites_of v.now ≡ length self.now.clock.counts }
        requires known { option_copied known ≡ id_in seen.now v.now.stamp.id }
        ensures conditions { IsMessage v.now }
        ensures fault { (all : List model.Message) → Sees seen.now all
            → result ≡ first_of (checks_by site self.now.clock (option_copied self.now.last_red) (union self.now.tables) all v.now) }
    {
        let shadow = v.shadow();
        if clashes(known, v) {
            Some(Kind::Clash)
        } else if out_of_order(site, seen, &self.clock, v) {
            Some(Kind::Order)
        } else if leaves_gap(seen, &self.clock, self.last_red, v) {
            Some(Kind::RedGap)
        } else if wrong_reference(&self.tables, v) {
            Some(Kind::Refers)
        } else if nick_taken(&self.tables, shadow) {
            Some(Kind::Nick)
        } else if stock_short(&self.tables, shadow) {
            Some(Kind::Stock)
        } else if wrong_winner(&self.tables, shadow) {
            Some(Kind::Winner)
        } else {
            None
        }
    }

    // Puts a message last, as that entry.
    fn take(&mut self, entry: u32, v: &'a Message) -> Result<(), AllocError>
        requires origin { v.now.stamp.id.site < length self.old.clock.counts }
        requires ready { IsReady self.old.clock v.now.stamp }
        requires some { 0 < length self.old.tables }
        ensures { OnOk result (TakesEntry v.now entry self.old self.new) }
    {
        self.tables.apply_message(&LogEntry::new(entry, v))?;
        v.count_in(&mut self.clock);
        if v.shadow().colour() == Colour::Red {
            self.last_red = Some(v);
        }
        Ok(())
    }
}

/// Walks over the log at that place, where those before it were walked over: its first fault, if it has one, by kind and
/// entry.
///
/// # Errors
///
/// `AllocError` if memory runs out.
pub fn walk<'a>(
    alloc: Global,
    seen: &mut Seen<'a>,
    logs: &'a [Log],
    at: usize,
    sites: u8,
) -> Result<Option<(Kind, usize)>, AllocError>
    requires place { at < length logs.now }
    requires few { sites ≤ COUNTED_MAX }
    requires among { HaveMessagesAmong sites logs.now }
    requires walked { Walked seen.old (take at logs.now) }
    ensures { IfOk result (λ found. IsWalked seen.new logs.now at (option_map (λ p. (p.0, p.1)) found)) }
{
    let log = &logs[at];
    if log.is_nothing() {
        return Ok(None);
    }
    let mut past = Past::new(alloc, sites, seen.hashes)?;
    for (n, shared) in log.messages().iter().enumerate() {
        let v = shared.deref();
        let known = seen.with_id(v.id());
        if let Some(kind) = past.fault_of(log.site(), seen, known, v) {
            return Ok(Some((kind, n + 1)));
        }
        past.take((n + 1) as u32, v)?;
        seen.note(known, v)?;
    }
    if wrong_rows(alloc, log, &past.tables)? {
        return Ok(Some((Kind::Rows, 0)));
    }
    Ok(None)
}
