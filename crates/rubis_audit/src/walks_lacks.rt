//! What a log lacks of others.

ghost use Rattle.std.specs.Prelude.{◌≡◌, ◌<◌, ◌≤◌, ◌+◌, ◌++◌, ◌∷◌, [], List, IfOk, OnOk, length, map, nat_lt, reverse, slice_index};
ghost use Rattle.rubis_schema.specs.declared.limits.TheConstants.{COUNTED_MAX};
ghost use Rattle.rubis_message.specs.Message.{IsMessage, sites_of};
ghost use Rattle.rubis_model.specs.Audit.{AreFaultless};
ghost use Rattle.rubis_model.specs.Lack as lack;
ghost use Rattle.rubis_model.specs.Verdict as model;
ghost use Rattle.rubis_model.specs.System.{Released};
ghost use Rattle.rubis_model.specs.Site.{Has};
ghost use Rattle.rubis_release.specs.Release.{AllAmong, clock_of};
ghost use Rattle.rubis_audit.specs.Walks.{HavePassed, IsMerged, HaveMessagesAmong};

use crate::logs::Log;
use rubis_clock::Clock;
use rubis_message::Message;
use std::alloc::{AllocError, Global};
use std::ops::Deref;

// Whether the message comes after those of its origin that the clock counts.
fn is_new(clock: &Clock, message: &Message) -> bool
    requires { sites_of message.now ≡ length clock.now.counts }
    ensures conditions { IsMessage message.now }
    ensures new { result ≡ nat_lt (slice_index clock.now.counts message.now.stamp.id.site) message.now.stamp.id.seq }
{
    clock.count(message.id().site) < message.id().seq
}

// Puts a message last.
fn put_last<'a>(list: &mut Vec<&'a Message>, message: &'a Message) -> Result<(), AllocError>
    ensures { OnOk result (map (λ m. m.now) list.new.items ≡ map (λ m. m.now) list.old.items ++ message.now ∷ []) }
{
    if list.push(message).is_err() {
        return Err(AllocError);
    }
    Ok(())
}

// Puts the messages of the log at that place that aren't there last, in their order.
fn merge_log<'a>(
    sites: u8,
    logs: &'a [Log],
    at: usize,
    clock: &mut Clock,
    merged: &mut Vec<&'a Message>,
) -> Result<(), AllocError>
    requires place { at < length logs.now }
    requires passed { HavePassed sites logs.now }
    requires so_far { IsMerged sites logs.now at (map (λ m. m.now) merged.old.items) clock.old }
    ensures { OnOk result (IsMerged sites logs.now (at + 1) (map (λ m. m.now) merged.new.items) clock.new) }
{
    let log = &logs[at];
    for shared in log.messages() {
        let message = shared.deref();
        if is_new(clock, message) {
            put_last(merged, message)?;
            message.count_in(clock);
        }
    }
    Ok(())
}

/// The messages of logs that pass the checks together, one log after the other and each in its order, without those that
/// came before. Each counts `sites` sites and belongs to one of them.
///
/// # Errors
///
/// `AllocError` if memory runs out.
pub fn merge<'a>(alloc: Global, sites: u8, logs: &'a [Log]) -> Result<Vec<&'a Message>, AllocError>
    requires few { sites ≤ COUNTED_MAX }
    requires among { HaveMessagesAmong sites logs.now }
    requires faultless { AreFaultless logs.now }
    ensures merged { IfOk result (λ messages. map (λ m. m.now) messages.items ≡ lack.merged logs.now) }
    ensures among { IfOk result (λ messages. AllAmong sites (map (λ m. m.now) messages.items)) }
{
    let mut clock = Clock::new(sites);
    let mut merged = Vec::new(alloc);
    for at in 0..logs.len() {
        merge_log(sites, logs, at, &mut clock, &mut merged)?;
    }
    Ok(merged)
}

// The clock that counts the log.
fn clock_of(sites: u8, log: &Log) -> Clock
    requires few { sites ≤ COUNTED_MAX }
    requires among { AllAmong sites log.now.messages }
    requires released { Released (reverse log.now.messages) }
    ensures { result ≡ clock_of sites log.now.messages }
{
    let mut clock = Clock::new(sites);
    for message in log.messages() {
        message.count_in(&mut clock);
    }
    clock
}

/// What a log of these, which pass the checks together, lacks of the merged ones, in their order.
///
/// # Errors
///
/// `AllocError` if memory runs out.
pub fn lacked<'a>(
    alloc: Global,
    sites: u8,
    log: &Log,
    all: &[&'a Message],
) -> Result<Vec<&'a Message>, AllocError>
    requires few { sites ≤ COUNTED_MAX }
    requires among { AllAmong sites log.now.messages }
    requires released { Released (reverse log.now.messages) }
    requires sites { AllAmong sites (map (λ m. m.now) all.now) }
    ensures { IfOk result (λ messages. (logs : List model.Log) → AreFaultless logs → Has log.now logs → map (λ m. m.now) all.now ≡ lack.merged logs
        → map (λ m. m.now) messages.items ≡ lack.lacked logs log.now.messages) }
{
    let clock = clock_of(sites, log);
    let mut messages = Vec::new(alloc);
    for message in all {
        if is_new(&clock, message) {
            put_last(&mut messages, message)?;
        }
    }
    Ok(messages)
}
