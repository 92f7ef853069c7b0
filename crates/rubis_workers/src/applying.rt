//! Batches of a log, applied to tables as far as memory goes.

ghost use Rattle.std.specs.Prelude.{◌≡◌, ℕ, List, ◌+◌, ◌<◌, ◌≤◌, length, map as each, slice_index, take, true, OnOk, OnErr};
ghost use Rattle.std.specs.Vec.{vec_capacity};
ghost use Rattle.rubis_schema.specs.declared.limits.TheConstants.{KEEP_MAX, WORKERS_MAX};
ghost use Rattle.rubis_shard.specs.Holdings.{IsSet};
ghost use Rattle.rubis_shard.specs.States.{ShardState};
ghost use Rattle.rubis_workers.specs.Logs.{AppliesTo, AppliesWhole, IsPending, WereFolded};

use crate::folding::apply_upto;
use crate::following::{Followed, follow_by_team};
use crate::gate::Gate;
use crate::task::FollowBatch;
use crate::workers::{LogBatch, TeamSetup, Workers};
use rubis_pieces::{CountedShards, homes_of};
use rubis_schema::Items;
use rubis_shard::{Shard, Tables};
use std::alloc::AllocError;
use std::sync::Wait;
use std::thread::Threads;

/// Tables of shards that came from tables.
pub fn again(shards: Items<Shard>) -> Tables
    requires { IsSet shards }
    ensures { result ≡ shards }
{
    match Tables::from_shards(shards.into()) {
        Ok(tables) => tables,
        Err(_) => unreachable!(),
    }
}

/// Notes that each of the shards stands at message `at`.
pub fn stop_all(stops: &mut Vec<usize>, shards: usize, at: usize)
    requires room { shards ≤ vec_capacity stops.old }
    ensures many { length stops.new.items ≡ shards }
    ensures at { (k : ℕ) → k < shards → slice_index stops.new.items k ≡ at }
    ensures room { vec_capacity stops.new ≡ vec_capacity stops.old }
{
    stops.clear();
    for _ in 0..shards {
        stops.push_reserved(at);
    }
}

/// Notes where each shard stands in a batch after message `from`, by how many of its messages are done there. Returns whether all
/// `messages` of it are done on each.
pub fn stop_each(stops: &mut Vec<usize>, dones: &[usize], from: usize, messages: usize) -> bool
    requires room { length dones.now ≤ vec_capacity stops.old }
    requires within { (k : ℕ) → k < length dones.now → slice_index dones.now k ≤ messages }
    requires few { from + messages ≤ KEEP_MAX }
    ensures stops { stops.new.items ≡ each (λ d. from + d) dones.now }
    ensures whole { result ≡ true → (k : ℕ) → k < length dones.now → slice_index dones.now k ≡ messages }
    ensures room { vec_capacity stops.new ≡ vec_capacity stops.old }
{
    stops.clear();
    let mut whole = true;
    for at in 0..dones.len() {
        stops.push_reserved(from + dones[at]);
        if dones[at] != messages {
            whole = false;
        }
    }
    whole
}

/// Applies a batch of a log on the caller's thread, which takes each shard first, as far as memory goes. On an error `stops` says how
/// far each shard stands.
pub fn apply_alone<G: Gate>(
    tables: &mut Tables,
    batch: &LogBatch,
    stops: &mut Vec<usize>,
    gate: &G,
) -> Result<(), AllocError>
    requires few { length batch.now.log.now ≤ KEEP_MAX }
    requires within { batch.now.upto ≤ length batch.now.log.now }
    requires on { batch.now.from ≤ batch.now.upto }
    requires some { 0 < length tables.old }
    requires room { length tables.old ≤ vec_capacity stops.old }
    ensures ok { OnOk result (AppliesWhole batch.now.log.now batch.now.from batch.now.upto tables.old tables.new) }
    ensures err { OnErr result (AppliesTo batch.now.log.now batch.now.from batch.now.upto tables.old tables.new stops.new.items) }
    ensures room { vec_capacity stops.new ≡ vec_capacity stops.old }
{
    let shards = tables.len();
    for number in 0..shards {
        gate.taken(number);
    }
    let mut at = batch.from;
    if apply_upto(tables, batch.log, &mut at, batch.upto).is_ok() {
        return Ok(());
    }
    stop_all(stops, shards, at);
    Err(AllocError)
}

/// Puts the shards of tables back: those on which a batch of a log was folded, as far as memory went, or those for which there was no room to
/// begin. On an error `stops` says how far each stands.
pub fn put_back(
    tables: &mut Tables,
    batch: &LogBatch,
    folded: Result<CountedShards, Items<Shard>>,
    stops: &mut Vec<usize>,
) -> Result<(), AllocError>
    requires batch { IsPending batch.now.log.now batch.now.from batch.now.upto }
    requires folded { (ss : List ShardState) × WereFolded batch.now.log.now batch.now.from batch.now.upto ss folded × (length ss ≤ vec_capacity stops.old) }
    ensures ok { (ss : List ShardState) → WereFolded batch.now.log.now batch.now.from batch.now.upto ss folded
        → OnOk result (AppliesWhole batch.now.log.now batch.now.from batch.now.upto ss tables.new) }
    ensures err { (ss : List ShardState) → WereFolded batch.now.log.now batch.now.from batch.now.upto ss folded
        → OnErr result (AppliesTo batch.now.log.now batch.now.from batch.now.upto ss tables.new stops.new.items) }
    ensures room { vec_capacity stops.new ≡ vec_capacity stops.old }
{
    let LogBatch { log: _, from, upto } = *batch;
    match folded {
        Ok(counted) => {
            let CountedShards { shards, dones } = counted;
            *tables = again(shards);
            if stop_each(stops, dones.as_slice(), from, upto - from) {
                Ok(())
            } else {
                Err(AllocError)
            }
        }
        Err(back) => {
            stop_all(stops, back.len(), from);
            *tables = again(back);
            Err(AllocError)
        }
    }
}

// Applies a batch of a log by a team of at most that many threads, straight from its messages.
fn apply_together<G: Gate, R: Threads + Wait + Sync>(
    rt: &R,
    workers: &mut Workers<G>,
    threads: usize,
    tables: &mut Tables,
    batch: &LogBatch,
    stops: &mut Vec<usize>,
) -> Result<(), AllocError>
    requires few { length batch.now.log.now ≤ KEEP_MAX }
    requires within { batch.now.upto ≤ length batch.now.log.now }
    requires pending { batch.now.from < batch.now.upto }
    requires some { 0 < length tables.old }
    requires shards { length tables.old ≤ 255 }
    requires threads { (0 < threads) × (threads ≤ WORKERS_MAX) }
    requires room { length tables.old ≤ vec_capacity stops.old }
    ensures ok { OnOk result (AppliesWhole batch.now.log.now batch.now.from batch.now.upto tables.old tables.new) }
    ensures err { OnErr result (AppliesTo batch.now.log.now batch.now.from batch.now.upto tables.old tables.new stops.new.items) }
    ensures room { vec_capacity stops.new ≡ vec_capacity stops.old }
    ensures most { workers.new.most ≡ workers.old.most }
{
    let LogBatch { log, from, upto } = *batch;
    let messages = &log[from..upto];
    let shards = tables.len();
    let Ok(homes) = homes_of(workers.alloc, messages, shards) else {
        stop_all(stops, shards, from);
        return Err(AllocError);
    };
    let task = FollowBatch {
        batch: messages,
        homes: &homes,
        first: from as u32 + 1,
    };
    let setup = TeamSetup {
        most: threads,
        gate: &*workers.gate,
        alloc: workers.alloc,
    };
    match follow_by_team(rt, &setup, tables.take(), &task) {
        Ok(followed) => {
            let Followed {
                counted,
                team,
                others,
            } = followed;
            let each = (upto - from) / shards;
            workers.pace.learn(team - 1, each.saturating_mul(others));
            put_back(tables, batch, Ok(counted), stops)
        }
        Err(back) => put_back(tables, batch, Err(back), stops),
    }
}

/// Applies a batch of a log, as far as memory goes, by as many of the workers as their pace says. Where that is one thread, the
/// caller's takes each shard, and folds message after message; else a team takes the shards, and folds straight from the messages
/// on each. Either way the gate is called for each shard. On an error `stops` says how far each shard stands. A log has at most
/// 1,000,000 messages.
pub fn apply_batch<G: Gate, R: Threads + Wait + Sync>(
    rt: &R,
    workers: &mut Workers<G>,
    tables: &mut Tables,
    batch: &LogBatch,
    stops: &mut Vec<usize>,
) -> Result<(), AllocError>
    requires few { length batch.now.log.now ≤ KEEP_MAX }
    requires within { batch.now.upto ≤ length batch.now.log.now }
    requires on { batch.now.from ≤ batch.now.upto }
    requires some { 0 < length tables.old }
    requires shards { length tables.old ≤ 255 }
    requires workers { (0 < workers.old.most) × (workers.old.most ≤ WORKERS_MAX) }
    requires room { length tables.old ≤ vec_capacity stops.old }
    ensures ok { OnOk result (AppliesWhole batch.now.log.now batch.now.from batch.now.upto tables.old tables.new) }
    ensures err { OnErr result (AppliesTo batch.now.log.now batch.now.from batch.now.upto tables.old tables.new stops.new.items) }
    ensures room { vec_capacity stops.new ≡ vec_capacity stops.old }
    ensures most { workers.new.most ≡ workers.old.most }
{
    let messages = batch.upto - batch.from;
    if messages == 0 {
        return Ok(());
    }
    let most = usize::from(workers.most);
    let threads = workers.pace.threads(most, tables.len(), messages);
    if threads == 1 {
        workers.pace.rest(messages);
        return apply_alone(tables, batch, stops, &*workers.gate);
    }
    apply_together(rt, workers, threads, tables, batch, stops)
}
