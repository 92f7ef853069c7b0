//! A batch of messages cut into a share for each shard.

ghost use Rattle.std.specs.Prelude.{◌≡◌, ℕ, ◌+◌, ◌*◌, ◌<◌, ◌≤◌, List, ◌∷◌, [], ◌++◌, length, IfOk, OnOk};
ghost use Rattle.rubis_schema.specs.declared.limits.TheConstants.{KEEP_MAX};
ghost use Rattle.rubis_shadow.specs.declared.numbered.Numbered.{Numbered};
ghost use Rattle.rubis_model.specs.Log.{cores};
ghost use Rattle.rubis_shard.specs.Holdings.{numbered_of};
ghost use Rattle.rubis_pieces.specs.Batches.{AreDealt, AreOfParts, AreShares, batch_part};

use rayon::prelude::*;
use rubis_message::Message;
use rubis_schema::{Items, shard_of};
use rubis_shadow::Numbered;
use rubis_shard::{LogEntry, Share};
use std::alloc::{AllocError, Global};
use std::mem;
use std::thread::Threads;

/// From this many messages on, several threads make the shares of a batch.
pub const SPLIT_MIN: usize = 2_048;

// How many messages a thread cuts into shares at a time.
const PART: usize = 1_024;

// The room that a share begins with, for each message: most messages have two parts, and their homes are spread unevenly.
const PARTS_ROOM: usize = 3;

// Puts a part last in the share of its home.
fn deal(list: &mut Vec<Share>, part: Numbered) -> Result<(), AllocError>
    requires { 0 < length list.old.items }
    ensures many { length list.new.items ≡ length list.old.items }
    ensures dealt { OnOk result ((ns : List Numbered) → AreDealt (length list.old.items) ns list.old.items
        → AreDealt (length list.old.items) (ns ++ part ∷ []) list.new.items) }
{
    let at = shard_of(&part.effect.key, list.len());
    list[at].effects.push(part)?;
    Ok(())
}

// Puts each part of a message last in the share of its home.
fn deal_message(list: &mut Vec<Share>, entry: &LogEntry<'_>) -> Result<(), AllocError>
    requires { 0 < length list.old.items }
    ensures many { length list.new.items ≡ length list.old.items }
    ensures dealt { OnOk result ((ns : List Numbered) → AreDealt (length list.old.items) ns list.old.items
        → AreDealt (length list.old.items) (ns ++ numbered_of entry.now) list.new.items) }
{
    for place in 0..3 {
        let Some(effect) = entry.shadow.effect(entry.id, entry.red, place) else {
            continue;
        };
        let effect = effect.own(*list.allocator())?;
        deal(
            list,
            Numbered {
                entry: entry.number,
                part: place + 1,
                id: entry.id,
                effect,
            },
        )?;
    }
    Ok(())
}

// Shares without parts, one for each shard, in order of number, each with room for so many.
fn no_shares(alloc: Global, shards: usize, room: usize) -> Result<Vec<Share>, AllocError>
    ensures { IfOk result (λ shares. AreDealt shards [] shares.items) }
{
    let mut list = Vec::with_capacity(alloc, shards)?;
    for number in 0..shards {
        list.push(Share {
            number,
            effects: Items::from(Vec::with_capacity(alloc, room)?),
        })?;
    }
    Ok(list)
}

/// The shares of a batch, as `split` gives them, made by the caller's thread alone.
///
/// # Errors
///
/// `AllocError` if memory runs out.
pub fn split_alone(
    alloc: Global,
    batch: &[Message],
    first: u32,
    shards: usize,
) -> Result<Vec<Share>, AllocError>
    requires shards { 0 < shards }
    requires entries { first + length batch.now ≤ KEEP_MAX + 1 }
    ensures { IfOk result (λ shares. AreShares shards first (cores batch.now) shares.items) }
{
    let mut list = no_shares(alloc, shards, batch.len() / shards * PARTS_ROOM)?;
    let mut entry = first;
    for message in batch {
        deal_message(&mut list, &LogEntry::new(entry, message))?;
        entry += 1;
    }
    Ok(list)
}

// The shares of one part of a batch: of at most PART messages, from place `at` times PART on.
fn split_part(
    alloc: Global,
    batch: &[Message],
    first: u32,
    shards: usize,
    at: usize,
) -> Result<Vec<Share>, AllocError>
    requires shards { 0 < shards }
    requires entries { first + length batch.now ≤ KEEP_MAX + 1 }
    requires place { at * 1024 ≤ length batch.now }
    ensures { IfOk result (λ shares. AreShares shards (first + at * 1024) (batch_part (at * 1024) (cores batch.now)) shares.items) }
{
    let from = at * PART;
    let rest = &batch[from..];
    split_alone(
        alloc,
        &rest[..PART.min(rest.len())],
        first + from as u32,
        shards,
    )
}

// The shares of all parts of a batch, each made by one of as many threads as there are processors.
fn split_parts<R: Threads + Sync>(
    rt: &R,
    alloc: Global,
    batch: &[Message],
    first: u32,
    shards: usize,
) -> Result<Vec<Vec<Share>>, AllocError>
    requires shards { 0 < shards }
    requires entries { first + length batch.now ≤ KEEP_MAX + 1 }
    ensures { IfOk result (λ parts. AreOfParts shards first (cores batch.now) parts.items) }
{
    let parts: Result<Vec<Vec<Share>>, AllocError> = (0..batch.len() / PART + 1)
        .into_par_iter()
        .with_min_len(1)
        .map(
            |at: usize| -> Result<Vec<Share>, AllocError>
                requires { (0 < shards) × (first + length batch.now ≤ KEEP_MAX + 1) × (at * 1024 ≤ length batch.now) }
                ensures { IfOk result (λ shares. AreShares shards (first + at * 1024) (batch_part (at * 1024) (cores batch.entry.now)) shares.items) }
            { split_part(alloc, batch, first, shards, at) },
        )
        .collect(rt, alloc)?;
    parts
}

// Puts the parts of a share last in another.
fn add_share(alloc: Global, share: &mut Share, more: Share) -> Result<(), AllocError>
    ensures { OnOk result (share.new ≡ record { number = share.old.number; effects = share.old.effects ++ more.effects }) }
{
    let mut more = more;
    let mut others: Vec<Numbered> = mem::replace(&mut more.effects, Items::new(alloc)).into();
    let mut all: Vec<Numbered> = mem::replace(&mut share.effects, Items::new(alloc)).into();
    all.append(&mut others)?;
    share.effects = Items::from(all);
    Ok(())
}

// Puts the parts of each share last in the share of the same shard.
fn add_shares(alloc: Global, list: &mut Vec<Share>, shares: Vec<Share>) -> Result<(), AllocError>
    requires { length list.old.items ≡ length shares.items }
    ensures { OnOk result ((shards : ℕ) (ms ns : List Numbered) → AreDealt shards ms list.old.items → AreDealt shards ns shares.items
        → AreDealt shards (ms ++ ns) list.new.items) }
{
    let mut number = 0;
    for share in shares {
        add_share(alloc, &mut list[number], share)?;
        number += 1;
    }
    Ok(())
}

// The shares of a batch, put together from those of its parts.
fn join_parts(
    alloc: Global,
    batch: &[Message],
    first: u32,
    shards: usize,
    parts: Vec<Vec<Share>>,
) -> Result<Vec<Share>, AllocError>
    requires shards { 0 < shards }
    requires parts { AreOfParts shards first (cores batch.now) parts.items }
    ensures { IfOk result (λ shares. AreShares shards first (cores batch.now) shares.items) }
{
    let mut list = no_shares(alloc, shards, batch.len() / shards * PARTS_ROOM)?;
    for part in parts {
        add_shares(alloc, &mut list, part)?;
    }
    Ok(list)
}

/// The shares of a batch, one for each of `shards` shards, in order of number: the parts whose home the shard is, in
/// order of entry and part. The batch's first message is entry `first` of the log, from 1; no entry is above 1,000,000.
/// From SPLIT_MIN messages on, as many threads as there are processors make the shares of parts of the batch, which are then put
/// together.
pub fn split<R: Threads + Sync>(
    rt: &R,
    alloc: Global,
    batch: &[Message],
    first: u32,
    shards: usize,
) -> Result<Vec<Share>, AllocError>
    requires shards { 0 < shards }
    requires entries { first + length batch.now ≤ KEEP_MAX + 1 }
    ensures { IfOk result (λ shares. AreShares shards first (cores batch.now) shares.items) }
{
    if batch.len() < SPLIT_MIN {
        return split_alone(alloc, batch, first, shards);
    }
    let parts = split_parts(rt, alloc, batch, first, shards)?;
    join_parts(alloc, batch, first, shards, parts)
}
