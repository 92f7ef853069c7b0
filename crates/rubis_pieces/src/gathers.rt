//! The shards of a batch put together again from what its pieces became.

ghost use Rattle.std.specs.Prelude.{◌≡◌, ◌≤◌, [], length, IfSome, IfNone, IfOk, IfErr};
ghost use Rattle.std.specs.Vec.{vec_capacity};
ghost use Rattle.rubis_pieces.specs.Batches.{AllUnseen, IsFault, IsGatherable, numbers_of, IsCounted, IsGathered, IsInOrder};

use crate::pieces::{Done, Left};
use rubis_schema::Items;
use rubis_shard::Shard;
use std::alloc::{AllocError, Global};
use std::marker::Model;

/// Why shards that came back aren't one set: the first number, in the order of the list, that isn't one of the set or that
/// came before, else the smallest that is missing.
#[derive(Clone, Copy, PartialEq, Eq, Debug)]
pub enum FaultKind {
    Stranger(usize),
    Twice(usize),
    Missing(usize),
}

/// Why, and the list as it came.
#[derive(Drop)]
pub struct GatherFault {
    pub kind: FaultKind,
    pub back: Items<Done>,
}

/// The shards by number, and the shares that aren't folded whole, in order of number.
#[derive(Drop)]
pub struct Gathered {
    pub shards: Items<Shard>,
    pub left: Items<Left>,
}

/// The shards by number, and how much of each one's work is done.
#[derive(Drop)]
pub struct CountedShards {
    pub shards: Items<Shard>,
    pub dones: Items<usize>,
}

/// The room for gathering the shards of a set. Contracts see how many there are.
#[derive(Drop)]
pub struct Places {
    seen: Vec<bool>,
    shards: Vec<Shard>,
    left: Vec<Left>,
}

impl Model for Places {
    ghost use Rattle.std.specs.Prelude.{ℕ, length};
    ghost use Rattle.std.specs.Vec.{vec_capacity};
    ghost use Rattle.rubis_pieces.specs.Batches.{HasRoomForEach};

    ghost Value = { ℕ };

    ghost view = { λ p. length p.seen.items };

    ghost invariant = { λ p. HasRoomForEach p.seen.items p.shards.items (vec_capacity p.shards) p.left.items (vec_capacity p.left) };
}

impl Places {
    /// Room for `shards` shards.
    pub fn new(alloc: Global, shards: usize) -> Result<Places, AllocError>
        ensures { IfOk result (λ places. places ≡ shards) }
    {
        let mut seen = Vec::with_capacity(alloc, shards)?;
        for _ in 0..shards {
            seen.push_reserved(false);
        }
        Ok(Places {
            seen,
            shards: Vec::with_capacity(alloc, shards)?,
            left: Vec::with_capacity(alloc, shards)?,
        })
    }
}

// The first fault of a list.
fn first_fault(list: &[Done], seen: &mut [bool]) -> Option<FaultKind>
    requires { AllUnseen seen.old }
    ensures fault { IfSome result (IsFault (length seen.old) (numbers_of list.now)) }
    ensures none { IfNone result (IsGatherable (length seen.old) (numbers_of list.now)) }
{
    for done in list {
        let number = done.shard.number();
        if number >= seen.len() {
            return Some(FaultKind::Stranger(number));
        }
        if seen[number] {
            return Some(FaultKind::Twice(number));
        }
        seen[number] = true;
    }
    for number in 0..seen.len() {
        if !seen[number] {
            return Some(FaultKind::Missing(number));
        }
    }
    None
}

// Puts the shards of a set in order of number. `seen` has a flag for each shard, none of which is set. Where the list isn't each
// shard of the set once, it comes back with the first fault.
fn in_order(list: Vec<Done>, seen: &mut [bool]) -> Result<Vec<Done>, GatherFault>
    requires { AllUnseen seen.old }
    ensures order { IfOk result (λ ordered. IsInOrder (length seen.old) list.items ordered.items) }
    ensures fault { IfErr result (λ fault. IsFault (length seen.old) (numbers_of list.items) fault.kind) }
    ensures back { IfErr result (λ fault. fault.back ≡ list.items) }
{
    let mut list = list;
    if let Some(kind) = first_fault(&list, seen) {
        return Err(GatherFault {
            kind,
            back: list.into(),
        });
    }
    list.sort_unstable_by_key(|done| done.shard.number());
    Ok(list)
}

/// Puts each shard at its number, with the room of `places`, and says which shares aren't folded whole. Where the list
/// isn't each shard of the set once, all comes back with the first fault.
pub fn gather(list: Vec<Done>, places: Places) -> Result<Gathered, GatherFault>
    ensures gathered { IfOk result (IsGathered places list.items) }
    ensures fault { IfErr result (λ fault. IsFault places (numbers_of list.items) fault.kind) }
    ensures back { IfErr result (λ fault. fault.back ≡ list.items) }
{
    let Places {
        mut seen,
        mut shards,
        mut left,
    } = places;
    for done in in_order(list, &mut seen)? {
        let Done { shard, share, done } = done;
        shards.push_reserved(shard);
        if done < share.effects.len() {
            left.push_reserved(Left { share, done });
        }
    }
    Ok(Gathered {
        shards: shards.into(),
        left: left.into(),
    })
}

/// Puts each shard at its number, with the room of `places`, and how much is done of each beside it. Where the list isn't each shard
/// of the set once, all comes back with the first fault.
pub fn gather_counted(
    list: Vec<Done>,
    places: Places,
    dones: Vec<usize>,
) -> Result<CountedShards, GatherFault>
    requires none { dones.items ≡ [] }
    requires room { places ≤ vec_capacity dones }
    ensures counted { IfOk result (IsCounted places list.items) }
    ensures fault { IfErr result (λ fault. IsFault places (numbers_of list.items) fault.kind) }
    ensures back { IfErr result (λ fault. fault.back ≡ list.items) }
{
    let Places {
        mut seen,
        mut shards,
        left: _,
    } = places;
    let mut dones = dones;
    for done in in_order(list, &mut seen)? {
        let Done {
            shard,
            share: _,
            done,
        } = done;
        shards.push_reserved(shard);
        dones.push_reserved(done);
    }
    Ok(CountedShards {
        shards: shards.into(),
        dones: dones.into(),
    })
}
