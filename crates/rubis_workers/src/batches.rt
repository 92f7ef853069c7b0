//! Batches applied by a team of workers, beside another task or alone.

ghost use Rattle.std.specs.Prelude.{◌≡◌, ◌<◌, ◌≤◌, [], length, vec_len, IfOk, IfErr};
ghost use Rattle.std.specs.List.Sorted.{IsPermutation};
ghost use Rattle.rubis_schema.specs.declared.limits.TheConstants.{WORKERS_MAX};
ghost use Rattle.rubis_shard.specs.Holdings.{AreInOrder};
ghost use Rattle.rubis_pieces.specs.Batches.{Belong, pieces_of};
ghost use Rattle.rubis_workers.specs.Work.{AreWorked, AppliesBatch};

use crate::gate::Gate;
use crate::rooms::Rooms;
use crate::task::FoldShares;
use crate::team::{TeamJob, Teamwork, fan_out};
use rubis_board::Poster;
use rubis_pieces::{Gathered, Left, Piece, gather};
use rubis_schema::Items;
use rubis_shard::{Shard, Share};
use std::alloc::Global;
use std::sync::Wait;
use std::thread::Threads;

/// The shards in order of number, and the shares that aren't folded whole, in order of number.
#[derive(Drop)]
pub struct Worked {
    pub shards: Items<Shard>,
    pub left: Items<Left>,
}

impl From<Gathered> for Worked {
    ghost from_gives = { λ gathered worked. worked ≡ record { shards = gathered.shards; left = gathered.left } };

    fn from(gathered: Gathered) -> Worked {
        Worked {
            shards: gathered.shards,
            left: gathered.left,
        }
    }
}

/// There was no room to begin. Both lists are as they came.
#[derive(Drop)]
pub struct Unstarted {
    pub shards: Items<Shard>,
    pub shares: Items<Share>,
}

impl Unstarted {
    // These lists, as they came.
    fn new(shards: Vec<Shard>, shares: Vec<Share>) -> Unstarted
        ensures shards { result.shards ≡ shards.items }
        ensures shares { result.shares ≡ shares.items }
    {
        Unstarted {
            shards: shards.into(),
            shares: shares.into(),
        }
    }
}

// Posts each shard with its share.
fn post_all<R: Wait>(
    rt: &R,
    mut poster: Poster,
    mut shards: Vec<Shard>,
    mut shares: Vec<Share>,
) -> Poster
    requires many { vec_len shards ≡ vec_len shares }
    requires poster { (poster.posted ≡ []) × (poster.capacity ≡ vec_len shards) }
    ensures posted { IsPermutation (pieces_of shards.items shares.items) result.posted }
    ensures many { length result.posted ≡ vec_len shards }
{
    for _ in 0..shards.len() {
        let Some(shard) = shards.pop() else {
            unreachable!()
        };
        let Some(share) = shares.pop() else {
            unreachable!()
        };
        let Ok(()) = poster.post(rt, Piece { shard, share }) else {
            unreachable!()
        };
    }
    poster
}

/// Folds each share on its shard, as far as memory goes, by at most `workers` threads, from 1 to 16, and no more than there
/// are shards. The caller's thread is one of them: once it has started the others it calls `beside`, and then takes shards
/// too. Each shard goes over the board, one with an empty share too, and the gate is called for each that is taken. Where
/// there is no room to begin, nothing is posted and both lists come back. `beside` is called once in either case, and its
/// answer is returned. A thread that the system refuses to start leaves its work to the others. The shards and what is left
/// are those of one thread, whoever took what.
pub fn apply_beside<G: Gate, R: Threads + Wait + Sync, A, F: FnOnce() -> A>(
    rt: &R,
    alloc: Global,
    shards: Vec<Shard>,
    shares: Vec<Share>,
    workers: usize,
    gate: &G,
    beside: F,
) -> (Result<Worked, Unstarted>, A)
    requires some { 0 < length shards.items }
    requires order { AreInOrder shards.items }
    requires belong { Belong shards.items shares.items }
    requires workers { (0 < workers) × (workers ≤ WORKERS_MAX) }
    requires beside { F.pre beside }
    ensures folded { IfOk result.0 (AreWorked shards.items shares.items) }
    ensures batch { IfOk result.0 (AppliesBatch shards.items shares.items) }
    ensures back { IfErr result.0 (λ unstarted. (unstarted.shards ≡ shards.items) × (unstarted.shares ≡ shares.items)) }
    ensures answer { F.post beside result.1 }
{
    let pieces = shards.len();
    let team = workers.min(pieces);
    let Ok(rooms) = Rooms::new(alloc, pieces, team) else {
        return (Err(Unstarted::new(shards, shares)), beside());
    };
    let poster = post_all(rt, rooms.poster, shards, shares);
    let (board, pass) = poster.open();
    let Teamwork {
        pass,
        list,
        others: _,
        answer,
    } = fan_out(
        rt,
        &TeamJob {
            board: &board,
            task: &FoldShares,
            gate,
        },
        pass,
        rooms.mine,
        rooms.others,
        beside,
    );
    board.close(pass);
    match gather(list, rooms.places) {
        Ok(gathered) => (Ok(gathered.into()), answer),
        Err(_) => unreachable!(),
    }
}

/// Folds each share on its shard as `apply_beside` does, with nothing to do meanwhile.
pub fn apply_all<G: Gate, R: Threads + Wait + Sync>(
    rt: &R,
    alloc: Global,
    shards: Vec<Shard>,
    shares: Vec<Share>,
    workers: usize,
    gate: &G,
) -> Result<Worked, Unstarted>
    requires some { 0 < length shards.items }
    requires order { AreInOrder shards.items }
    requires belong { Belong shards.items shares.items }
    requires workers { (0 < workers) × (workers ≤ WORKERS_MAX) }
    ensures folded { IfOk result (AreWorked shards.items shares.items) }
    ensures batch { IfOk result (AppliesBatch shards.items shares.items) }
    ensures back { IfErr result (λ unstarted. (unstarted.shards ≡ shards.items) × (unstarted.shares ≡ shares.items)) }
{
    let (worked, ()) = apply_beside(rt, alloc, shards, shares, workers, gate, || ());
    worked
}
