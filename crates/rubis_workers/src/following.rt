//! A batch folded by a team straight from its messages.

ghost use Rattle.std.specs.Prelude.{◌≡◌, ◌+◌, ◌<◌, ◌≤◌, ℕ, List, [], length, map as each, min, true, vec_len, IfOk, IfErr};
ghost use Rattle.std.specs.List.Sorted.{IsPermutation};
ghost use Rattle.std.specs.Vec.{vec_capacity};
ghost use Rattle.rubis_model.specs.Log.{Core, cores};
ghost use Rattle.rubis_shard.specs.States.{ShardState};
ghost use Rattle.rubis_shard.specs.Holdings.{AreInOrder, AreHomes};
ghost use Rattle.rubis_pieces.specs.Following.{AreFollowed};
ghost use Rattle.rubis_schema.specs.declared.limits.TheConstants.{KEEP_MAX, WORKERS_MAX};
ghost use Rattle.rubis_workers.specs.Work.{bare, HasFollowed, IsOpened};

use crate::gate::Gate;
use crate::rooms::Rooms;
use crate::task::FollowBatch;
use crate::team::{TeamJob, Teamwork, fan_out};
use crate::workers::TeamSetup;
use rubis_board::{Board, Pass, Poster};
use rubis_pieces::{CountedShards, Done, Piece, Places, gather_counted};
use rubis_schema::Items;
use rubis_shard::{Shard, Share};
use std::alloc::Global;
use std::sync::Wait;
use std::thread::Threads;

/// What a team made of a batch that it folded straight from the messages, and who took the shards. The latter depends on the
/// schedule, and nothing else does.
#[derive(Drop)]
pub struct Followed {
    pub counted: CountedShards,
    /// How many threads were to take shards, the caller's included, and any that the system refused to start.
    pub team: usize,
    /// How many of the shards threads other than the caller's took.
    pub others: usize,
}

// Posts each shard, with no share.
fn post_bare<R: Wait>(rt: &R, alloc: Global, mut poster: Poster, mut shards: Vec<Shard>) -> Poster
    requires poster { (poster.posted ≡ []) × (poster.capacity ≡ vec_len shards) }
    ensures posted { IsPermutation (each bare shards.items) result.posted }
    ensures many { length result.posted ≡ vec_len shards }
{
    for _ in 0..shards.len() {
        let Some(shard) = shards.pop() else {
            unreachable!()
        };
        let share = Share {
            number: shard.number(),
            effects: Items::new(alloc),
        };
        let Ok(()) = poster.post(rt, Piece { shard, share }) else {
            unreachable!()
        };
    }
    poster
}

/// An open board with the shards of a set, and the room that its workers and the gathering need.
pub struct ShardBoard {
    pub board: Board,
    /// It has all parts.
    pub pass: Pass,
    /// For the results of the caller's thread, which is a worker too.
    pub mine: Vec<Done>,
    /// For those of each further worker.
    pub others: Vec<Vec<Done>>,
    pub places: Places,
    pub dones: Vec<usize>,
}

/// Opens a board with the shards of a set, for that many workers. Where there is no room to begin, the shards come back.
pub fn open_shards<R: Wait>(
    rt: &R,
    alloc: Global,
    shards: Vec<Shard>,
    workers: usize,
) -> Result<ShardBoard, Items<Shard>>
    requires { (0 < length shards.items) × (0 < workers) }
    ensures opened { IfOk result (IsOpened shards.items workers) }
    ensures back { IfErr result (λ back. back ≡ shards.items) }
{
    let pieces = shards.len();
    let (Ok(rooms), Ok(dones)) = (
        Rooms::new(alloc, pieces, workers),
        Vec::with_capacity(alloc, pieces),
    ) else {
        return Err(shards.into());
    };
    let Rooms {
        poster,
        places,
        mine,
        others,
    } = rooms;
    let (board, pass) = post_bare(rt, alloc, poster, shards).open();
    Ok(ShardBoard {
        board,
        pass,
        mine,
        others,
        places,
        dones,
    })
}

/// Closes a board whose shards were taken, and puts them in order of number, with how many of the messages are done of each.
pub fn gather_shards(
    board: Board,
    pass: Pass,
    list: Vec<Done>,
    places: Places,
    dones: Vec<usize>,
) -> CountedShards
    requires whole { (pass.board ≡ board) × (pass.parts ≡ 16) × (pass.seen_none ≡ true) }
    requires followed { (first : ℕ) × (batch : List Core) × (ss : List ShardState) × HasFollowed first batch ss pass list.items }
    requires room { (places ≡ length pass.posted) × (dones.items ≡ []) × (places ≤ vec_capacity dones) }
    ensures taken { IsPermutation pass.posted pass.taken }
    ensures shards { (first : ℕ) (batch : List Core) (ss : List ShardState) → HasFollowed first batch ss pass list.items
        → AreFollowed first batch ss result.shards result.dones }
{
    board.close(pass);
    match gather_counted(list, places, dones) {
        Ok(counted) => counted,
        Err(_) => unreachable!(),
    }
}

/// Folds the parts of a batch on the shards of a set, each on its home, straight from the messages and as far as memory goes, by a
/// team that is set up so, of no more threads than there are shards. The caller's thread is one of them. The gate is called for each
/// shard that is taken. Where there is no room to begin, the shards come back. No entry of the batch is above 1,000,000.
pub fn follow_by_team<G: Gate, R: Threads + Wait + Sync>(
    rt: &R,
    setup: &TeamSetup<G>,
    shards: Vec<Shard>,
    task: &FollowBatch,
) -> Result<Followed, Items<Shard>>
    requires some { 0 < length shards.items }
    requires order { AreInOrder shards.items }
    requires entries { task.now.first + length task.now.batch.now ≤ KEEP_MAX + 1 }
    requires homes { AreHomes (length shards.items) (cores task.now.batch.now) task.now.homes.now }
    requires workers { (0 < setup.now.most) × (setup.now.most ≤ WORKERS_MAX) }
    ensures followed { IfOk result (λ r. AreFollowed task.now.first (cores task.now.batch.now) shards.items r.counted.shards r.counted.dones) }
    ensures others { IfOk result (λ r. r.others ≤ length shards.items) }
    ensures alone { setup.now.most ≡ 1 → IfOk result (λ r. r.others ≡ 0) }
    ensures back { IfErr result (λ back. back ≡ shards.items) }
    ensures team { IfOk result (λ r. r.team ≡ min setup.now.most (length shards.items)) }
    ensures few { IfOk result (λ r. (0 < r.team) × (r.team ≤ setup.now.most)) }
{
    let team = setup.most.min(shards.len());
    let ShardBoard {
        board,
        pass,
        mine,
        others,
        places,
        dones,
    } = open_shards(rt, setup.alloc, shards, team)?;
    let Teamwork {
        pass,
        list,
        others,
        answer: (),
    } = fan_out(
        rt,
        &TeamJob {
            board: &board,
            task,
            gate: setup.gate,
        },
        pass,
        mine,
        others,
        || (),
    );
    Ok(Followed {
        counted: gather_shards(board, pass, list, places, dones),
        team,
        others,
    })
}
