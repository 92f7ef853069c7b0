//! What the workers do with the pieces that they take.

ghost use Rattle.std.specs.Prelude.{◌+◌};
ghost use Rattle.rubis_schema.specs.declared.limits.TheConstants.{KEEP_MAX};

use crate::gate::Told;
use rubis_message::Message;
use rubis_pieces::{Done, Piece, fold_share, follow};
use rubis_shard::PartHomes;

/// What is done with each piece.
pub trait Task {
    ghost use Rattle.rubis_pieces.specs.declared.pieces.Piece.{Piece};
    ghost use Rattle.rubis_pieces.specs.declared.pieces.Done.{Done};

    ghost Fits: { Self → Piece → Type 0 };

    ghost Worked: { Self → Piece → Done → Type 0 };

    /// Does it with a piece that was taken, once the gate was told.
    fn work_on(&self, piece: Piece, told: Told) -> Done
        requires { Fits self.now piece }
        ensures { Worked self.now piece result };
}

/// The share of each piece is folded on its shard, as far as memory goes.
#[derive(Clone, Copy, Drop)]
pub struct FoldShares;

impl Task for FoldShares {
    ghost use Rattle.rubis_pieces.specs.Batches.{IsPiece, IsWorked};

    ghost Fits = { λ _ piece. IsPiece piece };

    ghost Worked = { λ _ piece done. IsWorked piece done };

    fn work_on(&self, piece: Piece, _told: Told) -> Done {
        fold_share(piece)
    }
}

/// The parts of a batch whose home the shard of a piece is are folded on it straight from the messages, as far as memory goes.
/// `homes` has the homes of the parts of each message, and the first message is entry `first` of the log.
#[derive(Clone, Copy, Drop)]
pub struct FollowBatch<'a> {
    pub batch: &'a [Message],
    pub homes: &'a [PartHomes],
    pub first: u32,
}

impl<'a> Task for FollowBatch<'a> {
    ghost use Rattle.std.specs.Prelude.{◌+◌, ◌<◌, ◌≤◌, length};
    ghost use Rattle.rubis_model.specs.Log.{cores};
    ghost use Rattle.rubis_shard.specs.Holdings.{AreHomes};
    ghost use Rattle.rubis_pieces.specs.Following.{IsFollowed};

    ghost Fits = { λ f piece. (piece.shard.number < piece.shard.shards)
        × AreHomes piece.shard.shards (cores f.batch.now) f.homes.now × (f.first + length f.batch.now ≤ KEEP_MAX + 1) };

    ghost Worked = { λ f piece done. IsFollowed f.first (cores f.batch.now) piece.shard done.done done.shard };

    fn work_on(&self, piece: Piece, _told: Told) -> Done {
        let Piece { mut shard, share } = piece;
        let done = follow(&mut shard, self.batch, self.homes, self.first);
        Done { shard, share, done }
    }
}
