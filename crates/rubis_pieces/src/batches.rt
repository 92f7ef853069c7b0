//! A share folded on its shard.

ghost use Rattle.rubis_pieces.specs.Batches.{IsFolded};
ghost use Rattle.rubis_pieces.specs.Pieces.{IsShareOf};

use crate::pieces::{Done, Piece};

/// Folds the share on its shard, as far as memory goes.
pub fn fold_share(piece: Piece) -> Done
    requires { IsShareOf piece.shard piece.share }
    ensures { IsFolded piece.shard piece.share result }
{
    let Piece { mut shard, share } = piece;
    let applied = shard.apply(&share, 0);
    Done {
        shard,
        share,
        done: applied.done,
    }
}
