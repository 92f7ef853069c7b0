//! The work of one step: a piece folded by the worker that holds it.

ghost use Rattle.std.specs.Prelude.{◌≡◌, is_some, is_none, IfOk, OnOk, OnErr};
ghost use Rattle.rubis_pieces.specs.Batches.{IsPiece};
ghost use Rattle.rubis_pool_core.specs.Machine.{begun, next_part, or_one_part_more};

use rubis_pieces::{Done, Piece};
use std::alloc::AllocError;
use std::marker::Model;

// A piece that a worker holds. Contracts see it as a `Done`: shard, share, and how many parts of the share are folded.
#[derive(Drop)]
pub struct Work {
    done: Done,
}

impl Model for Work {
    ghost use Rattle.rubis_pieces.specs.declared.pieces.Done.{Done};
    ghost use Rattle.rubis_pieces.specs.Pieces.{IsShareOf};
    ghost use Rattle.rubis_pool_core.specs.Machine.{done_code};

    ghost Value = { Done };

    ghost coded = { done_code };

    ghost view = { λ w. w.done };

    ghost invariant = { λ w. IsShareOf w.done.shard w.done.share };
}

impl Work {
    pub fn begin(piece: Piece) -> Work
        requires { IsPiece piece }
        ensures { result ≡ begun piece }
    {
        let Piece { shard, share } = piece;
        Work {
            done: Done {
                shard,
                share,
                done: 0,
            },
        }
    }

    pub fn is_whole(&self) -> bool
        ensures { result ≡ is_none (next_part self.now) }
    {
        self.done.done >= self.done.share.effects.len()
    }

    // Folds the next part of the share on the shard, and returns whether there was one.
    pub fn apply_next(&mut self) -> Result<bool, AllocError>
        ensures possible { IfOk result (λ did. did ≡ is_some (next_part self.old)) }
        ensures next { OnOk result (self.new ≡ or_one_part_more self.old (next_part self.old)) }
        ensures same { OnErr result (self.new ≡ self.old) }
    {
        if self.done.done >= self.done.share.effects.len() {
            return Ok(false);
        }
        self.done
            .shard
            .apply_next(&self.done.share, self.done.done)?;
        self.done.done += 1;
        Ok(true)
    }

    pub fn into_done(self) -> Done
        ensures { result ≡ self }
    {
        let Work { done } = self;
        done
    }
}
