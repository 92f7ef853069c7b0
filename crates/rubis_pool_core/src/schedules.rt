//! A batch applied under a schedule of events.

ghost use Rattle.std.specs.Prelude.{◌≡◌, IfOk, length};
ghost use Rattle.std.specs.List.{All};
ghost use Rattle.rubis_pool_core.specs.Machine.{run_of};
ghost use Rattle.rubis_pieces.specs.Batches.{IsPiece};
ghost use Rattle.rubis_pool_core.specs.Batches.{Accounted};

use crate::event::Event;
use crate::pool::Pool;
use rubis_pieces::Piece;
use std::alloc::{AllocError, Global};

/// The machine of `workers` workers after a post of each piece, in order, and then the events, whatever they are. No more
/// pieces may be posted to it.
///
/// # Errors
///
/// `AllocError` if memory runs out.
pub fn run(
    alloc: Global,
    pieces: Vec<Piece>,
    workers: usize,
    events: &[Event],
) -> Result<Pool, AllocError>
    requires { All IsPiece pieces.items }
    ensures run { IfOk result (λ pool.
        pool ≡ record { capacity = length pieces.items; count = length pieces.items; state = run_of workers pieces.items events.now }) }
    ensures once { IfOk result (λ pool. Accounted pieces.items pool.state) }
{
    let mut pool = Pool::with_posted(alloc, workers, pieces)?;
    for event in events {
        pool.step(*event)?;
    }
    Ok(pool)
}
