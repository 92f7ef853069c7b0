//! Two pieces for tests and scenarios: those of shards 0 and 1 of 2, each with one part, which inserts a purchase.

ghost use Rattle.std.specs.Prelude.{◌<◌, IfOk, length};
ghost use Rattle.std.specs.List.{All};
ghost use Rattle.rubis_pieces.specs.Batches.{Belong, IsPiece};
ghost use Rattle.rubis_shard.specs.Holdings.{AreInOrder};

use rubis_pieces::Piece;
use rubis_pool_core::Event;
use rubis_schema::{Id, Items, PurchaseRow, Row, RowKey, shard_of};
use rubis_shadow::{Change, Effect, Numbered};
use rubis_shard::{Shard, Share, Tables};
use std::alloc::{AllocError, Global};

/// What two workers do with the pieces: they return them in the other order.
pub const SCHEDULE: [Event; 6] = [
    Event::Take(0),
    Event::Take(1),
    Event::Apply(1),
    Event::Back(1),
    Event::Apply(0),
    Event::Back(0),
];

// The part that inserts purchase 0.1, whose home is shard 0 of 2, or 0.2, whose home is shard 1.
fn purchase(number: usize) -> Numbered
    requires { number < 2 }
{
    let id = Id {
        site: 0,
        seq: number as u32 + 1,
    };
    let row = PurchaseRow {
        item: id,
        buyer: id,
        quantity: 1,
    };
    Numbered {
        entry: id.seq,
        part: 1,
        id,
        effect: Effect {
            key: RowKey::Purchase(id),
            change: Change::Insert(Row::Purchase(row)),
        },
    }
}

/// Whether this is shard 0 or 1 of 2, and has the purchase of its part.
pub fn has_purchase(shard: &Shard, number: usize) -> bool
    requires { number < 2 }
{
    shard.number() == number && shard.row(&purchase(number).effect.key).is_some()
}

/// The piece of shard 0 or 1 of 2.
pub fn piece(alloc: Global, number: usize) -> Result<Piece, AllocError>
    requires { number < 2 }
    ensures { IfOk result (λ piece. IsPiece piece) }
{
    let shard = Shard::new(alloc, number, 2)?;
    let part = purchase(number);
    let mut parts = Vec::new(alloc);
    if shard_of(&part.effect.key, 2) == number {
        parts.push(part)?;
    }
    let share = Share {
        number,
        effects: Items::from(parts),
    };
    Ok(Piece { shard, share })
}

/// Both pieces, as a list.
pub fn both_pieces(alloc: Global) -> Result<Vec<Piece>, AllocError>
    ensures { IfOk result (λ pieces. All IsPiece pieces.items) }
{
    Ok(vec![in alloc; piece(alloc, 0)?, piece(alloc, 1)?]?)
}

// The shards of two pieces, and their shares, as two lists.
fn lists_of(
    alloc: Global,
    first: Piece,
    second: Piece,
) -> Result<(Vec<Shard>, Vec<Share>), AllocError>
    requires first { IsPiece first }
    requires second { IsPiece second }
    ensures { IfOk result (λ both. Belong both.0.items both.1.items) }
{
    let shards = vec![in alloc; first.shard, second.shard]?;
    let shares = vec![in alloc; first.share, second.share]?;
    Ok((shards, shares))
}

/// The shards of both pieces, as a set, in order, and their shares.
pub fn two_shares(alloc: Global) -> Result<(Vec<Shard>, Vec<Share>), AllocError>
    ensures some { IfOk result (λ both. 0 < length both.0.items) }
    ensures order { IfOk result (λ both. AreInOrder both.0.items) }
    ensures belong { IfOk result (λ both. Belong both.0.items both.1.items) }
{
    let (shards, shares) = lists_of(alloc, piece(alloc, 0)?, piece(alloc, 1)?)?;
    match Tables::from_shards(shards) {
        Ok(tables) => Ok((tables.into_shards(), shares)),
        Err(_) => Err(AllocError),
    }
}
