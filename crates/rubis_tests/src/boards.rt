//! Tests of a board that is posted to, and of passes that take from it.

ghost use Rattle.std.specs.Prelude.{◌≡◌, ◌<◌, true, IfNone};

use rubis_board::{Board, Pass, Poster};
use rubis_pieces::Piece;
use rubis_schema::Items;
use rubis_shard::{Shard, Share};
use std::alloc::{AllocError, Global};
use std::sync::Wait;
use std::test::Fail;
use std::thread;

// The piece of that number, of 64, with an empty share.
fn piece(alloc: Global, number: usize) -> Result<Piece, AllocError>
    requires { number < 64 }
{
    let share = Share {
        number,
        effects: Items::new(alloc),
    };
    let shard = Shard::new(alloc, number, 64)?;
    Ok(Piece { shard, share })
}

// Takes a piece, of which the test wants the number alone.
fn take(rt: &impl Wait, board: &Board, pass: &mut Pass) -> Option<usize>
    requires { pass.old.board ≡ board.now }
    ensures same { (pass.new.board ≡ board.now) × (pass.new.parts ≡ pass.old.parts) }
    ensures none { IfNone result (pass.new.seen_none ≡ true) }
{
    let piece = board.take(rt, pass)?;
    Some(piece.shard.number())
}

#[test]
fn two_passes_take_in_the_order_of_the_posts(rt: HostRuntime) -> Result<(), Fail> {
    let mut poster = Poster::new(rt.alloc(), 2)?;
    for number in 0..2usize {
        assert!(rt; poster.post(&rt, piece(rt.alloc(), number)?).is_ok());
    }
    let back = poster.post(&rt, piece(rt.alloc(), 2)?).err();
    assert!(rt; back.is_some_and(|piece| piece.shard.number() == 2));
    let (board, pass) = poster.open();
    let (mut one, mut two) = board.split(pass);
    let numbers = (take(&rt, &board, &mut one), take(&rt, &board, &mut two));
    assert_eq!(rt; numbers, (Some(0), Some(1)));
    assert!(rt; take(&rt, &board, &mut one).is_none());
    let pass = board.join(one, two);
    board.close(pass);
    Ok(())
}

// Takes until None, and keeps the pieces' numbers.
fn drain(rt: &impl Wait, board: &Board, mut pass: Pass, mut seen: Vec<usize>) -> (Pass, Vec<usize>)
    requires { pass.board ≡ board.now }
    ensures { (result.0.board ≡ board.now) × (result.0.parts ≡ pass.parts) × (result.0.seen_none ≡ true) }
{
    for _ in rt.forever() {
        let Some(number) = take(rt, board, &mut pass) else {
            break;
        };
        let _ = seen.push(number);
    }
    (pass, seen)
}

#[test]
fn board_two_threads(rt: HostRuntime) -> Result<(), Fail> {
    let mut poster = Poster::new(rt.alloc(), 64)?;
    for number in 0..64usize {
        assert!(rt; poster.post(&rt, piece(rt.alloc(), number)?).is_ok());
    }
    let (board, pass) = poster.open();
    let (one, two) = board.split(pass);
    let (mine, theirs) = (Vec::new(rt.alloc()), Vec::new(rt.alloc()));
    let ((one, mut numbers), (two, mut others)) = thread::join(
        &rt,
        || drain(&rt, &board, one, mine),
        || drain(&rt, &board, two, theirs),
    );
    let pass = board.join(one, two);
    board.close(pass);
    assert!(rt; numbers.append(&mut others).is_ok());
    numbers.sort_unstable();
    assert!(rt; numbers.iter().copied().eq(0..64));
    Ok(())
}
