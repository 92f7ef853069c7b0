//! The board on which a batch's pieces are posted, taken by workers and given back.

ghost use Rattle.std.specs.Prelude.{◌≡◌, ◌<◌, [], ◌∷◌, ◌++◌, length, true, false, IfOk, IfErr, OnOk, IfSome, IfNone};
ghost use Rattle.std.specs.List.Sorted.{IsPermutation};
ghost use Rattle.rubis_board.specs.Rule.{opened, one_part_less, new_part, joined_pass, after_piece, after_none, IsPartOf};

use crate::rule::{BoardRule, Item, Looking, Marking, PassView, Posting, Sharing, Taking};
use crossbeam_queue::RuledArrayQueue;
use rubis_pieces::Piece;
use std::alloc::{AllocError, Global};
use std::marker::Model;
use std::sync::{Arc, Wait};

type Queue = RuledArrayQueue<Item, PassView, BoardRule>;

type Seat = crossbeam_queue::Pass<Item, PassView>;

/// A board to which pieces are posted, before it is opened.
#[derive(Drop)]
pub struct Poster {
    queue: Arc<Queue, Global>,
    seat: Seat,
    // How many pieces were posted.
    count: usize,
}

impl Model for Poster {
    ghost use Rattle.std.specs.Prelude.{◌≡◌, ◌≤◌, length};
    ghost use Rattle.std.specs.Arc.{arc_value};
    ghost use Rattle.crossbeam_queue.specs.Passes.{IsPassOf, ruled_capacity};
    ghost use Rattle.rubis_board.specs.Rule.{PosterState, known, posting, poster_code};

    ghost Value = { PosterState };

    ghost coded = { poster_code };

    ghost view = { λ p. record { capacity = ruled_capacity (arc_value p.queue); posted = (known p.seat).posted } };

    ghost invariant = { λ p. IsPassOf (arc_value p.queue) p.seat × (known p.seat ≡ posting (known p.seat).posted)
        × (p.count ≡ length (known p.seat).posted) × (p.count ≤ ruled_capacity (arc_value p.queue)) };
}

impl Poster {
    /// A board with room for `capacity` pieces, and none posted.
    pub fn new(alloc: Global, capacity: usize) -> Result<Poster, AllocError>
        requires { 0 < capacity }
        ensures { IfOk result (λ poster. (poster.capacity ≡ capacity) × (poster.posted ≡ [])) }
    {
        let (queue, seat) = Queue::ruled(alloc, capacity)?;
        Ok(Poster {
            queue: Arc::new(alloc, queue)?,
            seat,
            count: 0,
        })
    }

    /// Posts the piece. Returns it if and only if `capacity` pieces are already posted.
    pub fn post<R: Wait>(&mut self, rt: &R, piece: Piece) -> Result<(), Piece>
        ensures capacity { self.new.capacity ≡ self.old.capacity }
        ensures posted { OnOk result ((length self.old.posted < self.old.capacity) × (self.new.posted ≡ self.old.posted ++ piece ∷ [])) }
        ensures full { IfErr result (λ back. (back ≡ piece) × (length self.old.posted ≡ self.old.capacity) × (self.new.posted ≡ self.old.posted)) }
    {
        if self.count >= self.queue.capacity() {
            return Err(piece);
        }
        match self
            .queue
            .push_as::<Posting, R>(rt, &mut self.seat, Item::Work(piece))
        {
            Ok(()) => {
                self.count += 1;
                Ok(())
            }
            Err(_) => unreachable!(),
        }
    }

    /// Opens the board with what was posted. Its first pass has all parts.
    pub fn open(self) -> (Board, Pass)
        ensures { result.1 ≡ opened result.0 self.posted }
    {
        let Poster {
            queue,
            seat,
            count: _,
        } = self;
        (Board { queue }, Pass { seat })
    }
}

/// An open board, or one of several handles on it: threads that don't end with the call have one each. Only `close`, with all parts, says
/// that what was posted was taken. To a contract it is its identity.
#[derive(Drop)]
pub struct Board {
    queue: Arc<Queue, Global>,
}

impl Model for Board {
    ghost use Rattle.std.specs.Arc.{arc_value};
    ghost use Rattle.atomic_table.specs.Seated.{TableId, table_id_coded};

    ghost Value = { TableId };

    ghost coded = { table_id_coded };

    ghost view = { λ b. (arc_value b.queue).table.shared.table_id };
}

/// What one thread knows of a board, and its permission to take from it. Zero-sized.
#[derive(Drop)]
pub struct Pass {
    seat: Seat,
}

impl Model for Pass {
    ghost use Rattle.std.specs.Prelude.{◌≡◌, ◌<◌, []};
    ghost use Rattle.rubis_board.specs.Rule.{PassState, board_state, known, pass_code};

    ghost Value = { PassState };

    ghost coded = { pass_code };

    ghost view = { λ p. board_state p.seat };

    ghost invariant = { λ p. (p.seat.me.1 ≡ []) × (0 < (known p.seat).parts) };
}

impl Board {
    /// One more handle, unless there are too many.
    pub fn share(&self) -> Option<Board>
        ensures { IfSome result (λ board. board ≡ self.now) }
    {
        match Arc::try_clone(&self.queue) {
            Ok(queue) => Some(Board { queue }),
            Err(_) => None,
        }
    }

    /// Gives one part of the pass to a new one, for another thread.
    pub fn split(&self, pass: Pass) -> (Pass, Pass)
        requires board { pass.board ≡ self.now }
        requires parts { 1 < pass.parts }
        ensures first { result.0 ≡ one_part_less pass }
        ensures second { result.1 ≡ new_part pass }
    {
        let Pass { mut seat } = pass;
        let other = self.queue.another::<Sharing>(&mut seat);
        (Pass { seat }, Pass { seat: other })
    }

    /// Puts two passes together. What they took was posted.
    pub fn join(&self, pass: Pass, other: Pass) -> Pass
        requires { (pass.board ≡ self.now) × (other.board ≡ self.now) }
        ensures both { result ≡ joined_pass pass other }
        ensures posted { IsPartOf result.taken result.posted }
    {
        let Pass { mut seat } = pass;
        let Pass { seat: theirs } = other;
        self.queue.absorb::<Sharing>(&mut seat, theirs);
        self.queue.learn_as::<Looking>(&mut seat);
        Pass { seat }
    }

    /// The first piece on the board. None only where none is left, and then None ever after.
    pub fn take<R: Wait>(&self, rt: &R, pass: &mut Pass) -> Option<Piece>
        requires { pass.old.board ≡ self.now }
        ensures piece { IfSome result (λ piece. (pass.old.seen_none ≡ false) × (pass.new ≡ after_piece pass.old piece)) }
        ensures posted { IfSome result (λ piece. IsPartOf (pass.old.taken ++ piece ∷ []) pass.old.posted) }
        ensures none { IfNone result (pass.new ≡ after_none pass.old) }
    {
        for _ in rt.forever() {
            match self.queue.pop_as::<Taking, R>(rt, &mut pass.seat) {
                Some(Item::Work(piece)) => return Some(piece),
                Some(Item::Mark) => return None,
                // A pass learns that the board is empty from a mark. If there is no room for one, there is work.
                None => {
                    let _ = self
                        .queue
                        .push_as::<Marking, R>(rt, &mut pass.seat, Item::Mark);
                }
            }
        }
        unreachable!()
    }

    /// Ends the board. The pass took what was posted, each piece once.
    pub fn close(self, pass: Pass)
        requires board { pass.board ≡ self }
        requires whole { (pass.parts ≡ 16) × (pass.seen_none ≡ true) }
        ensures { IsPermutation pass.posted pass.taken }
    {
        let Pass { mut seat } = pass;
        self.queue.learn_as::<Looking>(&mut seat);
        let Board { queue: _ } = self;
    }
}
