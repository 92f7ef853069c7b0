//! The rule of the board, and the steps that passes take under it. No value of any type but `Item` is ever made.

use crossbeam_queue::protocol::{Join, Lesson, Outcome, Protocol, Split};
use rubis_pieces::Piece;
use std::collections::LinkedList;

/// What lies in the queue.
#[derive(Drop)]
pub enum Item {
    /// A piece that no pass has taken yet.
    Work(Piece),
    /// It was put there by a pass that found the queue empty.
    Mark,
}

/// What a pass knows.
pub struct PassView {
    /// How many of the board's 16 parts it has. None: it was joined to another.
    pub parts: u64,
    /// All pieces that were ever posted.
    pub posted: LinkedList<Piece>,
    /// Those that it took.
    pub taken: LinkedList<Piece>,
    /// Whether it found the board empty.
    pub seen_none: bool,
    /// How many marks it put into the queue.
    pub marks: u64,
}

/// The rule.
pub struct BoardRule;

impl Protocol<Item, PassView> for BoardRule {
    ghost use Rattle.rubis_board.specs.Rule.{Ruled, first_view};

    ghost holds = { Ruled };

    ghost first = { first_view };
}

/// One part goes to a new pass; or the parts of two passes come together.
pub struct Sharing;

impl Split<PassView> for Sharing {
    ghost use Rattle.rubis_board.specs.Rule.{split_view, new_view};

    ghost left = { split_view };

    ghost right = { new_view };
}

impl Join<PassView> for Sharing {
    ghost use Rattle.rubis_board.specs.Rule.{both, spent};

    ghost both = { both };

    ghost spent = { spent };
}

/// A piece is posted.
pub struct Posting;

impl Outcome<Item, PassView> for Posting {
    ghost use Rattle.rubis_board.specs.Rule.{HasPosted};

    ghost then = { HasPosted };
}

impl Lesson<Item, PassView> for Posting {
    ghost use Rattle.std.specs.Prelude.{◌≤◌, length};

    ghost fact = { λ v items. length items ≤ length v.posted };
}

/// A pass that found the queue empty marks it.
pub struct Marking;

impl Outcome<Item, PassView> for Marking {
    ghost use Rattle.rubis_board.specs.Rule.{HasMarked};

    ghost then = { HasMarked };
}

impl Lesson<Item, PassView> for Marking {
    ghost use Rattle.std.specs.Prelude.{⊤};

    ghost fact = { λ v items. ⊤ };
}

/// What is first in the queue is taken.
pub struct Taking;

impl Outcome<Item, PassView> for Taking {
    ghost use Rattle.rubis_board.specs.Rule.{HasTaken};

    ghost then = { HasTaken };
}

impl Lesson<Item, PassView> for Taking {
    ghost use Rattle.std.specs.Prelude.{⊤};

    ghost fact = { λ v items. ⊤ };
}

/// A pass looks at what it knows.
pub struct Looking;

impl Lesson<Item, PassView> for Looking {
    ghost use Rattle.rubis_board.specs.Rule.{Knows};

    ghost fact = { λ v items. Knows v };
}
