//! What users ask for, and the shadow operations that answer: what every site applies.

ghost use Rattle.std.specs.Prelude.{◌≡◌, IfOk};
ghost use Rattle.rubis_shadow.specs.Shadows.{colour_of, version_of};

use crate::renames::{NewRename, RenameAsk};
use rubis_schema::{CommentRow, Id, NewItem, Nick, PurchaseRow, Shared};
use std::alloc::AllocError;

/// A bid for an item.
#[derive(Clone, Copy, PartialEq, Eq)]
pub struct NewBid {
    pub item: Id,
    pub bidder: Id,
    pub amount: u64,
}

/// A seller who ends an item's sale.
#[derive(Clone, Copy)]
pub struct AskedClose {
    pub item: Id,
    pub seller: Id,
}

/// A seller who has more pieces of an item.
#[derive(Clone, Copy)]
pub struct AskedRestock {
    pub item: Id,
    pub seller: Id,
    pub quantity: u64,
}

/// A user who wants another nickname.
#[derive(Clone, Copy)]
pub struct AskedRename {
    pub user: Id,
    pub nick: Nick,
}

/// What a user asks of a site.
#[derive(Drop)]
pub enum Ask {
    User(Nick),
    Item(Shared<NewItem>),
    Bid(NewBid),
    Buy(PurchaseRow),
    Close(AskedClose),
    Comment(Shared<CommentRow>),
    Restock(AskedRestock),
    Rename(RenameAsk),
}

/// The end of an item's sale, with the item's category and the winning bid, if there is one.
#[derive(Clone, Copy, PartialEq, Eq)]
pub struct NewClose {
    pub item: Id,
    pub cat: u16,
    pub winner: Option<Id>,
}

/// More pieces of an item.
#[derive(Clone, Copy, PartialEq, Eq)]
pub struct NewRestock {
    pub item: Id,
    pub quantity: u64,
}

/// What an accepted ask does, at every site. The larger ones are in memory of their own, which the copies of an item and
/// of a comment share, so that logs stay small.
#[derive(Drop, Clone, PartialEq, Eq)]
pub enum Shadow {
    User(Nick),
    Item(Shared<NewItem>),
    Bid(NewBid),
    Buy(PurchaseRow),
    Close(NewClose),
    Comment(Shared<CommentRow>),
    Restock(NewRestock),
    Rename(NewRename),
}

/// Red shadows are totally ordered, blue ones only follow causality.
#[derive(Clone, Copy)]
pub enum Colour {
    Red,
    Blue,
}

impl Shadow {
    /// A shadow is red where applying it elsewhere could break an invariant, or where it doesn't commute.
    pub fn colour(&self) -> Colour
        ensures { result ≡ colour_of self.now }
    {
        match self {
            Shadow::Item(_) | Shadow::Comment(_) | Shadow::Restock(_) => Colour::Blue,
            _ => Colour::Red,
        }
    }

    /// The version of the format in which the shadow is written, by its kind.
    #[inline(always)]
    pub fn version(&self) -> &'static [u8]
        ensures { result.now ≡ version_of self.now }
    {
        match self {
            Shadow::Restock(_) | Shadow::Rename(_) => b"2",
            _ => b"1",
        }
    }

    /// An equal shadow.
    pub fn copy(&self) -> Result<Shadow, AllocError>
        ensures { IfOk result (λ shadow. shadow ≡ self.now) }
    {
        self.clone()
    }
}
