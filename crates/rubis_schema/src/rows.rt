//! The rows of the seven tables.

ghost use Rattle.std.specs.Prelude.{◌≡◌, IfOk};
ghost use Rattle.rubis_schema.specs.Tables.{shows_nothing};

use crate::boxed::Boxed;
use crate::ids::Id;
use crate::nicks::Nick;
use crate::offers::OfferedName;
use crate::shared::Shared;
use crate::texts::Text;
use std::alloc::AllocError;
use std::marker::Model;

/// A user: the nickname, how many items the user listed, how many pieces the user bought, and the sum and the count
/// of the comments to the user.
#[derive(Clone, Copy)]
pub struct UserRow {
    pub nick: Nick,
    pub items: u64,
    pub bought: u64,
    pub rating: i64,
    pub comments: u64,
}

/// The best bid of an item so far.
#[derive(Clone, Copy)]
pub struct Best {
    pub bid: Id,
    pub amount: u64,
}

/// Whether an item can still be bid for, and who won it if not.
#[derive(Clone, Copy)]
pub enum Sale {
    Open,
    /// Ended, with the winning bid if there is one.
    Ended(Option<Id>),
}

/// An item: `stock` pieces are left and `sold` were bought; bids begin at `start`, and `price` buys a piece at once
/// (0: that can't be done).
#[derive(Clone)]
pub struct ItemRow {
    pub seller: Id,
    pub name: OfferedName,
    pub cat: u16,
    pub stock: u64,
    pub sold: u64,
    pub start: u64,
    pub price: u64,
    pub bids: u64,
    pub best: Option<Best>,
    pub sale: Sale,
}

impl Drop for ItemRow {
    // Proved here, once: a derived drop is proved anew in each crate that lets an item's row go.
    fn drop(self) {
        let ItemRow {
            seller: _,
            name: _,
            cat: _,
            stock: _,
            sold: _,
            start: _,
            price: _,
            bids: _,
            best: _,
            sale: _,
        } = self;
    }
}

/// A bid, with the red number of its shadow.
#[derive(Clone, Copy)]
pub struct BidRow {
    pub item: Id,
    pub bidder: Id,
    pub amount: u64,
    pub red: u32,
}

/// The row of a bid in less memory: 24 bytes, so that each row of a table takes 32. Contracts see the bid's row.
#[derive(Clone, Copy)]
pub struct PackedBid {
    amount: u64,
    item_seq: u32,
    bidder_seq: u32,
    red: u32,
    item_site: u8,
    bidder_site: u8,
}

impl Model for PackedBid {
    ghost use Rattle.rubis_schema.specs.declared.rows.BidRow.{BidRow};

    ghost Value = { BidRow };

    ghost view = { λ b. record {
      item = record { site = b.item_site; seq = b.item_seq };
      bidder = record { site = b.bidder_site; seq = b.bidder_seq };
      amount = b.amount;
      red = b.red;
    } };

    ghost inverse = { λ b. record {
      amount = b.amount;
      item_seq = b.item.seq;
      bidder_seq = b.bidder.seq;
      red = b.red;
      item_site = b.item.site;
      bidder_site = b.bidder.site;
    } };
}

impl PackedBid {
    /// Packs a bid's row.
    #[inline(always)]
    pub fn new(row: BidRow) -> PackedBid
        ensures { result ≡ row }
    {
        PackedBid {
            amount: row.amount,
            item_seq: row.item.seq,
            bidder_seq: row.bidder.seq,
            red: row.red,
            item_site: row.item.site,
            bidder_site: row.bidder.site,
        }
    }

    /// The item that is bid for.
    #[inline(always)]
    pub fn item(&self) -> Id
        ensures { result ≡ self.now.item }
    {
        Id {
            site: self.item_site,
            seq: self.item_seq,
        }
    }

    /// The whole row.
    pub fn row(&self) -> BidRow
        ensures { result ≡ self.now }
    {
        BidRow {
            item: self.item(),
            bidder: Id {
                site: self.bidder_site,
                seq: self.bidder_seq,
            },
            amount: self.amount,
            red: self.red,
        }
    }
}

/// A buy-now purchase.
#[derive(Clone, Copy, PartialEq, Eq)]
pub struct PurchaseRow {
    pub item: Id,
    pub buyer: Id,
    pub quantity: u64,
}

/// A comment on an item, from one user to another, with a rating of -5 to 5.
#[derive(Clone, PartialEq, Eq)]
pub struct CommentRow {
    pub item: Id,
    pub from: Id,
    pub to: Id,
    pub rating: i8,
    pub text: Text,
}

impl Drop for CommentRow {
    // Proved here, once: a derived drop is proved anew in each crate that lets a comment go.
    fn drop(self) {
        let CommentRow {
            item: _,
            from: _,
            to: _,
            rating: _,
            text: _,
        } = self;
    }
}

/// A category: how many items were listed in it, and how many of them didn't end.
#[derive(Clone, Copy)]
pub struct CatRow {
    pub items: u64,
    pub live: i64,
}

impl CatRow {
    /// Whether the category has neither items nor live ones: a listing leaves it out then.
    pub fn shows_nothing(&self) -> bool
        ensures { result ≡ shows_nothing self.now }
    {
        self.items == 0 && self.live == 0
    }
}

/// A row of one of the seven tables. A nickname's row holds the id of its user. The larger rows are in boxes, so that tables
/// stay small; a comment's, which nothing changes, is shared with the messages that brought it.
#[derive(Drop, Clone)]
pub enum Row {
    User(Boxed<UserRow>),
    Item(Boxed<ItemRow>),
    Bid(PackedBid),
    Purchase(PurchaseRow),
    Comment(Shared<CommentRow>),
    Nick(Id),
    Cat(CatRow),
}

impl Row {
    /// An equal row.
    pub fn copy(&self) -> Result<Row, AllocError>
        ensures { IfOk result (λ row. row ≡ self.now) }
    {
        self.clone()
    }
}
