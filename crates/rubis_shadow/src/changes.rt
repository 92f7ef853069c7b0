//! A change of a row, and what it does to the row.

ghost use Rattle.std.specs.Prelude.{◌≡◌, IfOk, Some, None, cond, true};
ghost use Rattle.rubis_schema.specs.declared.rows.Row.TheVariants as rows;
ghost use Rattle.rubis_schema.specs.declared.rows.BidRow.{BidRow};
ghost use Rattle.rubis_schema.specs.declared.rows.PurchaseRow.{PurchaseRow};
ghost use Rattle.rubis_schema.specs.declared.rows.CommentRow.{CommentRow};
ghost use Rattle.rubis_shadow.specs.Changes.{change_row, is_open};
ghost use Rattle.rubis_shadow.specs.declared.changes.Change.TheVariants.{BidTaken, Sold};

use rubis_schema::{Best, CatRow, Id, ItemRow, Nick, Row, Sale, UserRow};
use std::alloc::AllocError;

/// What a part does to the row of its key.
#[derive(Drop, Clone)]
pub enum Change {
    /// A new row.
    Insert(Row),
    /// A user listed one more item.
    ItemListed,
    /// A user bought n pieces.
    Bought(u64),
    /// A user got a comment with this rating.
    Rated(i8),
    /// A category has one more item, which is live.
    CatListed,
    /// A category has one live item less.
    CatEnded,
    /// An item got a bid.
    BidTaken(Best),
    /// n pieces of an item were bought.
    Sold(u64),
    /// An item's sale ended, with this winner.
    End(Option<Id>),
    /// n pieces were added to an item's stock.
    Restocked(u64),
    /// A user has this nickname from now on.
    Renamed(Nick),
    /// A nickname is given up by this user.
    NickFreed(Id),
}

impl Change {
    /// An equal change.
    pub fn copy(&self) -> Result<Change, AllocError>
        ensures { IfOk result (λ change. change ≡ self.now) }
    {
        self.clone()
    }
}

/// Why a part doesn't fit, in the order in which that is tested.
#[derive(Clone, Copy, PartialEq, Eq, Debug)]
pub enum MisfitKind {
    /// An insert, and the key has a row.
    RowThere,
    /// A change, and the key has no row of its table.
    NoRow,
    /// A bid, a buy or a close, and the item is ended.
    ClosedItem,
    /// A buy of more than the stock.
    StockShort,
    /// A nickname is given up, and another user has it.
    OtherUser,
}

/// What a change does with a row that is there: whether the row stays, and why the change doesn't fit, if it doesn't.
#[derive(Clone, Copy)]
pub struct Fate {
    pub stays: bool,
    pub misfit: Option<MisfitKind>,
}

// Whether an item can still be bid for.
fn can_be_bid_for(sale: &Sale) -> bool
    ensures { result ≡ is_open sale.now }
{
    match sale {
        Sale::Open => true,
        Sale::Ended(_) => false,
    }
}

#[tactic(auto, unfolding(crate::specs::Changes::change_row))]
#[inline(always)]
fn alter_user(change: &Change, user: &mut UserRow) -> Option<MisfitKind>
    ensures row { (change_row change.now (Some (rows.User user.old))).row ≡ Some (rows.User user.new) }
    ensures misfit { (change_row change.now (Some (rows.User user.old))).misfit ≡ result }
{
    match change {
        Change::Insert(_) => Some(MisfitKind::RowThere),
        Change::ItemListed => {
            user.items = user.items.saturating_add(1);
            None
        }
        Change::Bought(quantity) => {
            user.bought = user.bought.saturating_add(*quantity);
            None
        }
        Change::Rated(rating) => {
            user.rating = user.rating.saturating_add(i64::from(*rating));
            user.comments = user.comments.saturating_add(1);
            None
        }
        Change::Renamed(nick) => {
            user.nick = *nick;
            None
        }
        _ => Some(MisfitKind::NoRow),
    }
}

#[tactic(auto, unfolding(crate::specs::Changes::change_row))]
#[inline(always)]
fn alter_category(change: &Change, category: &mut CatRow) -> Option<MisfitKind>
    ensures row { (change_row change.now (Some (rows.Cat category.old))).row ≡ Some (rows.Cat category.new) }
    ensures misfit { (change_row change.now (Some (rows.Cat category.old))).misfit ≡ result }
{
    match change {
        Change::Insert(_) => Some(MisfitKind::RowThere),
        Change::CatListed => {
            category.items = category.items.saturating_add(1);
            category.live = category.live.saturating_add(1);
            None
        }
        Change::CatEnded => {
            category.live = category.live.saturating_add(-1);
            None
        }
        _ => Some(MisfitKind::NoRow),
    }
}

#[tactic(auto, unfolding(crate::specs::Changes::change_row))]
#[inline(always)]
fn take_bid(best: &Best, item: &mut ItemRow) -> Option<MisfitKind>
    ensures row { (change_row (BidTaken best.now) (Some (rows.Item item.old))).row ≡ Some (rows.Item item.new) }
    ensures misfit { (change_row (BidTaken best.now) (Some (rows.Item item.old))).misfit ≡ result }
{
    if !can_be_bid_for(&item.sale) {
        return Some(MisfitKind::ClosedItem);
    }
    item.bids = item.bids.saturating_add(1);
    item.best = match item.best {
        None => Some(*best),
        Some(old) => {
            if old.amount < best.amount {
                Some(*best)
            } else {
                Some(old)
            }
        }
    };
    None
}

#[tactic(auto, unfolding(crate::specs::Changes::change_row))]
#[inline(always)]
fn sell(quantity: u64, item: &mut ItemRow) -> Option<MisfitKind>
    ensures row { (change_row (Sold quantity) (Some (rows.Item item.old))).row ≡ Some (rows.Item item.new) }
    ensures misfit { (change_row (Sold quantity) (Some (rows.Item item.old))).misfit ≡ result }
{
    if !can_be_bid_for(&item.sale) {
        return Some(MisfitKind::ClosedItem);
    }
    if item.stock < quantity {
        return Some(MisfitKind::StockShort);
    }
    item.stock -= quantity;
    item.sold = item.sold.saturating_add(quantity);
    None
}

#[tactic(auto, unfolding(crate::specs::Changes::change_row))]
#[inline(always)]
fn alter_item(change: &Change, item: &mut ItemRow) -> Option<MisfitKind>
    ensures row { (change_row change.now (Some (rows.Item item.old))).row ≡ Some (rows.Item item.new) }
    ensures misfit { (change_row change.now (Some (rows.Item item.old))).misfit ≡ result }
{
    match change {
        Change::Insert(_) => Some(MisfitKind::RowThere),
        Change::BidTaken(best) => take_bid(best, item),
        Change::Sold(quantity) => sell(*quantity, item),
        Change::End(winner) => {
            if !can_be_bid_for(&item.sale) {
                return Some(MisfitKind::ClosedItem);
            }
            item.sale = Sale::Ended(*winner);
            None
        }
        Change::Restocked(quantity) => {
            item.stock = item.stock.saturating_add(*quantity);
            None
        }
        _ => Some(MisfitKind::NoRow),
    }
}

// Why nothing but an insert was meant for the row, and that none fits it: nothing changes rows of these tables.
#[tactic(auto, unfolding(crate::specs::Changes::change_row))]
fn alter_fixed(change: &Change) -> MisfitKind
    ensures bid { (b : BidRow) → change_row change.now (Some (rows.Bid b)) ≡ record { row = Some (rows.Bid b); misfit = Some result } }
    ensures purchase { (p : PurchaseRow) → change_row change.now (Some (rows.Purchase p)) ≡ record { row = Some (rows.Purchase p); misfit = Some result } }
    ensures comment { (c : CommentRow) → change_row change.now (Some (rows.Comment c)) ≡ record { row = Some (rows.Comment c); misfit = Some result } }
{
    match change {
        Change::Insert(_) => MisfitKind::RowThere,
        _ => MisfitKind::NoRow,
    }
}

// The row stays, changed or not.
#[inline(always)]
fn kept(misfit: Option<MisfitKind>) -> Fate
    ensures { result ≡ record { stays = true; misfit = misfit } }
{
    Fate {
        stays: true,
        misfit,
    }
}

// Whether the user's nickname stays with it, and why the change doesn't fit, if it doesn't.
#[tactic(auto, unfolding(crate::specs::Changes::change_row))]
#[inline(always)]
fn alter_nick(change: &Change, user: Id) -> Fate
    ensures row { (change_row change.now (Some (rows.Nick user))).row ≡ cond result.stays (Some (rows.Nick user)) None }
    ensures misfit { (change_row change.now (Some (rows.Nick user))).misfit ≡ result.misfit }
{
    match change {
        Change::Insert(_) => kept(Some(MisfitKind::RowThere)),
        Change::NickFreed(id) => {
            if *id == user {
                Fate {
                    stays: false,
                    misfit: None,
                }
            } else {
                kept(Some(MisfitKind::OtherUser))
            }
        }
        _ => kept(Some(MisfitKind::NoRow)),
    }
}

impl Change {
    /// Changes a row that is there, or leaves it and says why the change doesn't fit. Where the row doesn't stay, the caller
    /// removes it.
    #[inline(always)]
    pub fn alter(&self, row: &mut Row) -> Fate
        ensures row { (change_row self.now (Some row.old)).row ≡ cond result.stays (Some row.new) None }
        ensures misfit { (change_row self.now (Some row.old)).misfit ≡ result.misfit }
    {
        match row {
            Row::User(user) => kept(alter_user(self, user.get_mut())),
            Row::Item(item) => kept(alter_item(self, item.get_mut())),
            Row::Cat(category) => kept(alter_category(self, category)),
            Row::Bid(_) => kept(Some(alter_fixed(self))),
            Row::Purchase(_) => kept(Some(alter_fixed(self))),
            Row::Comment(_) => kept(Some(alter_fixed(self))),
            Row::Nick(user) => alter_nick(self, *user),
        }
    }
}
