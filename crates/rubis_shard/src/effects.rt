//! What the parts of bids and purchases do.

ghost use Rattle.std.specs.Prelude.{◌≡◌};
ghost use Rattle.rubis_schema.specs.declared.row_keys.RowKey.TheVariants as key;
ghost use Rattle.rubis_schema.specs.declared.rows.Row.TheVariants as row;
ghost use Rattle.rubis_shadow.specs.Shadows.{part};
ghost use Rattle.rubis_shadow.specs.declared.changes.Change.TheVariants.{BidTaken, Bought, Insert, Sold};

use crate::entries::LogEntry;
use rubis_schema::{Best, BidRow, PackedBid, PurchaseRow, Row, RowKey};
use rubis_shadow::{Change, Effect, NewBid};

impl<'a> LogEntry<'a> {
    /// What the first part of a bid does: it enters the bid.
    #[inline(always)]
    pub(crate) fn bid_row(&self, bid: &NewBid) -> Effect
        ensures { result ≡ part (key.Bid self.now.id)
            (Insert (row.Bid (record { item = bid.now.item; bidder = bid.now.bidder; amount = bid.now.amount; red = self.now.red }))) tt }
    {
        let row = PackedBid::new(BidRow {
            item: bid.item,
            bidder: bid.bidder,
            amount: bid.amount,
            red: self.red,
        });
        Effect {
            key: RowKey::Bid(self.id),
            change: Change::Insert(Row::Bid(row)),
        }
    }

    /// What the second does: the item has one bid more.
    #[inline(always)]
    pub(crate) fn bid_taken(&self, bid: &NewBid) -> Effect
        ensures { result ≡ part (key.Item bid.now.item) (BidTaken (record { bid = self.now.id; amount = bid.now.amount })) tt }
    {
        Effect {
            key: RowKey::Item(bid.item),
            change: Change::BidTaken(Best {
                bid: self.id,
                amount: bid.amount,
            }),
        }
    }

    /// What the first part of a purchase does: it enters the purchase.
    #[inline(always)]
    pub(crate) fn purchase_row(&self, purchase: &PurchaseRow) -> Effect
        ensures { result ≡ part (key.Purchase self.now.id) (Insert (row.Purchase purchase.now)) tt }
    {
        Effect {
            key: RowKey::Purchase(self.id),
            change: Change::Insert(Row::Purchase(*purchase)),
        }
    }
}

/// What the second part of a purchase does: the item has less in stock.
#[inline(always)]
pub fn sold(purchase: &PurchaseRow) -> Effect
    ensures { result ≡ part (key.Item purchase.now.item) (Sold purchase.now.quantity) tt }
{
    Effect {
        key: RowKey::Item(purchase.item),
        change: Change::Sold(purchase.quantity),
    }
}

/// What the third does: the buyer has bought more.
#[inline(always)]
pub fn bought(purchase: &PurchaseRow) -> Effect
    ensures { result ≡ part (key.User purchase.now.buyer) (Bought purchase.now.quantity) tt }
{
    Effect {
        key: RowKey::User(purchase.buyer),
        change: Change::Bought(purchase.quantity),
    }
}
