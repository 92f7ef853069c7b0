//! The parts of bids and purchases that are a shard's own, each folded as what it is.

ghost use Rattle.std.specs.Prelude.{◌≡◌, ◌<◌};
ghost use Rattle.rubis_shadow.specs.declared.shadows.Shadow.TheVariants as Shadow;
ghost use Rattle.rubis_model.specs.Log.{fold_on};
ghost use Rattle.rubis_shard.specs.Holdings.{numbered_of, parts_at};
ghost use Rattle.rubis_shard.specs.States.{held_by, HasRoom};

use crate::effects::{bought, sold};
use crate::message_parts::MessageParts;
use crate::shard_store::Store;
use rubis_schema::PurchaseRow;
use rubis_shadow::NewBid;

impl<'a> MessageParts<'a> {
    /// Folds the parts of a bid on whose home is the shard.
    #[inline(never)]
    pub fn fold_bid(&self, store: &mut Store, at: usize, bid: &NewBid)
        requires bid { self.now.entry.shadow.now ≡ Shadow.Bid bid.now }
        requires at { at < self.now.shards }
        requires room { HasRoom store.old 2 }
        ensures { held_by store.new ≡ fold_on (held_by store.old) (parts_at self.now.shards at (numbered_of self.now.entry)) }
    {
        let entry = &self.entry;
        if self.first == at {
            store.fold_part(entry, 1, entry.bid_row(bid));
        }
        if self.second == at {
            store.fold_part(entry, 2, entry.bid_taken(bid));
        }
    }

    /// Folds the parts of a purchase on whose home is the shard.
    #[inline(never)]
    pub fn fold_purchase(&self, store: &mut Store, at: usize, purchase: &PurchaseRow)
        requires purchase { self.now.entry.shadow.now ≡ Shadow.Buy purchase.now }
        requires at { at < self.now.shards }
        requires room { HasRoom store.old 3 }
        ensures { held_by store.new ≡ fold_on (held_by store.old) (parts_at self.now.shards at (numbered_of self.now.entry)) }
    {
        let entry = &self.entry;
        if self.first == at {
            store.fold_part(entry, 1, entry.purchase_row(purchase));
        }
        if self.second == at {
            store.fold_part(entry, 2, sold(purchase));
        }
        if self.third == at {
            store.fold_part(entry, 3, bought(purchase));
        }
    }
}
