//! A message folded whole, on the store that is the home of all its parts.

ghost use Rattle.std.specs.Prelude.{◌≡◌, OnOk, OnErr};
ghost use Rattle.rubis_shadow.specs.declared.shadows.Shadow.TheVariants as Shadow;
ghost use Rattle.rubis_model.specs.Log.{fold_on};
ghost use Rattle.rubis_shard.specs.Holdings.{numbered_of};
ghost use Rattle.rubis_shard.specs.States.{held_by, HasRoom};

use crate::effects::{bought, sold};
use crate::entries::LogEntry;
use crate::shard_store::Store;
use rubis_schema::{CommentRow, NewItem, Nick, PurchaseRow, Row, RowKey, Shared};
use rubis_shadow::{Change, Effect, NewBid, NewClose, NewRename, NewRestock, Shadow};
use std::alloc::{AllocError, Global};

impl Store {
    /// Folds all parts of a message on, for which there is room. When out of memory, nothing changes. Each kind is a call of its
    /// own: inlined here, the values of every kind would have their room cleared for each message.
    #[inline(always)]
    pub fn fold_whole(&mut self, alloc: Global, entry: &LogEntry<'_>) -> Result<(), AllocError>
        requires { HasRoom self.old 3 }
        ensures ok { OnOk result (held_by self.new ≡ fold_on (held_by self.old) (numbered_of entry.now)) }
        ensures err { OnErr result (held_by self.new ≡ held_by self.old) }
    {
        match entry.shadow {
            Shadow::Bid(bid) => self.fold_bid(entry, bid),
            Shadow::Buy(purchase) => self.fold_purchase(entry, purchase),
            Shadow::Close(close) => self.fold_close(entry, close),
            Shadow::Restock(restock) => self.fold_restock(entry, restock),
            Shadow::Rename(rename) => self.fold_rename(entry, rename),
            Shadow::User(nick) => return self.fold_user(alloc, entry, *nick),
            Shadow::Item(item) => return self.fold_item(alloc, entry, item),
            Shadow::Comment(comment) => return self.fold_comment(alloc, entry, comment),
        }
        Ok(())
    }

    // Folds both parts of a bid on.
    #[inline(never)]
    fn fold_bid(&mut self, entry: &LogEntry<'_>, bid: &NewBid)
        requires bid { entry.now.shadow.now ≡ Shadow.Bid bid.now }
        requires room { HasRoom self.old 2 }
        ensures { held_by self.new ≡ fold_on (held_by self.old) (numbered_of entry.now) }
    {
        self.fold_part(entry, 1, entry.bid_row(bid));
        self.fold_part(entry, 2, entry.bid_taken(bid));
    }

    // Folds the three parts of a purchase on.
    #[inline(never)]
    fn fold_purchase(&mut self, entry: &LogEntry<'_>, purchase: &PurchaseRow)
        requires purchase { entry.now.shadow.now ≡ Shadow.Buy purchase.now }
        requires room { HasRoom self.old 3 }
        ensures { held_by self.new ≡ fold_on (held_by self.old) (numbered_of entry.now) }
    {
        self.fold_part(entry, 1, entry.purchase_row(purchase));
        self.fold_part(entry, 2, sold(purchase));
        self.fold_part(entry, 3, bought(purchase));
    }

    // Folds both parts of a close on.
    #[inline(never)]
    fn fold_close(&mut self, entry: &LogEntry<'_>, close: &NewClose)
        requires close { entry.now.shadow.now ≡ Shadow.Close close.now }
        requires room { HasRoom self.old 2 }
        ensures { held_by self.new ≡ fold_on (held_by self.old) (numbered_of entry.now) }
    {
        let ended = Effect {
            key: RowKey::Item(close.item),
            change: Change::End(close.winner),
        };
        self.fold_part(entry, 1, ended);
        let left = Effect {
            key: RowKey::Cat(close.cat),
            change: Change::CatEnded,
        };
        self.fold_part(entry, 2, left);
    }

    // Folds the only part of a restock on.
    #[inline(never)]
    fn fold_restock(&mut self, entry: &LogEntry<'_>, restock: &NewRestock)
        requires restock { entry.now.shadow.now ≡ Shadow.Restock restock.now }
        requires room { HasRoom self.old 1 }
        ensures { held_by self.new ≡ fold_on (held_by self.old) (numbered_of entry.now) }
    {
        let restocked = Effect {
            key: RowKey::Item(restock.item),
            change: Change::Restocked(restock.quantity),
        };
        self.fold_part(entry, 1, restocked);
    }

    // Folds the three parts of a rename on.
    #[inline(never)]
    fn fold_rename(&mut self, entry: &LogEntry<'_>, rename: &NewRename)
        requires rename { entry.now.shadow.now ≡ Shadow.Rename rename.now }
        requires room { HasRoom self.old 3 }
        ensures { held_by self.new ≡ fold_on (held_by self.old) (numbered_of entry.now) }
    {
        let renamed = Effect {
            key: RowKey::User(rename.user()),
            change: Change::Renamed(rename.to()),
        };
        self.fold_part(entry, 1, renamed);
        let freed = Effect {
            key: RowKey::Nick(rename.from()),
            change: Change::NickFreed(rename.user()),
        };
        self.fold_part(entry, 2, freed);
        let taken = Effect {
            key: RowKey::Nick(rename.to()),
            change: Change::Insert(Row::Nick(rename.user())),
        };
        self.fold_part(entry, 3, taken);
    }

    // Folds both parts of a new user on.
    #[inline(never)]
    fn fold_user(
        &mut self,
        alloc: Global,
        entry: &LogEntry<'_>,
        nick: Nick,
    ) -> Result<(), AllocError>
        requires user { entry.now.shadow.now ≡ Shadow.User nick }
        requires room { HasRoom self.old 2 }
        ensures ok { OnOk result (held_by self.new ≡ fold_on (held_by self.old) (numbered_of entry.now)) }
        ensures err { OnErr result (held_by self.new ≡ held_by self.old) }
    {
        let Some(row) = entry.shadow.boxed_row(alloc)? else {
            unreachable!()
        };
        let user = Effect {
            key: RowKey::User(entry.id),
            change: Change::Insert(row),
        };
        self.fold_part(entry, 1, user);
        let taken = Effect {
            key: RowKey::Nick(nick),
            change: Change::Insert(Row::Nick(entry.id)),
        };
        self.fold_part(entry, 2, taken);
        Ok(())
    }

    // Folds the three parts of an item on.
    #[inline(never)]
    fn fold_item(
        &mut self,
        alloc: Global,
        entry: &LogEntry<'_>,
        item: &Shared<NewItem>,
    ) -> Result<(), AllocError>
        requires item { entry.now.shadow.now ≡ Shadow.Item item.now }
        requires room { HasRoom self.old 3 }
        ensures ok { OnOk result (held_by self.new ≡ fold_on (held_by self.old) (numbered_of entry.now)) }
        ensures err { OnErr result (held_by self.new ≡ held_by self.old) }
    {
        let Some(row) = entry.shadow.boxed_row(alloc)? else {
            unreachable!()
        };
        let offered = Effect {
            key: RowKey::Item(entry.id),
            change: Change::Insert(row),
        };
        self.fold_part(entry, 1, offered);
        let listed = Effect {
            key: RowKey::User(item.seller),
            change: Change::ItemListed,
        };
        self.fold_part(entry, 2, listed);
        let counted = Effect {
            key: RowKey::Cat(item.cat),
            change: Change::CatListed,
        };
        self.fold_part(entry, 3, counted);
        Ok(())
    }

    // Folds both parts of a comment on.
    #[inline(never)]
    fn fold_comment(
        &mut self,
        alloc: Global,
        entry: &LogEntry<'_>,
        comment: &Shared<CommentRow>,
    ) -> Result<(), AllocError>
        requires comment { entry.now.shadow.now ≡ Shadow.Comment comment.now }
        requires room { HasRoom self.old 2 }
        ensures ok { OnOk result (held_by self.new ≡ fold_on (held_by self.old) (numbered_of entry.now)) }
        ensures err { OnErr result (held_by self.new ≡ held_by self.old) }
    {
        let Some(row) = entry.shadow.boxed_row(alloc)? else {
            unreachable!()
        };
        let written = Effect {
            key: RowKey::Comment(entry.id),
            change: Change::Insert(row),
        };
        self.fold_part(entry, 1, written);
        let rated = Effect {
            key: RowKey::User(comment.to),
            change: Change::Rated(comment.rating),
        };
        self.fold_part(entry, 2, rated);
        Ok(())
    }
}
