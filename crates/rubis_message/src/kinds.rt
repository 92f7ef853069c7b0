//! The kinds of records: the word for each, and what follows it, asked or sent.

ghost use Rattle.std.specs.Prelude.{◌≡◌};
ghost use Rattle.rubis_message.specs.Readings.{Takes, kind_of, take_asked_close, take_asked_rename, take_asked_restock, take_bid, take_close, take_comment};
ghost use Rattle.rubis_message.specs.Readings.{take_item, take_purchase, take_rename, take_request, take_restock, take_shadow};

use crate::faults::ReadFault;
use crate::readers::Reader;
use crate::requests::Request;
use crate::words::says;
use rubis_schema::{
    AMOUNT_MAX, CAT_MAX, CommentRow, NewItem, PASS_MAX, PurchaseRow, QUANTITY_MAX, Record, Shared,
};
use rubis_shadow::{
    Ask, AskedClose, AskedRename, AskedRestock, NewBid, NewClose, NewRename, NewRestock, RenameAsk,
    Shadow,
};
use std::alloc::Global;

/// The first word of a request, or that of a message's shadow.
#[derive(Clone, Copy)]
pub enum RecordKind {
    User,
    Item,
    Bid,
    Buy,
    Close,
    Comment,
    Pass,
    List,
    Restock,
    Rename,
}

impl RecordKind {
    /// The kind that the word says.
    #[tactic(auto, unfolding(crate::specs::Readings::kind_of))]
    pub fn read(word: &[u8]) -> Option<RecordKind>
        ensures { result ≡ kind_of word.now }
    {
        if says(word, b"user") {
            Some(RecordKind::User)
        } else if says(word, b"item") {
            Some(RecordKind::Item)
        } else if says(word, b"bid") {
            Some(RecordKind::Bid)
        } else if says(word, b"buy") {
            Some(RecordKind::Buy)
        } else if says(word, b"close") {
            Some(RecordKind::Close)
        } else if says(word, b"comment") {
            Some(RecordKind::Comment)
        } else if says(word, b"pass") {
            Some(RecordKind::Pass)
        } else if says(word, b"list") {
            Some(RecordKind::List)
        } else if says(word, b"restock") {
            Some(RecordKind::Restock)
        } else if says(word, b"rename") {
            Some(RecordKind::Rename)
        } else {
            None
        }
    }
}

impl<'a, F: Record> Reader<'a, F> {
    /// A new item.
    #[tactic(auto, unfolding(crate::specs::Readings::take_item))]
    fn new_item(&mut self, alloc: Global, sites: u8) -> Result<Shared<NewItem>, ReadFault>
        ensures { Takes (take_item sites) self.old self.new result }
    {
        let seller = self.id(sites)?;
        let name = self.name(alloc)?;
        let cat = self.number(CAT_MAX)?;
        let stock = self.positive(QUANTITY_MAX)?;
        let start = self.positive(AMOUNT_MAX)?;
        let price = self.number(AMOUNT_MAX)?;
        let item = NewItem {
            seller,
            name,
            cat: cat as u16,
            stock,
            start,
            price,
        };
        Ok(Shared::new(alloc, item)?)
    }

    /// A bid.
    #[tactic(auto, unfolding(crate::specs::Readings::take_bid))]
    fn new_bid(&mut self, sites: u8) -> Result<NewBid, ReadFault>
        ensures { Takes (take_bid sites) self.old self.new result }
    {
        let item = self.id(sites)?;
        let bidder = self.id(sites)?;
        let amount = self.positive(AMOUNT_MAX)?;
        Ok(NewBid {
            item,
            bidder,
            amount,
        })
    }

    /// A purchase.
    #[tactic(auto, unfolding(crate::specs::Readings::take_purchase))]
    fn purchase(&mut self, sites: u8) -> Result<PurchaseRow, ReadFault>
        ensures { Takes (take_purchase sites) self.old self.new result }
    {
        let item = self.id(sites)?;
        let buyer = self.id(sites)?;
        let quantity = self.positive(QUANTITY_MAX)?;
        Ok(PurchaseRow {
            item,
            buyer,
            quantity,
        })
    }

    /// A comment.
    #[tactic(auto, unfolding(crate::specs::Readings::take_comment))]
    fn comment(&mut self, alloc: Global, sites: u8) -> Result<Shared<CommentRow>, ReadFault>
        ensures { Takes (take_comment sites) self.old self.new result }
    {
        let item = self.id(sites)?;
        let from = self.id(sites)?;
        let to = self.id(sites)?;
        let rating = self.rating()?;
        let text = self.text(alloc)?;
        let comment = CommentRow {
            item,
            from,
            to,
            rating,
            text,
        };
        Ok(Shared::new(alloc, comment)?)
    }

    /// The end of a sale that a user asks for.
    #[tactic(auto, unfolding(crate::specs::Readings::take_asked_close))]
    fn asked_close(&mut self, sites: u8) -> Result<AskedClose, ReadFault>
        ensures { Takes (take_asked_close sites) self.old self.new result }
    {
        let item = self.id(sites)?;
        let seller = self.id(sites)?;
        Ok(AskedClose { item, seller })
    }

    /// The pieces that a seller asks to add.
    #[tactic(auto, unfolding(crate::specs::Readings::take_asked_restock))]
    fn asked_restock(&mut self, sites: u8) -> Result<AskedRestock, ReadFault>
        ensures { Takes (take_asked_restock sites) self.old self.new result }
    {
        let item = self.id(sites)?;
        let seller = self.id(sites)?;
        let quantity = self.positive(QUANTITY_MAX)?;
        Ok(AskedRestock {
            item,
            seller,
            quantity,
        })
    }

    /// The nickname that a user asks for.
    #[tactic(auto, unfolding(crate::specs::Readings::take_asked_rename))]
    fn asked_rename(&mut self, alloc: Global, sites: u8) -> Result<RenameAsk, ReadFault>
        ensures { Takes (take_asked_rename sites) self.old self.new result }
    {
        let user = self.id(sites)?;
        let nick = self.nick()?;
        Ok(RenameAsk::new(alloc, AskedRename { user, nick })?)
    }

    /// The end of a sale.
    #[tactic(auto, unfolding(crate::specs::Readings::take_close))]
    fn new_close(&mut self, sites: u8) -> Result<NewClose, ReadFault>
        ensures { Takes (take_close sites) self.old self.new result }
    {
        let item = self.id(sites)?;
        let cat = self.number(CAT_MAX)?;
        let winner = self.winner(sites)?;
        Ok(NewClose {
            item,
            cat: cat as u16,
            winner,
        })
    }

    /// More pieces of an item.
    #[tactic(auto, unfolding(crate::specs::Readings::take_restock))]
    fn new_restock(&mut self, sites: u8) -> Result<NewRestock, ReadFault>
        ensures { Takes (take_restock sites) self.old self.new result }
    {
        let item = self.id(sites)?;
        let quantity = self.positive(QUANTITY_MAX)?;
        Ok(NewRestock { item, quantity })
    }

    /// Another nickname in place of the one that a user has.
    #[tactic(auto, unfolding(crate::specs::Readings::take_rename))]
    fn new_rename(&mut self, alloc: Global, sites: u8) -> Result<NewRename, ReadFault>
        ensures { Takes (take_rename sites) self.old self.new result }
    {
        let user = self.id(sites)?;
        let from = self.nick()?;
        let to = self.nick()?;
        if from == to {
            return Err(ReadFault::BadRecord);
        }
        Ok(NewRename::new(alloc, user, from, to)?)
    }

    /// A shadow.
    #[tactic(auto, unfolding(crate::specs::Readings::take_shadow))]
    pub fn shadow(&mut self, alloc: Global, sites: u8) -> Result<Shadow, ReadFault>
        ensures { Takes (take_shadow sites) self.old self.new result }
    {
        match self.kind()? {
            RecordKind::User => Ok(Shadow::User(self.nick()?)),
            RecordKind::Item => Ok(Shadow::Item(self.new_item(alloc, sites)?)),
            RecordKind::Bid => Ok(Shadow::Bid(self.new_bid(sites)?)),
            RecordKind::Buy => Ok(Shadow::Buy(self.purchase(sites)?)),
            RecordKind::Close => Ok(Shadow::Close(self.new_close(sites)?)),
            RecordKind::Comment => Ok(Shadow::Comment(self.comment(alloc, sites)?)),
            RecordKind::Restock => Ok(Shadow::Restock(self.new_restock(sites)?)),
            RecordKind::Rename => Ok(Shadow::Rename(self.new_rename(alloc, sites)?)),
            RecordKind::Pass | RecordKind::List => Err(ReadFault::BadRecord),
        }
    }

    /// A request.
    #[tactic(auto, unfolding(crate::specs::Readings::take_request))]
    pub fn request(&mut self, alloc: Global, sites: u8) -> Result<Request, ReadFault>
        ensures { Takes (take_request sites) self.old self.new result }
    {
        match self.kind()? {
            RecordKind::User => Ok(Request::Ask(Ask::User(self.nick()?))),
            RecordKind::Item => Ok(Request::Ask(Ask::Item(self.new_item(alloc, sites)?))),
            RecordKind::Bid => Ok(Request::Ask(Ask::Bid(self.new_bid(sites)?))),
            RecordKind::Buy => Ok(Request::Ask(Ask::Buy(self.purchase(sites)?))),
            RecordKind::Close => Ok(Request::Ask(Ask::Close(self.asked_close(sites)?))),
            RecordKind::Comment => Ok(Request::Ask(Ask::Comment(self.comment(alloc, sites)?))),
            RecordKind::Pass => Ok(Request::Pass(self.number(PASS_MAX)? as u8)),
            RecordKind::List => Ok(Request::List(self.listing(sites)?)),
            RecordKind::Restock => Ok(Request::Ask(Ask::Restock(self.asked_restock(sites)?))),
            RecordKind::Rename => Ok(Request::Ask(Ask::Rename(self.asked_rename(alloc, sites)?))),
        }
    }
}
