//! The parts of a shadow, one for each key that it touches, and the keys that it refers to.

ghost use Rattle.std.specs.Prelude.{◌≡◌, ◌≤◌, ◌∷◌, ℕ, Some, length, option_map, slice_get, IfOk};
ghost use Rattle.rubis_schema.specs.declared.ids.Id.{Id};
ghost use Rattle.rubis_shadow.specs.declared.shadows.Shadow.TheVariants as Shadow;
ghost use Rattle.rubis_shadow.specs.Shadows.{key_of, new_item, new_user, parts, refers_of, winner_key};
ghost use Rattle.rubis_shadow.specs.Changes.{both_as, both_of, change_of};
ghost use Rattle.rubis_shadow.specs.Freed.{FreesOnlyNicks, FreesOnlyNicks-prop};
ghost use Rattle.rubis_shadow.specs.declared.changes.Change.TheVariants.{BidTaken, Insert};
ghost use Rattle.rubis_shadow.specs.Tables.{HasBoxedRow, boxed_row_in};
ghost use Rattle.rubis_schema.specs.declared.rows.Row.TheVariants as rows;

use crate::changes::Change;
use crate::keyed_change::Effect;
use crate::keys::{Keys, keys_of};
use crate::renames::NewRename;
use crate::shadows::{NewBid, NewClose, NewRestock, Shadow};
use rubis_schema::{
    Best, BidRow, Boxed, CommentRow, Id, ItemRow, NewItem, Nick, OfferedName, PackedBid,
    PurchaseRow, Row, RowKey, Sale, Shared, UserRow,
};
use std::alloc::{AllocError, Global};
use std::marker::Model;

/// The most parts of a shadow.
pub const PARTS_MAX: u8 = 3;

// A change: an insert of a row that is in a box or shared, by what it is made of, or another change as it is.
#[derive(Drop)]
enum ChangeRef<'a> {
    NewUser(Nick),
    NewItem(&'a Shared<NewItem>),
    NewComment(&'a Shared<CommentRow>),
    Whole(Change),
}

/// A part of a shadow that borrows what the shadow shares. Contracts see the effect.
#[derive(Drop)]
pub struct EffectRef<'a> {
    key: RowKey,
    change: ChangeRef<'a>,
    ghost frees: { FreesOnlyNicks key (change_of change) } by { FreesOnlyNicks-prop key (change_of change) },
}

impl<'a> Model for EffectRef<'a> {
    ghost use Rattle.rubis_shadow.specs.declared.keyed_change.Effect.{Effect};
    ghost use Rattle.rubis_shadow.specs.contracts.keyed_change.Effect as effect;
    ghost use Rattle.rubis_shadow.specs.Changes.{change_of};

    ghost Value = { Effect };

    ghost coded = { effect.the_row.coded };

    ghost view = { λ e. record { key = e.key; change = change_of e.change; frees = e.frees } };
}

impl Shadow {
    /// How many parts the shadow has.
    pub fn count_parts(&self) -> u8
        ensures count { (id : Id) (red : ℕ) → result ≡ length (parts id red self.now) }
        ensures few { result ≤ PARTS_MAX }
    {
        match self {
            Shadow::User(_) | Shadow::Bid(_) | Shadow::Close(_) | Shadow::Comment(_) => 2,
            Shadow::Item(_) | Shadow::Buy(_) | Shadow::Rename(_) => 3,
            Shadow::Restock(_) => 1,
        }
    }

    /// The row that the first part inserts, where that is in a box or shared.
    #[inline(always)]
    pub fn boxed_row(&self, alloc: Global) -> Result<Option<Row>, AllocError>
        ensures { IfOk result (λ row. (id : Id) (red : ℕ) → HasBoxedRow (slice_get (parts id red self.now) 0) row) }
    {
        match self {
            Shadow::User(nick) => Ok(Some(user_row(alloc, *nick)?)),
            Shadow::Item(item) => Ok(Some(item_row(alloc, item)?)),
            Shadow::Comment(comment) => Ok(Some(comment_row(comment)?)),
            _ => Ok(None),
        }
    }

    /// The part at this place, from 0, of the shadow with that id and red number.
    #[tactic(auto, using(crate::proofs::PartFacts::frees_of))]
    #[inline(always)]
    pub fn effect(&self, id: Id, red: u32, place: u8) -> Option<EffectRef<'_>>
        ensures { result ≡ slice_get (parts id red self.now) place }
    {
        let (key, change) = self.key_and_change(id, red, place)?;
        Some(EffectRef { key, change })
    }

    // The key of the part at this place, and what the part does to the row there.
    #[inline(always)]
    fn key_and_change(&self, id: Id, red: u32, place: u8) -> Option<(RowKey, ChangeRef<'_>)>
        ensures { option_map both_as result ≡ option_map both_of (slice_get (parts id red self.now) place) }
    {
        match (self, place) {
            (Shadow::User(nick), 0) => Some((RowKey::User(id), ChangeRef::NewUser(*nick))),
            (Shadow::User(nick), 1) => whole(RowKey::Nick(*nick), Change::Insert(Row::Nick(id))),
            (Shadow::Item(item), 0) => Some((RowKey::Item(id), ChangeRef::NewItem(item))),
            (Shadow::Item(item), 1) => whole(RowKey::User(item.seller), Change::ItemListed),
            (Shadow::Item(item), 2) => whole(RowKey::Cat(item.cat), Change::CatListed),
            (Shadow::Bid(bid), 0) => whole(RowKey::Bid(id), bid_row(red, bid)),
            (Shadow::Bid(bid), 1) => whole(RowKey::Item(bid.item), bid_taken(id, bid)),
            (Shadow::Buy(buy), 0) => whole(
                RowKey::Purchase(id),
                Change::Insert(Row::Purchase(*buy)),
            ),
            (Shadow::Buy(buy), 1) => whole(RowKey::Item(buy.item), Change::Sold(buy.quantity)),
            (Shadow::Buy(buy), 2) => whole(RowKey::User(buy.buyer), Change::Bought(buy.quantity)),
            (Shadow::Close(close), 0) => whole(RowKey::Item(close.item), Change::End(close.winner)),
            (Shadow::Close(close), 1) => whole(RowKey::Cat(close.cat), Change::CatEnded),
            (Shadow::Comment(comment), 0) => Some((
                RowKey::Comment(id),
                ChangeRef::NewComment(comment),
            )),
            (Shadow::Comment(comment), 1) => whole(
                RowKey::User(comment.to),
                Change::Rated(comment.rating),
            ),
            (Shadow::Restock(more), 0) => whole(
                RowKey::Item(more.item),
                Change::Restocked(more.quantity),
            ),
            (Shadow::Rename(new), 0) => whole(RowKey::User(new.user()), Change::Renamed(new.to())),
            (Shadow::Rename(new), 1) => whole(
                RowKey::Nick(new.from()),
                Change::NickFreed(new.user()),
            ),
            (Shadow::Rename(new), 2) => whole(
                RowKey::Nick(new.to()),
                Change::Insert(Row::Nick(new.user())),
            ),
            _ => None,
        }
    }

    /// The key of the part at this place, from 0; `id` is the shadow's own.
    #[inline(always)]
    pub fn key(&self, id: Id, place: u8) -> Option<RowKey>
        ensures { (red : ℕ) → result ≡ option_map key_of (slice_get (parts id red self.now) place) }
    {
        Some(self.key_and_change(id, 0, place)?.0)
    }

    /// The keys of the rows that the shadow takes to be there.
    pub fn refers(&self) -> Keys
        ensures { result ≡ refers_of self.now }
    {
        match self {
            Shadow::User(_) => keys_of(None, None, None),
            Shadow::Item(item) => keys_of(Some(RowKey::User(item.seller)), None, None),
            Shadow::Bid(bid) => keys_of(
                Some(RowKey::Item(bid.item)),
                Some(RowKey::User(bid.bidder)),
                None,
            ),
            Shadow::Buy(buy) => keys_of(
                Some(RowKey::Item(buy.item)),
                Some(RowKey::User(buy.buyer)),
                None,
            ),
            Shadow::Close(close) => close_keys(close),
            Shadow::Comment(comment) => keys_of(
                Some(RowKey::Item(comment.item)),
                Some(RowKey::User(comment.from)),
                Some(RowKey::User(comment.to)),
            ),
            Shadow::Restock(restock) => keys_of(Some(RowKey::Item(restock.item)), None, None),
            Shadow::Rename(rename) => keys_of(Some(RowKey::User(rename.user())), None, None),
        }
    }
}

// The keys of an item and of its winning bid, if there is one.
fn close_keys(close: &NewClose) -> Keys
    ensures { result ≡ RowKey.Item close.now.item ∷ winner_key close.now.winner }
{
    let item = Some(RowKey::Item(close.item));
    match close.winner {
        Some(bid) => keys_of(item, Some(RowKey::Bid(bid)), None),
        None => keys_of(item, None, None),
    }
}

// That change, which borrows nothing, of the row at that key.
#[inline(always)]
fn whole<'a>(key: RowKey, change: Change) -> Option<(RowKey, ChangeRef<'a>)>
    ensures { option_map both_as result ≡ Some (key, change) }
{
    Some((key, ChangeRef::Whole(change)))
}

// What the first part of a bid does: it enters the bid.
#[inline(always)]
fn bid_row(red: u32, bid: &NewBid) -> Change
    ensures { result ≡ Insert (rows.Bid (record { item = bid.now.item; bidder = bid.now.bidder; amount = bid.now.amount; red = red })) }
{
    Change::Insert(Row::Bid(PackedBid::new(BidRow {
        item: bid.item,
        bidder: bid.bidder,
        amount: bid.amount,
        red,
    })))
}

// What the second does: the item has one bid more.
#[inline(always)]
fn bid_taken(id: Id, bid: &NewBid) -> Change
    ensures { result ≡ BidTaken (record { bid = id; amount = bid.now.amount }) }
{
    Change::BidTaken(Best {
        bid: id,
        amount: bid.amount,
    })
}

// The row of a user that is new.
fn user_row(alloc: Global, nick: Nick) -> Result<Row, AllocError>
    ensures { IfOk result (λ row. row ≡ rows.User (new_user nick)) }
{
    let row = UserRow {
        nick,
        items: 0,
        bought: 0,
        rating: 0,
        comments: 0,
    };
    Ok(Row::User(Boxed::new(alloc, row)?))
}

// The row of an item that is offered.
fn item_row(alloc: Global, item: &Shared<NewItem>) -> Result<Row, AllocError>
    ensures { IfOk result (λ row. row ≡ rows.Item (new_item item.now)) }
{
    let row = ItemRow {
        seller: item.seller,
        name: OfferedName::new(item)?,
        cat: item.cat,
        stock: item.stock,
        sold: 0,
        start: item.start,
        price: item.price,
        bids: 0,
        best: None,
        sale: Sale::Open,
    };
    Ok(Row::Item(Boxed::new(alloc, row)?))
}

// The row of a comment.
fn comment_row(comment: &Shared<CommentRow>) -> Result<Row, AllocError>
    ensures { IfOk result (λ row. row ≡ rows.Comment comment.now) }
{
    Ok(Row::Comment(comment.clone()?))
}

// The change, with its row in a box or shared, where it has one.
#[inline(always)]
fn change_with(change: ChangeRef<'_>, row: Option<Row>) -> Change
    requires { row ≡ boxed_row_in (change_of change) }
    ensures { result ≡ change_of change.entry }
{
    match change {
        ChangeRef::Whole(change) => change,
        _ => Change::Insert(row.unwrap()),
    }
}

impl<'a> EffectRef<'a> {
    /// The key of the row that the part changes.
    pub fn key(&self) -> RowKey
        ensures { result ≡ self.now.key }
    {
        self.key
    }

    /// An equal effect that borrows nothing.
    pub fn own(&self, alloc: Global) -> Result<Effect, AllocError>
        ensures { IfOk result (λ effect. effect ≡ self.now) }
    {
        let change = match &self.change {
            ChangeRef::NewUser(nick) => Change::Insert(user_row(alloc, *nick)?),
            ChangeRef::NewItem(item) => Change::Insert(item_row(alloc, item)?),
            ChangeRef::NewComment(comment) => Change::Insert(comment_row(comment)?),
            ChangeRef::Whole(change) => change.copy()?,
        };
        Ok(Effect {
            key: self.key,
            change,
        })
    }

    /// An equal effect that borrows nothing, with the row that it inserts, where that is in a box or shared. It takes no memory.
    #[inline(always)]
    pub fn own_with(self, row: Option<Row>) -> Effect
        requires { row ≡ boxed_row_in self.change }
        ensures { result ≡ self.entry }
    {
        let EffectRef { key, change } = self;
        Effect {
            key,
            change: change_with(change, row),
        }
    }
}
