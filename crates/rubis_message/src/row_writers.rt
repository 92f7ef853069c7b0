//! Records of what is sent, made in place where no field calls for quotes.

ghost use Rattle.std.specs.Prelude.{◌≡◌, ◌<◌, ◌≤◌, ◌+◌, ◌++◌, ◌∷◌, IsTrue, codes, length};
ghost use Rattle.rubis_message.specs.Grammar.{bid_fields, close_fields, comment_fields, deps_text, item_fields, message_record, purchase_fields};
ghost use Rattle.rubis_message.specs.Grammar.{rename_fields, restock_fields, shadow_fields, token_record, winner_text};
ghost use Rattle.rubis_message.specs.declared.row_writers.TheConstants.{MESSAGE_ROOM, SHADOW_ROOM, TOKEN_ROOM};
ghost use Rattle.rubis_schema.specs.declared.limits.TheConstants.{COUNTS_TEXT_MAX, ID_TEXT_MAX};

use crate::messages::Message;
use crate::tokens::{TOKEN_VERSION, Token};
use rubis_clock::PackedDeps;
use rubis_schema::{
    COUNTS_TEXT_MAX, CommentRow, Id, NewItem, Nick, PlainRow, PurchaseRow, put_int,
};
use rubis_shadow::{NewBid, NewClose, NewRename, NewRestock, Shadow};

/// The most bytes that a shadow's fields take, with a comma for each.
pub const SHADOW_ROOM: usize = 300;

/// The most bytes that a message's record takes, with a comma for each field.
pub const MESSAGE_ROOM: usize = SHADOW_ROOM + COUNTS_TEXT_MAX + 90;

/// The most bytes that a token's record takes, with a comma for each field.
pub const TOKEN_ROOM: usize = 80;

fn put_item(row: &mut PlainRow, item: &NewItem) -> bool
    requires room { SHADOW_ROOM ≤ row.old.left }
    ensures fields { IsTrue result → row.new.fields ≡ codes "item" ∷ item_fields item.now ++ row.old.fields }
    ensures left { IsTrue result → row.old.left ≤ row.new.left + SHADOW_ROOM }
{
    row.put_number(item.price);
    row.put_number(item.start);
    row.put_number(item.stock);
    row.put_number(u64::from(item.cat));
    if !row.put(item.name.as_bytes()) {
        return false;
    }
    row.put_id(item.seller);
    row.put_plain(b"item");
    true
}

fn put_bid(row: &mut PlainRow, bid: &NewBid)
    requires room { SHADOW_ROOM ≤ row.old.left }
    ensures fields { row.new.fields ≡ codes "bid" ∷ bid_fields bid.now ++ row.old.fields }
    ensures left { row.old.left ≤ row.new.left + SHADOW_ROOM }
{
    row.put_number(bid.amount);
    row.put_id(bid.bidder);
    row.put_id(bid.item);
    row.put_plain(b"bid");
}

fn put_purchase(row: &mut PlainRow, purchase: &PurchaseRow)
    requires room { SHADOW_ROOM ≤ row.old.left }
    ensures fields { row.new.fields ≡ codes "buy" ∷ purchase_fields purchase.now ++ row.old.fields }
    ensures left { row.old.left ≤ row.new.left + SHADOW_ROOM }
{
    row.put_number(purchase.quantity);
    row.put_id(purchase.buyer);
    row.put_id(purchase.item);
    row.put_plain(b"buy");
}

fn put_winner(row: &mut PlainRow, winner: Option<Id>)
    requires room { ID_TEXT_MAX + 1 ≤ row.old.left }
    ensures fields { row.new.fields ≡ winner_text winner ∷ row.old.fields }
    ensures left { row.old.left ≤ row.new.left + (ID_TEXT_MAX + 1) }
{
    match winner {
        Some(id) => row.put_id(id),
        None => row.put_plain(b"none"),
    }
}

fn put_close(row: &mut PlainRow, close: &NewClose)
    requires room { SHADOW_ROOM ≤ row.old.left }
    ensures fields { row.new.fields ≡ codes "close" ∷ close_fields close.now ++ row.old.fields }
    ensures left { row.old.left ≤ row.new.left + SHADOW_ROOM }
{
    put_winner(row, close.winner);
    row.put_number(u64::from(close.cat));
    row.put_id(close.item);
    row.put_plain(b"close");
}

fn put_comment(row: &mut PlainRow, comment: &CommentRow) -> bool
    requires room { SHADOW_ROOM ≤ row.old.left }
    ensures fields { IsTrue result → row.new.fields ≡ codes "comment" ∷ comment_fields comment.now ++ row.old.fields }
    ensures left { IsTrue result → row.old.left ≤ row.new.left + SHADOW_ROOM }
{
    if !row.put(comment.text.as_bytes()) {
        return false;
    }
    put_int(row, i64::from(comment.rating));
    row.put_id(comment.to);
    row.put_id(comment.from);
    row.put_id(comment.item);
    row.put_plain(b"comment");
    true
}

fn put_restock(row: &mut PlainRow, restock: &NewRestock)
    requires room { SHADOW_ROOM ≤ row.old.left }
    ensures fields { row.new.fields ≡ codes "restock" ∷ restock_fields restock.now ++ row.old.fields }
    ensures left { row.old.left ≤ row.new.left + SHADOW_ROOM }
{
    row.put_number(restock.quantity);
    row.put_id(restock.item);
    row.put_plain(b"restock");
}

fn put_rename(row: &mut PlainRow, rename: &NewRename) -> bool
    requires room { SHADOW_ROOM ≤ row.old.left }
    ensures fields { IsTrue result → row.new.fields ≡ codes "rename" ∷ rename_fields rename.now ++ row.old.fields }
    ensures left { IsTrue result → row.old.left ≤ row.new.left + SHADOW_ROOM }
{
    if !row.put(rename.to().as_bytes()) || !row.put(rename.from().as_bytes()) {
        return false;
    }
    row.put_id(rename.user());
    row.put_plain(b"rename");
    true
}

fn put_user(row: &mut PlainRow, nick: &Nick) -> bool
    requires room { SHADOW_ROOM ≤ row.old.left }
    ensures fields { IsTrue result → row.new.fields ≡ codes "user" ∷ nick.now ∷ row.old.fields }
    ensures left { IsTrue result → row.old.left ≤ row.new.left + SHADOW_ROOM }
{
    if !row.put(nick.as_bytes()) {
        return false;
    }
    row.put_plain(b"user");
    true
}

// Puts the kind's word and what follows it first.
#[inline(always)]
fn put_shadow(row: &mut PlainRow, shadow: &Shadow) -> bool
    requires room { SHADOW_ROOM ≤ row.old.left }
    ensures fields { IsTrue result → row.new.fields ≡ shadow_fields shadow.now ++ row.old.fields }
    ensures left { IsTrue result → row.old.left ≤ row.new.left + SHADOW_ROOM }
{
    match shadow {
        Shadow::User(nick) => return put_user(row, nick),
        Shadow::Item(item) => return put_item(row, item),
        Shadow::Comment(comment) => return put_comment(row, comment),
        Shadow::Rename(rename) => return put_rename(row, rename),
        Shadow::Bid(bid) => put_bid(row, bid),
        Shadow::Buy(purchase) => put_purchase(row, purchase),
        Shadow::Close(close) => put_close(row, close),
        Shadow::Restock(restock) => put_restock(row, restock),
    }
    true
}

// Puts the counts first, as one field.
#[inline(always)]
fn put_deps(row: &mut PlainRow, deps: &PackedDeps)
    requires some { 0 < length deps.now }
    requires room { COUNTS_TEXT_MAX + 10 ≤ row.old.left }
    ensures fields { row.new.fields ≡ deps_text deps.now ∷ row.old.fields }
    ensures left { row.old.left ≤ row.new.left + (COUNTS_TEXT_MAX + 10) }
{
    let last = deps.sites() - 1;
    row.put_number(u64::from(deps.count(last)));
    for site in (0..last).rev() {
        row.put_before(b':', deps.count(site));
    }
}

/// Puts the fields of a message first, and says whether that could be done: none of them may call for quotes. Where it says no,
/// some of them may stand there.
#[tactic(auto, using(crate::proofs::Versions::version_plain))]
pub fn put_message(row: &mut PlainRow, message: &Message) -> bool
    requires room { MESSAGE_ROOM ≤ row.old.left }
    ensures fields { IsTrue result → row.new.fields ≡ message_record message.now ++ row.old.fields }
    ensures left { IsTrue result → row.old.left ≤ row.new.left + MESSAGE_ROOM }
{
    if !put_shadow(row, message.shadow()) {
        return false;
    }
    put_deps(row, message.deps());
    row.put_number(u64::from(message.red()));
    let id = message.id();
    row.put_number(u64::from(id.seq));
    row.put_number(u64::from(id.site));
    row.put_plain(message.shadow().version());
    row.put_plain(b"msg");
    true
}

/// Puts the fields of a token first.
pub fn put_token(row: &mut PlainRow, token: &Token)
    requires room { TOKEN_ROOM ≤ row.old.left }
    ensures fields { row.new.fields ≡ token_record token.now ++ row.old.fields }
    ensures left { row.old.left ≤ row.new.left + TOKEN_ROOM }
{
    row.put_number(u64::from(token.issued));
    row.put_number(u64::from(token.to));
    row.put_number(u64::from(token.turn));
    row.put_plain(TOKEN_VERSION);
    row.put_plain(b"token");
}
