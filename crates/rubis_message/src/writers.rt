//! Records of what is sent.

ghost use Rattle.std.specs.Prelude.{◌≡◌, ◌++◌, ◌∷◌, [], IfOk, OnErr, OnOk, codes};
ghost use Rattle.rubis_message.specs.Grammar.{bid_fields, close_fields, comment_fields, item_fields, message_record, purchase_fields};
ghost use Rattle.rubis_message.specs.Grammar.{rename_fields, restock_fields, shadow_fields, token_record, winner_text};

use crate::messages::Message;
use crate::stamps::push_deps;
use crate::tokens::{TOKEN_VERSION, Token};
use rubis_schema::{CommentRow, Fields, Id, NewItem, PurchaseRow, push_int, push_number};
use rubis_shadow::{NewBid, NewClose, NewRename, NewRestock, Shadow};
use std::alloc::{AllocError, Global};

fn push_item(fields: &mut Fields, item: &NewItem) -> Result<(), AllocError>
    ensures { OnOk result (fields.new ≡ fields.old ++ codes "item" ∷ item_fields item.now) }
{
    fields.push_plain(b"item")?;
    item.seller.push_to(fields)?;
    fields.push(item.name.as_bytes())?;
    push_number(fields, u64::from(item.cat))?;
    push_number(fields, item.stock)?;
    push_number(fields, item.start)?;
    push_number(fields, item.price)
}

fn push_bid(fields: &mut Fields, bid: &NewBid) -> Result<(), AllocError>
    ensures { OnOk result (fields.new ≡ fields.old ++ codes "bid" ∷ bid_fields bid.now) }
{
    fields.push_plain(b"bid")?;
    bid.item.push_to(fields)?;
    bid.bidder.push_to(fields)?;
    push_number(fields, bid.amount)
}

fn push_purchase(fields: &mut Fields, purchase: &PurchaseRow) -> Result<(), AllocError>
    ensures { OnOk result (fields.new ≡ fields.old ++ codes "buy" ∷ purchase_fields purchase.now) }
{
    fields.push_plain(b"buy")?;
    purchase.item.push_to(fields)?;
    purchase.buyer.push_to(fields)?;
    push_number(fields, purchase.quantity)
}

fn push_winner(fields: &mut Fields, winner: Option<Id>) -> Result<(), AllocError>
    ensures { OnOk result (fields.new ≡ fields.old ++ winner_text winner ∷ []) }
{
    match winner {
        Some(id) => id.push_to(fields),
        None => fields.push_plain(b"none"),
    }
}

fn push_close(fields: &mut Fields, close: &NewClose) -> Result<(), AllocError>
    ensures { OnOk result (fields.new ≡ fields.old ++ codes "close" ∷ close_fields close.now) }
{
    fields.push_plain(b"close")?;
    close.item.push_to(fields)?;
    push_number(fields, u64::from(close.cat))?;
    push_winner(fields, close.winner)
}

fn push_comment(fields: &mut Fields, comment: &CommentRow) -> Result<(), AllocError>
    ensures { OnOk result (fields.new ≡ fields.old ++ codes "comment" ∷ comment_fields comment.now) }
{
    fields.push_plain(b"comment")?;
    comment.item.push_to(fields)?;
    comment.from.push_to(fields)?;
    comment.to.push_to(fields)?;
    push_int(fields, i64::from(comment.rating))?;
    fields.push(comment.text.as_bytes())
}

fn push_restock(fields: &mut Fields, restock: &NewRestock) -> Result<(), AllocError>
    ensures { OnOk result (fields.new ≡ fields.old ++ codes "restock" ∷ restock_fields restock.now) }
{
    fields.push_plain(b"restock")?;
    restock.item.push_to(fields)?;
    push_number(fields, restock.quantity)
}

fn push_rename(fields: &mut Fields, rename: &NewRename) -> Result<(), AllocError>
    ensures { OnOk result (fields.new ≡ fields.old ++ codes "rename" ∷ rename_fields rename.now) }
{
    fields.push_plain(b"rename")?;
    rename.user().push_to(fields)?;
    fields.push(rename.from().as_bytes())?;
    fields.push(rename.to().as_bytes())
}

fn push_shadow(fields: &mut Fields, shadow: &Shadow) -> Result<(), AllocError>
    ensures { OnOk result (fields.new ≡ fields.old ++ shadow_fields shadow.now) }
{
    match shadow {
        Shadow::User(nick) => {
            fields.push_plain(b"user")?;
            fields.push(nick.as_bytes())
        }
        Shadow::Item(item) => push_item(fields, item),
        Shadow::Bid(bid) => push_bid(fields, bid),
        Shadow::Buy(purchase) => push_purchase(fields, purchase),
        Shadow::Close(close) => push_close(fields, close),
        Shadow::Comment(comment) => push_comment(fields, comment),
        Shadow::Restock(restock) => push_restock(fields, restock),
        Shadow::Rename(rename) => push_rename(fields, rename),
    }
}

#[tactic(auto, using(crate::proofs::Versions::version_plain))]
fn push_message(fields: &mut Fields, message: &Message) -> Result<(), AllocError>
    ensures { OnOk result (fields.new ≡ fields.old ++ message_record message.now) }
{
    let id = message.id();
    fields.push_plain(b"msg")?;
    fields.push_plain(message.shadow().version())?;
    push_number(fields, u64::from(id.site))?;
    push_number(fields, u64::from(id.seq))?;
    push_number(fields, u64::from(message.red()))?;
    push_deps(fields, message.deps())?;
    push_shadow(fields, message.shadow())
}

fn push_token(fields: &mut Fields, token: &Token) -> Result<(), AllocError>
    ensures { OnOk result (fields.new ≡ fields.old ++ token_record token.now) }
{
    fields.push_plain(b"token")?;
    fields.push_plain(TOKEN_VERSION)?;
    push_number(fields, u64::from(token.turn))?;
    push_number(fields, u64::from(token.to))?;
    push_number(fields, u64::from(token.issued))
}

/// Adds the fields of a message. Without memory for them the record is left with no fields.
pub fn append_message(fields: &mut Fields, message: &Message) -> Result<(), AllocError>
    ensures ok { OnOk result (fields.new ≡ fields.old ++ message_record message.now) }
    ensures err { OnErr result (fields.new ≡ []) }
{
    let written = push_message(fields, message);
    if written.is_err() {
        fields.clear();
    }
    written
}

/// The record of a message.
pub fn write_message(alloc: Global, message: &Message) -> Result<Fields, AllocError>
    ensures { IfOk result (λ fields. fields ≡ message_record message.now) }
{
    let mut fields = Fields::new(alloc);
    push_message(&mut fields, message)?;
    Ok(fields)
}

/// The record of a token.
pub fn write_token(alloc: Global, token: &Token) -> Result<Fields, AllocError>
    ensures { IfOk result (λ fields. fields ≡ token_record token.now) }
{
    let mut fields = Fields::new(alloc);
    push_token(&mut fields, token)?;
    Ok(fields)
}
