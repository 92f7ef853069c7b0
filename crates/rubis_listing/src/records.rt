//! The records of rows.

ghost use Rattle.std.specs.Bool.{MatchBool};
ghost use Rattle.std.specs.Prelude.{◌≡◌, ◌++◌, ◌∷◌, [], IfOk, OnOk, codes, true};
ghost use Rattle.rubis_schema.specs.FieldList.{is_plain};
ghost use Rattle.rubis_message.specs.Grammar.{comment_fields, purchase_fields, winner_text};
ghost use Rattle.rubis_model.specs.Listings.{best_fields, bid_row_fields, by_id, category_record, item_row_fields, row_record, sale_fields, user_fields};

use rubis_schema::{
    Best, BidRow, CatRow, CommentRow, Fields, Id, ItemRow, PurchaseRow, Row, RowKey, Sale, UserRow,
    push_int, push_number,
};
use std::alloc::AllocError;

// Begins the record of the row with that id.
fn begin(fields: &mut Fields, kind: &[u8], id: &Id) -> Result<(), AllocError>
    requires { is_plain kind.now ≡ true }
    ensures { OnOk result (fields.new ≡ by_id kind.now id.now []) }
{
    fields.clear();
    fields.push_plain(b"row")?;
    fields.push_plain(kind)?;
    id.push_to(fields)
}

fn put_user(fields: &mut Fields, id: &Id, user: &UserRow) -> Result<(), AllocError>
    ensures { OnOk result (fields.new ≡ by_id (codes "user") id.now (user_fields user.now)) }
{
    begin(fields, b"user", id)?;
    fields.push(user.nick.as_bytes())?;
    push_number(fields, user.items)?;
    push_number(fields, user.bought)?;
    push_int(fields, user.rating)?;
    push_number(fields, user.comments)
}

fn push_best(fields: &mut Fields, best: &Option<Best>) -> Result<(), AllocError>
    ensures { OnOk result (fields.new ≡ fields.old ++ best_fields best.now) }
{
    match best {
        Some(best) => {
            best.bid.push_to(fields)?;
            push_number(fields, best.amount)
        }
        None => {
            fields.push_plain(b"none")?;
            fields.push_plain(b"0")
        }
    }
}

fn push_winner(fields: &mut Fields, winner: &Option<Id>) -> Result<(), AllocError>
    ensures { OnOk result (fields.new ≡ fields.old ++ winner_text winner.now ∷ []) }
{
    match winner {
        Some(id) => id.push_to(fields),
        None => fields.push_plain(b"none"),
    }
}

fn push_sale(fields: &mut Fields, sale: &Sale) -> Result<(), AllocError>
    ensures { OnOk result (fields.new ≡ fields.old ++ sale_fields sale.now) }
{
    match sale {
        Sale::Open => {
            fields.push_plain(b"open")?;
            fields.push_plain(b"none")
        }
        Sale::Ended(winner) => {
            fields.push_plain(b"closed")?;
            push_winner(fields, winner)
        }
    }
}

fn put_item(fields: &mut Fields, id: &Id, item: &ItemRow) -> Result<(), AllocError>
    ensures { OnOk result (fields.new ≡ by_id (codes "item") id.now (item_row_fields item.now)) }
{
    begin(fields, b"item", id)?;
    item.seller.push_to(fields)?;
    fields.push(item.name.as_bytes())?;
    push_number(fields, u64::from(item.cat))?;
    push_number(fields, item.stock)?;
    push_number(fields, item.sold)?;
    push_number(fields, item.start)?;
    push_number(fields, item.price)?;
    push_number(fields, item.bids)?;
    push_best(fields, &item.best)?;
    push_sale(fields, &item.sale)
}

fn put_bid(fields: &mut Fields, id: &Id, bid: &BidRow) -> Result<(), AllocError>
    ensures { OnOk result (fields.new ≡ by_id (codes "bid") id.now (bid_row_fields bid.now)) }
{
    begin(fields, b"bid", id)?;
    bid.item.push_to(fields)?;
    bid.bidder.push_to(fields)?;
    push_number(fields, bid.amount)?;
    push_number(fields, u64::from(bid.red))
}

fn put_purchase(fields: &mut Fields, id: &Id, purchase: &PurchaseRow) -> Result<(), AllocError>
    ensures { OnOk result (fields.new ≡ by_id (codes "purchase") id.now (purchase_fields purchase.now)) }
{
    begin(fields, b"purchase", id)?;
    purchase.item.push_to(fields)?;
    purchase.buyer.push_to(fields)?;
    push_number(fields, purchase.quantity)
}

fn put_comment(fields: &mut Fields, id: &Id, comment: &CommentRow) -> Result<(), AllocError>
    ensures { OnOk result (fields.new ≡ by_id (codes "comment") id.now (comment_fields comment.now)) }
{
    begin(fields, b"comment", id)?;
    comment.item.push_to(fields)?;
    comment.from.push_to(fields)?;
    comment.to.push_to(fields)?;
    push_int(fields, i64::from(comment.rating))?;
    fields.push(comment.text.as_bytes())
}

fn put_category(fields: &mut Fields, cat: u16, row: &CatRow) -> Result<(), AllocError>
    ensures { OnOk result (fields.new ≡ category_record cat row.now) }
{
    fields.clear();
    fields.push_plain(b"row")?;
    fields.push_plain(b"category")?;
    push_number(fields, u64::from(cat))?;
    push_number(fields, row.items)?;
    push_int(fields, row.live)
}

/// The record of the row at a key, as listings show it, in place of what `fields` had. Whether there is one: there is none for a
/// nickname, nor for a category that shows nothing.
pub fn put_record(fields: &mut Fields, key: &RowKey, row: &Row) -> Result<bool, AllocError>
    ensures { IfOk result (λ has. MatchBool has (row_record key.now row.now ≡ fields.new ∷ []) (row_record key.now row.now ≡ [])) }
{
    match (key, row) {
        (RowKey::User(id), Row::User(user)) => put_user(fields, id, user)?,
        (RowKey::Item(id), Row::Item(item)) => put_item(fields, id, item)?,
        (RowKey::Bid(id), Row::Bid(bid)) => put_bid(fields, id, &bid.row())?,
        (RowKey::Purchase(id), Row::Purchase(purchase)) => put_purchase(fields, id, purchase)?,
        (RowKey::Comment(id), Row::Comment(comment)) => put_comment(fields, id, comment)?,
        (RowKey::Cat(cat), Row::Cat(row)) => {
            if row.shows_nothing() {
                return Ok(false);
            }
            put_category(fields, *cat, row)?
        }
        _ => return Ok(false),
    }
    Ok(true)
}
