//! What a site decides of a request: its shadow, or the refusal.

ghost use Rattle.std.specs.Prelude.{◌≡◌, IfErr, IfOk, false, is_some, option_copied, true};
ghost use Rattle.rubis_schema.specs.declared.refusals.Refusal.TheVariants as Refusal;
ghost use Rattle.rubis_shadow.specs.declared.shadows.Ask.TheVariants as Ask;
ghost use Rattle.rubis_generate.specs.Decision.{row_by_key, user_in, item_in, is_ended, IsBuyerRefusal, IsRedRefusal, IsSellerRefusal, MayBuy, MayMakeRed};
ghost use Rattle.rubis_generate.specs.Decision.{MaySell, decision};

use crate::standing::Standing;
use rubis_schema::{
    CommentRow, Id, ItemRow, NewItem, Nick, PurchaseRow, Refusal, Row, RowKey, Sale, Shared,
    UserRow, View,
};
use rubis_shadow::{
    Ask, AskedClose, AskedRestock, NewBid, NewClose, NewRename, NewRestock, RenameAsk, Shadow,
};

// The user's row.
fn user_row<V: View>(view: &V, user: Id) -> Option<&UserRow>
    ensures { option_copied result ≡ user_in (row_by_key (V.tables view.now)) user }
{
    match view.row(&RowKey::User(user)) {
        Some(Row::User(row)) => Some(row),
        _ => None,
    }
}

// The item's row.
fn item_row<V: View>(view: &V, item: Id) -> Option<&ItemRow>
    ensures { option_copied result ≡ item_in (row_by_key (V.tables view.now)) item }
{
    match view.row(&RowKey::Item(item)) {
        Some(Row::Item(row)) => Some(row),
        _ => None,
    }
}

// Whether the sale is over.
fn is_over(sale: &Sale) -> bool
    ensures { result ≡ is_ended sale.now }
{
    match sale {
        Sale::Open => false,
        Sale::Ended(_) => true,
    }
}

// Whether the site keeps one more message.
#[inline(always)]
fn check_room(standing: &Standing) -> Result<(), Refusal>
    ensures ok { IfOk result (λ _. standing.now.full ≡ false) }
    ensures full { IfErr result (λ refusal. (refusal ≡ Refusal.Full) × (standing.now.full ≡ true)) }
{
    if standing.full {
        return Err(Refusal::Full);
    }
    Ok(())
}

// Whether the site may make a red message.
#[inline(always)]
fn check_red(standing: &Standing) -> Result<(), Refusal>
    ensures ok { IfOk result (λ _. MayMakeRed standing.now) }
    ensures refused { IfErr result (IsRedRefusal standing.now) }
{
    check_room(standing)?;
    if !standing.holds {
        return Err(Refusal::NoToken);
    }
    if !standing.current {
        return Err(Refusal::RedBehind);
    }
    Ok(())
}

// Whether the user may bid on the item, or buy it.
#[inline(always)]
fn check_buyer<V: View>(view: &V, user: Id, item: &ItemRow) -> Result<(), Refusal>
    ensures ok { IfOk result (λ _. MayBuy (is_some (user_in (row_by_key (V.tables view.now)) user)) user item.now) }
    ensures refused { IfErr result (IsBuyerRefusal (is_some (user_in (row_by_key (V.tables view.now)) user)) user item.now) }
{
    if user_row(view, user).is_none() {
        return Err(Refusal::NoUser);
    }
    if is_over(&item.sale) {
        return Err(Refusal::Closed);
    }
    if user == item.seller {
        return Err(Refusal::OwnItem);
    }
    Ok(())
}

// Whether the user sells the item, and its sale is open.
#[inline(always)]
fn check_seller(user: Id, item: &ItemRow) -> Result<(), Refusal>
    ensures ok { IfOk result (λ _. MaySell user item.now) }
    ensures refused { IfErr result (IsSellerRefusal user item.now) }
{
    if user != item.seller {
        return Err(Refusal::NotSeller);
    }
    if is_over(&item.sale) {
        return Err(Refusal::Closed);
    }
    Ok(())
}

fn decide_user<V: View>(nick: Nick, view: &V, standing: &Standing) -> Result<Shadow, Refusal>
    ensures { result ≡ decision (row_by_key (V.tables view.now)) standing.now (Ask.User nick) }
{
    check_red(standing)?;
    if view.row(&RowKey::Nick(nick)).is_some() {
        return Err(Refusal::NickTaken);
    }
    Ok(Shadow::User(nick))
}

fn decide_item<V: View>(
    item: Shared<NewItem>,
    view: &V,
    standing: &Standing,
) -> Result<Shadow, Refusal>
    ensures { result ≡ decision (row_by_key (V.tables view.now)) standing.now (Ask.Item item) }
{
    check_room(standing)?;
    if user_row(view, item.seller).is_none() {
        return Err(Refusal::NoUser);
    }
    Ok(Shadow::Item(item))
}

fn decide_bid<V: View>(bid: NewBid, view: &V, standing: &Standing) -> Result<Shadow, Refusal>
    ensures { result ≡ decision (row_by_key (V.tables view.now)) standing.now (Ask.Bid bid) }
{
    check_red(standing)?;
    let Some(item) = item_row(view, bid.item) else {
        return Err(Refusal::NoItem);
    };
    check_buyer(view, bid.bidder, item)?;
    if bid.amount < item.start {
        return Err(Refusal::LowBid);
    }
    Ok(Shadow::Bid(bid))
}

fn decide_buy<V: View>(
    purchase: PurchaseRow,
    view: &V,
    standing: &Standing,
) -> Result<Shadow, Refusal>
    ensures { result ≡ decision (row_by_key (V.tables view.now)) standing.now (Ask.Buy purchase) }
{
    check_red(standing)?;
    let Some(item) = item_row(view, purchase.item) else {
        return Err(Refusal::NoItem);
    };
    check_buyer(view, purchase.buyer, item)?;
    if item.price == 0 {
        return Err(Refusal::NoBuyNow);
    }
    if item.stock < purchase.quantity {
        return Err(Refusal::StockShort);
    }
    Ok(Shadow::Buy(purchase))
}

fn decide_close<V: View>(
    close: AskedClose,
    view: &V,
    standing: &Standing,
) -> Result<Shadow, Refusal>
    ensures { result ≡ decision (row_by_key (V.tables view.now)) standing.now (Ask.Close close) }
{
    check_red(standing)?;
    let Some(item) = item_row(view, close.item) else {
        return Err(Refusal::NoItem);
    };
    check_seller(close.seller, item)?;
    Ok(Shadow::Close(NewClose {
        item: close.item,
        cat: item.cat,
        winner: item.best.map(|best| best.bid),
    }))
}

fn decide_comment<V: View>(
    comment: Shared<CommentRow>,
    view: &V,
    standing: &Standing,
) -> Result<Shadow, Refusal>
    ensures { result ≡ decision (row_by_key (V.tables view.now)) standing.now (Ask.Comment comment) }
{
    check_room(standing)?;
    if item_row(view, comment.item).is_none() {
        return Err(Refusal::NoItem);
    }
    if user_row(view, comment.from).is_none() || user_row(view, comment.to).is_none() {
        return Err(Refusal::NoUser);
    }
    if comment.from == comment.to {
        return Err(Refusal::SelfComment);
    }
    Ok(Shadow::Comment(comment))
}

fn decide_restock<V: View>(
    restock: AskedRestock,
    view: &V,
    standing: &Standing,
) -> Result<Shadow, Refusal>
    ensures { result ≡ decision (row_by_key (V.tables view.now)) standing.now (Ask.Restock restock) }
{
    check_room(standing)?;
    let Some(item) = item_row(view, restock.item) else {
        return Err(Refusal::NoItem);
    };
    check_seller(restock.seller, item)?;
    Ok(Shadow::Restock(NewRestock {
        item: restock.item,
        quantity: restock.quantity,
    }))
}

fn decide_rename<V: View>(
    rename: RenameAsk,
    view: &V,
    standing: &Standing,
) -> Result<Shadow, Refusal>
    ensures { result ≡ decision (row_by_key (V.tables view.now)) standing.now (Ask.Rename rename) }
{
    check_red(standing)?;
    let Some(user) = user_row(view, rename.user()) else {
        return Err(Refusal::NoUser);
    };
    if view.row(&RowKey::Nick(rename.nick())).is_some() || user.nick == rename.nick() {
        return Err(Refusal::NickTaken);
    }
    Ok(Shadow::Rename(NewRename::of(rename, user.nick)))
}

/// The shadow of the ask, or the first refusal that holds, in the order of the ask's tests. A close carries the item's
/// category and its best bid.
pub fn decide<V: View>(ask: Ask, view: &V, standing: &Standing) -> Result<Shadow, Refusal>
    ensures { result ≡ decision (row_by_key (V.tables view.now)) standing.now ask }
{
    match ask {
        Ask::User(nick) => decide_user(nick, view, standing),
        Ask::Item(item) => decide_item(item, view, standing),
        Ask::Bid(bid) => decide_bid(bid, view, standing),
        Ask::Buy(purchase) => decide_buy(purchase, view, standing),
        Ask::Close(close) => decide_close(close, view, standing),
        Ask::Comment(comment) => decide_comment(comment, view, standing),
        Ask::Restock(restock) => decide_restock(restock, view, standing),
        Ask::Rename(rename) => decide_rename(rename, view, standing),
    }
}
